//! Whose the worlds of a configuration are.
ghost use Rattle.std.specs.Prelude.{◌≡◌, true, IfSome};
ghost use Rattle.wjs_model.specs.Soundness.{HasObject, HasWorld, Sound};

use wjs_base::{ObjId, WorldId};
use wjs_model::Config;
use wjs_store::WorldStore;

/// Whether a world of the configuration's store was made by its owner: each was.
pub fn is_of_owner<S: WorldStore>(config: &Config<S>, world: WorldId) -> bool
    requires sound { Sound S.meaning config.now }
    requires world { HasWorld S.meaning config.now world }
    ensures { result ≡ true }
{
    world.owner == config.owner
}

/// The world that an object stands for, which the object's owner has made.
pub fn world_of_object<S: WorldStore>(config: &Config<S>, object: ObjId) -> Option<WorldId>
    requires sound { Sound S.meaning config.now }
    requires object { HasObject config.now object }
    ensures { IfSome result (λ world. world.owner ≡ object.owner) }
{
    config.heap.arena.world(object)
}
