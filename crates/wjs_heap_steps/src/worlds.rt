//! Worlds ("Worlds: Controlling the Scope of Side Effects", ECOOP 2011).
ghost use Rattle.std.specs.Prelude.{◌≡◌, IfOk, IfSome, OnOk, MatchResult, Some, true};
ghost use Rattle.wjs_base.specs.declared.ids.ObjId.{ObjId};
ghost use Rattle.wjs_store.specs.Shown.{verdict_of};
ghost use Rattle.wjs_by_content.specs.Rename.{shape};
ghost use Rattle.wjs_arena.specs.Entries as numbered;
ghost use Rattle.wjs_by_content.specs.Tables.{value_in};
ghost use Rattle.wjs_by_content.specs.Values.{Object};
ghost use Rattle.wjs_meaning.specs.Deeds as deed;
ghost use Rattle.wjs_meaning.specs.Deeds.{Do, Create};
ghost use Rattle.wjs_meaning.specs.WorldValues as line;
ghost use Rattle.wjs_model.specs.Soundness.{Base, IsThere, HasObject, HasValue, HasWorld};
ghost use Rattle.wjs_model.specs.Standing.{IsShown};
ghost use Rattle.wjs_frames.specs.Doing.{Does, Fails};
ghost use Rattle.wjs_frames.specs.Following.{Later};
ghost use Rattle.wjs_frames.specs.Parts.{env_in};
ghost use Rattle.wjs_heap_steps.specs.Worlds.{found_then, world_then};

use crate::errors::create_error;
use crate::looks::world_for;
use crate::makes::{builtin, object_of};
use wjs_arena::Class;
use wjs_base::{ObjId, OutOfMemory, Value, WorldId};
use wjs_meaning::{Builtin, Trouble};
use wjs_model::{Config, Frame};
use wjs_store::{Verdict, WorldStore};

/// Whether a world is there.
fn has_world<S: WorldStore>(config: &Config<S>, world: WorldId) -> Result<bool, OutOfMemory>
    ensures does { IfOk result (λ answer. Does S.meaning (λ t go. Do (deed.HasWorld world) go) (λ t. answer) config.now config.now) }
    ensures found { IfOk result (λ answer. answer ≡ true → HasWorld S.meaning config.now world) }
{
    if config.heap.store.is_spent() {
        return Err(OutOfMemory);
    }
    Ok(config.heap.store.has_world(world))
}

/// Makes a child of a world, strict where that is asked. No object stands for it yet.
pub fn sprout<S: WorldStore>(
    config: &mut Config<S>,
    world: WorldId,
    strict: bool,
) -> Result<WorldId, OutOfMemory>
    requires base { Base S.meaning config.old }
    requires world { HasWorld S.meaning config.old world }
    ensures does { IfOk result (λ child. Does S.meaning (λ t go. Do (deed.Sprout world config.old.owner strict) go) (λ t. child) config.old config.new) }
    ensures later { OnOk result (Later S.meaning config.old config.new) }
    ensures found { IfOk result (λ child. HasWorld S.meaning config.new child) }
    ensures fresh { IfOk result (λ child. (o : ObjId) → ¬ (numbered.world_of config.new.heap.arena o ≡ Some child)) }
{
    if config.heap.store.is_spent() {
        return Err(OutOfMemory);
    }
    let child = wjs_props::sprout(&mut config.heap, world, config.owner, strict)?;
    Ok(child)
}

/// Commits a world to its parent.
pub fn commit<S: WorldStore>(config: &mut Config<S>, world: WorldId) -> Result<Verdict, OutOfMemory>
    requires base { Base S.meaning config.old }
    requires world { HasWorld S.meaning config.old world }
    ensures does { IfOk result (λ verdict. Does S.meaning (λ t go. Do (deed.Commit world) go) (λ t. shape (verdict_of verdict)) config.old config.new) }
    ensures later { OnOk result (Later S.meaning config.old config.new) }
{
    let verdict = wjs_props::commit(&mut config.heap, world)?;
    Ok(verdict)
}

/// Makes the World object of a world for which no object stands.
pub fn create_world_object<S: WorldStore>(
    config: &mut Config<S>,
    world: WorldId,
) -> Result<ObjId, OutOfMemory>
    requires base { Base S.meaning config.old }
    requires world { HasWorld S.meaning config.old world }
    requires fresh { (o : ObjId) → ¬ (numbered.world_of config.old.heap.arena o ≡ Some world) }
    ensures does { IfOk result (λ o. Does S.meaning (λ t go. Do (Create config.old.owner (line.world_object_of world)) go) (λ t. o) config.old config.new) }
    ensures later { OnOk result (Later S.meaning config.old config.new) }
    ensures found { IfOk result (λ o. HasObject config.new o) }
{
    let prototype = builtin(config, Builtin::WorldPrototype);
    let alloc = config.heap.arena.allocator();
    let mut object = object_of(alloc, Class::World, Some(prototype));
    object.world = Some(world);
    let o = wjs_props::create(&mut config.heap, config.owner, object)?;
    Ok(o)
}

/// The world of a value, which is there; else the error that is thrown.
pub fn world_of<S: WorldStore>(
    config: &mut Config<S>,
    frame: &Frame,
    value: Value,
) -> Result<Result<WorldId, Value>, OutOfMemory>
    requires base { Base S.meaning config.old }
    requires there { IsThere S.meaning config.old frame.now }
    requires value { HasValue config.old value }
    ensures does { IfOk result (λ answer. MatchResult answer
        (λ world. Does S.meaning (λ t. line.world_of (value_in t value) (env_in S.meaning config.old t frame.now)) (λ t. world) config.old config.new)
        (λ error. Fails S.meaning (λ t. line.world_of (value_in t value) (env_in S.meaning config.old t frame.now))
        (λ t. value_in t error) config.old config.new)) }
    ensures later { OnOk result (Later S.meaning config.old config.new) }
    ensures found { IfOk result (λ answer. MatchResult answer (λ world. HasWorld S.meaning config.new world) (λ error. HasValue config.new error)) }
    ensures shown { IfOk result (λ answer. MatchResult answer (λ world. IsShown config.new.heap.arena world) (λ error. Unit {0})) }
{
    let found = world_at(config, value)?;
    match found {
        Some(world) => Ok(Ok(world)),
        None => {
            let error = create_error(config, Trouble::NotAWorld)?;
            Ok(Err(Value::Object(error)))
        }
    }
}

/// The world for which a value stands and which is there, if there is one; OutOfMemory where memory ran out.
pub fn world_at<S: WorldStore>(
    config: &Config<S>,
    value: Value,
) -> Result<Option<WorldId>, OutOfMemory>
    requires { HasValue config.now value }
    ensures does { IfOk result (λ found. Does S.meaning (λ t go. world_then (value_in t value) go) (λ t. found) config.now config.now) }
    ensures found { IfOk result (λ found. IfSome found (λ world. HasWorld S.meaning config.now world)) }
    ensures shown { IfOk result (λ found. IfSome found (λ world. IsShown config.now.heap.arena world)) }
{
    match value {
        Value::Object(object) => world_there(config, world_for(config, object)),
        _ => Ok(None),
    }
}

/// The world, if it is there.
fn world_there<S: WorldStore>(
    config: &Config<S>,
    world: Option<WorldId>,
) -> Result<Option<WorldId>, OutOfMemory>
    requires shown { IfSome world (λ world. IsShown config.now.heap.arena world) }
    ensures does { IfOk result (λ found. Does S.meaning (λ t go. found_then world go) (λ t. found) config.now config.now) }
    ensures found { IfOk result (λ found. IfSome found (λ world. HasWorld S.meaning config.now world)) }
    ensures shown { IfOk result (λ found. IfSome found (λ world. IsShown config.now.heap.arena world)) }
{
    match world {
        None => Ok(None),
        Some(world) => {
            let there = has_world(config, world)?;
            if there { Ok(Some(world)) } else { Ok(None) }
        }
    }
}
