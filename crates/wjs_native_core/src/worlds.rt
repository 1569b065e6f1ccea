//! The native functions of World ("Worlds: Controlling the Scope of Side Effects", ECOOP 2011, section 2).
ghost use Rattle.wjs_by_content.specs.Tables.{value_in};
ghost use Rattle.wjs_meaning.specs.Deeds as deed;
ghost use Rattle.wjs_meaning.specs.NativesOfObjects as line;
ghost use Rattle.wjs_meaning.specs.WorldValues.{world_object_of};
ghost use Rattle.wjs_model.specs.Soundness.{HasValue, HasWorld};
ghost use Rattle.wjs_frames.specs.Handling.{Runs, GoesOn};

use wjs_base::{OutOfMemory, Value, WorldId};
use wjs_frames::finish;
use wjs_heap_steps::{commit, create_world_object, sprout, world_of};
use wjs_model::{Completion, Config, Frame, Trouble};
use wjs_step_common::{give, throw};
use wjs_store::{Verdict, WorldStore};

/// `sprout` and `sproutStrict`: a child of the receiver's world, as a World object.
pub(crate) fn give_child<S: WorldStore>(
    config: &mut Config<S>,
    frame: Frame,
    strict: bool,
    this: Value,
) -> Result<(), OutOfMemory>
    requires runs { Runs S.meaning config.old frame }
    requires this { HasValue config.old this }
    ensures { GoesOn S.meaning frame config.old config.new result (λ t env. line.sprout strict (value_in t this) env) }
{
    match world_of(config, &frame, this)? {
        Ok(world) => sprout_of(config, frame, strict, world),
        Err(error) => finish(config, frame, Completion::Throws(error)),
    }
}

/// A child of a world.
fn sprout_of<S: WorldStore>(
    config: &mut Config<S>,
    frame: Frame,
    strict: bool,
    world: WorldId,
) -> Result<(), OutOfMemory>
    requires runs { Runs S.meaning config.old frame }
    requires world { HasWorld S.meaning config.old world }
    ensures { GoesOn S.meaning frame config.old config.new result (λ t env.
        deed.Do (deed.Sprout world env.owner strict) (λ child. deed.Do (deed.Create env.owner (world_object_of child)) line.give_object)) }
{
    let child = sprout(config, world, strict)?;
    let object = create_world_object(config, child)?;
    give(config, frame, Value::Object(object))
}

/// `commit`: what the receiver's world has written moves to its parent, unless what it has read differs there.
pub(crate) fn commit_to_parent<S: WorldStore>(
    config: &mut Config<S>,
    frame: Frame,
    this: Value,
) -> Result<(), OutOfMemory>
    requires runs { Runs S.meaning config.old frame }
    requires this { HasValue config.old this }
    ensures { GoesOn S.meaning frame config.old config.new result (λ t env. line.commit (value_in t this) env) }
{
    match world_of(config, &frame, this)? {
        Ok(world) => commit_world(config, frame, world),
        Err(error) => finish(config, frame, Completion::Throws(error)),
    }
}

/// Commits a world.
fn commit_world<S: WorldStore>(
    config: &mut Config<S>,
    frame: Frame,
    world: WorldId,
) -> Result<(), OutOfMemory>
    requires runs { Runs S.meaning config.old frame }
    requires world { HasWorld S.meaning config.old world }
    ensures { GoesOn S.meaning frame config.old config.new result (λ t env. deed.Do (deed.Commit world) (line.commit_answer env)) }
{
    match commit(config, world)? {
        Verdict::Moved => give(config, frame, Value::Undefined),
        Verdict::Disagrees(_) => throw(config, frame, Trouble::CommitFailed),
        Verdict::NoParent => throw(config, frame, Trouble::NoParentWorld),
    }
}
