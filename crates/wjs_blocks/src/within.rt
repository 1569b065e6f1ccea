//! The statement `in`, whose block is run in a world ("Worlds: Controlling the Scope of Side Effects", ECOOP 2011).
ghost use Rattle.wjs_by_content.specs.Tables.{value_in};
ghost use Rattle.wjs_meaning.specs.Deeds.{then_value};
ghost use Rattle.wjs_meaning.specs.Statements.{within_value};
ghost use Rattle.wjs_model.specs.Contents.{completion_in};
ghost use Rattle.wjs_model.specs.Soundness.{HasValue, HasCompletion, StandsHere};
ghost use Rattle.wjs_frames.specs.Handling.{Runs, GoesOn};

use crate::enters::enter_within;
use wjs_base::{OutOfMemory, Value};
use wjs_frames::{Part, finish};
use wjs_heap_steps::world_of;
use wjs_model::{Completion, Config, Frame};
use wjs_store::WorldStore;
use wjs_tree::NodeId;

/// After the value of the world.
pub fn within_world<S: WorldStore>(
    config: &mut Config<S>,
    frame: Frame,
    b: NodeId,
    completion: Completion,
) -> Result<(), OutOfMemory>
    requires runs { Runs S.meaning config.old frame }
    requires part { StandsHere config.old frame b }
    requires completion { HasCompletion config.old completion }
    ensures { GoesOn S.meaning frame config.old config.new result (λ t env. then_value (within_value b.0 env) (completion_in t completion)) }
{
    match completion {
        Completion::Gives(value) => within(config, frame, b, value),
        other => finish(config, frame, other),
    }
}

/// The block in the world of a value; nothing is set back after it.
fn within<S: WorldStore>(
    config: &mut Config<S>,
    frame: Frame,
    b: NodeId,
    value: Value,
) -> Result<(), OutOfMemory>
    requires runs { Runs S.meaning config.old frame }
    requires part { StandsHere config.old frame b }
    requires value { HasValue config.old value }
    ensures { GoesOn S.meaning frame config.old config.new result (λ t env. within_value b.0 env (value_in t value)) }
{
    match world_of(config, &frame, value)? {
        Ok(world) => enter_within(config, frame, world, Part::Stmt(b)),
        Err(error) => finish(config, frame, Completion::Throws(error)),
    }
}
