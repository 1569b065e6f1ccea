//! The entry of parts that may have their value at once.
ghost use Rattle.wjs_meaning.specs.Deeds.{Ret, Eval};
ghost use Rattle.wjs_model.specs.Soundness.{HasPoint, StandsHere};
ghost use Rattle.wjs_frames.specs.Parts.{goal_of, node_of, then_at};
ghost use Rattle.wjs_frames.specs.Handling.{Runs, GoesOn};

use crate::parts::quick;
use wjs_base::OutOfMemory;
use wjs_frames::{Part, enter, enter_last, finish, go_on_with};
use wjs_model::{Completion, Config, Frame, Point};
use wjs_store::WorldStore;

/// The frame waits at a point for a part, which is entered; or goes on there with its value, where that is had at once.
#[inline(always)]
pub fn enter_quickly<S: WorldStore>(
    config: &mut Config<S>,
    frame: Frame,
    point: Point,
    part: Part,
) -> Result<(), OutOfMemory>
    requires runs { Runs S.meaning config.old frame }
    requires point { HasPoint config.old frame point }
    requires part { StandsHere config.old frame (node_of part) }
    ensures { GoesOn S.meaning frame config.old config.new result (λ t env. Eval (goal_of part) env (then_at S.meaning config.old frame point t env)) }
{
    match quick(config, &frame, part) {
        Some(value) => go_on_with(config, frame, point, Completion::Gives(value)),
        None => enter(config, frame, point, part),
    }
}

/// A part is entered in the place of the frame that was taken off; or the frame ends with its value, where that is had at once.
#[inline(always)]
pub fn enter_last_quickly<S: WorldStore>(
    config: &mut Config<S>,
    frame: Frame,
    part: Part,
) -> Result<(), OutOfMemory>
    requires runs { Runs S.meaning config.old frame }
    requires part { StandsHere config.old frame (node_of part) }
    ensures { GoesOn S.meaning frame config.old config.new result (λ t env. Eval (goal_of part) env Ret) }
{
    match quick(config, &frame, part) {
        Some(value) => finish(config, frame, Completion::Gives(value)),
        None => enter_last(config, frame, part),
    }
}
