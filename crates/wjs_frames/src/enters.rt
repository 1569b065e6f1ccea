//! The entry of parts.
ghost use Rattle.wjs_meaning.specs.Deeds.{Ret, Eval};
ghost use Rattle.wjs_model.specs.Soundness.{HasPoint, StandsHere};
ghost use Rattle.wjs_frames.specs.Parts.{goal_of, node_of, then_at};
ghost use Rattle.wjs_frames.specs.Operands.{IsOperand};
ghost use Rattle.wjs_frames.specs.Handling.{Runs, GoesOn};

use crate::operands::operand_of;
use crate::part::{Part, waiting_at};
use wjs_base::OutOfMemory;
use wjs_model::{Config, Frame, Operand, Phase, Point};
use wjs_store::WorldStore;

/// The frame waits at a point for a part, which is entered where the frame is run.
#[inline(always)]
pub fn enter<S: WorldStore>(
    config: &mut Config<S>,
    frame: Frame,
    point: Point,
    part: Part,
) -> Result<(), OutOfMemory>
    requires runs { Runs S.meaning config.old frame }
    requires point { HasPoint config.old frame point }
    requires part { StandsHere config.old frame (node_of part) }
    ensures { GoesOn S.meaning frame config.old config.new result (λ t env. Eval (goal_of part) env (then_at S.meaning config.old frame point t env)) }
{
    match operand_of(config, &frame, part) {
        Some(operand) => enter_operand(config, frame, point, part, operand),
        None => enter_above(config, frame, point, part),
    }
}

/// A part that needs no frame: a step is due, with which the frame goes on.
#[inline(always)]
fn enter_operand<S: WorldStore>(
    config: &mut Config<S>,
    frame: Frame,
    point: Point,
    part: Part,
    operand: Operand,
) -> Result<(), OutOfMemory>
    requires runs { Runs S.meaning config.old frame }
    requires point { HasPoint config.old frame point }
    requires operand { IsOperand S.meaning config.old frame part operand }
    ensures { GoesOn S.meaning frame config.old config.new result (λ t env. Eval (goal_of part) env (then_at S.meaning config.old frame point t env)) }
{
    let _part = part;
    config
        .frames
        .push_at(frame, Phase::Entering(point, operand))?;
    Ok(())
}

/// A part with a frame of its own.
#[inline(always)]
fn enter_above<S: WorldStore>(
    config: &mut Config<S>,
    frame: Frame,
    point: Point,
    part: Part,
) -> Result<(), OutOfMemory>
    requires runs { Runs S.meaning config.old frame }
    requires point { HasPoint config.old frame point }
    requires part { StandsHere config.old frame (node_of part) }
    ensures { GoesOn S.meaning frame config.old config.new result (λ t env. Eval (goal_of part) env (then_at S.meaning config.old frame point t env)) }
{
    let waiting = waiting_at(frame, point);
    config
        .frames
        .push_begun(waiting, part.start(), part.node())?;
    Ok(())
}

/// A part is entered in the place of the frame that was taken off.
#[inline(always)]
pub fn enter_last<S: WorldStore>(
    config: &mut Config<S>,
    frame: Frame,
    part: Part,
) -> Result<(), OutOfMemory>
    requires runs { Runs S.meaning config.old frame }
    requires part { StandsHere config.old frame (node_of part) }
    ensures { GoesOn S.meaning frame config.old config.new result (λ t env. Eval (goal_of part) env Ret) }
{
    let mut frame = frame;
    frame.begin(part.node());
    config.frames.push_at(frame, Phase::Due(part.start()))?;
    Ok(())
}
