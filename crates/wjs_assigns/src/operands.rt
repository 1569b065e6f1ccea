//! Operands that may be targets (ECMA-262, 3rd edition, sections 8.7 and 11.4).
ghost use Rattle.wjs_meaning.specs.Deeds.{Eval, AtExpr};
ghost use Rattle.wjs_model.specs.Soundness.{HasPoint, StandsHere};
ghost use Rattle.wjs_frames.specs.Parts.{then_at};
ghost use Rattle.wjs_assigns.specs.Operands.{operand_at};
ghost use Rattle.wjs_frames.specs.Handling.{Runs, GoesOn};

use wjs_base::OutOfMemory;
use wjs_frames::{Part, enter};
use wjs_members::is_target;
use wjs_model::{Config, ExprPoint, Frame, Point};
use wjs_quick::enter_quickly;
use wjs_store::WorldStore;
use wjs_tree::NodeId;

/// An operand that is a target is entered as one. Any other has its value at once, or is entered for it. The frame waits for each at a
/// point of its own.
pub(crate) fn enter_operand<S: WorldStore>(
    config: &mut Config<S>,
    frame: Frame,
    operand: NodeId,
    as_target: ExprPoint,
    as_value: ExprPoint,
) -> Result<(), OutOfMemory>
    requires runs { Runs S.meaning config.old frame }
    requires operand { StandsHere config.old frame operand }
    requires as_target { HasPoint config.old frame (Point.Expr as_target) }
    requires as_value { HasPoint config.old frame (Point.Expr as_value) }
    ensures { GoesOn S.meaning frame config.old config.new result (λ t env.
        operand_at operand.0 env (then_at S.meaning config.old frame (Point.Expr as_target) t env)
        (then_at S.meaning config.old frame (Point.Expr as_value) t env)) }
{
    if is_target(config, &frame, operand) {
        enter(config, frame, Point::Expr(as_target), Part::Target(operand))
    } else {
        enter_quickly(config, frame, Point::Expr(as_value), Part::Expr(operand))
    }
}

/// An operand has its value at once, or is entered for it.
pub(crate) fn enter_value<S: WorldStore>(
    config: &mut Config<S>,
    frame: Frame,
    operand: NodeId,
    point: ExprPoint,
) -> Result<(), OutOfMemory>
    requires runs { Runs S.meaning config.old frame }
    requires operand { StandsHere config.old frame operand }
    requires point { HasPoint config.old frame (Point.Expr point) }
    ensures { GoesOn S.meaning frame config.old config.new result (λ t env.
        Eval (AtExpr operand.0) env (then_at S.meaning config.old frame (Point.Expr point) t env)) }
{
    enter_quickly(config, frame, Point::Expr(point), Part::Expr(operand))
}
