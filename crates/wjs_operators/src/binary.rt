//! Operators between two operands (ECMA-262, 3rd edition, sections 11.5 to 11.11).
ghost use Rattle.wjs_by_content.specs.Tables.{value_in};
ghost use Rattle.wjs_meaning.specs.Deeds.{Eval, AtExpr, then_value};
ghost use Rattle.wjs_meaning.specs.Expressions as line;
ghost use Rattle.wjs_model.specs.Contents.{value_held};
ghost use Rattle.wjs_model.specs.Soundness.{HasValue, StandsHere};
ghost use Rattle.wjs_frames.specs.Handling.{Runs, IsAt, GoesOn};

use crate::operations::operate;
use wjs_base::{OutOfMemory, Value};
use wjs_frames::{Part, enter, finish, hold};
use wjs_model::{Completion, Config, ExprPoint, Frame, Held, Point};
use wjs_quick::{enter_last_quickly, quick};
use wjs_step_common::{held_value, to_boolean};
use wjs_store::WorldStore;
use wjs_tree::{BinaryOperator, Node, NodeId};

/// At its entry: the left operand has its value at once, or is entered (ECMA-262, 3rd edition, sections 11.5 to 11.11).
pub fn binary_start<S: WorldStore>(
    config: &mut Config<S>,
    frame: Frame,
    left: NodeId,
    operator: BinaryOperator,
    right: NodeId,
) -> Result<(), OutOfMemory>
    requires runs { Runs S.meaning config.old frame }
    requires node { IsAt S.meaning config.old frame (Node.Binary left operator right) }
    ensures { GoesOn S.meaning frame config.old config.new result (λ t env. Eval (AtExpr left.0) env (then_value (line.binary_left operator right.0 env))) }
{
    match quick(config, &frame, Part::Expr(left)) {
        Some(value) => binary_left(config, frame, operator, right, value),
        None => {
            let point = Point::Expr(ExprPoint::BinaryLeft(operator, right));
            enter(config, frame, point, Part::Expr(left))
        }
    }
}

/// After the left value: `&&` and `||` may end with it (section 11.11); every other operator asks for the right one.
#[inline(always)]
pub fn binary_left<S: WorldStore>(
    config: &mut Config<S>,
    frame: Frame,
    operator: BinaryOperator,
    right: NodeId,
    value: Value,
) -> Result<(), OutOfMemory>
    requires runs { Runs S.meaning config.old frame }
    requires right { StandsHere config.old frame right }
    requires value { HasValue config.old value }
    ensures { GoesOn S.meaning frame config.old config.new result (λ t env. line.binary_left operator right.0 env (value_in t value)) }
{
    match operator {
        BinaryOperator::And => and_left(config, frame, right, value),
        BinaryOperator::Or => or_left(config, frame, right, value),
        _ => hold_left(config, frame, operator, right, value),
    }
}

/// The right operand has its value at once, or is entered with the left value held.
#[inline(always)]
fn hold_left<S: WorldStore>(
    config: &mut Config<S>,
    frame: Frame,
    operator: BinaryOperator,
    right: NodeId,
    value: Value,
) -> Result<(), OutOfMemory>
    requires runs { Runs S.meaning config.old frame }
    requires right { StandsHere config.old frame right }
    requires value { HasValue config.old value }
    ensures { GoesOn S.meaning frame config.old config.new result (λ t env.
        Eval (AtExpr right.0) env (then_value (line.binary_right operator (value_in t value) env))) }
{
    match quick(config, &frame, Part::Expr(right)) {
        Some(second) => operate(config, frame, operator, value, second),
        None => enter_right(config, frame, operator, right, value),
    }
}

/// The left value is held, and the right operand is entered.
fn enter_right<S: WorldStore>(
    config: &mut Config<S>,
    frame: Frame,
    operator: BinaryOperator,
    right: NodeId,
    value: Value,
) -> Result<(), OutOfMemory>
    requires runs { Runs S.meaning config.old frame }
    requires right { StandsHere config.old frame right }
    requires value { HasValue config.old value }
    ensures { GoesOn S.meaning frame config.old config.new result (λ t env.
        Eval (AtExpr right.0) env (then_value (line.binary_right operator (value_in t value) env))) }
{
    let mut frame = frame;
    hold(&mut frame, Held::Value(value))?;
    let point = Point::Expr(ExprPoint::BinaryRight(operator));
    enter(config, frame, point, Part::Expr(right))
}

/// After the left of `&&`: the right counts where the left does.
fn and_left<S: WorldStore>(
    config: &mut Config<S>,
    frame: Frame,
    right: NodeId,
    value: Value,
) -> Result<(), OutOfMemory>
    requires runs { Runs S.meaning config.old frame }
    requires right { StandsHere config.old frame right }
    requires value { HasValue config.old value }
    ensures { GoesOn S.meaning frame config.old config.new result (λ t env. line.and_left right.0 env (value_in t value)) }
{
    if to_boolean(config, value) {
        enter_last_quickly(config, frame, Part::Expr(right))
    } else {
        finish(config, frame, Completion::Gives(value))
    }
}

/// After the left of `||`: the right counts where the left does not.
fn or_left<S: WorldStore>(
    config: &mut Config<S>,
    frame: Frame,
    right: NodeId,
    value: Value,
) -> Result<(), OutOfMemory>
    requires runs { Runs S.meaning config.old frame }
    requires right { StandsHere config.old frame right }
    requires value { HasValue config.old value }
    ensures { GoesOn S.meaning frame config.old config.new result (λ t env. line.or_left right.0 env (value_in t value)) }
{
    if to_boolean(config, value) {
        finish(config, frame, Completion::Gives(value))
    } else {
        enter_last_quickly(config, frame, Part::Expr(right))
    }
}

/// After the right value: the operation on the left one, which is held, and the right one.
#[inline(always)]
pub fn binary_right<S: WorldStore>(
    config: &mut Config<S>,
    frame: Frame,
    operator: BinaryOperator,
    value: Value,
) -> Result<(), OutOfMemory>
    requires runs { Runs S.meaning config.old frame }
    requires value { HasValue config.old value }
    ensures { GoesOn S.meaning frame config.old config.new result (λ t env.
        line.binary_right operator (value_in t (value_held frame.held)) env (value_in t value)) }
{
    let first = held_value(config, &frame);
    operate(config, frame, operator, first, value)
}
