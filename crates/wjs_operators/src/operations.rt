//! The operation of an operator on two values (ECMA-262, 3rd edition, sections 11.5 to 11.10), and what follows the
//! conversions of its operands.
ghost use Rattle.wjs_by_content.specs.Tables.{value_in};
ghost use Rattle.wjs_meaning.specs.Deeds.{Gives};
ghost use Rattle.wjs_meaning.specs.Operators as line;
ghost use Rattle.wjs_model.specs.Contents.{value_held};
ghost use Rattle.wjs_model.specs.Waiting as after;
ghost use Rattle.wjs_model.specs.Soundness.{HasValue};
ghost use Rattle.wjs_frames.specs.Handling.{Runs, GoesOn};

use crate::additions::{add, add_both, add_right};
use crate::comparisons::{compare, compare_both, compare_right};
use crate::equality::{equal, equal_after, equal_strictly};
use crate::operands::{calculate, calculate_both, calculate_left};
use crate::relations::{in_left, in_values, instance_values};
use wjs_base::{OutOfMemory, Value};
use wjs_model::{Config, Frame};
use wjs_store::WorldStore;
use wjs_tree::BinaryOperator;

/// The operation on two values: at once where both are primitives; an object is converted while the frame waits, the left value
/// first (ECMA-262, 3rd edition, sections 11.5 to 11.10).
#[inline(always)]
pub fn operate<S: WorldStore>(
    config: &mut Config<S>,
    frame: Frame,
    operator: BinaryOperator,
    left: Value,
    right: Value,
) -> Result<(), OutOfMemory>
    requires runs { Runs S.meaning config.old frame }
    requires left { HasValue config.old left }
    requires right { HasValue config.old right }
    ensures { GoesOn S.meaning frame config.old config.new result (λ t env. line.operate operator (value_in t left) (value_in t right) env) }
{
    match operator {
        BinaryOperator::Add => add(config, frame, left, right),
        BinaryOperator::Less => compare(config, frame, BinaryOperator::Less, left, right),
        BinaryOperator::Greater => compare(config, frame, BinaryOperator::Greater, left, right),
        BinaryOperator::LessEqual => compare(config, frame, BinaryOperator::LessEqual, left, right),
        BinaryOperator::GreaterEqual => compare(
            config,
            frame,
            BinaryOperator::GreaterEqual,
            left,
            right,
        ),
        BinaryOperator::Equal => equal(config, frame, false, left, right),
        BinaryOperator::NotEqual => equal(config, frame, true, left, right),
        BinaryOperator::StrictEqual => equal_strictly(config, frame, false, left, right),
        BinaryOperator::StrictNotEqual => equal_strictly(config, frame, true, left, right),
        BinaryOperator::In => in_values(config, frame, left, right),
        BinaryOperator::Instanceof => instance_values(config, frame, left, right),
        _ => calculate(config, frame, operator, left, right),
    }
}

/// After the conversion of the first operand, the second being held: the second is converted, or the operation is done.
pub fn operand_first<S: WorldStore>(
    config: &mut Config<S>,
    frame: Frame,
    operator: BinaryOperator,
    value: Value,
) -> Result<(), OutOfMemory>
    requires runs { Runs S.meaning config.old frame }
    requires value { HasValue config.old value }
    ensures { GoesOn S.meaning frame config.old config.new result (λ t env.
        after.operand_first operator (value_in t (value_held frame.held)) env (Gives (value_in t value))) }
{
    match operator {
        BinaryOperator::Add => add_right(config, frame, value),
        BinaryOperator::Less => compare_right(config, frame, BinaryOperator::Less, value),
        BinaryOperator::Greater => compare_right(config, frame, BinaryOperator::Greater, value),
        BinaryOperator::LessEqual => compare_right(config, frame, BinaryOperator::LessEqual, value),
        BinaryOperator::GreaterEqual => compare_right(
            config,
            frame,
            BinaryOperator::GreaterEqual,
            value,
        ),
        BinaryOperator::Equal => equal_after(config, frame, false, value),
        BinaryOperator::NotEqual => equal_after(config, frame, true, value),
        BinaryOperator::In => in_left(config, frame, value),
        _ => calculate_left(config, frame, operator, value),
    }
}

/// After the conversion of the second operand, the first being held: the operation is done. `==`, `!=` and `in` convert only one
/// operand, so that theirs is the first.
pub fn operand_second<S: WorldStore>(
    config: &mut Config<S>,
    frame: Frame,
    operator: BinaryOperator,
    value: Value,
) -> Result<(), OutOfMemory>
    requires runs { Runs S.meaning config.old frame }
    requires value { HasValue config.old value }
    ensures { GoesOn S.meaning frame config.old config.new result (λ t env.
        after.operand_second operator (value_in t (value_held frame.held)) env (Gives (value_in t value))) }
{
    match operator {
        BinaryOperator::Add => add_both(config, frame, value),
        BinaryOperator::Less => compare_both(config, frame, BinaryOperator::Less, value),
        BinaryOperator::Greater => compare_both(config, frame, BinaryOperator::Greater, value),
        BinaryOperator::LessEqual => compare_both(config, frame, BinaryOperator::LessEqual, value),
        BinaryOperator::GreaterEqual => compare_both(
            config,
            frame,
            BinaryOperator::GreaterEqual,
            value,
        ),
        BinaryOperator::Equal => equal_after(config, frame, false, value),
        BinaryOperator::NotEqual => equal_after(config, frame, true, value),
        BinaryOperator::In => in_left(config, frame, value),
        _ => calculate_both(config, frame, operator, value),
    }
}
