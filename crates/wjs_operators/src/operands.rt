//! Operators on two numbers (ECMA-262, 3rd edition, sections 11.5, 11.6.3, 11.7 and 11.10): primitives are converted at once,
//! objects while the frame waits.
ghost use Rattle.std.specs.Prelude.{◌≡◌, true};
ghost use Rattle.wjs_base.specs.Text.{Table};
ghost use Rattle.wjs_by_content.specs.Tables.{value_in};
ghost use Rattle.wjs_meaning.specs.Deeds.{Gives, then_number};
ghost use Rattle.wjs_meaning.specs.NativesOfObjects.{whole_of};
ghost use Rattle.wjs_meaning.specs.Operators as line;
ghost use Rattle.wjs_model.specs.Contents.{value_held};
ghost use Rattle.wjs_model.specs.Soundness.{HasValue};
ghost use Rattle.wjs_operators.specs.Operating.{is_arithmetic};
ghost use Rattle.wjs_frames.specs.Handling.{Runs, IsRunning, GoesOn};

use wjs_base::{OutOfMemory, Value, Whole};
use wjs_frames::{convert, finish, hold};
use wjs_model::{Completion, Config, Conversion, ExprPoint, Frame, Held, Point};
use wjs_quick::arithmetic;
use wjs_step_common::{are_primitives, give_result, held_value, to_number};
use wjs_store::WorldStore;
use wjs_tree::BinaryOperator;

/// An operator on two numbers.
#[inline(always)]
pub(crate) fn calculate<S: WorldStore>(
    config: &mut Config<S>,
    frame: Frame,
    operator: BinaryOperator,
    left: Value,
    right: Value,
) -> Result<(), OutOfMemory>
    requires runs { Runs S.meaning config.old frame }
    requires arithmetic { is_arithmetic operator ≡ true }
    requires left { HasValue config.old left }
    requires right { HasValue config.old right }
    ensures { GoesOn S.meaning frame config.old config.new result (λ t env. line.arithmetic_values operator (value_in t left) (value_in t right) env) }
{
    if are_primitives(left, right) {
        let x = to_number(config, left);
        let y = to_number(config, right);
        calculated(config, frame, operator, x, y)
    } else {
        calculate_objects(config, frame, operator, left, right)
    }
}

/// The left value is converted, and the right one is held.
fn calculate_objects<S: WorldStore>(
    config: &mut Config<S>,
    frame: Frame,
    operator: BinaryOperator,
    left: Value,
    right: Value,
) -> Result<(), OutOfMemory>
    requires runs { Runs S.meaning config.old frame }
    requires arithmetic { is_arithmetic operator ≡ true }
    requires left { HasValue config.old left }
    requires right { HasValue config.old right }
    ensures { GoesOn S.meaning frame config.old config.new result (λ t env. line.arithmetic_values operator (value_in t left) (value_in t right) env) }
{
    let mut frame = frame;
    hold(&mut frame, Held::Value(right))?;
    let point = Point::Expr(ExprPoint::OperandFirst(operator));
    convert(config, frame, point, Conversion::Number, left)
}

/// After the conversion of the left value, which is a number.
pub(crate) fn calculate_left<S: WorldStore>(
    config: &mut Config<S>,
    frame: Frame,
    operator: BinaryOperator,
    value: Value,
) -> Result<(), OutOfMemory>
    requires runs { Runs S.meaning config.old frame }
    requires arithmetic { is_arithmetic operator ≡ true }
    requires value { HasValue config.old value }
    ensures { GoesOn S.meaning frame config.old config.new result (λ t env.
        then_number (line.arithmetic_first operator (value_in t (value_held frame.held)) env) (Gives (value_in t value))) }
{
    match value {
        Value::Number(number) => calculate_right(config, frame, operator, number),
        _ => finish(config, frame, Completion::Gives(value)),
    }
}

/// After the number of the left value: the right one is converted.
fn calculate_right<S: WorldStore>(
    config: &mut Config<S>,
    frame: Frame,
    operator: BinaryOperator,
    number: Whole,
) -> Result<(), OutOfMemory>
    requires runs { Runs S.meaning config.old frame }
    requires arithmetic { is_arithmetic operator ≡ true }
    ensures { GoesOn S.meaning frame config.old config.new result (λ t env.
        line.arithmetic_first operator (value_in t (value_held frame.held)) env number.number) }
{
    let right = held_value(config, &frame);
    let mut frame = frame;
    hold(&mut frame, Held::Value(Value::Number(number)))?;
    let point = Point::Expr(ExprPoint::OperandSecond(operator));
    convert(config, frame, point, Conversion::Number, right)
}

/// After the conversion of the right value, which is a number: the left one is held.
pub(crate) fn calculate_both<S: WorldStore>(
    config: &mut Config<S>,
    frame: Frame,
    operator: BinaryOperator,
    value: Value,
) -> Result<(), OutOfMemory>
    requires runs { Runs S.meaning config.old frame }
    requires value { HasValue config.old value }
    ensures { GoesOn S.meaning frame config.old config.new result (λ t env.
        then_number (line.arithmetic_second operator (whole_of (value_in t (value_held frame.held))) env) (Gives (value_in t value))) }
{
    match value {
        Value::Number(number) => {
            let left = held_number(&frame);
            calculated(config, frame, operator, left, number)
        }
        _ => finish(config, frame, Completion::Gives(value)),
    }
}

/// Both are numbers.
#[inline(always)]
fn calculated<S: WorldStore>(
    config: &mut Config<S>,
    frame: Frame,
    operator: BinaryOperator,
    x: Whole,
    y: Whole,
) -> Result<(), OutOfMemory>
    requires running { IsRunning S.meaning config.old }
    ensures { GoesOn S.meaning frame config.old config.new result (λ t env. line.arithmetic_second operator x.number env y.number) }
{
    give_result(config, frame, arithmetic(operator, x, y))
}

/// The number that is held, and NaN where a value of another kind is.
fn held_number(frame: &Frame) -> Whole
    ensures { (t : Table) → result.number ≡ whole_of (value_in t (value_held frame.now.held)) }
{
    match frame.value() {
        Value::Number(number) => number,
        _ => Whole::NAN,
    }
}
