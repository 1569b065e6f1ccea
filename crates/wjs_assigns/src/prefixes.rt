//! Operators before an operand (ECMA-262, 3rd edition, section 11.4).
ghost use Rattle.wjs_by_content.specs.Tables.{value_in};
ghost use Rattle.wjs_by_content.specs.Values.{Undefined};
ghost use Rattle.wjs_meaning.specs.Conversions.{number_of_primitive};
ghost use Rattle.wjs_meaning.specs.Deeds.{Gives, give, then_number};
ghost use Rattle.wjs_meaning.specs.Expressions as line;
ghost use Rattle.wjs_meaning.specs.Operators as operators;
ghost use Rattle.wjs_model.specs.Soundness.{HasValue, StandsHere};
ghost use Rattle.wjs_frames.specs.Handling.{Runs, IsRunning, GoesOn};

use crate::operands::{enter_operand, enter_value};
use crate::updates::update_start;
use wjs_base::{OutOfMemory, Value, Whole};
use wjs_frames::{convert, finish};
use wjs_model::{Completion, Config, Conversion, ExprPoint, Fix, Frame, Point};
use wjs_num::{bit_not, neg};
use wjs_step_common::{is_object, to_boolean, to_number};
use wjs_store::WorldStore;
use wjs_tree::{NodeId, PrefixOperator, UpdateOperator};

/// The operand is entered as a target by `++` and `--`, and by `delete` and `typeof` where it is one. Elsewhere it has its value
/// at once, or is entered for it.
pub fn prefix_start<S: WorldStore>(
    config: &mut Config<S>,
    frame: Frame,
    operator: PrefixOperator,
    operand: NodeId,
) -> Result<(), OutOfMemory>
    requires runs { Runs S.meaning config.old frame }
    requires operand { StandsHere config.old frame operand }
    ensures { GoesOn S.meaning frame config.old config.new result (λ t env. line.prefix_of operator operand.0 env) }
{
    match operator {
        PrefixOperator::Delete => enter_operand(
            config,
            frame,
            operand,
            ExprPoint::DeleteTarget,
            ExprPoint::DeleteValue,
        ),
        PrefixOperator::Typeof => enter_operand(
            config,
            frame,
            operand,
            ExprPoint::TypeofTarget,
            ExprPoint::TypeofValue,
        ),
        PrefixOperator::Increment => {
            update_start(config, frame, Fix::Pre, UpdateOperator::Increment, operand)
        }
        PrefixOperator::Decrement => {
            update_start(config, frame, Fix::Pre, UpdateOperator::Decrement, operand)
        }
        PrefixOperator::Void => enter_value(config, frame, operand, ExprPoint::VoidValue),
        PrefixOperator::Not => enter_value(config, frame, operand, ExprPoint::NotValue),
        PrefixOperator::Plus => enter_value(config, frame, operand, ExprPoint::PlusValue),
        PrefixOperator::Minus => enter_value(config, frame, operand, ExprPoint::MinusValue),
        PrefixOperator::BitNot => enter_value(config, frame, operand, ExprPoint::ComplementValue),
    }
}

/// After the operand of `void`.
pub fn void_value<S: WorldStore>(config: &mut Config<S>, frame: Frame) -> Result<(), OutOfMemory>
    requires running { IsRunning S.meaning config.old }
    ensures { GoesOn S.meaning frame config.old config.new result (λ t env. give Undefined) }
{
    finish(config, frame, Completion::Gives(Value::Undefined))
}

/// `!`: the opposite of the value's truth.
pub fn not_value<S: WorldStore>(
    config: &mut Config<S>,
    frame: Frame,
    value: Value,
) -> Result<(), OutOfMemory>
    requires running { IsRunning S.meaning config.old }
    requires value { HasValue config.old value }
    ensures { GoesOn S.meaning frame config.old config.new result (λ t env. operators.not_value (value_in t value)) }
{
    let truth = to_boolean(config, value);
    finish(config, frame, Completion::Gives(Value::Bool(!truth)))
}

/// `+`: the value as a number.
pub fn plus_value<S: WorldStore>(
    config: &mut Config<S>,
    frame: Frame,
    value: Value,
) -> Result<(), OutOfMemory>
    requires runs { Runs S.meaning config.old frame }
    requires value { HasValue config.old value }
    ensures { GoesOn S.meaning frame config.old config.new result (λ t env. line.plus_value env (value_in t value)) }
{
    if is_object(value) {
        let point = Point::Expr(ExprPoint::PlusPrimitive);
        convert(config, frame, point, Conversion::NumberFirst, value)
    } else {
        plus_primitive(config, frame, value)
    }
}

/// `+` of a primitive.
pub fn plus_primitive<S: WorldStore>(
    config: &mut Config<S>,
    frame: Frame,
    value: Value,
) -> Result<(), OutOfMemory>
    requires running { IsRunning S.meaning config.old }
    requires value { HasValue config.old value }
    ensures { GoesOn S.meaning frame config.old config.new result (λ t env. number_of_primitive (value_in t value)) }
{
    let number = to_number(config, value);
    finish(config, frame, Completion::Gives(Value::Number(number)))
}

/// `-`: the value is made a number.
pub fn minus_value<S: WorldStore>(
    config: &mut Config<S>,
    frame: Frame,
    value: Value,
) -> Result<(), OutOfMemory>
    requires runs { Runs S.meaning config.old frame }
    requires value { HasValue config.old value }
    ensures { GoesOn S.meaning frame config.old config.new result (λ t env. line.minus_value env (value_in t value)) }
{
    if is_object(value) {
        let point = Point::Expr(ExprPoint::MinusNumber);
        convert(config, frame, point, Conversion::Number, value)
    } else {
        let number = to_number(config, value);
        minus_number(config, frame, number)
    }
}

/// `-`: after the conversion of an object, which is a number.
pub fn minus_converted<S: WorldStore>(
    config: &mut Config<S>,
    frame: Frame,
    value: Value,
) -> Result<(), OutOfMemory>
    requires runs { Runs S.meaning config.old frame }
    requires value { HasValue config.old value }
    ensures { GoesOn S.meaning frame config.old config.new result (λ t env. then_number line.minus_number (Gives (value_in t value))) }
{
    match value {
        Value::Number(number) => minus_number(config, frame, number),
        _ => finish(config, frame, Completion::Gives(value)),
    }
}

/// `-`: the number with the other sign.
fn minus_number<S: WorldStore>(
    config: &mut Config<S>,
    frame: Frame,
    number: Whole,
) -> Result<(), OutOfMemory>
    requires running { IsRunning S.meaning config.old }
    ensures { GoesOn S.meaning frame config.old config.new result (λ t env. line.minus_number number.number) }
{
    finish(config, frame, Completion::Gives(Value::Number(neg(number))))
}

/// `~`: the value is made a number.
pub fn complement_value<S: WorldStore>(
    config: &mut Config<S>,
    frame: Frame,
    value: Value,
) -> Result<(), OutOfMemory>
    requires runs { Runs S.meaning config.old frame }
    requires value { HasValue config.old value }
    ensures { GoesOn S.meaning frame config.old config.new result (λ t env. line.complement_value env (value_in t value)) }
{
    if is_object(value) {
        let point = Point::Expr(ExprPoint::ComplementNumber);
        convert(config, frame, point, Conversion::Number, value)
    } else {
        let number = to_number(config, value);
        complement_number(config, frame, number)
    }
}

/// `~`: after the conversion of an object, which is a number.
pub fn complement_converted<S: WorldStore>(
    config: &mut Config<S>,
    frame: Frame,
    value: Value,
) -> Result<(), OutOfMemory>
    requires runs { Runs S.meaning config.old frame }
    requires value { HasValue config.old value }
    ensures { GoesOn S.meaning frame config.old config.new result (λ t env. then_number line.complement_number (Gives (value_in t value))) }
{
    match value {
        Value::Number(number) => complement_number(config, frame, number),
        _ => finish(config, frame, Completion::Gives(value)),
    }
}

/// `~`: the other bits.
fn complement_number<S: WorldStore>(
    config: &mut Config<S>,
    frame: Frame,
    number: Whole,
) -> Result<(), OutOfMemory>
    requires running { IsRunning S.meaning config.old }
    ensures { GoesOn S.meaning frame config.old config.new result (λ t env. line.complement_number number.number) }
{
    finish(
        config,
        frame,
        Completion::Gives(Value::Number(bit_not(number))),
    )
}
