//! Equality (ECMA-262, 3rd edition, section 11.9): an object against a primitive is converted while the frame waits.
ghost use Rattle.std.specs.Prelude.{◌≡◌, true, false};
ghost use Rattle.wjs_by_content.specs.Tables.{value_in};
ghost use Rattle.wjs_base.specs.Text.{Table};
ghost use Rattle.wjs_by_content.specs.Conversions as conversions;
ghost use Rattle.wjs_meaning.specs.Conversions.{HintNumber, to_primitive};
ghost use Rattle.wjs_meaning.specs.Deeds.{Sub, then_value};
ghost use Rattle.wjs_meaning.specs.Operators as line;
ghost use Rattle.wjs_model.specs.Contents.{value_held};
ghost use Rattle.wjs_model.specs.Soundness.{HasValue};
ghost use Rattle.wjs_operators.specs.Operating.{equality, tells, equal_with};
ghost use Rattle.wjs_frames.specs.Handling.{Runs, IsRunning, GoesOn};

use wjs_base::{OutOfMemory, Value};
use wjs_frames::{convert, finish, hold};
use wjs_model::{Completion, Config, Conversion, ExprPoint, Frame, Held, Point};
use wjs_step_common::{held_value, is_nullish, is_object, loosely_equal, strictly_equal};
use wjs_store::WorldStore;
use wjs_tree::BinaryOperator;

/// `===` and `!==`.
#[inline(always)]
pub(crate) fn equal_strictly<S: WorldStore>(
    config: &mut Config<S>,
    frame: Frame,
    negated: bool,
    left: Value,
    right: Value,
) -> Result<(), OutOfMemory>
    requires running { IsRunning S.meaning config.old }
    requires left { HasValue config.old left }
    requires right { HasValue config.old right }
    ensures { GoesOn S.meaning frame config.old config.new result (λ t env. tells negated (conversions.strictly_equal (value_in t left) (value_in t right))) }
{
    let equal = strictly_equal(config, left, right);
    tell(config, frame, negated, equal)
}

/// Ends with a truth value, or with its opposite.
#[inline(always)]
fn tell<S: WorldStore>(
    config: &mut Config<S>,
    frame: Frame,
    negated: bool,
    truth: bool,
) -> Result<(), OutOfMemory>
    requires running { IsRunning S.meaning config.old }
    ensures { GoesOn S.meaning frame config.old config.new result (λ t env. tells negated truth) }
{
    let told = if negated { !truth } else { truth };
    finish(config, frame, Completion::Gives(Value::Bool(told)))
}

/// `==` and `!=`.
#[inline(always)]
pub(crate) fn equal<S: WorldStore>(
    config: &mut Config<S>,
    frame: Frame,
    negated: bool,
    left: Value,
    right: Value,
) -> Result<(), OutOfMemory>
    requires runs { Runs S.meaning config.old frame }
    requires left { HasValue config.old left }
    requires right { HasValue config.old right }
    ensures { GoesOn S.meaning frame config.old config.new result (λ t env. line.equal_values (value_in t left) (value_in t right) env (tells negated)) }
{
    if is_object(left) {
        object_equal(config, frame, negated, left, right)
    } else {
        primitive_equal(config, frame, negated, left, right)
    }
}

/// An object on the left.
fn object_equal<S: WorldStore>(
    config: &mut Config<S>,
    frame: Frame,
    negated: bool,
    left: Value,
    right: Value,
) -> Result<(), OutOfMemory>
    requires runs { Runs S.meaning config.old frame }
    requires left { HasValue config.old left }
    requires right { HasValue config.old right }
    requires object { (t : Table) → conversions.is_object (value_in t left) ≡ true }
    ensures { GoesOn S.meaning frame config.old config.new result (λ t env. line.equal_values (value_in t left) (value_in t right) env (tells negated)) }
{
    if is_object(right) {
        equal_strictly(config, frame, negated, left, right)
    } else {
        equal_object(config, frame, negated, left, right)
    }
}

/// A primitive on the left.
#[inline(always)]
fn primitive_equal<S: WorldStore>(
    config: &mut Config<S>,
    frame: Frame,
    negated: bool,
    left: Value,
    right: Value,
) -> Result<(), OutOfMemory>
    requires runs { Runs S.meaning config.old frame }
    requires left { HasValue config.old left }
    requires right { HasValue config.old right }
    requires primitive { (t : Table) → conversions.is_object (value_in t left) ≡ false }
    ensures { GoesOn S.meaning frame config.old config.new result (λ t env. line.equal_values (value_in t left) (value_in t right) env (tells negated)) }
{
    if is_object(right) {
        equal_object(config, frame, negated, right, left)
    } else {
        equal_primitives(config, frame, negated, left, right)
    }
}

/// Both are primitives, or one was.
#[inline(always)]
fn equal_primitives<S: WorldStore>(
    config: &mut Config<S>,
    frame: Frame,
    negated: bool,
    left: Value,
    right: Value,
) -> Result<(), OutOfMemory>
    requires running { IsRunning S.meaning config.old }
    requires left { HasValue config.old left }
    requires right { HasValue config.old right }
    ensures { GoesOn S.meaning frame config.old config.new result (λ t env. tells negated (conversions.loosely_equal (value_in t left) (value_in t right))) }
{
    let equal = loosely_equal(config, left, right);
    tell(config, frame, negated, equal)
}

/// An object against another value: it is converted, unless the other is undefined or null.
fn equal_object<S: WorldStore>(
    config: &mut Config<S>,
    frame: Frame,
    negated: bool,
    object: Value,
    other: Value,
) -> Result<(), OutOfMemory>
    requires runs { Runs S.meaning config.old frame }
    requires object { HasValue config.old object }
    requires other { HasValue config.old other }
    ensures { GoesOn S.meaning frame config.old config.new result (λ t env. equal_with (value_in t object) (value_in t other) env (tells negated)) }
{
    if is_nullish(other) {
        tell(config, frame, negated, false)
    } else {
        equal_converted(config, frame, negated, object, other)
    }
}

/// The object is converted, and the other value is held.
fn equal_converted<S: WorldStore>(
    config: &mut Config<S>,
    frame: Frame,
    negated: bool,
    object: Value,
    other: Value,
) -> Result<(), OutOfMemory>
    requires runs { Runs S.meaning config.old frame }
    requires object { HasValue config.old object }
    requires other { HasValue config.old other }
    ensures { GoesOn S.meaning frame config.old config.new result (λ t env.
        Sub (to_primitive HintNumber (value_in t object) env) (then_value (line.equal_primitive (value_in t other) (tells negated)))) }
{
    let mut frame = frame;
    hold(&mut frame, Held::Value(other))?;
    let operator = operator_of(negated);
    let point = Point::Expr(ExprPoint::OperandFirst(operator));
    convert(config, frame, point, Conversion::NumberFirst, object)
}

/// `==`, or `!=` where it is negated.
fn operator_of(negated: bool) -> BinaryOperator
    ensures { result ≡ equality negated }
{
    if negated {
        BinaryOperator::NotEqual
    } else {
        BinaryOperator::Equal
    }
}

/// After the conversion of the object.
pub(crate) fn equal_after<S: WorldStore>(
    config: &mut Config<S>,
    frame: Frame,
    negated: bool,
    primitive: Value,
) -> Result<(), OutOfMemory>
    requires runs { Runs S.meaning config.old frame }
    requires value { HasValue config.old primitive }
    ensures { GoesOn S.meaning frame config.old config.new result (λ t env.
        line.equal_primitive (value_in t (value_held frame.held)) (tells negated) (value_in t primitive)) }
{
    let other = held_value(config, &frame);
    equal_primitives(config, frame, negated, primitive, other)
}
