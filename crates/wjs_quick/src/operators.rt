//! The operations of operators on values that need no conversion of an object (ECMA-262, 3rd edition, sections 11.4 to 11.10).
ghost use Rattle.std.specs.Prelude.{◌≡◌, true, false, not, option_map, unwrap_or, Bool, IfSome};
ghost use Rattle.wjs_base.specs.Text.{Table, Grows};
ghost use Rattle.wjs_by_content.specs.Tables.{value_in};
ghost use Rattle.wjs_by_content.specs.Conversions as conversions;
ghost use Rattle.wjs_by_content.specs.Values.{Number};
ghost use Rattle.wjs_meaning.specs.Deeds.{Env, Act, give};
ghost use Rattle.wjs_meaning.specs.Operators as line;
ghost use Rattle.wjs_model.specs.Soundness.{Base, HasValue};
ghost use Rattle.wjs_frames.specs.Shortening.{Shortens};
ghost use Rattle.wjs_quick.specs.Coming.{EndsWith};
ghost use Rattle.wjs_quick.specs.Operating.{is_of_value, after_prefix};

use crate::numbers::calculated;
use wjs_base::{Value, Whole};
use wjs_model::Config;
use wjs_num::{bit_not, neg};
use wjs_step_common::{
    are_primitives, is_nullish, is_object, less_than, loosely_equal, strictly_equal, to_boolean,
};
use wjs_store::WorldStore;
use wjs_tree::{BinaryOperator, PrefixOperator};

/// The value with which the operation on two values ends at once. None where an object would be converted or looked up, a text
/// made, or an error thrown.
#[inline(always)]
pub fn operated<S: WorldStore>(
    config: &Config<S>,
    operator: BinaryOperator,
    left: Value,
    right: Value,
) -> Option<Value>
    requires base { Base S.meaning config.now }
    requires left { HasValue config.now left }
    requires right { HasValue config.now right }
    ensures ends { IfSome result (λ v. EndsWith (λ t env. line.operate operator (value_in t left) (value_in t right) env) v config.now) }
    ensures found { IfSome result (λ v. HasValue config.now v) }
{
    let Value::Number(x) = left else {
        return operated_else(config, operator, left, right);
    };
    let Value::Number(y) = right else {
        return operated_else(config, operator, left, right);
    };
    by_operator(config, operator, Value::Number(x), Value::Number(y))
}

/// The same out of line, of two values that aren't both numbers.
#[inline(never)]
fn operated_else<S: WorldStore>(
    config: &Config<S>,
    operator: BinaryOperator,
    left: Value,
    right: Value,
) -> Option<Value>
    requires base { Base S.meaning config.now }
    requires left { HasValue config.now left }
    requires right { HasValue config.now right }
    ensures ends { IfSome result (λ v. EndsWith (λ t env. line.operate operator (value_in t left) (value_in t right) env) v config.now) }
    ensures found { IfSome result (λ v. HasValue config.now v) }
{
    by_operator(config, operator, left, right)
}

/// The operation, in the line of each caller: where the values are known for numbers, only what numbers need is left of it.
#[inline(always)]
fn by_operator<S: WorldStore>(
    config: &Config<S>,
    operator: BinaryOperator,
    left: Value,
    right: Value,
) -> Option<Value>
    requires base { Base S.meaning config.now }
    requires left { HasValue config.now left }
    requires right { HasValue config.now right }
    ensures ends { IfSome result (λ v. EndsWith (λ t env. line.operate operator (value_in t left) (value_in t right) env) v config.now) }
    ensures found { IfSome result (λ v. HasValue config.now v) }
{
    match operator {
        BinaryOperator::Less => compared(config, BinaryOperator::Less, left, right),
        BinaryOperator::Greater => compared(config, BinaryOperator::Greater, left, right),
        BinaryOperator::LessEqual => compared(config, BinaryOperator::LessEqual, left, right),
        BinaryOperator::GreaterEqual => compared(config, BinaryOperator::GreaterEqual, left, right),
        BinaryOperator::Equal => equal(config, left, right),
        BinaryOperator::NotEqual => not_equal(config, left, right),
        BinaryOperator::StrictEqual => same(config, left, right),
        BinaryOperator::StrictNotEqual => not_same(config, left, right),
        _ => {
            let number = calculated(operator, left, right)?;
            Some(Value::Number(number))
        }
    }
}

/// A comparison of two primitives by order (sections 11.8.1 to 11.8.5).
#[inline(always)]
fn compared<S: WorldStore>(
    config: &Config<S>,
    operator: BinaryOperator,
    left: Value,
    right: Value,
) -> Option<Value>
    requires base { Base S.meaning config.now }
    requires left { HasValue config.now left }
    requires right { HasValue config.now right }
    ensures ends { IfSome result (λ v. EndsWith (λ t env. line.compare_values operator (value_in t left) (value_in t right) env) v config.now) }
    ensures found { IfSome result (λ v. HasValue config.now v) }
{
    if are_primitives(left, right) {
        Some(Value::Bool(is_so(config, operator, left, right)))
    } else {
        None
    }
}

/// Whether the comparison holds.
#[inline(always)]
pub fn is_so<S: WorldStore>(
    config: &Config<S>,
    operator: BinaryOperator,
    left: Value,
    right: Value,
) -> bool
    requires base { Base S.meaning config.now }
    requires left { HasValue config.now left }
    requires right { HasValue config.now right }
    ensures { (t : Table) → Grows config.now.heap.texts t → line.compared operator (value_in t left) (value_in t right) ≡ result }
{
    match operator {
        BinaryOperator::Less => is_true(less_than(config, left, right)),
        BinaryOperator::Greater => is_true(less_than(config, right, left)),
        BinaryOperator::LessEqual => is_false(less_than(config, right, left)),
        BinaryOperator::GreaterEqual => is_false(less_than(config, left, right)),
        _ => false,
    }
}

#[inline(always)]
fn is_true(truth: Option<bool>) -> bool
    ensures { result ≡ unwrap_or truth false }
{
    matches!(truth, Some(true))
}

#[inline(always)]
fn is_false(truth: Option<bool>) -> bool
    ensures { result ≡ unwrap_or (option_map not truth) false }
{
    matches!(truth, Some(false))
}

/// `==` (section 11.9.1).
#[inline(always)]
fn equal<S: WorldStore>(config: &Config<S>, left: Value, right: Value) -> Option<Value>
    requires base { Base S.meaning config.now }
    requires left { HasValue config.now left }
    requires right { HasValue config.now right }
    ensures ends { IfSome result (λ v. EndsWith (λ t env. line.equal_values (value_in t left) (value_in t right) env line.give_truth) v config.now) }
    ensures found { IfSome result (λ v. HasValue config.now v) }
{
    let truth = equality(config, left, right)?;
    Some(Value::Bool(truth))
}

/// `!=` (section 11.9.2).
#[inline(always)]
fn not_equal<S: WorldStore>(config: &Config<S>, left: Value, right: Value) -> Option<Value>
    requires base { Base S.meaning config.now }
    requires left { HasValue config.now left }
    requires right { HasValue config.now right }
    ensures ends { IfSome result (λ v. EndsWith (λ t env. line.equal_values (value_in t left) (value_in t right) env line.give_opposite) v config.now) }
    ensures found { IfSome result (λ v. HasValue config.now v) }
{
    let truth = equality(config, left, right)?;
    Some(Value::Bool(!truth))
}

/// Whether two primitives or two objects are equal, or an object and undefined or null (section 11.9.3); None of an object and
/// another primitive, since the object would be converted.
#[inline(always)]
fn equality<S: WorldStore>(config: &Config<S>, left: Value, right: Value) -> Option<bool>
    requires base { Base S.meaning config.now }
    requires left { HasValue config.now left }
    requires right { HasValue config.now right }
    ensures { IfSome result (λ truth. (t : Table) → Grows config.now.heap.texts t → (env : Env) (go : Bool → Act) →
        line.equal_values (value_in t left) (value_in t right) env go ≡ go truth) }
{
    if are_primitives(left, right) {
        return Some(loosely_equal(config, left, right));
    }
    if are_objects(left, right) {
        return Some(strictly_equal(config, left, right));
    }
    if are_apart(left, right) {
        return Some(false);
    }
    None
}

/// Whether both are objects.
#[inline(always)]
fn are_objects(left: Value, right: Value) -> bool
    ensures first { result ≡ true → (t : Table) → conversions.is_object (value_in t left) ≡ true }
    ensures second { result ≡ true → (t : Table) → conversions.is_object (value_in t right) ≡ true }
{
    is_object(left) && is_object(right)
}

/// Whether one is an object, and the other undefined or null: they are not equal.
#[inline(always)]
fn are_apart(left: Value, right: Value) -> bool
    ensures { result ≡ true → (t : Table) (env : Env) (go : Bool → Act) → line.equal_values (value_in t left) (value_in t right) env go ≡ go false }
{
    if is_object(left) {
        is_nullish(right)
    } else {
        is_nullish(left) && is_object(right)
    }
}

/// `===` (section 11.9.4).
#[inline(always)]
fn same<S: WorldStore>(config: &Config<S>, left: Value, right: Value) -> Option<Value>
    requires base { Base S.meaning config.now }
    requires left { HasValue config.now left }
    requires right { HasValue config.now right }
    ensures ends { IfSome result (λ v. EndsWith (λ t env. line.give_truth (conversions.strictly_equal (value_in t left) (value_in t right))) v config.now) }
    ensures found { IfSome result (λ v. HasValue config.now v) }
{
    let truth = strictly_equal(config, left, right);
    Some(Value::Bool(truth))
}

/// `!==` (section 11.9.5).
#[inline(always)]
fn not_same<S: WorldStore>(config: &Config<S>, left: Value, right: Value) -> Option<Value>
    requires base { Base S.meaning config.now }
    requires left { HasValue config.now left }
    requires right { HasValue config.now right }
    ensures ends { IfSome result (λ v. EndsWith
        (λ t env. line.give_truth (not (conversions.strictly_equal (value_in t left) (value_in t right)))) v config.now) }
    ensures found { IfSome result (λ v. HasValue config.now v) }
{
    let truth = strictly_equal(config, left, right);
    Some(Value::Bool(!truth))
}

/// Whether the operand of an operator before it is entered for its value (section 11.4).
#[inline(always)]
pub fn is_of_value(operator: PrefixOperator) -> bool
    ensures { result ≡ is_of_value operator }
{
    match operator {
        PrefixOperator::Void
        | PrefixOperator::Plus
        | PrefixOperator::Minus
        | PrefixOperator::BitNot
        | PrefixOperator::Not => true,
        _ => false,
    }
}

/// The value with which such an operator ends at once; None where a value that is no number would be converted.
#[inline(always)]
pub fn prefixed<S: WorldStore>(
    config: &Config<S>,
    operator: PrefixOperator,
    value: Value,
) -> Option<Value>
    requires base { Base S.meaning config.now }
    requires operator { is_of_value operator ≡ true }
    requires value { HasValue config.now value }
    ensures ends { IfSome result (λ v. EndsWith (λ t env. after_prefix operator env (value_in t value)) v config.now) }
    ensures found { IfSome result (λ v. HasValue config.now v) }
{
    match operator {
        PrefixOperator::Void => Some(Value::Undefined),
        PrefixOperator::Not => {
            let truth = to_boolean(config, value);
            Some(Value::Bool(!truth))
        }
        _ => {
            let number = on_number(operator, value)?;
            Some(Value::Number(number))
        }
    }
}

/// `+`, `-` and `~` before a number (sections 11.4.6 to 11.4.8).
#[inline(always)]
fn on_number(operator: PrefixOperator, value: Value) -> Option<Whole>
    ensures { IfSome result (λ number. (t : Table) (env : Env) →
        Shortens (after_prefix operator env (value_in t value)) (give (Number number.number))) }
{
    let Value::Number(number) = value else {
        return None;
    };
    match operator {
        PrefixOperator::Plus => Some(number),
        PrefixOperator::Minus => Some(neg(number)),
        PrefixOperator::BitNot => Some(bit_not(number)),
        _ => None,
    }
}
