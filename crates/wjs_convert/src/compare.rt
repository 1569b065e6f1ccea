//! Which values are equal, and which is less.
ghost use Rattle.std.specs.Prelude.{◌≡◌, true};
ghost use Rattle.wjs_base.specs.Text.{Table};
ghost use Rattle.wjs_by_content.specs.Tables.{value_in, knows_value};
ghost use Rattle.wjs_by_content.specs.Conversions.{alike, equal, is_nan, is_nullish, less_than, loosely_equal, strictly_equal};

use crate::convert::to_number;
use std::cmp::Ordering;
use wjs_base::{Value, Whole, same_value};
use wjs_num::less;
use wjs_texts::Texts;

/// `===` (ECMA-262, 3rd edition, section 11.9.6): one value, but NaN equals nothing. Objects are equal where they are one.
#[inline(always)]
pub fn strictly_equal(a: Value, b: Value) -> bool
    ensures { (texts : Table) → knows_value texts a ≡ true → knows_value texts b ≡ true → result ≡ strictly_equal (value_in texts a) (value_in texts b) }
{
    !is_nan(a) && same_value(a, b)
}

/// `==` of primitives (ECMA-262, 3rd edition, section 11.9.3): undefined and null equal each other alone, values of one type
/// are compared as by `===`, and others as numbers. An object equals itself alone.
#[inline(always)]
pub fn loosely_equal(texts: &Texts, a: Value, b: Value) -> bool
    requires first { knows_value texts.now a ≡ true }
    requires second { knows_value texts.now b ≡ true }
    ensures { result ≡ loosely_equal (value_in texts.now a) (value_in texts.now b) }
{
    if is_nullish(a) || is_nullish(b) {
        return is_nullish(a) && is_nullish(b);
    }
    if alike(a, b) {
        return strictly_equal(a, b);
    }
    equal(to_number(texts, a), to_number(texts, b))
}

/// `<` of primitives (ECMA-262, 3rd edition, section 11.8.5): two texts by their code units, others as numbers, the left
/// one converted first; None exactly where one of these is NaN. An object counts as NaN.
#[inline(always)]
pub fn less_than(texts: &Texts, a: Value, b: Value) -> Option<bool>
    requires first { knows_value texts.now a ≡ true }
    requires second { knows_value texts.now b ≡ true }
    ensures { result ≡ less_than (value_in texts.now a) (value_in texts.now b) }
{
    if let (Value::Text(a), Value::Text(b)) = (a, b) {
        return Some(texts.units(a).cmp(&texts.units(b)) == Ordering::Less);
    }
    less(to_number(texts, a), to_number(texts, b))
}

/// Whether two numbers are one; NaN equals nothing.
#[inline(always)]
fn equal(a: Whole, b: Whole) -> bool
    ensures { result ≡ equal a.number b.number }
{
    matches!((a.get(), b.get()), (Some(a), Some(b)) if a == b)
}

/// Whether it is the number NaN.
#[inline(always)]
fn is_nan(value: Value) -> bool
    ensures { (texts : Table) → result ≡ is_nan (value_in texts value) }
{
    matches!(value, Value::Number(number) if number.get().is_none())
}

/// Whether it is undefined or null.
#[inline(always)]
fn is_nullish(value: Value) -> bool
    ensures { (texts : Table) → result ≡ is_nullish (value_in texts value) }
{
    matches!(value, Value::Undefined | Value::Null)
}

/// Whether both are truth values, both texts or both objects.
#[inline(always)]
fn alike(a: Value, b: Value) -> bool
    ensures { (texts : Table) → result ≡ alike (value_in texts a) (value_in texts b) }
{
    matches!(
        (a, b),
        (Value::Bool(_), Value::Bool(_))
            | (Value::Text(_), Value::Text(_))
            | (Value::Object(_), Value::Object(_))
    )
}
