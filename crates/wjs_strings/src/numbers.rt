//! Numbers (ECMA-262, 3rd edition, sections 15.5.3.2 and 15.8).
ghost use Rattle.std.specs.Prelude.{◌≡◌, ◌%◌, fold, map, ◌∷◌};
ghost use Rattle.wjs_base.specs.Text.{Table};
ghost use Rattle.wjs_by_content.specs.Tables.{value_in};
ghost use Rattle.wjs_num.specs.Bits.{uint32};
ghost use Rattle.wjs_meaning.specs.NativesOfTexts as line;
ghost use Rattle.wjs_meaning.specs.NativesOfObjects.{whole_of};

use wjs_base::{Value, Whole};
use wjs_num::{neg, to_uint32};

/// The number of a converted value; NaN of any other.
pub fn number_of(value: Value) -> Whole
    ensures { (t : Table) → whole_of (value_in t value) ≡ result.number }
{
    match value {
        Value::Number(number) => number,
        _ => Whole::NAN,
    }
}

/// The code unit of a number: its remainder by 2^16, and 0 for NaN (section 15.5.3.2).
pub fn code_unit(number: Whole) -> u16
    ensures { result ≡ uint32 number.number % 65536 }
{
    (to_uint32(number) % 65_536) as u16
}

/// The number without its sign (section 15.8.2.1).
pub fn absolute(number: Whole) -> Whole
    ensures { result.number ≡ line.absolute number.number }
{
    match number.get() {
        Some(n) if n < 0 => neg(number),
        _ => number,
    }
}

/// The greater of two numbers, where one that is NaN gives NaN.
fn greater(a: Whole, b: Whole) -> Whole
    ensures { (t : Table) → line.either line.greater_of a.number (value_in t (Value.Number b)) ≡ result.number }
{
    match (a.get(), b.get()) {
        (Some(x), Some(y)) => if x < y { b } else { a },
        _ => Whole::NAN,
    }
}

/// The lesser of two numbers, where one that is NaN gives NaN.
fn lesser(a: Whole, b: Whole) -> Whole
    ensures { (t : Table) → line.either line.lesser_of a.number (value_in t (Value.Number b)) ≡ result.number }
{
    match (a.get(), b.get()) {
        (Some(x), Some(y)) => if y < x { b } else { a },
        _ => Whole::NAN,
    }
}

/// The greatest of converted numbers; NaN where one is NaN (section 15.8.2.11).
pub fn greatest(first: Value, others: &[Value]) -> Whole
    ensures { (t : Table) → fold (line.either line.greater_of) (whole_of (value_in t first)) (map (value_in t) others.now) ≡ result.number }
{
    let mut best = number_of(first);
    for value in others {
        best = greater(best, number_of(*value));
    }
    best
}

/// The least of converted numbers; NaN where one is NaN (section 15.8.2.12).
pub fn least(first: Value, others: &[Value]) -> Whole
    ensures { (t : Table) → fold (line.either line.lesser_of) (whole_of (value_in t first)) (map (value_in t) others.now) ≡ result.number }
{
    let mut best = number_of(first);
    for value in others {
        best = lesser(best, number_of(*value));
    }
    best
}
