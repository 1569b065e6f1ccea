//! Places in texts that a number counts as.
ghost use Rattle.std.specs.Prelude.{◌≡◌};
ghost use Rattle.wjs_meaning.specs.NativesOfTexts as line;
ghost use Rattle.wjs_by_content.specs.Tables.{value_in};
ghost use Rattle.wjs_base.specs.Text.{Table};

use wjs_base::{Value, Whole};

/// The number, where NaN counts as 0 (ECMA-262, 3rd edition, section 9.4).
pub fn or_zero(number: Whole) -> i64
    ensures { result ≡ line.or_zero number.number }
{
    match number.get() {
        Some(n) => n,
        None => 0,
    }
}

/// The place that a number counts as in a text of a length: 0 below 0, and the length past it (section 15.5.4.7).
pub fn kept_within(number: i64, length: usize) -> usize
    ensures { result ≡ line.kept_within number length }
{
    if number < 0 {
        return 0;
    }
    length.min(number as usize)
}

/// The same, where a number below 0 counts from the end on backwards (section 15.5.4.13).
pub(crate) fn from_end(number: i64, length: usize) -> usize
    ensures { result ≡ line.from_end number length }
{
    if number < 0 {
        length.saturating_sub(number.unsigned_abs() as usize)
    } else {
        length.min(number as usize)
    }
}

/// The greatest place from which on `lastIndexOf` looks: NaN counts as the length (section 15.5.4.8).
pub fn limit_of(number: Whole, length: usize) -> usize
    ensures { result ≡ line.limit_of number.number length }
{
    match number.get() {
        Some(n) => kept_within(n, length),
        None => length,
    }
}

/// The end of a part up to a place; what is no number counts as the length (section 15.5.4.15).
pub(crate) fn end_within(end: Value, length: usize) -> usize
    ensures { (t : Table) → line.end_of line.kept_within (value_in t end) length ≡ result }
{
    match end {
        Value::Number(number) => kept_within(or_zero(number), length),
        _ => length,
    }
}

/// The same, where a number below 0 counts from the end (section 15.5.4.13).
pub(crate) fn end_from_end(end: Value, length: usize) -> usize
    ensures { (t : Table) → line.end_of line.from_end (value_in t end) length ≡ result }
{
    match end {
        Value::Number(number) => from_end(or_zero(number), length),
        _ => length,
    }
}
