//! The numbers of a part. Each reader gives the number that the part spells, and None exactly where it spells none in range.
ghost use Rattle.std.specs.Prelude.{◌≡◌, ℕ, ◌<◌, ◌≤◌, ◌^◌, decimal, IfSome, IfNone, ⊤};
ghost use Rattle.std.specs.Fmt.{signed_decimal};
ghost use Rattle.std.specs.Str.Parse.{AllDigits, digits_value};
ghost use Rattle.wjs_base.specs.declared.number.Whole.{Whole};
ghost use Rattle.wjs_base.specs.Range.{InRange};
ghost use Rattle.wjs_base.specs.Spelling.{greatest_index};
ghost use Rattle.wjs_audit.specs.Spelling.{pair_text, number_text};
ghost use Rattle.wjs_audit.specs.Logs.{FitsPair};
ghost use Rattle.wjs_audit.specs.Reading.{IsReadAs};

use crate::cuts::{cut_at, is_word};
use wjs_base::Whole;

const ZERO: u8 = 48;

const NINE: u8 = 57;

const MINUS: u8 = 45;

/// What stands between an owner and a serial.
const POINT: u8 = 46;

/// The greatest array index (ECMA-262, 3rd edition, section 15.4).
const GREATEST_INDEX: u64 = 4_294_967_294;

/// The greatest number of the language, 2^53 - 1.
const GREATEST_WHOLE: u64 = 9_007_199_254_740_991;

/// The number that decimal digits write. None where a byte is no digit, and for 2^64 and above.
fn number_of_digits(digits: &[u8]) -> Option<u64>
    ensures digits { IfSome result (λ _. AllDigits 10 digits.now) }
    ensures value { IfSome result (λ number. number ≡ digits_value 10 digits.now) }
    ensures none { IfNone result (AllDigits 10 digits.now → 2 ^ 64 ≤ digits_value 10 digits.now) }
{
    let mut number: u64 = 0;
    for digit in digits {
        if *digit < ZERO || *digit > NINE {
            return None;
        }
        number = number.checked_mul(10)?.checked_add((*digit - ZERO) as u64)?;
    }
    Some(number)
}

/// The number up to this one.
fn number_of(part: &[u8], most: u64) -> Option<u64>
    ensures { IsReadAs decimal (λ n. n ≤ most) part.now result }
{
    let first = *part.first()?;
    if first == ZERO && part.len() > 1 {
        return None;
    }
    let number = number_of_digits(part)?;
    if number > most {
        return None;
    }
    Some(number)
}

/// The owner of an object or of a world.
pub(crate) fn owner_of(part: &[u8]) -> Option<u32>
    ensures { IsReadAs decimal (λ n. n < 2 ^ 32) part.now result }
{
    let owner = number_of(part, u32::MAX as u64)?;
    Some(owner as u32)
}

/// A serial, or the number of a text.
pub(crate) fn serial_of(part: &[u8]) -> Option<u64>
    ensures { IsReadAs decimal (λ n. n < 2 ^ 64) part.now result }
{
    number_of(part, u64::MAX)
}

/// An array index.
pub(crate) fn index_of(part: &[u8]) -> Option<u32>
    ensures { IsReadAs decimal (λ n. n ≤ greatest_index) part.now result }
{
    let index = number_of(part, GREATEST_INDEX)?;
    Some(index as u32)
}

/// An owner and a serial.
pub(crate) fn pair_of(part: &[u8]) -> Option<(u32, u64)>
    ensures { IsReadAs (λ (p : ℕ × ℕ). pair_text p.0 p.1) (λ p. FitsPair p.0 p.1) part.now result }
{
    let (owner, serial) = cut_at(part, POINT)?;
    let owner = owner_of(owner)?;
    let serial = serial_of(serial)?;
    Some((owner, serial))
}

/// A whole number, with `-` in front where it is below 0.
fn integer_of(part: &[u8]) -> Option<i64>
    ensures { IsReadAs signed_decimal InRange part.now result }
{
    if part.is_empty() || part[0] != MINUS {
        let size = number_of(part, GREATEST_WHOLE)?;
        return Some(size as i64);
    }
    let size = number_of(&part[1..], GREATEST_WHOLE)?;
    if size == 0 {
        return None;
    }
    Some(-(size as i64))
}

/// A number of the language.
pub(crate) fn whole_of(part: &[u8]) -> Option<Whole>
    ensures { IsReadAs (λ (x : Whole). number_text x.number) (λ _. ⊤) part.now result }
{
    if is_word(part, b"n") {
        return Some(Whole::NAN);
    }
    let number = integer_of(part)?;
    Whole::new(number)
}
