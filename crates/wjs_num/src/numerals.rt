//! The numbers that texts spell.
ghost use Rattle.std.specs.Prelude.{◌≡◌, ℕ, ◌<◌, ◌≤◌, ◌^◌, ◌==◌, if◌then◌else◌, min, take, None, Some, SomeIff};
ghost use Rattle.std.specs.Char.{digit_value, is_digit};
ghost use Rattle.std.specs.List.{prefix_len};
ghost use Rattle.std.specs.Option.{option_copied};
ghost use Rattle.std.specs.Str.Parse.{digits_value};
ghost use Rattle.wjs_num.specs.Exact.{answer};
ghost use Rattle.wjs_num.specs.Numerals.{is_blank, trimmed_front, trimmed_end, after_hex_prefix, has_minus, after_sign, text_spells, spelled, or_nan};
ghost use Rattle.wjs_num.specs.Numerals.{number_of_text, meant_radix, past_prefix, integer_of_text};

use crate::arithmetic::{NumFault, fit, whole};
use wjs_base::Whole;

const MINUS: u16 = 0x2D;

const PLUS: u16 = 0x2B;

const ZERO: u16 = 0x30;

const SMALL_X: u16 = 0x78;

const CAPITAL_X: u16 = 0x58;

/// The first number that is out of range, 2^53: greater values need not be told apart.
const TOO_GREAT: u64 = 1 << 53;

/// The number that a text is read as (ECMA-262 9.3.1). White space and line terminators around it
/// are dropped, and an empty rest is 0. Decimal digits with or without a sign, or `0x` or `0X` and
/// hexadecimal digits, give their value. Any other text, and a value out of range, is NaN.
pub fn read_text(units: &[u16]) -> Whole
    ensures { result.number ≡ number_of_text units.now }
{
    let text = trim_end(trim_start(units));
    if text.is_empty() {
        return whole(0);
    }
    if let Some(digits) = after_0x(text) {
        return read_numeral(false, digits, 16);
    }
    let (minus, digits) = split_sign(text);
    read_numeral(minus, digits, 10)
}

/// The integer that a text begins with (ECMA-262 15.1.2.2): after blanks and a sign the longest run
/// of digits of the radix, NaN where there is none. A radix of 0 is 16 before `0x` or `0X`, and else
/// 10; in radix 16 that prefix is skipped. A radix outside 2 to 36 gives NaN, and a value out of
/// range is OutOfRange.
pub fn parse_int(units: &[u16], radix: i32) -> Result<Whole, NumFault>
    ensures { answer result ≡ integer_of_text units.now radix }
{
    let (minus, text) = split_sign(trim_start(units));
    let hexadecimal = after_0x(text);
    let radix = meant_radix(radix, hexadecimal.is_some());
    if radix < 2 || radix > 36 {
        return Ok(Whole::NAN);
    }
    let digits = past_prefix(radix, text, hexadecimal);
    signed(minus, leading_digits(digits, radix as u32))
}

/// The number that the whole text spells; NaN where it is no numeral, or out of range.
fn read_numeral(minus: bool, units: &[u16], radix: u32) -> Whole
    requires low { 2 ≤ radix }
    requires high { radix ≤ 36 }
    ensures { result.number ≡ or_nan (spelled minus (text_spells radix units.now)) }
{
    let run = leading_digits(units, radix);
    if run.count < units.len() {
        return Whole::NAN;
    }
    signed(minus, run).unwrap_or(Whole::NAN)
}

/// The radix that is meant: 0 leaves it open.
fn meant_radix(radix: i32, hexadecimal: bool) -> i32
    ensures { result ≡ meant_radix radix hexadecimal }
{
    match radix {
        0 if hexadecimal => 16,
        0 => 10,
        _ => radix,
    }
}

/// The digits, which follow `0x` in radix 16.
fn past_prefix<'a>(radix: i32, text: &'a [u16], hexadecimal: Option<&'a [u16]>) -> &'a [u16]
    ensures { result.now ≡ past_prefix radix text.now (option_copied hexadecimal.entry) }
{
    match hexadecimal {
        Some(digits) if radix == 16 => digits,
        _ => text,
    }
}

/// Whether a unit is white space or a line terminator (ECMA-262 7.2 and 7.3).
fn is_blank(unit: u16) -> bool
    ensures { result ≡ is_blank unit }
{
    matches!(
        unit,
        0x9..=0xD | 0x20 | 0xA0 | 0x1680 | 0x2000..=0x200A | 0x2028 | 0x2029 | 0x202F | 0x205F | 0x3000
    )
}

/// The text without the blanks at its front.
fn trim_start(units: &[u16]) -> &[u16]
    ensures { result.now ≡ trimmed_front units.now }
{
    let blanks = units.iter().take_while(|unit| is_blank(**unit)).count();
    &units[blanks..]
}

/// The text without the blanks at its end.
fn trim_end(units: &[u16]) -> &[u16]
    ensures { result.now ≡ trimmed_end units.now }
{
    let blanks = units
        .iter()
        .rev()
        .take_while(|unit| is_blank(**unit))
        .count();
    &units[..units.len() - blanks]
}

/// Whether `-` stands in front, and what follows a sign.
fn split_sign(units: &[u16]) -> (bool, &[u16])
    ensures minus { result.0 ≡ has_minus units.now }
    ensures rest { result.1.now ≡ after_sign units.now }
{
    match units {
        [MINUS, rest @ ..] => (true, rest),
        [PLUS, rest @ ..] => (false, rest),
        _ => (false, units),
    }
}

/// What follows `0x` or `0X`.
fn after_0x(units: &[u16]) -> Option<&[u16]>
    ensures { option_copied result ≡ after_hex_prefix units.now }
{
    match units {
        [ZERO, SMALL_X | CAPITAL_X, rest @ ..] => Some(rest),
        _ => None,
    }
}

/// The value of a digit of the radix: 0 to 9, then the letters, small or capital.
fn digit(unit: u16, radix: u32) -> Option<u32>
    requires low { 2 ≤ radix }
    requires high { radix ≤ 36 }
    ensures { SomeIff result (digit_value unit < radix) (digit_value unit) }
{
    char::from_u32(u32::from(unit)).and_then(|character| character.to_digit(radix))
}

/// A run of digits: how many they are, and their value, or 2^53 where it is greater.
#[derive(Clone, Copy)]
struct Run {
    count: usize,
    value: u64,
}

/// The longest run of digits at the front.
fn leading_digits(units: &[u16], radix: u32) -> Run
    requires low { 2 ≤ radix }
    requires high { radix ≤ 36 }
    ensures count { result.count ≡ prefix_len (λ u. is_digit u radix) units.now }
    ensures value { result.value ≡ min (digits_value radix (take result.count units.now)) (2 ^ 53) }
{
    let mut value: u64 = 0;
    for (count, unit) in units.iter().enumerate() {
        let Some(digit) = digit(*unit, radix) else {
            return Run { count, value };
        };
        value = (value * u64::from(radix) + u64::from(digit)).min(TOO_GREAT);
    }
    Run {
        count: units.len(),
        value,
    }
}

/// The number that a run of digits spells with a sign, NaN where there is no digit.
fn signed(minus: bool, run: Run) -> Result<Whole, NumFault>
    requires { run.value ≤ 2 ^ 53 }
    ensures { answer result
        ≡ spelled minus (if run.count == 0 then None else Some run.value) }
{
    if run.count == 0 {
        return Ok(Whole::NAN);
    }
    let number = run.value as i64;
    fit(if minus { -number } else { number })
}
