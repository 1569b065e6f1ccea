//! Numbers as digits.
ghost use Rattle.std.specs.Prelude.{◌≡◌, ◌<◌, ◌≤◌, ◌^◌, ◌++◌, length, drop, IfOk};
ghost use Rattle.std.specs.Char.{digit_char};
ghost use Rattle.wjs_num.specs.Digits.{numeral, text_of_number};

use std::alloc::Global;
use wjs_base::{OutOfMemory, Whole};

/// The most units that a number takes: the 53 digits of radix 2, and a sign.
const MOST_UNITS: usize = 54;

/// A number in a radix from 2 to 36 (ECMA-262 15.7.4.2): its digits, those past 9 as small letters,
/// with `-` before a number below 0, and `NaN` for NaN.
pub fn write_radix(alloc: Global, a: Whole, radix: u32) -> Result<Vec<u16>, OutOfMemory>
    requires low { 2 ≤ radix }
    requires high { radix ≤ 36 }
    ensures { IfOk result (λ units. units.items ≡ text_of_number radix a.number) }
{
    let Some(number) = a.get() else {
        return copied(alloc, &[0x4E, 0x61, 0x4E]);
    };
    let mut buffer = [0; MOST_UNITS];
    let mut start = write_digits(&mut buffer, number.unsigned_abs(), radix);
    if number < 0 {
        start -= 1;
        buffer[start] = 0x2D;
    }
    copied(alloc, &buffer[start..])
}

/// Writes the digits at the end of the buffer, and gives the place of the first.
fn write_digits(buffer: &mut [u16; MOST_UNITS], number: u64, radix: u32) -> usize
    requires low { 2 ≤ radix }
    requires high { radix ≤ 36 }
    requires fits { number < 2 ^ 53 }
    ensures bound { 1 ≤ result }
    ensures within { result ≤ 54 }
    ensures digits { drop result buffer.new ≡ numeral radix number }
{
    let radix = u64::from(radix);
    let mut start = MOST_UNITS;
    let mut rest = number;
    while rest > 0 {
        start -= 1;
        buffer[start] = digit_unit((rest % radix) as u16);
        rest /= radix;
    }
    if number == 0 {
        start -= 1;
        buffer[start] = digit_unit(0);
    }
    start
}

/// How a digit is written.
fn digit_unit(digit: u16) -> u16
    requires { digit < 36 }
    ensures { result ≡ digit_char digit }
{
    if digit < 10 {
        0x30 + digit
    } else {
        0x57 + digit
    }
}

/// A copy of the units.
fn copied(alloc: Global, units: &[u16]) -> Result<Vec<u16>, OutOfMemory>
    ensures { IfOk result (λ copy. copy.items ≡ units.now) }
{
    Vec::from_slice(alloc, units).map_err(|_| OutOfMemory)
}
