//! Powers.
ghost use Rattle.std.specs.Prelude.{◌≡◌, ◌<◌, ◌≤◌};
ghost use Rattle.std.specs.Int.{int_pow};
ghost use Rattle.wjs_num.specs.Exact.{answer, exact};
ghost use Rattle.wjs_num.specs.Power.{power};

use crate::arithmetic::{NumFault, fit, whole};
use wjs_base::Whole;

/// `a` to the `b` (ECMA-262 15.8.2.13): NaN where `b` is NaN, 1 where `b` is 0, then NaN where `a`
/// is. Below 0, a `b` gives the power at 1 and -1, OutOfRange at 0 and else NotWhole. A power out
/// of range is OutOfRange.
pub fn pow(a: Whole, b: Whole) -> Result<Whole, NumFault>
    ensures { answer result ≡ power a.number b.number }
{
    let Some(exponent) = b.get() else {
        return Ok(Whole::NAN);
    };
    if exponent == 0 {
        return Ok(whole(1));
    }
    let Some(base) = a.get() else {
        return Ok(Whole::NAN);
    };
    match base {
        _ if exponent > 0 => raise(base, exponent.unsigned_abs()),
        1 | -1 => raise(base, exponent.unsigned_abs()),
        0 => Err(NumFault::OutOfRange),
        _ => Err(NumFault::NotWhole),
    }
}

/// The power, if it is in range.
fn raise(base: i64, exponent: u64) -> Result<Whole, NumFault>
    requires { 0 < exponent }
    ensures { answer result ≡ exact (int_pow base exponent) }
{
    match base.checked_pow(small_exponent(base, exponent)) {
        Some(power) => fit(power),
        None => Err(NumFault::OutOfRange),
    }
}

/// An exponent of at most 64 whose power is the same, or out of range as well: powers of 0, 1 and
/// -1 go by parity, and others from the 53rd on are out of range.
fn small_exponent(base: i64, exponent: u64) -> u32
    requires { 0 < exponent }
    ensures { exact (int_pow base result) ≡ exact (int_pow base exponent) }
{
    if base.unsigned_abs() < 2 {
        (2 - exponent % 2) as u32
    } else {
        exponent.min(64) as u32
    }
}
