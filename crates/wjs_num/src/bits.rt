//! Operations on numbers as 32 bits.
ghost use Rattle.std.specs.Prelude.{◌≡◌, ◌<◌, Some, pos, bit_and, bit_or, bit_xor};
ghost use Rattle.wjs_num.specs.Bits.{uint32, int32, signed, shift_count, shifted_left, shifted_right, shifted_unsigned, by_bits, complement};

use crate::arithmetic::whole;
use wjs_base::Whole;

/// The number modulo 2^32; 0 for NaN (ECMA-262 9.6).
#[inline(always)]
pub fn to_uint32(a: Whole) -> u32
    ensures { result ≡ uint32 a.number }
{
    match a.get() {
        Some(number) => number.rem_euclid(1 << 32) as u32,
        None => 0,
    }
}

/// The number modulo 2^32, from -(2^31) to 2^31 - 1; 0 for NaN (ECMA-262 9.5).
#[inline(always)]
pub fn to_int32(a: Whole) -> i32
    ensures { result ≡ int32 a.number }
{
    to_signed(to_uint32(a))
}

/// 32 bits as a number from -(2^31) to 2^31 - 1.
#[inline(always)]
fn to_signed(bits: u32) -> i32
    ensures { result ≡ signed bits }
{
    bits.cast_signed()
}

/// 32 bits as a number of the language, from -(2^31) to 2^31 - 1.
#[inline(always)]
fn from_bits(bits: u32) -> Whole
    ensures { result.number ≡ Some (signed bits) }
{
    whole(i64::from(to_signed(bits)))
}

/// The lowest five bits of a shift count (ECMA-262 11.7).
#[inline(always)]
fn count(b: Whole) -> u32
    ensures value { result ≡ shift_count b.number }
    ensures bound { result < 32 }
{
    to_uint32(b) % 32
}

/// `a` shifted left by the lowest five bits of `b` (ECMA-262 11.7.1).
#[inline(always)]
pub fn shl(a: Whole, b: Whole) -> Whole
    ensures { result.number ≡ Some (shifted_left a.number b.number) }
{
    from_bits(to_uint32(a) << count(b))
}

/// `a` shifted right by the lowest five bits of `b`, with its sign (ECMA-262 11.7.2).
#[inline(always)]
pub fn shr(a: Whole, b: Whole) -> Whole
    ensures { result.number ≡ Some (shifted_right a.number b.number) }
{
    whole(i64::from(to_int32(a) >> count(b)))
}

/// `a` modulo 2^32 shifted right by the lowest five bits of `b` (ECMA-262 11.7.3).
#[inline(always)]
pub fn ushr(a: Whole, b: Whole) -> Whole
    ensures { result.number ≡ Some (pos (shifted_unsigned a.number b.number)) }
{
    whole(i64::from(to_uint32(a) >> count(b)))
}

/// The bits that both have (ECMA-262 11.10).
#[inline(always)]
pub fn bit_and(a: Whole, b: Whole) -> Whole
    ensures { result.number ≡ Some (by_bits bit_and a.number b.number) }
{
    from_bits(to_uint32(a) & to_uint32(b))
}

/// The bits that one or both have (ECMA-262 11.10).
#[inline(always)]
pub fn bit_or(a: Whole, b: Whole) -> Whole
    ensures { result.number ≡ Some (by_bits bit_or a.number b.number) }
{
    from_bits(to_uint32(a) | to_uint32(b))
}

/// The bits that exactly one has (ECMA-262 11.10).
#[inline(always)]
pub fn bit_xor(a: Whole, b: Whole) -> Whole
    ensures { result.number ≡ Some (by_bits bit_xor a.number b.number) }
{
    from_bits(to_uint32(a) ^ to_uint32(b))
}

/// The bits that `a` lacks (ECMA-262 11.4.8).
#[inline(always)]
pub fn bit_not(a: Whole) -> Whole
    ensures { result.number ≡ Some (complement a.number) }
{
    from_bits(!to_uint32(a))
}
