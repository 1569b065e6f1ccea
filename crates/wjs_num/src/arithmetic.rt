//! Exact sums, differences, products, quotients and remainders, and comparisons.
ghost use Rattle.std.specs.Prelude.{◌≡◌, ◌↔◌, IsTrue, Ok, Some};
ghost use Rattle.wjs_base.specs.Range.{InRange};
ghost use Rattle.wjs_num.specs.Exact.{answer, exact, sum, difference, product, quotient, remainder, negative, is_less};

use wjs_base::Whole;

/// Why arithmetic refuses.
#[derive(Clone, Copy, Debug, PartialEq, Eq)]
pub enum NumFault {
    /// The exact result is no number of the language.
    OutOfRange,
    /// The exact quotient is not whole.
    NotWhole,
}

/// A number that is in range.
#[inline(always)]
pub(crate) fn whole(number: i64) -> Whole
    requires { InRange number }
    ensures { result.number ≡ Some number }
{
    Whole::new(number).unwrap()
}

/// The exact result, if it is in range.
#[inline(always)]
pub(crate) fn fit(number: i64) -> Result<Whole, NumFault>
    ensures { answer result ≡ exact number }
{
    Whole::new(number).ok_or(NumFault::OutOfRange)
}

/// The sum; OutOfRange exactly where it is out of range (ECMA-262 11.6.3).
#[inline(always)]
pub fn add(a: Whole, b: Whole) -> Result<Whole, NumFault>
    ensures { answer result ≡ sum a.number b.number }
{
    let (Some(x), Some(y)) = (a.get(), b.get()) else {
        return Ok(Whole::NAN);
    };
    fit(x + y)
}

/// The difference; OutOfRange exactly where it is out of range (ECMA-262 11.6.3).
#[inline(always)]
pub fn sub(a: Whole, b: Whole) -> Result<Whole, NumFault>
    ensures { answer result ≡ difference a.number b.number }
{
    let (Some(x), Some(y)) = (a.get(), b.get()) else {
        return Ok(Whole::NAN);
    };
    fit(x - y)
}

/// The product; OutOfRange exactly where it is out of range (ECMA-262 11.5.1).
#[inline(always)]
pub fn mul(a: Whole, b: Whole) -> Result<Whole, NumFault>
    ensures { answer result ≡ product a.number b.number }
{
    let (Some(x), Some(y)) = (a.get(), b.get()) else {
        return Ok(Whole::NAN);
    };
    match x.checked_mul(y) {
        Some(product) => fit(product),
        None => Err(NumFault::OutOfRange),
    }
}

/// The exact quotient (ECMA-262 11.5.2). A quotient that is not whole is NotWhole; a number other
/// than 0 by 0 is OutOfRange, and 0 by 0 is NaN.
#[inline(always)]
pub fn div(a: Whole, b: Whole) -> Result<Whole, NumFault>
    ensures { answer result ≡ quotient a.number b.number }
{
    let (Some(x), Some(y)) = (a.get(), b.get()) else {
        return Ok(Whole::NAN);
    };
    if y == 0 {
        return if x == 0 {
            Ok(Whole::NAN)
        } else {
            Err(NumFault::OutOfRange)
        };
    }
    if x % y != 0 {
        return Err(NumFault::NotWhole);
    }
    fit(x / y)
}

/// The remainder, which has the sign of `a`; NaN where `b` is 0 (ECMA-262 11.5.3). It never refuses.
#[inline(always)]
pub fn rem(a: Whole, b: Whole) -> Result<Whole, NumFault>
    ensures { answer result ≡ Ok (remainder a.number b.number) }
{
    match (a.get(), b.get()) {
        (Some(x), Some(y)) if y != 0 => Ok(whole(x % y)),
        _ => Ok(Whole::NAN),
    }
}

/// The number with the other sign; NaN of NaN (ECMA-262 11.4.7).
pub fn neg(a: Whole) -> Whole
    ensures { result.number ≡ negative a.number }
{
    match a.get() {
        Some(x) => whole(-x),
        None => Whole::NAN,
    }
}

/// Whether the left number is below the right; None exactly where one is NaN (ECMA-262 11.8.5).
#[inline(always)]
pub fn less(a: Whole, b: Whole) -> Option<bool>
    ensures { result ≡ is_less a.number b.number }
{
    let (Some(x), Some(y)) = (a.get(), b.get()) else {
        return None;
    };
    Some(x < y)
}

/// Whether both are one number, or both NaN.
pub fn same(a: Whole, b: Whole) -> bool
    ensures { IsTrue result ↔ (a.number ≡ b.number) }
{
    a == b
}
