//! The numbers of the language.
ghost use Rattle.wjs_base.specs.Range.{IsInRange, in_range_prop};

/// NaN, or a whole number from -(2^53 - 1) to 2^53 - 1.
#[derive(Clone, Copy, PartialEq, Eq)]
pub struct Whole {
    number: Option<i64>,
    pub ghost in_range: { IsInRange number } by { in_range_prop number },
}

impl Whole {
    ghost use Rattle.std.specs.Prelude.{◌≡◌, None, Some, MatchOption};
    ghost use Rattle.wjs_base.specs.Range.{InRange};

    /// Not a number.
    pub const NAN: Whole = Whole { number: None };

    /// The number `n`; None exactly where it is out of range.
    pub fn new(n: i64) -> Option<Whole>
        ensures { MatchOption result (¬ InRange n) (λ whole. whole.number ≡ Some n) }
    {
        if n < -9_007_199_254_740_991 || n > 9_007_199_254_740_991 {
            return None;
        }
        Some(Whole { number: Some(n) })
    }

    /// The number; None exactly for NaN.
    pub fn get(self) -> Option<i64>
        ensures { result ≡ self.number }
    {
        self.number
    }
}
