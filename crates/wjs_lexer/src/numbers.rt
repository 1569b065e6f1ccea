//! Numeric literals.
ghost use Rattle.std.specs.Prelude.{◌≡◌, ◌↔◌, IsTrue, ℕ, List, ◌+◌, ◌^◌, ◌<◌, ◌≤◌, Some, slice_get, true, false};
ghost use Rattle.wjs_lexer.specs.Characters.{is_decimal};
ghost use Rattle.wjs_lexer.specs.Places.{passes};
ghost use Rattle.wjs_lexer.specs.Numbers.{radix, digits_from, Opens, is_x, is_bound_to_number};
ghost use Rattle.wjs_lexer.specs.Cursors.{IsPlaced, Went, digit_here, ReadsDigits, ReadsPiece};

use crate::characters::starts_name;
use crate::cursor::Cursor;
use crate::pieces::Scanned;

/// How the digits of a numeric literal are read.
#[derive(Clone, Copy)]
pub(crate) enum Base {
    Decimal,
    Hexadecimal,
}

/// One more than the largest number.
const TOO_BIG: u64 = 1 << 53;

impl Base {
    fn radix(self) -> u32
        ensures { result ≡ radix self }
    {
        match self {
            Base::Decimal => 10,
            Base::Hexadecimal => 16,
        }
    }
}

impl Cursor<'_> {
    /// The value of the digit that stands here, if one does.
    fn digit(&self, base: Base) -> Option<u32>
        ensures { result ≡ digit_here (radix base) (slice_get self.now.chars.now self.now.at) }
    {
        self.peek()?.to_digit(base.radix())
    }

    /// Reads digits, while their value is small enough for a number.
    fn digits(&mut self, base: Base) -> Option<u64>
        requires placed { IsPlaced self.old }
        ensures { ReadsDigits base self.old self.new result }
    {
        let mut value: u64 = 0;
        while let Some(digit) = self.digit(base) {
            value = value * u64::from(base.radix()) + u64::from(digit);
            if value >= TOO_BIG {
                return None;
            }
            self.advance();
        }
        Some(value)
    }

    /// Whether the character here may not stand behind a number.
    fn is_bound_to_number(&self) -> bool
        ensures { result ≡ passes is_bound_to_number (slice_get self.now.chars.now self.now.at) }
    {
        match self.peek() {
            Some(ch) => starts_name(ch) || ch.is_ascii_digit() || ch == '.',
            None => false,
        }
    }

    /// Goes to the first digit of a literal: over `0x`.
    fn to_digits(&mut self, base: Base)
        requires placed { IsPlaced self.old }
        requires opens { Opens base self.old.chars.now self.old.at }
        ensures { Went self.old self.new (digits_from base self.old.at) }
    {
        match base {
            Base::Decimal => {}
            Base::Hexadecimal => self.advance_by(2),
        }
    }

    /// Reads a literal of the base, which begins here.
    fn numeral(&mut self, base: Base) -> Option<Scanned>
        requires placed { IsPlaced self.old }
        requires opens { Opens base self.old.chars.now self.old.at }
        ensures { (units : List ℕ) → ReadsPiece self.old self.new units result }
    {
        self.to_digits(base);
        let first = self.at;
        let Some(value) = self.digits(base) else {
            return None;
        };
        if self.at == first {
            None
        } else if self.is_bound_to_number() {
            None
        } else {
            Some(Scanned::Number(value))
        }
    }

    /// Reads the literal `0`, behind which no `x` stands.
    fn zero(&mut self) -> Option<Scanned>
        requires placed { IsPlaced self.old }
        requires start { slice_get self.old.chars.now self.old.at ≡ Some 48 }
        requires alone { passes is_x (slice_get self.old.chars.now (self.old.at + 1)) ≡ false }
        ensures { (units : List ℕ) → ReadsPiece self.old self.new units result }
    {
        self.advance();
        if self.is_bound_to_number() {
            None
        } else {
            Some(Scanned::Number(0))
        }
    }

    /// Whether `x` or `X` stands one place on.
    fn has_x_behind(&self) -> bool
        requires { self.now.at ≤ 2 ^ 24 }
        ensures { result ≡ passes is_x (slice_get self.now.chars.now (self.now.at + 1)) }
    {
        match self.chars.get(self.at + 1).copied() {
            Some(ch) => ch == 'x' || ch == 'X',
            None => false,
        }
    }

    /// Reads the number whose first digit stands here.
    pub(crate) fn number(&mut self, first: char) -> Option<Scanned>
        requires placed { IsPlaced self.old }
        requires start { slice_get self.old.chars.now self.old.at ≡ Some first }
        requires digit { is_decimal first ≡ true }
        ensures { (units : List ℕ) → ReadsPiece self.old self.new units result }
    {
        if first != '0' {
            self.numeral(Base::Decimal)
        } else if self.has_x_behind() {
            self.numeral(Base::Hexadecimal)
        } else {
            self.zero()
        }
    }
}
