//! Signs, and how a sign grows by one character.
ghost use Rattle.std.specs.Prelude.{◌≡◌, ◌<◌, ℕ, List, Some, slice_get, length};
ghost use Rattle.wjs_lexer.specs.SignSteps.{sign_of, longer, with_equals, with_plus, with_minus, with_less, with_greater, with_and, with_or};
ghost use Rattle.wjs_lexer.specs.Signs.{is_bound_to};
ghost use Rattle.wjs_lexer.specs.Places.{passes};
ghost use Rattle.wjs_lexer.specs.KindSteps.{kind_of};
ghost use Rattle.wjs_lexer.specs.declared.characters.Kind.TheVariants.{Mark};
ghost use Rattle.wjs_lexer.specs.Cursors.{IsPlaced, ReadsPiece, BeginsSign};

use crate::cursor::Cursor;
use crate::pieces::Scanned;
use wjs_tree::Sign;

/// The sign that is this one character.
pub(crate) fn sign_of(ch: char) -> Option<Sign>
    ensures { result ≡ sign_of ch }
{
    match ch {
        '{' => Some(Sign::OpenBrace),
        '}' => Some(Sign::CloseBrace),
        '(' => Some(Sign::OpenParen),
        ')' => Some(Sign::CloseParen),
        '[' => Some(Sign::OpenBracket),
        ']' => Some(Sign::CloseBracket),
        '.' => Some(Sign::Dot),
        ';' => Some(Sign::Semicolon),
        ',' => Some(Sign::Comma),
        '<' => Some(Sign::Less),
        '>' => Some(Sign::Greater),
        '+' => Some(Sign::Plus),
        '-' => Some(Sign::Minus),
        '*' => Some(Sign::Multiply),
        '/' => Some(Sign::Divide),
        '%' => Some(Sign::Remainder),
        '&' => Some(Sign::BitAnd),
        '|' => Some(Sign::BitOr),
        '^' => Some(Sign::BitXor),
        '!' => Some(Sign::Not),
        '~' => Some(Sign::BitNot),
        '?' => Some(Sign::Question),
        ':' => Some(Sign::Colon),
        '=' => Some(Sign::Assign),
        _ => None,
    }
}

/// The sign that a sign becomes with one more character.
pub(crate) fn longer(sign: Sign, ch: char) -> Option<Sign>
    ensures { result ≡ longer sign ch }
{
    match ch {
        '=' => with_equals(sign),
        '+' => with_plus(sign),
        '-' => with_minus(sign),
        '<' => with_less(sign),
        '>' => with_greater(sign),
        '&' => with_and(sign),
        '|' => with_or(sign),
        _ => None,
    }
}

fn with_equals(sign: Sign) -> Option<Sign>
    ensures { result ≡ with_equals sign }
{
    match sign {
        Sign::Less => Some(Sign::LessEqual),
        Sign::Greater => Some(Sign::GreaterEqual),
        Sign::Assign => Some(Sign::Equal),
        Sign::Not => Some(Sign::NotEqual),
        Sign::Equal => Some(Sign::StrictEqual),
        Sign::NotEqual => Some(Sign::StrictNotEqual),
        Sign::Plus => Some(Sign::PlusAssign),
        Sign::Minus => Some(Sign::MinusAssign),
        Sign::Multiply => Some(Sign::MultiplyAssign),
        Sign::Divide => Some(Sign::DivideAssign),
        Sign::Remainder => Some(Sign::RemainderAssign),
        Sign::ShiftLeft => Some(Sign::ShiftLeftAssign),
        Sign::ShiftRight => Some(Sign::ShiftRightAssign),
        Sign::ShiftRightUnsigned => Some(Sign::ShiftRightUnsignedAssign),
        Sign::BitAnd => Some(Sign::BitAndAssign),
        Sign::BitOr => Some(Sign::BitOrAssign),
        Sign::BitXor => Some(Sign::BitXorAssign),
        _ => None,
    }
}

fn with_plus(sign: Sign) -> Option<Sign>
    ensures { result ≡ with_plus sign }
{
    match sign {
        Sign::Plus => Some(Sign::Increment),
        _ => None,
    }
}

fn with_minus(sign: Sign) -> Option<Sign>
    ensures { result ≡ with_minus sign }
{
    match sign {
        Sign::Minus => Some(Sign::Decrement),
        _ => None,
    }
}

fn with_less(sign: Sign) -> Option<Sign>
    ensures { result ≡ with_less sign }
{
    match sign {
        Sign::Less => Some(Sign::ShiftLeft),
        _ => None,
    }
}

fn with_greater(sign: Sign) -> Option<Sign>
    ensures { result ≡ with_greater sign }
{
    match sign {
        Sign::Greater => Some(Sign::ShiftRight),
        Sign::ShiftRight => Some(Sign::ShiftRightUnsigned),
        _ => None,
    }
}

fn with_and(sign: Sign) -> Option<Sign>
    ensures { result ≡ with_and sign }
{
    match sign {
        Sign::BitAnd => Some(Sign::And),
        _ => None,
    }
}

fn with_or(sign: Sign) -> Option<Sign>
    ensures { result ≡ with_or sign }
{
    match sign {
        Sign::BitOr => Some(Sign::Or),
        _ => None,
    }
}

impl Cursor<'_> {
    /// Whether the character here may not stand behind the sign.
    fn is_bound_to(&self, sign: Sign) -> bool
        ensures { result ≡ passes (is_bound_to sign) (slice_get self.now.chars.now self.now.at) }
    {
        match (self.peek(), sign) {
            (Some(ch), Sign::Dot) => ch.is_ascii_digit(),
            (Some(ch), Sign::Divide) => ch == '/' || ch == '*',
            _ => false,
        }
    }

    /// Reads a sign, as long as it grows. The character here is a sign by itself.
    pub(crate) fn sign(&mut self, ch: char, first: Sign) -> Option<Scanned>
        requires placed { IsPlaced self.old }
        requires start { BeginsSign self.old.chars.now self.old.at ch first }
        ensures { (units : List ℕ) → ReadsPiece self.old self.new units result }
    {
        let mut sign = first;
        self.advance();
        while let Some(next) = self.peek() {
            match longer(sign, next) {
                Some(more) => {
                    self.advance();
                    sign = more;
                }
                None => break,
            }
        }
        if self.is_bound_to(sign) {
            None
        } else {
            Some(Scanned::Sign(sign))
        }
    }

    /// Reads the sign that begins here, where no comment does.
    pub(crate) fn mark(&mut self, ch: char) -> Option<Scanned>
        requires placed { IsPlaced self.old }
        requires start { slice_get self.old.chars.now self.old.at ≡ Some ch }
        requires mark { kind_of ch ≡ Mark }
        ensures { (units : List ℕ) → ReadsPiece self.old self.new units result }
    {
        let Some(first) = sign_of(ch) else {
            return None;
        };
        self.sign(ch, first)
    }
}
