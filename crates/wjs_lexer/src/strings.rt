//! String literals.
ghost use Rattle.std.specs.Prelude.{◌≡◌, ◌+◌, ◌^◌, ◌<◌, ◌≤◌, ◌++◌, IfOk, Some, true, slice_get, slice_range, length};
ghost use Rattle.wjs_lexer.specs.Characters.{is_decimal};
ghost use Rattle.wjs_lexer.specs.Places.{passes};
ghost use Rattle.wjs_lexer.specs.Strings.{units_of, escaped, hex_unit, hex_part, digit_escape, continuation, escape_of, part_at, is_quote};
ghost use Rattle.wjs_lexer.specs.Cursors.{IsPlaced, ReadsPiece};

use crate::characters::is_line_end;
use crate::cursor::Cursor;
use crate::pieces::Scanned;
use crate::words::push_char;
use std::alloc::AllocError;

/// What a part of a string literal stands for.
#[derive(Clone, Copy)]
pub(crate) enum Stands {
    /// No code unit: a line continuation.
    Nothing,
    /// A code unit, which may be half of a surrogate pair.
    Unit(u16),
    Character(char),
}

/// A part of a string literal: a character, an escape or a line continuation.
#[derive(Clone, Copy)]
pub(crate) struct Part {
    /// How many characters it has.
    pub(crate) size: usize,
    pub(crate) stands: Stands,
}

/// The character that a backslash and this character stand for.
fn escaped(ch: char) -> char
    ensures { result ≡ escaped ch }
{
    match ch {
        'b' => '\u{8}',
        't' => '\t',
        'n' => '\n',
        'v' => '\u{B}',
        'f' => '\u{C}',
        'r' => '\r',
        _ => ch,
    }
}

/// The unit that the digits stand for, where all are hexadecimal.
fn hex_value(digits: &[char]) -> Option<u16>
    requires { length digits.now ≤ 4 }
    ensures { result ≡ hex_unit (length digits.now) digits.now }
{
    let mut value: u32 = 0;
    for digit in digits {
        match digit.to_digit(16) {
            Some(digit) => value = value * 16 + digit,
            None => return None,
        }
    }
    Some(value as u16)
}

/// Appends the code units of a part.
fn push_part(units: &mut Vec<u16>, stands: Stands) -> Result<(), AllocError>
    ensures { IfOk result (λ _. units.new.items ≡ units.old.items ++ units_of stands) }
{
    match stands {
        Stands::Nothing => Ok(()),
        Stands::Unit(unit) => {
            units.push(unit)?;
            Ok(())
        }
        Stands::Character(ch) => push_char(units, ch),
    }
}

impl Cursor<'_> {
    /// The unit that `count` hexadecimal digits from a place on stand for, if so many stand there.
    fn hex_unit(&self, from: usize, count: usize) -> Option<u16>
        requires place { from ≤ 2 ^ 25 }
        requires some { 0 < count }
        requires few { count ≤ 4 }
        ensures { result ≡ hex_unit count (slice_range self.now.chars.now from (from + count)) }
    {
        let Some(digits) = self.chars.get(from..from + count) else {
            return None;
        };
        hex_value(digits)
    }

    /// The part that `\x` or `\u` begins, whose digits begin at a place.
    fn hex_part(&self, from: usize, count: usize) -> Option<Part>
        requires place { from ≤ 2 ^ 25 }
        requires some { 0 < count }
        requires few { count ≤ 4 }
        ensures { result ≡ hex_part (count + 2) (hex_unit count (slice_range self.now.chars.now from (from + count))) }
    {
        let unit = self.hex_unit(from, count)?;
        Some(Part {
            size: count + 2,
            stands: Stands::Unit(unit),
        })
    }

    /// The escape of a backslash before the character `ch`, which stands at a place.
    fn escape(&self, place: usize, ch: char) -> Option<Part>
        requires { place ≤ 2 ^ 24 + 1 }
        ensures { result ≡ escape_of self.now.chars.now place ch }
    {
        if ch == 'x' {
            self.hex_part(place + 1, 2)
        } else if ch == 'u' {
            self.hex_part(place + 1, 4)
        } else if ch.is_ascii_digit() {
            self.digit_escape(place, ch)
        } else if is_line_end(ch) {
            Some(self.continuation(place, ch))
        } else {
            Some(Part {
                size: 2,
                stands: Stands::Character(escaped(ch)),
            })
        }
    }

    /// Whether a digit stands at a place.
    fn has_digit_at(&self, place: usize) -> bool
        ensures { result ≡ passes is_decimal (slice_get self.now.chars.now place) }
    {
        match self.chars.get(place).copied() {
            Some(ch) => ch.is_ascii_digit(),
            None => false,
        }
    }

    /// The escape of a backslash before a digit: `\0` alone is one.
    fn digit_escape(&self, place: usize, ch: char) -> Option<Part>
        requires { place ≤ 2 ^ 24 + 1 }
        ensures { result ≡ digit_escape self.now.chars.now place ch }
    {
        if ch == '0' && !self.has_digit_at(place + 1) {
            Some(Part {
                size: 2,
                stands: Stands::Unit(0),
            })
        } else {
            None
        }
    }

    /// The continuation of a backslash before a line terminator: CR LF is one.
    fn continuation(&self, place: usize, ch: char) -> Part
        requires { place ≤ 2 ^ 24 + 1 }
        ensures { result ≡ continuation self.now.chars.now place ch }
    {
        let size = if ch == '\r' && self.chars.get(place + 1).copied() == Some('\n') {
            3
        } else {
            2
        };
        Part {
            size,
            stands: Stands::Nothing,
        }
    }

    /// The part of a string literal that stands here.
    #[tactic(auto, unfolding(crate::specs::Strings::part_at))]
    fn part(&self, quote: char) -> Option<Part>
        requires { self.now.at ≤ 2 ^ 24 }
        ensures { result ≡ part_at self.now.chars.now quote self.now.at }
    {
        let ch = self.peek()?;
        if ch == '\\' {
            let escaped = self.chars.get(self.at + 1).copied()?;
            self.escape(self.at + 1, escaped)
        } else if ch == quote || is_line_end(ch) {
            None
        } else {
            Some(Part {
                size: 1,
                stands: Stands::Character(ch),
            })
        }
    }

    /// Reads the string literal that begins with the quote here, with its code units.
    pub(crate) fn string(
        &mut self,
        quote: char,
        units: &mut Vec<u16>,
    ) -> Result<Option<Scanned>, AllocError>
        requires placed { IsPlaced self.old }
        requires start { slice_get self.old.chars.now self.old.at ≡ Some quote }
        requires quotes { is_quote quote ≡ true }
        ensures { IfOk result (λ r. ReadsPiece self.old self.new units.new.items r) }
    {
        units.clear();
        self.advance();
        while let Some(part) = self.part(quote) {
            push_part(units, part.stands)?;
            self.advance_by(part.size);
        }
        if self.has(quote) {
            self.advance();
            Ok(Some(Scanned::Text))
        } else {
            Ok(None)
        }
    }
}
