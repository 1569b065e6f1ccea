//! A place in a text.
ghost use Rattle.std.specs.Prelude.{◌≡◌, ◌↔◌, IsTrue, ◌+◌, ◌^◌, ◌<◌, ◌≤◌, Some, slice_get, length};
ghost use Rattle.wjs_lexer.specs.Places.{line_step};
ghost use Rattle.wjs_lexer.specs.Cursors.{IsPlaced, Went};

use crate::characters::is_line_end;

/// A place in a text, with its byte and its line.
#[derive(Drop)]
pub(crate) struct Cursor<'a> {
    pub(crate) chars: &'a [char],
    /// How many characters stand before the place.
    pub(crate) at: usize,
    /// How many bytes they take in UTF-8.
    pub(crate) byte: u64,
    /// One more than the lines that end before the place.
    pub(crate) line: u64,
}

impl Cursor<'_> {
    pub(crate) fn peek(&self) -> Option<char>
        ensures { result ≡ slice_get self.now.chars.now self.now.at }
    {
        self.chars.get(self.at).copied()
    }

    /// Whether this character stands here.
    pub(crate) fn has(&self, ch: char) -> bool
        ensures { IsTrue result ↔ (slice_get self.now.chars.now self.now.at ≡ Some ch) }
    {
        self.peek() == Some(ch)
    }

    /// Whether this character stands one place on.
    pub(crate) fn has_behind(&self, ch: char) -> bool
        requires { self.now.at ≤ 2 ^ 24 }
        ensures { IsTrue result ↔ (slice_get self.now.chars.now (self.now.at + 1) ≡ Some ch) }
    {
        self.chars.get(self.at + 1).copied() == Some(ch)
    }

    /// How many lines end with the character here: 0 or 1.
    fn lines_here(&self) -> u64
        requires { self.now.at < 2 ^ 24 }
        ensures value { result ≡ line_step (slice_get self.now.chars.now self.now.at) (slice_get self.now.chars.now (self.now.at + 1)) }
        ensures small { result ≤ 1 }
    {
        match self.peek() {
            Some('\r') => {
                if self.chars.get(self.at + 1).copied() == Some('\n') {
                    0
                } else {
                    1
                }
            }
            Some(ch) => { if is_line_end(ch) { 1 } else { 0 } }
            None => 0,
        }
    }

    /// Goes over one character.
    pub(crate) fn advance(&mut self)
        requires placed { IsPlaced self.old }
        requires more { self.old.at < length self.old.chars.now }
        ensures { Went self.old self.new (self.old.at + 1) }
    {
        let lines = self.lines_here();
        let ch = self.chars[self.at];
        self.line += lines;
        self.byte += ch.len_utf8() as u64;
        self.at += 1;
    }

    /// Goes over so many characters.
    pub(crate) fn advance_by(&mut self, count: usize)
        requires placed { IsPlaced self.old }
        requires more { self.old.at + count ≤ length self.old.chars.now }
        ensures { Went self.old self.new (self.old.at + count) }
    {
        for _ in 0..count {
            self.advance();
        }
    }
}
