//! Comments, and the signs that begin as they do.
ghost use Rattle.std.specs.Prelude.{◌≡◌, ℕ, List, ◌+◌, ◌≤◌, Some, slice_get, length};
ghost use Rattle.wjs_lexer.specs.Cursors.{IsPlaced, ReadsToLineEnd, ReadsPiece, ReadsBlock, OpensBlock};

use crate::characters::is_line_end;
use crate::cursor::Cursor;
use crate::pieces::Scanned;
use wjs_tree::Sign;

impl Cursor<'_> {
    /// Goes over a comment of one line, whose `//` stands here.
    fn line_comment(&mut self)
        requires placed { IsPlaced self.old }
        requires two { self.old.at + 2 ≤ length self.old.chars.now }
        ensures { ReadsToLineEnd self.old self.new }
    {
        self.advance_by(2);
        while let Some(ch) = self.peek() {
            if is_line_end(ch) {
                break;
            }
            self.advance();
        }
    }

    /// Goes over a comment whose `/*` stands here, and tells whether it holds a line terminator.
    /// None where no `*/` closes it.
    fn block_comment(&mut self) -> Option<bool>
        requires placed { IsPlaced self.old }
        requires opens { OpensBlock self.old.chars.now self.old.at }
        ensures { ReadsBlock self.old self.new result }
    {
        self.advance_by(2);
        let mut holds_line = false;
        while let Some(ch) = self.peek() {
            if ch == '*' && self.has_behind('/') {
                self.advance_by(2);
                return Some(holds_line);
            }
            holds_line |= is_line_end(ch);
            self.advance();
        }
        None
    }

    /// Reads the comment or the sign that begins with the `/` here.
    pub(crate) fn slash(&mut self) -> Option<Scanned>
        requires placed { IsPlaced self.old }
        requires start { slice_get self.old.chars.now self.old.at ≡ Some 47 }
        ensures { (units : List ℕ) → ReadsPiece self.old self.new units result }
    {
        if self.has_behind('/') {
            self.line_comment();
            Some(Scanned::LineComment)
        } else if self.has_behind('*') {
            match self.block_comment() {
                Some(holds_line) => Some(Scanned::BlockComment(holds_line)),
                None => None,
            }
        } else {
            self.sign('/', Sign::Divide)
        }
    }
}
