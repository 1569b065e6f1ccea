//! The piece at a place.
ghost use Rattle.std.specs.Prelude.{◌≡◌, Some, slice_get, IfOk};
ghost use Rattle.wjs_lexer.specs.Cursors.{IsPlaced, ReadsPiece};

use crate::characters::{Kind, kind_of};
use crate::cursor::Cursor;
use std::alloc::AllocError;
use wjs_tree::{Key, Sign};

/// What stands at a place of a text. The code units of a word or a text are kept beside it.
#[derive(Clone, Copy)]
pub(crate) enum Scanned {
    Space,
    LineEnd,
    LineComment,
    /// With whether it holds a line terminator.
    BlockComment(bool),
    Word,
    Key(Key),
    Sign(Sign),
    Number(u64),
    Text,
}

impl Cursor<'_> {
    /// Reads the piece that begins here, if one does, with its code units where it is a word or a
    /// text. Where none begins, the cursor may have gone on.
    pub(crate) fn piece(&mut self, units: &mut Vec<u16>) -> Result<Option<Scanned>, AllocError>
        requires placed { IsPlaced self.old }
        ensures { IfOk result (λ r. ReadsPiece self.old self.new units.new.items r) }
    {
        let Some(ch) = self.peek() else {
            return Ok(None);
        };
        match kind_of(ch) {
            Kind::Space => {
                self.advance();
                Ok(Some(Scanned::Space))
            }
            Kind::LineEnd => {
                self.advance();
                Ok(Some(Scanned::LineEnd))
            }
            Kind::Letter => self.word(units),
            Kind::Digit => Ok(self.number(ch)),
            Kind::Slash => Ok(self.slash()),
            Kind::Quote => self.string(ch, units),
            Kind::Mark => Ok(self.mark(ch)),
        }
    }
}
