//! Names that are all hidden.
ghost use Rattle.std.specs.Prelude.{◌≡◌, ◌||◌, ◌==◌, cond, IfSome, None, Some};
ghost use Rattle.wjs_base.specs.declared.values.Name.TheVariants as names;
ghost use Rattle.wjs_arena.specs.AtName.{at_name};
ghost use Rattle.wjs_arena.specs.Hidden.{hidden, hidden_list};

use crate::object::Flags;
use wjs_base::{Name, TextId};

/// The greatest number of a text that is kept in short. The texts of the library come first, and have small numbers.
const GREATEST_TEXT: u64 = 65_535;

/// Two texts, by their numbers, and the indices below a count: the names that an Arguments object hides (ECMA-262, 3rd edition,
/// section 10.1.8).
#[derive(Clone, Copy)]
pub struct Hidden {
    pub count: u32,
    pub callee: u16,
    pub length: u16,
}

const _: () = prove!(size_of::<Hidden>() == 8);

impl Hidden {
    /// The attributes of a name; None exactly where it isn't among these.
    pub fn get(&self, name: Name) -> Option<Flags>
        ensures { result ≡ at_name (hidden_list self.now) name }
    {
        match name {
            Name::Index(index) => hidden_if(index < self.count),
            Name::Text(text) => hidden_if(self.has_text(text)),
        }
    }

    /// Whether a text is one of the two.
    fn has_text(&self, text: TextId) -> bool
        ensures { result ≡ ((self.now.callee == text.0) || (self.now.length == text.0)) }
    {
        self.callee as u64 == text.0 || self.length as u64 == text.0
    }
}

/// The attributes of a hidden name, if it is one.
fn hidden_if(is_hidden: bool) -> Option<Flags>
    ensures { result ≡ cond is_hidden (Some hidden) None }
{
    if is_hidden {
        Some(Flags {
            hidden: true,
            kept: false,
        })
    } else {
        None
    }
}

/// The number of a text in short; None of an index, and where it is too great.
pub(crate) fn short_text(name: Name) -> Option<u16>
    ensures { IfSome result (λ text. names.Text (record { 0 = text }) ≡ name) }
{
    match name {
        Name::Index(_) => None,
        Name::Text(text) => {
            if text.0 > GREATEST_TEXT {
                return None;
            }
            Some(text.0 as u16)
        }
    }
}
