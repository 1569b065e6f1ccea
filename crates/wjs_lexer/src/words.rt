//! Identifiers and reserved words.
ghost use Rattle.std.specs.Prelude.{◌≡◌, ◌↔◌, IsTrue, ◌+◌, ◌<◌, ◌≤◌, true, slice_get, length, IfOk, ◌++◌};
ghost use Rattle.std.specs.List.{flat_map};
ghost use Rattle.std.specs.Char.Escape.{encode_utf16};
ghost use Rattle.wjs_tree.specs.Keys.{spelling};
ghost use Rattle.wjs_lexer.specs.Characters.{starts_name};
ghost use Rattle.wjs_lexer.specs.Places.{passes};
ghost use Rattle.wjs_lexer.specs.Cursors.{IsPlaced, ReadsName, ReadsPiece};
ghost use Rattle.wjs_lexer.specs.KeySteps.{keys_from, IsKeyOf};

use crate::characters::continues_name;
use crate::cursor::Cursor;
use crate::pieces::Scanned;
use std::alloc::AllocError;
use wjs_tree::Key;

/// The keys that begin with a character.
fn keys_from(first: char) -> &'static [Key]
    ensures { result.now ≡ keys_from first }
{
    match first {
        'a' => &[Key::Abstract],
        'b' => &[Key::Boolean, Key::Break, Key::Byte],
        'c' => &[
            Key::Case,
            Key::Catch,
            Key::Char,
            Key::Class,
            Key::Const,
            Key::Continue,
        ],
        'd' => &[
            Key::Debugger,
            Key::Default,
            Key::Delete,
            Key::Do,
            Key::Double,
        ],
        'e' => &[Key::Else, Key::Enum, Key::Export, Key::Extends],
        'f' => &[
            Key::False,
            Key::Final,
            Key::Finally,
            Key::Float,
            Key::For,
            Key::Function,
        ],
        'g' => &[Key::Goto],
        'i' => &[
            Key::If,
            Key::Implements,
            Key::Import,
            Key::In,
            Key::Instanceof,
            Key::Int,
            Key::Interface,
        ],
        'l' => &[Key::Long],
        'n' => &[Key::Native, Key::New, Key::Null],
        'p' => &[Key::Package, Key::Private, Key::Protected, Key::Public],
        'r' => &[Key::Return],
        's' => &[
            Key::Short,
            Key::Static,
            Key::Super,
            Key::Switch,
            Key::Synchronized,
        ],
        't' => &[
            Key::This,
            Key::ThisWorld,
            Key::Throw,
            Key::Throws,
            Key::Transient,
            Key::True,
            Key::Try,
            Key::Typeof,
        ],
        'v' => &[Key::Var, Key::Void, Key::Volatile],
        'w' => &[Key::While, Key::With],
        _ => &[],
    }
}

/// Whether the word is this key.
fn is_key(key: Key, word: &[char]) -> bool
    ensures { IsTrue result ↔ (word.now ≡ spelling key) }
{
    let spelling = key.spelling().as_bytes();
    if word.len() != spelling.len() {
        return false;
    }
    for (i, ch) in word.iter().enumerate() {
        if *ch as u32 != u32::from(spelling[i]) {
            return false;
        }
    }
    true
}

/// The key that the word is.
pub(crate) fn key_of(word: &[char]) -> Option<Key>
    requires { 0 < length word.now }
    ensures { IsKeyOf word.now result }
{
    for key in keys_from(word[0]) {
        if is_key(*key, word) {
            return Some(*key);
        }
    }
    None
}

/// Appends the code units of a text.
pub(crate) fn push_units(units: &mut Vec<u16>, text: &[char]) -> Result<(), AllocError>
    ensures { IfOk result (λ _. units.new.items ≡ units.old.items ++ flat_map encode_utf16 text.now) }
{
    for ch in text {
        push_char(units, *ch)?;
    }
    Ok(())
}

/// Appends the code units of a character.
pub(crate) fn push_char(units: &mut Vec<u16>, ch: char) -> Result<(), AllocError>
    ensures { IfOk result (λ _. units.new.items ≡ units.old.items ++ encode_utf16 ch) }
{
    let mut room = [0u16; 2];
    units.extend_from_slice(ch.encode_utf16(&mut room))
}

impl Cursor<'_> {
    /// Goes over a name, whose first character stands here.
    fn name(&mut self)
        requires placed { IsPlaced self.old }
        requires start { passes starts_name (slice_get self.old.chars.now self.old.at) ≡ true }
        ensures { ReadsName self.old self.new }
    {
        self.advance();
        while let Some(ch) = self.peek() {
            if !continues_name(ch) {
                break;
            }
            self.advance();
        }
    }

    /// Reads an identifier, with its code units, or a reserved word.
    pub(crate) fn word(&mut self, units: &mut Vec<u16>) -> Result<Option<Scanned>, AllocError>
        requires placed { IsPlaced self.old }
        requires start { passes starts_name (slice_get self.old.chars.now self.old.at) ≡ true }
        ensures { IfOk result (λ r. ReadsPiece self.old self.new units.new.items r) }
    {
        let start = self.at;
        self.name();
        let name = &self.chars[start..self.at];
        match key_of(name) {
            Some(key) => Ok(Some(Scanned::Key(key))),
            None => {
                units.clear();
                push_units(units, name)?;
                Ok(Some(Scanned::Word))
            }
        }
    }
}
