//! Tokens, and tokens at their places.

use crate::keys::Key;
use crate::signs::Sign;
use wjs_base::{TextId, Whole};

/// A token, without its place (ECMA-262, 3rd edition, section 7.5).
#[derive(Clone, Copy)]
pub enum Token {
    /// An identifier, by its text.
    Word(TextId),
    Key(Key),
    Sign(Sign),
    /// A numeric literal, by its value, which is never NaN.
    Number(Whole),
    /// A string literal, by the text that it stands for.
    Text(TextId),
}

/// A token of a script at its place.
#[derive(Clone, Copy)]
pub struct Tok {
    pub token: Token,
    /// How many bytes of the script stand before it.
    pub byte: u64,
    /// The line that it begins on, counted from 1.
    pub line: u64,
    /// Whether a line ends between the token before it, or the start, and this one.
    pub after_line: bool,
}
