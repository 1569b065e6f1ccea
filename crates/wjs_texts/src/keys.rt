//! The keys by which texts are found.
use wjs_base::TextId;

/// The turn of a text, and its hash at that turn: at each turn before, another text was there first.
#[derive(Clone, Copy, PartialEq, Eq, Hash)]
pub(crate) struct Key {
    pub(crate) hash: u32,
    pub(crate) turn: u32,
}

/// What a search for units gives.
#[derive(Clone, Copy)]
pub(crate) enum Sought {
    /// The text that has them.
    There(TextId),
    /// The key of a new text that has them.
    Free(Key),
    /// No text has them, and no key of their hash is left.
    Full,
}
