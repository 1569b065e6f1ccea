//! Texts by number, what names spell, and UTF-8.
#![tactic(auto)]

mod buffers;
mod hash;
mod keys;
mod known;
mod spelling;
mod texts;
mod unicode;

pub use known::Known;
pub use texts::{LONGEST_TEXT, TextFault, Texts};
pub use unicode::{Utf8Fault, units_of_ascii, units_of_utf8, utf8_of_units};
