//! Cuts a script into tokens.
#![tactic(auto)]

mod characters;
mod comments;
mod cursor;
mod laws;
mod lexing;
mod numbers;
mod pieces;
mod signs;
mod strings;
mod words;

pub use characters::is_line_end;
pub use laws::one_reading;
pub use lexing::{LexFault, lex};
