//! The forms of a program that are open behind some of its tokens, and the table of what the next token does.
#![tactic(auto)]

mod class;
mod forms;
mod laws;

pub use class::Class;
pub use forms::{Control, Form, Move, Place};
pub use laws::{goes_on, spelled_is_taken, taken_is_spelled};
