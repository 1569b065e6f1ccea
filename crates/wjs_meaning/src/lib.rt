//! The meaning of programs: what each form of the language does, on worlds that hold full copies.
//!
//! `specs/` is what a reader must believe. A form is a tree of deeds (`Deeds`), one line for each expression
//! (`Expressions`), statement (`Statements`) and native function (`Natives`); `Programs` runs a library's tree and a script's
//! from the objects of `Start`. The laws are the contracts of functions that do nothing.
#![tactic(auto)]

mod builtin;
mod kinds;
mod laws;
mod library;
mod natives;
mod trouble;

pub use builtin::Builtin;
pub use kinds::{Kind, Kinds};
pub use laws::{budget_law, depth_is_enough, goals_are_their_entries, steps_never_rise};
pub use library::LIBRARY;
pub use natives::{Row, row_of};
pub use trouble::Trouble;
