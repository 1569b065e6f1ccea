//! Reads statements from tokens.
#![tactic(auto)]

mod branch;
mod chain;
mod iteration;
mod lists;
mod parts;
mod stmt;

pub use parts::Listed;
pub use stmt::statement;
