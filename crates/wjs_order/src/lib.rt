//! A program's nodes in the order of its tree.
#![tactic(auto)]

mod numbers;
mod order;
mod program;
mod push;
mod renumber;
mod stack;

pub use program::ordered;
