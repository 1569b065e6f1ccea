//! The tree of a program by content, and that bytes spell one at most.
//!
//! There is no code: each law is the contract of a function that does nothing.
#![tactic(auto)]

mod bodies;
mod known;
mod laws;
mod numbers;

pub use bodies::{all_bodies_stand, bodies_are_meant};
pub use known::nodes_are_known;
pub use laws::{one_program, program_or_none, units_are_trees};
pub use numbers::{depth_is_enough, labels_are_around, parts_are_next};
