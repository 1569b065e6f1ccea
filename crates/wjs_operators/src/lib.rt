//! Operators between two values (ECMA-262, 3rd edition, sections 11.5 to 11.11): what a frame does at its entry, and after each part that it waits for.
#![tactic(auto)]

mod additions;
mod binary;
mod comparisons;
mod equality;
mod operands;
mod operations;
mod relations;

pub use binary::{binary_left, binary_right, binary_start};
pub use operations::{operand_first, operand_second, operate};
