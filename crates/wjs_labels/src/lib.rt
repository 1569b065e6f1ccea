//! The rules on jumps and labels, tested over the nodes of a script.
#![tactic(auto)]

mod around;
mod jumps;

pub use jumps::jumps_are_right;
