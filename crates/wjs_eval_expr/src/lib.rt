//! Expressions and targets (ECMA-262, 3rd edition, section 11): what a frame of one does at its entry, and after each part that
//! it waits for.
#![tactic(auto)]

mod operations;
mod points;
mod starts;

pub use operations::operation;
pub use points::expr_after;
pub use starts::expr;
pub use wjs_members::target;
