//! Statements (ECMA-262, 3rd edition, section 12): what a frame of one does at its entry and at its next iteration, and after each
//! part that it waits for.
#![tactic(auto)]

mod beginnings;
mod begins;
mod blocks;
mod loops;
mod resumes;

pub use begins::{again, statement, variables};
pub use resumes::stmt_after;
