//! Where tokens stop being the front of a program.
#![tactic(auto)]

mod answer;
mod class;
mod expressions;
mod finding;
mod forms;
mod headers;
mod machine;
mod moves;
mod statements;
#[cfg(test)]
mod tests;

pub use answer::Offence;
pub use finding::{offence, one_offence};
