//! Maps with ordered keys, whose calls count their steps.
#![tactic(auto)]

mod rows;
mod steps;

pub use rows::Rows;
pub use steps::Steps;
