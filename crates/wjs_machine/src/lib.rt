//! The machine: turns one after another, and output as it comes.
#![tactic(auto)]

mod flush;
mod laws;
mod steps;
mod turn;
mod whole;

pub use laws::{output_goes_out, output_takes_no_turn};
pub use steps::step;
pub use turn::advance;
pub use whole::run;
pub use wjs_model::{Ending, Halt};
