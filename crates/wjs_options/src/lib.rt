//! The words of the command line, read by `clap`.
#![tactic(auto)]

mod answer;
mod command;
mod line;
mod mode;
mod reading;

pub use answer::{Options, WordsFault};
pub use mode::Mode;
pub use reading::options;
