//! Programs, conversions and what goes on after them: what a frame that runs one of them does in a turn.
#![tactic(auto)]

mod conversions;
mod methods;
mod points;
mod programs;
mod values;

pub use conversions::conversion;
pub use points::call_after;
pub use programs::program;
pub use wjs_direct::body;
