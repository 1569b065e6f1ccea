//! What the program tells of a run that has ended: the text of a value that it threw, and its worlds.
#![tactic(auto)]

mod lines;
mod thrown;

pub use lines::world_lines;
pub use thrown::show_thrown;
