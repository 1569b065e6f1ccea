//! The input of a play: scripts divided by lines `---`.
#![tactic(auto)]

mod division;
mod input;
mod laws;
mod lines;

pub use division::{Piece, parts_of};
pub use input::{InputFault, load_parts};
pub use laws::{one_input, parts_are_texts};
