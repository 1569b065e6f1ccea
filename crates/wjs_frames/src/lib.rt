//! The moves that a turn of the machine is made of: a node ends, a part is entered, a frame waits, goes on or has a step due.
//!
//! What is left to do is a tree of deeds above the frames of a configuration. Each move says which deeds it follows: with these
//! deeds above the old frames the run ends as the new configuration's does.
#![tactic(auto)]

mod converts;
mod ends;
mod enters;
mod holds;
mod laws;
mod node;
mod operands;
mod part;
mod take;
mod waits;

pub use converts::convert;
pub use ends::finish;
pub use enters::{enter, enter_last};
pub use holds::hold;
pub use laws::{
    looks_follow, more_texts_change_nothing, more_texts_outside_change_nothing,
    nested_ends_shorten, reached_is_reached, shorter_follow, step_paid, turns_reach,
};
pub use node::{node_among, node_at, node_of, place_at};
pub use operands::operand_of;
pub use part::Part;
pub use take::take_top;
pub use waits::{due_later, go_on_with, nest, wait};
