//! Names and members (ECMA-262, 3rd edition, sections 11.1.2 and 11.2.1), for their value and as targets, and the names that
//! keys of properties are.
//!
//! Each form has a function for its entry and one for each part that it waits for. Each says which deeds of the meaning it goes
//! on with.
#![tactic(auto)]

mod keys;
mod members;
mod names;
mod targets;

pub use keys::name_of_key;
pub use members::{at_base, at_converted, at_index, at_start, dot_base, dot_start};
pub use names::name_value;
pub use targets::{is_target, target};
