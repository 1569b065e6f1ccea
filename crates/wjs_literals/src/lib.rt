//! Literals, function expressions, calls and `new` (ECMA-262, 3rd edition, sections 11.1, 11.2 and 13): what each does at its
//! entry, and after each part that it waits for.
#![tactic(auto)]

mod arguments;
mod arrays;
mod calls;
mod functions;
mod literals;
mod news;
mod objects;

pub use arrays::{Next, array_item, array_start, next_among, write_last, write_length};
pub use calls::{call_argument, call_callee, call_reference, call_start};
pub use functions::function_start;
pub use literals::{text, this, this_world};
pub use news::{new_argument, new_callee, new_made, new_start};
pub use objects::{object_item, object_start, write_property};
