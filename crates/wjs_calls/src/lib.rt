//! Calls, `new`, and the functions and arrays that scripts make.
//!
//! Each call says of which deeds of a line it is, as the moves and the deeds on a configuration's heap do.
#![tactic(auto)]

mod arrays;
mod bodies;
mod calls;
mod enters;
mod functions;
mod makes;
mod named;
mod news;
mod pairs;

pub use arrays::{make_array, whole_value, write_elements};
pub use calls::{call, call_below, call_held, call_value};
pub use functions::{declare_functions, make_function};
pub use news::construct;
