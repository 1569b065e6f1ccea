//! The rows of one object, by name.
#![tactic(auto)]

mod by_name;
mod few;
mod four;
mod held;
mod kept;
mod many;
mod short;
mod short_name;
mod tiny_name;
pub mod tree;

pub use by_name::RowsByName;
pub use kept::ROWS_IN_PLACE;
