//! Reads programs, their elements, and functions.
#![tactic(auto)]

mod formals;
mod function;
mod list;
mod whole;

pub use function::function_at;
pub use list::source_elements;
pub use whole::program;
