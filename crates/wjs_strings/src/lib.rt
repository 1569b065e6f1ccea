//! The algorithms of the native functions on code units and numbers (ECMA-262, 3rd edition, section 15).
#![tactic(auto)]

mod numbers;
mod parts;
mod periods;
mod pieces;
mod places;
mod search;
mod spelled;

pub use numbers::{absolute, code_unit, greatest, least, number_of};
pub use parts::{part_of, slice, substring, unit_at};
pub use pieces::{Piece, split};
pub use places::{kept_within, limit_of, or_zero};
pub use search::{first_from, last_place};
pub use spelled::{fault_text, function_text, line_of, object_text};
