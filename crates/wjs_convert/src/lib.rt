//! Conversions and comparisons of primitives, over what texts hold.
//!
//! The calls are for primitives: the language first makes a primitive of an object. Where one is handed an object all the
//! same, its definition says what it gives.
#![tactic(auto)]

mod compare;
mod convert;

pub use compare::{less_than, loosely_equal, strictly_equal};
pub use convert::{to_boolean, to_number, to_text};
