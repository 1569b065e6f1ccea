//! Rows by slot, which the number of a slot's object finds at once.
#![tactic(auto)]

mod near;
mod parts;
mod table;
mod walked;

pub use table::Table;
pub use walked::{Walked, least_slot};
