//! Assignments, updates, operators before an operand, conditions and commas (ECMA-262, 3rd edition, sections 11.3, 11.4 and
//! 11.12 to 11.14): what each does at its entry, and after each part that it waits for.
#![tactic(auto)]

mod assigns;
mod conditions;
mod deletes;
mod operands;
mod prefixes;
mod typeofs;
mod updates;

pub use assigns::{assign_reference, assign_start, assign_value, compound_value};
pub use conditions::{comma_left, comma_start, cond_start, cond_test};
pub use deletes::{delete_reference, delete_value};
pub use prefixes::{
    complement_converted, complement_value, minus_converted, minus_value, not_value,
    plus_primitive, plus_value, prefix_start, void_value,
};
pub use typeofs::{typeof_reference, typeof_value};
pub use updates::{update_converted, update_reference, update_start};
