//! What many lines of the meaning share: what values count as, what a frame holds, and how a line ends.
#![tactic(auto)]

mod ends;
mod held;
mod numbers;
mod objects;
mod references;
mod texts;
mod values;

pub use ends::{give, give_result, give_short, give_text, throw};
pub use held::{held_callee, held_elements, held_reference, held_value};
pub use numbers::{number_after, number_of};
pub use objects::{this_or_global, to_object};
pub use references::{give_value_of, store_and_give};
pub use texts::{index_of, join, most_units, name_of_value, push_text};
pub use values::{
    are_primitives, is_nullish, is_object, is_text, less_than, loosely_equal, strictly_equal,
    to_boolean, to_number,
};
