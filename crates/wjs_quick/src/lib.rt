//! Expressions that have no effect, evaluated at once: their steps are taken, and no frame is made for them.
//!
//! A handler that waits for the value of a part may ask for it here first. What is found is what the part's deeds come to. Where
//! this can't be told without an effect, a conversion or a step that is wanting, the answer is None, and nothing has changed.
#![tactic(auto)]

mod enters;
mod evaluate;
mod hopes;
mod members;
mod numbers;
mod operators;
mod parts;

pub use enters::{enter_last_quickly, enter_quickly};
pub use hopes::is_hopeless;
pub use members::{dotted, indexed, name_there};
pub use numbers::{arithmetic, calculated};
pub use operators::{is_of_value, is_so, operated, prefixed};
pub use parts::{entered_at, quick, quick_entered, value_at};
