//! The native functions on texts and numbers: print, parseInt, isNaN, and those of String, Number, Boolean and Math
//! (ECMA-262, 3rd edition, sections 15.1.2 and 15.5 to 15.8).
#![tactic(auto)]

mod at_once;
mod globals;
mod glue;
mod math;
mod numbers;
mod places;
mod receivers;
mod runs;
mod splits;
mod strings;
mod turns;
mod units;

pub use at_once::native_at_once;
pub use glue::glue_element;
pub use turns::{begin_text, resume_text};
