//! What the native functions share: the conversions of their receivers and arguments, in order, and what they read of converted
//! values (ECMA-262, 3rd edition, section 15).
#![tactic(auto)]

mod arguments;
mod conversions;
mod cores;
mod items;
mod kinds;
mod primitives;
mod stays;
mod turns;

pub use arguments::{number_of, text_at, text_of, value_at, whole_at};
pub use conversions::Progress;
pub use cores::is_core;
pub use items::items_of;
pub use stays::stay;
pub use turns::{begin, resume};
