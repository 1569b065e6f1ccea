//! Values, names, slots and the numbers of texts: what every crate of the interpreter speaks of.
#![tactic(auto)]

mod ids;
mod list;
mod number;
mod values;

pub use ids::{NodeId, ObjId, OutOfMemory, TextId, WorldId};
pub use list::Names;
pub use number::Whole;
pub use values::{Content, Name, Slot, Value, same_value};
