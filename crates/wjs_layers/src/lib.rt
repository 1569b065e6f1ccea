//! The layers of worlds of which only what was touched is kept.
//!
//! Each world but the first keeps a row for each slot that was read or written in it, and the objects that were listed
//! in it. What it holds elsewhere is its parent's. The first world keeps its present slots.
#![tactic(auto)]

mod compact;
mod layer;
pub mod layers;
mod maps;
mod short;
mod touched;
mod values;

pub use layer::{Layer, Spot};
pub use maps::{Row, least_object};
