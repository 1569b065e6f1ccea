//! Heaps: texts, objects and a store of worlds together, and what keeps a heap one.
#![tactic(auto)]

mod heap;
mod laws;

pub use heap::Heap;
pub use laws::{heaps_begin, more_objects_keep, more_texts_keep};
