//! An object in the arena, as contracts see it.

use crate::object::Object;

/// An object, and how deep it is: one deeper than its prototype and its scope. The arena keeps it in fewer bytes.
#[derive(Drop)]
pub struct Entry {
    pub object: Object,
    pub depth: u64,
}
