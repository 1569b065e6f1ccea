//! The numbers that stand for texts, objects and worlds.

use std::alloc::{AllocError, AllocFailed};

/// Want of memory: the one refusal that no clause ties to a cause.
#[derive(Clone, Copy, Debug, PartialEq, Eq)]
pub struct OutOfMemory;

impl From<AllocError> for OutOfMemory {
    fn from(_: AllocError) -> Self {
        OutOfMemory
    }
}

impl<T: Drop> From<AllocFailed<T>> for OutOfMemory {
    fn from(_: AllocFailed<T>) -> Self {
        OutOfMemory
    }
}

/// The number of an interned text. Texts of equal content have equal numbers.
#[derive(Clone, Copy, PartialEq, Eq)]
pub struct TextId(pub u64);

/// The number of a node of a tree, counted from 0. A part has a smaller number than the form that it stands in.
#[derive(Clone, Copy, PartialEq, Eq)]
pub struct NodeId(pub u64);

/// An object: who made it, and its place among that owner's objects, counted from 0.
#[derive(Clone, Copy, PartialEq, Eq, PartialOrd, Ord)]
pub struct ObjId {
    pub owner: u32,
    pub serial: u64,
}

/// A world: who sprouted it, and its place among that owner's worlds, counted from 0.
#[derive(Clone, Copy, PartialEq, Eq, PartialOrd, Ord)]
pub struct WorldId {
    pub owner: u32,
    pub serial: u64,
}
