//! What an object is in all worlds.

use crate::class::Class;
use crate::listed::Listed;
use crate::native::Native;
use crate::under::Under;
use wjs_base::{NodeId, ObjId, Value, WorldId};

/// The code of a function: the body at a node of a tree, or a native function's. None where the object is no function.
#[derive(Clone, Copy)]
pub enum Code {
    None,
    Script { tree: u32, node: NodeId },
    Native(Native),
}

/// Attributes of a property (ECMA-262, 3rd edition, section 8.6.1).
#[derive(Clone, Copy)]
pub struct Flags {
    /// DontEnum: no listing has it.
    pub hidden: bool,
    /// DontDelete.
    pub kept: bool,
}

/// What an object is in all worlds, fixed when it is made: its internal properties (section 8.6.2), the properties that are
/// read-only, and the attributes of the others.
#[derive(Drop)]
pub struct Object {
    pub class: Class,
    pub prototype: Option<ObjId>,
    /// A function's scope, or the next scope outwards.
    pub scope: Option<ObjId>,
    pub code: Code,
    /// What a wrapper of a text, a number or a truth value holds; otherwise undefined.
    pub primitive: Value,
    /// The world that a World object stands for.
    pub world: Option<WorldId>,
    /// Properties that no world changes, hidden and kept. The first of a name counts.
    pub fixed: Under<Value>,
    /// The attributes of other names, where they have some. The first of a name counts.
    pub flags: Listed,
    /// Whether no property is deletable.
    pub all_kept: bool,
}
