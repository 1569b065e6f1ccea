//! What is left of a statement, and values that may be texts still to be made.

use wjs_base::{TextId, Value};
use wjs_model::Completion;
use wjs_tree::NodeId;

/// Primitives whose texts are joined, one behind the other.
#[derive(Clone, Copy)]
pub(crate) struct Pieces {
    pub first: Value,
    pub second: Value,
    pub third: Option<Value>,
    pub fourth: Option<Value>,
}

/// The value of an expression: it is there, or is a text that is still to be made.
#[derive(Clone, Copy)]
pub(crate) enum Made {
    There(Value),
    Joined(Pieces),
}

/// What is told of a store: what was stored, as of an assignment, or nothing, as of a `var`.
#[derive(Clone, Copy)]
pub(crate) enum Told {
    Stored,
    Nothing,
}

/// How a statement ends, or what it does last: nothing of that is evaluated yet.
#[derive(Clone, Copy)]
pub(crate) enum Effect {
    Ends(Completion),
    /// An expression statement's expression.
    Evaluates(NodeId),
    Returns(NodeId),
    /// The `var` at a node, whose one variable has a name and an initialiser.
    Initialises(NodeId, TextId, NodeId),
}
