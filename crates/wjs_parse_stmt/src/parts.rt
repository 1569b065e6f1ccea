//! What readers of statements with statements in them hand to each other.

use wjs_tree::{Clause, Handler, NodeId, Sequence};

/// Both parts of the header of a `for` behind its first, and the statement with the place after it.
#[derive(Clone, Copy)]
pub struct Rest {
    pub test: Option<NodeId>,
    pub update: Option<NodeId>,
    pub node: NodeId,
    pub next: usize,
    pub is_open: bool,
}

/// An `if` without what stands behind `else`: the test, the statement, the place after it, and whether an `else` there
/// would belong to an `if` in the statement.
#[derive(Clone, Copy)]
pub struct Branch {
    pub test: NodeId,
    pub body: NodeId,
    pub next: usize,
    pub is_open: bool,
}

/// The name and the block of a `catch`, and the place after it.
#[derive(Clone, Copy)]
pub struct Handled {
    pub handler: Handler,
    pub next: usize,
}

/// A clause of a `switch`, and the place after it.
#[derive(Drop)]
pub struct Arm {
    pub clause: Clause,
    pub next: usize,
}

/// Statements or elements, and the place of the token that closes them.
#[derive(Drop)]
pub struct Listed {
    pub list: Sequence<NodeId>,
    pub next: usize,
}

/// The clauses of a `switch`, and the place of the brace that closes them.
#[derive(Drop)]
pub struct ListedClauses {
    pub list: Sequence<Clause>,
    pub next: usize,
}
