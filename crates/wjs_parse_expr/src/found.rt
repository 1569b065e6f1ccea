//! What the parser answers.

use wjs_tree::NodeId;

/// A node and the place after its tokens.
#[derive(Clone, Copy)]
pub struct Found {
    pub node: NodeId,
    pub next: usize,
}

/// Why nothing was found.
#[derive(Clone, Copy, Debug, PartialEq, Eq)]
pub enum ParseFault {
    /// No well-formed tree spells the tokens there.
    NotAScript,
    OutOfMemory,
}
