//! Statements that are never done at once, by their form (ECMA-262, 3rd edition, section 12).
//!
//! What is told here decides only whether something is tried, so no clause says of it: a wrong answer costs time and nothing else.

use wjs_frames::node_at;
use wjs_model::{Config, Frame};
use wjs_quick::is_hopeless;
use wjs_store::WorldStore;
use wjs_tree::{Node, NodeId, PrefixOperator};

/// Whether an `if` is never done at once, however its test comes out: neither of its two parts is.
#[inline(always)]
pub(crate) fn are_hopeless<S: WorldStore>(
    config: &Config<S>,
    frame: &Frame,
    yes: NodeId,
    no: Option<NodeId>,
) -> bool {
    match no {
        Some(other) => is_slow(config, frame, other) && is_slow(config, frame, yes),
        None => false,
    }
}

/// Whether a statement has a form that is never done at once: an expression that stores nothing, several statements, and the like.
fn is_slow<S: WorldStore>(config: &Config<S>, frame: &Frame, node: NodeId) -> bool {
    match node_at(config, frame, node) {
        Some(Node::Expr(e, _)) => !stores(config, frame, *e),
        Some(Node::Block(statements)) => statements.as_slice().len() != 1,
        Some(Node::Return(Some(e), _)) => is_hopeless(config, frame, *e),
        Some(form) => is_never_done(form),
        None => true,
    }
}

/// The forms of which no statement is done at once.
#[inline(always)]
fn is_never_done(form: &Node) -> bool {
    match form {
        Node::If(_, _, _) | Node::Var(_, _) | Node::Return(_, _) | Node::Empty => false,
        Node::Break(_, _) | Node::Continue(_, _) => false,
        _ => true,
    }
}

/// Whether an expression stores, and what is stored may be had at once.
fn stores<S: WorldStore>(config: &Config<S>, frame: &Frame, node: NodeId) -> bool {
    match node_at(config, frame, node) {
        Some(Node::Assign(_, _, right)) => !is_hopeless(config, frame, *right),
        Some(Node::Postfix(_, _)) => true,
        Some(Node::Prefix(operator, _)) => is_update(*operator),
        _ => false,
    }
}

/// `++` and `--`.
#[inline(always)]
fn is_update(operator: PrefixOperator) -> bool {
    match operator {
        PrefixOperator::Increment | PrefixOperator::Decrement => true,
        _ => false,
    }
}
