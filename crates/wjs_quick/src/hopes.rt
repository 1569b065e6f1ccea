//! Expressions that never have their value at once, by their form (ECMA-262, 3rd edition, section 11).
//!
//! What is told here decides only whether something is tried, so no clause says of it: a wrong answer costs time and nothing else.

use crate::operators::is_of_value;
use wjs_base::Value;
use wjs_frames::node_at;
use wjs_model::{Config, Frame};
use wjs_step_common::is_text;
use wjs_store::WorldStore;
use wjs_tree::{BinaryOperator, Node, NodeId};

/// Whether an expression has a form that is never evaluated at once: a call, an assignment, a literal of an object and the like.
#[inline(always)]
pub fn is_hopeless<S: WorldStore>(config: &Config<S>, frame: &Frame, node: NodeId) -> bool {
    match node_at(config, frame, node) {
        Some(form) => is_never_quick(form),
        None => true,
    }
}

/// The forms that call, store, delete or make an object; `typeof`, `in`, `instanceof` and `thisWorld`.
#[inline(always)]
fn is_never_quick(form: &Node) -> bool {
    match form {
        Node::Call(_, _) | Node::NewWith(_, _) | Node::NewBare(_) => true,
        Node::Function(_, _, _) | Node::ArrayLit(_, _) | Node::ObjectLit(_, _) => true,
        Node::Assign(_, _, _) | Node::Postfix(_, _) | Node::ThisWorld => true,
        Node::Prefix(operator, _) => !is_of_value(*operator),
        Node::Binary(_, operator, _) => asks_objects(*operator),
        _ => false,
    }
}

/// Whether an operation never has its value at once, whatever the left operand is. The right one of `&&` and `||` may not count.
#[inline(always)]
pub(crate) fn is_operation_hopeless(operator: BinaryOperator, right: &Node) -> bool {
    match operator {
        BinaryOperator::And | BinaryOperator::Or => false,
        BinaryOperator::Add => is_never_added(right),
        _ => asks_objects(operator) || is_never_quick(right),
    }
}

/// Whether the operator looks up objects.
#[inline(always)]
fn asks_objects(operator: BinaryOperator) -> bool {
    match operator {
        BinaryOperator::In | BinaryOperator::Instanceof => true,
        _ => false,
    }
}

/// Whether a sum never has its value at once that has this right term: a text that stands in the script, which is joined with the left
/// one, or an expression that never has its own.
#[inline(always)]
fn is_never_added(right: &Node) -> bool {
    match right {
        Node::Text(_) => true,
        form => is_never_quick(form),
    }
}

/// Whether an operation never has its value at once after this left one: a text is joined with the right one.
#[inline(always)]
pub(crate) fn is_joining(operator: BinaryOperator, left: Value) -> bool {
    match operator {
        BinaryOperator::Add => is_text(left),
        _ => false,
    }
}
