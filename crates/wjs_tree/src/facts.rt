//! What is kept beside each node, so that the tests of nodes take one step.
ghost use Rattle.std.specs.Prelude.{◌≡◌, ℕ, ◌+◌, ◌≤◌, ◌<◌, length};
ghost use Rattle.wjs_tree.specs.Children.{ChildrenBelow, AreBelow, OptionBelow, ItemsBelow, PropertiesBelow, DeclaratorsBelow, ClausesBelow};
ghost use Rattle.wjs_tree.specs.Children.{InitBelow, HandlerBelow};
ghost use Rattle.wjs_tree.specs.Facts.{AreFacts, fact_at, highest, height_at, option_height, list_height, declarators_height, init_height};
ghost use Rattle.wjs_tree.specs.Facts.{clause_height, handler_height, node_height, node_level, node_is_target, node_starts_with_brace, IsLow};

use crate::node::{Clause, Declarator, ForInit, Handler, Node, Property};
use wjs_base::NodeId;

/// The level, the height and two tests of a node.
#[derive(Clone, Copy)]
pub struct Facts {
    pub level: u32,
    pub height: u64,
    pub is_target: bool,
    pub starts_with_brace: bool,
}

/// The facts of a node, whose children stand before it.
pub fn facts_of(facts: &[Facts], node: &Node) -> Facts
    requires below { ChildrenBelow (length facts.now) node.now }
    requires low { IsLow facts.now }
    ensures right { AreFacts facts.now node.now result }
    ensures low { result.height ≤ length facts.now + 1 }
{
    Facts {
        level: level_of(facts, node),
        height: height_of(facts, node),
        is_target: is_target_of(facts, node),
        starts_with_brace: starts_with_brace_of(facts, node),
    }
}

fn fact_at(facts: &[Facts], id: NodeId) -> Facts
    requires { id.0 < length facts.now }
    ensures { result ≡ fact_at facts.now id }
{
    facts[id.0 as usize]
}

fn level_of(facts: &[Facts], node: &Node) -> u32
    requires { ChildrenBelow (length facts.now) node.now }
    ensures { result ≡ node_level facts.now node.now }
{
    match node {
        Node::Dot(a, _) => fact_at(facts, *a).level.min(17),
        Node::At(a, _) => fact_at(facts, *a).level.min(17),
        Node::Call(_, _) => 16,
        Node::NewWith(_, _) => 17,
        Node::NewBare(_) => 15,
        Node::Postfix(_, _) => 14,
        Node::Prefix(_, _) => 13,
        Node::Binary(_, operator, _) => operator.level(),
        Node::Cond(_, _, _) => 2,
        Node::Assign(_, _, _) => 1,
        Node::Comma(_, _) => 0,
        _ => 18,
    }
}

fn is_target_of(facts: &[Facts], node: &Node) -> bool
    requires { ChildrenBelow (length facts.now) node.now }
    ensures { result ≡ node_is_target facts.now node.now }
{
    match node {
        Node::Name(_) | Node::Dot(_, _) | Node::At(_, _) => true,
        Node::Paren(a) => fact_at(facts, *a).is_target,
        _ => false,
    }
}

fn starts_with_brace_of(facts: &[Facts], node: &Node) -> bool
    requires { ChildrenBelow (length facts.now) node.now }
    ensures { result ≡ node_starts_with_brace facts.now node.now }
{
    match node {
        Node::ObjectLit(_, _) | Node::Function(_, _, _) => true,
        Node::Dot(a, _)
        | Node::At(a, _)
        | Node::Call(a, _)
        | Node::Postfix(a, _)
        | Node::Binary(a, _, _)
        | Node::Cond(a, _, _)
        | Node::Assign(a, _, _)
        | Node::Comma(a, _) => fact_at(facts, *a).starts_with_brace,
        _ => false,
    }
}

fn height_at(facts: &[Facts], id: NodeId) -> u64
    requires below { id.0 < length facts.now }
    requires low { IsLow facts.now }
    ensures value { result ≡ height_at facts.now id }
    ensures low { result ≤ length facts.now }
{
    fact_at(facts, id).height
}

fn option_height(facts: &[Facts], id: Option<NodeId>) -> u64
    requires below { OptionBelow (length facts.now) id }
    requires low { IsLow facts.now }
    ensures value { result ≡ option_height facts.now id }
    ensures low { result ≤ length facts.now }
{
    match id {
        Some(a) => height_at(facts, a),
        None => 0,
    }
}

fn list_height(facts: &[Facts], list: &[NodeId]) -> u64
    requires below { AreBelow (length facts.now) list.now }
    requires low { IsLow facts.now }
    ensures value { result ≡ list_height facts.now list.now }
    ensures low { result ≤ length facts.now }
{
    let mut high = 0;
    for a in list {
        high = height_at(facts, *a).max(high);
    }
    high
}

fn items_height(facts: &[Facts], list: &[Option<NodeId>]) -> u64
    requires below { ItemsBelow (length facts.now) list.now }
    requires low { IsLow facts.now }
    ensures value { result ≡ highest (option_height facts.now) list.now }
    ensures low { result ≤ length facts.now }
{
    let mut high = 0;
    for item in list {
        high = option_height(facts, *item).max(high);
    }
    high
}

fn properties_height(facts: &[Facts], list: &[Property]) -> u64
    requires below { PropertiesBelow (length facts.now) list.now }
    requires low { IsLow facts.now }
    ensures value { result ≡ highest (λ p. height_at facts.now p.value) list.now }
    ensures low { result ≤ length facts.now }
{
    let mut high = 0;
    for property in list {
        high = height_at(facts, property.value).max(high);
    }
    high
}

fn declarators_height(facts: &[Facts], list: &[Declarator]) -> u64
    requires below { DeclaratorsBelow (length facts.now) list.now }
    requires low { IsLow facts.now }
    ensures value { result ≡ declarators_height facts.now list.now }
    ensures low { result ≤ length facts.now }
{
    let mut high = 0;
    for declarator in list {
        high = option_height(facts, declarator.value).max(high);
    }
    high
}

fn init_height(facts: &[Facts], init: &ForInit) -> u64
    requires below { InitBelow (length facts.now) init.now }
    requires low { IsLow facts.now }
    ensures value { result ≡ init_height facts.now init.now }
    ensures low { result ≤ length facts.now }
{
    match init {
        ForInit::Nothing => 0,
        ForInit::Expr(a) => height_at(facts, *a),
        ForInit::Var(list) => declarators_height(facts, list.as_slice()),
    }
}

fn clauses_height(facts: &[Facts], list: &[Clause]) -> u64
    requires below { ClausesBelow (length facts.now) list.now }
    requires low { IsLow facts.now }
    ensures value { result ≡ highest (clause_height facts.now) list.now }
    ensures low { result ≤ length facts.now }
{
    let mut high = 0;
    for clause in list {
        high = clause_height(facts, clause).max(high);
    }
    high
}

fn clause_height(facts: &[Facts], clause: &Clause) -> u64
    requires test { OptionBelow (length facts.now) clause.now.test }
    requires body { AreBelow (length facts.now) clause.now.body }
    requires low { IsLow facts.now }
    ensures value { result ≡ clause_height facts.now clause.now }
    ensures low { result ≤ length facts.now }
{
    option_height(facts, clause.test).max(list_height(facts, clause.body.as_slice()))
}

fn handler_height(facts: &[Facts], handler: Option<Handler>) -> u64
    requires below { HandlerBelow (length facts.now) handler }
    requires low { IsLow facts.now }
    ensures value { result ≡ handler_height facts.now handler }
    ensures low { result ≤ length facts.now }
{
    match handler {
        Some(h) => height_at(facts, h.block),
        None => 0,
    }
}

/// The greatest of 1, the heights of the left parts, and one more than the heights of the others.
fn height_of(facts: &[Facts], node: &Node) -> u64
    requires below { ChildrenBelow (length facts.now) node.now }
    requires low { IsLow facts.now }
    ensures value { result ≡ node_height facts.now node.now }
    ensures low { result ≤ length facts.now + 1 }
{
    match node {
        Node::Paren(a) | Node::NewBare(a) | Node::Prefix(_, a) => height_at(facts, *a) + 1,
        Node::Expr(a, _) | Node::Throw(a, _) | Node::Label(_, a) => height_at(facts, *a) + 1,
        Node::ArrayLit(items, _) => items_height(facts, items.as_slice()) + 1,
        Node::ObjectLit(properties, _) => properties_height(facts, properties.as_slice()) + 1,
        Node::Function(_, _, body) | Node::FunctionDecl(_, _, body) => list_height(
            facts,
            body.as_slice(),
        ) + 1,
        Node::Block(body) => list_height(facts, body.as_slice()) + 1,
        Node::Dot(a, _) => height_at(facts, *a),
        Node::Postfix(a, _) => height_at(facts, *a),
        Node::At(a, b) | Node::Binary(a, _, b) | Node::Assign(a, _, b) | Node::Comma(a, b) => {
            height_at(facts, *a).max(height_at(facts, *b) + 1)
        }
        Node::Call(a, list) => height_at(facts, *a).max(list_height(facts, list.as_slice()) + 1),
        Node::NewWith(a, list) => height_at(facts, *a).max(list_height(facts, list.as_slice())) + 1,
        Node::Cond(a, b, c) => {
            let choices = height_at(facts, *b).max(height_at(facts, *c));
            height_at(facts, *a).max(choices + 1)
        }
        Node::Var(list, _) => declarators_height(facts, list.as_slice()) + 1,
        Node::If(a, b, other) => {
            let first = height_at(facts, *a).max(height_at(facts, *b)) + 1;
            first.max(option_height(facts, *other))
        }
        Node::DoWhile(a, b, _) | Node::While(a, b) | Node::ForVarIn(_, a, b) | Node::Within(a, b) =>
            { height_at(facts, *a).max(height_at(facts, *b)) + 1 }
        Node::For(init, test, update, a) => {
            let first = init_height(facts, init).max(option_height(facts, *test));
            let last = option_height(facts, *update).max(height_at(facts, *a));
            first.max(last) + 1
        }
        Node::ForIn(a, b, c) => {
            let header = height_at(facts, *a).max(height_at(facts, *b));
            header.max(height_at(facts, *c)) + 1
        }
        Node::Return(value, _) => option_height(facts, *value) + 1,
        Node::Switch(a, list) => height_at(facts, *a).max(clauses_height(facts, list.as_slice()))
            + 1,
        Node::Try(a, handler, last) => {
            let behind = handler_height(facts, *handler).max(option_height(facts, *last));
            height_at(facts, *a).max(behind) + 1
        }
        Node::Program(body) => list_height(facts, body.as_slice()).max(1),
        Node::Name(_) | Node::Number(_) | Node::Text(_) | Node::Bool(_) => 1,
        Node::This | Node::ThisWorld | Node::Null | Node::Empty => 1,
        Node::Continue(_, _) | Node::Break(_, _) => 1,
    }
}
