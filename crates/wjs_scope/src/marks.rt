//! The parts of a node, marked with the scope that they stand in.
ghost use Rattle.std.specs.Prelude.{◌≡◌, ◌<◌, [], ◌∷◌, length};
ghost use Rattle.wjs_tree.specs.Children.{ChildrenBelow, AreBelow, OptionBelow, ItemsBelow, PropertiesBelow, DeclaratorsBelow, ClausesBelow, InitBelow};
ghost use Rattle.wjs_scope.specs.Nesting.{option_part, item_parts, property_parts, initialisers, init_parts, clause_part, clause_parts, plain_parts};
ghost use Rattle.wjs_scope.specs.Marks.{marked};

use wjs_tree::{Clause, Declarator, ForInit, Node, NodeId, Property};

#[tactic(auto, using(crate::proofs::Marking::marked_both))]
/// Marks the parts of a node that is neither a function nor a `try`.
pub fn mark_parts(table: &mut [Option<u64>], node: &Node, at: u64)
    requires { ChildrenBelow (length table.old) node.now }
    ensures { table.new ≡ marked table.old at (plain_parts node.now) }
{
    match node {
        Node::Paren(a) | Node::NewBare(a) | Node::Prefix(_, a) => mark(table, *a, at),
        Node::Dot(a, _) | Node::Postfix(a, _) => mark(table, *a, at),
        Node::Expr(a, _) | Node::Throw(a, _) | Node::Label(_, a) => mark(table, *a, at),
        Node::ArrayLit(items, _) => mark_items(table, items.as_slice(), at),
        Node::ObjectLit(properties, _) => mark_properties(table, properties.as_slice(), at),
        Node::Call(a, list) | Node::NewWith(a, list) => {
            mark(table, *a, at);
            mark_list(table, list.as_slice(), at);
        }
        Node::At(a, b) | Node::Binary(a, _, b) | Node::Assign(a, _, b) | Node::Comma(a, b) => {
            mark_two(table, *a, *b, at);
        }
        Node::DoWhile(a, b, _) | Node::While(a, b) | Node::ForVarIn(_, a, b) | Node::Within(a, b) =>
            {
                mark_two(table, *a, *b, at);
            }
        Node::Cond(a, b, c) | Node::ForIn(a, b, c) => {
            mark_two(table, *a, *b, at);
            mark(table, *c, at);
        }
        Node::Block(list) | Node::Program(list) => mark_list(table, list.as_slice(), at),
        Node::Var(list, _) => mark_initialisers(table, list.as_slice(), at),
        Node::If(a, b, other) => {
            mark_two(table, *a, *b, at);
            mark_option(table, *other, at);
        }
        Node::For(init, test, update, a) => {
            mark_init(table, init, at);
            mark_option(table, *test, at);
            mark_option(table, *update, at);
            mark(table, *a, at);
        }
        Node::Return(value, _) => mark_option(table, *value, at),
        Node::Switch(a, list) => {
            mark(table, *a, at);
            mark_clauses(table, list.as_slice(), at);
        }
        _ => {}
    }
}

/// Marks one node.
pub fn mark(table: &mut [Option<u64>], id: NodeId, at: u64)
    requires { id.0 < length table.old }
    ensures { table.new ≡ marked table.old at (id ∷ []) }
{
    table[id.0 as usize] = Some(at);
}

fn mark_two(table: &mut [Option<u64>], a: NodeId, b: NodeId, at: u64)
    requires first { a.0 < length table.old }
    requires second { b.0 < length table.old }
    ensures { table.new ≡ marked table.old at (a ∷ b ∷ []) }
{
    mark(table, a, at);
    mark(table, b, at);
}

/// Marks the node, if there is one.
pub fn mark_option(table: &mut [Option<u64>], id: Option<NodeId>, at: u64)
    requires { OptionBelow (length table.old) id }
    ensures { table.new ≡ marked table.old at (option_part id) }
{
    match id {
        Some(a) => mark(table, a, at),
        None => {}
    }
}

/// Marks each node of the list.
pub fn mark_list(table: &mut [Option<u64>], list: &[NodeId], at: u64)
    requires { AreBelow (length table.old) list.now }
    ensures { table.new ≡ marked table.old at list.now }
{
    for id in list {
        mark(table, *id, at);
    }
}

fn mark_items(table: &mut [Option<u64>], list: &[Option<NodeId>], at: u64)
    requires { ItemsBelow (length table.old) list.now }
    ensures { table.new ≡ marked table.old at (item_parts list.now) }
{
    for item in list {
        mark_option(table, *item, at);
    }
}

fn mark_properties(table: &mut [Option<u64>], list: &[Property], at: u64)
    requires { PropertiesBelow (length table.old) list.now }
    ensures { table.new ≡ marked table.old at (property_parts list.now) }
{
    for property in list {
        mark(table, property.value, at);
    }
}

fn mark_initialisers(table: &mut [Option<u64>], list: &[Declarator], at: u64)
    requires { DeclaratorsBelow (length table.old) list.now }
    ensures { table.new ≡ marked table.old at (initialisers list.now) }
{
    for declarator in list {
        mark_option(table, declarator.value, at);
    }
}

fn mark_init(table: &mut [Option<u64>], init: &ForInit, at: u64)
    requires { InitBelow (length table.old) init.now }
    ensures { table.new ≡ marked table.old at (init_parts init.now) }
{
    match init {
        ForInit::Nothing => {}
        ForInit::Expr(a) => mark(table, *a, at),
        ForInit::Var(list) => mark_initialisers(table, list.as_slice(), at),
    }
}

#[tactic(auto, using(crate::proofs::Marking::marked_both))]
fn mark_clauses(table: &mut [Option<u64>], list: &[Clause], at: u64)
    requires { ClausesBelow (length table.old) list.now }
    ensures { table.new ≡ marked table.old at (clause_parts list.now) }
{
    for clause in list {
        mark_clause(table, clause, at);
    }
}

#[tactic(auto, using(crate::proofs::Marking::marked_both))]
fn mark_clause(table: &mut [Option<u64>], clause: &Clause, at: u64)
    requires test { OptionBelow (length table.old) clause.now.test }
    requires body { AreBelow (length table.old) clause.now.body }
    ensures { table.new ≡ marked table.old at (clause_part clause.now) }
{
    mark_option(table, clause.test, at);
    mark_list(table, clause.body.as_slice(), at);
}
