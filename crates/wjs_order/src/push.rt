//! The parts of a node, put on the stack.
ghost use Rattle.std.specs.Prelude.{◌≡◌, ◌∷◌, ◌++◌, OnOk};
ghost use Rattle.wjs_scope.specs.Nesting.{option_part, item_parts, property_parts, initialisers, init_parts, clause_part, clause_parts};
ghost use Rattle.wjs_scope.specs.Marks.{handler_blocks};
ghost use Rattle.wjs_tree.specs.Parts.{parts_of};

use crate::stack::Stack;
use wjs_base::OutOfMemory;
use wjs_tree::{Clause, Declarator, ForInit, Handler, Node, NodeId, Property};

/// Puts the parts of a node on the stack, the first of them on top.
pub fn push_parts(node: &Node, stack: &mut Stack) -> Result<(), OutOfMemory>
    ensures { OnOk result (stack.new ≡ parts_of node.now ++ stack.old) }
{
    match node {
        Node::Paren(a) | Node::NewBare(a) | Node::Prefix(_, a) => stack.push(*a),
        Node::Dot(a, _) | Node::Postfix(a, _) => stack.push(*a),
        Node::Expr(a, _) | Node::Throw(a, _) | Node::Label(_, a) => stack.push(*a),
        Node::ArrayLit(items, _) => push_items(items.as_slice(), stack),
        Node::ObjectLit(properties, _) => push_properties(properties.as_slice(), stack),
        Node::Function(_, _, list) | Node::FunctionDecl(_, _, list) => {
            push_list(list.as_slice(), stack)
        }
        Node::Block(list) | Node::Program(list) => push_list(list.as_slice(), stack),
        Node::Call(a, list) | Node::NewWith(a, list) => {
            push_list(list.as_slice(), stack)?;
            stack.push(*a)
        }
        Node::At(a, b) | Node::Binary(a, _, b) | Node::Assign(a, _, b) | Node::Comma(a, b) => {
            push_two(*a, *b, stack)
        }
        Node::DoWhile(a, b, _) | Node::While(a, b) | Node::ForVarIn(_, a, b) | Node::Within(a, b) =>
            { push_two(*a, *b, stack) }
        Node::Cond(a, b, c) | Node::ForIn(a, b, c) => {
            stack.push(*c)?;
            push_two(*a, *b, stack)
        }
        Node::Var(list, _) => push_initialisers(list.as_slice(), stack),
        Node::If(a, b, other) => {
            push_option(*other, stack)?;
            push_two(*a, *b, stack)
        }
        Node::For(init, test, update, a) => {
            stack.push(*a)?;
            push_option(*update, stack)?;
            push_option(*test, stack)?;
            push_init(init, stack)
        }
        Node::Return(value, _) => push_option(*value, stack),
        Node::Switch(a, list) => {
            push_clauses(list.as_slice(), stack)?;
            stack.push(*a)
        }
        Node::Try(body, handler, last) => {
            push_option(*last, stack)?;
            push_handler(*handler, stack)?;
            stack.push(*body)
        }
        Node::Name(_) | Node::Number(_) | Node::Text(_) | Node::Bool(_) => Ok(()),
        Node::This | Node::ThisWorld | Node::Null | Node::Empty => Ok(()),
        Node::Continue(_, _) | Node::Break(_, _) => Ok(()),
    }
}

fn push_two(a: NodeId, b: NodeId, stack: &mut Stack) -> Result<(), OutOfMemory>
    ensures { OnOk result (stack.new ≡ a ∷ b ∷ stack.old) }
{
    stack.push(b)?;
    stack.push(a)
}

fn push_option(id: Option<NodeId>, stack: &mut Stack) -> Result<(), OutOfMemory>
    ensures { OnOk result (stack.new ≡ option_part id ++ stack.old) }
{
    match id {
        Some(a) => stack.push(a),
        None => Ok(()),
    }
}

fn push_handler(handler: Option<Handler>, stack: &mut Stack) -> Result<(), OutOfMemory>
    ensures { OnOk result (stack.new ≡ handler_blocks handler ++ stack.old) }
{
    match handler {
        Some(h) => stack.push(h.block),
        None => Ok(()),
    }
}

fn push_list(list: &[NodeId], stack: &mut Stack) -> Result<(), OutOfMemory>
    ensures { OnOk result (stack.new ≡ list.now ++ stack.old) }
{
    let mut i = list.len();
    'back: while i > 0 {
        i -= 1;
        stack.push(list[i])?;
    }
    Ok(())
}

fn push_items(list: &[Option<NodeId>], stack: &mut Stack) -> Result<(), OutOfMemory>
    ensures { OnOk result (stack.new ≡ item_parts list.now ++ stack.old) }
{
    let mut i = list.len();
    'back: while i > 0 {
        i -= 1;
        push_option(list[i], stack)?;
    }
    Ok(())
}

fn push_properties(list: &[Property], stack: &mut Stack) -> Result<(), OutOfMemory>
    ensures { OnOk result (stack.new ≡ property_parts list.now ++ stack.old) }
{
    let mut i = list.len();
    'back: while i > 0 {
        i -= 1;
        stack.push(list[i].value)?;
    }
    Ok(())
}

fn push_initialisers(list: &[Declarator], stack: &mut Stack) -> Result<(), OutOfMemory>
    ensures { OnOk result (stack.new ≡ initialisers list.now ++ stack.old) }
{
    let mut i = list.len();
    'back: while i > 0 {
        i -= 1;
        push_option(list[i].value, stack)?;
    }
    Ok(())
}

fn push_init(init: &ForInit, stack: &mut Stack) -> Result<(), OutOfMemory>
    ensures { OnOk result (stack.new ≡ init_parts init.now ++ stack.old) }
{
    match init {
        ForInit::Nothing => Ok(()),
        ForInit::Expr(a) => stack.push(*a),
        ForInit::Var(list) => push_initialisers(list.as_slice(), stack),
    }
}

fn push_clauses(list: &[Clause], stack: &mut Stack) -> Result<(), OutOfMemory>
    ensures { OnOk result (stack.new ≡ clause_parts list.now ++ stack.old) }
{
    let mut i = list.len();
    'back: while i > 0 {
        i -= 1;
        push_clause(&list[i], stack)?;
    }
    Ok(())
}

fn push_clause(clause: &Clause, stack: &mut Stack) -> Result<(), OutOfMemory>
    ensures { OnOk result (stack.new ≡ clause_part clause.now ++ stack.old) }
{
    push_list(clause.body.as_slice(), stack)?;
    push_option(clause.test, stack)
}
