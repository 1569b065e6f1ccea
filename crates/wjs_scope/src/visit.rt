//! What stands around the parts of a node.
ghost use Rattle.std.specs.Prelude.{◌≡◌, ◌<◌, ◌≤◌, length, IfOk, OnOk};
ghost use Rattle.wjs_tree.specs.Children.{ChildrenBelow, HandlerBelow};
ghost use Rattle.wjs_scope.specs.Nesting.{parts};
ghost use Rattle.wjs_scope.specs.Marks.{marked, marked_parts, handler_blocks};
ghost use Rattle.wjs_scope.specs.Visits.{HasElements, HasRoom, Begins, Visits};

use crate::body::body_names;
use crate::levels::{Level, open, open_caught, open_own};
use crate::marks::{mark, mark_list, mark_option, mark_parts};
use std::alloc::Global;
use wjs_base::{OutOfMemory, TextId};
use wjs_tree::{Handler, Node, NodeId, Nodes};

/// Marks the parts of a node, around which the scopes of a number stand, each with the number of its own scopes.
pub fn visit(
    alloc: Global,
    arguments: Option<TextId>,
    nodes: &Nodes,
    node: &Node,
    at: u64,
    marks: &mut [Option<u64>],
    levels: &mut Vec<Level>,
) -> Result<(), OutOfMemory>
    requires below { ChildrenBelow (length marks.old) node.now }
    requires elements { HasElements nodes.now node.now }
    requires room { HasRoom levels.old.items at }
    ensures { OnOk result (Visits nodes.now arguments node.now at marks.old marks.new levels.old.items levels.new.items) }
{
    let inner = begin(alloc, arguments, nodes, node, at, levels)?;
    mark_all(marks, node, at, inner);
    Ok(())
}

/// Opens the scopes that begin at a node, and gives the number of the innermost.
fn begin(
    alloc: Global,
    arguments: Option<TextId>,
    nodes: &Nodes,
    node: &Node,
    at: u64,
    levels: &mut Vec<Level>,
) -> Result<u64, OutOfMemory>
    requires elements { HasElements nodes.now node.now }
    requires room { HasRoom levels.old.items at }
    ensures { IfOk result (λ inner. Begins nodes.now arguments node.now at inner levels.old.items levels.new.items) }
{
    match node {
        Node::Function(name, formals, elements) => {
            let names = body_names(
                alloc,
                arguments,
                formals.as_slice(),
                nodes,
                elements.as_slice(),
            )?;
            let around = open_own(alloc, levels, *name, at)?;
            open(levels, names, around)
        }
        Node::FunctionDecl(_, formals, elements) => {
            let names = body_names(
                alloc,
                arguments,
                formals.as_slice(),
                nodes,
                elements.as_slice(),
            )?;
            open(levels, names, at)
        }
        Node::Try(_, handler, _) => open_caught(alloc, levels, *handler, at),
        _ => Ok(at),
    }
}

/// Marks the parts of a node with the number of the scopes around it, or with that of the inner ones.
fn mark_all(marks: &mut [Option<u64>], node: &Node, at: u64, inner: u64)
    requires { ChildrenBelow (length marks.old) node.now }
    ensures { marks.new ≡ marked_parts marks.old at inner (parts node.now) }
{
    match node {
        Node::Function(_, _, elements) => mark_list(marks, elements.as_slice(), inner),
        Node::FunctionDecl(_, _, elements) => mark_list(marks, elements.as_slice(), inner),
        Node::Try(body, handler, last) => {
            mark(marks, *body, at);
            mark_handler(marks, *handler, inner);
            mark_option(marks, *last, at);
        }
        _ => mark_parts(marks, node, at),
    }
}

fn mark_handler(marks: &mut [Option<u64>], handler: Option<Handler>, inner: u64)
    requires { HandlerBelow (length marks.old) handler }
    ensures { marks.new ≡ marked marks.old inner (handler_blocks handler) }
{
    match handler {
        Some(h) => mark(marks, h.block, inner),
        None => {}
    }
}
