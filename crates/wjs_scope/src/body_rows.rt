//! What the bodies of a program declare, found at each node.
ghost use Rattle.std.specs.Prelude.{◌≡◌, ◌<◌, ◌+◌, length, IfOk, OnOk};
ghost use Rattle.wjs_scope.specs.Answers.{BodyThere};
ghost use Rattle.wjs_scope.specs.Declarations.{is_body};
ghost use Rattle.wjs_scope.specs.Bodies.{nothing, node_at, Declares, DeclaresTo, DeclaresNext, AreDeclared, BodiesStand};

use crate::body::declared;
use crate::body_table::BodyTable;
use crate::shared::Declared;
use std::alloc::Global;
use wjs_base::{OutOfMemory, TextId};
use wjs_tree::{Node, NodeId, Nodes, Program};

/// What each body of a program declares (sections 10.1.3, 12.2 and 13), with the number of the text `arguments`, where it has one.
///
/// It takes time and memory in proportion to the nodes.
pub fn declared_bodies(
    alloc: Global,
    arguments: Option<TextId>,
    program: &Program,
) -> Result<BodyTable, OutOfMemory>
    requires stand { BodiesStand program.now.nodes }
    requires last { length program.now.nodes ≡ program.now.body.0 + 1 }
    ensures { IfOk result (AreDeclared program.now.nodes arguments) }
{
    let none = Declared::nothing(alloc)?;
    let rows = declared_rows(alloc, arguments, &program.nodes, program.body, &none)?;
    Ok(BodyTable { rows, none })
}

/// What the body at each node up to the last declares.
fn declared_rows(
    alloc: Global,
    arguments: Option<TextId>,
    nodes: &Nodes,
    last: NodeId,
    none: &Declared,
) -> Result<Vec<Declared>, OutOfMemory>
    requires stand { BodiesStand nodes.now }
    requires none { none.now ≡ nothing }
    requires last { length nodes.now ≡ last.0 + 1 }
    ensures { IfOk result (λ rows. DeclaresTo nodes.now arguments (length nodes.now) rows.items) }
{
    let mut rows = Vec::new(alloc);
    for number in 0..=last.0 {
        add_row(alloc, arguments, nodes, NodeId(number), none, &mut rows)?;
    }
    Ok(rows)
}

/// Puts what the body at a node declares last.
fn add_row(
    alloc: Global,
    arguments: Option<TextId>,
    nodes: &Nodes,
    id: NodeId,
    none: &Declared,
    rows: &mut Vec<Declared>,
) -> Result<(), OutOfMemory>
    requires stand { BodiesStand nodes.now }
    requires none { none.now ≡ nothing }
    requires there { id.0 < length nodes.now }
    ensures { OnOk result (DeclaresNext nodes.now arguments id rows.old.items rows.new.items) }
{
    let declared = row_of(alloc, arguments, nodes, id, none)?;
    rows.push(declared)?;
    Ok(())
}

/// What the body at a node declares; nothing where the node is no body's.
fn row_of(
    alloc: Global,
    arguments: Option<TextId>,
    nodes: &Nodes,
    id: NodeId,
    none: &Declared,
) -> Result<Declared, OutOfMemory>
    requires stand { BodiesStand nodes.now }
    requires none { none.now ≡ nothing }
    requires there { id.0 < length nodes.now }
    ensures { IfOk result (Declares nodes.now arguments (node_at nodes.now id.0)) }
{
    if is_body(nodes.node(id)) {
        body_row(alloc, arguments, nodes, id)
    } else {
        none.share()
    }
}

fn is_body(node: &Node) -> bool
    ensures { result ≡ is_body node.now }
{
    match node {
        Node::Program(_) => true,
        Node::Function(_, _, _) => true,
        Node::FunctionDecl(_, _, _) => true,
        _ => false,
    }
}

fn body_row(
    alloc: Global,
    arguments: Option<TextId>,
    nodes: &Nodes,
    body: NodeId,
) -> Result<Declared, OutOfMemory>
    requires { BodyThere nodes.now body }
    ensures { IfOk result (Declares nodes.now arguments (node_at nodes.now body.0)) }
{
    let declarations = declared(alloc, arguments, nodes, body)?;
    Declared::new(alloc, declarations)
}
