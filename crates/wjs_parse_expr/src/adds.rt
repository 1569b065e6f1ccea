//! Nodes that are made apart from who reads their parts: a node takes 80 bytes of the stack, which a reader would keep while
//! it reads parentheses in parentheses.
ghost use Rattle.std.specs.Prelude.{◌≡◌, ◌+◌, length, IfOk};
ghost use Rattle.wjs_tree.specs.Children.{ChildrenBelow};
ghost use Rattle.wjs_tree.specs.Shows.{Has, Keeps};
ghost use Rattle.wjs_tree.specs.declared.node.Node.TheVariants as forms;

use wjs_base::OutOfMemory;
use wjs_tree::{Node, NodeId, Nodes, Property, Sequence, UpdateOperator};

/// A target with an operator behind it.
#[inline(never)]
pub(crate) fn add_postfix(
    nodes: &mut Nodes,
    target: NodeId,
    op: UpdateOperator,
) -> Result<NodeId, OutOfMemory>
    requires { ChildrenBelow (length nodes.old) (forms.Postfix target op) }
    ensures ok { IfOk result (λ id. id.0 ≡ length nodes.old) }
    ensures has { IfOk result (λ id. Has nodes.new id (forms.Postfix target op)) }
    ensures longer { IfOk result (λ id. length nodes.new ≡ length nodes.old + 1) }
    ensures keeps { Keeps nodes.old nodes.new }
{
    let id = nodes.add(Node::Postfix(target, op))?;
    Ok(id)
}

/// An expression in parentheses.
#[inline(never)]
pub(crate) fn add_paren(nodes: &mut Nodes, inner: NodeId) -> Result<NodeId, OutOfMemory>
    requires { ChildrenBelow (length nodes.old) (forms.Paren inner) }
    ensures ok { IfOk result (λ id. id.0 ≡ length nodes.old) }
    ensures has { IfOk result (λ id. Has nodes.new id (forms.Paren inner)) }
    ensures longer { IfOk result (λ id. length nodes.new ≡ length nodes.old + 1) }
    ensures keeps { Keeps nodes.old nodes.new }
{
    let id = nodes.add(Node::Paren(inner))?;
    Ok(id)
}

/// An array literal.
#[inline(never)]
pub(crate) fn add_array(
    nodes: &mut Nodes,
    items: Sequence<Option<NodeId>>,
    tail: bool,
) -> Result<NodeId, OutOfMemory>
    requires { ChildrenBelow (length nodes.old) (forms.ArrayLit items tail) }
    ensures ok { IfOk result (λ id. id.0 ≡ length nodes.old) }
    ensures has { IfOk result (λ id. Has nodes.new id (forms.ArrayLit items tail)) }
    ensures longer { IfOk result (λ id. length nodes.new ≡ length nodes.old + 1) }
    ensures keeps { Keeps nodes.old nodes.new }
{
    let id = nodes.add(Node::ArrayLit(items, tail))?;
    Ok(id)
}

/// An object literal.
#[inline(never)]
pub(crate) fn add_object(
    nodes: &mut Nodes,
    properties: Sequence<Property>,
    comma: bool,
) -> Result<NodeId, OutOfMemory>
    requires { ChildrenBelow (length nodes.old) (forms.ObjectLit properties comma) }
    ensures ok { IfOk result (λ id. id.0 ≡ length nodes.old) }
    ensures has { IfOk result (λ id. Has nodes.new id (forms.ObjectLit properties comma)) }
    ensures longer { IfOk result (λ id. length nodes.new ≡ length nodes.old + 1) }
    ensures keeps { Keeps nodes.old nodes.new }
{
    let id = nodes.add(Node::ObjectLit(properties, comma))?;
    Ok(id)
}

/// A base with an index.
#[inline(never)]
pub(crate) fn add_at(nodes: &mut Nodes, base: NodeId, place: NodeId) -> Result<NodeId, OutOfMemory>
    requires { ChildrenBelow (length nodes.old) (forms.At base place) }
    ensures ok { IfOk result (λ id. id.0 ≡ length nodes.old) }
    ensures has { IfOk result (λ id. Has nodes.new id (forms.At base place)) }
    ensures longer { IfOk result (λ id. length nodes.new ≡ length nodes.old + 1) }
    ensures keeps { Keeps nodes.old nodes.new }
{
    let id = nodes.add(Node::At(base, place))?;
    Ok(id)
}

/// A call.
#[inline(never)]
pub(crate) fn add_call(
    nodes: &mut Nodes,
    callee: NodeId,
    list: Sequence<NodeId>,
) -> Result<NodeId, OutOfMemory>
    requires { ChildrenBelow (length nodes.old) (forms.Call callee list) }
    ensures ok { IfOk result (λ id. id.0 ≡ length nodes.old) }
    ensures has { IfOk result (λ id. Has nodes.new id (forms.Call callee list)) }
    ensures longer { IfOk result (λ id. length nodes.new ≡ length nodes.old + 1) }
    ensures keeps { Keeps nodes.old nodes.new }
{
    let id = nodes.add(Node::Call(callee, list))?;
    Ok(id)
}

/// `new` without arguments.
#[inline(never)]
pub(crate) fn add_new_bare(nodes: &mut Nodes, callee: NodeId) -> Result<NodeId, OutOfMemory>
    requires { ChildrenBelow (length nodes.old) (forms.NewBare callee) }
    ensures ok { IfOk result (λ id. id.0 ≡ length nodes.old) }
    ensures has { IfOk result (λ id. Has nodes.new id (forms.NewBare callee)) }
    ensures longer { IfOk result (λ id. length nodes.new ≡ length nodes.old + 1) }
    ensures keeps { Keeps nodes.old nodes.new }
{
    let id = nodes.add(Node::NewBare(callee))?;
    Ok(id)
}

/// `new` with arguments.
#[inline(never)]
pub(crate) fn add_new_with(
    nodes: &mut Nodes,
    callee: NodeId,
    list: Sequence<NodeId>,
) -> Result<NodeId, OutOfMemory>
    requires { ChildrenBelow (length nodes.old) (forms.NewWith callee list) }
    ensures ok { IfOk result (λ id. id.0 ≡ length nodes.old) }
    ensures has { IfOk result (λ id. Has nodes.new id (forms.NewWith callee list)) }
    ensures longer { IfOk result (λ id. length nodes.new ≡ length nodes.old + 1) }
    ensures keeps { Keeps nodes.old nodes.new }
{
    let id = nodes.add(Node::NewWith(callee, list))?;
    Ok(id)
}
