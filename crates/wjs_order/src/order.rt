//! The order in which nodes stand in a tree.
ghost use Rattle.std.specs.Prelude.{◌≡◌, ◌<◌, All, IfOk};
ghost use Rattle.wjs_tree.specs.Trees.{Elements};
ghost use Rattle.wjs_tree.specs.Shows.{IsBody};
ghost use Rattle.wjs_scope.specs.Places.{IsScript};

use crate::push::push_parts;
use crate::stack::Stack;
use std::alloc::Global;
use wjs_base::OutOfMemory;
use wjs_tree::{NodeId, Nodes};

/// The numbers of the nodes of which a script's elements are made, each before those of its parts, as the script is spelled.
pub fn order(alloc: Global, nodes: &Nodes, body: NodeId) -> Result<Vec<u64>, OutOfMemory>
    requires { IsScript nodes.now body }
    ensures same { IfOk result (λ order. (tree : Elements) (is : IsBody nodes.now tree body) → order.items ≡ is.used) }
    ensures below { IfOk result (λ order. All (λ k. k < body.0) order.items) }
{
    let mut order = Vec::new(alloc);
    let mut stack = Stack::new(alloc);
    push_parts(nodes.node(body), &mut stack)?;
    'walk: while let Some(id) = stack.pop() {
        order.push(id.0)?;
        push_parts(nodes.node(id), &mut stack)?;
    }
    Ok(order)
}
