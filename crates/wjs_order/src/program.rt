//! A program in the order of its tree.
ghost use Rattle.std.specs.Prelude.{◌≡◌, ◌+◌, ◌∷◌, ◌<◌, length, map, All, IfOk};
ghost use Rattle.wjs_tree.specs.Trees.{Elements};
ghost use Rattle.wjs_tree.specs.Shows.{IsBody};
ghost use Rattle.wjs_tree.specs.Used.{IsOnce};
ghost use Rattle.wjs_scope.specs.Places.{IsScript};
ghost use Rattle.wjs_order.specs.Order.{falling, IsNumbered};
ghost use Rattle.wjs_order.specs.Moves.{Moves, AreBehind};
ghost use Rattle.wjs_order.specs.Renumbered.{number_in};

use crate::numbers::numbers;
use crate::order::order;
use crate::renumber::renumbered;
use std::alloc::Global;
use wjs_base::OutOfMemory;
use wjs_tree::{NodeId, Nodes, Program};

/// The same program with its nodes in the order of its tree: the body is the last of them, and from there down each stands
/// before its parts, as the script is spelled. A node that stands nowhere in the tree is left out.
///
/// It takes time and memory in proportion to the nodes.
pub fn ordered(alloc: Global, program: Program) -> Result<Program, OutOfMemory>
    requires { IsScript program.nodes program.body }
    ensures numbered { IfOk result (λ p. (tree : Elements) → IsBody program.nodes tree program.body → IsNumbered p.nodes tree p.body) }

    // What follows: the program is a script as before, of whose nodes none stands at two places, and which are no more.
    ensures script { IfOk result (λ p. IsScript p.nodes p.body) }
    ensures once { IfOk result (λ p. (tree : Elements) (is : IsBody p.nodes tree p.body) → IsOnce (p.body.0 ∷ is.used)) }
    ensures last { IfOk result (λ p. length p.nodes ≡ p.body.0 + 1) }
{
    let order = order(alloc, &program.nodes, program.body)?;
    let numbers = numbers(alloc, order.as_slice(), program.body.0)?;
    let mut nodes = moved(alloc, &program.nodes, order.as_slice(), numbers.as_slice())?;
    let last = renumbered(alloc, numbers.as_slice(), program.nodes.node(program.body))?;
    let body = nodes.add(last)?;
    Ok(Program { nodes, body })
}

/// The nodes of these numbers, from the last to the first, each part under its new number.
fn moved(alloc: Global, old: &Nodes, order: &[u64], numbers: &[u64]) -> Result<Nodes, OutOfMemory>
    requires below { All (λ k. k < length numbers.now) order.now }
    requires behind { AreBehind old.now order.now }
    requires falling { map (number_in numbers.now) order.now ≡ falling (length order.now) }
    ensures moves { IfOk result (λ nodes. Moves old.now nodes (number_in numbers.now) order.now) }
    ensures length { IfOk result (λ nodes. length nodes ≡ length order.now) }
{
    let mut nodes = Nodes::new(alloc);
    let mut left = order.len();
    while left > 0 {
        left -= 1;
        let node = renumbered(alloc, numbers, old.node(NodeId(order[left])))?;
        nodes.add(node)?;
    }
    Ok(nodes)
}
