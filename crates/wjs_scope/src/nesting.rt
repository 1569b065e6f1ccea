//! The scopes around each node of a script.
ghost use Rattle.std.specs.Prelude.{◌≡◌, ℕ, ◌+◌, ◌^◌, ◌<◌, length, replicate, None, IfOk, OnOk};
ghost use Rattle.wjs_scope.specs.Places.{IsScript};
ghost use Rattle.wjs_scope.specs.Visits.{AreNested};

use crate::levels::Level;
use crate::marks::mark;
use crate::visit::visit;
use std::alloc::Global;
use wjs_base::{OutOfMemory, TextId};
use wjs_tree::{NodeId, Nodes};

/// The scopes of a script, and for each node the number under which those around it stand. A node that is none of the script's
/// has no number.
#[derive(Drop)]
pub struct Nesting {
    pub marks: Vec<Option<u64>>,
    pub levels: Vec<Level>,
}

/// The scopes around each node of a script, in which `arguments` is the name that each function has.
pub fn nest(
    alloc: Global,
    arguments: Option<TextId>,
    nodes: &Nodes,
    body: NodeId,
) -> Result<Nesting, OutOfMemory>
    requires { IsScript nodes.now body }
    ensures { IfOk result (λ n. AreNested nodes.now arguments body n.marks.items n.levels.items) }
{
    let mut marks = no_marks(alloc, body.0)?;
    let mut levels = Vec::new(alloc);
    fill(
        alloc,
        arguments,
        nodes,
        body,
        marks.as_mut_slice(),
        &mut levels,
    )?;
    Ok(Nesting { marks, levels })
}

/// Marks each node of the script, where none is marked.
fn fill(
    alloc: Global,
    arguments: Option<TextId>,
    nodes: &Nodes,
    body: NodeId,
    marks: &mut [Option<u64>],
    levels: &mut Vec<Level>,
) -> Result<(), OutOfMemory>
    requires script { IsScript nodes.now body }
    requires empty { marks.old ≡ replicate (body.0 + 1) None }
    ensures { OnOk result (AreNested nodes.now arguments body marks.new levels.new.items) }
{
    mark(marks, body, 0);
    // A child's number is below its parent's, so that each node has its mark before its turn comes.
    let mut left = marks.len();
    while left > 0 {
        left -= 1;
        if let Some(at) = marks[left] {
            let node = nodes.node(NodeId(left as u64));
            visit(alloc, arguments, nodes, node, at, marks, levels)?;
        }
    }
    Ok(())
}

/// No marks of the nodes up to one of this number.
fn no_marks(alloc: Global, last: u64) -> Result<Vec<Option<u64>>, OutOfMemory>
    ensures { IfOk result (λ marks. marks.items ≡ replicate (last + 1) None) }
{
    let mut marks = Vec::new(alloc);
    for _ in 0..=last {
        marks.push(None)?;
    }
    Ok(marks)
}
