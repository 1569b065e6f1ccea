//! `if`s behind each other's `else`s.
ghost use Rattle.std.specs.Prelude.{◌<◌, length, IfOk};
ghost use Rattle.wjs_tree.specs.Shows.{Keeps};
ghost use Rattle.wjs_parse_stmt.specs.Chains.{BranchesBelow, IsChained};
ghost use Rattle.wjs_parse_stmt.specs.Made.{IsWoven};

use crate::parts::Branch;
use wjs_base::OutOfMemory;
use wjs_tree::{Node, NodeId, Nodes};

/// The `if`s, each behind the `else` of the one before it, and the last statement behind them all.
pub fn chain_ifs(heads: Vec<Branch>, last: NodeId, nodes: &mut Nodes) -> Result<NodeId, OutOfMemory>
    requires below { BranchesBelow (length nodes.old) heads.items }
    requires there { last.0 < length nodes.old }
    ensures keeps { Keeps nodes.old nodes.new }
    ensures ends { IfOk result (λ id. id.0 < length nodes.new) }
    ensures answer { IfOk result (λ id. IsChained nodes.old heads.items last nodes.new id) }
    ensures own { IfOk result (λ id. IsWoven nodes.old heads.items last nodes.new id) }
{
    let mut left = heads;
    let mut node = last;
    while let Some(head) = left.pop() {
        node = nodes.add(Node::If(head.test, head.body, Some(node)))?;
    }
    Ok(node)
}
