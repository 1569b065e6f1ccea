//! The statements of blocks (section 12.1).
ghost use Rattle.std.specs.Prelude.{◌≡◌, slice_get};
ghost use Rattle.wjs_frames.specs.Parts.{node_among};
ghost use Rattle.wjs_step_common.specs.Lists.{statements_in};

use wjs_frames::node_at;
use wjs_model::{Config, Frame};
use wjs_store::WorldStore;
use wjs_tree::{Node, NodeId};

/// The statement of this number of a block in the tree at hand; none past its end, and where the node is no block.
#[inline(always)]
pub fn statement_of_block<S: WorldStore>(
    config: &Config<S>,
    frame: &Frame,
    block: NodeId,
    at: u32,
) -> Option<NodeId>
    ensures { result ≡ slice_get (statements_in (node_among config.now.units.items frame.now.tree block)) at }
{
    match node_at(config, frame, block) {
        Some(Node::Block(statements)) => statements.as_slice().get(at as usize).copied(),
        _ => None,
    }
}
