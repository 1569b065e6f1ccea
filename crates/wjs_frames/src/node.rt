//! The node of a frame, and nodes around it.
ghost use Rattle.std.specs.Prelude.{◌≡◌, ◌<◌, length, MatchOption};
ghost use Rattle.wjs_base.specs.Text.{Table};
ghost use Rattle.wjs_scope.specs.Places.{placed_names};
ghost use Rattle.wjs_meaning.specs.Trees.{name_place};
ghost use Rattle.wjs_meaning.specs.Deeds.{tree_here};
ghost use Rattle.wjs_model.specs.Units.{place_in};
ghost use Rattle.wjs_frames.specs.Parts.{env_in, node_among, node_now};

use wjs_model::{Config, Frame};
use wjs_scope::Place;
use wjs_store::WorldStore;
use wjs_tree::{Node, NodeId};

/// The node that a frame runs; none where there is none, which the meaning takes for an empty statement.
pub fn node_of<'a, S: WorldStore>(config: &'a Config<S>, frame: &Frame) -> Option<&'a Node>
    ensures { MatchOption result (node_now S.meaning config.now frame.now ≡ Node.Empty) (λ node. node_now S.meaning config.now frame.now ≡ node.now) }
{
    node_among(config, frame.tree(), frame.node())
}

/// A node of the tree at hand; none where there is none, which the meaning takes for an empty statement.
#[inline(always)]
pub fn node_at<'a, S: WorldStore>(
    config: &'a Config<S>,
    frame: &Frame,
    node: NodeId,
) -> Option<&'a Node>
    ensures { MatchOption result (node_among config.now.units.items frame.now.tree node ≡ Node.Empty)
        (λ found. node_among config.now.units.items frame.now.tree node ≡ found.now) }
{
    node_among(config, frame.tree(), node)
}

/// A node of a tree; none where there is none.
#[inline(always)]
pub fn node_among<S: WorldStore>(config: &Config<S>, tree: u32, node: NodeId) -> Option<&Node>
    ensures { MatchOption result (node_among config.now.units.items tree node ≡ Node.Empty) (λ found. node_among config.now.units.items tree node ≡ found.now) }
{
    match config.units.get(tree as usize) {
        Some(unit) => unit.node(node),
        None => None,
    }
}

/// Where the name of this number among a node's own is found, in the tree that a frame runs.
#[inline(always)]
pub fn place_at<S: WorldStore>(config: &Config<S>, frame: &Frame, node: NodeId, at: usize) -> Place
    ensures { at < length (placed_names (node_among config.now.units.items frame.now.tree node)) → (t : Table) →
        name_place (tree_here (env_in S.meaning config.now t frame.now)) node.0 at ≡ place_in result }
{
    match config.units.get(frame.tree() as usize) {
        Some(unit) => unit.place(node, at),
        None => Place::Global,
    }
}
