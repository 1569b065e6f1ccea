//! What the node of a function says of it, in the tree of a frame.
ghost use Rattle.std.specs.Prelude.{◌≡◌, length};
ghost use Rattle.std.specs.Option.{option_map};
ghost use Rattle.wjs_base.specs.Text.{Table};
ghost use Rattle.wjs_by_content.specs.Tables.{text_in};
ghost use Rattle.wjs_meaning.specs.Deeds.{node_here};
ghost use Rattle.wjs_meaning.specs.Reading.{node_in};
ghost use Rattle.wjs_meaning.specs.Trees.{formals_of, name_of};
ghost use Rattle.wjs_model.specs.Soundness.{Base};
ghost use Rattle.wjs_model.specs.Texts as known;
ghost use Rattle.wjs_frames.specs.Parts.{env_in};

use wjs_base::TextId;
use wjs_frames::node_at;
use wjs_model::{Config, Frame};
use wjs_store::WorldStore;
use wjs_tree::{Node, NodeId};

/// How many formals a function has.
pub(crate) fn formals_count<S: WorldStore>(config: &Config<S>, frame: &Frame, id: NodeId) -> usize
    ensures { (t : Table) → length (formals_of (node_here (env_in S.meaning config.now t frame.now) id.0)) ≡ result }
{
    match node_at(config, frame, id) {
        Some(node) => count_of(node),
        None => 0,
    }
}

fn count_of(node: &Node) -> usize
    ensures { (t : Table) → length (formals_of (node_in t node.now)) ≡ result }
{
    match node {
        Node::Function(_, formals, _) => formals.as_slice().len(),
        Node::FunctionDecl(_, formals, _) => formals.as_slice().len(),
        _ => 0,
    }
}

/// A function's own name.
pub(crate) fn own_name<S: WorldStore>(
    config: &Config<S>,
    frame: &Frame,
    id: NodeId,
) -> Option<TextId>
    requires { Base S.meaning config.now }
    ensures is { (t : Table) → name_of (node_here (env_in S.meaning config.now t frame.now) id.0) ≡ option_map (text_in t) result }
    ensures found { known.HasText config.now.heap.texts result }
{
    match node_at(config, frame, id) {
        Some(node) => name_in_node(node),
        None => None,
    }
}

fn name_in_node(node: &Node) -> Option<TextId>
    ensures is { (t : Table) → name_of (node_in t node.now) ≡ option_map (text_in t) result }
    ensures found { (t : Table) → known.KnowsNode t node.now → known.HasText t result }
{
    match node {
        Node::Function(name, _, _) => *name,
        Node::FunctionDecl(name, _, _) => Some(*name),
        _ => None,
    }
}
