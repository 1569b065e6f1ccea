//! The elements of blocks, functions and programs.
ghost use Rattle.std.specs.Prelude.{◌≡◌, slice_get};
ghost use Rattle.wjs_base.specs.Text.{Table};
ghost use Rattle.wjs_meaning.specs.Reading.{numbers, node_in};
ghost use Rattle.wjs_meaning.specs.Trees.{elements_of};
ghost use Rattle.wjs_model.specs.Lists.{program_elements};
ghost use Rattle.wjs_frames.specs.Parts.{node_now};
ghost use Rattle.wjs_effects.specs.Sequences.{NextIs, elements_in};

use crate::blocks::statement_of_block;
use wjs_frames::node_of;
use wjs_model::{Config, Frame};
use wjs_store::WorldStore;
use wjs_tree::{Node, NodeId};

/// Whose statements or elements follow one another (ECMA-262, 3rd edition, sections 10.1.2 and 12.1).
#[derive(Clone, Copy)]
pub enum Sequence {
    Block,
    Function,
    Program,
}

/// The element of a number of the sequence that is the frame's node; None past the last.
#[inline(always)]
pub fn element_of_sequence<S: WorldStore>(
    config: &Config<S>,
    frame: &Frame,
    kind: Sequence,
    at: u32,
) -> Option<NodeId>
    ensures { (t : Table) → NextIs (elements_in kind (node_in t (node_now S.meaning config.now frame.now))) at result }
{
    match kind {
        Sequence::Block => statement_of_block(config, frame, frame.node(), at),
        Sequence::Function => element_at(config, frame, at),
        Sequence::Program => program_element_at(config, frame, at),
    }
}

/// The element of a number of the body that is the frame's node; None exactly past the last.
pub fn element_at<S: WorldStore>(config: &Config<S>, frame: &Frame, at: u32) -> Option<NodeId>
    ensures { (t : Table) → NextIs (elements_of (node_in t (node_now S.meaning config.now frame.now))) at result }
{
    match node_of(config, frame) {
        Some(Node::Function(_, _, elements)) => element_of(elements.as_slice(), at),
        Some(Node::FunctionDecl(_, _, elements)) => element_of(elements.as_slice(), at),
        Some(Node::Program(elements)) => element_of(elements.as_slice(), at),
        _ => None,
    }
}

/// The element of a number of the program whose body is the frame's node; None past the last, and of another node.
fn program_element_at<S: WorldStore>(config: &Config<S>, frame: &Frame, at: u32) -> Option<NodeId>
    ensures { (t : Table) → NextIs (program_elements (node_in t (node_now S.meaning config.now frame.now))) at result }
{
    match node_of(config, frame) {
        Some(Node::Program(elements)) => element_of(elements.as_slice(), at),
        _ => None,
    }
}

/// The element of a number of a list, behind which the others come; None past the last.
pub fn element_of(elements: &[NodeId], at: u32) -> Option<NodeId>
    ensures { NextIs (numbers elements.now) at result }
{
    listed(elements, at)
}

/// What stands at a number of a list; None past its end.
fn listed(list: &[NodeId], at: u32) -> Option<NodeId>
    ensures { result ≡ slice_get list.now at }
{
    list.get(at as usize).copied()
}
