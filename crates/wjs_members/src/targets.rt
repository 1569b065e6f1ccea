//! Targets (ECMA-262, 3rd edition, section 8.7): which expressions are targets - a name, a member, or a target in parentheses -
//! and what a target begins with.
ghost use Rattle.std.specs.Prelude.{◌≡◌};
ghost use Rattle.wjs_base.specs.Text.{Table};
ghost use Rattle.wjs_meaning.specs.Deeds.{tree_here};
ghost use Rattle.wjs_meaning.specs.Trees as trees;
ghost use Rattle.wjs_frames.specs.Parts.{env_in, node_among};
ghost use Rattle.wjs_members.specs.Targets.{target_form};
ghost use Rattle.wjs_frames.specs.Handling.{Runs, Begins};

use crate::members::{at_start, dot_start};
use crate::names::name_target;
use wjs_base::OutOfMemory;
use wjs_frames::{Part, enter_last, finish, node_at, node_of};
use wjs_model::{Completion, Config, Frame, Purpose, Start};
use wjs_store::WorldStore;
use wjs_tree::{Node, NodeId};

/// What a target begins with: a name gives its reference, a member enters its base, parentheses their target (section 11.1.6). No
/// other form is a target.
pub fn target<S: WorldStore>(config: &mut Config<S>, frame: Frame) -> Result<(), OutOfMemory>
    requires runs { Runs S.meaning config.old frame }
    ensures { Begins S.meaning frame Start.Target config.old config.new result }
{
    match node_of(config, &frame) {
        Some(Node::Name(id)) => {
            let id = *id;
            name_target(config, frame, id)
        }
        Some(Node::Paren(part)) => {
            let part = *part;
            enter_last(config, frame, Part::Target(part))
        }
        Some(Node::Dot(base, name)) => {
            let (base, name) = (*base, *name);
            dot_start(config, frame, base, name, Purpose::Target)
        }
        Some(Node::At(base, index)) => {
            let (base, index) = (*base, *index);
            at_start(config, frame, base, index, Purpose::Target)
        }
        _ => finish(config, frame, Completion::Normal),
    }
}

/// Whether a form is a target.
#[derive(Clone, Copy)]
pub(crate) enum TargetForm {
    Target,
    /// It is one where its part is.
    Inside(NodeId),
    Other,
}

/// Whether the node is a target, where a frame is run.
pub fn is_target<S: WorldStore>(config: &Config<S>, frame: &Frame, node: NodeId) -> bool
    ensures { (t : Table) → trees.is_target (tree_here (env_in S.meaning config.now t frame.now)) node.0 ≡ result }
{
    let mut at = node;
    let mut parens = node.0;
    'inner: while parens > 0 {
        match target_form(config, frame, at) {
            TargetForm::Target => return true,
            TargetForm::Inside(part) => at = part,
            TargetForm::Other => return false,
        }
        parens -= 1;
    }
    is_bare_target(config, frame, at)
}

/// Whether the node is a target without a further Paren.
fn is_bare_target<S: WorldStore>(config: &Config<S>, frame: &Frame, node: NodeId) -> bool
    ensures { (t : Table) → trees.is_target_to 1 (tree_here (env_in S.meaning config.now t frame.now)) node.0 ≡ result }
{
    match target_form(config, frame, node) {
        TargetForm::Target => true,
        TargetForm::Inside(_) => false,
        TargetForm::Other => false,
    }
}

/// The kind of a node of the tree at hand.
fn target_form<S: WorldStore>(config: &Config<S>, frame: &Frame, node: NodeId) -> TargetForm
    ensures { result ≡ target_form (node_among config.now.units.items frame.now.tree node) }
{
    match node_at(config, frame, node) {
        Some(Node::Name(_)) => TargetForm::Target,
        Some(Node::Dot(_, _)) => TargetForm::Target,
        Some(Node::At(_, _)) => TargetForm::Target,
        Some(Node::Paren(part)) => TargetForm::Inside(*part),
        _ => TargetForm::Other,
    }
}
