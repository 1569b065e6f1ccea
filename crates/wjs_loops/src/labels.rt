//! The labels of a statement: those of the labelled statements that it stands in with no other statement between
//! (section 12.12).
ghost use Rattle.std.specs.Prelude.{◌≡◌};
ghost use Rattle.wjs_base.specs.Text.{Table, Grows, Has, IsTable};
ghost use Rattle.wjs_by_content.specs.Values.{same_text};
ghost use Rattle.wjs_by_content.specs.Tables.{text_in};
ghost use Rattle.wjs_meaning.specs.Trees.{labels, has_text};
ghost use Rattle.wjs_meaning.specs.Deeds.{tree_here};
ghost use Rattle.wjs_model.specs.Soundness.{Base};
ghost use Rattle.wjs_model.specs.Texts.{KnowsUnit};
ghost use Rattle.wjs_model.specs.Units.{node_of, unit_in};
ghost use Rattle.wjs_frames.specs.Parts.{env_in};
ghost use Rattle.wjs_loops.specs.Labels.{label_of};

use wjs_base::{TextId, Value, same_value};
use wjs_model::{Config, Frame, LoadedProgram};
use wjs_store::WorldStore;
use wjs_texts::Texts;
use wjs_tree::{Node, NodeId};

/// Whether two labels are one, in every table that grows from the texts.
pub fn same_label(texts: &Texts, a: TextId, b: TextId) -> bool
    requires table { IsTable texts.now }
    requires first { Has texts.now a }
    requires second { Has texts.now b }
    ensures { (t : Table) → Grows texts.now t → result ≡ same_text (text_in t a) (text_in t b) }
{
    same_value(Value::Text(a), Value::Text(b))
}

/// Whether a label is one of the statement's at a node of the frame's tree, in every table that grows from the texts.
pub(crate) fn is_labelled<S: WorldStore>(
    config: &Config<S>,
    frame: &Frame,
    node: NodeId,
    label: TextId,
) -> bool
    requires base { Base S.meaning config.now }
    requires label { Has config.now.heap.texts label }
    ensures { (t : Table) → Grows config.now.heap.texts t →
        has_text (labels (tree_here (env_in S.meaning config.now t frame.now)) node.0) (text_in t label) ≡ result }
{
    match config.units.get(frame.tree() as usize) {
        Some(unit) => is_label(&config.heap.texts, unit, node, label),
        None => false,
    }
}

/// Whether a label is one of a statement's: those of the Labels that stand right behind it.
fn is_label(texts: &Texts, unit: &LoadedProgram, node: NodeId, label: TextId) -> bool
    requires table { IsTable texts.now }
    requires label { Has texts.now label }
    requires unit { KnowsUnit texts.now unit.now }
    ensures { (t : Table) → Grows texts.now t → has_text (labels (unit_in t unit.now) node.0) (text_in t label) ≡ result }
{
    for at in node.0..unit.program.body.0 {
        let Some(name) = label_at(unit, at + 1) else {
            return false;
        };
        if same_label(texts, name, label) {
            return true;
        }
    }
    false
}

/// The label of a node, where it is a Label.
fn label_at(unit: &LoadedProgram, at: u64) -> Option<TextId>
    ensures { result ≡ label_of (node_of unit.now (record { 0 = at })) }
{
    match unit.node(NodeId(at)) {
        Some(Node::Label(name, _)) => Some(*name),
        _ => None,
    }
}
