//! Labels, and the jumps that name them (section 12.12).
ghost use Rattle.std.specs.Prelude.{◌≡◌, IfSome};
ghost use Rattle.wjs_base.specs.Text.{Has};
ghost use Rattle.wjs_by_content.specs.Tables.{text_in};
ghost use Rattle.wjs_meaning.specs.Reading.{node_in};
ghost use Rattle.wjs_meaning.specs.Statements.{label_done};
ghost use Rattle.wjs_model.specs.Contents.{completion_in};
ghost use Rattle.wjs_model.specs.Lists.{if_label};
ghost use Rattle.wjs_model.specs.Soundness.{Base, HasCompletion};
ghost use Rattle.wjs_frames.specs.Parts.{node_now};
ghost use Rattle.wjs_frames.specs.Handling.{Runs, GoesOn};
ghost use Rattle.wjs_loops.specs.Labels.{label_of};

use crate::labels::same_label;
use wjs_base::{OutOfMemory, TextId};
use wjs_frames::{finish, node_of};
use wjs_model::{Completion, Config, Frame};
use wjs_store::WorldStore;
use wjs_tree::Node;

/// The label of the frame's node; none where that is no labelled statement.
fn label_of<S: WorldStore>(config: &Config<S>, frame: &Frame) -> Option<TextId>
    requires { Base S.meaning config.now }
    ensures is { result ≡ label_of (node_now S.meaning config.now frame.now) }
    ensures found { IfSome result (Has config.now.heap.texts) }
{
    match node_of(config, frame) {
        Some(Node::Label(name, _)) => Some(*name),
        _ => None,
    }
}

/// After the statement behind a label: a break to the label ends it.
pub fn label_body<S: WorldStore>(
    config: &mut Config<S>,
    frame: Frame,
    completion: Completion,
) -> Result<(), OutOfMemory>
    requires runs { Runs S.meaning config.old frame }
    requires completion { HasCompletion config.old completion }
    ensures { GoesOn S.meaning frame config.old config.new result (λ t env.
        if_label (node_in t (node_now S.meaning config.old frame)) (λ name. label_done name (completion_in t completion))) }
{
    match label_of(config, &frame) {
        Some(name) => label_done(config, frame, name, completion),
        None => finish(config, frame, Completion::Normal),
    }
}

/// A break to this label ends as usual, and each other completion is handed on.
fn label_done<S: WorldStore>(
    config: &mut Config<S>,
    frame: Frame,
    name: TextId,
    completion: Completion,
) -> Result<(), OutOfMemory>
    requires runs { Runs S.meaning config.old frame }
    requires name { Has config.old.heap.texts name }
    requires completion { HasCompletion config.old completion }
    ensures { GoesOn S.meaning frame config.old config.new result (λ t env. label_done (text_in t name) (completion_in t completion)) }
{
    match completion {
        Completion::Breaks(Some(label)) => {
            if same_label(&config.heap.texts, label, name) {
                finish(config, frame, Completion::Normal)
            } else {
                finish(config, frame, completion)
            }
        }
        other => finish(config, frame, other),
    }
}
