//! The end of a loop's body (sections 12.6, 12.7 and 12.8).
ghost use Rattle.std.specs.Prelude.{◌≡◌};
ghost use Rattle.wjs_base.specs.Text.{Table, Grows, Has};
ghost use Rattle.wjs_by_content.specs.Tables.{text_in};
ghost use Rattle.wjs_meaning.specs.Trees.{labels, has_text};
ghost use Rattle.wjs_meaning.specs.Deeds.{Act, tree_here};
ghost use Rattle.wjs_meaning.specs.Loops.{after_body};
ghost use Rattle.wjs_model.specs.Contents.{completion_in};
ghost use Rattle.wjs_model.specs.Soundness.{Base, HasCompletion};
ghost use Rattle.wjs_frames.specs.Parts.{env_in};
ghost use Rattle.wjs_loops.specs.Bodies.{goes_on, Leaves};

use crate::labels::is_labelled;
use wjs_model::{Completion, Config, Frame};
use wjs_store::WorldStore;
use wjs_tree::NodeId;

/// What follows a loop's body.
#[derive(Clone, Copy)]
pub enum AfterBody {
    /// What comes between iterations, and the next one.
    Again,
    Ends(Completion),
}

/// What follows the body of the loop at a node of the frame's tree by how it ended. The loop's labels are asked for where the body
/// continues one.
#[inline(always)]
pub fn after_body<S: WorldStore>(
    config: &Config<S>,
    frame: &Frame,
    node: NodeId,
    completion: Completion,
) -> AfterBody
    requires base { Base S.meaning config.now }
    requires completion { HasCompletion config.now completion }
    ensures means { (t : Table) → Grows config.now.heap.texts t → (again : Act) →
        after_body node.0 (env_in S.meaning config.now t frame.now) again (completion_in t completion) ≡ goes_on t result again }
    ensures there { Leaves config.now result }
{
    match completion {
        Completion::Normal | Completion::Continues(None) => AfterBody::Again,
        Completion::Continues(Some(label)) => {
            if is_labelled(config, frame, node, label) {
                AfterBody::Again
            } else {
                AfterBody::Ends(completion)
            }
        }
        Completion::Breaks(None) => AfterBody::Ends(Completion::Normal),
        other => AfterBody::Ends(other),
    }
}
