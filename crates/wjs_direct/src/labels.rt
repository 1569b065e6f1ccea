//! Labelled statements (ECMA-262, 3rd edition, section 12.12).
ghost use Rattle.std.specs.Prelude.{◌≡◌, []};
ghost use Rattle.wjs_base.specs.Text.{Table, Grows, Has};
ghost use Rattle.wjs_by_content.specs.Tables.{text_in};
ghost use Rattle.wjs_meaning.specs.Deeds.{AtStmt, Ret};
ghost use Rattle.wjs_meaning.specs.Statements.{label_done};
ghost use Rattle.wjs_model.specs.Contents.{completion_in};
ghost use Rattle.wjs_model.specs.Soundness.{Base, HasCompletion, IsThere, StandsHere};
ghost use Rattle.wjs_frames.specs.Following.{Later};
ghost use Rattle.wjs_stopping.specs.Evaluating.{Evaluates, HasOutcome, InMemory};
ghost use Rattle.wjs_direct_lines.specs.Deeds.{IsNode, form_here};

use crate::statements::statement;
use wjs_base::{NodeId, TextId};
use wjs_loops::same_label;
use wjs_model::{Completion, Config, Frame, Point, StmtPoint};
use wjs_stopping::{Broken, Stops, waits};
use wjs_store::WorldStore;
use wjs_tree::Node;

/// A labelled statement, whose step is taken.
#[cycle(direct)]
#[inline(never)]
pub(crate) fn labelled<S: WorldStore>(
    config: &mut Config<S>,
    frame: &Frame,
    node: NodeId,
    name: TextId,
    part: NodeId,
    room: u16,
    stops: &mut Stops,
) -> Result<Completion, Broken>
    requires base { Base S.meaning config.old }
    requires there { IsThere S.meaning config.old frame.now }
    requires node { StandsHere config.old frame.now node }
    requires empty { stops.old.waits ≡ [] }
    requires is { IsNode S.meaning config.old frame.now node (Node.Label name part) }
    ensures later { InMemory result (Later S.meaning config.old config.new) }
    ensures found { HasOutcome S.meaning HasCompletion config.new result stops.new.waits stops.new.top }
    ensures does { Evaluates S.meaning (form_here S.meaning config.old frame.now (AtStmt part.0) (λ t env. label_done (text_in t name)))
        completion_in result stops.new.waits stops.new.top config.old config.new }
{
    match statement(config, frame, part, room, stops) {
        Ok(end) => Ok(behind_label(config, name, end)),
        Err(end) => {
            let point = Point::Stmt(StmtPoint::LabelBody);
            Err(waits(config, frame, node, point, end, stops))
        }
    }
}

/// How a labelled statement ends by the completion of the statement behind its label: a `break` to the label ends normally.
fn behind_label<S: WorldStore>(config: &Config<S>, name: TextId, end: Completion) -> Completion
    requires base { Base S.meaning config.now }
    requires name { Has config.now.heap.texts name }
    requires end { HasCompletion config.now end }
    ensures is { (t : Table) → Grows config.now.heap.texts t → label_done (text_in t name) (completion_in t end) ≡ Ret (completion_in t result) }
    ensures found { HasCompletion config.now result }
{
    match end {
        Completion::Breaks(Some(label)) => {
            if same_label(&config.heap.texts, label, name) {
                Completion::Normal
            } else {
                end
            }
        }
        _ => end,
    }
}
