//! The entry of statements that may be done at once.
ghost use Rattle.wjs_meaning.specs.Deeds.{Eval, Ret, AtStmt};
ghost use Rattle.wjs_model.specs.Soundness.{HasPoint, StandsHere};
ghost use Rattle.wjs_frames.specs.Parts.{then_at};
ghost use Rattle.wjs_frames.specs.Handling.{Runs, GoesOn};

use crate::entries::enter_statement;
use crate::parts::statement_at_once;
use wjs_base::OutOfMemory;
use wjs_frames::{Part, enter_last, finish, go_on_with};
use wjs_model::{Config, Frame, Point};
use wjs_store::WorldStore;
use wjs_tree::NodeId;

/// The frame waits at a point for a statement, which is entered; or goes on there with its end, where it is done at once.
#[inline(always)]
pub fn enter_at_once<S: WorldStore>(
    config: &mut Config<S>,
    frame: Frame,
    point: Point,
    s: NodeId,
) -> Result<(), OutOfMemory>
    requires runs { Runs S.meaning config.old frame }
    requires point { HasPoint config.old frame point }
    requires part { StandsHere config.old frame s }
    ensures { GoesOn S.meaning frame config.old config.new result (λ t env. Eval (AtStmt s.0) env (then_at S.meaning config.old frame point t env)) }
{
    let done = statement_at_once(config, &frame, s)?;
    match done {
        Some(completion) => go_on_with(config, frame, point, completion),
        None => enter_statement(config, frame, point, s),
    }
}

/// A statement is entered in the place of the frame that was taken off; or the frame ends as it does, where it is done at once.
#[inline(always)]
pub fn enter_last_at_once<S: WorldStore>(
    config: &mut Config<S>,
    frame: Frame,
    s: NodeId,
) -> Result<(), OutOfMemory>
    requires runs { Runs S.meaning config.old frame }
    requires part { StandsHere config.old frame s }
    ensures { GoesOn S.meaning frame config.old config.new result (λ t env. Eval (AtStmt s.0) env Ret) }
{
    let done = statement_at_once(config, &frame, s)?;
    match done {
        Some(completion) => finish(config, frame, completion),
        None => enter_last(config, frame, Part::Stmt(s)),
    }
}
