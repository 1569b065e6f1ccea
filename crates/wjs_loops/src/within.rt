//! The body of a loop that is a block of which not all is done at once: its statements follow one another in the loop's own turn.
ghost use Rattle.std.specs.Prelude.{◌≡◌, Some, slice_get, IfNone, IfOk, IfSome, OnOk};
ghost use Rattle.wjs_model.specs.Contents.{completion_in};
ghost use Rattle.wjs_model.specs.Soundness.{Base, IsThere, HasCompletion, StandsHere, StandsIf};
ghost use Rattle.wjs_frames.specs.Following.{Later};
ghost use Rattle.wjs_frames.specs.Handling.{Runs, GoesOn};
ghost use Rattle.wjs_frames.specs.Parts.{node_among};
ghost use Rattle.wjs_step_common.specs.Lists.{statements_in};
ghost use Rattle.wjs_effects.specs.Proceeding.{Proceeds};
ghost use Rattle.wjs_loops.specs.Rounds.{position_in, position_left, within_after, HasPosition};

use crate::above::enter_in_block;
use crate::rounds::{Position, position_after};
use wjs_base::OutOfMemory;
use wjs_effects::{statement_at_once, statement_of_block};
use wjs_frames::go_on_with;
use wjs_model::{Completion, Config, Frame, Point, StmtPoint};
use wjs_step_common::number_after;
use wjs_store::WorldStore;
use wjs_tree::NodeId;

/// The step of the body's entry, where one is left and the body is a block with statements.
pub(crate) fn block_entered<S: WorldStore>(
    config: &mut Config<S>,
    frame: &Frame,
    u: Option<NodeId>,
    s: NodeId,
) -> Option<Position>
    requires base { Base S.meaning config.old }
    requires there { IsThere S.meaning config.old frame.now }
    requires update { StandsIf config.old frame.now u }
    requires body { StandsHere config.old frame.now s }
    ensures same { IfNone result (config.new ≡ config.old) }
    ensures proceeds { IfSome result (λ p. Proceeds S.meaning (position_left S.meaning config.old frame.now (Position.Body u s))
        (position_left S.meaning config.new frame.now p) config.old config.new) }
    ensures later { Later S.meaning config.old config.new }
    ensures found { IfSome result (λ p. HasPosition config.new frame.now p) }
{
    if config.left == 0 {
        return None;
    }
    match statement_of_block(config, frame, s, 0) {
        Some(_) => {
            config.left -= 1;
            Some(Position::Within(u, s, 0))
        }
        None => None,
    }
}

/// After the statement of this number, where it is done at once; after the body past the last.
pub(crate) fn next_within<S: WorldStore>(
    config: &mut Config<S>,
    frame: &Frame,
    u: Option<NodeId>,
    s: NodeId,
    at: u32,
) -> Result<Option<Position>, OutOfMemory>
    requires base { Base S.meaning config.old }
    requires there { IsThere S.meaning config.old frame.now }
    requires update { StandsIf config.old frame.now u }
    requires body { StandsHere config.old frame.now s }
    ensures same { IfOk result (λ next. IfNone next (config.new ≡ config.old)) }
    ensures proceeds { IfOk result (λ next. IfSome next (λ p. Proceeds S.meaning (position_left S.meaning config.old frame.now (Position.Within u s at))
        (position_left S.meaning config.new frame.now p) config.old config.new)) }
    ensures later { OnOk result (Later S.meaning config.old config.new) }
    ensures found { IfOk result (λ next. IfSome next (λ p. HasPosition config.new frame.now p)) }
{
    match statement_of_block(config, frame, s, at) {
        Some(statement) => statement_within(config, frame, u, s, at, statement),
        None => Ok(Some(position_after(config, frame, u, Completion::Normal))),
    }
}

/// The statement of this number, which was found.
#[inline(always)]
fn statement_within<S: WorldStore>(
    config: &mut Config<S>,
    frame: &Frame,
    u: Option<NodeId>,
    s: NodeId,
    at: u32,
    statement: NodeId,
) -> Result<Option<Position>, OutOfMemory>
    requires base { Base S.meaning config.old }
    requires there { IsThere S.meaning config.old frame.now }
    requires update { StandsIf config.old frame.now u }
    requires body { StandsHere config.old frame.now s }
    requires statement { slice_get (statements_in (node_among config.old.units.items frame.now.tree s)) at ≡ Some statement }
    ensures same { IfOk result (λ next. IfNone next (config.new ≡ config.old)) }
    ensures proceeds { IfOk result (λ next. IfSome next (λ p. Proceeds S.meaning (position_left S.meaning config.old frame.now (Position.Within u s at))
        (position_left S.meaning config.new frame.now p) config.old config.new)) }
    ensures later { OnOk result (Later S.meaning config.old config.new) }
    ensures found { IfOk result (λ next. IfSome next (λ p. HasPosition config.new frame.now p)) }
{
    let next = number_after(at)?;
    let done = statement_at_once(config, frame, statement)?;
    match done {
        Some(completion) => Ok(Some(after_statement(config, frame, u, s, next, completion))),
        None => Ok(None),
    }
}

/// After the statement before the one of this number: the next one, or after the body with an end that isn't normal.
#[inline(always)]
fn after_statement<S: WorldStore>(
    config: &Config<S>,
    frame: &Frame,
    u: Option<NodeId>,
    s: NodeId,
    next: u32,
    completion: Completion,
) -> Position
    requires base { Base S.meaning config.now }
    requires completion { HasCompletion config.now completion }
    requires update { StandsIf config.now frame.now u }
    requires body { StandsHere config.now frame.now s }
    ensures proceeds { Proceeds S.meaning (λ t. within_after S.meaning config.now frame.now u s next t (completion_in t completion))
        (position_left S.meaning config.now frame.now result) config.now config.now }
    ensures found { HasPosition config.now frame.now result }
{
    match completion {
        Completion::Normal => Position::Within(u, s, next),
        _ => position_after(config, frame, u, completion),
    }
}

/// The loop waits for its body, and the body for the statement of this number, which is entered; past the last the loop goes on.
pub(crate) fn within_entered<S: WorldStore>(
    config: &mut Config<S>,
    frame: Frame,
    u: Option<NodeId>,
    s: NodeId,
    at: u32,
) -> Result<(), OutOfMemory>
    requires runs { Runs S.meaning config.old frame }
    requires update { StandsIf config.old frame u }
    requires body { StandsHere config.old frame s }
    ensures { GoesOn S.meaning frame config.old config.new result (λ t env. position_in t frame.node.0 env (Position.Within u s at)) }
{
    let point = Point::Stmt(StmtPoint::ForBody(u));
    match statement_of_block(config, &frame, s, at) {
        Some(statement) => {
            let next = number_after(at)?;
            enter_in_block(config, frame, point, s, statement, next)
        }
        None => go_on_with(config, frame, point, Completion::Normal),
    }
}
