//! The iterations of `for` and `while` (sections 12.6.2 and 12.6.3): those whose parts are done at once follow one another in one turn.
ghost use Rattle.std.specs.Prelude.{◌≡◌, ℕ, None, Some, IfNone, IfOk, IfSome, OnOk};
ghost use Rattle.wjs_base.specs.Text.{Table, Grows};
ghost use Rattle.wjs_by_content.specs.Tables.{value_in};
ghost use Rattle.wjs_meaning.specs.Deeds.{Env, then_value};
ghost use Rattle.wjs_meaning.specs.Loops.{loop_body, loop_test, loop_updated};
ghost use Rattle.wjs_meaning.specs.Reading.{node_in, number};
ghost use Rattle.wjs_meaning.specs.Statements.{again_of, iteration_from};
ghost use Rattle.wjs_model.specs.Contents.{completion_in};
ghost use Rattle.wjs_model.specs.Soundness.{Base, IsThere, HasCompletion, HasValue, StandsHere, StandsIf};
ghost use Rattle.wjs_frames.specs.Following.{Later};
ghost use Rattle.wjs_frames.specs.Handling.{Runs, GoesOn};
ghost use Rattle.wjs_frames.specs.Parts.{env_in, node_now};
ghost use Rattle.wjs_effects.specs.Proceeding.{Proceeds};
ghost use Rattle.wjs_loops.specs.Rounds.{position_in, position_left, HasPosition};

use crate::bodies::{AfterBody, after_body};
use crate::iterations::expr_iteration;
use crate::within::{block_entered, next_within, within_entered};
use wjs_base::{OutOfMemory, Value};
use wjs_effects::{enter_statement, expression_at_once, statement_at_once, statement_of_block};
use wjs_frames::{Part, enter, enter_last, finish, node_of};
use wjs_model::{Completion, Config, Frame, Point, StmtPoint};
use wjs_quick::quick_entered;
use wjs_step_common::to_boolean;
use wjs_store::WorldStore;
use wjs_tree::{Node, NodeId};

/// Where a loop is.
#[derive(Clone, Copy)]
pub(crate) enum Position {
    /// Before its next iteration, for which a step is due.
    Again,
    /// Before the test of an iteration, whose step is taken; its update and its body.
    Test(NodeId, Option<NodeId>, NodeId),
    /// Before its body; its update.
    Body(Option<NodeId>, NodeId),
    /// In its body, a block, before the statement of this number; its update and the block.
    Within(Option<NodeId>, NodeId, u32),
    /// Before its update.
    Update(Option<NodeId>),
    Ended(Completion),
}

/// A loop goes on from a position: as far as its parts are done at once, and then by frames.
pub(crate) fn go_round<S: WorldStore>(
    config: &mut Config<S>,
    frame: Frame,
    at: Position,
) -> Result<(), OutOfMemory>
    requires runs { Runs S.meaning config.old frame }
    requires at { HasPosition config.old frame at }
    ensures { GoesOn S.meaning frame config.old config.new result (λ t env. position_in t frame.node.0 env at) }
{
    let reached = rounds(config, &frame, at)?;
    go_on_at(config, frame, reached)
}

/// A loop goes on from a position by frames.
fn go_on_at<S: WorldStore>(
    config: &mut Config<S>,
    frame: Frame,
    at: Position,
) -> Result<(), OutOfMemory>
    requires runs { Runs S.meaning config.old frame }
    requires at { HasPosition config.old frame at }
    ensures { GoesOn S.meaning frame config.old config.new result (λ t env. position_in t frame.node.0 env at) }
{
    match at {
        Position::Again => again_entered(config, frame),
        Position::Test(e, u, s) => {
            expr_iteration(config, frame, Point::Stmt(StmtPoint::ForTest(u, s)), e)
        }
        Position::Body(u, s) => {
            let point = Point::Stmt(StmtPoint::ForBody(u));
            enter_statement(config, frame, point, s)
        }
        Position::Within(u, s, at) => within_entered(config, frame, u, s, at),
        Position::Update(u) => update_entered(config, frame, u),
        Position::Ended(completion) => finish(config, frame, completion),
    }
}

/// The next iteration is entered in the place of the frame that was taken off.
fn again_entered<S: WorldStore>(config: &mut Config<S>, frame: Frame) -> Result<(), OutOfMemory>
    requires runs { Runs S.meaning config.old frame }
    ensures { GoesOn S.meaning frame config.old config.new result (λ t env. position_in t frame.node.0 env Position.Again) }
{
    let node = frame.node();
    enter_last(config, frame, Part::Again(node))
}

/// The update is entered, if there is one, and else the next iteration.
fn update_entered<S: WorldStore>(
    config: &mut Config<S>,
    frame: Frame,
    update: Option<NodeId>,
) -> Result<(), OutOfMemory>
    requires runs { Runs S.meaning config.old frame }
    requires update { StandsIf config.old frame update }
    ensures { GoesOn S.meaning frame config.old config.new result (λ t env. position_in t frame.node.0 env (Position.Update update)) }
{
    match update {
        Some(e) => {
            let point = Point::Stmt(StmtPoint::ForUpdate);
            enter(config, frame, point, Part::Expr(e))
        }
        None => again_entered(config, frame),
    }
}

/// How far a loop comes at once from a position. Each position on the way is one from which it may go on, so the bound is none that
/// counts.
fn rounds<S: WorldStore>(
    config: &mut Config<S>,
    frame: &Frame,
    from: Position,
) -> Result<Position, OutOfMemory>
    requires base { Base S.meaning config.old }
    requires there { IsThere S.meaning config.old frame.now }
    requires from { HasPosition config.old frame.now from }
    ensures proceeds { IfOk result (λ p. Proceeds S.meaning (position_left S.meaning config.old frame.now from)
        (position_left S.meaning config.new frame.now p) config.old config.new) }
    ensures later { OnOk result (Later S.meaning config.old config.new) }
    ensures found { IfOk result (λ p. HasPosition config.new frame.now p) }
{
    let mut at = from;
    for _turn in 0..u64::MAX {
        let reached = advance(config, frame, at)?;
        match reached {
            Some(next) => at = next,
            None => return Ok(at),
        }
    }
    Ok(at)
}

/// The next position of a loop, where what stands between is done at once; after None nothing has changed.
#[inline(always)]
fn advance<S: WorldStore>(
    config: &mut Config<S>,
    frame: &Frame,
    at: Position,
) -> Result<Option<Position>, OutOfMemory>
    requires base { Base S.meaning config.old }
    requires there { IsThere S.meaning config.old frame.now }
    requires at { HasPosition config.old frame.now at }
    ensures same { IfOk result (λ next. IfNone next (config.new ≡ config.old)) }
    ensures proceeds { IfOk result (λ next. IfSome next (λ p. Proceeds S.meaning (position_left S.meaning config.old frame.now at)
        (position_left S.meaning config.new frame.now p) config.old config.new)) }
    ensures later { OnOk result (Later S.meaning config.old config.new) }
    ensures found { IfOk result (λ next. IfSome next (λ p. HasPosition config.new frame.now p)) }
{
    match at {
        Position::Again => Ok(next_iteration(config, frame)),
        Position::Test(e, u, s) => Ok(test_at_once(config, frame, e, u, s)),
        Position::Body(u, s) => body_at_once(config, frame, u, s),
        Position::Within(u, s, at) => next_within(config, frame, u, s, at),
        Position::Update(u) => update_at_once(config, frame, u),
        Position::Ended(_) => Ok(None),
    }
}

/// The step of the next iteration, where one is left and it begins with a test or within a block.
fn next_iteration<S: WorldStore>(config: &mut Config<S>, frame: &Frame) -> Option<Position>
    requires base { Base S.meaning config.old }
    requires there { IsThere S.meaning config.old frame.now }
    ensures same { IfNone result (config.new ≡ config.old) }
    ensures proceeds { IfSome result (λ p. Proceeds S.meaning (position_left S.meaning config.old frame.now Position.Again)
        (position_left S.meaning config.new frame.now p) config.old config.new) }
    ensures later { Later S.meaning config.old config.new }
    ensures found { IfSome result (λ p. HasPosition config.new frame.now p) }
{
    if config.left == 0 {
        return None;
    }
    match iteration_of(config, frame) {
        Some(position) => {
            config.left -= 1;
            Some(position)
        }
        None => None,
    }
}

/// What an iteration of the loop begins with that the frame runs; None without a test where its body is no block, and of `do`.
#[inline(always)]
fn iteration_of<S: WorldStore>(config: &Config<S>, frame: &Frame) -> Option<Position>
    requires there { IsThere S.meaning config.now frame.now }
    ensures is { IfSome result (λ p. (t : Table) →
        again_of frame.now.node.0 (node_in t (node_now S.meaning config.now frame.now)) (env_in S.meaning config.now t frame.now)
        ≡ position_left S.meaning config.now frame.now p t) }
    ensures found { IfSome result (λ p. HasPosition config.now frame.now p) }
{
    match node_of(config, frame) {
        Some(Node::While(e, s)) => Some(Position::Test(*e, None, *s)),
        Some(Node::For(_, test, u, s)) => with_test(config, frame, *test, *u, *s),
        _ => None,
    }
}

/// An iteration that begins with a test, if there is one.
#[inline(always)]
fn with_test<S: WorldStore>(
    config: &Config<S>,
    frame: &Frame,
    test: Option<NodeId>,
    u: Option<NodeId>,
    s: NodeId,
) -> Option<Position>
    requires test { StandsIf config.now frame.now test }
    requires update { StandsIf config.now frame.now u }
    requires body { StandsHere config.now frame.now s }
    ensures is { IfSome result (λ p. (t : Table) →
        iteration_from frame.now.node.0 (number test) (number u) s.0 (env_in S.meaning config.now t frame.now)
        ≡ position_left S.meaning config.now frame.now p t) }
    ensures found { IfSome result (λ p. HasPosition config.now frame.now p) }
{
    match test {
        Some(e) => Some(Position::Test(e, u, s)),
        None => without_test(config, frame, u, s),
    }
}

/// An iteration without a test: its step is the body's, so it begins within a body that is a block with statements.
fn without_test<S: WorldStore>(
    config: &Config<S>,
    frame: &Frame,
    u: Option<NodeId>,
    s: NodeId,
) -> Option<Position>
    requires update { StandsIf config.now frame.now u }
    requires body { StandsHere config.now frame.now s }
    ensures is { IfSome result (λ p. (t : Table) →
        iteration_from frame.now.node.0 None (number u) s.0 (env_in S.meaning config.now t frame.now)
        ≡ position_left S.meaning config.now frame.now p t) }
    ensures found { IfSome result (λ p. HasPosition config.now frame.now p) }
{
    match statement_of_block(config, frame, s, 0) {
        Some(_) => Some(Position::Within(u, s, 0)),
        None => None,
    }
}

/// The test of an iteration.
fn test_at_once<S: WorldStore>(
    config: &mut Config<S>,
    frame: &Frame,
    e: NodeId,
    u: Option<NodeId>,
    s: NodeId,
) -> Option<Position>
    requires base { Base S.meaning config.old }
    requires there { IsThere S.meaning config.old frame.now }
    requires update { StandsIf config.old frame.now u }
    requires body { StandsHere config.old frame.now s }
    ensures same { IfNone result (config.new ≡ config.old) }
    ensures proceeds { IfSome result (λ p. Proceeds S.meaning (position_left S.meaning config.old frame.now (Position.Test e u s))
        (position_left S.meaning config.new frame.now p) config.old config.new) }
    ensures later { Later S.meaning config.old config.new }
    ensures found { IfSome result (λ p. HasPosition config.new frame.now p) }
{
    match quick_entered(config, frame, e) {
        Some(value) => Some(after_test(config, frame, value, u, s)),
        None => None,
    }
}

/// After the test: the body, or the end.
#[inline(always)]
fn after_test<S: WorldStore>(
    config: &Config<S>,
    frame: &Frame,
    value: Value,
    u: Option<NodeId>,
    s: NodeId,
) -> Position
    requires base { Base S.meaning config.now }
    requires value { HasValue config.now value }
    requires update { StandsIf config.now frame.now u }
    requires body { StandsHere config.now frame.now s }
    ensures is { (t : Table) → Grows config.now.heap.texts t → (here : ℕ) (env : Env) →
        loop_test here (number u) s.0 env (value_in t value) ≡ position_in t here env result }
    ensures found { HasPosition config.now frame.now result }
{
    let _frame = frame;
    if to_boolean(config, value) {
        Position::Body(u, s)
    } else {
        Position::Ended(Completion::Normal)
    }
}

/// The body of an iteration; the entry of one that isn't done at once, and is a block.
fn body_at_once<S: WorldStore>(
    config: &mut Config<S>,
    frame: &Frame,
    u: Option<NodeId>,
    s: NodeId,
) -> Result<Option<Position>, OutOfMemory>
    requires base { Base S.meaning config.old }
    requires there { IsThere S.meaning config.old frame.now }
    requires update { StandsIf config.old frame.now u }
    requires body { StandsHere config.old frame.now s }
    ensures same { IfOk result (λ next. IfNone next (config.new ≡ config.old)) }
    ensures proceeds { IfOk result (λ next. IfSome next (λ p. Proceeds S.meaning (position_left S.meaning config.old frame.now (Position.Body u s))
        (position_left S.meaning config.new frame.now p) config.old config.new)) }
    ensures later { OnOk result (Later S.meaning config.old config.new) }
    ensures found { IfOk result (λ next. IfSome next (λ p. HasPosition config.new frame.now p)) }
{
    let done = statement_at_once(config, frame, s)?;
    match done {
        Some(completion) => Ok(Some(position_after(config, frame, u, completion))),
        None => Ok(block_entered(config, frame, u, s)),
    }
}

/// After the body: the update, or the end.
#[inline(always)]
pub(crate) fn position_after<S: WorldStore>(
    config: &Config<S>,
    frame: &Frame,
    u: Option<NodeId>,
    completion: Completion,
) -> Position
    requires base { Base S.meaning config.now }
    requires completion { HasCompletion config.now completion }
    requires update { StandsIf config.now frame.now u }
    ensures is { (t : Table) → Grows config.now.heap.texts t →
        loop_body frame.now.node.0 (number u) (env_in S.meaning config.now t frame.now) (completion_in t completion)
        ≡ position_in t frame.now.node.0 (env_in S.meaning config.now t frame.now) result }
    ensures found { HasPosition config.now frame.now result }
{
    match after_body(config, frame, frame.node(), completion) {
        AfterBody::Again => Position::Update(u),
        AfterBody::Ends(ended) => Position::Ended(ended),
    }
}

/// The update, if there is one.
fn update_at_once<S: WorldStore>(
    config: &mut Config<S>,
    frame: &Frame,
    u: Option<NodeId>,
) -> Result<Option<Position>, OutOfMemory>
    requires base { Base S.meaning config.old }
    requires there { IsThere S.meaning config.old frame.now }
    ensures same { IfOk result (λ next. IfNone next (config.new ≡ config.old)) }
    ensures proceeds { IfOk result (λ next. IfSome next (λ p. Proceeds S.meaning (position_left S.meaning config.old frame.now (Position.Update u))
        (position_left S.meaning config.new frame.now p) config.old config.new)) }
    ensures later { OnOk result (Later S.meaning config.old config.new) }
    ensures found { IfOk result (λ next. IfSome next (λ p. HasPosition config.new frame.now p)) }
{
    match u {
        Some(e) => update_expression(config, frame, e),
        None => Ok(Some(Position::Again)),
    }
}

/// The expression of an update.
#[inline(always)]
fn update_expression<S: WorldStore>(
    config: &mut Config<S>,
    frame: &Frame,
    e: NodeId,
) -> Result<Option<Position>, OutOfMemory>
    requires base { Base S.meaning config.old }
    requires there { IsThere S.meaning config.old frame.now }
    ensures same { IfOk result (λ next. IfNone next (config.new ≡ config.old)) }
    ensures proceeds { IfOk result (λ next. IfSome next (λ p. Proceeds S.meaning (position_left S.meaning config.old frame.now (Position.Update (Some e)))
        (position_left S.meaning config.new frame.now p) config.old config.new)) }
    ensures later { OnOk result (Later S.meaning config.old config.new) }
    ensures found { IfOk result (λ next. IfSome next (λ p. HasPosition config.new frame.now p)) }
{
    let done = expression_at_once(config, frame, e)?;
    match done {
        Some(completion) => Ok(Some(after_update(config, frame, completion))),
        None => Ok(None),
    }
}

/// After the update: the next iteration, or what was thrown.
#[inline(always)]
fn after_update<S: WorldStore>(
    config: &Config<S>,
    frame: &Frame,
    completion: Completion,
) -> Position
    requires completion { HasCompletion config.now completion }
    ensures is { (t : Table) (here : ℕ) (env : Env) →
        then_value (loop_updated here env) (completion_in t completion) ≡ position_in t here env result }
    ensures found { HasPosition config.now frame.now result }
{
    let _config = config;
    let _frame = frame;
    match completion {
        Completion::Gives(_) => Position::Again,
        _ => Position::Ended(completion),
    }
}
