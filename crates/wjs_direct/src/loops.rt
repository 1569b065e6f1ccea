//! The loops `while` and `for` (ECMA-262, 3rd edition, sections 12.6.2 and 12.6.3), but for those that declare variables.
ghost use Rattle.std.specs.Prelude.{◌≡◌, ◌<◌, ◌≤◌, ℕ, IfSome, None, Some, true, []};
ghost use Rattle.wjs_base.specs.Text.{Table};
ghost use Rattle.wjs_by_content.specs.Tables.{value_in};
ghost use Rattle.wjs_meaning.specs.Deeds.{Again, AtExpr, AtStmt, Env, Sub, then_value};
ghost use Rattle.wjs_meaning.specs.Loops as loops;
ghost use Rattle.wjs_meaning.specs.Reading.{number};
ghost use Rattle.wjs_meaning.specs.Statements.{iteration_from, stmt_at};
ghost use Rattle.wjs_model.specs.Contents.{completion_in};
ghost use Rattle.wjs_model.specs.Soundness.{Base, HasCompletion, HasValue, IsThere, StandsHere, StandsIf};
ghost use Rattle.wjs_frames.specs.Following.{Later};
ghost use Rattle.wjs_stopping.specs.Ends.{gives_in};
ghost use Rattle.wjs_stopping.specs.Evaluating.{Evaluates, HasOutcome, InMemory};
ghost use Rattle.wjs_direct_lines.specs.Deeds.{IsNode, entry_here, form_here, goal_here, line_here};
ghost use Rattle.wjs_direct.specs.Rounds.{GoesRound, HasRound, IsLoop, next_in};

use crate::expressions::{form, value};
use crate::statements::{statement, statement_form};
use crate::stores::effect;
use wjs_base::Value;
use wjs_direct_lines::may_enter;
use wjs_loops::{AfterBody, after_body};
use wjs_model::{Completion, Config, Frame, Phase, Point, Start, StmtPoint};
use wjs_quick::quick_entered;
use wjs_step_common::to_boolean;
use wjs_stopping::{Broken, Stops, stop, waits};
use wjs_store::WorldStore;
use wjs_tree::{ForInit, Node, NodeId};

/// A `for` that begins with an expression: its iterations come after it, unless it throws.
#[cycle(direct)]
pub(crate) fn for_expression<S: WorldStore>(
    config: &mut Config<S>,
    frame: &Frame,
    node: NodeId,
    e: NodeId,
    test: Option<NodeId>,
    update: Option<NodeId>,
    body: NodeId,
    room: u16,
    stops: &mut Stops,
) -> Result<Completion, Broken>
    requires base { Base S.meaning config.old }
    requires there { IsThere S.meaning config.old frame.now }
    requires node { StandsHere config.old frame.now node }
    requires empty { stops.old.waits ≡ [] }
    requires is { IsNode S.meaning config.old frame.now node (Node.For (ForInit.Expr e) test update body) }
    requires first { StandsHere config.old frame.now e }
    ensures later { InMemory result (Later S.meaning config.old config.new) }
    ensures found { HasOutcome S.meaning HasCompletion config.new result stops.new.waits stops.new.top }
    ensures does { Evaluates S.meaning (form_here S.meaning config.old frame.now (AtExpr e.0)
        (λ t env. then_value (loops.for_started node.0 (number test) (number update) body.0 env)))
        completion_in result stops.new.waits stops.new.top config.old config.new }
{
    match effect(config, frame, e, room, stops) {
        Ok(end) => match end {
            Completion::Gives(_) => run_loop(config, frame, node, test, update, body, room, stops),
            _ => Ok(end),
        },
        Err(end) => {
            let point = Point::Stmt(StmtPoint::ForFirst);
            Err(waits(config, frame, node, point, end, stops))
        }
    }
}

/// A loop from its first iteration on, in one Rust loop.
#[cycle(direct)]
pub(crate) fn run_loop<S: WorldStore>(
    config: &mut Config<S>,
    frame: &Frame,
    node: NodeId,
    test: Option<NodeId>,
    update: Option<NodeId>,
    body: NodeId,
    room: u16,
    stops: &mut Stops,
) -> Result<Completion, Broken>
    requires base { Base S.meaning config.old }
    requires there { IsThere S.meaning config.old frame.now }
    requires node { StandsHere config.old frame.now node }
    requires empty { stops.old.waits ≡ [] }
    requires is { IsLoop S.meaning config.old frame.now node test update body }
    requires test { StandsIf config.old frame.now test }
    requires update { StandsIf config.old frame.now update }
    requires body { StandsHere config.old frame.now body }
    ensures later { InMemory result (Later S.meaning config.old config.new) }
    ensures found { HasOutcome S.meaning HasCompletion config.new result stops.new.waits stops.new.top }
    ensures does { Evaluates S.meaning (line_here S.meaning config.old frame.now
        (λ t env. loops.loop_from node.0 (number test) (number update) body.0 env))
        completion_in result stops.new.waits stops.new.top config.old config.new }
{
    match first(config, frame, node, test, update, body, room, stops) {
        Ok(ended) => match ended {
            Some(end) => Ok(end),
            None => iterations(config, frame, node, test, update, body, room, stops),
        },
        Err(end) => Err(end),
    }
}

/// The first iteration: its test, if it has one, is a part like others.
#[cycle(direct)]
fn first<S: WorldStore>(
    config: &mut Config<S>,
    frame: &Frame,
    node: NodeId,
    test: Option<NodeId>,
    update: Option<NodeId>,
    body: NodeId,
    room: u16,
    stops: &mut Stops,
) -> Result<Option<Completion>, Broken>
    requires base { Base S.meaning config.old }
    requires there { IsThere S.meaning config.old frame.now }
    requires node { StandsHere config.old frame.now node }
    requires empty { stops.old.waits ≡ [] }
    requires test { StandsIf config.old frame.now test }
    requires update { StandsIf config.old frame.now update }
    requires body { StandsHere config.old frame.now body }
    ensures later { InMemory result (Later S.meaning config.old config.new) }
    ensures found { HasOutcome S.meaning HasRound config.new result stops.new.waits stops.new.top }
    ensures does { GoesRound S.meaning (line_here S.meaning config.old frame.now
        (λ t env. loops.loop_from node.0 (number test) (number update) body.0 env))
        frame.now node result stops.new.waits stops.new.top config.old config.new }
{
    match test {
        Some(e) => match value(config, frame, e, room, stops) {
            Ok(truth) => tested(config, frame, node, truth, update, body, room, stops),
            Err(end) => {
                let point = Point::Stmt(StmtPoint::ForTest(update, body));
                Err(waits(config, frame, node, point, end, stops))
            }
        },
        None => body_run(config, frame, node, update, body, room, stops),
    }
}

/// The iterations behind the first, each of which takes a step. Where none is left, or no room, the next one is due.
#[cycle(direct)]
pub(crate) fn iterations<S: WorldStore>(
    config: &mut Config<S>,
    frame: &Frame,
    node: NodeId,
    test: Option<NodeId>,
    update: Option<NodeId>,
    body: NodeId,
    room: u16,
    stops: &mut Stops,
) -> Result<Completion, Broken>
    requires base { Base S.meaning config.old }
    requires there { IsThere S.meaning config.old frame.now }
    requires node { StandsHere config.old frame.now node }
    requires empty { stops.old.waits ≡ [] }
    requires is { IsLoop S.meaning config.old frame.now node test update body }
    requires test { StandsIf config.old frame.now test }
    requires update { StandsIf config.old frame.now update }
    requires body { StandsHere config.old frame.now body }
    ensures later { InMemory result (Later S.meaning config.old config.new) }
    ensures found { HasOutcome S.meaning HasCompletion config.new result stops.new.waits stops.new.top }
    ensures does { Evaluates S.meaning (goal_here S.meaning config.old frame.now (Again node.0))
        completion_in result stops.new.waits stops.new.top config.old config.new }
{
    let mut turns = many();
    while may_go_round(config, room, turns) {
        turns -= 1;
        config.left -= 1;
        match iteration(config, frame, node, test, update, body, room - 2, stops) {
            Ok(ended) => match ended {
                Some(end) => return Ok(end),
                None => {}
            },
            Err(end) => return Err(end),
        }
    }
    Err(stop(config, frame, node, Phase::Due(Start::Again), stops))
}

/// More iterations than are counted: behind so many the next one is due again.
pub(crate) fn many() -> u64 {
    u64::MAX
}

/// Whether an iteration may be entered: there is a step and room for it. The number only shows that the loop comes to an end.
pub(crate) fn may_go_round<S: WorldStore>(config: &Config<S>, room: u16, turns: u64) -> bool
    ensures left { result ≡ true → 0 < config.now.left }
    ensures room { result ≡ true → 8 ≤ room }
    ensures turns { result ≡ true → 0 < turns }
{
    if turns == 0 {
        return false;
    }
    may_enter(config, room)
}

/// A later iteration, whose step is taken: that step enters its test, or without one its body.
#[cycle(direct)]
fn iteration<S: WorldStore>(
    config: &mut Config<S>,
    frame: &Frame,
    node: NodeId,
    test: Option<NodeId>,
    update: Option<NodeId>,
    body: NodeId,
    room: u16,
    stops: &mut Stops,
) -> Result<Option<Completion>, Broken>
    requires base { Base S.meaning config.old }
    requires there { IsThere S.meaning config.old frame.now }
    requires node { StandsHere config.old frame.now node }
    requires empty { stops.old.waits ≡ [] }
    requires test { StandsIf config.old frame.now test }
    requires update { StandsIf config.old frame.now update }
    requires body { StandsHere config.old frame.now body }
    ensures later { InMemory result (Later S.meaning config.old config.new) }
    ensures found { HasOutcome S.meaning HasRound config.new result stops.new.waits stops.new.top }
    ensures does { GoesRound S.meaning (line_here S.meaning config.old frame.now
        (λ t env. iteration_from node.0 (number test) (number update) body.0 env))
        frame.now node result stops.new.waits stops.new.top config.old config.new }
{
    match test {
        Some(e) => match entered(config, frame, e, room, stops) {
            Ok(truth) => tested(config, frame, node, truth, update, body, room, stops),
            Err(end) => {
                let point = Point::Stmt(StmtPoint::ForTest(update, body));
                Err(waits(config, frame, node, point, end, stops))
            }
        },
        None => body_entered(config, frame, node, update, body, room, stops),
    }
}

/// The value of an expression that is entered already.
#[cycle(direct)]
fn entered<S: WorldStore>(
    config: &mut Config<S>,
    frame: &Frame,
    node: NodeId,
    room: u16,
    stops: &mut Stops,
) -> Result<Value, Broken>
    requires base { Base S.meaning config.old }
    requires there { IsThere S.meaning config.old frame.now }
    requires node { StandsHere config.old frame.now node }
    requires empty { stops.old.waits ≡ [] }
    ensures later { InMemory result (Later S.meaning config.old config.new) }
    ensures found { HasOutcome S.meaning HasValue config.new result stops.new.waits stops.new.top }
    ensures does { Evaluates S.meaning (entry_here S.meaning config.old frame.now (AtExpr node.0))
        gives_in result stops.new.waits stops.new.top config.old config.new }
{
    if let Some(value) = quick_entered(config, frame, node) {
        return Ok(value);
    }
    form(config, frame, node, room, stops)
}

/// The body of a later iteration without a test, and what follows it.
#[cycle(direct)]
fn body_entered<S: WorldStore>(
    config: &mut Config<S>,
    frame: &Frame,
    node: NodeId,
    update: Option<NodeId>,
    body: NodeId,
    room: u16,
    stops: &mut Stops,
) -> Result<Option<Completion>, Broken>
    requires base { Base S.meaning config.old }
    requires there { IsThere S.meaning config.old frame.now }
    requires node { StandsHere config.old frame.now node }
    requires empty { stops.old.waits ≡ [] }
    requires update { StandsIf config.old frame.now update }
    requires body { StandsHere config.old frame.now body }
    ensures later { InMemory result (Later S.meaning config.old config.new) }
    ensures found { HasOutcome S.meaning HasRound config.new result stops.new.waits stops.new.top }
    ensures does { GoesRound S.meaning (line_here S.meaning config.old frame.now
        (λ t env. Sub (stmt_at body.0 env) (loops.loop_body node.0 (number update) env)))
        frame.now node result stops.new.waits stops.new.top config.old config.new }
{
    match statement_form(config, frame, body, room, stops) {
        Ok(end) => body_ended(config, frame, node, update, end, room, stops),
        Err(end) => {
            let point = Point::Stmt(StmtPoint::ForBody(update));
            Err(waits(config, frame, node, point, end, stops))
        }
    }
}

/// After the test: the body, or the loop's end.
#[cycle(direct)]
#[inline(always)]
fn tested<S: WorldStore>(
    config: &mut Config<S>,
    frame: &Frame,
    node: NodeId,
    truth: Value,
    update: Option<NodeId>,
    body: NodeId,
    room: u16,
    stops: &mut Stops,
) -> Result<Option<Completion>, Broken>
    requires base { Base S.meaning config.old }
    requires there { IsThere S.meaning config.old frame.now }
    requires node { StandsHere config.old frame.now node }
    requires empty { stops.old.waits ≡ [] }
    requires truth { HasValue config.old truth }
    requires update { StandsIf config.old frame.now update }
    requires body { StandsHere config.old frame.now body }
    ensures later { InMemory result (Later S.meaning config.old config.new) }
    ensures found { HasOutcome S.meaning HasRound config.new result stops.new.waits stops.new.top }
    ensures does { GoesRound S.meaning (line_here S.meaning config.old frame.now
        (λ t env. loops.loop_test node.0 (number update) body.0 env (value_in t truth)))
        frame.now node result stops.new.waits stops.new.top config.old config.new }
{
    if to_boolean(config, truth) {
        body_run(config, frame, node, update, body, room, stops)
    } else {
        Ok(Some(Completion::Normal))
    }
}

/// The body of an iteration, and what follows it.
#[cycle(direct)]
#[inline(always)]
fn body_run<S: WorldStore>(
    config: &mut Config<S>,
    frame: &Frame,
    node: NodeId,
    update: Option<NodeId>,
    body: NodeId,
    room: u16,
    stops: &mut Stops,
) -> Result<Option<Completion>, Broken>
    requires base { Base S.meaning config.old }
    requires there { IsThere S.meaning config.old frame.now }
    requires node { StandsHere config.old frame.now node }
    requires empty { stops.old.waits ≡ [] }
    requires update { StandsIf config.old frame.now update }
    requires body { StandsHere config.old frame.now body }
    ensures later { InMemory result (Later S.meaning config.old config.new) }
    ensures found { HasOutcome S.meaning HasRound config.new result stops.new.waits stops.new.top }
    ensures does { GoesRound S.meaning (form_here S.meaning config.old frame.now (AtStmt body.0)
        (λ t env. loops.loop_body node.0 (number update) env))
        frame.now node result stops.new.waits stops.new.top config.old config.new }
{
    match statement(config, frame, body, room, stops) {
        Ok(end) => body_ended(config, frame, node, update, end, room, stops),
        Err(end) => {
            let point = Point::Stmt(StmtPoint::ForBody(update));
            Err(waits(config, frame, node, point, end, stops))
        }
    }
}

/// After the body: the update, if there is one, or the loop's end.
#[cycle(direct)]
#[inline(always)]
fn body_ended<S: WorldStore>(
    config: &mut Config<S>,
    frame: &Frame,
    node: NodeId,
    update: Option<NodeId>,
    end: Completion,
    room: u16,
    stops: &mut Stops,
) -> Result<Option<Completion>, Broken>
    requires base { Base S.meaning config.old }
    requires there { IsThere S.meaning config.old frame.now }
    requires node { StandsHere config.old frame.now node }
    requires empty { stops.old.waits ≡ [] }
    requires update { StandsIf config.old frame.now update }
    requires end { HasCompletion config.old end }
    ensures later { InMemory result (Later S.meaning config.old config.new) }
    ensures found { HasOutcome S.meaning HasRound config.new result stops.new.waits stops.new.top }
    ensures does { GoesRound S.meaning (line_here S.meaning config.old frame.now
        (λ t env. loops.loop_body node.0 (number update) env (completion_in t end)))
        frame.now node result stops.new.waits stops.new.top config.old config.new }
{
    match after_body(config, frame, node, end) {
        AfterBody::Again => match update {
            Some(e) => update_run(config, frame, node, e, room, stops),
            None => Ok(None),
        },
        AfterBody::Ends(ended) => Ok(Some(ended)),
    }
}

/// The expression of the update, and what follows it.
#[cycle(direct)]
#[inline(always)]
pub(crate) fn update_run<S: WorldStore>(
    config: &mut Config<S>,
    frame: &Frame,
    node: NodeId,
    update: NodeId,
    room: u16,
    stops: &mut Stops,
) -> Result<Option<Completion>, Broken>
    requires base { Base S.meaning config.old }
    requires there { IsThere S.meaning config.old frame.now }
    requires node { StandsHere config.old frame.now node }
    requires empty { stops.old.waits ≡ [] }
    requires update { StandsHere config.old frame.now update }
    ensures later { InMemory result (Later S.meaning config.old config.new) }
    ensures found { HasOutcome S.meaning HasRound config.new result stops.new.waits stops.new.top }
    ensures does { GoesRound S.meaning (form_here S.meaning config.old frame.now (AtExpr update.0)
        (λ t env. then_value (loops.loop_updated node.0 env)))
        frame.now node result stops.new.waits stops.new.top config.old config.new }
{
    match effect(config, frame, update, room, stops) {
        Ok(end) => Ok(after_update(end)),
        Err(end) => {
            let point = Point::Stmt(StmtPoint::ForUpdate);
            Err(waits(config, frame, node, point, end, stops))
        }
    }
}

/// What follows the update by how it ended: the next iteration, or what was thrown.
fn after_update(end: Completion) -> Option<Completion>
    ensures is { (t : Table) (here : ℕ) (env : Env) → then_value (loops.loop_updated here env) (completion_in t end) ≡ next_in t here env result }
    ensures same { IfSome result (λ e. e ≡ end) }
{
    match end {
        Completion::Gives(_) => None,
        _ => Some(end),
    }
}
