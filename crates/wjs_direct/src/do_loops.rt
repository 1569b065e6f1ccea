//! The loop `do` (ECMA-262, 3rd edition, section 12.6.1).
ghost use Rattle.std.specs.Prelude.{◌≡◌, ℕ, []};
ghost use Rattle.wjs_base.specs.Text.{Table, Grows};
ghost use Rattle.wjs_by_content.specs.Tables.{value_in};
ghost use Rattle.wjs_meaning.specs.Deeds.{Again, AtExpr, AtStmt, Env, Sub, then_value};
ghost use Rattle.wjs_meaning.specs.Loops as loops;
ghost use Rattle.wjs_meaning.specs.Statements.{stmt_at};
ghost use Rattle.wjs_model.specs.Contents.{completion_in};
ghost use Rattle.wjs_model.specs.Soundness.{Base, HasCompletion, HasValue, IsThere, StandsHere};
ghost use Rattle.wjs_frames.specs.Following.{Later};
ghost use Rattle.wjs_stopping.specs.Evaluating.{Evaluates, HasOutcome, InMemory};
ghost use Rattle.wjs_direct_lines.specs.Deeds.{form_here, goal_here, line_here};
ghost use Rattle.wjs_direct.specs.Rounds.{GoesRound, HasRound, IsDo, next_in};

use crate::expressions::value;
use crate::loops::{many, may_go_round};
use crate::statements::{statement, statement_form};
use wjs_base::{NodeId, Value};
use wjs_loops::{AfterBody, after_body};
use wjs_model::{Completion, Config, Frame, Phase, Point, Start, StmtPoint};
use wjs_step_common::to_boolean;
use wjs_stopping::{Broken, Stops, stop, waits};
use wjs_store::WorldStore;

/// A `do` from its first iteration on, in one Rust loop. Its step is taken.
#[cycle(direct)]
#[inline(never)]
pub(crate) fn run_do<S: WorldStore>(
    config: &mut Config<S>,
    frame: &Frame,
    node: NodeId,
    body: NodeId,
    test: NodeId,
    room: u16,
    stops: &mut Stops,
) -> Result<Completion, Broken>
    requires base { Base S.meaning config.old }
    requires there { IsThere S.meaning config.old frame.now }
    requires node { StandsHere config.old frame.now node }
    requires empty { stops.old.waits ≡ [] }
    requires is { IsDo S.meaning config.old frame.now node body test }
    requires body { StandsHere config.old frame.now body }
    requires test { StandsHere config.old frame.now test }
    ensures later { InMemory result (Later S.meaning config.old config.new) }
    ensures found { HasOutcome S.meaning HasCompletion config.new result stops.new.waits stops.new.top }
    ensures does { Evaluates S.meaning (form_here S.meaning config.old frame.now (AtStmt body.0)
        (λ t env. loops.do_body node.0 test.0 env))
        completion_in result stops.new.waits stops.new.top config.old config.new }
{
    match first(config, frame, node, body, test, room, stops) {
        Ok(ended) => match ended {
            Some(end) => Ok(end),
            None => iterations(config, frame, node, body, test, room, stops),
        },
        Err(end) => Err(end),
    }
}

/// The first iteration: its body is a part like others.
#[cycle(direct)]
fn first<S: WorldStore>(
    config: &mut Config<S>,
    frame: &Frame,
    node: NodeId,
    body: NodeId,
    test: NodeId,
    room: u16,
    stops: &mut Stops,
) -> Result<Option<Completion>, Broken>
    requires base { Base S.meaning config.old }
    requires there { IsThere S.meaning config.old frame.now }
    requires node { StandsHere config.old frame.now node }
    requires empty { stops.old.waits ≡ [] }
    requires body { StandsHere config.old frame.now body }
    requires test { StandsHere config.old frame.now test }
    ensures later { InMemory result (Later S.meaning config.old config.new) }
    ensures found { HasOutcome S.meaning HasRound config.new result stops.new.waits stops.new.top }
    ensures does { GoesRound S.meaning (form_here S.meaning config.old frame.now (AtStmt body.0)
        (λ t env. loops.do_body node.0 test.0 env))
        frame.now node result stops.new.waits stops.new.top config.old config.new }
{
    match statement(config, frame, body, room, stops) {
        Ok(end) => body_ended(config, frame, node, test, end, room, stops),
        Err(end) => {
            let point = Point::Stmt(StmtPoint::DoBody(test));
            Err(waits(config, frame, node, point, end, stops))
        }
    }
}

/// The iterations behind the first, each of which takes a step. Where none is left, or no room, the next one is due.
#[cycle(direct)]
pub(crate) fn iterations<S: WorldStore>(
    config: &mut Config<S>,
    frame: &Frame,
    node: NodeId,
    body: NodeId,
    test: NodeId,
    room: u16,
    stops: &mut Stops,
) -> Result<Completion, Broken>
    requires base { Base S.meaning config.old }
    requires there { IsThere S.meaning config.old frame.now }
    requires node { StandsHere config.old frame.now node }
    requires empty { stops.old.waits ≡ [] }
    requires is { IsDo S.meaning config.old frame.now node body test }
    requires body { StandsHere config.old frame.now body }
    requires test { StandsHere config.old frame.now test }
    ensures later { InMemory result (Later S.meaning config.old config.new) }
    ensures found { HasOutcome S.meaning HasCompletion config.new result stops.new.waits stops.new.top }
    ensures does { Evaluates S.meaning (goal_here S.meaning config.old frame.now (Again node.0))
        completion_in result stops.new.waits stops.new.top config.old config.new }
{
    let mut turns = many();
    'rounds: while may_go_round(config, room, turns) {
        turns -= 1;
        config.left -= 1;
        match iteration(config, frame, node, body, test, room - 2, stops) {
            Ok(ended) => match ended {
                Some(end) => return Ok(end),
                None => {}
            },
            Err(end) => return Err(end),
        }
    }
    Err(stop(config, frame, node, Phase::Due(Start::Again), stops))
}

/// A later iteration, whose step is taken: that step enters its body.
#[cycle(direct)]
fn iteration<S: WorldStore>(
    config: &mut Config<S>,
    frame: &Frame,
    node: NodeId,
    body: NodeId,
    test: NodeId,
    room: u16,
    stops: &mut Stops,
) -> Result<Option<Completion>, Broken>
    requires base { Base S.meaning config.old }
    requires there { IsThere S.meaning config.old frame.now }
    requires node { StandsHere config.old frame.now node }
    requires empty { stops.old.waits ≡ [] }
    requires body { StandsHere config.old frame.now body }
    requires test { StandsHere config.old frame.now test }
    ensures later { InMemory result (Later S.meaning config.old config.new) }
    ensures found { HasOutcome S.meaning HasRound config.new result stops.new.waits stops.new.top }
    ensures does { GoesRound S.meaning (line_here S.meaning config.old frame.now
        (λ t env. Sub (stmt_at body.0 env) (loops.do_body node.0 test.0 env)))
        frame.now node result stops.new.waits stops.new.top config.old config.new }
{
    match statement_form(config, frame, body, room, stops) {
        Ok(end) => body_ended(config, frame, node, test, end, room, stops),
        Err(end) => {
            let point = Point::Stmt(StmtPoint::DoBody(test));
            Err(waits(config, frame, node, point, end, stops))
        }
    }
}

/// After the body: the test, or the loop's end.
#[cycle(direct)]
fn body_ended<S: WorldStore>(
    config: &mut Config<S>,
    frame: &Frame,
    node: NodeId,
    test: NodeId,
    end: Completion,
    room: u16,
    stops: &mut Stops,
) -> Result<Option<Completion>, Broken>
    requires base { Base S.meaning config.old }
    requires there { IsThere S.meaning config.old frame.now }
    requires node { StandsHere config.old frame.now node }
    requires empty { stops.old.waits ≡ [] }
    requires test { StandsHere config.old frame.now test }
    requires end { HasCompletion config.old end }
    ensures later { InMemory result (Later S.meaning config.old config.new) }
    ensures found { HasOutcome S.meaning HasRound config.new result stops.new.waits stops.new.top }
    ensures does { GoesRound S.meaning (line_here S.meaning config.old frame.now
        (λ t env. loops.do_body node.0 test.0 env (completion_in t end)))
        frame.now node result stops.new.waits stops.new.top config.old config.new }
{
    match after_body(config, frame, node, end) {
        AfterBody::Again => asked(config, frame, node, test, room, stops),
        AfterBody::Ends(ended) => Ok(Some(ended)),
    }
}

/// The test, and what follows it.
#[cycle(direct)]
pub(crate) fn asked<S: WorldStore>(
    config: &mut Config<S>,
    frame: &Frame,
    node: NodeId,
    test: NodeId,
    room: u16,
    stops: &mut Stops,
) -> Result<Option<Completion>, Broken>
    requires base { Base S.meaning config.old }
    requires there { IsThere S.meaning config.old frame.now }
    requires node { StandsHere config.old frame.now node }
    requires empty { stops.old.waits ≡ [] }
    requires test { StandsHere config.old frame.now test }
    ensures later { InMemory result (Later S.meaning config.old config.new) }
    ensures found { HasOutcome S.meaning HasRound config.new result stops.new.waits stops.new.top }
    ensures does { GoesRound S.meaning (form_here S.meaning config.old frame.now (AtExpr test.0)
        (λ t env. then_value (loops.do_test node.0 env)))
        frame.now node result stops.new.waits stops.new.top config.old config.new }
{
    match value(config, frame, test, room, stops) {
        Ok(truth) => Ok(tested(config, truth)),
        Err(end) => {
            let point = Point::Stmt(StmtPoint::DoTest);
            Err(waits(config, frame, node, point, end, stops))
        }
    }
}

/// After the test: the next iteration, or the loop's end.
fn tested<S: WorldStore>(config: &Config<S>, truth: Value) -> Option<Completion>
    requires base { Base S.meaning config.now }
    requires value { HasValue config.now truth }
    ensures is { (t : Table) → Grows config.now.heap.texts t → (here : ℕ) (env : Env) →
        loops.do_test here env (value_in t truth) ≡ next_in t here env result }
    ensures found { HasRound config.now result }
{
    if to_boolean(config, truth) {
        None
    } else {
        Some(Completion::Normal)
    }
}
