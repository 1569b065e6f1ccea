//! The statements `throw` and `try` (ECMA-262, 3rd edition, sections 12.13 and 12.14).
ghost use Rattle.std.specs.Prelude.{◌≡◌, Some, []};
ghost use Rattle.wjs_base.specs.Text.{Has};
ghost use Rattle.wjs_by_content.specs.Tables.{text_in, value_in};
ghost use Rattle.wjs_meaning.specs.Deeds.{AtExpr, AtStmt, then_value};
ghost use Rattle.wjs_meaning.specs.Reading.{number};
ghost use Rattle.wjs_meaning.specs.Statements as statements;
ghost use Rattle.wjs_model.specs.Contents.{completion_in};
ghost use Rattle.wjs_model.specs.Soundness.{Base, HasCompletion, HasObject, HasValue, IsThere, StandsHere, StandsIf};
ghost use Rattle.wjs_model.specs.Standing.{Stands};
ghost use Rattle.wjs_frames.specs.Following.{Later};
ghost use Rattle.wjs_frames.specs.Parts.{node_among};
ghost use Rattle.wjs_blocks.specs.Tries.{catch_in};
ghost use Rattle.wjs_stopping.specs.Evaluating.{Evaluates, HasOutcome, InMemory};
ghost use Rattle.wjs_direct_lines.specs.Deeds.{form_here, goal_here, line_here};
ghost use Rattle.wjs_direct.specs.Tries.{IsCaught, caught_here, ended_by, last_by, thrown_by};

use crate::statements::statement;
use crate::stores::effect;
use wjs_base::{ObjId, Value};
use wjs_blocks::handler_at;
use wjs_heap_steps::{create_scope, name_of, write};
use wjs_model::{Completion, Config, Frame, Held, Point, StmtPoint};
use wjs_stopping::{Broken, Stops, waits, waits_holding};
use wjs_store::WorldStore;
use wjs_tree::{Handler, NodeId};

/// A `throw` (section 12.13).
#[cycle(direct)]
pub(crate) fn throw_of<S: WorldStore>(
    config: &mut Config<S>,
    frame: &Frame,
    node: NodeId,
    e: NodeId,
    room: u16,
    stops: &mut Stops,
) -> Result<Completion, Broken>
    requires base { Base S.meaning config.old }
    requires there { IsThere S.meaning config.old frame.now }
    requires node { StandsHere config.old frame.now node }
    requires empty { stops.old.waits ≡ [] }
    requires part { StandsHere config.old frame.now e }
    ensures later { InMemory result (Later S.meaning config.old config.new) }
    ensures found { HasOutcome S.meaning HasCompletion config.new result stops.new.waits stops.new.top }
    ensures does { Evaluates S.meaning (form_here S.meaning config.old frame.now (AtExpr e.0) (λ t env. then_value statements.throw_value))
        completion_in result stops.new.waits stops.new.top config.old config.new }
{
    match effect(config, frame, e, room, stops) {
        Ok(end) => Ok(thrown(end)),
        Err(end) => {
            let point = Point::Stmt(StmtPoint::ThrowValue);
            Err(waits(config, frame, node, point, end, stops))
        }
    }
}

/// How a `throw` ends by the completion of its expression.
fn thrown(end: Completion) -> Completion
    ensures { result ≡ thrown_by end }
{
    match end {
        Completion::Gives(value) => Completion::Throws(value),
        other => other,
    }
}

/// A `try` (section 12.14): its block, then its handler where the block threw, and last its `finally`.
#[cycle(direct)]
#[inline(never)]
pub(crate) fn attempt<S: WorldStore>(
    config: &mut Config<S>,
    frame: &Frame,
    node: NodeId,
    block: NodeId,
    last: Option<NodeId>,
    room: u16,
    stops: &mut Stops,
) -> Result<Completion, Broken>
    requires base { Base S.meaning config.old }
    requires there { IsThere S.meaning config.old frame.now }
    requires node { StandsHere config.old frame.now node }
    requires empty { stops.old.waits ≡ [] }
    requires block { StandsHere config.old frame.now block }
    requires last { StandsIf config.old frame.now last }
    ensures later { InMemory result (Later S.meaning config.old config.new) }
    ensures found { HasOutcome S.meaning HasCompletion config.new result stops.new.waits stops.new.top }
    ensures does { Evaluates S.meaning (form_here S.meaning config.old frame.now (AtStmt block.0) (caught_here config.old frame.now node last))
        completion_in result stops.new.waits stops.new.top config.old config.new }
{
    match attempted(config, frame, block, room, stops) {
        Ok(end) => match end {
            Completion::Throws(error) => caught(config, frame, node, last, error, room, stops),
            _ => lastly(config, frame, node, last, end, room, stops),
        },
        Err(end) => {
            let point = Point::Stmt(StmtPoint::TryBlock(last));
            Err(waits(config, frame, node, point, end, stops))
        }
    }
}

/// How a statement ends: what it throws is an end like every other.
#[cycle(direct)]
fn attempted<S: WorldStore>(
    config: &mut Config<S>,
    frame: &Frame,
    node: NodeId,
    room: u16,
    stops: &mut Stops,
) -> Result<Completion, Broken>
    requires base { Base S.meaning config.old }
    requires there { IsThere S.meaning config.old frame.now }
    requires node { StandsHere config.old frame.now node }
    requires empty { stops.old.waits ≡ [] }
    ensures later { InMemory result (Later S.meaning config.old config.new) }
    ensures found { HasOutcome S.meaning HasCompletion config.new result stops.new.waits stops.new.top }
    ensures does { Evaluates S.meaning (goal_here S.meaning config.old frame.now (AtStmt node.0))
        completion_in result stops.new.waits stops.new.top config.old config.new }
    ensures caught { IsCaught result }
{
    ended(statement(config, frame, node, room, stops))
}

/// What was thrown is an end like every other.
fn ended(done: Result<Completion, Broken>) -> Result<Completion, Broken>
    ensures { result ≡ ended_by done }
{
    match done {
        Ok(end) => Ok(end),
        Err(Broken::Throws(error)) => Ok(Completion::Throws(error)),
        Err(Broken::Stopped) => Err(Broken::Stopped),
        Err(Broken::OutOfMemory) => Err(Broken::OutOfMemory),
    }
}

/// What was thrown goes to the handler; without one it is an end like every other.
#[cycle(direct)]
fn caught<S: WorldStore>(
    config: &mut Config<S>,
    frame: &Frame,
    node: NodeId,
    last: Option<NodeId>,
    error: Value,
    room: u16,
    stops: &mut Stops,
) -> Result<Completion, Broken>
    requires base { Base S.meaning config.old }
    requires there { IsThere S.meaning config.old frame.now }
    requires node { StandsHere config.old frame.now node }
    requires empty { stops.old.waits ≡ [] }
    requires last { StandsIf config.old frame.now last }
    requires error { HasValue config.old error }
    ensures later { InMemory result (Later S.meaning config.old config.new) }
    ensures found { HasOutcome S.meaning HasCompletion config.new result stops.new.waits stops.new.top }
    ensures does { Evaluates S.meaning (line_here S.meaning config.old frame.now
        (λ t env. caught_here config.old frame.now node last t env (completion_in t (Completion.Throws error))))
        completion_in result stops.new.waits stops.new.top config.old config.new }
{
    match handler_at(config, frame, node) {
        Some(handler) => catch(config, frame, node, handler, last, error, room, stops),
        None => {
            let end = Completion::Throws(error);
            lastly(config, frame, node, last, end, room, stops)
        }
    }
}

/// The handler: its scope, with the name of what was thrown, its block in it, and then the `finally`.
#[cycle(direct)]
#[inline(never)]
fn catch<S: WorldStore>(
    config: &mut Config<S>,
    frame: &Frame,
    node: NodeId,
    handler: Handler,
    last: Option<NodeId>,
    error: Value,
    room: u16,
    stops: &mut Stops,
) -> Result<Completion, Broken>
    requires base { Base S.meaning config.old }
    requires there { IsThere S.meaning config.old frame.now }
    requires node { StandsHere config.old frame.now node }
    requires empty { stops.old.waits ≡ [] }
    requires is { catch_in (node_among config.old.units.items frame.now.tree node) ≡ Some handler }
    requires name { Has config.old.heap.texts handler.name }
    requires last { StandsIf config.old frame.now last }
    requires error { HasValue config.old error }
    ensures later { InMemory result (Later S.meaning config.old config.new) }
    ensures found { HasOutcome S.meaning HasCompletion config.new result stops.new.waits stops.new.top }
    ensures does { Evaluates S.meaning (line_here S.meaning config.old frame.now
        (λ t env. statements.try_catch (text_in t handler.name) handler.block.0 (number last) env (value_in t error)))
        completion_in result stops.new.waits stops.new.top config.old config.new }
{
    let scope = create_scope(config, frame.scope())?;
    let name = name_of(config, handler.name);
    write(config, frame, scope, name, error)?;
    match in_scope(config, frame, handler.block, scope, room, stops) {
        Ok(end) => lastly(config, frame, node, last, end, room, stops),
        Err(end) => {
            let point = Point::Stmt(StmtPoint::TryHandler(last));
            Err(waits(config, frame, node, point, end, stops))
        }
    }
}

/// A statement in a scope inside the frame's, in a frame of its own.
#[cycle(direct)]
fn in_scope<S: WorldStore>(
    config: &mut Config<S>,
    frame: &Frame,
    node: NodeId,
    scope: ObjId,
    room: u16,
    stops: &mut Stops,
) -> Result<Completion, Broken>
    requires base { Base S.meaning config.old }
    requires there { IsThere S.meaning config.old frame.now }
    requires node { Stands config.old.units.items config.old.heap.arena frame.now.tree node scope 0 }
    requires empty { stops.old.waits ≡ [] }
    requires scope { HasObject config.old scope }
    ensures later { InMemory result (Later S.meaning config.old config.new) }
    ensures found { HasOutcome S.meaning HasCompletion config.new result stops.new.waits stops.new.top }
    ensures does { Evaluates S.meaning (goal_here S.meaning config.old (record frame.now { scope = scope }) (AtStmt node.0))
        completion_in result stops.new.waits stops.new.top config.old config.new }
    ensures caught { IsCaught result }
{
    let mut inner = config.frames.begun(frame, node)?;
    inner.set_scope(scope);
    let done = attempted(config, &inner, node, room, stops);
    config.frames.spare(inner);
    done
}

/// After the block, or the handler: the `finally`, if there is one, whose completion replaces the earlier one where it is not normal; where
/// it stops, its node holds the earlier one.
#[cycle(direct)]
fn lastly<S: WorldStore>(
    config: &mut Config<S>,
    frame: &Frame,
    node: NodeId,
    last: Option<NodeId>,
    end: Completion,
    room: u16,
    stops: &mut Stops,
) -> Result<Completion, Broken>
    requires base { Base S.meaning config.old }
    requires there { IsThere S.meaning config.old frame.now }
    requires node { StandsHere config.old frame.now node }
    requires empty { stops.old.waits ≡ [] }
    requires last { StandsIf config.old frame.now last }
    requires end { HasCompletion config.old end }
    ensures later { InMemory result (Later S.meaning config.old config.new) }
    ensures found { HasOutcome S.meaning HasCompletion config.new result stops.new.waits stops.new.top }
    ensures does { Evaluates S.meaning (line_here S.meaning config.old frame.now (λ t env. statements.try_finally (number last) env (completion_in t end)))
        completion_in result stops.new.waits stops.new.top config.old config.new }
{
    match last {
        Some(s) => match statement(config, frame, s, room, stops) {
            Ok(after) => Ok(last_end(end, after)),
            Err(broken) => {
                let point = Point::Stmt(StmtPoint::TryFinally);
                let held = Held::Earlier(end);
                Err(waits_holding(config, frame, node, held, point, broken, stops))
            }
        },
        None => Ok(end),
    }
}

/// How a `try` ends by its `finally`, behind what ended before it.
fn last_end(earlier: Completion, end: Completion) -> Completion
    ensures { result ≡ last_by earlier end }
{
    match end {
        Completion::Normal => earlier,
        _ => end,
    }
}
