//! The bodies of functions (ECMA-262, 3rd edition, sections 10.2.3 and 13.2.1).
ghost use Rattle.std.specs.Prelude.{◌≡◌, All, [], drop, map};
ghost use Rattle.wjs_by_content.specs.Tables.{value_in};
ghost use Rattle.wjs_by_content.specs.Values.{Object};
ghost use Rattle.wjs_meaning.specs.Functions as functions;
ghost use Rattle.wjs_meaning.specs.Reading.{node_in};
ghost use Rattle.wjs_meaning.specs.Trees.{elements_of};
ghost use Rattle.wjs_model.specs.Soundness.{Base, HasObject, HasValue, IsThere, StandsHere};
ghost use Rattle.wjs_model.specs.Standing.{IsFunction};
ghost use Rattle.wjs_frames.specs.Following.{Later};
ghost use Rattle.wjs_frames.specs.Parts.{node_now};
ghost use Rattle.wjs_stopping.specs.Ends.{gives_in};
ghost use Rattle.wjs_stopping.specs.Evaluating.{Evaluates, HasOutcome, InMemory};
ghost use Rattle.wjs_direct_lines.specs.Deeds.{IsScript, line_here};

use crate::statements::statement;
use wjs_base::{NodeId, ObjId, Value};
use wjs_direct_lines::{body_ended, function_stops};
use wjs_effects::element_at;
use wjs_heap_steps::scope_of;
use wjs_model::{CallPoint, Completion, Config, Frame, Phase, Point, Start};
use wjs_step_common::number_after;
use wjs_stopping::{Broken, Stops, waits};
use wjs_store::WorldStore;
use wjs_variables::enter_scope;

/// The body of a function that a script made, whose step is taken.
#[cycle(direct)]
pub(crate) fn body_called<S: WorldStore>(
    config: &mut Config<S>,
    frame: &Frame,
    node: NodeId,
    function: ObjId,
    tree: u32,
    body: NodeId,
    this: ObjId,
    values: &[Value],
    room: u16,
    stops: &mut Stops,
) -> Result<Value, Broken>
    requires base { Base S.meaning config.old }
    requires there { IsThere S.meaning config.old frame.now }
    requires node { StandsHere config.old frame.now node }
    requires empty { stops.old.waits ≡ [] }
    requires function { HasObject config.old function }
    requires this { HasObject config.old this }
    requires values { All (HasValue config.old) values.now }
    requires code { IsScript config.old function tree body }
    ensures later { InMemory result (Later S.meaning config.old config.new) }
    ensures found { HasOutcome S.meaning HasValue config.new result stops.new.waits stops.new.top }
    ensures does { Evaluates S.meaning (line_here S.meaning config.old frame.now
        (λ t env. functions.body_of function (map (value_in t) values.now) (record env { this = Object this })))
        gives_in result stops.new.waits stops.new.top config.old config.new }
{
    match scope_of(config, function) {
        Some(scope) => body_inside(
            config, frame, node, function, tree, body, scope, this, values, room, stops,
        ),
        None => {
            let phase = Phase::Ready(Start::Body(function));
            let this = Value::Object(this);
            Err(function_stops(config, frame, node, function, this, values, phase, stops))
        }
    }
}

/// The same inside the function's scope, in a frame of its own.
#[cycle(direct)]
fn body_inside<S: WorldStore>(
    config: &mut Config<S>,
    frame: &Frame,
    node: NodeId,
    function: ObjId,
    tree: u32,
    body: NodeId,
    scope: ObjId,
    this: ObjId,
    values: &[Value],
    room: u16,
    stops: &mut Stops,
) -> Result<Value, Broken>
    requires base { Base S.meaning config.old }
    requires there { IsThere S.meaning config.old frame.now }
    requires node { StandsHere config.old frame.now node }
    requires empty { stops.old.waits ≡ [] }
    requires function { HasObject config.old function }
    requires scope { HasObject config.old scope }
    requires this { HasObject config.old this }
    requires values { All (HasValue config.old) values.now }
    requires stands { IsFunction config.old.units.items config.old.heap.arena tree body scope 0 }
    ensures later { InMemory result (Later S.meaning config.old config.new) }
    ensures found { HasOutcome S.meaning HasValue config.new result stops.new.waits stops.new.top }
    ensures does { Evaluates S.meaning (line_here S.meaning config.old frame.now
        (λ t env. functions.body_scopes body.0 scope function (map (value_in t) values.now) (record env { this = Object this; tree = tree })))
        gives_in result stops.new.waits stops.new.top config.old config.new }
{
    let mut inner = config.frames.begun(frame, node)?;
    inner.set_this(Value::Object(this));
    enter_scope(config, &mut inner, function, tree, body, scope, values)?;
    let done = run_body(config, &inner, 0, room, stops);
    config.frames.spare(inner);
    done
}

/// The value of a function's body from one of its elements on, whose frame this is.
#[cycle(direct)]
pub(crate) fn run_body<S: WorldStore>(
    config: &mut Config<S>,
    frame: &Frame,
    from: u32,
    room: u16,
    stops: &mut Stops,
) -> Result<Value, Broken>
    requires base { Base S.meaning config.old }
    requires there { IsThere S.meaning config.old frame.now }
    requires body { IsFunction config.old.units.items config.old.heap.arena frame.now.tree frame.now.node frame.now.scope 1 }
    requires empty { stops.old.waits ≡ [] }
    ensures later { InMemory result (Later S.meaning config.old config.new) }
    ensures found { HasOutcome S.meaning HasValue config.new result stops.new.waits stops.new.top }
    ensures does { Evaluates S.meaning (line_here S.meaning config.old frame.now
        (λ t env. functions.body_from (drop from (elements_of (node_in t (node_now S.meaning config.old frame.now)))) env))
        gives_in result stops.new.waits stops.new.top config.old config.new }
{
    let mut at = from;
    while let Some(element) = element_at(config, frame, at) {
        let next = number_after(at)?;
        match statement(config, frame, element, room, stops) {
            Ok(Completion::Normal) => at = next,
            Ok(end) => return body_ended(config, frame, next, end, stops),
            Err(end) => {
                let point = Point::Call(CallPoint::BodyElement(next));
                return Err(waits(config, frame, frame.node(), point, end, stops));
            }
        }
    }
    Ok(Value::Undefined)
}
