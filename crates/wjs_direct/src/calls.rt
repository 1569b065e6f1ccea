//! Calls (ECMA-262, 3rd edition, sections 10.2.3, 11.2.3 and 13.2.1).
ghost use Rattle.std.specs.Prelude.{◌≡◌, All, [], map};
ghost use Rattle.wjs_base.specs.Text.{Table};
ghost use Rattle.wjs_by_content.specs.Objects.{Arena, object_at};
ghost use Rattle.wjs_by_content.specs.Tables.{value_in};
ghost use Rattle.wjs_by_content.specs.Values.{Object, Undefined};
ghost use Rattle.wjs_meaning.specs.Calls as calls;
ghost use Rattle.wjs_meaning.specs.Deeds.{AtBody, AtExpr, AtTarget, Eval, Ret, then_reference, then_value};
ghost use Rattle.wjs_meaning.specs.Expressions as line;
ghost use Rattle.wjs_meaning.specs.Reading.{node_in};
ghost use Rattle.wjs_model.specs.Contents.{reference_in};
ghost use Rattle.wjs_model.specs.Lists.{arguments_of};
ghost use Rattle.wjs_model.specs.Outside.{Sees};
ghost use Rattle.wjs_model.specs.Soundness.{Base, HasObject, HasReference, HasValue, IsThere, StandsHere};
ghost use Rattle.wjs_frames.specs.Following.{Later};
ghost use Rattle.wjs_frames.specs.Parts.{node_among};
ghost use Rattle.wjs_stopping.specs.Ends.{gives_in};
ghost use Rattle.wjs_stopping.specs.Evaluating.{Evaluates, HasOutcome, InMemory};
ghost use Rattle.wjs_direct_lines.specs.Deeds.{IsCallee, IsScript, entry_here, form_here, line_here};

use crate::bodies::body_called;
use crate::expressions::value;
use crate::targets::target;
use wjs_arena::Code;
use wjs_base::{ObjId, Value};
use wjs_direct_lines::{
    argument, argument_waits, base_of, call_stops, callee_object, callee_of, function_stops,
    may_enter, native_called, push,
};
use wjs_heap_steps::{code_of, peek_value_of};
use wjs_members::is_target;
use wjs_model::{Config, ExprPoint, Frame, Phase, Point, Reference, Start};
use wjs_step_common::{number_after, this_or_global};
use wjs_stopping::{Broken, Stops, waits};
use wjs_store::WorldStore;
use wjs_tree::NodeId;

/// A call, whose step is taken: its callee, and then its arguments.
#[cycle(direct)]
pub(crate) fn call<S: WorldStore>(
    config: &mut Config<S>,
    frame: &Frame,
    node: NodeId,
    callee: NodeId,
    room: u16,
    stops: &mut Stops,
) -> Result<Value, Broken>
    requires base { Base S.meaning config.old }
    requires there { IsThere S.meaning config.old frame.now }
    requires node { StandsHere config.old frame.now node }
    requires empty { stops.old.waits ≡ [] }
    requires callee { IsCallee S.meaning config.old frame.now node callee }
    ensures later { InMemory result (Later S.meaning config.old config.new) }
    ensures found { HasOutcome S.meaning HasValue config.new result stops.new.waits stops.new.top }
    ensures does { Evaluates S.meaning (entry_here S.meaning config.old frame.now (AtExpr node.0))
        gives_in result stops.new.waits stops.new.top config.old config.new }
{
    if is_target(config, frame, callee) {
        target_called(config, frame, node, callee, room, stops)
    } else {
        value_called(config, frame, node, callee, room, stops)
    }
}

/// A callee that is a target: the object that its reference holds is called; `this` is the base of a member. Mostly a look tells that object.
#[cycle(direct)]
fn target_called<S: WorldStore>(
    config: &mut Config<S>,
    frame: &Frame,
    node: NodeId,
    callee: NodeId,
    room: u16,
    stops: &mut Stops,
) -> Result<Value, Broken>
    requires base { Base S.meaning config.old }
    requires there { IsThere S.meaning config.old frame.now }
    requires node { StandsHere config.old frame.now node }
    requires empty { stops.old.waits ≡ [] }
    requires callee { StandsHere config.old frame.now callee }
    ensures later { InMemory result (Later S.meaning config.old config.new) }
    ensures found { HasOutcome S.meaning HasValue config.new result stops.new.waits stops.new.top }
    ensures does { Evaluates S.meaning (form_here S.meaning config.old frame.now (AtTarget callee.0)
        (λ t env. then_reference (line.call_reference (arguments_of (node_in t (node_among config.old.units.items frame.now.tree node))) env)))
        gives_in result stops.new.waits stops.new.top config.old config.new }
{
    match target(config, frame, callee, room, stops) {
        Ok(reference) => match peek_value_of(config, frame, reference) {
            Some(Value::Object(function)) => {
                let this = base_of(config, reference);
                evaluate_arguments(config, frame, node, function, this, room, stops)
            }
            _ => callee_read(config, frame, node, reference, room, stops),
        },
        Err(end) => {
            let point = Point::Expr(ExprPoint::CalleeTarget);
            Err(waits(config, frame, node, point, end, stops))
        }
    }
}

/// A callee of which no look tells an object: its value is read.
#[cycle(direct)]
#[inline(never)]
fn callee_read<S: WorldStore>(
    config: &mut Config<S>,
    frame: &Frame,
    node: NodeId,
    reference: Reference,
    room: u16,
    stops: &mut Stops,
) -> Result<Value, Broken>
    requires base { Base S.meaning config.old }
    requires there { IsThere S.meaning config.old frame.now }
    requires node { StandsHere config.old frame.now node }
    requires empty { stops.old.waits ≡ [] }
    requires reference { HasReference config.old reference }
    ensures later { InMemory result (Later S.meaning config.old config.new) }
    ensures found { HasOutcome S.meaning HasValue config.new result stops.new.waits stops.new.top }
    ensures does { Evaluates S.meaning (line_here S.meaning config.old frame.now
        (λ t env. line.call_reference (arguments_of (node_in t (node_among config.old.units.items frame.now.tree node))) env (reference_in t reference)))
        gives_in result stops.new.waits stops.new.top config.old config.new }
{
    let this = base_of(config, reference);
    match callee_of(config, frame, node, reference, stops) {
        Ok(function) => evaluate_arguments(config, frame, node, function, this, room, stops),
        Err(end) => Err(end),
    }
}

/// A callee that is no target.
#[cycle(direct)]
#[inline(never)]
fn value_called<S: WorldStore>(
    config: &mut Config<S>,
    frame: &Frame,
    node: NodeId,
    callee: NodeId,
    room: u16,
    stops: &mut Stops,
) -> Result<Value, Broken>
    requires base { Base S.meaning config.old }
    requires there { IsThere S.meaning config.old frame.now }
    requires node { StandsHere config.old frame.now node }
    requires empty { stops.old.waits ≡ [] }
    requires callee { StandsHere config.old frame.now callee }
    ensures later { InMemory result (Later S.meaning config.old config.new) }
    ensures found { HasOutcome S.meaning HasValue config.new result stops.new.waits stops.new.top }
    ensures does { Evaluates S.meaning (form_here S.meaning config.old frame.now (AtExpr callee.0)
        (λ t env. then_value (line.call_callee (arguments_of (node_in t (node_among config.old.units.items frame.now.tree node))) Undefined env)))
        gives_in result stops.new.waits stops.new.top config.old config.new }
{
    match value(config, frame, callee, room, stops) {
        Ok(given) => callee_given(config, frame, node, given, room, stops),
        Err(end) => {
            let point = Point::Expr(ExprPoint::CalleeValue);
            Err(waits(config, frame, node, point, end, stops))
        }
    }
}

/// After its value, with `this` undefined.
#[cycle(direct)]
fn callee_given<S: WorldStore>(
    config: &mut Config<S>,
    frame: &Frame,
    node: NodeId,
    callee: Value,
    room: u16,
    stops: &mut Stops,
) -> Result<Value, Broken>
    requires base { Base S.meaning config.old }
    requires there { IsThere S.meaning config.old frame.now }
    requires node { StandsHere config.old frame.now node }
    requires empty { stops.old.waits ≡ [] }
    requires callee { HasValue config.old callee }
    ensures later { InMemory result (Later S.meaning config.old config.new) }
    ensures found { HasOutcome S.meaning HasValue config.new result stops.new.waits stops.new.top }
    ensures does { Evaluates S.meaning (line_here S.meaning config.old frame.now
        (λ t env. line.call_callee (arguments_of (node_in t (node_among config.old.units.items frame.now.tree node))) Undefined env (value_in t callee)))
        gives_in result stops.new.waits stops.new.top config.old config.new }
{
    match callee_object(config, frame, node, callee, stops) {
        Ok(function) => {
            let this = Value::Undefined;
            evaluate_arguments(config, frame, node, function, this, room, stops)
        }
        Err(end) => Err(end),
    }
}

/// The arguments from left to right, and then the call.
#[cycle(direct)]
#[inline(always)]
fn evaluate_arguments<S: WorldStore>(
    config: &mut Config<S>,
    frame: &Frame,
    node: NodeId,
    function: ObjId,
    this: Value,
    room: u16,
    stops: &mut Stops,
) -> Result<Value, Broken>
    requires base { Base S.meaning config.old }
    requires there { IsThere S.meaning config.old frame.now }
    requires node { StandsHere config.old frame.now node }
    requires empty { stops.old.waits ≡ [] }
    requires function { HasObject config.old function }
    requires this { HasValue config.old this }
    ensures later { InMemory result (Later S.meaning config.old config.new) }
    ensures found { HasOutcome S.meaning HasValue config.new result stops.new.waits stops.new.top }
    ensures does { Evaluates S.meaning (line_here S.meaning config.old frame.now
        (λ t env. line.call_callee (arguments_of (node_in t (node_among config.old.units.items frame.now.tree node))) (value_in t this) env (Object function)))
        gives_in result stops.new.waits stops.new.top config.old config.new }
{
    let mut values = Vec::new(config.heap.arena.allocator());
    let mut at = 0u32;
    while let Some(next) = argument(config, frame, node, at) {
        match value(config, frame, next, room, stops) {
            Ok(given) => push(&mut values, given)?,
            Err(end) => {
                let callee = Value::Object(function);
                let values = values.as_slice();
                let point = Point::Expr(ExprPoint::Argument(at));
                return Err(argument_waits(
                    config, frame, node, callee, this, values, point, end, stops,
                ));
            }
        }
        at = number_after(at)?;
    }
    called(
        config,
        frame,
        node,
        function,
        this,
        values.as_slice(),
        room,
        stops,
    )
}

/// The call of an object with its arguments: one that is no function is called by a frame.
#[cycle(direct)]
#[inline(always)]
fn called<S: WorldStore>(
    config: &mut Config<S>,
    frame: &Frame,
    node: NodeId,
    function: ObjId,
    this: Value,
    values: &[Value],
    room: u16,
    stops: &mut Stops,
) -> Result<Value, Broken>
    requires base { Base S.meaning config.old }
    requires there { IsThere S.meaning config.old frame.now }
    requires node { StandsHere config.old frame.now node }
    requires empty { stops.old.waits ≡ [] }
    requires function { HasObject config.old function }
    requires this { HasValue config.old this }
    requires values { All (HasValue config.old) values.now }
    ensures later { InMemory result (Later S.meaning config.old config.new) }
    ensures found { HasOutcome S.meaning HasValue config.new result stops.new.waits stops.new.top }
    ensures does { Evaluates S.meaning (line_here S.meaning config.old frame.now
        (λ t env. line.call_values (Object function) (value_in t this) env (map (value_in t) values.now)))
        gives_in result stops.new.waits stops.new.top config.old config.new }
{
    match code_of(config, function) {
        Code::Script { tree, node: body } => script_called(
            config, frame, node, function, tree, body, this, values, room, stops,
        ),
        Code::Native(native) => {
            let this = this_or_global(config, frame, this);
            native_called(config, frame, node, function, native, this, values, stops)
        }
        Code::None => {
            let callee = Value::Object(function);
            let phase = Phase::Ready(Start::Call);
            Err(call_stops(config, frame, node, callee, this, values, phase, stops))
        }
    }
}

/// A function that a script made, whose `this` is an object; one whose `this` becomes an object is called by a frame.
#[cycle(direct)]
#[inline(always)]
fn script_called<S: WorldStore>(
    config: &mut Config<S>,
    frame: &Frame,
    node: NodeId,
    function: ObjId,
    tree: u32,
    body: NodeId,
    this: Value,
    values: &[Value],
    room: u16,
    stops: &mut Stops,
) -> Result<Value, Broken>
    requires base { Base S.meaning config.old }
    requires there { IsThere S.meaning config.old frame.now }
    requires node { StandsHere config.old frame.now node }
    requires empty { stops.old.waits ≡ [] }
    requires function { HasObject config.old function }
    requires this { HasValue config.old this }
    requires values { All (HasValue config.old) values.now }
    requires code { IsScript config.old function tree body }
    requires seen { (t : Table) (arena : Arena) → Sees S.meaning config.old t arena → (object_at arena function).code ≡ Code.Script tree body }
    ensures later { InMemory result (Later S.meaning config.old config.new) }
    ensures found { HasOutcome S.meaning HasValue config.new result stops.new.waits stops.new.top }
    ensures does { Evaluates S.meaning (line_here S.meaning config.old frame.now
        (λ t env. calls.call function (value_in t this) (map (value_in t) values.now) env))
        gives_in result stops.new.waits stops.new.top config.old config.new }
{
    match this_or_global(config, frame, this) {
        Value::Object(object) => body_entered(
            config, frame, node, function, tree, body, object, values, room, stops,
        ),
        _ => {
            let callee = Value::Object(function);
            let phase = Phase::Ready(Start::Call);
            Err(call_stops(config, frame, node, callee, this, values, phase, stops))
        }
    }
}

/// Its body, where a step and room are left.
#[cycle(direct)]
pub(crate) fn body_entered<S: WorldStore>(
    config: &mut Config<S>,
    frame: &Frame,
    node: NodeId,
    function: ObjId,
    tree: u32,
    body: NodeId,
    this: ObjId,
    values: &[Value],
    room: u16,
    stops: &mut Stops,
) -> Result<Value, Broken>
    requires base { Base S.meaning config.old }
    requires there { IsThere S.meaning config.old frame.now }
    requires node { StandsHere config.old frame.now node }
    requires empty { stops.old.waits ≡ [] }
    requires function { HasObject config.old function }
    requires this { HasObject config.old this }
    requires values { All (HasValue config.old) values.now }
    requires code { IsScript config.old function tree body }
    ensures later { InMemory result (Later S.meaning config.old config.new) }
    ensures found { HasOutcome S.meaning HasValue config.new result stops.new.waits stops.new.top }
    ensures does { Evaluates S.meaning (line_here S.meaning config.old frame.now
        (λ t env. Eval (AtBody function (map (value_in t) values.now)) (record env { this = Object this }) Ret))
        gives_in result stops.new.waits stops.new.top config.old config.new }
{
    if !may_enter(config, room) {
        let phase = Phase::Due(Start::Body(function));
        let this = Value::Object(this);
        return Err(function_stops(config, frame, node, function, this, values, phase, stops));
    }
    config.left -= 1;
    body_called(
        config,
        frame,
        node,
        function,
        tree,
        body,
        this,
        values,
        room - 6,
        stops,
    )
}
