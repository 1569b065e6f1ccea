//! `new` of functions that scripts made (ECMA-262, 3rd edition, sections 11.2.2 and 13.2.2).
ghost use Rattle.std.specs.Prelude.{◌≡◌, All, [], map};
ghost use Rattle.wjs_by_content.specs.Tables.{value_in};
ghost use Rattle.wjs_by_content.specs.Values.{Object};
ghost use Rattle.wjs_meaning.specs.Constructions.{construct};
ghost use Rattle.wjs_meaning.specs.Deeds.{AtExpr, then_value};
ghost use Rattle.wjs_meaning.specs.Expressions as line;
ghost use Rattle.wjs_meaning.specs.Reading.{node_in};
ghost use Rattle.wjs_model.specs.Lists.{arguments_of};
ghost use Rattle.wjs_model.specs.Soundness.{Base, HasObject, HasValue, IsThere, StandsHere};
ghost use Rattle.wjs_frames.specs.Following.{Later};
ghost use Rattle.wjs_frames.specs.Parts.{node_among};
ghost use Rattle.wjs_stopping.specs.Ends.{gives_in};
ghost use Rattle.wjs_stopping.specs.Evaluating.{Evaluates, HasOutcome, InMemory};
ghost use Rattle.wjs_direct_lines.specs.Deeds.{IsScript, form_here, line_here};

use crate::calls::body_entered;
use crate::expressions::value;
use wjs_arena::{Class, Code};
use wjs_base::{ObjId, Value};
use wjs_direct_lines::{argument, argument_waits, prototype_of, push, result_of_new};
use wjs_heap_steps::{code_of, create, object_of};
use wjs_model::{Completion, Config, ExprPoint, Frame, Held, Phase, Point};
use wjs_step_common::number_after;
use wjs_stopping::{Broken, Stops, stop, waits, waits_holding};
use wjs_store::WorldStore;
use wjs_tree::NodeId;

/// `new`, whose step is taken: its callee, and then its arguments; a callee that is no object is left to a frame, before them.
#[cycle(direct)]
#[inline(never)]
pub(crate) fn new_object<S: WorldStore>(
    config: &mut Config<S>,
    frame: &Frame,
    node: NodeId,
    callee: NodeId,
    room: u16,
    stops: &mut Stops,
) -> Result<Value, Broken>
    requires base { Base S.meaning config.old }
    requires there { IsThere S.meaning config.old frame.now }
    requires node { StandsHere config.old frame.now node }
    requires empty { stops.old.waits ≡ [] }
    requires callee { StandsHere config.old frame.now callee }
    ensures later { InMemory result (Later S.meaning config.old config.new) }
    ensures found { HasOutcome S.meaning HasValue config.new result stops.new.waits stops.new.top }
    ensures does { Evaluates S.meaning (form_here S.meaning config.old frame.now (AtExpr callee.0)
        (λ t env. then_value (line.new_callee (arguments_of (node_in t (node_among config.old.units.items frame.now.tree node))) env)))
        gives_in result stops.new.waits stops.new.top config.old config.new }
{
    match value(config, frame, callee, room, stops) {
        Ok(made) => match made {
            Value::Object(function) => new_function(config, frame, node, function, room, stops),
            _ => {
                let point = Point::Expr(ExprPoint::NewCallee);
                let phase = Phase::Given(point, Completion::Gives(made));
                Err(stop(config, frame, node, phase, stops))
            }
        },
        Err(end) => {
            let point = Point::Expr(ExprPoint::NewCallee);
            Err(waits(config, frame, node, point, end, stops))
        }
    }
}

/// What is made by an object; one that is no function of a script's is left to a frame, before the arguments.
#[cycle(direct)]
fn new_function<S: WorldStore>(
    config: &mut Config<S>,
    frame: &Frame,
    node: NodeId,
    function: ObjId,
    room: u16,
    stops: &mut Stops,
) -> Result<Value, Broken>
    requires base { Base S.meaning config.old }
    requires there { IsThere S.meaning config.old frame.now }
    requires node { StandsHere config.old frame.now node }
    requires empty { stops.old.waits ≡ [] }
    requires function { HasObject config.old function }
    ensures later { InMemory result (Later S.meaning config.old config.new) }
    ensures found { HasOutcome S.meaning HasValue config.new result stops.new.waits stops.new.top }
    ensures does { Evaluates S.meaning (line_here S.meaning config.old frame.now
        (λ t env. line.new_callee (arguments_of (node_in t (node_among config.old.units.items frame.now.tree node))) env (Object function)))
        gives_in result stops.new.waits stops.new.top config.old config.new }
{
    match code_of(config, function) {
        Code::Script { tree, node: body } => {
            new_arguments(config, frame, node, function, tree, body, room, stops)
        }
        _ => {
            let point = Point::Expr(ExprPoint::NewCallee);
            let phase = Phase::Given(point, Completion::Gives(Value::Object(function)));
            Err(stop(config, frame, node, phase, stops))
        }
    }
}

/// The arguments from left to right, and then the construction.
#[cycle(direct)]
fn new_arguments<S: WorldStore>(
    config: &mut Config<S>,
    frame: &Frame,
    node: NodeId,
    function: ObjId,
    tree: u32,
    body: NodeId,
    room: u16,
    stops: &mut Stops,
) -> Result<Value, Broken>
    requires base { Base S.meaning config.old }
    requires there { IsThere S.meaning config.old frame.now }
    requires node { StandsHere config.old frame.now node }
    requires empty { stops.old.waits ≡ [] }
    requires function { HasObject config.old function }
    requires code { IsScript config.old function tree body }
    ensures later { InMemory result (Later S.meaning config.old config.new) }
    ensures found { HasOutcome S.meaning HasValue config.new result stops.new.waits stops.new.top }
    ensures does { Evaluates S.meaning (line_here S.meaning config.old frame.now
        (λ t env. line.new_callee (arguments_of (node_in t (node_among config.old.units.items frame.now.tree node))) env (Object function)))
        gives_in result stops.new.waits stops.new.top config.old config.new }
{
    let mut values = Vec::new(config.heap.arena.allocator());
    let mut at = 0u32;
    while let Some(next) = argument(config, frame, node, at) {
        match value(config, frame, next, room, stops) {
            Ok(given) => push(&mut values, given)?,
            Err(end) => {
                let callee = Value::Object(function);
                let values = values.as_slice();
                let this = Value::Undefined;
                let point = Point::Expr(ExprPoint::NewArgument(at));
                return Err(argument_waits(
                    config, frame, node, callee, this, values, point, end, stops,
                ));
            }
        }
        at = number_after(at)?;
    }
    constructed(
        config,
        frame,
        node,
        function,
        tree,
        body,
        values.as_slice(),
        room,
        stops,
    )
}

/// The object is made on the function's `prototype`, where that is an object, and the function is called on it; a result that is an object
/// is given in its place.
#[cycle(direct)]
fn constructed<S: WorldStore>(
    config: &mut Config<S>,
    frame: &Frame,
    node: NodeId,
    function: ObjId,
    tree: u32,
    body: NodeId,
    values: &[Value],
    room: u16,
    stops: &mut Stops,
) -> Result<Value, Broken>
    requires base { Base S.meaning config.old }
    requires there { IsThere S.meaning config.old frame.now }
    requires node { StandsHere config.old frame.now node }
    requires empty { stops.old.waits ≡ [] }
    requires function { HasObject config.old function }
    requires values { All (HasValue config.old) values.now }
    requires code { IsScript config.old function tree body }
    ensures later { InMemory result (Later S.meaning config.old config.new) }
    ensures found { HasOutcome S.meaning HasValue config.new result stops.new.waits stops.new.top }
    ensures does { Evaluates S.meaning (line_here S.meaning config.old frame.now
        (λ t env. construct (Object function) env (map (value_in t) values.now)))
        gives_in result stops.new.waits stops.new.top config.old config.new }
{
    let prototype = prototype_of(config, frame, function)?;
    let alloc = config.heap.arena.allocator();
    let object = create(config, object_of(alloc, Class::Plain, Some(prototype)))?;
    match body_entered(
        config, frame, node, function, tree, body, object, values, room, stops,
    ) {
        Ok(given) => Ok(result_of_new(config, object, given)),
        Err(end) => {
            let held = Held::Value(Value::Object(object));
            let point = Point::Expr(ExprPoint::NewCall);
            Err(waits_holding(config, frame, node, held, point, end, stops))
        }
    }
}
