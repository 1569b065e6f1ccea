//! Literals of objects (ECMA-262, 3rd edition, section 11.1.5): the values from left to right, each written under its key.
ghost use Rattle.std.specs.Prelude.{◌≡◌, [], slice_get};
ghost use Rattle.wjs_meaning.specs.Deeds.{AtExpr};
ghost use Rattle.wjs_model.specs.Soundness.{Base, HasObject, HasValue, IsThere, StandsHere};
ghost use Rattle.wjs_frames.specs.Following.{Later};
ghost use Rattle.wjs_frames.specs.Parts.{node_among};
ghost use Rattle.wjs_literals.specs.Parts.{properties_in};
ghost use Rattle.wjs_stopping.specs.Ends.{gives_in};
ghost use Rattle.wjs_stopping.specs.Evaluating.{Evaluates, HasOutcome, InMemory};
ghost use Rattle.wjs_direct_lines.specs.Deeds.{entry_here, line_here};
ghost use Rattle.wjs_direct.specs.Literals.{IsObjectLiteral, pairs_left};

use crate::expressions::value;
use wjs_base::{ObjId, Value};
use wjs_frames::node_at;
use wjs_heap_steps::create_plain;
use wjs_literals::write_property;
use wjs_model::{Config, ExprPoint, Frame, Held, Point};
use wjs_step_common::number_after;
use wjs_stopping::{Broken, Stops, waits_holding};
use wjs_store::WorldStore;
use wjs_tree::{Node, NodeId, Property};

/// An object literal, whose step is taken: the object is made, and then its properties.
#[cycle(direct)]
#[inline(never)]
pub(crate) fn object<S: WorldStore>(
    config: &mut Config<S>,
    frame: &Frame,
    node: NodeId,
    room: u16,
    stops: &mut Stops,
) -> Result<Value, Broken>
    requires base { Base S.meaning config.old }
    requires there { IsThere S.meaning config.old frame.now }
    requires node { StandsHere config.old frame.now node }
    requires empty { stops.old.waits ≡ [] }
    requires is { IsObjectLiteral S.meaning config.old frame.now node }
    ensures later { InMemory result (Later S.meaning config.old config.new) }
    ensures found { HasOutcome S.meaning HasValue config.new result stops.new.waits stops.new.top }
    ensures does { Evaluates S.meaning (entry_here S.meaning config.old frame.now (AtExpr node.0))
        gives_in result stops.new.waits stops.new.top config.old config.new }
{
    let object = create_plain(config)?;
    run_properties(config, frame, node, object, room, stops)
}

/// The properties of an object that was made, in one Rust loop: each value is written before the next one is asked for.
#[cycle(direct)]
fn run_properties<S: WorldStore>(
    config: &mut Config<S>,
    frame: &Frame,
    node: NodeId,
    object: ObjId,
    room: u16,
    stops: &mut Stops,
) -> Result<Value, Broken>
    requires base { Base S.meaning config.old }
    requires there { IsThere S.meaning config.old frame.now }
    requires node { StandsHere config.old frame.now node }
    requires empty { stops.old.waits ≡ [] }
    requires object { HasObject config.old object }
    ensures later { InMemory result (Later S.meaning config.old config.new) }
    ensures found { HasOutcome S.meaning HasValue config.new result stops.new.waits stops.new.top }
    ensures does { Evaluates S.meaning (line_here S.meaning config.old frame.now (pairs_left config.old frame.now node object 0))
        gives_in result stops.new.waits stops.new.top config.old config.new }
{
    let mut at = 0u32;
    while let Some(next) = property(config, frame, node, at) {
        match value(config, frame, next.value, room, stops) {
            Ok(given) => write_property(config, frame, object, next.key, given)?,
            Err(end) => {
                let held = Held::Value(Value::Object(object));
                let point = Point::Expr(ExprPoint::PairValue(at));
                return Err(waits_holding(config, frame, node, held, point, end, stops));
            }
        }
        at = number_after(at)?;
    }
    Ok(Value::Object(object))
}

/// The property of a number of a node.
#[inline(always)]
fn property<S: WorldStore>(
    config: &Config<S>,
    frame: &Frame,
    node: NodeId,
    at: u32,
) -> Option<Property>
    ensures { result ≡ slice_get (properties_in (node_among config.now.units.items frame.now.tree node)) at }
{
    match node_at(config, frame, node) {
        Some(Node::ObjectLit(properties, _)) => property_at(properties.as_slice(), at),
        _ => None,
    }
}

fn property_at(properties: &[Property], at: u32) -> Option<Property>
    ensures { result ≡ slice_get properties.now at }
{
    match properties.get(at as usize) {
        Some(property) => Some(*property),
        None => None,
    }
}
