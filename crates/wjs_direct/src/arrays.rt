//! Literals of arrays (ECMA-262, 3rd edition, section 11.1.4): the items from left to right, and then the length.
ghost use Rattle.std.specs.Prelude.{◌≡◌, ◌+◌, [], Some, length, slice_get};
ghost use Rattle.wjs_meaning.specs.Deeds.{AtExpr};
ghost use Rattle.wjs_model.specs.Soundness.{Base, HasObject, HasValue, IsThere, StandsHere};
ghost use Rattle.wjs_frames.specs.Following.{Later};
ghost use Rattle.wjs_frames.specs.Parts.{node_among};
ghost use Rattle.wjs_literals.specs.Parts.{Skips, items_in};
ghost use Rattle.wjs_stopping.specs.Ends.{gives_in};
ghost use Rattle.wjs_stopping.specs.Evaluating.{Evaluates, HasOutcome, InMemory};
ghost use Rattle.wjs_direct_lines.specs.Deeds.{entry_here, line_here};
ghost use Rattle.wjs_direct.specs.Literals.{IsArrayLiteral, items_left};

use crate::expressions::value;
use wjs_base::{Name, ObjId, Value};
use wjs_frames::node_at;
use wjs_heap_steps::{create_array, write};
use wjs_literals::{Next, next_among, write_last, write_length};
use wjs_model::{Config, ExprPoint, Frame, Held, Point};
use wjs_step_common::{number_after, number_of};
use wjs_stopping::{Broken, Stops, waits_holding};
use wjs_store::WorldStore;
use wjs_tree::{Node, NodeId};

/// An array literal, whose step is taken: the array is made, and then its items.
#[cycle(direct)]
#[inline(never)]
pub(crate) fn array<S: WorldStore>(
    config: &mut Config<S>,
    frame: &Frame,
    node: NodeId,
    room: u16,
    stops: &mut Stops,
) -> Result<Value, Broken>
    requires base { Base S.meaning config.old }
    requires there { IsThere S.meaning config.old frame.now }
    requires node { StandsHere config.old frame.now node }
    requires empty { stops.old.waits ≡ [] }
    requires is { IsArrayLiteral S.meaning config.old frame.now node }
    ensures later { InMemory result (Later S.meaning config.old config.new) }
    ensures found { HasOutcome S.meaning HasValue config.new result stops.new.waits stops.new.top }
    ensures does { Evaluates S.meaning (entry_here S.meaning config.old frame.now (AtExpr node.0))
        gives_in result stops.new.waits stops.new.top config.old config.new }
{
    let array = create_array(config)?;
    run_items(config, frame, node, array, room, stops)
}

/// The items of an array that was made, in one Rust loop: each is written before the next one is asked for.
#[cycle(direct)]
fn run_items<S: WorldStore>(
    config: &mut Config<S>,
    frame: &Frame,
    node: NodeId,
    array: ObjId,
    room: u16,
    stops: &mut Stops,
) -> Result<Value, Broken>
    requires base { Base S.meaning config.old }
    requires there { IsThere S.meaning config.old frame.now }
    requires node { StandsHere config.old frame.now node }
    requires empty { stops.old.waits ≡ [] }
    requires array { HasObject config.old array }
    ensures later { InMemory result (Later S.meaning config.old config.new) }
    ensures found { HasOutcome S.meaning HasValue config.new result stops.new.waits stops.new.top }
    ensures does { Evaluates S.meaning (line_here S.meaning config.old frame.now (items_left config.old frame.now node array 0))
        gives_in result stops.new.waits stops.new.top config.old config.new }
{
    let mut from = 0u32;
    for _turn in 0..u64::MAX {
        match next_item(config, frame, node, from) {
            Next::Item(at, item) => {
                let number = number_of(at)?;
                let next = number_after(number)?;
                match value(config, frame, item, room, stops) {
                    Ok(given) => write(config, frame, array, Name::Index(number), given)?,
                    Err(end) => {
                        let held = Held::Value(Value::Object(array));
                        let point = Point::Expr(ExprPoint::ArrayItem(number));
                        return Err(waits_holding(config, frame, node, held, point, end, stops));
                    }
                }
                from = next;
            }
            Next::Last(at, item) => {
                return last_item(config, frame, node, array, at, item, room, stops);
            }
            Next::End(length) => {
                write_length(config, frame, array, length)?;
                return Ok(Value::Object(array));
            }
        }
    }
    Err(Broken::OutOfMemory)
}

/// The last item, which is written with the length.
#[cycle(direct)]
fn last_item<S: WorldStore>(
    config: &mut Config<S>,
    frame: &Frame,
    node: NodeId,
    array: ObjId,
    at: usize,
    item: NodeId,
    room: u16,
    stops: &mut Stops,
) -> Result<Value, Broken>
    requires base { Base S.meaning config.old }
    requires there { IsThere S.meaning config.old frame.now }
    requires node { StandsHere config.old frame.now node }
    requires empty { stops.old.waits ≡ [] }
    requires array { HasObject config.old array }
    requires item { slice_get (items_in (node_among config.old.units.items frame.now.tree node)) at ≡ Some (Some item) }
    requires last { length (items_in (node_among config.old.units.items frame.now.tree node)) ≡ at + 1 }
    ensures later { InMemory result (Later S.meaning config.old config.new) }
    ensures found { HasOutcome S.meaning HasValue config.new result stops.new.waits stops.new.top }
    ensures does { Evaluates S.meaning (line_here S.meaning config.old frame.now (items_left config.old frame.now node array at))
        gives_in result stops.new.waits stops.new.top config.old config.new }
{
    let number = number_of(at)?;
    match value(config, frame, item, room, stops) {
        Ok(given) => {
            write_last(config, frame, array, number, given)?;
            Ok(Value::Object(array))
        }
        Err(end) => {
            let held = Held::Value(Value::Object(array));
            let point = Point::Expr(ExprPoint::ArrayItem(number));
            Err(waits_holding(config, frame, node, held, point, end, stops))
        }
    }
}

/// What comes next of the items of a node, from a number on.
fn next_item<S: WorldStore>(config: &Config<S>, frame: &Frame, node: NodeId, from: u32) -> Next
    ensures { Skips (items_in (node_among config.now.units.items frame.now.tree node)) from result }
{
    match node_at(config, frame, node) {
        Some(Node::ArrayLit(items, _)) => next_among(items.as_slice(), from as usize),
        _ => Next::End(from as usize),
    }
}
