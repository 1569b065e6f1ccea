//! Callees, as objects (ECMA-262, 3rd edition, section 11.2.3).
ghost use Rattle.std.specs.Prelude.{◌≡◌, []};
ghost use Rattle.wjs_model.specs.Soundness.{Base, HasObject, HasReference, HasValue, IsThere, StandsHere};
ghost use Rattle.wjs_frames.specs.Following.{Later};
ghost use Rattle.wjs_stopping.specs.Evaluating.{HasOutcome, InMemory};
ghost use Rattle.wjs_direct_lines.specs.References.{FindsCallee, FindsObject};

use crate::references::value_read;
use wjs_base::{NodeId, ObjId, Value};
use wjs_model::{Completion, Config, ExprPoint, Frame, Phase, Point, Reference};
use wjs_stopping::{Broken, Stops, stop};
use wjs_store::WorldStore;

/// The object that the reference of a callee holds: its value is read.
#[inline(always)]
pub fn callee_of<S: WorldStore>(
    config: &mut Config<S>,
    frame: &Frame,
    node: NodeId,
    reference: Reference,
    stops: &mut Stops,
) -> Result<ObjId, Broken>
    requires base { Base S.meaning config.old }
    requires there { IsThere S.meaning config.old frame.now }
    requires node { StandsHere config.old frame.now node }
    requires empty { stops.old.waits ≡ [] }
    requires reference { HasReference config.old reference }
    ensures later { InMemory result (Later S.meaning config.old config.new) }
    ensures found { HasOutcome S.meaning HasObject config.new result stops.new.waits stops.new.top }
    ensures does { FindsCallee S.meaning config.old frame.now node reference result stops.new.waits stops.new.top config.new }
{
    match value_read(config, frame, reference) {
        Ok(value) => callee_object(config, frame, node, value, stops),
        Err(end) => Err(end),
    }
}

/// The object that a callee's value is. What is no object is left to a frame before the arguments; behind them it throws, whatever `this`
/// is.
#[inline(always)]
pub fn callee_object<S: WorldStore>(
    config: &mut Config<S>,
    frame: &Frame,
    node: NodeId,
    value: Value,
    stops: &mut Stops,
) -> Result<ObjId, Broken>
    requires base { Base S.meaning config.old }
    requires there { IsThere S.meaning config.old frame.now }
    requires node { StandsHere config.old frame.now node }
    requires empty { stops.old.waits ≡ [] }
    requires value { HasValue config.old value }
    ensures same { config.new ≡ config.old }
    ensures later { InMemory result (Later S.meaning config.old config.new) }
    ensures found { HasOutcome S.meaning HasObject config.new result stops.new.waits stops.new.top }
    ensures is { FindsObject S.meaning config.old frame.now node value result stops.new.waits stops.new.top config.new }
{
    match value {
        Value::Object(function) => Ok(function),
        _ => {
            let point = Point::Expr(ExprPoint::CalleeValue);
            let phase = Phase::Given(point, Completion::Gives(value));
            Err(stop(config, frame, node, phase, stops))
        }
    }
}
