//! Calls of native functions (ECMA-262, 3rd edition, section 15).
ghost use Rattle.std.specs.Prelude.{◌≡◌, [], All, false, map};
ghost use Rattle.wjs_by_content.specs.Tables.{value_in};
ghost use Rattle.wjs_meaning.specs.Deeds.{AtNative, Eval, Ret};
ghost use Rattle.wjs_meaning.specs.Natives.{native_of};
ghost use Rattle.wjs_model.specs.Soundness.{Base, HasObject, HasValue, IsThere, StandsHere};
ghost use Rattle.wjs_frames.specs.Following.{Later};
ghost use Rattle.wjs_stopping.specs.Ends.{gives_in};
ghost use Rattle.wjs_stopping.specs.Evaluating.{Evaluates, HasOutcome, InMemory};
ghost use Rattle.wjs_direct_lines.specs.Deeds.{line_here};

use crate::holding::function_stops;
use crate::room::{ROOM, may_enter};
use wjs_arena::Native;
use wjs_base::{ObjId, Value};
use wjs_model::{Config, Frame, Phase, Start};
use wjs_native_text::native_at_once;
use wjs_stopping::{Broken, Stops};
use wjs_store::WorldStore;
use wjs_tree::NodeId;

/// A native function, where a step is left.
pub fn native_called<S: WorldStore>(
    config: &mut Config<S>,
    frame: &Frame,
    node: NodeId,
    function: ObjId,
    native: Native,
    this: Value,
    values: &[Value],
    stops: &mut Stops,
) -> Result<Value, Broken>
    requires base { Base S.meaning config.old }
    requires there { IsThere S.meaning config.old frame.now }
    requires node { StandsHere config.old frame.now node }
    requires empty { stops.old.waits ≡ [] }
    requires function { HasObject config.old function }
    requires this { HasValue config.old this }
    requires values { All (HasValue config.old) values.now }
    ensures later { InMemory result (Later S.meaning config.old config.new) }
    ensures found { HasOutcome S.meaning HasValue config.new result stops.new.waits stops.new.top }
    ensures does { Evaluates S.meaning (line_here S.meaning config.old frame.now
        (λ t env. Eval (AtNative native false (map (value_in t) values.now)) (record env { this = value_in t this }) Ret))
        gives_in result stops.new.waits stops.new.top config.old config.new }
{
    if !may_enter(config, ROOM) {
        let phase = Phase::Due(Start::Native(native, false));
        return Err(function_stops(config, frame, node, function, this, values, phase, stops));
    }
    config.left -= 1;
    run_native(config, frame, node, function, native, this, values, stops)
}

/// What follows the step of its entry: it gives its value at once, or is run by a frame.
fn run_native<S: WorldStore>(
    config: &mut Config<S>,
    frame: &Frame,
    node: NodeId,
    function: ObjId,
    native: Native,
    this: Value,
    values: &[Value],
    stops: &mut Stops,
) -> Result<Value, Broken>
    requires base { Base S.meaning config.old }
    requires there { IsThere S.meaning config.old frame.now }
    requires node { StandsHere config.old frame.now node }
    requires empty { stops.old.waits ≡ [] }
    requires function { HasObject config.old function }
    requires this { HasValue config.old this }
    requires values { All (HasValue config.old) values.now }
    ensures later { InMemory result (Later S.meaning config.old config.new) }
    ensures found { HasOutcome S.meaning HasValue config.new result stops.new.waits stops.new.top }
    ensures does { Evaluates S.meaning (line_here S.meaning config.old frame.now
        (λ t env. native_of native false (map (value_in t) values.now) (record env { this = value_in t this })))
        gives_in result stops.new.waits stops.new.top config.old config.new }
{
    let done = native_at_once(config, native, this, values)?;
    match done {
        Some(value) => Ok(value),
        None => {
            let phase = Phase::Ready(Start::Native(native, false));
            Err(function_stops(config, frame, node, function, this, values, phase, stops))
        }
    }
}
