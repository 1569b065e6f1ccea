//! The frames of calls and of `new` that stop: they hold their callee and their arguments so far.
ghost use Rattle.std.specs.Prelude.{◌≡◌, ◌∷◌, IfOk, OnOk, []};
ghost use Rattle.wjs_stopping.specs.Waiting.{StopsAt, WaitsAt, at_node, waiting_at};
ghost use Rattle.wjs_direct_lines.specs.Deeds.{call_held};

use wjs_base::{ObjId, OutOfMemory, Value};
use wjs_model::{Config, Frame, Held, Phase, Point, Reference};
use wjs_stopping::{Broken, Stops};
use wjs_store::WorldStore;
use wjs_tree::NodeId;

/// Where an argument stopped, the call or the `new` waits at this point with its callee and the arguments so far; what was thrown is
/// handed on.
#[inline(never)]
pub fn argument_waits<S: WorldStore>(
    config: &mut Config<S>,
    frame: &Frame,
    node: NodeId,
    callee: Value,
    this: Value,
    values: &[Value],
    point: Point,
    end: Broken,
    stops: &mut Stops,
) -> Broken
    ensures same { config.new ≡ config.old }
    ensures waits { WaitsAt (at_node frame.now node (call_held callee this values.now)) point
        end stops.old.waits stops.old.top result stops.new.waits stops.new.top }
{
    match end {
        Broken::Stopped => match put_call(config, frame, node, callee, this, values, point, stops) {
            Ok(()) => end,
            Err(OutOfMemory) => Broken::OutOfMemory,
        },
        _ => end,
    }
}

fn put_call<S: WorldStore>(
    config: &mut Config<S>,
    frame: &Frame,
    node: NodeId,
    callee: Value,
    this: Value,
    values: &[Value],
    point: Point,
    stops: &mut Stops,
) -> Result<(), OutOfMemory>
    ensures same { config.new ≡ config.old }
    ensures waits { OnOk result (stops.new.waits
        ≡ waiting_at (at_node frame.now node (call_held callee this values.now)) point ∷ stops.old.waits) }
    ensures top { OnOk result (stops.new.top ≡ stops.old.top) }
{
    let inner = holding(config, frame, node, callee, this, values)?;
    stops.below(inner, point)
}

/// The frame of a call that holds its callee and the arguments so far.
fn holding<S: WorldStore>(
    config: &mut Config<S>,
    frame: &Frame,
    node: NodeId,
    callee: Value,
    this: Value,
    values: &[Value],
) -> Result<Frame, OutOfMemory>
    ensures same { config.new ≡ config.old }
    ensures frame { IfOk result (λ inner. inner ≡ at_node frame.now node (call_held callee this values.now)) }
{
    let mut inner = config.frames.begun(frame, node)?;
    inner.hold(Held::Callee(callee, this))?;
    for value in values {
        inner.hold(Held::Value(*value))?;
    }
    Ok(inner)
}

/// A call stops, with its callee and its arguments held.
#[inline(never)]
pub fn call_stops<S: WorldStore>(
    config: &mut Config<S>,
    frame: &Frame,
    node: NodeId,
    callee: Value,
    this: Value,
    values: &[Value],
    phase: Phase,
    stops: &mut Stops,
) -> Broken
    requires { stops.old.waits ≡ [] }
    ensures same { config.new ≡ config.old }
    ensures stops { StopsAt (at_node frame.now node (call_held callee this values.now)) phase result stops.new.waits stops.new.top }
{
    match holding(config, frame, node, callee, this, values) {
        Ok(inner) => {
            stops.begin(inner, phase);
            Broken::Stopped
        }
        Err(OutOfMemory) => Broken::OutOfMemory,
    }
}

/// A function stops, with its arguments held, and `this`.
#[inline(never)]
pub fn function_stops<S: WorldStore>(
    config: &mut Config<S>,
    frame: &Frame,
    node: NodeId,
    function: ObjId,
    this: Value,
    values: &[Value],
    phase: Phase,
    stops: &mut Stops,
) -> Broken
    requires { stops.old.waits ≡ [] }
    ensures same { config.new ≡ config.old }
    ensures stops { StopsAt (record (at_node frame.now node (call_held (Value.Object function) this values.now)) { this = this })
        phase result stops.new.waits stops.new.top }
{
    let callee = Value::Object(function);
    match holding(config, frame, node, callee, this, values) {
        Ok(inner) => {
            let mut inner = inner;
            inner.set_this(this);
            stops.begin(inner, phase);
            Broken::Stopped
        }
        Err(OutOfMemory) => Broken::OutOfMemory,
    }
}

/// Where the right side of an operator with `=` stopped, its node waits with the reference and the old value.
#[inline(never)]
pub fn wait_compound<S: WorldStore>(
    config: &mut Config<S>,
    frame: &Frame,
    node: NodeId,
    reference: Reference,
    old: Value,
    point: Point,
    end: Broken,
    stops: &mut Stops,
) -> Broken
    ensures same { config.new ≡ config.old }
    ensures waits { WaitsAt (at_node frame.now node (Held.Value old ∷ Held.Reference reference ∷ [])) point
        end stops.old.waits stops.old.top result stops.new.waits stops.new.top }
{
    match end {
        Broken::Stopped => match put_compound(config, frame, node, reference, old, point, stops) {
            Ok(()) => end,
            Err(OutOfMemory) => Broken::OutOfMemory,
        },
        _ => end,
    }
}

fn put_compound<S: WorldStore>(
    config: &mut Config<S>,
    frame: &Frame,
    node: NodeId,
    reference: Reference,
    old: Value,
    point: Point,
    stops: &mut Stops,
) -> Result<(), OutOfMemory>
    ensures same { config.new ≡ config.old }
    ensures waits { OnOk result (stops.new.waits
        ≡ waiting_at (at_node frame.now node (Held.Value old ∷ Held.Reference reference ∷ [])) point ∷ stops.old.waits) }
    ensures top { OnOk result (stops.new.top ≡ stops.old.top) }
{
    let inner = hold_two(config, frame, node, reference, old)?;
    stops.below(inner, point)
}

/// It stops with the reference and the old value.
#[inline(never)]
pub(crate) fn stop_compound<S: WorldStore>(
    config: &mut Config<S>,
    frame: &Frame,
    node: NodeId,
    reference: Reference,
    old: Value,
    phase: Phase,
    stops: &mut Stops,
) -> Broken
    requires { stops.old.waits ≡ [] }
    ensures same { config.new ≡ config.old }
    ensures stops { StopsAt (at_node frame.now node (Held.Value old ∷ Held.Reference reference ∷ [])) phase result stops.new.waits stops.new.top }
{
    match hold_two(config, frame, node, reference, old) {
        Ok(inner) => {
            stops.begin(inner, phase);
            Broken::Stopped
        }
        Err(OutOfMemory) => Broken::OutOfMemory,
    }
}

fn hold_two<S: WorldStore>(
    config: &mut Config<S>,
    frame: &Frame,
    node: NodeId,
    reference: Reference,
    old: Value,
) -> Result<Frame, OutOfMemory>
    ensures same { config.new ≡ config.old }
    ensures frame { IfOk result (λ inner. inner ≡ at_node frame.now node (Held.Value old ∷ Held.Reference reference ∷ [])) }
{
    let mut inner = config.frames.begun(frame, node)?;
    inner.hold(Held::Reference(reference))?;
    inner.hold(Held::Value(old))?;
    Ok(inner)
}
