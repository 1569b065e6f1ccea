//! What stands still where an evaluation stops.
ghost use Rattle.std.specs.Prelude.{◌≡◌, ◌∷◌, [], All, OnOk, Some};
ghost use Rattle.wjs_meaning.specs.Deeds.{Ret};
ghost use Rattle.wjs_model.specs.Begun.{with_phase};
ghost use Rattle.wjs_model.specs.Soundness.{IsStacked};
ghost use Rattle.wjs_frames.specs.Following.{Follows};
ghost use Rattle.wjs_frames.specs.Handling.{IsRunning};
ghost use Rattle.wjs_stopping.specs.Evaluating.{HasStops, rest_in, stops_in};
ghost use Rattle.wjs_stopping.specs.Waiting.{at_node, StopsAt, WaitsAt};

use crate::ends::Broken;
use crate::list::{Waits, put_on};
use std::alloc::Global;
use wjs_base::OutOfMemory;
use wjs_model::{Config, Frame, Held, Phase, Point};
use wjs_store::WorldStore;
use wjs_tree::NodeId;

/// The frames of an evaluation that stopped: those that wait, and the one on top, where it stands still, with its phase.
#[derive(Drop)]
pub struct Stops {
    pub(crate) waits: Waits,
    pub(crate) top: Option<(Frame, Phase)>,
}

impl Stops {
    /// None.
    pub fn new(alloc: Global) -> Stops
        ensures { result.waits ≡ [] }
    {
        Stops {
            waits: Waits::new(alloc),
            top: None,
        }
    }

    /// The frame where the evaluation stands still.
    pub fn begin(&mut self, frame: Frame, phase: Phase)
        requires { self.old.waits ≡ [] }
        ensures waits { self.new.waits ≡ [] }
        ensures top { self.new.top ≡ Some (frame, phase) }
    {
        self.top = Some((frame, phase));
    }

    /// A frame waits at a point below those that are there.
    pub fn below(&mut self, frame: Frame, point: Point) -> Result<(), OutOfMemory>
        ensures waits { OnOk result (self.new.waits ≡ record frame { phase = Phase.Waiting point } ∷ self.old.waits) }
        ensures top { OnOk result (self.new.top ≡ self.old.top) }
    {
        let mut frame = frame;
        frame.wait_at(point);
        self.waits.push(frame)
    }
}

/// Frames that stopped are put on the others, the one on top with its phase.
pub fn settle<S: WorldStore>(config: &mut Config<S>, stops: Stops) -> Result<(), OutOfMemory>
    requires running { IsRunning S.meaning config.old }
    requires stops { HasStops S.meaning config.old stops.waits stops.top }
    ensures { OnOk result (Follows S.meaning (rest_in S.meaning config.old stops.waits stops.top config.new.heap.texts Ret) config.old config.new) }
{
    let Stops { waits, top } = stops;
    match top {
        Some((frame, phase)) => settle_at(config, waits, frame, phase),
        None => Err(OutOfMemory),
    }
}

fn settle_at<S: WorldStore>(
    config: &mut Config<S>,
    waits: Waits,
    top: Frame,
    phase: Phase,
) -> Result<(), OutOfMemory>
    requires running { IsRunning S.meaning config.old }
    requires waits { All (IsStacked S.meaning config.old) waits }
    requires top { IsStacked S.meaning config.old (with_phase (top, phase)) }
    ensures { OnOk result (Follows S.meaning (stops_in S.meaning config.old waits (with_phase (top, phase)) config.new.heap.texts Ret) config.old config.new) }
{
    put_on(config, waits)?;
    config.frames.push_at(top, phase)?;
    Ok(())
}

/// Stops at a node that is run where a frame is, in this phase.
#[inline(never)]
pub fn stop<S: WorldStore>(
    config: &mut Config<S>,
    frame: &Frame,
    node: NodeId,
    phase: Phase,
    stops: &mut Stops,
) -> Broken
    requires empty { stops.old.waits ≡ [] }
    ensures same { config.new ≡ config.old }
    ensures stops { StopsAt (at_node frame.now node []) phase result stops.new.waits stops.new.top }
{
    match put(config, frame, node, phase, stops) {
        Ok(()) => Broken::Stopped,
        Err(OutOfMemory) => Broken::OutOfMemory,
    }
}

fn put<S: WorldStore>(
    config: &mut Config<S>,
    frame: &Frame,
    node: NodeId,
    phase: Phase,
    stops: &mut Stops,
) -> Result<(), OutOfMemory>
    requires empty { stops.old.waits ≡ [] }
    ensures same { config.new ≡ config.old }
    ensures waits { OnOk result (stops.new.waits ≡ []) }
    ensures top { OnOk result (stops.new.top ≡ Some (at_node frame.now node [], phase)) }
{
    let inner = config.frames.begun(frame, node)?;
    stops.begin(inner, phase);
    Ok(())
}

/// The same of a node that holds something.
#[inline(never)]
pub fn stop_holding<S: WorldStore>(
    config: &mut Config<S>,
    frame: &Frame,
    node: NodeId,
    held: Held,
    phase: Phase,
    stops: &mut Stops,
) -> Broken
    requires empty { stops.old.waits ≡ [] }
    ensures same { config.new ≡ config.old }
    ensures stops { StopsAt (at_node frame.now node (held ∷ [])) phase result stops.new.waits stops.new.top }
{
    match put_holding(config, frame, node, held, phase, stops) {
        Ok(()) => Broken::Stopped,
        Err(OutOfMemory) => Broken::OutOfMemory,
    }
}

fn put_holding<S: WorldStore>(
    config: &mut Config<S>,
    frame: &Frame,
    node: NodeId,
    held: Held,
    phase: Phase,
    stops: &mut Stops,
) -> Result<(), OutOfMemory>
    requires empty { stops.old.waits ≡ [] }
    ensures same { config.new ≡ config.old }
    ensures waits { OnOk result (stops.new.waits ≡ []) }
    ensures top { OnOk result (stops.new.top ≡ Some (at_node frame.now node (held ∷ []), phase)) }
{
    let mut inner = config.frames.begun(frame, node)?;
    inner.hold(held)?;
    stops.begin(inner, phase);
    Ok(())
}

/// The node waits at a point for what stopped inside it; what else broke it is handed on.
#[inline(never)]
pub fn waits<S: WorldStore>(
    config: &mut Config<S>,
    frame: &Frame,
    node: NodeId,
    point: Point,
    end: Broken,
    stops: &mut Stops,
) -> Broken
    ensures same { config.new ≡ config.old }
    ensures waits { WaitsAt (at_node frame.now node []) point end stops.old.waits stops.old.top result stops.new.waits stops.new.top }
{
    match end {
        Broken::Stopped => match put_below(config, frame, node, point, stops) {
            Ok(()) => end,
            Err(OutOfMemory) => Broken::OutOfMemory,
        },
        _ => end,
    }
}

fn put_below<S: WorldStore>(
    config: &mut Config<S>,
    frame: &Frame,
    node: NodeId,
    point: Point,
    stops: &mut Stops,
) -> Result<(), OutOfMemory>
    ensures same { config.new ≡ config.old }
    ensures waits { OnOk result (stops.new.waits ≡ record (at_node frame.now node []) { phase = Phase.Waiting point } ∷ stops.old.waits) }
    ensures top { OnOk result (stops.new.top ≡ stops.old.top) }
{
    let inner = config.frames.begun(frame, node)?;
    stops.below(inner, point)
}

/// The same of a node that holds something.
#[inline(never)]
pub fn waits_holding<S: WorldStore>(
    config: &mut Config<S>,
    frame: &Frame,
    node: NodeId,
    held: Held,
    point: Point,
    end: Broken,
    stops: &mut Stops,
) -> Broken
    ensures same { config.new ≡ config.old }
    ensures waits { WaitsAt (at_node frame.now node (held ∷ [])) point end stops.old.waits stops.old.top result stops.new.waits stops.new.top }
{
    match end {
        Broken::Stopped => match put_holding_below(config, frame, node, held, point, stops) {
            Ok(()) => end,
            Err(OutOfMemory) => Broken::OutOfMemory,
        },
        _ => end,
    }
}

fn put_holding_below<S: WorldStore>(
    config: &mut Config<S>,
    frame: &Frame,
    node: NodeId,
    held: Held,
    point: Point,
    stops: &mut Stops,
) -> Result<(), OutOfMemory>
    ensures same { config.new ≡ config.old }
    ensures waits { OnOk result (stops.new.waits ≡ record (at_node frame.now node (held ∷ [])) { phase = Phase.Waiting point } ∷ stops.old.waits) }
    ensures top { OnOk result (stops.new.top ≡ stops.old.top) }
{
    let mut inner = config.frames.begun(frame, node)?;
    inner.hold(held)?;
    stops.below(inner, point)
}
