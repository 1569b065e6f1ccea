//! The loop `for`-`in`: the store of a name, and the frames that hold its visits where one stops (ECMA-262, 3rd edition, section
//! 12.6.4).
ghost use Rattle.std.specs.Prelude.{◌≡◌, ◌∷◌, IfOk, OnOk};
ghost use Rattle.wjs_by_content.specs.Tables.{name_in};
ghost use Rattle.wjs_by_content.specs.Values.{String};
ghost use Rattle.wjs_effects.specs.Effects.{stored};
ghost use Rattle.wjs_meaning.specs.Deeds.{Normal};
ghost use Rattle.wjs_model.specs.Contents.{completion_in, reference_in};
ghost use Rattle.wjs_model.specs.Soundness.{Base, HasCompletion, HasReference, HasSlot, IsThere};
ghost use Rattle.wjs_frames.specs.Doing.{Does};
ghost use Rattle.wjs_frames.specs.Following.{Later};
ghost use Rattle.wjs_frames.specs.Parts.{env_in};
ghost use Rattle.wjs_stopping.specs.Waiting.{WaitsAt, at_node, waiting_at};

use wjs_base::{OutOfMemory, Slot, Value};
use wjs_effects::store_and_end;
use wjs_heap_steps::text_of;
use wjs_model::{Completion, Config, Frame, Held, Point, Reference, StmtPoint};
use wjs_stopping::{Broken, Stops};
use wjs_store::WorldStore;
use wjs_tree::NodeId;

/// The store of a visit's name, and how it ends: normally, or by what it throws.
pub fn store_name<S: WorldStore>(
    config: &mut Config<S>,
    frame: &Frame,
    slot: Slot,
    reference: Reference,
) -> Result<Completion, OutOfMemory>
    requires base { Base S.meaning config.old }
    requires there { IsThere S.meaning config.old frame.now }
    requires slot { HasSlot config.old slot }
    requires reference { HasReference config.old reference }
    ensures does { IfOk result (λ e. Does S.meaning
        (λ t. stored (reference_in t reference) (String (name_in t slot.name)) (env_in S.meaning config.old t frame.now) Normal)
        (λ t. completion_in t e) config.old config.new) }
    ensures later { OnOk result (Later S.meaning config.old config.new) }
    ensures found { IfOk result (λ e. HasCompletion config.new e) }
{
    let id = text_of(config, slot.name)?;
    let end = store_and_end(
        config,
        frame,
        reference,
        Value::Text(id),
        Completion::Normal,
    )?;
    Ok(end)
}

/// Where the body stopped, the node waits at this point with the visits that are left; what was thrown is handed on.
#[inline(never)]
pub fn visits_wait<S: WorldStore>(
    config: &mut Config<S>,
    frame: &Frame,
    node: NodeId,
    visits: &mut Frame,
    point: Point,
    end: Broken,
    stops: &mut Stops,
) -> Broken
    ensures same { config.new ≡ config.old }
    ensures waits { WaitsAt (at_node frame.now node visits.old.held) point
        end stops.old.waits stops.old.top result stops.new.waits stops.new.top }
{
    match end {
        Broken::Stopped => match put_visits(config, frame, node, visits, point, stops) {
            Ok(()) => end,
            Err(OutOfMemory) => Broken::OutOfMemory,
        },
        _ => end,
    }
}

/// A frame of the node takes over the visits that are left, and waits at this point.
fn put_visits<S: WorldStore>(
    config: &mut Config<S>,
    frame: &Frame,
    node: NodeId,
    visits: &mut Frame,
    point: Point,
    stops: &mut Stops,
) -> Result<(), OutOfMemory>
    ensures same { config.new ≡ config.old }
    ensures waits { OnOk result (stops.new.waits ≡ waiting_at (at_node frame.now node visits.old.held) point ∷ stops.old.waits) }
    ensures top { OnOk result (stops.new.top ≡ stops.old.top) }
{
    let mut inner = config.frames.begun(frame, node)?;
    let held = visits.replace_held(config.frames.nothing_held());
    inner.set_held(held);
    stops.below(inner, point)
}

/// Where the target stopped, the node waits for it with its visit and those that are left; what was thrown is handed on.
#[inline(never)]
pub fn target_waits<S: WorldStore>(
    config: &mut Config<S>,
    frame: &Frame,
    node: NodeId,
    body: NodeId,
    slot: Slot,
    visits: &mut Frame,
    end: Broken,
    stops: &mut Stops,
) -> Broken
    ensures same { config.new ≡ config.old }
    ensures waits { WaitsAt (at_node frame.now node (Held.Visit slot ∷ visits.old.held)) (Point.Stmt (StmtPoint.VisitTarget body))
        end stops.old.waits stops.old.top result stops.new.waits stops.new.top }
{
    match end {
        Broken::Stopped => match put_target(config, frame, node, body, slot, visits, stops) {
            Ok(()) => end,
            Err(OutOfMemory) => Broken::OutOfMemory,
        },
        _ => end,
    }
}

fn put_target<S: WorldStore>(
    config: &mut Config<S>,
    frame: &Frame,
    node: NodeId,
    body: NodeId,
    slot: Slot,
    visits: &mut Frame,
    stops: &mut Stops,
) -> Result<(), OutOfMemory>
    ensures same { config.new ≡ config.old }
    ensures waits { OnOk result (stops.new.waits
        ≡ waiting_at (at_node frame.now node (Held.Visit slot ∷ visits.old.held)) (Point.Stmt (StmtPoint.VisitTarget body)) ∷ stops.old.waits) }
    ensures top { OnOk result (stops.new.top ≡ stops.old.top) }
{
    visits.hold(Held::Visit(slot))?;
    let point = Point::Stmt(StmtPoint::VisitTarget(body));
    put_visits(config, frame, node, visits, point, stops)
}
