//! Frames that wait, with another that begins above them, go on, or have a further step due.
ghost use Rattle.std.specs.Prelude.{◌≡◌, OnOk};
ghost use Rattle.wjs_meaning.specs.Deeds.{Ret, Sub, Tick};
ghost use Rattle.wjs_meaning.specs.Reading.{node_in};
ghost use Rattle.wjs_model.specs.Contents.{completion_in, holding_in};
ghost use Rattle.wjs_model.specs.Rest.{begin_at};
ghost use Rattle.wjs_model.specs.Soundness.{HasCompletion, HasItems, HasPoint, HasStart, StandsHere};
ghost use Rattle.wjs_frames.specs.Parts.{env_in, then_at, begins_at, node_among};
ghost use Rattle.wjs_frames.specs.Following.{Later};
ghost use Rattle.wjs_frames.specs.Nesting.{Nests};
ghost use Rattle.wjs_frames.specs.Handling.{Runs, GoesOn};

use crate::part::waiting_at;
use wjs_base::OutOfMemory;
use wjs_model::{Completion, Config, Frame, Items, Phase, Point, Start};
use wjs_store::WorldStore;
use wjs_tree::NodeId;

/// The frame waits at a point for deeds that the caller does next: a conversion, a call.
pub fn wait<S: WorldStore>(
    config: &mut Config<S>,
    frame: Frame,
    point: Point,
) -> Result<(), OutOfMemory>
    requires runs { Runs S.meaning config.old frame }
    requires point { HasPoint config.old frame point }
    ensures nests { OnOk result (Nests S.meaning (λ t.
        then_at S.meaning config.old frame point t (env_in S.meaning config.old t frame)) config.old config.new) }
    ensures same { OnOk result (config.new ≡ record config.old { frames = config.new.frames }) }
    ensures later { OnOk result (Later S.meaning config.old config.new) }
{
    config.frames.push(waiting_at(frame, point))?;
    Ok(())
}

/// The frame waits at a point, and another begins above it at a node, where the frame is run and with no step of its own.
pub fn nest<S: WorldStore>(
    config: &mut Config<S>,
    frame: Frame,
    point: Point,
    start: Start,
    node: NodeId,
    held: Items,
) -> Result<(), OutOfMemory>
    requires runs { Runs S.meaning config.old frame }
    requires point { HasPoint config.old frame point }
    requires start { HasStart config.old start }
    requires held { HasItems config.old held }
    requires node { StandsHere config.old frame node }
    ensures { GoesOn S.meaning frame config.old config.new result (λ t env.
        Sub (begin_at start node.0 (node_in t (node_among config.old.units.items frame.tree node)) (holding_in t held) env)
        (then_at S.meaning config.old frame point t env)) }
{
    let waiting = waiting_at(frame, point);
    config.frames.push_ready(waiting, start, node, held)?;
    Ok(())
}

/// A further step of the frame is due, and then what it begins with.
pub fn due_later<S: WorldStore>(
    config: &mut Config<S>,
    frame: Frame,
    start: Start,
) -> Result<(), OutOfMemory>
    requires runs { Runs S.meaning config.old frame }
    requires start { HasStart config.old start }
    ensures { GoesOn S.meaning frame config.old config.new result (λ t env. Tick (begins_at S.meaning config.old frame start t env)) }
{
    config.frames.push_at(frame, Phase::Due(start))?;
    Ok(())
}

/// The frame goes on at a point with a completion that was had at once, in a turn of its own.
pub fn go_on_with<S: WorldStore>(
    config: &mut Config<S>,
    frame: Frame,
    point: Point,
    completion: Completion,
) -> Result<(), OutOfMemory>
    requires runs { Runs S.meaning config.old frame }
    requires point { HasPoint config.old frame point }
    requires completion { HasCompletion config.old completion }
    ensures { GoesOn S.meaning frame config.old config.new result (λ t env.
        Sub (Ret (completion_in t completion)) (then_at S.meaning config.old frame point t env)) }
{
    config
        .frames
        .push_at(frame, Phase::Given(point, completion))?;
    Ok(())
}
