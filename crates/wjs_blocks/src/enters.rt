//! Parts that are entered elsewhere than where the frame is run.
ghost use Rattle.std.specs.Prelude.{◌≡◌, Some, IfOk};
ghost use Rattle.wjs_arena.specs.Entries.{scope_of};
ghost use Rattle.wjs_meaning.specs.Deeds.{Eval, Ret};
ghost use Rattle.wjs_model.specs.Soundness.{HasObject, HasPoint, HasWorld, StandsHere};
ghost use Rattle.wjs_model.specs.Standing.{Stands, IsShown};
ghost use Rattle.wjs_frames.specs.Parts.{then_at, goal_of, node_of};
ghost use Rattle.wjs_frames.specs.Handling.{Runs, GoesOn};

use std::alloc::Global;
use wjs_base::{ObjId, OutOfMemory, WorldId};
use wjs_frames::{Part, enter_last, wait};
use wjs_model::{Config, Frame, Items, Point};
use wjs_store::WorldStore;

/// The frame without what it holds, for a part that is run in another scope.
fn like(alloc: Global, frame: &Frame, scope: ObjId, held: Items) -> Result<Frame, OutOfMemory>
    ensures { IfOk result (λ inner. inner ≡ record frame.now { scope = scope; held = held }) }
{
    let mut inner = frame.like(alloc, held)?;
    inner.set_scope(scope);
    Ok(inner)
}

/// The frame waits at a point for a part, which is entered in a scope inside the frame's.
pub(crate) fn enter_in<S: WorldStore>(
    config: &mut Config<S>,
    frame: Frame,
    point: Point,
    scope: ObjId,
    part: Part,
) -> Result<(), OutOfMemory>
    requires runs { Runs S.meaning config.old frame }
    requires point { HasPoint config.old frame point }
    requires scope { HasObject config.old scope }
    requires outer { scope_of config.old.heap.arena scope ≡ Some frame.scope }
    requires part { Stands config.old.units.items config.old.heap.arena frame.tree (node_of part) scope 0 }
    ensures { GoesOn S.meaning frame config.old config.new result (λ t env.
        Eval (goal_of part) (record env { scope = scope }) (then_at S.meaning config.old frame point t env)) }
{
    let alloc = config.heap.arena.allocator();
    let inner = like(alloc, &frame, scope, config.frames.nothing_held())?;
    wait(config, frame, point)?;
    enter_last(config, inner, part)
}

/// A part is entered in the place of the frame that was taken off, in a world.
pub(crate) fn enter_within<S: WorldStore>(
    config: &mut Config<S>,
    frame: Frame,
    world: WorldId,
    part: Part,
) -> Result<(), OutOfMemory>
    requires runs { Runs S.meaning config.old frame }
    requires world { HasWorld S.meaning config.old world }
    requires shown { IsShown config.old.heap.arena world }
    requires part { StandsHere config.old frame (node_of part) }
    ensures { GoesOn S.meaning frame config.old config.new result (λ t env. Eval (goal_of part) (record env { world = world }) Ret) }
{
    let mut frame = frame;
    frame.set_world(world);
    enter_last(config, frame, part)
}
