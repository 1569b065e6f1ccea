//! The entry of a part.
ghost use Rattle.std.specs.Prelude.{◌≡◌, ◌<◌, [], Some, length, slice_get, OnOk};
ghost use Rattle.wjs_base.specs.declared.ids.ObjId.{ObjId};
ghost use Rattle.wjs_arena.specs.Entries.{world_of};
ghost use Rattle.wjs_model.specs.declared.loaded.LoadedProgram.{LoadedProgram as Program};
ghost use Rattle.wjs_model.specs.Soundness.{Base};
ghost use Rattle.wjs_parts.specs.Entering.{Enters, ShowsWorld, body_frame};

use wjs_arena::Class;
use wjs_base::{OutOfMemory, Value};
use wjs_heap_steps::{builtin, object_of};
use wjs_meaning::Builtin;
use wjs_model::{Activation, Config, Items, Phase, Start, State};
use wjs_store::WorldStore;
use wjs_tree::NodeId;

/// Enters a part, with so many steps, in the world of a configuration that has nothing left to do and for whose world no object
/// stands. Its World object is made, and then its body is due there (ECMA-262, 3rd edition, section 10.2.1).
pub fn enter<S: WorldStore>(
    config: &mut Config<S>,
    part: u32,
    budget: u64,
) -> Result<(), OutOfMemory>
    requires base { Base S.meaning config.old }
    requires frames { config.old.frames ≡ [] }
    requires part { part < length config.old.units.items }
    requires fresh { (o : ObjId) → ¬ (world_of config.old.heap.arena o ≡ Some config.old.world) }
    ensures { OnOk result (Enters S.meaning part budget config.old config.new) }
{
    let body = body_of(config, part);
    show_world(config)?;
    let frame = frame_of(config, part, body);
    let alloc = config.heap.arena.allocator();
    config.frames.add(alloc, frame)?;
    config.left = budget;
    config.state = State::Running;
    Ok(())
}

/// The body of a part.
fn body_of<S: WorldStore>(config: &Config<S>, part: u32) -> NodeId
    requires { part < length config.now.units.items }
    ensures { (u : Program) → slice_get config.now.units.items part ≡ Some u → result ≡ u.program.body }
{
    config.units[part as usize].program.body
}

/// Makes the World object of the configuration's world.
fn show_world<S: WorldStore>(config: &mut Config<S>) -> Result<(), OutOfMemory>
    requires base { Base S.meaning config.old }
    requires fresh { (o : ObjId) → ¬ (world_of config.old.heap.arena o ≡ Some config.old.world) }
    ensures { OnOk result (ShowsWorld S.meaning config.old config.new) }
{
    let prototype = builtin(config, Builtin::WorldPrototype);
    let alloc = config.heap.arena.allocator();
    let mut object = object_of(alloc, Class::World, Some(prototype));
    object.world = Some(config.world);
    let _shown = wjs_props::create(&mut config.heap, config.owner, object)?;
    Ok(())
}

/// The frame of a body, with its step due.
fn frame_of<S: WorldStore>(config: &Config<S>, tree: u32, body: NodeId) -> Activation
    ensures { result ≡ body_frame config.now tree body }
{
    let alloc = config.heap.arena.allocator();
    Activation {
        tree,
        node: body,
        phase: Phase::Due(Start::Program),
        scope: config.global,
        this: Value::Object(config.global),
        world: config.world,
        held: Items::new(alloc),
    }
}
