//! A run before its first step.
ghost use Rattle.std.specs.Prelude.{◌≡◌, IfOk, IfSome};
ghost use Rattle.std.specs.Option.{option_map};
ghost use Rattle.wjs_base.specs.Text.{IsTable};
ghost use Rattle.wjs_model.specs.Soundness.{Sound};
ghost use Rattle.wjs_model.specs.Texts.{KnowsUnit, PlacesUnit};
ghost use Rattle.wjs_start.specs.First.{IsNew};
ghost use Rattle.wjs_start.specs.Starting.{Starts, body_of, frame_at, frames_of, units_of};

use crate::blueprints::FIRST_WORLD;
use crate::builtins::GLOBAL_OBJECT;
use crate::heap::first_heap;
use crate::script::script_names;
use std::alloc::Global;
use wjs_base::{OutOfMemory, Value};
use wjs_model::{
    Activation, CallPoint, Config, Frames, Items, LoadedProgram, Phase, Point, Start, State,
};
use wjs_store::WorldStore;
use wjs_texts::Texts;
use wjs_tree::NodeId;

/// A run of a library's program, where there is one, and then of a script's, before the first step and with so many steps
/// (ECMA-262, 3rd edition, section 10.2.1). It makes what there is before the first step over a new store. The programs' texts
/// are in the table, and keep their numbers.
pub fn start<S: WorldStore + Drop>(
    alloc: Global,
    texts: Texts,
    store: S,
    library: Option<LoadedProgram>,
    script: LoadedProgram,
    budget: u64,
) -> Result<Config<S>, OutOfMemory>
    requires table { IsTable texts }
    requires new { IsNew (S.meaning store) }
    requires library { IfSome library (KnowsUnit texts) }
    requires script { KnowsUnit texts script }
    requires library_places { IfSome library (PlacesUnit texts) }
    requires script_places { PlacesUnit texts script }
    ensures starts { IfOk result (Starts S.meaning texts (S.meaning store) library script budget) }
    ensures sound { IfOk result (Sound S.meaning) }
{
    let names = script_names(alloc, &script)?;
    let frames = first_frames(alloc, &library, &script)?;
    let units = units_of(alloc, library, script)?;
    let heap = first_heap(alloc, texts, store, names.as_slice())?;
    Ok(Config {
        heap,
        units,
        frames,
        global: GLOBAL_OBJECT,
        world: FIRST_WORLD,
        owner: 0,
        apart: Vec::new(alloc),
        pending: Vec::new(alloc),
        left: budget,
        state: State::Running,
    })
}

/// The library's body above the script's, which waits for it; without a library the script's body alone.
fn first_frames(
    alloc: Global,
    library: &Option<LoadedProgram>,
    script: &LoadedProgram,
) -> Result<Frames, OutOfMemory>
    ensures { IfOk result (λ frames. frames ≡ frames_of (option_map body_of library.now) (body_of script.now)) }
{
    let begins = Phase::Due(Start::Program);
    let waits = Phase::Waiting(Point::Call(CallPoint::NextProgram));
    let mut frames = Frames::new(alloc);
    match library {
        None => {
            frames.add(alloc, program_frame(alloc, 0, script.program.body, begins))?;
        }
        Some(library) => {
            frames.add(alloc, program_frame(alloc, 1, script.program.body, waits))?;
            frames.add(alloc, program_frame(alloc, 0, library.program.body, begins))?;
        }
    }
    Ok(frames)
}

/// The frame of a program's body, in the first world and on the global object.
pub fn program_frame(alloc: Global, tree: u32, body: NodeId, phase: Phase) -> Activation
    ensures { result ≡ frame_at tree body phase }
{
    Activation {
        tree,
        node: body,
        phase,
        scope: GLOBAL_OBJECT,
        this: Value::Object(GLOBAL_OBJECT),
        world: FIRST_WORLD,
        held: Items::new(alloc),
    }
}

/// The programs of the run, the library's first.
fn units_of(
    alloc: Global,
    library: Option<LoadedProgram>,
    script: LoadedProgram,
) -> Result<Vec<LoadedProgram>, OutOfMemory>
    ensures { IfOk result (λ units. units.items ≡ units_of library script) }
{
    let mut units = Vec::new(alloc);
    if let Some(library) = library {
        units.push(library)?;
    }
    units.push(script)?;
    Ok(units)
}
