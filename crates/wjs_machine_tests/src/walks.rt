//! Parts that are entered, and walks of a run that rests between them.
ghost use Rattle.std.specs.Prelude.{◌≡◌, ◌<◌, ◌≤◌, ◌+◌, length, IfOk, IfSome, OnOk};
ghost use Rattle.std.specs.Option.{option_map_or};
ghost use Rattle.wjs_base.specs.Text.{IsTable};
ghost use Rattle.wjs_model.specs.Soundness.{Base, Sound};
ghost use Rattle.wjs_model.specs.Texts.{KnowsUnit, PlacesUnit};
ghost use Rattle.wjs_start.specs.First.{IsNew};

use std::alloc::Global;
use wjs_base::OutOfMemory;
use wjs_heap_steps::sprout;
use wjs_model::{Config, Frames, LoadedProgram, State};
use wjs_parts::{enter, start_parts};
use wjs_store::WorldStore;
use wjs_texts::Texts;
use wjs_turns::walk;

/// Takes so many steps at most, where the run goes on, and gives how many. It may rest then, and walk on.
pub fn walk_on<S: WorldStore>(config: &mut Config<S>, steps: u64) -> Result<u64, OutOfMemory>
    requires { Sound S.meaning config.old }
    ensures sound { OnOk result (Sound S.meaning config.new) }
    ensures units { OnOk result (config.new.units ≡ config.old.units) }
    ensures most { IfOk result (λ taken. taken ≤ steps) }
    ensures left { IfOk result (λ taken. config.old.left ≡ taken + config.new.left) }
{
    match config.state {
        State::Running => walk(config, steps),
        _ => Ok(0),
    }
}

/// Drops what is left to do of a run, and enters a program of it in a new child of its world, with so many steps.
pub fn enter_below<S: WorldStore>(
    config: &mut Config<S>,
    part: u32,
    budget: u64,
) -> Result<(), OutOfMemory>
    requires base { Base S.meaning config.old }
    requires part { part < length config.old.units.items }
    ensures sound { OnOk result (Sound S.meaning config.new) }
    ensures units { OnOk result (config.new.units ≡ config.old.units) }
    ensures running { OnOk result (config.new.state ≡ State.Running) }
    ensures left { OnOk result (config.new.left ≡ budget) }
{
    let world = config.world;
    let child = sprout(config, world, false)?;
    config.world = child;
    config.frames = Frames::new(config.heap.arena.allocator());
    enter(config, part, budget)
}

/// Runs a library's program to its end, where there is one, and then a part in a child of the first world, each with so many steps.
pub fn run_part<S: WorldStore + Drop>(
    alloc: Global,
    texts: Texts,
    store: S,
    library: Option<LoadedProgram>,
    part: LoadedProgram,
    budget: u64,
) -> Result<Config<S>, OutOfMemory>
    requires table { IsTable texts }
    requires new { IsNew (S.meaning store) }
    requires library { IfSome library (KnowsUnit texts) }
    requires part { KnowsUnit texts part }
    requires library_places { IfSome library (PlacesUnit texts) }
    requires part_places { PlacesUnit texts part }
    ensures { IfOk result (Sound S.meaning) }
{
    let number = number_behind(&library);
    let mut parts = Vec::new(alloc);
    parts.push(part)?;
    let mut config = start_parts(alloc, texts, store, library, parts, budget)?;
    walk_on(&mut config, budget)?;
    enter_below(&mut config, number, budget)?;
    walk_on(&mut config, budget)?;
    Ok(config)
}

/// The number of the first program behind a library.
fn number_behind(library: &Option<LoadedProgram>) -> u32
    ensures { result ≡ option_map_or (λ _. 1) library.now 0 }
{
    match library {
        None => 0,
        Some(_) => 1,
    }
}
