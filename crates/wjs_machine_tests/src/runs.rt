//! Runs over a store that may tell its actions.
ghost use Rattle.std.specs.Prelude.{◌≡◌, IfOk, IfSome};
ghost use Rattle.std.specs.Option.{option_map};
ghost use Rattle.wjs_base.specs.Text.{IsTable};
ghost use Rattle.wjs_meaning.specs.Programs.{machine};
ghost use Rattle.wjs_model.specs.Soundness.{Sound};
ghost use Rattle.wjs_model.specs.Texts.{KnowsUnit, PlacesUnit};
ghost use Rattle.wjs_model.specs.Units.{unit_in};
ghost use Rattle.wjs_start.specs.First.{IsNew};
ghost use Rattle.wjs_machine_tests.specs.Telling.{told_by_store, HasTold, told_of_run};

use std::alloc::Global;
use wjs_base::OutOfMemory;
use wjs_io::Unheard;
use wjs_machine::{Ending, run};
use wjs_model::{Config, LoadedProgram};
use wjs_start::start;
use wjs_store::WorldStore;
use wjs_texts::Texts;

/// Runs a configuration to its end, and hears nothing of its output. Where memory does not run out, the store then tells the
/// actions of the run, if it tells any.
pub fn run_unheard<S: WorldStore>(config: &mut Config<S>) -> Ending
    requires { Sound S.meaning config.old }
    ensures { HasTold S.meaning config.old config.new result }
{
    let mut nobody = Unheard;
    run(config, &mut nobody)
}

/// Runs a library's program, where there is one, and then a script's, with so many steps, over a new store. A store that tells its
/// actions then tells the writes of the first slots, and behind them the actions of the machine's run.
pub fn run_program<S: WorldStore + Drop>(
    alloc: Global,
    texts: Texts,
    store: S,
    library: Option<LoadedProgram>,
    script: LoadedProgram,
    budget: u64,
) -> Result<Config<S>, OutOfMemory>
    requires table { IsTable texts }
    requires new { IsNew (S.meaning store) }
    requires library { IfSome library (KnowsUnit texts) }
    requires script { KnowsUnit texts script }
    requires library_places { IfSome library (PlacesUnit texts) }
    requires script_places { PlacesUnit texts script }
    ensures { IfOk result
        (λ config. told_by_store S.meaning config ≡ told_of_run (S.meaning store).told
        (machine (option_map (unit_in texts) library) (unit_in texts script) budget)) }
{
    let mut config = start(alloc, texts, store, library, script, budget)?;
    match run_unheard(&mut config) {
        Ending::OutOfMemory => Err(OutOfMemory),
        _ => Ok(config),
    }
}
