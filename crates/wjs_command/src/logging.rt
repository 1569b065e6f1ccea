//! The run of a script whose log is written.
ghost use Rattle.std.specs.Prelude.{◌≡◌};
ghost use Rattle.wjs_base.specs.Text.{IsTable};
ghost use Rattle.wjs_io.specs.Streams.{over};
ghost use Rattle.wjs_logs.specs.Telling.{logged};
ghost use Rattle.wjs_store.specs.State.{first_world};
ghost use Rattle.wjs_meaning.specs.Deeds.{St};
ghost use Rattle.wjs_meaning.specs.Programs.{Ending as Meant};
ghost use Rattle.wjs_model.specs.Soundness.{Sound};
ghost use Rattle.wjs_model.specs.Texts.{KnowsUnit, PlacesUnit};
ghost use Rattle.wjs_start.specs.First.{IsNew};
ghost use Rattle.wjs_command.specs.Runs.{LogsRun, line_of_end, status_of_end};
ghost use Rattle.wjs_command.specs.Attempt.{Delivers, Comes, IsEndOf, RunIs, HasThrown, HasLogged, IsLogRun};

use crate::report::{Report, Stop};
use crate::running::{begin, stop_of, tell, write_or_stop};
use std::alloc::Global;
use wjs_audit::Logged;
use wjs_io::{Sink, Unheard};
use wjs_logs::spell_store;
use wjs_machine::{Ending, run};
use wjs_model::{Config, LoadedProgram};
use wjs_store::WorldStore;
use wjs_texts::Texts;

/// Runs a script's program behind the library, with so many steps, over a new store, and writes the log of its actions in place of
/// what it prints.
pub fn log_script<S: WorldStore + Drop, O: Sink>(
    alloc: Global,
    store: S,
    texts: Texts,
    script: LoadedProgram,
    steps: u64,
    out: &mut O,
) -> Result<Report, Stop>
    requires new { IsNew (S.meaning store) }
    requires table { IsTable texts }
    requires script { KnowsUnit texts script }
    requires places { PlacesUnit texts script }
    ensures { Comes (IsLogRun texts script steps) (over O.seen out.old out.new) result }
{
    let config = begin(alloc, Logged::new(alloc, store), texts, script, steps)?;
    log_whole(alloc, config, out)
}

/// Runs to the end, where nobody hears what is printed, and writes the log.
fn log_whole<S: WorldStore + Drop, O: Sink>(
    alloc: Global,
    config: Config<Logged<S>>,
    out: &mut O,
) -> Result<Report, Stop>
    requires sound { Sound (logged S.meaning) config }
    requires first { config.world ≡ first_world }
    ensures { (r : Meant × St) → RunIs (logged S.meaning) config r → Comes (LogsRun r) (over O.seen out.old out.new) result }
{
    let mut config = config;
    let mut nobody = Unheard;
    let ending = run(&mut config, &mut nobody);
    match stop_of(ending) {
        Some(stop) => Err(stop),
        None => conclude_log(alloc, config, ending, out),
    }
}

/// Writes the log of a run that has ended so, and tells of its end.
///
/// The log is taken before the line of a throw is made, which reads the worlds.
fn conclude_log<S: WorldStore + Drop, O: Sink>(
    alloc: Global,
    config: Config<Logged<S>>,
    ending: Ending,
    out: &mut O,
) -> Result<Report, Stop>
    requires sound { Sound (logged S.meaning) config }
    requires first { config.world ≡ first_world }
    requires thrown { HasThrown config ending }
    ensures { (r : Meant × St) → IsEndOf (logged S.meaning) config ending r → HasLogged config r → Comes (LogsRun r) (over O.seen out.old out.new) result }
{
    let log = spell_store(alloc, &config.heap.store, &config.heap.texts)?;
    write_and_tell(alloc, config, ending, log.as_slice(), out)
}

/// Writes the bytes, and tells of the end of a run that has ended so.
fn write_and_tell<S: WorldStore + Drop, O: Sink>(
    alloc: Global,
    config: Config<S>,
    ending: Ending,
    bytes: &[u8],
    out: &mut O,
) -> Result<Report, Stop>
    requires sound { Sound S.meaning config }
    requires first { config.world ≡ first_world }
    requires thrown { HasThrown config ending }
    ensures { (r : Meant × St) → IsEndOf S.meaning config ending r →
        Delivers (record { out = bytes.now; err = line_of_end r.0 r.1; status = status_of_end r.0 }) (over O.seen out.old out.new) result }
{
    match write_or_stop(bytes, out) {
        Ok(()) => {}
        Err(stop) => return Err(stop),
    }
    Ok(tell(alloc, config, ending)?)
}
