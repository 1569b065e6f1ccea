//! The run of a script, over any store of worlds.
ghost use Rattle.std.specs.Prelude.{◌≡◌, ◌≤◌, [], IfOk};
ghost use Rattle.wjs_base.specs.Text.{IsTable};
ghost use Rattle.wjs_store.specs.Meaning.{worlds};
ghost use Rattle.wjs_io.specs.Streams.{over};
ghost use Rattle.wjs_by_content.specs.Worlds.{worlds_in, KnowsWorlds};
ghost use Rattle.wjs_store.specs.State.{first_world};
ghost use Rattle.wjs_meaning.specs.Deeds.{St};
ghost use Rattle.wjs_meaning.specs.Programs.{Ending as Meant};
ghost use Rattle.wjs_model.specs.Soundness.{Sound};
ghost use Rattle.wjs_model.specs.Texts.{KnowsUnit, PlacesUnit};
ghost use Rattle.wjs_start.specs.First.{IsNew};
ghost use Rattle.wjs_reports.specs.Lines.{lines_of};
ghost use Rattle.wjs_command.specs.Runs.{told_by_run, line_of_end, status_of_end, behind_output};
ghost use Rattle.wjs_command.specs.Attempt.{IsReport, Delivers, Comes, Writes, IsEndOf, RunIs, Begins, HasThrown, IsRunOf, stop_in};

use crate::report::{Report, Stop, done, report_line};
use crate::status::Status;
use std::alloc::Global;
use std::mem::ManuallyDrop;
use wjs_base::{OutOfMemory, Value};
use wjs_io::{Sink, write_pieces};
use wjs_load::library;
use wjs_machine::{Ending, run};
use wjs_model::{Config, LoadedProgram};
use wjs_options::Mode;
use wjs_reports::{show_thrown, world_lines};
use wjs_start::start;
use wjs_store::WorldStore;
use wjs_texts::Texts;

/// Runs a script's program behind the library, with so many steps, over a new store. What stands behind its output goes by the mode.
pub fn run_script<S: WorldStore + Drop, O: Sink>(
    alloc: Global,
    store: S,
    texts: Texts,
    script: LoadedProgram,
    steps: u64,
    mode: Mode,
    out: &mut O,
) -> Result<Report, Stop>
    requires new { IsNew (S.meaning store) }
    requires table { IsTable texts }
    requires script { KnowsUnit texts script }
    requires places { PlacesUnit texts script }
    ensures { Comes (IsRunOf texts script steps mode) (over O.seen out.old out.new) result }
{
    let config = begin(alloc, store, texts, script, steps)?;
    run_whole(alloc, config, mode, out)
}

/// The run before its first step.
pub fn begin<S: WorldStore + Drop>(
    alloc: Global,
    store: S,
    texts: Texts,
    script: LoadedProgram,
    steps: u64,
) -> Result<Config<S>, OutOfMemory>
    requires new { IsNew (S.meaning store) }
    requires table { IsTable texts }
    requires script { KnowsUnit texts script }
    requires places { PlacesUnit texts script }
    ensures { IfOk result (Begins S.meaning texts script steps) }
{
    let mut texts = texts;
    let library = library(alloc, &mut texts)?;
    start(alloc, texts, store, library, script, steps)
}

/// Runs to the end, and tells of it.
fn run_whole<S: WorldStore + Drop, O: Sink>(
    alloc: Global,
    config: Config<S>,
    mode: Mode,
    out: &mut O,
) -> Result<Report, Stop>
    requires sound { Sound S.meaning config }
    requires first { config.world ≡ first_world }
    ensures { (r : Meant × St) → RunIs S.meaning config r → Delivers (told_by_run mode r) (over O.seen out.old out.new) result }
{
    let mut config = config;
    let ending = run(&mut config, out);
    match stop_of(ending) {
        Some(stop) => Err(stop),
        None => conclude(alloc, config, mode, ending, out),
    }
}

/// Why a run was stopped before its end.
pub fn stop_of(ending: Ending) -> Option<Stop>
    ensures { result ≡ stop_in ending }
{
    match ending {
        Ending::SinkFailed => Some(Stop::OutFault),
        Ending::OutOfMemory => Some(Stop::OutOfMemory),
        _ => None,
    }
}

/// Writes what stands behind the output of a run that has ended so, and tells of its end.
fn conclude<S: WorldStore + Drop, O: Sink>(
    alloc: Global,
    config: Config<S>,
    mode: Mode,
    ending: Ending,
    out: &mut O,
) -> Result<Report, Stop>
    requires sound { Sound S.meaning config }
    requires first { config.world ≡ first_world }
    requires thrown { HasThrown config ending }
    ensures { (r : Meant × St) → IsEndOf S.meaning config ending r →
        Delivers (record { out = behind_output mode r.1; err = line_of_end r.0 r.1; status = status_of_end r.0 }) (over O.seen out.old out.new) result }
{
    match write_behind(alloc, &config, mode, out) {
        Ok(()) => {}
        Err(stop) => return Err(stop),
    }
    Ok(tell(alloc, config, ending)?)
}

/// Writes what stands behind the output.
fn write_behind<S: WorldStore, O: Sink>(
    alloc: Global,
    config: &Config<S>,
    mode: Mode,
    out: &mut O,
) -> Result<(), Stop>
    requires sound { Sound S.meaning config.now }
    ensures { (st : St) → st.full ≡ worlds_in config.now.heap.texts (worlds (S.meaning config.now.heap.store)) →
        Writes (behind_output mode st) (over O.seen out.old out.new) result }
{
    match mode {
        Mode::Tree => write_worlds(alloc, config, out),
        _ => Ok(()),
    }
}

/// Writes a line for each world.
fn write_worlds<S: WorldStore, O: Sink>(
    alloc: Global,
    config: &Config<S>,
    out: &mut O,
) -> Result<(), Stop>
    requires sound { Sound S.meaning config.now }
    ensures { Writes (lines_of (worlds_in config.now.heap.texts (worlds (S.meaning config.now.heap.store)))) (over O.seen out.old out.new) result }
{
    let lines = world_lines(alloc, &config.heap.store)?;
    write_or_stop(lines.as_slice(), out)
}

/// Writes bytes in pieces.
pub fn write_or_stop<O: Sink>(bytes: &[u8], out: &mut O) -> Result<(), Stop>
    ensures { Writes bytes.now (over O.seen out.old out.new) result }
{
    match write_pieces(out, bytes) {
        Ok(()) => Ok(()),
        Err(_) => Err(Stop::OutFault),
    }
}

/// The report of a run that has ended so.
pub fn tell<S: WorldStore + Drop>(
    alloc: Global,
    config: Config<S>,
    ending: Ending,
) -> Result<Report, OutOfMemory>
    requires sound { Sound S.meaning config }
    requires first { config.world ≡ first_world }
    requires thrown { HasThrown config ending }
    ensures { IfOk result (λ report. (r : Meant × St) → IsEndOf S.meaning config ending r → IsReport (status_of_end r.0) (line_of_end r.0 r.1) report) }
{
    match ending {
        Ending::Threw(value) => tell_thrown(alloc, config, value),
        Ending::StepsSpent => {
            leave(config);
            report_line(alloc, Status::StepsSpent, b"step budget spent", b"")
        }
        _ => {
            leave(config);
            Ok(done(alloc))
        }
    }
}

/// Leaves what a run holds that has ended. The process ends next, and its memory with it: to give back each object's rows first took
/// a twentieth of a run that calls functions.
fn leave<S: WorldStore + Drop>(config: Config<S>) {
    let _left = ManuallyDrop::new(config);
}

/// The report of a run that threw this value.
fn tell_thrown<S: WorldStore + Drop>(
    alloc: Global,
    config: Config<S>,
    value: Value,
) -> Result<Report, OutOfMemory>
    requires sound { Sound S.meaning config }
    requires first { config.world ≡ first_world }
    requires thrown { HasThrown config (Ending.Threw value) }
    ensures { IfOk result
        (λ report. (r : Meant × St) → IsEndOf S.meaning config (Ending.Threw value) r → IsReport (status_of_end r.0) (line_of_end r.0 r.1) report) }
{
    let mut config = config;
    let text = show_thrown(&mut config, value)?;
    report_line(alloc, Status::Threw, b"uncaught ", text.as_slice())
}
