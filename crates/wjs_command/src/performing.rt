//! The bytes of a script, checked, run or logged, those of several, played, or those of a log, audited.
ghost use Rattle.std.specs.Prelude.{◌≡◌, ◌≢◌, ◌≤◌, [], codes, length};
ghost use Rattle.wjs_io.specs.Streams.{over};
ghost use Rattle.wjs_start.specs.First.{IsNew};
ghost use Rattle.wjs_command.specs.declared.status.Status.TheVariants as statuses;
ghost use Rattle.wjs_command.specs.Table.{line};
ghost use Rattle.wjs_command.specs.Plays.{PlayedAlone};
ghost use Rattle.wjs_command.specs.Due.{most_of, IsTold, owed_in};
ghost use Rattle.wjs_command.specs.Attempt.{Delivers, Comes, ComesAlone, RefusesAs};

use crate::auditing::audit;
use crate::logging::log_script;
use crate::playing::play_parts;
use crate::report::{Report, Stop, done, refuse};
use crate::running::{run_script, write_or_stop};
use std::alloc::Global;
use wjs_io::Sink;
use wjs_load::{LoadFault, load};
use wjs_options::{Mode, Options};
use wjs_overlay::Overlay;
use wjs_store::WorldStore;
use wjs_texts::Texts;

/// Does what the options ask with the bytes, in sparse worlds.
pub fn perform<O: Sink>(
    alloc: Global,
    options: Options,
    bytes: &[u8],
    out: &mut O,
) -> Result<Report, Stop>
    requires within { length bytes.now ≤ most_of options.mode }
    requires steps { options.mode ≡ Mode.Play → 1 ≤ options.steps }
    requires turn { options.mode ≡ Mode.Play → 1 ≤ options.turn }
    ensures told { Comes (IsTold options bytes.now) (over O.seen out.old out.new) result }

    // What a play wrote is what its scripts print alone.
    ensures alone { options.mode ≡ Mode.Play → ComesAlone (PlayedAlone options.steps bytes.now) (over O.seen out.old out.new) result }
{
    match options.mode {
        Mode::Play => play_parts(alloc, bytes, options.steps, options.turn, out),
        _ => perform_one(alloc, options, bytes, out),
    }
}

/// Does what the options ask with the bytes of one script or log.
fn perform_one<O: Sink>(
    alloc: Global,
    options: Options,
    bytes: &[u8],
    out: &mut O,
) -> Result<Report, Stop>
    requires mode { options.mode ≢ Mode.Play }
    requires within { length bytes.now ≤ most_of options.mode }
    ensures { Comes (IsTold options bytes.now) (over O.seen out.old out.new) result }
{
    let store = Overlay::new(alloc)?;
    perform_in(alloc, store, options, bytes, out)
}

/// Does what the options ask with the bytes of one script or log, over a new store of worlds, which may tell its actions.
pub fn perform_in<S: WorldStore + Drop, O: Sink>(
    alloc: Global,
    store: S,
    options: Options,
    bytes: &[u8],
    out: &mut O,
) -> Result<Report, Stop>
    requires new { IsNew (S.meaning store) }
    requires mode { options.mode ≢ Mode.Play }
    requires within { length bytes.now ≤ most_of options.mode }
    ensures { Comes (IsTold options bytes.now) (over O.seen out.old out.new) result }
{
    match options.mode {
        Mode::Audit => audit(alloc, store, bytes, out),
        _ => perform_script(alloc, store, options, bytes, out),
    }
}

/// Does what the options ask with a script's bytes.
fn perform_script<S: WorldStore + Drop, O: Sink>(
    alloc: Global,
    store: S,
    options: Options,
    bytes: &[u8],
    out: &mut O,
) -> Result<Report, Stop>
    requires new { IsNew (S.meaning store) }
    requires mode { options.mode ≢ Mode.Audit }
    requires script { options.mode ≢ Mode.Play }
    requires within { length bytes.now ≤ most_of options.mode }
    ensures { Comes (owed_in options.mode options.steps options.turn bytes.now) (over O.seen out.old out.new) result }
{
    let mut texts = Texts::new(alloc)?;
    let script = match load(alloc, bytes, &mut texts) {
        Ok(script) => script,
        Err(fault) => return refuse_or_stop(alloc, fault),
    };
    match options.mode {
        Mode::Check => accept(alloc, out),
        Mode::Log => log_script(alloc, store, texts, script, options.steps, out),
        mode => run_script(alloc, store, texts, script, options.steps, mode, out),
    }
}

/// The report of bytes that are no script.
fn refuse_or_stop(alloc: Global, fault: LoadFault) -> Result<Report, Stop>
    ensures { RefusesAs fault result }
{
    match fault {
        LoadFault::Refused(refusal) => Ok(refuse(alloc, refusal)?),
        LoadFault::OutOfMemory => Err(Stop::OutOfMemory),
    }
}

/// Says that the bytes are a script.
fn accept<O: Sink>(alloc: Global, out: &mut O) -> Result<Report, Stop>
    ensures { Delivers (record { out = line (codes "ok"); err = []; status = statuses.Done }) (over O.seen out.old out.new) result }
{
    match write_or_stop(b"ok\n", out) {
        Ok(()) => Ok(done(alloc)),
        Err(stop) => Err(stop),
    }
}
