//! The work of the program, from its words and the bytes of its source to what it writes.
ghost use Rattle.std.specs.Prelude.{◌≡◌, ◌≢◌, ◌≤◌, map, Ok, Err};
ghost use Rattle.std.specs.String.{string_bytes};
ghost use Rattle.wjs_io.specs.Streams.{over};
ghost use Rattle.wjs_gen.specs.Script.{script};
ghost use Rattle.wjs_command.specs.Due.{most_of, IsTold};
ghost use Rattle.wjs_command.specs.Attempt.{Attempts, Serves, Comes, Reports, Finishes};
ghost use Rattle.wjs_command.specs.Command.{Ends, Causes};

use crate::performing::perform;
use crate::report::{Report, Stop, refuse_by};
use crate::status::Status;
use std::alloc::Global;
use wjs_gen::script_of;
use wjs_io::{ReadFault, Sink, Source, read_all, write_all_of};
use wjs_options::{Mode, Options, WordsFault, options};

/// The most bytes that are read: those of a script, or of a log that is audited.
fn most_bytes(mode: Mode) -> u64
    ensures { result ≡ most_of mode }
{
    match mode {
        Mode::Audit => 67_108_864,
        _ => 16_777_216,
    }
}

/// Generates the script that the options ask for, and runs it.
fn generate<O: Sink>(alloc: Global, options: Options, out: &mut O) -> Result<Report, Stop>
    requires mode { options.mode ≡ Mode.Gen }
    requires least { 1 ≤ options.number }
    requires greatest { options.number ≤ 50000 }
    ensures { Comes (IsTold options (script options.number)) (over O.seen out.old out.new) result }
{
    let bytes = script_of(alloc, options.number)?;
    perform(alloc, options, bytes.as_slice(), out)
}

/// Reads the source to its end, and does what the options ask with the bytes that it gives.
fn read<S: Source, O: Sink>(
    alloc: Global,
    options: Options,
    source: &mut S,
    out: &mut O,
) -> Result<Report, Stop>
    requires mode { options.mode ≢ Mode.Gen }
    requires steps { 1 ≤ options.steps }
    requires turn { 1 ≤ options.turn }
    ensures { Serves options (over S.seen source.old source.new) (over O.seen out.old out.new) result }
{
    match read_all(alloc, source, most_bytes(options.mode)) {
        Ok(bytes) => perform(alloc, options, bytes.as_slice(), out),
        // A source that gave too many bytes.
        Err(ReadFault::TooLong) => refuse_by(alloc, b"too long"),
        Err(ReadFault::Failed) => Err(Stop::ReadFault),
        Err(ReadFault::OutOfMemory) => Err(Stop::OutOfMemory),
    }
}

/// Does what the options ask, with the bytes that the source gives or a script that is generated.
fn obey<S: Source, O: Sink>(
    alloc: Global,
    options: Options,
    source: &mut S,
    out: &mut O,
) -> Result<Report, Stop>
    requires least { 1 ≤ options.number }
    requires greatest { options.number ≤ 50000 }
    requires steps { 1 ≤ options.steps }
    requires turn { 1 ≤ options.turn }
    ensures { Serves options (over S.seen source.old source.new) (over O.seen out.old out.new) result }
{
    match options.mode {
        Mode::Gen => generate(alloc, options, out),
        _ => read(alloc, options, source, out),
    }
}

/// Does what the words ask for, up to the line on errors.
fn attempt<S: Source, O: Sink>(
    alloc: Global,
    words: &[String],
    source: &mut S,
    out: &mut O,
) -> Result<Report, Stop>
    ensures { Attempts (map string_bytes words.now) (over S.seen source.old source.new) (over O.seen out.old out.new) result }
{
    match options(alloc, words) {
        Ok(options) => obey(alloc, options, source, out),
        Err(WordsFault::Usage(line)) => Ok(Report {
            status: Status::Usage,
            line: line.into_bytes(),
        }),
        Err(WordsFault::OutOfMemory) => Err(Stop::OutOfMemory),
    }
}

/// Writes the line of a status, or fails.
fn report<E: Sink>(err: &mut E, line: &[u8], status: Status) -> Status
    ensures { Reports (over E.seen err.old err.new) line.now status result }
{
    match write_all_of(err, line) {
        Ok(()) => status,
        Err(_stopped) => Status::ErrFault,
    }
}

/// Writes the line that says why the work ended, where there is one, and gives the status.
fn explain<E: Sink>(err: &mut E, stop: Stop) -> Status
    ensures { Finishes (over E.seen err.old err.new) (Err stop) result }
{
    match stop {
        Stop::ReadFault => report(err, b"read failed\n", Status::ReadFault),
        Stop::OutFault => Status::OutFault,
        Stop::OutOfMemory => {
            let _tried = write_all_of(err, b"out of memory\n");
            Status::OutOfMemory
        }
    }
}

/// Writes what is due on errors, and gives the status.
fn finish<E: Sink>(err: &mut E, outcome: Result<Report, Stop>) -> Status
    ensures { Finishes (over E.seen err.old err.new) outcome result }
{
    match outcome {
        Ok(told) => report(err, told.line.as_slice(), told.status),
        Err(stop) => explain(err, stop),
    }
}

/// Reads a script from the source, runs it, and writes what it prints on `out` and a line on `err` where it doesn't end normally;
/// or does what another mode asks for.
///
/// The words are those of the command line, the program's name first: `worlds [--steps N] [--mode M] [--number K] [--turn Q]`, read
/// by `clap`. The options, and what each mode does, are said by [`wjs_options::Options`] and [`wjs_options::Mode`]; what each status stands
/// for is said by [`Status`]. A status by a fault comes only where the count of faults of the source or the sink at fault rose in
/// this call, and OutOfMemory where memory ran out.
pub fn command<S: Source, O: Sink, E: Sink>(
    alloc: Global,
    words: &[String],
    source: &mut S,
    out: &mut O,
    err: &mut E,
) -> Status
    // For the words and the bytes that the source had, the run ends by the table, and a play wrote what its scripts print alone.
    ensures ends { Ends (map string_bytes words.now) (over S.seen source.old source.new) (over O.seen out.old out.new) (over E.seen err.old err.new) result }

    // What is said of the causes without the bytes.
    ensures causes { Causes (map string_bytes words.now)
        (over S.seen source.old source.new) (over O.seen out.old out.new) (over E.seen err.old err.new) result }
{
    let outcome = attempt(alloc, words, source, out);
    finish(err, outcome)
}
