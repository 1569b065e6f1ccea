//! A log's bytes, audited.
ghost use Rattle.std.specs.Prelude.{[], codes};
ghost use Rattle.std.specs.String.{string_bytes};
ghost use Rattle.wjs_io.specs.Streams.{over};
ghost use Rattle.wjs_start.specs.First.{IsNew};
ghost use Rattle.wjs_command.specs.declared.status.Status.TheVariants as statuses;
ghost use Rattle.wjs_command.specs.Table.{line};
ghost use Rattle.wjs_command.specs.Due.{OfLog, text_of_fault};
ghost use Rattle.wjs_command.specs.Attempt.{IsReport, Delivers, Comes, Refuses, RefusesLog};

use crate::report::{Report, Stop, done};
use crate::running::write_or_stop;
use crate::status::Status;
use std::alloc::Global;
use wjs_audit::AuditFault;
use wjs_io::Sink;
use wjs_logs::judge_log;
use wjs_store::WorldStore;

/// Says whether the bytes are a log of right answers, by doing its actions over a new store of worlds.
pub fn audit<S: WorldStore + Drop, O: Sink>(
    alloc: Global,
    store: S,
    bytes: &[u8],
    out: &mut O,
) -> Result<Report, Stop>
    requires new { IsNew (S.meaning store) }
    ensures { Comes (OfLog bytes.now) (over O.seen out.old out.new) result }
{
    match judge_log(alloc, store, bytes) {
        Ok(()) => agree(alloc, out),
        Err(fault) => refuse_or_stop(alloc, fault),
    }
}

/// Says that the log is right.
fn agree<O: Sink>(alloc: Global, out: &mut O) -> Result<Report, Stop>
    ensures { Delivers (record { out = line (codes "yes"); err = []; status = statuses.Done }) (over O.seen out.old out.new) result }
{
    match write_or_stop(b"yes\n", out) {
        Ok(()) => Ok(done(alloc)),
        Err(stop) => Err(stop),
    }
}

/// The report of bytes that are no log, or of a log with a wrong answer.
fn refuse_or_stop(alloc: Global, fault: AuditFault) -> Result<Report, Stop>
    ensures { RefusesLog fault result }
{
    match fault {
        AuditFault::NotALog { line } => refuse_form(alloc, line),
        AuditFault::NotTheAnswer { line } => refuse_answer(alloc, line),
        AuditFault::OutOfMemory => Err(Stop::OutOfMemory),
    }
}

/// The report of bytes of which this line is the first that breaks the form.
fn refuse_form(alloc: Global, line: u64) -> Result<Report, Stop>
    ensures { Refuses (text_of_fault (AuditFault.NotALog line)) result }
{
    match format!(in alloc; "line {line}: not a log line\n") {
        Ok(text) => Ok(refusal(text)),
        Err(_) => Err(Stop::OutOfMemory),
    }
}

/// The report of a log whose first wrong answer stands on this line.
fn refuse_answer(alloc: Global, line: u64) -> Result<Report, Stop>
    ensures { Refuses (text_of_fault (AuditFault.NotTheAnswer line)) result }
{
    match format!(in alloc; "line {line}: not the machine's answer\n") {
        Ok(text) => Ok(refusal(text)),
        Err(_) => Err(Stop::OutOfMemory),
    }
}

/// The report of a refusal with this line.
fn refusal(line: String) -> Report
    ensures { IsReport statuses.Refused (string_bytes line) result }
{
    Report {
        status: Status::Refused,
        line: line.into_bytes(),
    }
}
