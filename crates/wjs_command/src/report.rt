//! What a run comes to: its status, and the line that tells of it.
ghost use Rattle.std.specs.Prelude.{◌≡◌, ◌++◌, [], IfOk, codes};
ghost use Rattle.std.specs.Fmt.{decimal};
ghost use Rattle.wjs_command.specs.declared.status.Status.TheVariants as statuses;
ghost use Rattle.wjs_command.specs.Table.{line as as_line};
ghost use Rattle.wjs_command.specs.Refusals.{text_of_refusal};
ghost use Rattle.wjs_command.specs.Attempt.{IsReport, Refuses};

use crate::status::Status;
use std::alloc::Global;
use wjs_base::OutOfMemory;
use wjs_load::Refusal;

/// How a run ends whose output is written: the status, and the line on errors, which is empty where there is none.
#[derive(Drop)]
pub struct Report {
    pub status: Status,
    pub line: Vec<u8>,
}

/// Why a run ended before its end.
#[derive(Clone, Copy)]
pub enum Stop {
    /// The source failed.
    ReadFault,
    /// What is due on out could not be written.
    OutFault,
    OutOfMemory,
}

impl From<OutOfMemory> for Stop {
    ghost use Rattle.wjs_command.specs.declared.report.Stop.TheVariants.{OutOfMemory};

    ghost from_gives = { λ _ stop. stop ≡ OutOfMemory };

    fn from(_: OutOfMemory) -> Self {
        Stop::OutOfMemory
    }
}

/// The report of a run that ended normally: there is no line.
pub fn done(alloc: Global) -> Report
    ensures { IsReport statuses.Done [] result }
{
    Report {
        status: Status::Done,
        line: Vec::new(alloc),
    }
}

/// A report whose line is these two texts and an LF.
pub fn report_line(
    alloc: Global,
    status: Status,
    first: &[u8],
    second: &[u8],
) -> Result<Report, OutOfMemory>
    ensures { IfOk result (IsReport status (as_line (first.now ++ second.now))) }
{
    let mut line = Vec::new(alloc);
    line.extend_from_slice(first)?;
    line.extend_from_slice(second)?;
    line.push(b'\n')?;
    Ok(Report { status, line })
}

/// The report of a refusal in these words.
pub fn refuse_by(alloc: Global, words: &[u8]) -> Result<Report, Stop>
    ensures { Refuses words.now result }
{
    Ok(report_line(alloc, Status::Refused, b"", words)?)
}

/// The report of bytes that are no script.
pub fn refuse(alloc: Global, refusal: Refusal) -> Result<Report, OutOfMemory>
    ensures { IfOk result (IsReport statuses.Refused (as_line (text_of_refusal refusal))) }
{
    match refusal {
        Refusal::NotUtf8 => report_line(alloc, Status::Refused, b"not UTF-8", b""),
        Refusal::NotAToken { line } => refuse_at(alloc, line, b": not a token"),
        Refusal::Unexpected { line } => refuse_at(alloc, line, b": syntax error"),
        Refusal::NotAScript => report_line(alloc, Status::Refused, b"syntax error", b""),
    }
}

/// The report of bytes that are no script, for a reason that stands on this line.
fn refuse_at(alloc: Global, line: u64, reason: &[u8]) -> Result<Report, OutOfMemory>
    ensures { IfOk result (IsReport statuses.Refused (as_line (codes "line " ++ decimal line ++ reason.now))) }
{
    match format!(in alloc; "line {line}") {
        Ok(text) => report_line(alloc, Status::Refused, text.as_bytes(), reason),
        Err(_) => Err(OutOfMemory),
    }
}
