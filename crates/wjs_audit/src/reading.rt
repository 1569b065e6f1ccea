//! How a log is read.
ghost use Rattle.std.specs.Prelude.{◌≡◌, ◌++◌, [], List, ℕ, IfOk, MatchBool, MatchOption, IsErrOf};
ghost use Rattle.wjs_audit.specs.Logs.{Reads, BreaksAt};
ghost use Rattle.wjs_audit.specs.Spelling.{Line, joined, line_parts, line_text};
ghost use Rattle.wjs_audit.specs.Reading.{LineMay, Holds, Takes, AddsText};

use crate::cuts::{cut_at, first_part, is_word, next_part};
use crate::fault::AuditFault;
use crate::hex::units_of;
use crate::known::KnownTexts;
use crate::line::deed_of;
use crate::log::Log;
use crate::numbers::serial_of;
use std::alloc::Global;
use wjs_base::OutOfMemory;

/// What ends a line.
const LINE_FEED: u8 = 10;

/// What is read so far.
#[derive(Drop)]
struct Reading {
    log: Log,
    known: KnownTexts,
    /// The units of the latest text line, kept for their memory.
    units: Vec<u16>,
}

impl Reading {
    /// Nothing yet.
    fn new(alloc: Global) -> Result<Reading, OutOfMemory>
        ensures log { IfOk result (λ reading. reading.log ≡ []) }
        ensures known { IfOk result (λ reading. Holds reading.known []) }
    {
        let known = KnownTexts::new(alloc)?;
        Ok(Reading {
            log: Log::new(alloc),
            known,
            units: Vec::new(alloc),
        })
    }

    /// Takes in a line, without what ends it. Whether it may stand there.
    fn add_line(&mut self, alloc: Global, line: &[u8], number: u64) -> Result<bool, OutOfMemory>
        ensures { IfOk result (λ adds. MatchBool adds ((l : Line) × (line.now ≡ joined (line_parts l)) × Takes self.old number l self.new)
            ((l : Line) → LineMay self.old.known l → ¬ (line.now ≡ joined (line_parts l)))) }
    {
        let (word, tail) = first_part(line);
        if is_word(word, b"text") {
            return add_text(&mut self.known, &mut self.units, tail);
        }
        let Some(deed) = deed_of(alloc, word, tail, &self.known)? else {
            return Ok(false);
        };
        self.log.push(deed, number)?;
        Ok(true)
    }

    /// Takes in the first line of what is left, and gives what is left behind it; None where no line may stand there.
    fn take_line<'a>(
        &mut self,
        alloc: Global,
        rest: &'a [u8],
        number: u64,
    ) -> Result<Option<&'a [u8]>, OutOfMemory>
        ensures { IfOk result (λ found. MatchOption found ((l : Line) (behind : List ℕ) → LineMay self.old.known l → ¬ (rest.now ≡ line_text l ++ behind))
            (λ behind. (l : Line) × (rest.now ≡ line_text l ++ behind.now) × Takes self.old number l self.new)) }
    {
        let Some((line, behind)) = cut_at(rest, LINE_FEED) else {
            return Ok(None);
        };
        if self.add_line(alloc, line, number)? {
            return Ok(Some(behind));
        }
        Ok(None)
    }
}

/// Takes in the line of a text, by what follows its word. Whether it may stand there.
fn add_text(known: &mut KnownTexts, units: &mut Vec<u16>, tail: &[u8]) -> Result<bool, OutOfMemory>
    ensures { IfOk result (AddsText known.old tail.now known.new) }
{
    let Some((number, rest)) = next_part(tail) else {
        return Ok(false);
    };
    let Some(number) = serial_of(number) else {
        return Ok(false);
    };
    let Some((part, rest)) = next_part(rest) else {
        return known.add(number, &[]);
    };
    if !rest.is_empty() || part.is_empty() {
        return Ok(false);
    }
    if !units_of(part, units)? {
        return Ok(false);
    }
    known.add(number, units.as_slice())
}

/// The entries of the log that these bytes are, each with the number of its line, counted from 1.
///
/// NotALog comes exactly where they are none, and has the first line that breaks the form: it isn't spelled as lines are, or
/// names a text or a number that was named above, or speaks of a text that wasn't.
pub fn read_log(alloc: Global, bytes: &[u8]) -> Result<Log, AuditFault>
    ensures reads { IfOk result (λ log. Reads bytes.now log) }
    ensures breaks { (n : ℕ) → IsErrOf result (AuditFault.NotALog n) → BreaksAt bytes.now n }
    ensures never { (n : ℕ) → ¬ (IsErrOf result (AuditFault.NotTheAnswer n)) }
{
    let mut reading = Reading::new(alloc)?;
    let mut rest = bytes;
    let mut line: u64 = 0;
    while !rest.is_empty() {
        line += 1;
        match reading.take_line(alloc, rest, line) {
            Ok(Some(behind)) => rest = behind,
            Ok(None) => return Err(AuditFault::NotALog { line }),
            Err(OutOfMemory) => return Err(AuditFault::OutOfMemory),
        }
    }
    Ok(reading.log)
}
