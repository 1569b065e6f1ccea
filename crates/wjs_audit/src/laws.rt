//! Laws of logs, each the contract of a function that does nothing.
ghost use Rattle.wjs_audit.specs.Laws.{OneReading, OneJudgement};

/// Bytes have one reading.
///
/// A log that begins with the bytes of another begins with its lines. So bytes that are a log have one list of entries,
/// and no line that breaks the form; and other bytes have one line that is the first to break it. What is read from bytes
/// that spell a log are its deeds.
pub fn one_reading()
    ensures { OneReading }
{}

/// Entries are judged in one way: where all answers are right none is wrong, and else one is the first that is wrong.
pub fn one_judgement()
    ensures { OneJudgement }
{}
