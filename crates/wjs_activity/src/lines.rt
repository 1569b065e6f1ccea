//! The lines that tell how activities ended.
ghost use Rattle.std.specs.Prelude.{◌≡◌, ◌++◌, true, false, List, IfOk, OnOk, codes};
ghost use Rattle.std.specs.Fmt.{decimal};
ghost use Rattle.wjs_alone.specs.Alone.{Outcome as Meant};
ghost use Rattle.wjs_alone.specs.Serial.{End, outcome_text, line_at, line_of, lines_from};
ghost use Rattle.wjs_activity.specs.SoFar.{TellsEnd, TellsEnds};
ghost use Rattle.wjs_tries.specs.Turning.{Tells};

use crate::ends::Ended;
use std::alloc::Global;
use wjs_base::OutOfMemory;
use wjs_tries::{Outcome, Shown};

/// A line for each of so many activities, ascending: how it ended, and how many tries it took.
pub fn lines(alloc: Global, count: u32, ends: &[Ended]) -> Result<Vec<u8>, OutOfMemory>
    ensures { IfOk result (λ bytes. (es : List End) → TellsEnds ends.now es → bytes.items ≡ lines_from count 1 es) }
{
    let mut text = Vec::new(alloc);
    for place in 0..count {
        push_line_at(alloc, &mut text, place + 1, ends)?;
    }
    Ok(text)
}

/// Puts the line of an activity behind a text.
fn push_line_at(
    alloc: Global,
    text: &mut Vec<u8>,
    activity: u32,
    ends: &[Ended],
) -> Result<(), OutOfMemory>
    ensures { OnOk result ((es : List End) → TellsEnds ends.now es → text.new.items ≡ text.old.items ++ line_at es activity) }
{
    for end in ends {
        if is_of(end, activity) {
            return push_line(alloc, text, end);
        }
    }
    Ok(())
}

/// Whether an end is an activity's.
fn is_of(end: &Ended, activity: u32) -> bool
    ensures yes { result ≡ true → end.now.activity ≡ activity }
    ensures no { result ≡ false → ¬ (end.now.activity ≡ activity) }
{
    end.activity == activity
}

/// Puts the line of an end behind a text.
fn push_line(alloc: Global, text: &mut Vec<u8>, end: &Ended) -> Result<(), OutOfMemory>
    ensures { OnOk result ((e : End) → TellsEnd end.now e → text.new.items ≡ text.old.items ++ line_of e) }
{
    push_field(alloc, text, "activity ", end.activity)?;
    push_outcome(text, &end.outcome)?;
    push_field(alloc, text, " tries ", end.tries)?;
    push(text, b"\n")
}

/// Puts how an activity ended behind a text.
fn push_outcome(text: &mut Vec<u8>, outcome: &Outcome) -> Result<(), OutOfMemory>
    ensures { OnOk result ((o : Meant) → Tells outcome.now o → text.new.items ≡ text.old.items ++ outcome_text o) }
{
    match outcome {
        Outcome::Committed => push(text, b" committed"),
        Outcome::Threw(shown) => push_thrown(text, shown),
        Outcome::Spent => push(text, b" spent"),
    }
}

/// Puts what an activity threw behind a text.
fn push_thrown(text: &mut Vec<u8>, shown: &Shown) -> Result<(), OutOfMemory>
    ensures { OnOk result (text.new.items ≡ text.old.items ++ codes " threw " ++ shown.now) }
{
    push(text, b" threw ")?;
    push(text, shown.bytes())
}

/// Puts a word and a number in decimal digits behind a text.
fn push_field(alloc: Global, text: &mut Vec<u8>, word: &str, number: u32) -> Result<(), OutOfMemory>
    ensures { OnOk result (text.new.items ≡ text.old.items ++ word.now ++ decimal number) }
{
    match format!(in alloc; "{word}{number}") {
        Ok(field) => push(text, field.as_bytes()),
        Err(_) => Err(OutOfMemory),
    }
}

/// Puts bytes behind a text.
fn push(text: &mut Vec<u8>, bytes: &[u8]) -> Result<(), OutOfMemory>
    ensures { OnOk result (text.new.items ≡ text.old.items ++ bytes.now) }
{
    text.extend_from_slice(bytes)?;
    Ok(())
}
