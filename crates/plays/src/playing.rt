//! A play of the scripts that a source gives.
ghost use Rattle.std.specs.Prelude.{◌≤◌, ◌^◌, All, length};
ghost use Rattle.wjs_base.specs.Text.{IsTable};
ghost use Rattle.wjs_model.specs.Texts.{KnowsUnit, PlacesUnit};
ghost use Rattle.wjs_activity.specs.declared.ends.PlayTurn.{PlayTurn};

use crate::fault::Fault;
use crate::schedule::{Schedule, schedule_of};
use std::alloc::Global;
use wjs_activity::{PlayEnd, play};
use wjs_division::load_parts;
use wjs_io::{Sink, Source, read_all};
use wjs_load::library;
use wjs_model::LoadedProgram;
use wjs_texts::Texts;

/// The most bytes that are read.
const MOST_BYTES: u64 = 16_777_216;

/// Reads a source to its end, and plays the scripts that stand below the schedule.
pub fn play_source<S: Source, O: Sink>(
    alloc: Global,
    source: &mut S,
    out: &mut O,
) -> Result<(), Fault> {
    match read_all(alloc, source, MOST_BYTES) {
        Ok(bytes) => play_bytes(alloc, bytes.as_slice(), out),
        Err(fault) => Err(Fault::from(fault)),
    }
}

/// Plays the scripts that stand below the schedule.
fn play_bytes<O: Sink>(alloc: Global, bytes: &[u8], out: &mut O) -> Result<(), Fault>
    requires { length bytes.now ≤ 2 ^ 24 }
{
    let (line, scripts) = first_line(bytes);
    let Ok(line) = std::str::from_utf8(line) else {
        return Err(Fault::NotUtf8);
    };
    let schedule = schedule_of(alloc, line)?;
    let mut texts = Texts::new(alloc)?;
    let parts = load_parts(alloc, scripts, &mut texts)?;
    play_parts(alloc, texts, parts, &schedule, out)
}

/// The first line, without the LF that ends it, and what follows.
fn first_line(bytes: &[u8]) -> (&[u8], &[u8])
    ensures { length result.1.now ≤ length bytes.now }
{
    for (place, byte) in bytes.iter().enumerate() {
        if *byte == b'\n' {
            return (&bytes[..place], &bytes[place + 1..]);
        }
    }
    (bytes, &[])
}

/// Plays parts behind the library.
fn play_parts<O: Sink>(
    alloc: Global,
    texts: Texts,
    parts: Vec<LoadedProgram>,
    schedule: &Schedule,
    out: &mut O,
) -> Result<(), Fault>
    requires table { IsTable texts }
    requires parts { All (KnowsUnit texts) parts.items }
    requires places { All (PlacesUnit texts) parts.items }
    requires few { length parts.items ≤ 1000 }
    requires turns { All (λ (t : PlayTurn). 1 ≤ t.steps) schedule.now.turns.items }
    requires turn { 1 ≤ schedule.now.turn }
    requires budget { 1 ≤ schedule.now.budget }
{
    let mut texts = texts;
    let library = library(alloc, &mut texts)?;
    let turns = schedule.turns.as_slice();
    match play(
        alloc,
        texts,
        library,
        parts,
        turns,
        schedule.turn,
        schedule.budget,
        out,
    ) {
        // What the scripts printed is written, and a line for each. A host may look at the ends and at what the worlds hold.
        PlayEnd::Done(_ends, _heap) => Ok(()),
        PlayEnd::StepsSpent => Err(Fault::StepsSpent),
        PlayEnd::SinkFailed => Err(Fault::WriteFailed),
        PlayEnd::OutOfMemory => Err(Fault::OutOfMemory),
    }
}
