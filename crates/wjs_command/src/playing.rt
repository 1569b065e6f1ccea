//! A play of the scripts that bytes are divided into.
ghost use Rattle.std.specs.Prelude.{◌≡◌, ◌≤◌, ◌^◌, All, length, map};
ghost use Rattle.wjs_base.specs.Text.{IsTable};
ghost use Rattle.wjs_io.specs.Streams.{over};
ghost use Rattle.wjs_model.specs.Texts.{KnowsUnit, PlacesUnit};
ghost use Rattle.wjs_model.specs.Units.{unit_in};
ghost use Rattle.wjs_command.specs.Plays.{IsPlayed, OfPlay, RanAlone, PlayedAlone};
ghost use Rattle.wjs_command.specs.Attempt.{Comes, ComesAlone, RefusesInput, TellsPlay};

use crate::report::{Report, Stop, done, refuse, refuse_by, report_line};
use crate::status::Status;
use std::alloc::Global;
use std::mem::ManuallyDrop;
use wjs_activity::{PlayEnd, play};
use wjs_division::{InputFault, load_parts};
use wjs_io::Sink;
use wjs_load::library;
use wjs_model::LoadedProgram;
use wjs_texts::Texts;

/// Plays the scripts that the bytes are divided into, in rounds of turns of so many steps, each with this budget for a try: in worlds
/// of their own under one first world.
pub fn play_parts<O: Sink>(
    alloc: Global,
    bytes: &[u8],
    budget: u64,
    turn: u64,
    out: &mut O,
) -> Result<Report, Stop>
    requires within { length bytes.now ≤ 2 ^ 24 }
    requires budget { 1 ≤ budget }
    requires turn { 1 ≤ turn }
    ensures told { Comes (OfPlay budget turn bytes.now) (over O.seen out.old out.new) result }
    ensures alone { ComesAlone (PlayedAlone budget bytes.now) (over O.seen out.old out.new) result }
{
    let mut texts = Texts::new(alloc)?;
    match load_parts(alloc, bytes, &mut texts) {
        Ok(parts) => play_units(alloc, texts, parts, budget, turn, out),
        Err(fault) => refuse_input(alloc, fault),
    }
}

/// Plays the parts behind the library.
fn play_units<O: Sink>(
    alloc: Global,
    texts: Texts,
    parts: Vec<LoadedProgram>,
    budget: u64,
    turn: u64,
    out: &mut O,
) -> Result<Report, Stop>
    requires table { IsTable texts }
    requires parts { All (KnowsUnit texts) parts.items }
    requires places { All (PlacesUnit texts) parts.items }
    requires few { length parts.items ≤ 1000 }
    requires budget { 1 ≤ budget }
    requires turn { 1 ≤ turn }
    ensures told { Comes (IsPlayed budget turn (map (unit_in texts) parts.items)) (over O.seen out.old out.new) result }
    ensures alone { ComesAlone (RanAlone budget (map (unit_in texts) parts.items)) (over O.seen out.old out.new) result }
{
    let mut texts = texts;
    let library = library(alloc, &mut texts)?;
    let end = play(alloc, texts, library, parts, &[], turn, budget, out);
    tell_play(alloc, end)
}

/// The report of a play that ended so.
fn tell_play(alloc: Global, end: PlayEnd) -> Result<Report, Stop>
    ensures { TellsPlay end result }
{
    match end {
        PlayEnd::Done(ends, heap) => {
            // The process ends next, and its memory with it.
            let _ends = ManuallyDrop::new(ends);
            let _heap = ManuallyDrop::new(heap);
            Ok(done(alloc))
        }
        PlayEnd::StepsSpent => tell_spent(alloc),
        PlayEnd::SinkFailed => Err(Stop::OutFault),
        PlayEnd::OutOfMemory => Err(Stop::OutOfMemory),
    }
}

/// The report of a play whose library needs more steps than there are.
fn tell_spent(alloc: Global) -> Result<Report, Stop>
    ensures { TellsPlay PlayEnd.StepsSpent result }
{
    Ok(report_line(alloc, Status::StepsSpent, b"step budget spent", b"")?)
}

/// The report of bytes that are no input of a play.
fn refuse_input(alloc: Global, fault: InputFault) -> Result<Report, Stop>
    ensures { RefusesInput fault result }
{
    match fault {
        InputFault::NotUtf8 => refuse_by(alloc, b"not UTF-8"),
        InputFault::TooMany => refuse_by(alloc, b"too many activities"),
        InputFault::Refused(refusal) => Ok(refuse(alloc, refusal)?),
        InputFault::OutOfMemory => Err(Stop::OutOfMemory),
    }
}
