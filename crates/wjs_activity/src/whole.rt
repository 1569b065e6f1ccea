//! Plays of activities.
ghost use Rattle.std.specs.Prelude.{◌≡◌, ◌≤◌, ℕ, true, false, List, [], All, Option, IfSome, IfOk, IfErr, Err, length, map};
ghost use Rattle.std.specs.Option.{option_map};
ghost use Rattle.wjs_base.specs.Text.{Table, IsTable};
ghost use Rattle.wjs_io.specs.Streams.{Stream, over};
ghost use Rattle.wjs_meaning.specs.Trees.{Tree};
ghost use Rattle.wjs_model.specs.Soundness.{Sound};
ghost use Rattle.wjs_model.specs.Texts.{KnowsUnit, PlacesUnit};
ghost use Rattle.wjs_model.specs.Units.{unit_in};
ghost use Rattle.wjs_parts.specs.Walking.{Walks};
ghost use Rattle.wjs_alone.specs.Serial.{End, lines_from};
ghost use Rattle.wjs_alone.specs.Playing as defined;
ghost use Rattle.wjs_activity.specs.declared.activities.Activity.{Activity};
ghost use Rattle.wjs_activity.specs.declared.ends.PlayTurn.{PlayTurn};
ghost use Rattle.wjs_activity.specs.SoFar.{TellsEnds};
ghost use Rattle.wjs_activity.specs.Rounds.{first_number, IsGoing, Settled, TurnsTo, HaltsIn, by_all, Is};
ghost use Rattle.wjs_activity.specs.Plays.{turn_in, Plays, PlaysOut, BeginsAs, IsOpened, RanLibrary, CanBegin, BegunFrom, ClosesAs, WritesLast};

use crate::activities::{Play, Rules, none_begun};
use crate::ends::{Ends, PlayTurn};
use crate::lines::lines;
use crate::rounds::{rounds, scheduled};
use std::alloc::Global;
use wjs_base::OutOfMemory;
use wjs_heap::Heap;
use wjs_io::{Sink, write_pieces};
use wjs_model::{Config, Halt, LoadedProgram, State};
use wjs_overlay::Overlay;
use wjs_parts::start_parts;
use wjs_store::WorldStore;
use wjs_texts::Texts;
use wjs_tries::{Common, none_apart};
use wjs_turns::walk;

/// How a play ends.
#[derive(Drop)]
pub enum PlayEnd {
    /// All activities have ended. The heap is the play's, with the worlds.
    Done(Ends, Heap<Overlay>),
    /// The library needs more steps than the budget.
    StepsSpent,
    /// The sink failed before all was written.
    SinkFailed,
    OutOfMemory,
}

/// Plays activities: a part each, at most 1000, numbered from 1, behind the library. The programs' texts are in the table.
///
/// Each activity takes turns, first those of the schedule and then, round by round, of `turn` steps each, until all have ended. It
/// runs in a world of its own over the first one, with `budget` steps for a try; its end counts where what it has read stands in the
/// first world still, and else it is run again. The fourth try goes on to its end at once. Turns of activities that have ended, and
/// of numbers that none has, are left out. Each turn has a step at least. What is printed, told and left is that play, as it is
/// defined (`play` in `wjs_alone`).
///
/// And it is what those parts print and leave that end normally, if each runs alone, one after another, in the order of the ends;
/// then a line for each activity tells how it ended. The library's throw counts as its end, and what it prints is not written.
///
/// StepsSpent comes only where the library needs more steps than the budget, and nothing is written then. SinkFailed comes only
/// where the sink's count of faults rose in this call, and OutOfMemory where memory ran out; a front of what is due was written then.
pub fn play<O: Sink>(
    alloc: Global,
    texts: Texts,
    library: Option<LoadedProgram>,
    parts: Vec<LoadedProgram>,
    schedule: &[PlayTurn],
    turn: u64,
    budget: u64,
    out: &mut O,
) -> PlayEnd
    requires table { IsTable texts }
    requires library { IfSome library (KnowsUnit texts) }
    requires parts { All (KnowsUnit texts) parts.items }
    requires library_places { IfSome library (PlacesUnit texts) }
    requires part_places { All (PlacesUnit texts) parts.items }
    requires few { length parts.items ≤ 1000 }
    requires turn { 1 ≤ turn }
    requires budget { 1 ≤ budget }
    requires steps { All (λ (t : PlayTurn). 1 ≤ t.steps) schedule.now }
    ensures { Plays (option_map (unit_in texts) library) (map (unit_in texts) parts.items) budget (map turn_in schedule.now) turn
        (over O.seen out.old out.new) result }
{
    match play_out(alloc, texts, library, parts, schedule, turn, budget, out) {
        Ok(end) => end,
        Err(halt) => halted(halt),
    }
}

/// The end of a play that was halted.
fn halted(halt: Halt) -> PlayEnd
    ensures { (library : Option Tree) (parts : List Tree) (budget : ℕ) (schedule : List defined.PlayTurn) (turn : ℕ) (s : Stream)
        → PlaysOut library parts budget schedule turn s (Err halt) → Plays library parts budget schedule turn s result }
{
    match halt {
        Halt::SinkFailed => PlayEnd::SinkFailed,
        Halt::OutOfMemory => PlayEnd::OutOfMemory,
    }
}

/// A play, up to a halt.
fn play_out<O: Sink>(
    alloc: Global,
    texts: Texts,
    library: Option<LoadedProgram>,
    parts: Vec<LoadedProgram>,
    schedule: &[PlayTurn],
    turn: u64,
    budget: u64,
    out: &mut O,
) -> Result<PlayEnd, Halt>
    requires table { IsTable texts }
    requires library { IfSome library (KnowsUnit texts) }
    requires parts { All (KnowsUnit texts) parts.items }
    requires library_places { IfSome library (PlacesUnit texts) }
    requires part_places { All (PlacesUnit texts) parts.items }
    requires few { length parts.items ≤ 1000 }
    requires turn { 1 ≤ turn }
    requires budget { 1 ≤ budget }
    requires steps { All (λ (t : PlayTurn). 1 ≤ t.steps) schedule.now }
    ensures { PlaysOut (option_map (unit_in texts) library) (map (unit_in texts) parts.items) budget (map turn_in schedule.now) turn
        (over O.seen out.old out.new) result }
{
    let rules = Rules {
        first: first_number(&library),
        budget,
    };
    let count = parts.len();
    match opened(alloc, texts, library, parts, budget) {
        Ok(config) => played(alloc, config, rules, count, schedule, turn, out),
        Err(OutOfMemory) => Err(Halt::OutOfMemory),
    }
}

/// A play of so many activities, behind the library.
fn played<O: Sink>(
    alloc: Global,
    config: Config<Overlay>,
    rules: Rules,
    count: usize,
    schedule: &[PlayTurn],
    turn: u64,
    out: &mut O,
) -> Result<PlayEnd, Halt>
    requires begin { CanBegin rules count config }
    requires turn { 1 ≤ turn }
    requires steps { All (λ (t : PlayTurn). 1 ≤ t.steps) schedule.now }
    ensures { (library : Option Tree) (parts : List Tree) → rules.first ≡ first_number library → count ≡ length parts
        → IsOpened library parts rules.budget config → PlaysOut library parts rules.budget (map turn_in schedule.now) turn
        (over O.seen out.old out.new) result }
{
    if is_spent(config.state) {
        return Ok(PlayEnd::StepsSpent);
    }
    match begun(alloc, config, count) {
        Ok(play) => finished(alloc, play, rules, schedule, turn, out),
        Err(OutOfMemory) => Err(Halt::OutOfMemory),
    }
}

/// Whether a run has spent its budget.
fn is_spent(state: State) -> bool
    ensures yes { result ≡ true → state ≡ State.StepsSpent }
    ensures no { result ≡ false → ¬ (state ≡ State.StepsSpent) }
{
    match state {
        State::StepsSpent => true,
        _ => false,
    }
}

/// All turns of a play that has begun, and its lines.
fn finished<O: Sink>(
    alloc: Global,
    play: Play,
    rules: Rules,
    schedule: &[PlayTurn],
    turn: u64,
    out: &mut O,
) -> Result<PlayEnd, Halt>
    requires going { IsGoing rules play }
    requires settled { Settled play.activities.items }
    requires turn { 1 ≤ turn }
    requires steps { All (λ (t : PlayTurn). 1 ≤ t.steps) schedule.now }
    ensures { (library : Option Tree) (parts : List Tree) → rules.first ≡ first_number library
        → BeginsAs library parts rules.budget (map turn_in schedule.now) turn play
        → PlaysOut library parts rules.budget (map turn_in schedule.now) turn
        (over O.seen out.old out.new) result }
{
    match all_turns(alloc, play, rules, schedule, turn, out) {
        Ok(next) => close(alloc, next, out),
        Err(halt) => Err(halt),
    }
}

/// The turns of a schedule, and then rounds until all activities have ended.
fn all_turns<O: Sink>(
    alloc: Global,
    play: Play,
    rules: Rules,
    schedule: &[PlayTurn],
    turn: u64,
    out: &mut O,
) -> Result<Play, Halt>
    requires going { IsGoing rules play }
    requires settled { Settled play.activities.items }
    requires turn { 1 ≤ turn }
    requires steps { All (λ (t : PlayTurn). 1 ≤ t.steps) schedule.now }
    ensures ok { IfOk result (TurnsTo rules (over O.seen out.old out.new)
        (Is (by_all rules.budget (map turn_in schedule.now) turn)) play) }
    ensures ended { IfOk result (λ next. All (λ (a : Activity). a.ended ≡ true) next.activities.items) }
    ensures err { IfErr result (HaltsIn rules (over O.seen out.old out.new)
        (by_all rules.budget (map turn_in schedule.now) turn) play) }
    ensures never_falls { (O.seen out.old).faults ≤ (O.seen out.new).faults }
{
    match scheduled(alloc, play, rules, schedule, out) {
        Ok(next) => rounds(alloc, next, rules, turn, out),
        Err(halt) => Err(halt),
    }
}

/// The number of the first part among the programs.
fn first_number(library: &Option<LoadedProgram>) -> u32
    ensures { (t : Table) → result ≡ first_number (option_map (unit_in t) library.now) }
{
    match library {
        None => 0,
        Some(_) => 1,
    }
}

/// What there is behind the library's run.
fn opened(
    alloc: Global,
    texts: Texts,
    library: Option<LoadedProgram>,
    parts: Vec<LoadedProgram>,
    budget: u64,
) -> Result<Config<Overlay>, OutOfMemory>
    requires table { IsTable texts }
    requires library { IfSome library (KnowsUnit texts) }
    requires parts { All (KnowsUnit texts) parts.items }
    requires library_places { IfSome library (PlacesUnit texts) }
    requires part_places { All (PlacesUnit texts) parts.items }
    ensures { IfOk result (IsOpened (option_map (unit_in texts) library) (map (unit_in texts) parts.items) budget) }
{
    let store = Overlay::new(alloc)?;
    let config = start_parts(alloc, texts, store, library, parts, budget)?;
    run_library(config, budget)
}

/// The library's run, to its end.
fn run_library(config: Config<Overlay>, budget: u64) -> Result<Config<Overlay>, OutOfMemory>
    requires { Sound (⟦<Overlay as WorldStore>⟧.meaning) config }
    ensures { IfOk result (RanLibrary (⟦<Overlay as WorldStore>⟧.meaning) budget config) }
{
    match config.state {
        State::Running => walk_library(config, budget),
        _ => Ok(config),
    }
}

/// Turns up to the end of a library's run.
fn walk_library(config: Config<Overlay>, budget: u64) -> Result<Config<Overlay>, OutOfMemory>
    requires running { config.state ≡ State.Running }
    requires sound { Sound (⟦<Overlay as WorldStore>⟧.meaning) config }
    ensures { IfOk result (λ new. (taken : ℕ) × Walks (⟦<Overlay as WorldStore>⟧.meaning) budget taken config new) }
{
    let mut config = config;
    let _taken = walk(&mut config, budget)?;
    Ok(config)
}

/// A play before its first turn, behind the library.
fn begun(alloc: Global, config: Config<Overlay>, count: usize) -> Result<Play, OutOfMemory>
    requires { config.heap.store.spent ≡ false }
    ensures { IfOk result (BegunFrom config count) }
{
    let Config {
        heap: Heap {
            texts,
            arena,
            store,
        },
        units,
        frames: _,
        global: _,
        world: _,
        owner: _,
        apart: _,
        pending: _,
        left: _,
        state: _,
    } = config;
    let activities = none_begun(alloc, count)?;
    let apart = none_apart(alloc, count)?;
    let common = Common {
        texts,
        arena,
        units,
        shared: store,
        apart,
    };
    Ok(Play {
        common,
        activities,
        ends: Ends::new(alloc),
        drawn: 0,
    })
}

/// Writes the lines of a play whose activities have all ended.
fn close<O: Sink>(alloc: Global, play: Play, out: &mut O) -> Result<PlayEnd, Halt>
    requires { length play.activities.items ≤ 1000 }
    ensures { ClosesAs (over O.seen out.old out.new) play result }
{
    match lines_of(alloc, &play) {
        Ok(bytes) => close_with(play, bytes, out),
        Err(OutOfMemory) => Err(Halt::OutOfMemory),
    }
}

/// The lines of a play.
fn lines_of(alloc: Global, play: &Play) -> Result<Vec<u8>, OutOfMemory>
    requires { length play.now.activities.items ≤ 1000 }
    ensures { IfOk result (λ bytes. (es : List End) → TellsEnds play.now.ends es → bytes.items ≡ lines_from (length play.now.activities.items) 1 es) }
{
    lines(alloc, play.activities.len() as u32, play.ends.as_slice())
}

/// Writes these bytes behind a play, whose end it is.
fn close_with<O: Sink>(play: Play, bytes: Vec<u8>, out: &mut O) -> Result<PlayEnd, Halt>
    ensures { WritesLast (over O.seen out.old out.new) play bytes.items result }
{
    let Play {
        common,
        activities: _,
        ends,
        drawn: _,
    } = play;
    let Common {
        texts,
        arena,
        units: _,
        shared,
        apart: _,
    } = common;
    match write_pieces(out, bytes.as_slice()) {
        Ok(()) => Ok(PlayEnd::Done(
            ends,
            Heap {
                texts,
                arena,
                store: shared,
            },
        )),
        Err(_) => Err(Halt::SinkFailed),
    }
}
