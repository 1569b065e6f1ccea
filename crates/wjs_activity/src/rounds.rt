//! Turns of a play.
ghost use Rattle.std.specs.Prelude.{◌≡◌, ◌<◌, ◌≤◌, ◌+◌, ◌⊎◌, ℕ, max, true, false, length, set, slice_get, map, All, None, Some, IfSome, MatchOption, IfOk};
ghost use Rattle.std.specs.Prelude.{IfErr, IsTrue};
ghost use Rattle.wjs_io.specs.Streams.{over, Got, Stops};
ghost use Rattle.wjs_arena.specs.Entries.{IsArena, joined};
ghost use Rattle.wjs_model.specs.Apart.{is_apart};
ghost use Rattle.wjs_model.specs.Soundness.{Sound};
ghost use Rattle.wjs_session.specs.Stores.{worlds_in};
ghost use Rattle.wjs_session.specs.Resumed.{Rests};
ghost use Rattle.wjs_activity.specs.declared.activities.Activity.{Activity};
ghost use Rattle.wjs_tries.specs.declared.common.Rested.{Rested};
ghost use Rattle.wjs_activity.specs.declared.ends.PlayTurn.{PlayTurn};
ghost use Rattle.wjs_tries.specs.Hiding.{no_owner, MayList};
ghost use Rattle.wjs_tries.specs.Meant.{itself, Listed, resting};
ghost use Rattle.wjs_tries.specs.Common.{IsCommon};
ghost use Rattle.wjs_tries.specs.Resting.{Owns};
ghost use Rattle.wjs_tries.specs.Turning.{Begun, GoesOnAs};
ghost use Rattle.wjs_activity.specs.Rounds.{IsGoing, Settled, last_is_due, MayTurn, TurnAt, TurnsTo, HaltsIn, HaltsAt, TurnMade, OneTurn, LastTurn};
ghost use Rattle.wjs_activity.specs.Rounds.{LastHalts, AllSooner, fuel, at_place, by_turn, by_turns, by_round, by_rounds, Is};
ghost use Rattle.wjs_activity.specs.Plays.{turn_in};

use crate::activities::{Activity, Play, Rules, note_at, take_running};
use crate::ends::PlayTurn;
use std::alloc::Global;
use wjs_base::OutOfMemory;
use wjs_io::{Sink, write_pieces};
use wjs_model::{Config, Halt, State};
use wjs_session::Session;
use wjs_store::WorldStore;
use wjs_tries::{Common, Rested, next_owner, open, resume};
use wjs_turns::take_turn;

/// Takes the turns of a schedule. Those of activities that have ended, and of numbers that no activity has, are left out.
pub fn scheduled<O: Sink>(
    alloc: Global,
    play: Play,
    rules: Rules,
    schedule: &[PlayTurn],
    out: &mut O,
) -> Result<Play, Halt>
    requires going { IsGoing rules play }
    requires settled { Settled play.activities.items }
    requires some { All (λ (t : PlayTurn). 1 ≤ t.steps) schedule.now }
    ensures ok { IfOk result (TurnsTo rules (over O.seen out.old out.new)
        (Is (by_turns rules.budget (map turn_in schedule.now))) play) }
    ensures settled { IfOk result (λ next. Settled next.activities.items) }
    ensures err { IfErr result (HaltsIn rules (over O.seen out.old out.new)
        (by_turns rules.budget (map turn_in schedule.now)) play) }
    ensures never_falls { (O.seen out.old).faults ≤ (O.seen out.new).faults }
{
    let mut current = play;
    for turn in schedule {
        match turn_of(alloc, current, rules, *turn, out) {
            Ok(next) => current = next,
            Err(halt) => return Err(halt),
        }
    }
    Ok(current)
}

/// A turn of a schedule.
fn turn_of<O: Sink>(
    alloc: Global,
    play: Play,
    rules: Rules,
    turn: PlayTurn,
    out: &mut O,
) -> Result<Play, Halt>
    requires going { IsGoing rules play }
    requires settled { Settled play.activities.items }
    requires some { 1 ≤ turn.steps }
    ensures ok { IfOk result (TurnsTo rules (over O.seen out.old out.new)
        (Is (by_turn rules.budget (turn_in turn))) play) }
    ensures settled { IfOk result (λ next. Settled next.activities.items) }
    ensures err { IfErr result (HaltsIn rules (over O.seen out.old out.new)
        (by_turn rules.budget (turn_in turn)) play) }
    ensures never_falls { (O.seen out.old).faults ≤ (O.seen out.new).faults }
{
    match place_of(turn.activity, play.activities.len()) {
        Some(place) => turn_at(alloc, play, rules, place, turn.steps, out),
        None => Ok(play),
    }
}

/// The place of an activity among so many, which count from 1 on; None where there is no such one.
fn place_of(activity: u32, count: usize) -> Option<usize>
    ensures { MatchOption result ((activity ≡ 0) ⊎ (count < activity)) (λ place. (place < count) × (place + 1 ≡ activity)) }
{
    let number = activity as usize;
    if number == 0 {
        return None;
    }
    if number > count {
        return None;
    }
    Some(number - 1)
}

/// Takes turns of so many steps, round by round and the first activity first, until all activities have ended.
pub fn rounds<O: Sink>(
    alloc: Global,
    play: Play,
    rules: Rules,
    turn: u64,
    out: &mut O,
) -> Result<Play, Halt>
    requires going { IsGoing rules play }
    requires settled { Settled play.activities.items }
    requires some { 1 ≤ turn }
    ensures ok { IfOk result (TurnsTo rules (over O.seen out.old out.new)
        (Is (by_rounds rules.budget turn)) play) }
    ensures ended { IfOk result (λ next. All (λ (a : Activity). a.ended ≡ true) next.activities.items) }
    ensures err { IfErr result (HaltsIn rules (over O.seen out.old out.new)
        (by_rounds rules.budget turn) play) }
    ensures never_falls { (O.seen out.old).faults ≤ (O.seen out.new).faults }
{
    let mut current = play;
    while go_on(current.activities.as_slice()) {
        match round(alloc, current, rules, turn, out) {
            Ok(next) => current = next,
            Err(halt) => return Err(halt),
        }
    }
    Ok(current)
}

/// Whether an activity has not ended.
fn go_on(activities: &[Activity]) -> bool
    ensures no { result ≡ false → All (λ (a : Activity). a.ended ≡ true) activities.now }
    ensures yes { result ≡ true → ¬ (All (λ (a : Activity). a.ended ≡ true) activities.now) }
{
    for activity in activities {
        if !activity.ended {
            return true;
        }
    }
    false
}

/// A turn of each activity that has not ended.
fn round<O: Sink>(
    alloc: Global,
    play: Play,
    rules: Rules,
    turn: u64,
    out: &mut O,
) -> Result<Play, Halt>
    requires going { IsGoing rules play }
    requires settled { Settled play.activities.items }
    requires some { 1 ≤ turn }
    ensures ok { IfOk result (TurnsTo rules (over O.seen out.old out.new)
        (Is (by_round rules.budget turn)) play) }
    ensures settled { IfOk result (λ next. Settled next.activities.items) }
    ensures sooner { IfOk result (AllSooner rules.budget play) }
    ensures less { IfOk result (λ next. ¬ (All (λ (a : Activity). a.ended ≡ true) play.activities.items) → fuel rules.budget next < fuel rules.budget play) }
    ensures err { IfErr result (HaltsIn rules (over O.seen out.old out.new)
        (by_round rules.budget turn) play) }
    ensures never_falls { (O.seen out.old).faults ≤ (O.seen out.new).faults }
{
    let count = play.activities.len();
    let mut current = play;
    for place in 0..count {
        match turn_at(alloc, current, rules, place, turn, out) {
            Ok(next) => current = next,
            Err(halt) => return Err(halt),
        }
    }
    Ok(current)
}

/// A turn of the activity at a place, where it has not ended. Behind its third dropped try the fourth begins at once, and goes on to
/// its end.
fn turn_at<O: Sink>(
    alloc: Global,
    play: Play,
    rules: Rules,
    place: usize,
    steps: u64,
    out: &mut O,
) -> Result<Play, Halt>
    requires going { IsGoing rules play }
    requires settled { Settled play.activities.items }
    requires place { place < length play.activities.items }
    requires some { 1 ≤ steps }
    ensures ok { IfOk result (TurnsTo rules (over O.seen out.old out.new)
        (Is (by_turn rules.budget (at_place place steps))) play) }
    ensures settled { IfOk result (λ next. Settled next.activities.items) }
    ensures changes { IfOk result (TurnAt rules.budget place play) }
    ensures err { IfErr result (HaltsIn rules (over O.seen out.old out.new)
        (by_turn rules.budget (at_place place steps)) play) }
    ensures never_falls { (O.seen out.old).faults ≤ (O.seen out.new).faults }
{
    if has_ended(play.activities.as_slice(), place) {
        return Ok(play);
    }
    match one_turn(alloc, play, rules, place, steps, out) {
        Ok(next) => last_turn(alloc, next, rules, place, out),
        Err(halt) => Err(halt),
    }
}

/// The fourth try of the activity at a place, to its end, where it is due.
fn last_turn<O: Sink>(
    alloc: Global,
    play: Play,
    rules: Rules,
    place: usize,
    out: &mut O,
) -> Result<Play, Halt>
    requires going { IsGoing rules play }
    requires place { place < length play.activities.items }
    requires due { (a : Activity) → slice_get play.activities.items place ≡ Some a → last_is_due a ≡ true → MayTurn rules.budget rules.budget a }
    ensures ok { IfOk result (LastTurn rules (over O.seen out.old out.new) place play) }
    ensures err { IfErr result (LastHalts rules (over O.seen out.old out.new) place play) }
    ensures never_falls { (O.seen out.old).faults ≤ (O.seen out.new).faults }
{
    if is_last(play.activities.as_slice(), place) {
        return one_turn(alloc, play, rules, place, rules.budget, out);
    }
    Ok(play)
}

/// Whether the activity at a place has ended.
fn has_ended(activities: &[Activity], place: usize) -> bool
    requires { place < length activities.now }
    ensures { (a : Activity) → slice_get activities.now place ≡ Some a → result ≡ a.ended }
{
    activities[place].ended
}

/// Whether the fourth try of the activity at a place is due.
fn is_last(activities: &[Activity], place: usize) -> bool
    requires { place < length activities.now }
    ensures { (a : Activity) → slice_get activities.now place ≡ Some a → result ≡ last_is_due a }
{
    let activity = &activities[place];
    if activity.ended {
        return false;
    }
    activity.dropped == 3
}

/// One turn of an activity's try, or of a new one where none rests, and what it prints is written.
fn one_turn<O: Sink>(
    alloc: Global,
    play: Play,
    rules: Rules,
    place: usize,
    steps: u64,
    out: &mut O,
) -> Result<Play, Halt>
    requires going { IsGoing rules play }
    requires place { place < length play.activities.items }
    requires there { (a : Activity) → slice_get play.activities.items place ≡ Some a → MayTurn rules.budget steps a }
    requires some { 1 ≤ steps }
    ensures ok { IfOk result (OneTurn rules (over O.seen out.old out.new) place steps play) }
    ensures err { IfErr result (HaltsAt rules (over O.seen out.old out.new) place steps play) }
    ensures never_falls { (O.seen out.old).faults ≤ (O.seen out.new).faults }
{
    match turned(alloc, play, rules, place, steps) {
        Ok(turned) => written(turned, out),
        Err(OutOfMemory) => Err(Halt::OutOfMemory),
    }
}

/// Writes what is printed for a turn.
fn written<O: Sink>(turned: (Play, Vec<u8>), out: &mut O) -> Result<Play, Halt>
    ensures ok { IfOk result (λ next. (next ≡ turned.0) × Got (over O.seen out.old out.new) turned.1.items) }
    ensures err { IfErr result (λ halt. (halt ≡ Halt.SinkFailed)
        × Stops (over O.seen out.old out.new) turned.1.items) }
    ensures never_falls { (O.seen out.old).faults ≤ (O.seen out.new).faults }
{
    let (next, output) = turned;
    match write_pieces(out, output.as_slice()) {
        Ok(()) => Ok(next),
        Err(_) => Err(Halt::SinkFailed),
    }
}

/// One turn of an activity's try, and what it prints.
fn turned(
    alloc: Global,
    play: Play,
    rules: Rules,
    place: usize,
    steps: u64,
) -> Result<(Play, Vec<u8>), OutOfMemory>
    requires going { IsGoing rules play }
    requires place { place < length play.activities.items }
    requires there { (a : Activity) → slice_get play.activities.items place ≡ Some a → MayTurn rules.budget steps a }
    requires some { 1 ≤ steps }
    ensures { IfOk result (λ r. TurnMade rules place steps play r.0 r.1.items) }
{
    let Play {
        common,
        mut activities,
        mut ends,
        drawn,
    } = play;
    let running = take_running(&mut activities, place);
    let part = place as u32;
    let config = go_on_or_open(alloc, common, running, drawn, rules, part)?;
    let owner = config.owner;
    let taken = take_turn(config, place, steps)?;
    let (common, came) = taken;
    let output = note_at(alloc, &mut activities, place, &mut ends, owner, came)?;
    let next = Play {
        common,
        activities,
        ends,
        drawn: latest(drawn, owner),
    };
    Ok((next, output))
}

/// The later one of two owners.
fn latest(a: u32, b: u32) -> u32
    ensures { result ≡ max a b }
{
    a.max(b)
}

/// A try goes on where it rested; where none rests, the next owner's begins.
fn go_on_or_open(
    alloc: Global,
    common: Common,
    running: Option<Rested>,
    drawn: u32,
    rules: Rules,
    place: u32,
) -> Result<Config<Session>, OutOfMemory>
    requires live { common.shared.spent ≡ false }
    requires common { IsCommon common.texts common.arena common.units.items (worlds_in common.shared) drawn }
    requires part { rules.first + place < length common.units.items }
    requires few { length common.units.items ≤ 1001 }
    requires place { place < length common.apart.items }
    requires rests { IfSome running (λ (r : Rested). Rests (worlds_in common.shared) r.resting
        × ((us : Listed) → us.items ≡ set common.apart.items place no_owner → Sound itself (resting us common r))) }
    requires owns { IfSome running (λ (r : Rested). Owns common r × IsArena (joined common.arena r.objects)) }
    requires apart { running ≡ None → drawn + 1 < no_owner → (u : ℕ) → IsTrue (is_apart common.apart.items u) → MayList (drawn + 1) common u }
    ensures running { IfOk result (λ config. config.state ≡ State.Running) }
    ensures sound { IfOk result (Sound (⟦<Session as WorldStore>⟧.meaning)) }
    ensures begun { IfOk result (λ config. running ≡ None → Begun (⟦<Session as WorldStore>⟧.meaning) (drawn + 1)
        (rules.first + place) rules.budget common config) }
    ensures goes_on { IfOk result (λ config. (r : Rested) → running ≡ Some r → GoesOnAs (⟦<Session as WorldStore>⟧.meaning) common r config) }
    ensures few { IfOk result (λ config. running ≡ None → drawn + 1 < no_owner) }
    ensures list { IfOk result (λ config. (r : Rested) → running ≡ Some r → config.apart.items ≡ set common.apart.items place no_owner) }
{
    match running {
        Some(rest) => resume(common, rest, place as usize),
        None => open_next(alloc, common, drawn, rules, place),
    }
}

/// The next owner's try begins.
fn open_next(
    alloc: Global,
    common: Common,
    drawn: u32,
    rules: Rules,
    place: u32,
) -> Result<Config<Session>, OutOfMemory>
    requires live { common.shared.spent ≡ false }
    requires common { IsCommon common.texts common.arena common.units.items (worlds_in common.shared) drawn }
    requires part { rules.first + place < length common.units.items }
    requires few { length common.units.items ≤ 1001 }
    requires apart { drawn + 1 < no_owner → (u : ℕ) → IsTrue (is_apart common.apart.items u) → MayList (drawn + 1) common u }
    ensures running { IfOk result (λ config. config.state ≡ State.Running) }
    ensures sound { IfOk result (Sound (⟦<Session as WorldStore>⟧.meaning)) }
    ensures begun { IfOk result (Begun (⟦<Session as WorldStore>⟧.meaning) (drawn + 1) (rules.first + place) rules.budget common) }
    ensures few { IfOk result (λ config. drawn + 1 < no_owner) }
{
    match next_owner(drawn) {
        Some(owner) => open(alloc, common, owner, rules.first + place, rules.budget),
        None => Err(OutOfMemory),
    }
}
