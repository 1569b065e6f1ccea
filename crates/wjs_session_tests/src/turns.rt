//! Sessions that take turns: what one has read, another's commit shows in its check.

use crate::acting::{Due, are_due, begin, does, end, write_beside};
use crate::pair::Pair;
use std::alloc::Global;
use std::process::Abort;
use std::test::Fail;
use wjs_base::{Content, Name, ObjId, OutOfMemory, Slot, TextId, Value, WorldId};
use wjs_overlay::Overlay;
use wjs_session::Session;
use wjs_store::{Action, Verdict};

const FIRST: WorldId = WorldId {
    owner: 0,
    serial: 0,
};

const OWN: WorldId = WorldId {
    owner: 1,
    serial: 0,
};

const BELOW: WorldId = WorldId {
    owner: 1,
    serial: 1,
};

const OTHER: WorldId = WorldId {
    owner: 2,
    serial: 0,
};

const OBJECT: ObjId = ObjId {
    owner: 0,
    serial: 7,
};

const S: Slot = Slot {
    object: OBJECT,
    name: Name::Text(TextId(1)),
};

const T: Slot = Slot {
    object: OBJECT,
    name: Name::Text(TextId(2)),
};

const YES: Content = Content::Present(Value::Bool(true));

const NO: Content = Content::Present(Value::Bool(false));

const SPROUT: Action = Action::Sprout {
    world: OWN,
    owner: 1,
    strict: false,
};

const COMMIT: Action = Action::Commit { world: BELOW };

const LIST: Action = Action::List {
    world: BELOW,
    object: OBJECT,
};

const READ_S: Action = Action::Read {
    world: OWN,
    slot: S,
};

const READ_T: Action = Action::Read {
    world: OWN,
    slot: T,
};

const READ_S_BELOW: Action = Action::Read {
    world: BELOW,
    slot: S,
};

const READ_T_BELOW: Action = Action::Read {
    world: BELOW,
    slot: T,
};

const READ_FIRST_S: Action = Action::Read {
    world: FIRST,
    slot: S,
};

const READ_FIRST_T: Action = Action::Read {
    world: FIRST,
    slot: T,
};

const WRITE_FIRST_S: Action = Action::Write {
    world: FIRST,
    slot: S,
    content: NO,
};

const WRITE_S_BELOW: Action = Action::Write {
    world: BELOW,
    slot: S,
    content: YES,
};

const WRITE_T_BELOW: Action = Action::Write {
    world: BELOW,
    slot: T,
    content: YES,
};

const WRITE_OTHER_S: Action = Action::Write {
    world: OTHER,
    slot: S,
    content: YES,
};

const WRITE_OTHER_T: Action = Action::Write {
    world: OTHER,
    slot: T,
    content: NO,
};

/// A turn of the one of two sessions, with its answers compared.
fn turn(
    rt: &impl Abort,
    alloc: Global,
    pair: Pair,
    actions: &[Action],
    due: &[Due],
) -> Result<Pair, OutOfMemory> {
    let (pair, answers) = pair.act(alloc, actions)?;
    assert!(rt; are_due(answers.as_slice(), due));
    Ok(pair)
}

/// Two sessions over a first world in which a slot is written.
fn pair_over(rt: &impl Abort, alloc: Global) -> Result<Pair, OutOfMemory> {
    let mut shared = Overlay::new(alloc)?;
    does(rt, alloc, &mut shared, &[WRITE_FIRST_S], &[Due::Wrote])?;
    Pair::begin(alloc, shared)
}

/// The one of two sessions agrees, and is settled.
fn settled(rt: &impl Abort, pair: Pair) -> Result<Session, OutOfMemory> {
    let (session, agrees, verdict) = pair.settle()?;
    assert!(rt; agrees && verdict == Verdict::Moved);
    Ok(session)
}

/// The end of a session, which agrees where it moves, and what the first world then holds.
fn ends(
    rt: &impl Abort,
    alloc: Global,
    session: Session,
    verdict: Verdict,
    due: &[Due],
) -> Result<(), OutOfMemory> {
    let (mut shared, agrees, got) = end(session)?;
    assert!(rt; got == verdict && agrees == (got == Verdict::Moved));
    does(rt, alloc, &mut shared, &[READ_FIRST_S, READ_FIRST_T], due)
}

/// What was written below was read in the session's own world.
#[test]
fn what_was_read_stays_and_is_refused(rt: HostRuntime) -> Result<(), Fail> {
    let alloc = rt.alloc();
    let pair = pair_over(&rt, alloc)?;
    let actions = [READ_S, SPROUT, WRITE_T_BELOW];
    let due = [Due::Found(NO), Due::Sprouted(BELOW), Due::Wrote];
    let pair = turn(&rt, alloc, pair, &actions, &due)?.swap();
    let actions = [WRITE_OTHER_S, WRITE_OTHER_T];
    let due = [Due::Wrote, Due::Wrote];
    let pair = turn(&rt, alloc, pair, &actions, &due)?;
    let mut session = settled(&rt, pair)?;
    let actions = [READ_S, READ_S_BELOW, READ_T, READ_T_BELOW];
    let due = [
        Due::Found(NO),
        Due::Found(NO),
        Due::Found(Content::Absent),
        Due::Found(YES),
    ];
    does(&rt, alloc, &mut session, &actions, &due)?;
    let due = [Due::Found(YES), Due::Found(NO)];
    Ok(ends(&rt, alloc, session, Verdict::Disagrees(S), &due)?)
}

/// What a session has not touched is the first world's.
#[test]
fn sessions_apart_both_move(rt: HostRuntime) -> Result<(), Fail> {
    let alloc = rt.alloc();
    let pair = pair_over(&rt, alloc)?;
    let actions = [SPROUT, WRITE_S_BELOW, COMMIT];
    let due = [Due::Sprouted(BELOW), Due::Wrote, Due::Moved];
    let pair = turn(&rt, alloc, pair, &actions, &due)?.swap();
    let pair = turn(&rt, alloc, pair, &[WRITE_OTHER_T], &[Due::Wrote])?;
    let mut session = settled(&rt, pair)?;
    let due = [Due::Found(NO), Due::Found(YES)];
    does(&rt, alloc, &mut session, &[READ_T_BELOW, READ_S], &due)?;
    let due = [Due::Found(YES), Due::Found(NO)];
    Ok(ends(&rt, alloc, session, Verdict::Moved, &due)?)
}

#[test]
fn a_slot_under_a_listed_object_is_refused(rt: HostRuntime) -> Result<(), Fail> {
    let alloc = rt.alloc();
    let mut session = begin(alloc, Overlay::new(alloc)?, 1)?;
    let due = [Due::Sprouted(BELOW), Due::ListedNone];
    does(&rt, alloc, &mut session, &[SPROUT, LIST], &due)?;
    let mut session = write_beside(session, T, NO)?;
    let due = [Due::ListedNone, Due::Found(Content::Absent)];
    does(&rt, alloc, &mut session, &[LIST, READ_T], &due)?;
    let due = [Due::Found(Content::Absent), Due::Found(NO)];
    Ok(ends(&rt, alloc, session, Verdict::Disagrees(T), &due)?)
}
