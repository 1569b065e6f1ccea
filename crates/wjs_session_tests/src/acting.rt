//! What the tests do with sessions, and what they compare.
use std::alloc::Global;
use std::process::Abort;
use wjs_base::{Content, Names, OutOfMemory, Slot, WorldId};
use wjs_full::run_actions;
use wjs_overlay::Overlay;
use wjs_session::{Session, resting_stands_still, writes_leave_others};
use wjs_store::{Action, Answer, Counts, Verdict, WorldStore, same_content};

fn same_names(a: &Names, b: &Names) -> bool {
    if a.len() != b.len() {
        return false;
    }
    (0..a.len()).all(|place| place < b.len() && a.at(place) == b.at(place))
}

/// Of two answers whose worlds may be of two owners.
pub(crate) fn same_answer(a: &Answer, b: &Answer) -> bool {
    match (a, b) {
        (Answer::Found(a), Answer::Found(b)) => same_content(*a, *b),
        (Answer::Wrote, Answer::Wrote) => true,
        (Answer::Listed(a), Answer::Listed(b)) => same_names(a, b),
        (Answer::Sprouted(a), Answer::Sprouted(b)) => a.serial == b.serial,
        (Answer::Committed(a), Answer::Committed(b)) => a == b,
        (Answer::NoWorld, Answer::NoWorld) => true,
        _ => false,
    }
}

/// An answer that is due.
#[derive(Clone, Copy)]
pub(crate) enum Due {
    Found(Content),
    Wrote,
    /// No names were listed.
    ListedNone,
    Sprouted(WorldId),
    Moved,
}

fn is_due(answer: &Answer, due: Due) -> bool {
    match (answer, due) {
        (Answer::Found(content), Due::Found(other)) => same_content(*content, other),
        (Answer::Wrote, Due::Wrote) => true,
        (Answer::Listed(names), Due::ListedNone) => names.len() == 0,
        (Answer::Sprouted(world), Due::Sprouted(other)) => *world == other,
        (Answer::Committed(verdict), Due::Moved) => *verdict == Verdict::Moved,
        _ => false,
    }
}

pub(crate) fn are_due(answers: &[Answer], due: &[Due]) -> bool {
    if answers.len() != due.len() {
        return false;
    }
    for (answer, due) in answers.iter().zip(due) {
        if !is_due(answer, *due) {
            return false;
        }
    }
    true
}

/// Does actions on a store, and compares its answers.
pub(crate) fn does<S: WorldStore>(
    rt: &impl Abort,
    alloc: Global,
    store: &mut S,
    actions: &[Action],
    due: &[Due],
) -> Result<(), OutOfMemory> {
    let got = run_actions(alloc, store, actions)?;
    assert!(rt; are_due(got.as_slice(), due));
    Ok(())
}

/// A session of an owner without worlds.
pub(crate) fn begin(alloc: Global, shared: Overlay, owner: u32) -> Result<Session, OutOfMemory> {
    if shared.is_spent() {
        return Err(OutOfMemory);
    }
    if shared.has_world(WorldId { owner, serial: 0 }) {
        return Err(OutOfMemory);
    }
    Session::begin(alloc, shared, owner)
}

/// Whether a session agrees, and its end.
pub(crate) fn end(session: Session) -> Result<(Overlay, bool, Verdict), OutOfMemory> {
    if session.is_spent() {
        return Err(OutOfMemory);
    }
    let agrees = session.agrees();
    let (shared, verdict) = session.settle()?;
    Ok((shared, agrees, verdict))
}

/// The sizes of the marks of a session's world, which the shared store tells while the session rests.
pub(crate) fn marks(session: Session) -> Result<(Session, Counts), OutOfMemory> {
    if session.is_spent() {
        return Err(OutOfMemory);
    }
    let world = session.first();
    let (shared, resting) = session.rest();
    if !shared.has_world(world) {
        return Err(OutOfMemory);
    }
    let counts = shared.counts(world);
    Ok((resting.resume(shared), counts))
}

/// A session rests while a slot is written in the first world.
pub(crate) fn write_beside(
    session: Session,
    slot: Slot,
    content: Content,
) -> Result<Session, OutOfMemory> {
    if session.is_spent() {
        return Err(OutOfMemory);
    }
    resting_stands_still();
    writes_leave_others();
    let (mut shared, resting) = session.rest();
    let first = shared.first();
    if !shared.has_world(first) {
        return Err(OutOfMemory);
    }
    shared.write(first, slot, content)?;
    Ok(resting.resume(shared))
}
