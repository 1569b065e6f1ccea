//! A session answers drawn actions as full copies do. They mark its world as a child of full copies is marked by what they ask
//! of it, and it ends as that child does.

use crate::acting::{begin, end, marks, same_answer, write_beside};
use std::alloc::Global;
use std::process::Abort;
use std::test::Fail;
use wjs_base::{Content, Name, ObjId, OutOfMemory, Slot, TextId, Value, WorldId};
use wjs_full::{FullStore, run_actions};
use wjs_overlay::Overlay;
use wjs_session::Session;
use wjs_store::{Action, Answer, Counts, Verdict, WorldStore};

const FIRST: WorldId = WorldId {
    owner: 0,
    serial: 0,
};

const CHILD: WorldId = WorldId {
    owner: 0,
    serial: 1,
};

/// What stands beside a session of owner 1.
#[derive(Drop)]
struct Beside {
    /// Its worlds, as owner 0's.
    worlds: FullStore,
    /// The same worlds, which tell what was written in them.
    sparse: Overlay,
    /// The shared first world, and as a child of it the session's own world with its marks.
    child: FullStore,
}

/// The number after this one of a drawn sequence: its high bits are the ones to use.
fn next(drawn: u64) -> u64 {
    drawn
        .wrapping_mul(6364136223846793005)
        .wrapping_add(1442695040888963407)
}

fn object_of(drawn: u64) -> ObjId {
    ObjId {
        owner: 0,
        serial: (drawn >> 56) % 2,
    }
}

/// One of four names of one of two objects.
fn slot_of(drawn: u64) -> Slot {
    let name = match (drawn >> 57) % 4 {
        0 => Name::Index(0),
        text => Name::Text(TextId(text)),
    };
    Slot {
        object: object_of(drawn),
        name,
    }
}

fn content_of(drawn: u64) -> Content {
    if (drawn >> 53) % 3 == 0 {
        Content::Absent
    } else {
        Content::Present(Value::Bool((drawn >> 52) % 2 == 0))
    }
}

/// A write in the first world.
fn write_of(drawn: u64) -> Action {
    Action::Write {
        world: FIRST,
        slot: slot_of(drawn),
        content: content_of(drawn),
    }
}

/// An action in one of six worlds of this owner, which may not be there yet.
fn action_of(drawn: u64, owner: u32) -> Action {
    let world = WorldId {
        owner,
        serial: (drawn >> 60) % 6,
    };
    match (drawn >> 48) % 8 {
        0 => Action::Sprout {
            world,
            owner,
            strict: (drawn >> 47) % 2 == 0,
        },
        1 => Action::Commit { world },
        2 => Action::List {
            world,
            object: object_of(drawn),
        },
        3 | 4 => Action::Read {
            world,
            slot: slot_of(drawn),
        },
        _ => Action::Write {
            world,
            slot: slot_of(drawn),
            content: content_of(drawn),
        },
    }
}

/// The answer of a store to one action.
fn one<S: WorldStore>(alloc: Global, store: &mut S, action: Action) -> Result<Answer, OutOfMemory> {
    let mut answers = run_actions(alloc, store, &[action])?;
    match answers.pop() {
        Some(answer) => Ok(answer),
        None => Err(OutOfMemory),
    }
}

/// What is written in a child of the first world, in order.
fn written_in(alloc: Global, sparse: &Overlay, world: WorldId) -> Result<Vec<Slot>, OutOfMemory> {
    let mut slots = Vec::new(alloc);
    if sparse.is_spent() {
        return Err(OutOfMemory);
    }
    if !sparse.has_world(world) {
        return Ok(slots);
    }
    let is_below = match sparse.parent(world) {
        Some(parent) => parent == FIRST,
        None => false,
    };
    if !is_below {
        return Ok(slots);
    }
    let mut passed = None;
    for _ in 0..sparse.counts(world).writes {
        let Some(slot) = sparse.next_written(world, passed) else {
            break;
        };
        if slots.push(slot).is_err() {
            return Err(OutOfMemory);
        }
        passed = Some(slot);
    }
    Ok(slots)
}

/// What moved from below is written in the session's own world.
fn move_up(alloc: Global, beside: &mut Beside, slots: &[Slot]) -> Result<(), OutOfMemory> {
    for slot in slots {
        let read = Action::Read {
            world: FIRST,
            slot: *slot,
        };
        if let Answer::Found(content) = one(alloc, &mut beside.worlds, read)? {
            let write = Action::Write {
                world: CHILD,
                slot: *slot,
                content,
            };
            one(alloc, &mut beside.child, write)?;
        }
    }
    Ok(())
}

/// What an action of the session asks of its own world.
///
/// What is done there is done there; what is read or written below is read there, and what is listed below is listed there.
fn ask(alloc: Global, beside: &mut Beside, action: Action) -> Result<(), OutOfMemory> {
    let world = CHILD;
    let asked = match action {
        Action::Read { slot, .. } => Action::Read { world, slot },
        Action::Write {
            world: at,
            slot,
            content,
        } => if at == FIRST {
            Action::Write {
                world,
                slot,
                content,
            }
        } else {
            Action::Read { world, slot }
        },
        Action::List { object, .. } => Action::List { world, object },
        _ => return Ok(()),
    };
    one(alloc, &mut beside.child, asked)?;
    Ok(())
}

/// Does an action beside the session, and gives the answer that is due.
fn step(alloc: Global, beside: &mut Beside, action: Action) -> Result<Answer, OutOfMemory> {
    let slots = match action {
        Action::Commit { world } => written_in(alloc, &beside.sparse, world)?,
        _ => Vec::new(alloc),
    };
    let due = one(alloc, &mut beside.worlds, action)?;
    one(alloc, &mut beside.sparse, action)?;
    match &due {
        Answer::NoWorld => {}
        Answer::Committed(Verdict::Moved) => move_up(alloc, beside, slots.as_slice())?,
        _ => ask(alloc, beside, action)?,
    }
    Ok(due)
}

fn is_marked(child: &FullStore, counts: Counts) -> bool {
    if !child.has_world(CHILD) {
        return false;
    }
    let due = child.counts(CHILD);
    due.reads == counts.reads && due.writes == counts.writes && due.closed == counts.closed
}

/// Writes a slot in the first world of each store.
fn write_first(
    alloc: Global,
    beside: &mut Beside,
    shared: &mut Overlay,
    write: Action,
) -> Result<(), OutOfMemory> {
    one(alloc, &mut beside.worlds, write)?;
    one(alloc, &mut beside.sparse, write)?;
    one(alloc, &mut beside.child, write)?;
    one(alloc, shared, write)?;
    Ok(())
}

/// Eight slots are written in the first world, and the session begins.
fn start(alloc: Global, mut drawn: u64) -> Result<(Beside, Session), OutOfMemory> {
    let mut beside = Beside {
        worlds: FullStore::new(alloc)?,
        sparse: Overlay::new(alloc)?,
        child: FullStore::new(alloc)?,
    };
    let mut shared = Overlay::new(alloc)?;
    for _ in 0..8 {
        drawn = next(drawn);
        write_first(alloc, &mut beside, &mut shared, write_of(drawn))?;
    }
    let sprout = Action::Sprout {
        world: FIRST,
        owner: 0,
        strict: false,
    };
    one(alloc, &mut beside.child, sprout)?;
    Ok((beside, begin(alloc, shared, 1)?))
}

/// Compares what two first worlds hold in the eight slots.
fn same_first(
    rt: &impl Abort,
    alloc: Global,
    child: &mut FullStore,
    shared: &mut Overlay,
) -> Result<(), OutOfMemory> {
    for place in 0..8u64 {
        let read = Action::Read {
            world: FIRST,
            slot: slot_of(place << 56),
        };
        let due = one(alloc, child, read)?;
        let got = one(alloc, shared, read)?;
        assert!(rt; same_answer(&due, &got));
    }
    Ok(())
}

/// A slot changes in the first world, and the session ends.
fn finish(
    rt: &impl Abort,
    alloc: Global,
    child: &mut FullStore,
    session: Session,
    drawn: u64,
) -> Result<(), OutOfMemory> {
    let session = write_beside(session, slot_of(drawn), content_of(drawn))?;
    one(alloc, child, write_of(drawn))?;
    let (mut shared, agrees, verdict) = end(session)?;
    let due = one(alloc, child, Action::Commit { world: CHILD })?;
    assert!(rt; same_answer(&due, &Answer::Committed(verdict)));
    assert!(rt; agrees == (verdict == Verdict::Moved));
    same_first(rt, alloc, child, &mut shared)
}

/// A drawn action, behind which the session rests and goes on.
fn act(
    rt: &impl Abort,
    alloc: Global,
    beside: &mut Beside,
    mut session: Session,
    drawn: u64,
) -> Result<Session, OutOfMemory> {
    let due = step(alloc, beside, action_of(drawn, 0))?;
    let got = one(alloc, &mut session, action_of(drawn, 1))?;
    assert!(rt; same_answer(&due, &got));
    let (session, counts) = marks(session)?;
    assert!(rt; is_marked(&beside.child, counts));
    Ok(session)
}

/// So many drawn actions, and the session's end.
fn check(rt: &impl Abort, alloc: Global, mut drawn: u64, actions: u64) -> Result<(), OutOfMemory> {
    let (mut beside, mut session) = start(alloc, drawn)?;
    for _ in 0..actions {
        drawn = next(drawn);
        session = act(rt, alloc, &mut beside, session, drawn)?;
    }
    finish(rt, alloc, &mut beside.child, session, next(drawn))
}

#[test]
fn drawn_actions_are_answered_and_marked_as_over_full_copies(rt: HostRuntime) -> Result<(), Fail> {
    for seed in 0..16u64 {
        check(&rt, rt.alloc(), next(next(seed)), seed * 8)?;
    }
    Ok(())
}
