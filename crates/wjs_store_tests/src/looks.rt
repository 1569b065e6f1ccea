//! A look at a slot beside the read that follows it, over drawn actions, on full copies and on sparse worlds.

use std::process::Abort;
use std::test::Fail;
use wjs_base::{Content, Name, ObjId, OutOfMemory, Slot, TextId, Value, WorldId};
use wjs_full::{FullStore, run_actions};
use wjs_overlay::Overlay;
use wjs_store::{Action, WorldStore, same_content};

/// The number after this one of a drawn sequence: its high bits are the ones to use.
fn next(drawn: u64) -> u64 {
    drawn
        .wrapping_mul(6364136223846793005)
        .wrapping_add(1442695040888963407)
}

/// The first world or one of 15 others, which may not be there yet.
fn world_of(drawn: u64) -> WorldId {
    WorldId {
        owner: 0,
        serial: (drawn >> 60) % 16,
    }
}

/// One of eight names of one of two objects.
fn slot_of(drawn: u64) -> Slot {
    let name = match (drawn >> 57) % 8 {
        0 => Name::Index(0),
        1 => Name::Index(1),
        text => Name::Text(TextId(text)),
    };
    Slot {
        object: object_of(drawn),
        name,
    }
}

fn object_of(drawn: u64) -> ObjId {
    ObjId {
        owner: 0,
        serial: (drawn >> 56) % 2,
    }
}

fn content_of(drawn: u64) -> Content {
    if (drawn >> 53) % 3 == 0 {
        Content::Absent
    } else {
        Content::Present(Value::Bool((drawn >> 52) % 2 == 0))
    }
}

fn action_of(drawn: u64) -> Action {
    let world = world_of(drawn);
    match (drawn >> 48) % 8 {
        0 => Action::Sprout {
            world,
            owner: 0,
            strict: (drawn >> 47) % 2 == 0,
        },
        1 => Action::Commit { world },
        2 => Action::List {
            world,
            object: object_of(drawn),
        },
        _ => Action::Write {
            world,
            slot: slot_of(drawn),
            content: content_of(drawn),
        },
    }
}

/// What a look saw, what the read after it found, and whether that recorded a read.
#[derive(Clone, Copy)]
struct Look {
    seen: Option<Content>,
    found: Content,
    recorded: bool,
}

/// Looks at a slot and then reads it, in a world that is there.
fn looked<S: WorldStore>(
    store: &mut S,
    world: WorldId,
    slot: Slot,
) -> Result<Option<Look>, OutOfMemory> {
    if !store.has_world(world) {
        return Ok(None);
    }
    let reads = store.counts(world).reads;
    let seen = store.peek(world, slot);
    let found = store.read(world, slot)?;
    let recorded = store.has_world(world) && reads < store.counts(world).reads;
    Ok(Some(Look {
        seen,
        found,
        recorded,
    }))
}

/// Whether a look at sparse worlds is right: one that saw something saw what was found, where nothing was recorded. One that saw
/// nothing was at a slot that is recorded now, or is absent under a listed object.
fn is_right(look: Look) -> bool {
    match look.seen {
        Some(seen) => same_content(seen, look.found) && !look.recorded,
        None => look.recorded || same_content(look.found, Content::Absent),
    }
}

#[test]
fn a_look_sees_what_a_read_would_find(rt: HostRuntime) -> Result<(), Fail> {
    let mut full = FullStore::new(rt.alloc())?;
    let mut sparse = Overlay::new(rt.alloc())?;
    let mut drawn = 1;
    let mut answered = 0u32;
    for round in 0..600 {
        drawn = next(drawn);
        let action = [action_of(drawn)];
        let _ = run_actions(rt.alloc(), &mut full, &action)?;
        let _ = run_actions(rt.alloc(), &mut sparse, &action)?;
        drawn = next(drawn);
        let copied = looked(&mut full, world_of(drawn), slot_of(drawn))?;
        let kept = looked(&mut sparse, world_of(drawn), slot_of(drawn))?;
        answered = answered.saturating_add(told(&rt, copied, kept, world_of(drawn), round));
    }
    // of some two hundred looks at a world that is there, more than half are at what it touched before
    assert!(rt; 100 < answered && answered < 150, "{answered} answered");
    Ok(())
}

/// Compares the looks at both stores; 1 where the sparse worlds answered.
fn told(
    rt: &impl Abort,
    copied: Option<Look>,
    kept: Option<Look>,
    world: WorldId,
    round: u32,
) -> u32 {
    let (Some(copied), Some(kept)) = (copied, kept) else {
        assert!(rt;
            copied.is_none() && kept.is_none(),
            "there in one alone, round {round}"
        );
        return 0;
    };
    assert!(rt;
        copied.seen.is_none(),
        "full copies say nothing, round {round}"
    );
    assert!(rt;
        same_content(copied.found, kept.found),
        "found otherwise, round {round}"
    );
    assert!(rt;
        copied.recorded == kept.recorded,
        "recorded otherwise, round {round}"
    );
    assert!(rt; is_right(kept), "a wrong look, round {round}");
    assert!(rt;
        world.serial != 0 || kept.seen.is_some(),
        "the first world says all, round {round}"
    );
    if kept.seen.is_some() { 1 } else { 0 }
}
