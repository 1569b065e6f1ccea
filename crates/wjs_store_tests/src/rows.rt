//! Rows of an object that are written by one call, beside the writes of each in turn, on full copies and on sparse worlds.

use std::alloc::Global;
use std::test::Fail;
use wjs_base::{Content, Name, ObjId, OutOfMemory, Slot, TextId, Value, WorldId};
use wjs_full::{FullStore, run_actions};
use wjs_overlay::Overlay;
use wjs_store::{Action, WorldStore, same_content};

const FIRST: WorldId = WorldId {
    owner: 0,
    serial: 0,
};

const CHILD: WorldId = WorldId {
    owner: 0,
    serial: 1,
};

/// Names that ascend and some that don't, and one twice.
const NAMES: [Name; 11] = [
    Name::Index(0),
    Name::Index(1),
    Name::Text(TextId(3)),
    Name::Text(TextId(5)),
    Name::Text(TextId(4)),
    Name::Index(2),
    Name::Text(TextId(3)),
    Name::Text(TextId(9)),
    Name::Text(TextId(9)),
    Name::Text(TextId(40_000)),
    Name::Text(TextId(8)),
];

/// From which place on which names are written, and up to which: none, as many as stand in an object's place, and more.
const CASES: [(usize, usize); 15] = [
    (0, 0),
    (0, 1),
    (1, 3),
    (3, 5),
    (0, 3),
    (2, 5),
    (5, 8),
    (0, 4),
    (0, 8),
    (1, 5),
    (3, 7),
    (4, 8),
    (4, 7),
    (7, 9),
    (7, 11),
];

/// The rows of a case, each with a value that tells its place.
fn rows_of(alloc: Global, from: usize, to: usize) -> Result<Vec<(Name, Value)>, OutOfMemory> {
    let mut rows = Vec::new(alloc);
    for (place, name) in NAMES.iter().enumerate() {
        if from <= place && place < to {
            rows.push((*name, Value::Text(TextId(place as u64))))?;
        }
    }
    Ok(rows)
}

/// Writes rows to an object by one call, in a world that is there.
fn write_at_once<S: WorldStore>(
    store: &mut S,
    world: WorldId,
    object: ObjId,
    rows: &[(Name, Value)],
) -> Result<(), OutOfMemory> {
    if !store.has_world(world) {
        return Ok(());
    }
    store.write_rows(world, object, rows)
}

/// Writes them in turn.
fn write_in_turn<S: WorldStore>(
    store: &mut S,
    world: WorldId,
    object: ObjId,
    rows: &[(Name, Value)],
) -> Result<(), OutOfMemory> {
    for row in rows {
        let slot = Slot {
            object,
            name: row.0,
        };
        if store.has_world(world) {
            store.write(world, slot, Content::Present(row.1))?;
        }
    }
    Ok(())
}

/// What a slot holds in a world that is there.
fn held<S: WorldStore>(
    store: &mut S,
    world: WorldId,
    slot: Slot,
) -> Result<Option<Content>, OutOfMemory> {
    if !store.has_world(world) {
        return Ok(None);
    }
    let found = store.read(world, slot)?;
    Ok(Some(found))
}

/// Whether two stores hold the same in all slots of an object that are written here.
fn are_alike<S: WorldStore, R: WorldStore>(
    one: &mut S,
    other: &mut R,
    world: WorldId,
    object: ObjId,
) -> Result<bool, OutOfMemory> {
    for name in &NAMES {
        let slot = Slot {
            object,
            name: *name,
        };
        let (Some(a), Some(b)) = (held(one, world, slot)?, held(other, world, slot)?) else {
            return Ok(false);
        };
        if !same_content(a, b) {
            return Ok(false);
        }
    }
    Ok(true)
}

#[test]
fn rows_at_once_are_what_rows_in_turn_are(rt: HostRuntime) -> Result<(), Fail> {
    let mut full = FullStore::new(rt.alloc())?;
    let mut turns = FullStore::new(rt.alloc())?;
    let mut sparse = Overlay::new(rt.alloc())?;
    let sprout = [Action::Sprout {
        world: FIRST,
        owner: 0,
        strict: false,
    }];
    let _ = run_actions(rt.alloc(), &mut full, &sprout)?;
    let _ = run_actions(rt.alloc(), &mut turns, &sprout)?;
    let _ = run_actions(rt.alloc(), &mut sparse, &sprout)?;
    for (case, ends) in CASES.iter().enumerate() {
        // the second time the object isn't new, and the third time it is a child world's
        for (turn, world) in [FIRST, FIRST, CHILD].iter().enumerate() {
            let object = ObjId {
                owner: 0,
                serial: case as u64,
            };
            let last = if turn == 0 { ends.1 } else { NAMES.len() };
            let rows = rows_of(rt.alloc(), ends.0, last)?;
            write_at_once(&mut full, *world, object, rows.as_slice())?;
            write_in_turn(&mut turns, *world, object, rows.as_slice())?;
            write_at_once(&mut sparse, *world, object, rows.as_slice())?;
            let copied = are_alike(&mut full, &mut turns, *world, object)?;
            let kept = are_alike(&mut sparse, &mut turns, *world, object)?;
            assert!(rt; copied, "full copies, case {case}");
            assert!(rt; kept, "sparse worlds, case {case}");
        }
    }
    Ok(())
}
