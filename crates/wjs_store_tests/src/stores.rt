//! Actions as worked by hand, on fresh full copies and on fresh sparse worlds: their answers and their history.

use std::alloc::Global;
use std::process::Abort;
use std::test::Fail;
use wjs_base::{Content, Name, Names, ObjId, OutOfMemory, Slot, TextId, Value, WorldId};
use wjs_full::{FullStore, run_actions, serial_history};
use wjs_overlay::Overlay;
use wjs_store::{Action, Answer, Verdict, same_content};

const FIRST: WorldId = WorldId {
    owner: 0,
    serial: 0,
};

const ONE: WorldId = WorldId {
    owner: 0,
    serial: 1,
};

const TWO: WorldId = WorldId {
    owner: 0,
    serial: 2,
};

const OBJECT: ObjId = ObjId {
    owner: 0,
    serial: 7,
};

const S: Slot = Slot {
    object: OBJECT,
    name: Name::Text(TextId(1)),
};

const T: Slot = Slot {
    object: OBJECT,
    name: Name::Text(TextId(2)),
};

const NULL: Content = Content::Present(Value::Null);

const YES: Content = Content::Present(Value::Bool(true));

const NO: Content = Content::Present(Value::Bool(false));

const SPROUT: Action = Action::Sprout {
    world: FIRST,
    owner: 0,
    strict: false,
};

const SPROUT_STRICT: Action = Action::Sprout {
    world: FIRST,
    owner: 0,
    strict: true,
};

const SPROUT_OF_ONE: Action = Action::Sprout {
    world: ONE,
    owner: 0,
    strict: false,
};

const READ_FIRST: Action = Action::Read {
    world: FIRST,
    slot: S,
};

const READ_ONE: Action = Action::Read {
    world: ONE,
    slot: S,
};

const READ_TWO: Action = Action::Read {
    world: TWO,
    slot: T,
};

const WRITE_FIRST: Action = Action::Write {
    world: FIRST,
    slot: S,
    content: YES,
};

const WRITE_FIRST_NO: Action = Action::Write {
    world: FIRST,
    slot: S,
    content: NO,
};

const WRITE_ONE: Action = Action::Write {
    world: ONE,
    slot: S,
    content: NULL,
};

const WRITE_TWO: Action = Action::Write {
    world: TWO,
    slot: S,
    content: NO,
};

const WRITE_TWO_T: Action = Action::Write {
    world: TWO,
    slot: T,
    content: YES,
};

const LIST: Action = Action::List {
    world: ONE,
    object: OBJECT,
};

const COMMIT: Action = Action::Commit { world: ONE };

const COMMIT_TWO: Action = Action::Commit { world: TWO };

const COMMIT_FIRST: Action = Action::Commit { world: FIRST };

fn same_names(a: &Names, b: &Names) -> bool {
    if a.len() != b.len() {
        return false;
    }
    (0..a.len()).all(|place| place < b.len() && a.at(place) == b.at(place))
}

fn same_answer(a: &Answer, b: &Answer) -> bool {
    match (a, b) {
        (Answer::Found(a), Answer::Found(b)) => same_content(*a, *b),
        (Answer::Wrote, Answer::Wrote) => true,
        (Answer::Listed(a), Answer::Listed(b)) => same_names(a, b),
        (Answer::Sprouted(a), Answer::Sprouted(b)) => a == b,
        (Answer::Committed(a), Answer::Committed(b)) => a == b,
        (Answer::NoWorld, Answer::NoWorld) => true,
        _ => false,
    }
}

fn same_answers(a: &[Answer], b: &[Answer]) -> bool {
    a.len() == b.len() && a.iter().zip(b.iter()).all(|(a, b)| same_answer(a, b))
}

/// The names of one listed slot.
fn one_name(alloc: Global, name: Name) -> Result<Names, OutOfMemory> {
    let mut names = Names::new(alloc);
    names.push(name)?;
    Ok(names)
}

fn expect(
    rt: &impl Abort,
    alloc: Global,
    actions: &[Action],
    due: &[Answer],
    history: &[u64],
) -> Result<(), Fail> {
    let mut full = FullStore::new(alloc)?;
    let mut overlay = Overlay::new(alloc)?;
    let told = run_actions(alloc, &mut full, actions)?;
    let got = run_actions(alloc, &mut overlay, actions)?;
    let places = serial_history(alloc, actions, got.as_slice())?;
    assert!(rt; same_answers(told.as_slice(), due), "full copies");
    assert!(rt; same_answers(got.as_slice(), due), "sparse worlds");
    assert_eq!(rt; places.as_slice(), history);
    Ok(())
}

#[test]
fn what_was_read_and_is_written_above_is_refused(rt: HostRuntime) -> Result<(), Fail> {
    // what was read and is written above
    let actions = [SPROUT, READ_ONE, WRITE_FIRST, READ_ONE, LIST, COMMIT];
    let due = [
        Answer::Sprouted(ONE),
        Answer::Found(Content::Absent),
        Answer::Wrote,
        Answer::Found(Content::Absent),
        Answer::Listed(Names::new(rt.alloc())),
        Answer::Committed(Verdict::Disagrees(S)),
    ];
    expect(&rt, rt.alloc(), &actions, &due, &[2])
}

#[test]
fn a_slot_under_a_listed_object_is_refused(rt: HostRuntime) -> Result<(), Fail> {
    // a slot that comes under an object that was listed without it
    let actions = [WRITE_TWO, SPROUT, LIST, WRITE_FIRST, READ_ONE, COMMIT];
    let due = [
        Answer::NoWorld,
        Answer::Sprouted(ONE),
        Answer::Listed(Names::new(rt.alloc())),
        Answer::Wrote,
        Answer::Found(Content::Absent),
        Answer::Committed(Verdict::Disagrees(S)),
    ];
    expect(&rt, rt.alloc(), &actions, &due, &[3])
}

#[test]
fn two_children_are_one_history(rt: HostRuntime) -> Result<(), Fail> {
    // two children
    let actions = [
        SPROUT,
        SPROUT,
        WRITE_ONE,
        READ_TWO,
        WRITE_TWO_T,
        READ_FIRST,
        COMMIT,
        READ_FIRST,
        COMMIT_TWO,
    ];
    let due = [
        Answer::Sprouted(ONE),
        Answer::Sprouted(TWO),
        Answer::Wrote,
        Answer::Found(Content::Absent),
        Answer::Wrote,
        Answer::Found(Content::Absent),
        Answer::Committed(Verdict::Moved),
        Answer::Found(NULL),
        Answer::Committed(Verdict::Moved),
    ];
    expect(&rt, rt.alloc(), &actions, &due, &[5, 2, 7, 3, 4])
}

#[test]
fn a_strict_world_records_what_it_writes_over(rt: HostRuntime) -> Result<(), Fail> {
    // a strict world records what it writes over: that has changed above
    let actions = [
        WRITE_FIRST,
        SPROUT_STRICT,
        WRITE_ONE,
        LIST,
        WRITE_FIRST_NO,
        COMMIT,
        READ_FIRST,
    ];
    let due = [
        Answer::Wrote,
        Answer::Sprouted(ONE),
        Answer::Wrote,
        Answer::Listed(one_name(rt.alloc(), Name::Text(TextId(1)))?),
        Answer::Wrote,
        Answer::Committed(Verdict::Disagrees(S)),
        Answer::Found(NO),
    ];
    expect(&rt, rt.alloc(), &actions, &due, &[0, 4, 6])?;
    // or is the same again
    let actions = [
        WRITE_FIRST,
        SPROUT_STRICT,
        WRITE_ONE,
        WRITE_FIRST,
        COMMIT,
        READ_FIRST,
    ];
    let due = [
        Answer::Wrote,
        Answer::Sprouted(ONE),
        Answer::Wrote,
        Answer::Wrote,
        Answer::Committed(Verdict::Moved),
        Answer::Found(NULL),
    ];
    expect(&rt, rt.alloc(), &actions, &due, &[0, 3, 2, 5])
}

#[test]
fn what_moves_into_a_strict_world_is_recorded(rt: HostRuntime) -> Result<(), Fail> {
    // what a plain child of a strict world writes is recorded in the strict world once it is moved there
    let actions = [
        WRITE_FIRST,
        SPROUT_STRICT,
        SPROUT_OF_ONE,
        WRITE_TWO,
        COMMIT_TWO,
        WRITE_FIRST_NO,
        COMMIT,
        READ_ONE,
    ];
    let due = [
        Answer::Wrote,
        Answer::Sprouted(ONE),
        Answer::Sprouted(TWO),
        Answer::Wrote,
        Answer::Committed(Verdict::Moved),
        Answer::Wrote,
        Answer::Committed(Verdict::Disagrees(S)),
        Answer::Found(NO),
    ];
    expect(&rt, rt.alloc(), &actions, &due, &[0, 5])
}

#[test]
fn worlds_that_are_not_there_are_told(rt: HostRuntime) -> Result<(), Fail> {
    // worlds that aren't there, and one without a parent
    let actions = [READ_ONE, LIST, SPROUT_OF_ONE, COMMIT, COMMIT_FIRST];
    let due = [
        Answer::NoWorld,
        Answer::NoWorld,
        Answer::NoWorld,
        Answer::NoWorld,
        Answer::Committed(Verdict::NoParent),
    ];
    expect(&rt, rt.alloc(), &actions, &due, &[])
}
