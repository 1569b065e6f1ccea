//! Logs that are read, judged and spelled again, and a store that tells the log of its run.

use std::alloc::Global;
use std::test::Fail;
use wjs_audit::{AuditFault, Log, Logged, audit, audit_in, knows_log, read_log, spell_log};
use wjs_base::{Content, Name, ObjId, Slot, TextId, Value, WorldId};
use wjs_full::{FullStore, run_actions};
use wjs_store::Action;
use wjs_texts::Texts;

/// A write, a sprout, a read of what was written, another write, and a commit, which is refused.
const REFUSED: &[u8] =
    b"text 0 0078\nwrite 0.0 0.0 $0 d1\nsprout 0.0 0 p 0.1\nread 0.1 0.0 $0 d1\nwrite 0.0 0.0 $0 d2\ncommit 0.1 differs 0.0 $0\n";

/// The same with a commit that is said to move.
const MOVED: &[u8] =
    b"text 0 0078\nwrite 0.0 0.0 $0 d1\nsprout 0.0 0 p 0.1\nread 0.1 0.0 $0 d1\nwrite 0.0 0.0 $0 d2\ncommit 0.1 moved\n";

/// And with a read that is said to find nothing.
const UNREAD: &[u8] =
    b"text 0 0078\nwrite 0.0 0.0 $0 d1\nsprout 0.0 0 p 0.1\nread 0.1 0.0 $0 -\nwrite 0.0 0.0 $0 d2\ncommit 0.1 moved\n";

/// The log of `ACTIONS`.
const TOLD: &[u8] =
    b"text 0 0078\nwrite 0.0 0.0 $0 t\nsprout 0.0 0 p 0.1\nread 0.1 0.0 $0 t\nlist 0.1 0.0 $0\nwrite 0.0 0.0 $0 f\ncommit 0.1 differs 0.0 $0\n";

const FIRST: WorldId = WorldId {
    owner: 0,
    serial: 0,
};

const CHILD: WorldId = WorldId {
    owner: 0,
    serial: 1,
};

const OBJECT: ObjId = ObjId {
    owner: 0,
    serial: 0,
};

const SLOT: Slot = Slot {
    object: OBJECT,
    name: Name::Text(TextId(0)),
};

/// An action of each kind, and a second write.
const ACTIONS: [Action; 6] = [
    Action::Write {
        world: FIRST,
        slot: SLOT,
        content: Content::Present(Value::Bool(true)),
    },
    Action::Sprout {
        world: FIRST,
        owner: 0,
        strict: false,
    },
    Action::Read {
        world: CHILD,
        slot: SLOT,
    },
    Action::List {
        world: CHILD,
        object: OBJECT,
    },
    Action::Write {
        world: FIRST,
        slot: SLOT,
        content: Content::Present(Value::Bool(false)),
    },
    Action::Commit { world: CHILD },
];

/// What the machine says of the log of these bytes.
fn judged(alloc: Global, bytes: &[u8]) -> Result<Result<(), AuditFault>, Fail> {
    let log = read_log(alloc, bytes)?;
    Ok(audit(alloc, &log))
}

/// The same over a store that tells its actions.
fn judged_telling(alloc: Global, bytes: &[u8]) -> Result<Result<(), AuditFault>, Fail> {
    let log = read_log(alloc, bytes)?;
    let store = Logged::new(alloc, FullStore::new(alloc)?);
    Ok(audit_in(store, &log))
}

#[test]
fn logs_are_judged(rt: HostRuntime) -> Result<(), Fail> {
    for (bytes, due) in [
        (REFUSED, Ok(())),
        (MOVED, Err(AuditFault::NotTheAnswer { line: 6 })),
        (UNREAD, Err(AuditFault::NotTheAnswer { line: 4 })),
    ] {
        assert!(rt; judged(rt.alloc(), bytes)? == due);
        assert!(rt; judged_telling(rt.alloc(), bytes)? == due);
    }
    Ok(())
}

/// Whether the entries are on these lines.
fn is_on_lines(log: &Log, lines: &[u64]) -> bool {
    let entries = log.entries();
    for place in 0..entries.len() {
        if lines.get(place) != Some(&entries[place].line) {
            return false;
        }
    }
    entries.len() == lines.len()
}

/// The bytes of a log that speaks of no text but one.
fn spelled(alloc: Global, log: &Log) -> Result<Vec<u8>, Fail> {
    let mut texts = Texts::new(alloc)?;
    texts.intern(&[0x78])?;
    if !knows_log(log, &texts) {
        return Err("speaks of another text")?;
    }
    Ok(spell_log(alloc, log, &texts)?)
}

#[test]
fn what_is_read_is_spelled_again(rt: HostRuntime) -> Result<(), Fail> {
    let log = read_log(rt.alloc(), REFUSED)?;
    assert!(rt; is_on_lines(&log, &[2, 3, 4, 5, 6]));
    let bytes = spelled(rt.alloc(), &log)?;
    assert!(rt; bytes.as_slice() == REFUSED);
    Ok(())
}

#[test]
fn a_logged_store_tells_its_run(rt: HostRuntime) -> Result<(), Fail> {
    let alloc = rt.alloc();
    let mut store = Logged::new(alloc, FullStore::new(alloc)?);
    let answers = run_actions(alloc, &mut store, &ACTIONS)?;
    assert!(rt; answers.len() == ACTIONS.len());
    let log = store.entries();
    assert!(rt; is_on_lines(log, &[0, 0, 0, 0, 0, 0]));
    assert!(rt; audit(alloc, log).is_ok());
    let bytes = spelled(alloc, log)?;
    assert!(rt; bytes.as_slice() == TOLD);
    Ok(())
}
