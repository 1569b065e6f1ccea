//! What a session tells: its answered actions, of which nothing is kept. Only clauses read them.

use std::mem;
use std::snapshot::Snapshot;
use wjs_base::{Content, Names, ObjId, Slot, WorldId};
use wjs_store::Verdict;

/// An action with its answer.
#[derive(Drop)]
pub enum Entry {
    Read {
        world: WorldId,
        slot: Slot,
        content: Content,
    },
    Write {
        world: WorldId,
        slot: Slot,
        content: Content,
    },
    List {
        world: WorldId,
        object: ObjId,
        names: Snapshot<Names>,
    },
    Sprout {
        world: WorldId,
        owner: u32,
        strict: bool,
        child: WorldId,
    },
    Commit {
        world: WorldId,
        verdict: Verdict,
    },
}

/// Actions, the newest outside.
#[derive(Drop)]
pub enum Chain {
    Start,
    Next(Entry, Snapshot<Chain>),
}

/// The actions that were told. It has no bytes.
#[derive(Drop)]
pub struct Told {
    pub chain: Snapshot<Chain>,
}

impl Told {
    ghost use Rattle.std.specs.Prelude.{◌≡◌, [], ◌∷◌, ◌++◌};
    ghost use Rattle.wjs_session.specs.Told.{entry_of, told_of};

    pub fn nothing() -> Told
        ensures { told_of result.chain.value ≡ [] }
    {
        let start = Chain::Start;
        Told {
            chain: Snapshot::of(&start),
        }
    }

    /// Tells one more.
    pub fn tell(&mut self, entry: Entry)
        ensures { told_of self.new.chain.value ≡ told_of self.old.chain.value ++ entry_of entry ∷ [] }
    {
        let start = Chain::Start;
        let before = mem::replace(&mut self.chain, Snapshot::of(&start));
        let next = Chain::Next(entry, before);
        self.chain = Snapshot::of(&next);
    }
}
