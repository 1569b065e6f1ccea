//! What was done on worlds, and what was answered.
ghost use Rattle.std.specs.Prelude.{◌≡◌};

use wjs_base::{Content, Names, ObjId, Slot, WorldId};
use wjs_store::{Action, Verdict};

/// What was done, and its answer: one of these has an answer of its own kind, and none is NoWorld.
#[derive(Drop)]
pub enum Deed {
    Read {
        world: WorldId,
        slot: Slot,
        content: Content,
    },
    Write {
        world: WorldId,
        slot: Slot,
        content: Content,
    },
    List {
        world: WorldId,
        object: ObjId,
        names: Names,
    },
    Sprout {
        world: WorldId,
        owner: u32,
        strict: bool,
        child: WorldId,
    },
    Commit {
        world: WorldId,
        verdict: Verdict,
    },
}

impl Deed {
    ghost use Rattle.wjs_audit.specs.Deeds.{action_of};

    /// What was done.
    pub fn action(&self) -> Action
        ensures { result ≡ action_of self.now }
    {
        match self {
            Deed::Read { world, slot, .. } => Action::Read {
                world: *world,
                slot: *slot,
            },
            Deed::Write {
                world,
                slot,
                content,
            } => Action::Write {
                world: *world,
                slot: *slot,
                content: *content,
            },
            Deed::List { world, object, .. } => Action::List {
                world: *world,
                object: *object,
            },
            Deed::Sprout {
                world,
                owner,
                strict,
                ..
            } => Action::Sprout {
                world: *world,
                owner: *owner,
                strict: *strict,
            },
            Deed::Commit { world, .. } => Action::Commit { world: *world },
        }
    }
}

/// A deed, and the number of its line; 0 where it comes from no text.
#[derive(Drop)]
pub struct Entry {
    pub deed: Deed,
    pub line: u64,
}
