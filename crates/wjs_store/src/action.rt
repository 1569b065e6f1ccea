//! Actions on a store of worlds, and their answers.
ghost use Rattle.std.specs.Prelude.{◌≡◌};
ghost use Rattle.wjs_store.specs.State.{world_of};
ghost use Rattle.wjs_store.specs.Run.{act_of};

use crate::store::Verdict;
use wjs_base::{Content, Names, ObjId, Slot, WorldId};

/// One call of a store of worlds.
#[derive(Clone, Copy)]
pub enum Action {
    Read {
        world: WorldId,
        slot: Slot,
    },
    Write {
        world: WorldId,
        slot: Slot,
        content: Content,
    },
    List {
        world: WorldId,
        object: ObjId,
    },
    Sprout {
        world: WorldId,
        owner: u32,
        strict: bool,
    },
    Commit {
        world: WorldId,
    },
}

impl Action {
    /// The world that it is done in.
    pub fn world(&self) -> WorldId
        ensures { result ≡ world_of (act_of self.now) }
    {
        match self {
            Action::Read { world, .. }
            | Action::Write { world, .. }
            | Action::List { world, .. }
            | Action::Sprout { world, .. }
            | Action::Commit { world } => *world,
        }
    }
}

/// What a store answers to an action.
#[derive(Drop)]
pub enum Answer {
    /// To a read: what the slot holds.
    Found(Content),
    /// To a write.
    Wrote,
    /// To a listing: the names of the present slots, in the order of slots.
    Listed(Names),
    /// To a sprout: the child's number.
    Sprouted(WorldId),
    /// To a commit.
    Committed(Verdict),
    /// To any action on a world that is not there.
    NoWorld,
}
