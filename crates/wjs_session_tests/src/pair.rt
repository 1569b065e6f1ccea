//! Two sessions that take turns, by the contracts and the laws of sessions alone.
ghost use Rattle.std.specs.Prelude.{◌≡◌, false};
ghost use Rattle.wjs_store.specs.State.{same_world};
ghost use Rattle.wjs_session.specs.Stores.{worlds_in};
ghost use Rattle.wjs_session.specs.Resumed.{Rests, rests_prop};

use std::alloc::Global;
use wjs_base::{OutOfMemory, WorldId};
use wjs_full::run_actions;
use wjs_overlay::Overlay;
use wjs_session::{
    Resting, Session, begins_leave_others, ends_leave_others, numbers_by_owner,
    resting_stands_still, turns_leave_others,
};
use wjs_store::{Action, Answer, Verdict, WorldStore};

/// Two sessions that rest, and the store that they share.
#[derive(Drop)]
pub(crate) struct Pair {
    shared: Overlay,
    one: Resting,
    two: Resting,
    ghost live: { shared.spent ≡ false },
    ghost one_rests: { shared.spent ≡ false → Rests (worlds_in shared) one } by { rests_prop shared.spent (worlds_in shared) one },
    ghost two_rests: { shared.spent ≡ false → Rests (worlds_in shared) two } by { rests_prop shared.spent (worlds_in shared) two },
    ghost apart: { same_world two.world one.world ≡ false },
}

impl Pair {
    /// Sessions of the owners 1 and 2, who have no world yet.
    pub(crate) fn begin(alloc: Global, shared: Overlay) -> Result<Pair, OutOfMemory> {
        begins_leave_others();
        resting_stands_still();
        if shared.is_spent() {
            return Err(OutOfMemory);
        }
        if shared.has_world(WorldId {
            owner: 1,
            serial: 0,
        }) {
            return Err(OutOfMemory);
        }
        let first = Session::begin(alloc, shared, 1)?;
        let (shared, one) = first.rest();
        if shared.has_world(WorldId {
            owner: 2,
            serial: 0,
        }) {
            return Err(OutOfMemory);
        }
        let second = Session::begin(alloc, shared, 2)?;
        let (shared, two) = second.rest();
        Ok(Pair { shared, one, two })
    }

    /// The other is now the one.
    pub(crate) fn swap(self) -> Pair {
        let Pair { shared, one, two } = self;
        Pair {
            shared,
            one: two,
            two: one,
        }
    }

    /// A turn of the one: some actions.
    pub(crate) fn act(
        self,
        alloc: Global,
        actions: &[Action],
    ) -> Result<(Pair, Vec<Answer>), OutOfMemory> {
        turns_leave_others();
        resting_stands_still();
        numbers_by_owner();
        let Pair { shared, one, two } = self;
        let mut session = one.resume(shared);
        let world = session.first();
        let answers = run_actions(alloc, &mut session, actions)?;
        if session.first() != world {
            return Err(OutOfMemory);
        }
        let (shared, one) = session.rest();
        Ok((Pair { shared, one, two }, answers))
    }

    /// The one is settled, and the other goes on. Says whether the one agreed, and its verdict.
    pub(crate) fn settle(self) -> Result<(Session, bool, Verdict), OutOfMemory> {
        turns_leave_others();
        ends_leave_others();
        resting_stands_still();
        let Pair { shared, one, two } = self;
        let session = one.resume(shared);
        let agrees = session.agrees();
        let (shared, verdict) = session.settle()?;
        Ok((two.resume(shared), agrees, verdict))
    }
}
