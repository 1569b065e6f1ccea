//! The end of a session: whether its check passes, its commit into the first world, and that it is given up.
ghost use Rattle.std.specs.Prelude.{◌≡◌, false, true, IfOk};
ghost use Rattle.wjs_layers.specs.Reset.{after_reset};
ghost use Rattle.wjs_session.specs.Stores.{worlds_in};
ghost use Rattle.wjs_session.specs.Session.{world_at};
ghost use Rattle.wjs_session.specs.Settled.{Agrees, Settles};
ghost use Rattle.wjs_session.specs.Told.{told_of};
ghost use Rattle.wjs_session.specs.Tells.{TellsMarks};

use crate::session::Session;
use wjs_base::OutOfMemory;
use wjs_overlay::Overlay;
use wjs_store::{Verdict, WorldStore};

impl Session {
    /// Whether a commit into the shared store's first world would move now: what the session has read still stands there.
    ///
    /// Where it would, the session's own view is what the first world holds. What it has read is told by its actions: they make
    /// the marks that are asked, and there are no others.
    pub fn agrees(&self) -> bool
        requires { self.now.spent ≡ false }
        ensures agrees { Agrees (worlds_in self.now.shared) self.now.world result }
        ensures told { TellsMarks (world_at (worlds_in self.now.shared) self.now.world) (worlds_in self.now.inner) (told_of self.now.told.chain.value) }
    {
        self.shared.commit_check(self.world).is_none()
    }

    /// Commits the session's world, and gives the shared store back with the verdict: Moved exactly where the session agrees.
    pub fn settle(self) -> Result<(Overlay, Verdict), OutOfMemory>
        requires { self.spent ≡ false }
        ensures settles { IfOk result (λ r. Settles (worlds_in self.shared) self.world (worlds_in self.inner) (worlds_in r.0) r.1) }
        ensures works { IfOk result (λ r. r.0.spent ≡ false) }
    {
        let Session {
            mut shared,
            inner: _,
            world,
            nested: _,
            told: _,
            spent: _,
        } = self;
        let verdict = shared.commit(world)?;
        Ok((shared, verdict))
    }

    /// Gives the session up, and the shared store back: nothing of what was done in the session is kept, but that its world is
    /// there, as a new child of the first one.
    pub fn abandon(self) -> Overlay
        requires { self.spent ≡ false }
        ensures worlds { worlds_in result ≡ after_reset (worlds_in self.shared) self.world }
        ensures works { result.spent ≡ false }
    {
        let Session {
            mut shared,
            inner: _,
            world,
            nested: _,
            told: _,
            spent: _,
        } = self;
        shared.reset(world);
        shared
    }
}
