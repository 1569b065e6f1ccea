//! A session between its turns, while others use the shared store.
ghost use Rattle.std.specs.Prelude.{◌≡◌, false};
ghost use Rattle.wjs_session.specs.Stores.{worlds_in};
ghost use Rattle.wjs_session.specs.Kept.{IsAlone, alone_prop};
ghost use Rattle.wjs_session.specs.Returns.{RestChangesNothing};

use crate::session::Session;
use crate::told::Told;
use wjs_base::WorldId;
use wjs_overlay::Overlay;
use wjs_store::WorldStore;

/// What is left of a session that has given back the shared store.
#[derive(Drop)]
pub struct Resting {
    inner: Overlay,
    world: WorldId,
    nested: bool,
    told: Told,
    ghost works: { inner.spent ≡ false },
    ghost alone: { false ≡ false → nested ≡ false → IsAlone (worlds_in inner) } by { alone_prop false nested (worlds_in inner) },
}

impl Session {
    ghost use Rattle.std.specs.Prelude.{◌≡◌, false};
    ghost use Rattle.wjs_session.specs.Resumed.{Rests, resumed};

    /// Gives the shared store back until the session is resumed.
    pub fn rest(self) -> (Overlay, Resting)
        requires { self.spent ≡ false }
        ensures shared { worlds_in result.0 ≡ worlds_in self.shared }
        ensures works { result.0.spent ≡ false }
        ensures world { result.1.world ≡ self.world }
        ensures stands { Rests (worlds_in result.0) result.1 }
        ensures same { ⟦<Session as WorldStore>⟧.meaning self ≡ resumed (worlds_in result.0) result.1 }
    {
        let Session {
            shared,
            inner,
            world,
            nested,
            told,
            spent: _,
        } = self;
        (
            shared,
            Resting {
                inner,
                world,
                nested,
                told,
            },
        )
    }
}

impl Resting {
    ghost use Rattle.std.specs.Prelude.{◌≡◌, false};
    ghost use Rattle.wjs_session.specs.Told.{told_of};
    ghost use Rattle.wjs_session.specs.Returns.{IsTheSame};
    ghost use Rattle.wjs_session.specs.Resumed.{Rests};

    /// Goes on with the shared store, on whose worlds it must rest still: `turns_leave_others` and the laws beside it tell that
    /// what others do leaves it so. It means the same under each view as before it rested, and admits the same views.
    pub fn resume(self, shared: Overlay) -> Session
        requires live { shared.spent ≡ false }
        requires stands { Rests (worlds_in shared) self }
        ensures world { result.world ≡ self.world }
        ensures shared { result.shared ≡ shared }
        ensures works { result.spent ≡ false }
        ensures same { IsTheSame (worlds_in shared) self.world (worlds_in self.inner)
            (told_of self.told.chain.value) (⟦<Session as WorldStore>⟧.meaning result) }
    {
        let Resting {
            inner,
            world,
            nested,
            told,
        } = self;
        Session {
            shared,
            inner,
            world,
            nested,
            told,
            spent: false,
        }
    }
}

/// A session means the same, and admits the same views, over all shared worlds that have its world as it was. That it still rests
/// there, which `resume` asks, is said by `resting_stands_still`.
pub fn rest_changes_nothing()
    ensures { RestChangesNothing }
{}
