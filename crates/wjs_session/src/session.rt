//! The store of worlds of one session.
ghost use Rattle.std.specs.Prelude.{◌≡◌, false};
ghost use Rattle.wjs_session.specs.Stores.{worlds_in};
ghost use Rattle.wjs_session.specs.Session.{world_at};
ghost use Rattle.wjs_session.specs.Kept.{IsSession, IsAlone, session_prop, alone_prop};
ghost use Rattle.wjs_session.specs.Told.{told_of};
ghost use Rattle.wjs_session.specs.Tells.{TellsMarks, tells_prop};

use crate::calls;
use crate::told::{Entry, Told};
use std::alloc::Global;
use std::snapshot::Snapshot;
use wjs_base::{Content, Names, ObjId, OutOfMemory, Slot, WorldId};
use wjs_overlay::Overlay;
use wjs_store::{Counts, Verdict, WorldStore};

/// A world of a shared store, with the worlds below it in a store of their own. It is a store whose first world has that
/// world's number and no parent.
///
/// A session that ran out of memory is spent, and asks neither store any more.
#[derive(Drop)]
pub struct Session {
    pub(crate) shared: Overlay,
    pub(crate) inner: Overlay,
    pub(crate) world: WorldId,
    pub(crate) nested: bool,
    pub(crate) told: Told,
    pub(crate) spent: bool,
    ghost works: { spent ≡ false → (shared.spent ≡ false) × (inner.spent ≡ false) },
    ghost kept: { spent ≡ false → IsSession (worlds_in shared) world (worlds_in inner) } by { session_prop spent (worlds_in shared) world (worlds_in inner) },
    ghost alone: { spent ≡ false → nested ≡ false → IsAlone (worlds_in inner) } by { alone_prop spent nested (worlds_in inner) },
    ghost marks: { spent ≡ false
        → TellsMarks (world_at (worlds_in shared) world) (worlds_in inner) (told_of told.chain.value) } by { tells_prop spent
            (world_at (worlds_in shared) world) (worlds_in inner) (told_of told.chain.value) },
}

impl Session {
    ghost use Rattle.std.specs.Prelude.{◌≡◌, false, IfOk};
    ghost use Rattle.wjs_store.specs.State.{has_world};
    ghost use Rattle.wjs_session.specs.Begun.{Begins};

    /// A session of an owner who has no world in the shared store.
    ///
    /// Its first world holds what the shared store's first world holds.
    pub fn begin(alloc: Global, mut shared: Overlay, owner: u32) -> Result<Session, OutOfMemory>
        requires live { shared.spent ≡ false }
        requires new { has_world (worlds_in shared) (record { owner = owner; serial = 0 }) ≡ false }
        ensures { IfOk result (λ session. Begins (worlds_in shared) owner session.world (⟦<Session as WorldStore>⟧.meaning session)) }
    {
        let first = shared.first();
        let world = shared.sprout(first, owner, false)?;
        let inner = Overlay::starting(alloc, world)?;
        Ok(Session {
            shared,
            inner,
            world,
            nested: false,
            told: Told::nothing(),
            spent: false,
        })
    }
}

impl WorldStore for Session {
    ghost use Rattle.wjs_session.specs.Told.{told_of};
    ghost use Rattle.wjs_session.specs.Session.{session};
    ghost use Rattle.wjs_session.specs.Sound.{sound_session};

    ghost meaning = { λ s. session (worlds_in s.shared) s.world (worlds_in s.inner) (told_of s.told.chain.value) s.spent };

    ghost sound = { λ s h. sound_session (worlds_in s.shared) s.world (worlds_in s.inner) (told_of s.told.chain.value) s.spent s.kept h };

    fn first(&self) -> WorldId {
        self.inner.first()
    }

    fn has_world(&self, world: WorldId) -> bool {
        self.inner.has_world(world)
    }

    fn is_spent(&self) -> bool {
        self.spent
    }

    fn read(&mut self, world: WorldId, slot: Slot) -> Result<Content, OutOfMemory> {
        if self.spent {
            return Err(OutOfMemory);
        }
        self.spent = true;
        let content = calls::read(&mut self.shared, &mut self.inner, self.world, world, slot)?;
        self.told.tell(Entry::Read {
            world,
            slot,
            content,
        });
        self.spent = false;
        Ok(content)
    }

    fn write(&mut self, world: WorldId, slot: Slot, content: Content) -> Result<(), OutOfMemory> {
        if self.spent {
            return Err(OutOfMemory);
        }
        self.spent = true;
        calls::write(
            &mut self.shared,
            &mut self.inner,
            self.world,
            self.nested,
            world,
            slot,
            content,
        )?;
        self.told.tell(Entry::Write {
            world,
            slot,
            content,
        });
        self.spent = false;
        Ok(())
    }

    fn list(&mut self, world: WorldId, object: ObjId) -> Result<Names, OutOfMemory> {
        if self.spent {
            return Err(OutOfMemory);
        }
        self.spent = true;
        let names = calls::list(&mut self.shared, &mut self.inner, self.world, world, object)?;
        self.told.tell(Entry::List {
            world,
            object,
            names: Snapshot::of(&names),
        });
        self.spent = false;
        Ok(names)
    }

    fn sprout(&mut self, world: WorldId, owner: u32, strict: bool) -> Result<WorldId, OutOfMemory> {
        if self.spent {
            return Err(OutOfMemory);
        }
        self.spent = true;
        self.nested = true;
        let child = self.inner.sprout(world, owner, strict)?;
        self.told.tell(Entry::Sprout {
            world,
            owner,
            strict,
            child,
        });
        self.spent = false;
        Ok(child)
    }

    fn commit(&mut self, world: WorldId) -> Result<Verdict, OutOfMemory> {
        if self.spent {
            return Err(OutOfMemory);
        }
        self.spent = true;
        let verdict = calls::commit(&mut self.shared, &mut self.inner, self.world, world)?;
        self.told.tell(Entry::Commit { world, verdict });
        self.spent = false;
        Ok(verdict)
    }

    fn parent(&self, world: WorldId) -> Option<WorldId> {
        self.inner.parent(world)
    }

    fn counts(&self, world: WorldId) -> Counts {
        self.inner.counts(world)
    }
}
