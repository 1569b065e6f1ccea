//! A store that tells its actions.
ghost use Rattle.std.specs.Prelude.{◌≡◌, [], false, IfOk, IsTrue, All};
ghost use Rattle.wjs_base.specs.Order.{name_cmp};
ghost use Rattle.wjs_store.specs.Ascends.{Ascends};
ghost use Rattle.wjs_store.specs.Fixed.{fresh};
ghost use Rattle.wjs_store.specs.Meaning.{View};
ghost use Rattle.wjs_store.specs.Run.{after_all};
ghost use Rattle.wjs_audit.specs.Codes.{coded_recorded};
ghost use Rattle.wjs_audit.specs.Deeds.{actions_of};
ghost use Rattle.wjs_audit.specs.Recorded.{Recorded};
ghost use Rattle.wjs_audit.specs.Right.{AreRight};
ghost use Rattle.wjs_audit.specs.Kept.{IsKept, AreUnnumbered};

use crate::deed::Deed;
use crate::log::Log;
use std::alloc::Global;
use std::marker::Model;
use wjs_base::{Content, Names, ObjId, OutOfMemory, Slot, WorldId};
use wjs_store::{Counts, Verdict, WorldStore};

/// A store with the log of its answered actions.
///
/// A call that appends an entry needs memory for it too. Where that is wanted the store is spent, as it is where the
/// inner store is.
#[derive(Drop)]
pub struct Logged<S: WorldStore + Drop> {
    alloc: Global,
    inner: S,
    log: Log,
    spent: bool,
}

impl<S: WorldStore + Drop> Model for Logged<S> {
    ghost Value = { Recorded S };

    ghost coded = { coded_recorded S.code };

    ghost view = { λ s. record { inner = s.inner; log = s.log; spent = s.spent } };

    ghost invariant = { λ s. s.spent ≡ false → IsKept (S.meaning s.inner) s.log };
}

/// The same names.
fn copied(alloc: Global, names: &Names) -> Result<Names, OutOfMemory>
    ensures { IfOk result (λ copy. copy ≡ names.now) }
{
    let mut copy = Names::new(alloc);
    for place in 0..names.len() {
        copy.push(names.at(place))?;
    }
    Ok(copy)
}

impl<S: WorldStore + Drop> Logged<S> {
    /// A fresh store with an empty log: one whose worlds are the fresh ones under each admitted view, whatever else it means.
    /// It takes no memory.
    pub fn new(alloc: Global, inner: S) -> Logged<S>
        requires { (v : View) → IsTrue ((S.meaning inner).admits v) → (S.meaning inner).full v ≡ fresh }
        ensures { result ≡ record { inner = inner; log = []; spent = false } }
    {
        Logged {
            alloc,
            inner,
            log: Log::new(alloc),
            spent: false,
        }
    }

    /// The answered actions in their order, each with line 0. Until a call has answered OutOfMemory they are the full-copy
    /// machine's, from the fresh state on, and the store's worlds are those that they leave.
    pub fn entries(&self) -> &Log
        ensures log { result.now ≡ self.now.log }
        ensures right { self.now.spent ≡ false → AreRight result.now }
        ensures worlds { self.now.spent ≡ false → (v : View) → IsTrue ((S.meaning self.now.inner).admits v)
            → (S.meaning self.now.inner).full v ≡ after_all fresh (actions_of result.now) }
        ensures unnumbered { self.now.spent ≡ false → AreUnnumbered result.now }
    {
        &self.log
    }
}

impl<S: WorldStore + Drop> WorldStore for Logged<S> {
    ghost use Rattle.wjs_audit.specs.Recorded.{telling};
    ghost use Rattle.wjs_audit.specs.Telling.{telling_sound};

    ghost meaning = { λ s. telling (S.meaning s.inner) s.log s.spent };

    ghost sound = { λ s h. telling_sound (S.meaning s.inner) s.log s.spent (S.sound s.inner) h };

    fn first(&self) -> WorldId {
        self.inner.first()
    }

    fn has_world(&self, world: WorldId) -> bool {
        self.inner.has_world(world)
    }

    fn is_spent(&self) -> bool {
        self.inner.is_spent() || self.spent
    }

    fn read(&mut self, world: WorldId, slot: Slot) -> Result<Content, OutOfMemory> {
        if self.spent {
            return Err(OutOfMemory);
        }
        self.spent = true;
        let content = self.inner.read(world, slot)?;
        self.log.push(
            Deed::Read {
                world,
                slot,
                content,
            },
            0,
        )?;
        self.spent = false;
        Ok(content)
    }

    fn write(&mut self, world: WorldId, slot: Slot, content: Content) -> Result<(), OutOfMemory> {
        if self.spent {
            return Err(OutOfMemory);
        }
        self.spent = true;
        self.inner.write(world, slot, content)?;
        self.log.push(
            Deed::Write {
                world,
                slot,
                content,
            },
            0,
        )?;
        self.spent = false;
        Ok(())
    }

    fn list(&mut self, world: WorldId, object: ObjId) -> Result<Names, OutOfMemory> {
        if self.spent {
            return Err(OutOfMemory);
        }
        self.spent = true;
        let listed = self.inner.list(world, object)?;
        let names = copied(self.alloc, &listed)?;
        self.log.push(
            Deed::List {
                world,
                object,
                names,
            },
            0,
        )?;
        self.spent = false;
        Ok(listed)
    }

    fn sprout(&mut self, world: WorldId, owner: u32, strict: bool) -> Result<WorldId, OutOfMemory> {
        if self.spent {
            return Err(OutOfMemory);
        }
        self.spent = true;
        let child = self.inner.sprout(world, owner, strict)?;
        self.log.push(
            Deed::Sprout {
                world,
                owner,
                strict,
                child,
            },
            0,
        )?;
        self.spent = false;
        Ok(child)
    }

    fn commit(&mut self, world: WorldId) -> Result<Verdict, OutOfMemory> {
        if self.spent {
            return Err(OutOfMemory);
        }
        self.spent = true;
        let verdict = self.inner.commit(world)?;
        self.log.push(Deed::Commit { world, verdict }, 0)?;
        self.spent = false;
        Ok(verdict)
    }

    fn parent(&self, world: WorldId) -> Option<WorldId> {
        self.inner.parent(world)
    }

    fn counts(&self, world: WorldId) -> Counts {
        self.inner.counts(world)
    }
}
