//! A store that keeps every copy.
ghost use Rattle.std.specs.Prelude.{◌≡◌, false, IfOk, OnOk, length, ◌<◌};
ghost use Rattle.wjs_full.specs.Rows.{worlds_in};
ghost use Rattle.wjs_store.specs.Reached.{IsReached};
ghost use Rattle.wjs_store.specs.Kept.{kept_prop};

use crate::rows::Row;
use crate::shown::{meant, shown};
use crate::table;
use std::alloc::Global;
use wjs_base::{Content, Names, ObjId, OutOfMemory, Slot, WorldId};
use wjs_store::{Counts, Verdict, WorldStore};

#[derive(Drop)]
pub struct FullStore {
    alloc: Global,
    table: Vec<Row>,
    spent: bool,
    ghost not_empty: { 0 < length table.items },
    ghost reached: { spent ≡ false → IsReached (worlds_in table.items) } by { kept_prop spent (worlds_in table.items) },
}

impl FullStore {
    ghost use Rattle.wjs_store.specs.Fixed.{fixed, fresh};

    /// A store with the first world alone.
    pub fn new(alloc: Global) -> Result<FullStore, OutOfMemory>
        ensures { IfOk result (λ store. ⟦<FullStore as WorldStore>⟧.meaning store ≡ fixed fresh false) }
    {
        let table = table::new(alloc)?;
        Ok(FullStore {
            alloc,
            table,
            spent: false,
        })
    }
}

impl WorldStore for FullStore {
    ghost use Rattle.wjs_store.specs.Fixed.{fixed};
    ghost use Rattle.wjs_full.specs.FixedLaws.{sound_full};

    ghost meaning = { λ s. fixed (worlds_in s.table.items) s.spent };

    ghost sound = { λ s h. sound_full (worlds_in s.table.items) s.spent s.reached h };

    fn first(&self) -> WorldId {
        self.table[0].id
    }

    fn has_world(&self, world: WorldId) -> bool {
        table::find(self.table.as_slice(), world).is_some()
    }

    fn is_spent(&self) -> bool {
        self.spent
    }

    fn read(&mut self, world: WorldId, slot: Slot) -> Result<Content, OutOfMemory> {
        if self.spent {
            return Err(OutOfMemory);
        }
        let found = table::content(self.table.as_slice(), world, slot);
        match table::read(&mut self.table, world, slot) {
            Ok(()) => Ok(shown(found)),
            Err(_) => {
                self.spent = true;
                Err(OutOfMemory)
            }
        }
    }

    fn write(&mut self, world: WorldId, slot: Slot, content: Content) -> Result<(), OutOfMemory> {
        if self.spent {
            return Err(OutOfMemory);
        }
        match table::write(self.alloc, &mut self.table, world, slot, meant(content)) {
            Ok(()) => Ok(()),
            Err(_) => {
                self.spent = true;
                Err(OutOfMemory)
            }
        }
    }

    fn list(&mut self, world: WorldId, object: ObjId) -> Result<Names, OutOfMemory> {
        if self.spent {
            return Err(OutOfMemory);
        }
        match table::list_names(self.alloc, &mut self.table, world, object) {
            Ok(names) => Ok(names),
            Err(_) => {
                self.spent = true;
                Err(OutOfMemory)
            }
        }
    }

    fn sprout(&mut self, world: WorldId, owner: u32, strict: bool) -> Result<WorldId, OutOfMemory> {
        if self.spent {
            return Err(OutOfMemory);
        }
        match table::sprout(self.alloc, &mut self.table, world, owner, strict) {
            Ok(child) => Ok(child),
            Err(_) => {
                self.spent = true;
                Err(OutOfMemory)
            }
        }
    }

    fn commit(&mut self, world: WorldId) -> Result<Verdict, OutOfMemory> {
        if self.spent {
            return Err(OutOfMemory);
        }
        match table::commit(self.alloc, &mut self.table, world) {
            Ok(verdict) => Ok(verdict),
            Err(_) => {
                self.spent = true;
                Err(OutOfMemory)
            }
        }
    }

    fn parent(&self, world: WorldId) -> Option<WorldId> {
        table::parent(self.table.as_slice(), world)
    }

    fn counts(&self, world: WorldId) -> Counts {
        table::counts(self.table.as_slice(), world)
    }
}
