//! Objects by number: for each owner those that it has, by serial.
ghost use Rattle.std.specs.Prelude.{◌≡◌, ◌<◌, ◌==◌, ◌↔◌, ◌++◌, ◌∷◌, [], cond, OnOk, OnErr, IsTrue, None, Some, length, slice_get};
ghost use Rattle.std.specs.FinMap as map;
ghost use Rattle.wjs_base.specs.declared.ids.ObjId.{ObjId};
ghost use Rattle.wjs_arena.specs.Entries.{has, next_number};
ghost use Rattle.wjs_arena.specs.Rows.{PutsFirst};

use crate::packed::Packed;
use std::alloc::Global;
use std::collections::BTreeMap;
use std::marker::Model;
use std::mem;
use wjs_base::{ObjId, OutOfMemory};

/// The objects of each owner. Contracts see the finite map of all of them.
///
/// Those of owner 0, which has every object of a program that runs alone, are found with no search among the owners.
#[derive(Drop)]
pub struct Rows {
    alloc: Global,
    first: Vec<Packed>,
    owners: BTreeMap<u32, Vec<Packed>>,
}

impl Model for Rows {
    ghost use Rattle.std.specs.FinMap as map;
    ghost use Rattle.wjs_arena.specs.Entries.{Objects};
    ghost use Rattle.wjs_base.specs.Codes.{coded_object};
    ghost use Rattle.wjs_arena.specs.Codes.{coded_entry};
    ghost use Rattle.wjs_arena.specs.Rows.{objects_in};
    ghost use Rattle.std.specs.Prelude.{◌∷◌};

    ghost Value = { Objects };

    ghost coded = { map.code coded_object coded_entry };

    ghost view = { λ r. objects_in (λ rows. rows.items) ((0, r.first) ∷ r.owners.entries) };
}

impl Rows {
    pub fn new(alloc: Global) -> Rows
        ensures empty { result ≡ map.empty }
        ensures serials { (id : ObjId) → IsTrue (has result id) ↔ (id.serial < (next_number result id.owner).serial) }
    {
        Rows {
            alloc,
            first: Vec::new(alloc),
            owners: BTreeMap::new(alloc),
        }
    }

    pub fn allocator(&self) -> Global {
        self.alloc
    }

    /// The objects of an owner, by serial.
    #[inline(always)]
    fn list(&self, owner: u32) -> &[Packed]
        ensures objects { (id : ObjId) → id.owner ≡ owner → map.get self.now id ≡ slice_get result.now id.serial }
        ensures count { length result.now ≡ (next_number self.now owner).serial }
        ensures serials { (id : ObjId) → IsTrue (has self.now id) ↔ (id.serial < (next_number self.now id.owner).serial) }
    {
        if owner == 0 {
            return self.first.as_slice();
        }
        self.list_of_another(owner)
    }

    /// The objects of an owner other than 0, by a search.
    #[inline(never)]
    fn list_of_another(&self, owner: u32) -> &[Packed]
        requires { ¬ (owner ≡ 0) }
        ensures objects { (id : ObjId) → id.owner ≡ owner → map.get self.now id ≡ slice_get result.now id.serial }
        ensures count { length result.now ≡ (next_number self.now owner).serial }
        ensures serials { (id : ObjId) → IsTrue (has self.now id) ↔ (id.serial < (next_number self.now id.owner).serial) }
    {
        match self.owners.get(&owner) {
            Some(rows) => rows.as_slice(),
            None => &[],
        }
    }

    /// How many objects an owner has: their serials go from 0 on.
    pub fn len(&self, owner: u32) -> u64
        ensures count { result ≡ (next_number self.now owner).serial }
        ensures serials { (id : ObjId) → IsTrue (has self.now id) ↔ (id.serial < (next_number self.now id.owner).serial) }
    {
        self.list(owner).len() as u64
    }

    pub fn has(&self, id: ObjId) -> bool
        ensures { result ≡ has self.now id }
    {
        id.serial < self.list(id.owner).len() as u64
    }

    /// The object of a number that is there.
    #[inline(always)]
    pub fn at(&self, id: ObjId) -> &Packed
        requires { IsTrue (has self.now id) }
        ensures { map.get self.now id ≡ Some result.now }
    {
        &self.list(id.owner)[id.serial as usize]
    }

    /// Puts an owner's next object; after a refusal nothing has changed.
    #[inline(always)]
    pub fn push(&mut self, owner: u32, entry: Packed) -> Result<(), OutOfMemory>
        ensures ok { OnOk result (self.new ≡ map.insert self.old (next_number self.old owner) entry) }
        ensures err { OnErr result (self.new ≡ self.old) }
        ensures serials { (id : ObjId) → IsTrue (has self.new id) ↔ (id.serial < (next_number self.new id.owner).serial) }
    {
        if owner == 0 {
            return push_last(&mut self.first, entry);
        }
        match self.owners.get_mut(&owner) {
            Some(rows) => push_last(rows, entry),
            None => push_first(self.alloc, &mut self.owners, owner, entry),
        }
    }

    /// Takes out an owner's objects, by serial.
    pub fn take(&mut self, owner: u32) -> Vec<Packed>
        ensures taken { (id : ObjId) → id.owner ≡ owner → slice_get result.items id.serial ≡ map.get self.old id }
        ensures left { (id : ObjId) → map.get self.new id ≡ cond (id.owner == owner) None (map.get self.old id) }
    {
        if owner == 0 {
            return mem::replace(&mut self.first, Vec::new(self.alloc));
        }
        if let Some(rows) = self.owners.remove(&owner) {
            return rows;
        }
        Vec::new(self.alloc)
    }

    /// Puts an owner's objects, by serial, in place of those that there are; after a refusal nothing has changed.
    pub fn put(&mut self, owner: u32, rows: Vec<Packed>) -> Result<(), OutOfMemory>
        ensures ok { OnOk result ((id : ObjId) → map.get self.new id ≡ cond (id.owner == owner) (slice_get rows.items id.serial) (map.get self.old id)) }
        ensures err { OnErr result (self.new ≡ self.old) }
    {
        if owner == 0 {
            self.first = rows;
            return Ok(());
        }
        self.owners.insert(owner, rows)?;
        Ok(())
    }
}

/// Puts one object more after those of an owner.
#[inline(always)]
fn push_last(rows: &mut Vec<Packed>, entry: Packed) -> Result<(), OutOfMemory>
    ensures ok { OnOk result (rows.new.items ≡ rows.old.items ++ entry ∷ []) }
    ensures err { OnErr result (rows.new.items ≡ rows.old.items) }
{
    rows.push(entry)?;
    Ok(())
}

/// Puts the first object of an owner.
fn push_first(
    alloc: Global,
    owners: &mut BTreeMap<u32, Vec<Packed>>,
    owner: u32,
    entry: Packed,
) -> Result<(), OutOfMemory>
    ensures ok { OnOk result (PutsFirst (λ rows. rows.items) owners.old owners.new owner entry) }
    ensures err { OnErr result (owners.new.entries ≡ owners.old.entries) }
{
    let mut rows = Vec::new(alloc);
    rows.push(entry)?;
    owners.insert(owner, rows)?;
    Ok(())
}
