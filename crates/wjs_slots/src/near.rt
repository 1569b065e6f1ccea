//! The rows of objects of one owner that follow each other.
ghost use Rattle.std.specs.Prelude.{ℕ, ◌≡◌, ◌+◌, ◌-◌, ◌<◌, ◌≤◌, ◌^◌, nat_le, [], ◌++◌, length, replicate, IsTrue};
ghost use Rattle.std.specs.Ordering.{is_lt};
ghost use Rattle.std.specs.FinMap as map;
ghost use Rattle.wjs_base.specs.Order.{obj_cmp, slot_cmp};
ghost use Rattle.wjs_slots.specs.Least.{IsLeast, is_past};
ghost use Rattle.wjs_slots.specs.Near.{place_in, near_value, IsFirstRow};

use std::alloc::Global;
use wjs_base::{Name, ObjId, OutOfMemory, Slot};
use wjs_names::RowsByName;

/// How far behind the last of these objects one may stand to be added.
const LONGEST_GAP: u64 = 64;

/// The rows of objects of one owner from a first on: each object's stand at its serial number less the first's.
#[derive(Drop)]
pub(crate) struct Near<V> {
    pub(crate) owner: u32,
    pub(crate) first: u64,
    pub(crate) objects: Vec<RowsByName<V>>,
}

impl<V: Copy> Near<V> {
    /// No objects.
    pub(crate) fn new(alloc: Global) -> Near<V>
        ensures objects { result.objects.items ≡ [] }
        ensures first { result.first ≡ 0 }
    {
        Near {
            owner: 0,
            first: 0,
            objects: Vec::new(alloc),
        }
    }

    /// No objects, and none that is close behind: they begin only where they are settled.
    pub(crate) fn later(alloc: Global) -> Near<V>
        ensures objects { result.objects.items ≡ [] }
        ensures first { result.first ≡ 18446744073709551615 }
    {
        Near {
            owner: 0,
            first: u64::MAX,
            objects: Vec::new(alloc),
        }
    }

    /// Where an object stands; None exactly where it isn't among these.
    #[inline(always)]
    pub(crate) fn place(&self, object: ObjId) -> Option<usize>
        ensures { result ≡ place_in self.now.owner self.now.first (length self.now.objects.items) object }
    {
        if object.owner == self.owner
            && (self.first <= object.serial
                && object.serial - self.first < self.objects.len() as u64)
        {
            Some((object.serial - self.first) as usize)
        } else {
            None
        }
    }

    /// The first object past these, where an object stands behind them.
    pub(crate) fn end(&self, object: ObjId) -> ObjId
        requires behind { self.now.first + length self.now.objects.items ≤ object.serial }
        ensures { result ≡ record { owner = self.now.owner; serial = self.now.first + length self.now.objects.items } }
    {
        let _last = object.serial;
        ObjId {
            owner: self.owner,
            serial: self.first + self.objects.len() as u64,
        }
    }

    /// Whether an object stands close behind these, so that objects between take little memory.
    pub(crate) fn is_close(&self, object: ObjId) -> bool
        ensures owner { IsTrue result → object.owner ≡ self.now.owner }
        ensures behind { IsTrue result → self.now.first + length self.now.objects.items ≤ object.serial }
        ensures small { IsTrue result → object.serial < 2 ^ 64 }
    {
        if object.owner != self.owner || object.serial < self.first {
            return false;
        }
        let place = object.serial - self.first;
        let count = self.objects.len() as u64;
        place >= count && place - count < LONGEST_GAP
    }

    /// The place of the first of these that is past an object; how many there are, if none is.
    fn place_past(&self, object: ObjId) -> usize
        ensures { (i : ℕ) → i < length self.now.objects.items
            → is_lt (obj_cmp object (record { owner = self.now.owner; serial = self.now.first + i })) ≡ nat_le result i }
    {
        match self.place(object) {
            Some(place) => place + 1,
            None => {
                let first = ObjId {
                    owner: self.owner,
                    serial: self.first,
                };
                if object.cmp(&first).is_lt() {
                    return 0;
                }
                self.objects.len()
            }
        }
    }

    /// The first place from this one on whose object has rows, with the first of these.
    fn first_from(&self, start: usize) -> Option<(usize, (Name, V))>
        ensures { IsFirstRow self.now.objects.items start result }
    {
        let mut place = start;
        'places: while place < self.objects.len() {
            match self.objects[place].next_past(None) {
                Some(row) => return Some((place, row)),
                None => place += 1,
            }
        }
        None
    }

    /// The least row of these that is of an object past this one.
    pub(crate) fn next_past(&self, object: ObjId) -> Option<(Slot, V)>
        requires { self.now.first + length self.now.objects.items ≤ 2 ^ 64 }
        ensures { IsLeast slot_cmp (near_value self.now.owner self.now.first self.now.objects.items) (is_past object) result }
    {
        match self.first_from(self.place_past(object)) {
            None => None,
            Some((place, row)) => {
                let next = ObjId {
                    owner: self.owner,
                    serial: self.first + place as u64,
                };
                Some(row_at(next, row))
            }
        }
    }

    /// Whether there are none.
    pub(crate) fn is_empty(&self) -> bool {
        self.objects.is_empty()
    }

    /// Makes an owner the one whose objects these are, from a serial number on, where there are none yet.
    pub(crate) fn settle(&mut self, owner: u32, first: u64)
        ensures objects { self.new.objects.items ≡ self.old.objects.items }
        ensures owner { 0 < length self.old.objects.items → self.new.owner ≡ self.old.owner }
        ensures first { 0 < length self.old.objects.items → self.new.first ≡ self.old.first }
        ensures short { length self.old.objects.items ≡ 0 → self.new.first ≤ 2 ^ 64 }
    {
        if !self.objects.is_empty() {
            return;
        }
        self.owner = owner;
        self.first = first;
    }

    /// Adds objects without rows up to an object. After a refusal some may be added.
    pub(crate) fn reach(&mut self, object: ObjId) -> Result<(), OutOfMemory>
        requires { self.old.first + length self.old.objects.items ≤ object.serial }
        ensures owner { self.new.owner ≡ self.old.owner }
        ensures first { self.new.first ≡ self.old.first }
        ensures same { self.new.objects.items ≡ self.old.objects.items ++ replicate (length self.new.objects.items - length self.old.objects.items) map.empty }
        ensures reach { self.new.first + length self.new.objects.items ≤ object.serial + 1 }
        ensures more { length self.old.objects.items ≤ length self.new.objects.items }
    {
        self.reach_place(object.serial - self.first)
    }

    /// Adds objects without rows up to a place. After a refusal some may be added.
    fn reach_place(&mut self, last: u64) -> Result<(), OutOfMemory>
        requires { length self.old.objects.items ≤ last }
        ensures owner { self.new.owner ≡ self.old.owner }
        ensures first { self.new.first ≡ self.old.first }
        ensures same { self.new.objects.items ≡ self.old.objects.items ++ replicate (length self.new.objects.items - length self.old.objects.items) map.empty }
        ensures reach { length self.new.objects.items ≤ last + 1 }
        ensures more { length self.old.objects.items ≤ length self.new.objects.items }
    {
        'more: while self.objects.len() as u64 <= last {
            self.objects.push(RowsByName::new())?;
        }
        Ok(())
    }
}

/// A row of an object with its slot.
pub(crate) fn row_at<V: Copy>(object: ObjId, row: (Name, V)) -> (Slot, V)
    ensures { result ≡ (record { object = object; name = row.0 }, row.1) }
{
    let slot = Slot {
        object,
        name: row.0,
    };
    (slot, row.1)
}
