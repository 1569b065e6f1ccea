//! Rows by slot, in two parts: those of objects of one owner that follow each other, and all others.
ghost use Rattle.std.specs.Prelude.{◌≡◌, ◌+◌, true, false, not, length, OnOk, OnErr, IfOk, IsTrue, None, Some};
ghost use Rattle.std.specs.Option.{option_copied, option_map};
ghost use Rattle.std.specs.Ordering.{is_le};
ghost use Rattle.std.specs.FinMap as map;
ghost use Rattle.std.specs.FinMap.{find};
ghost use Rattle.std.specs.Map.{lookup_entry};
ghost use Rattle.wjs_base.specs.Order.{obj_cmp, slot_cmp};
ghost use Rattle.wjs_base.specs.declared.values.Slot.{Slot};
ghost use Rattle.wjs_rows.specs.Order.{is_after};
ghost use Rattle.wjs_slots.specs.Least.{is_next_on, row_on, entry_on};
ghost use Rattle.wjs_slots.specs.Several.{with_rows_on};
ghost use Rattle.wjs_names.specs.Least.{lesser_entry};
ghost use Rattle.wjs_names.specs.Lists.{IsInOrder};

use crate::near::{Near, row_at};
use std::alloc::Global;
use std::collections::BTreeMap;
use std::marker::Model;
use wjs_base::{Name, ObjId, OutOfMemory, Slot};
use wjs_names::tree;

/// Where the near objects begin, as long as there are none.
#[derive(Clone, Copy)]
pub(crate) enum Start {
    /// At the owner's first object.
    First,
    /// At the next object that is past all that have rows.
    Next,
    /// Nowhere yet.
    Nowhere,
}

/// Rows by slot. No far row is of a near object.
#[derive(Drop)]
pub(crate) struct Parts<V> {
    alloc: Global,
    near: Near<V>,
    far: BTreeMap<Slot, V>,
}

impl<V> Model for Parts<V> {
    ghost use Rattle.std.specs.Prelude.{◌++◌, length};
    ghost use Rattle.std.specs.FinMap as map;
    ghost use Rattle.wjs_base.specs.Order.{slot_cmp};
    ghost use Rattle.wjs_base.specs.Codes.{coded_slot};
    ghost use Rattle.wjs_slots.specs.Near.{near_rows, IsSplit};

    ghost Value = { map.FinMap slot_cmp V };

    ghost coded = { map.code coded_slot V.code };

    ghost view = { λ p. map.from_entries (near_rows p.near.owner p.near.first p.near.objects.items ++ p.far.entries) };

    ghost invariant = { λ p. IsSplit p.near.owner p.near.first (length p.near.objects.items) p.far.entries };
}

impl<V: Copy> Parts<V> {
    /// No rows.
    pub(crate) fn new(alloc: Global) -> Parts<V>
        ensures { result ≡ map.empty }
    {
        Parts {
            alloc,
            near: Near::new(alloc),
            far: BTreeMap::new(alloc),
        }
    }

    /// No rows, and no object that is to be near unless they begin at it.
    pub(crate) fn later(alloc: Global) -> Parts<V>
        ensures { result ≡ map.empty }
    {
        Parts {
            alloc,
            near: Near::later(alloc),
            far: BTreeMap::new(alloc),
        }
    }

    /// The value at a slot.
    #[inline(always)]
    pub(crate) fn get(&self, slot: Slot) -> Option<&V>
        ensures { option_copied result ≡ map.get self.now slot }
    {
        match self.near.place(slot.object) {
            Some(place) => self.near.objects[place].get(slot.name),
            None => tree::get(&self.far, &slot),
        }
    }

    /// Puts a value at a slot, and says whether the slot is new. After a refusal all is as it was.
    #[inline(always)]
    pub(crate) fn set(&mut self, slot: Slot, value: V, start: Start) -> Result<bool, OutOfMemory>
        ensures ok { OnOk result (self.new ≡ map.insert self.old slot value) }
        ensures added { IfOk result (λ added. added ≡ not (map.contains_key self.old slot)) }
        ensures err { OnErr result (self.new ≡ self.old) }
    {
        self.reach(slot.object, start)?;
        match self.near.place(slot.object) {
            Some(place) => {
                let names = &mut self.near.objects[place];
                names.set(slot.name, value, self.alloc)
            }
            None => tree::set(&mut self.far, slot, value),
        }
    }

    /// Puts rows of an object that has none and is near, or can be, and says whether it did. Elsewhere all stays as it is, and so
    /// where the rows don't stand in the object's place, or after a refusal.
    #[inline(always)]
    pub(crate) fn fill(
        &mut self,
        object: ObjId,
        rows: &[(Name, V)],
        start: Start,
    ) -> Result<bool, OutOfMemory>
        ensures filled { IfOk result (λ filled. IsTrue filled → self.new ≡ with_rows_on object rows.now self.old) }
        ensures len { IfOk result (λ filled. IsTrue filled → map.len self.new ≡ map.len self.old + length rows.now) }
        ensures same { IfOk result (λ filled. filled ≡ false → self.new ≡ self.old) }
        ensures err { OnErr result (self.new ≡ self.old) }
    {
        self.reach(object, start)?;
        match self.near.place(object) {
            Some(place) => {
                let names = &mut self.near.objects[place];
                Ok(names.fill(rows))
            }
            None => Ok(false),
        }
    }

    /// Makes an object near where it can be, and takes room for so many rows of it where it has none, if they are to stand in
    /// a list.
    #[inline(never)]
    pub(crate) fn reserve(
        &mut self,
        object: ObjId,
        count: usize,
        start: Start,
    ) -> Result<(), OutOfMemory>
        ensures { self.new ≡ self.old }
    {
        self.reach(object, start)?;
        match self.near.place(object) {
            Some(place) => {
                let names = &mut self.near.objects[place];
                names.reserve(count, self.alloc)
            }
            None => Ok(()),
        }
    }

    /// Takes the row at a slot out, and says whether there was one. After a refusal all is as it was.
    pub(crate) fn remove(&mut self, slot: Slot) -> Result<bool, OutOfMemory>
        ensures removed { OnOk result (self.new ≡ map.remove self.old slot) }
        ensures found { IfOk result (λ found. found ≡ map.contains_key self.old slot) }
        ensures err { OnErr result (self.new ≡ self.old) }
    {
        match self.near.place(slot.object) {
            Some(place) => {
                let names = &mut self.near.objects[place];
                names.remove(slot.name)
            }
            None => Ok(tree::remove(&mut self.far, &slot)),
        }
    }

    /// The least row of an object after the name that was passed, or the least of all that it has. No other object near is
    /// looked at.
    pub(crate) fn next_on(&self, object: ObjId, passed: Option<Name>) -> Option<(Slot, V)>
        ensures { result ≡ lookup_entry (is_next_on object passed) (map.entries self.now) }
    {
        match self.near.place(object) {
            Some(place) => with_slot(object, self.near.objects[place].next_past(passed)),
            None => next_far(&self.far, object, passed),
        }
    }

    /// The least row after a slot behind which its object has none.
    pub(crate) fn next_past(&self, slot: Slot) -> Option<(Slot, V)>
        requires { None ≡ lookup_entry (is_next_on slot.object (Some slot.name)) (map.entries self.now) }
        ensures { result ≡ lookup_entry (is_after slot_cmp slot) (map.entries self.now) }
    {
        let near = self.near.next_past(slot.object);
        lesser_row(near, tree::next_after(&self.far, &slot))
    }

    /// Makes an object near where it can be.
    #[inline(always)]
    fn reach(&mut self, object: ObjId, start: Start) -> Result<(), OutOfMemory>
        ensures { self.new ≡ self.old }
    {
        match self.near.place(object) {
            Some(_) => Ok(()),
            None => {
                self.settle(object, start);
                self.grow(object)
            }
        }
    }

    /// Lets the near objects begin, where there are none.
    fn settle(&mut self, object: ObjId, start: Start)
        ensures { self.new ≡ self.old }
    {
        match self.first_for(object, start) {
            None => {}
            Some(first) => self.near.settle(object.owner, first),
        }
    }

    /// The serial number at which the near objects are to begin, if they are to.
    fn first_for(&self, object: ObjId, start: Start) -> Option<u64> {
        if !self.near.is_empty() {
            return None;
        }
        match start {
            Start::First => Some(0),
            Start::Next => {
                let last = ObjId {
                    owner: object.owner,
                    serial: u64::MAX,
                };
                if has_between(&self.far, object, last) {
                    return None;
                }
                Some(object.serial)
            }
            Start::Nowhere => None,
        }
    }

    /// Makes an object near that stands close behind the near ones with no far row in between.
    #[inline(never)]
    fn grow(&mut self, object: ObjId) -> Result<(), OutOfMemory>
        ensures { self.new ≡ self.old }
    {
        if !self.near.is_close(object) {
            return Ok(());
        }
        if has_between(&self.far, self.near.end(object), object) {
            return Ok(());
        }
        self.near.reach(object)
    }
}

/// Whether a row is of an object from the first to the last.
fn has_between<V: Copy>(far: &BTreeMap<Slot, V>, first: ObjId, last: ObjId) -> bool
    requires { IsInOrder slot_cmp far.now.entries }
    ensures { result ≡ false → (slot : Slot) → is_le (obj_cmp first slot.object) ≡ true → is_le (obj_cmp slot.object last) ≡ true → find slot_cmp slot far.now.entries ≡ None }
{
    if far.is_empty() {
        return false;
    }
    let start = Slot {
        object: first,
        name: Name::Index(0),
    };
    match tree::next_from(far, &start) {
        None => false,
        Some((slot, _)) => slot.object.cmp(&last).is_le(),
    }
}

/// The lesser of two rows.
fn lesser_row<V: Copy>(one: Option<(Slot, V)>, other: Option<(Slot, V)>) -> Option<(Slot, V)>
    ensures { result ≡ lesser_entry slot_cmp one other }
{
    match (one, other) {
        (None, _) => other,
        (Some(_), None) => one,
        (Some(first), Some(second)) => { if second.0 < first.0 { other } else { one } }
    }
}

/// A row of an object, if there is one, with its slot.
fn with_slot<V: Copy>(object: ObjId, row: Option<(Name, V)>) -> Option<(Slot, V)>
    ensures { result ≡ option_map (row_on object) row }
{
    match row {
        None => None,
        Some(row) => Some(row_at(object, row)),
    }
}

/// The least far row of an object after the name that was passed, or the least of all that it has.
fn next_far<V: Copy>(
    far: &BTreeMap<Slot, V>,
    object: ObjId,
    passed: Option<Name>,
) -> Option<(Slot, V)>
    requires { IsInOrder slot_cmp far.now.entries }
    ensures { result ≡ lookup_entry (is_next_on object passed) far.now.entries }
{
    match passed {
        None => {
            let start = Slot {
                object,
                name: Name::Index(0),
            };
            kept_on(object, tree::next_from(far, &start))
        }
        Some(name) => {
            let last = Slot { object, name };
            kept_on(object, tree::next_after(far, &last))
        }
    }
}

/// The entry, where its slot is one of the object's.
fn kept_on<V: Copy>(object: ObjId, entry: Option<(Slot, V)>) -> Option<(Slot, V)>
    ensures { result ≡ entry_on object entry }
{
    match entry {
        None => None,
        Some((slot, value)) => {
            if slot.object == object {
                Some((slot, value))
            } else {
                None
            }
        }
    }
}
