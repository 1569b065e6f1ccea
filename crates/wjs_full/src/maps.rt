//! Maps from slots and sets of objects, seen as finite maps and sets.
ghost use Rattle.std.specs.Prelude.{◌≡◌, OnOk, OnErr, IfOk, filter, map as each, is_some};
ghost use Rattle.std.specs.FinMap as map;
ghost use Rattle.std.specs.BTreeMap.{IsOrdered};
ghost use Rattle.wjs_base.specs.Order.{slot_cmp};
ghost use Rattle.wjs_store.specs.State.{put, same_object};

use std::alloc::Global;
use std::collections::BTreeMap;
use std::marker::Model;
use wjs_base::{ObjId, OutOfMemory, Slot, Value};

/// A map from slots.
#[derive(Drop)]
pub struct SlotMap<V> {
    tree: BTreeMap<Slot, V>,
}

impl<V> Model for SlotMap<V> {
    ghost use Rattle.std.specs.FinMap as map;
    ghost use Rattle.wjs_base.specs.Order.{slot_cmp};
    ghost use Rattle.wjs_base.specs.Codes.{coded_slot};

    ghost Value = { map.FinMap slot_cmp V };

    ghost coded = { map.code coded_slot V.code };

    ghost view = { λ m. map.from_entries m.tree.entries };
}

fn entries_of<V: Copy>(
    alloc: Global,
    tree: &BTreeMap<Slot, V>,
) -> Result<Vec<(Slot, V)>, OutOfMemory>
    ensures all { IfOk result (λ all. all.items ≡ tree.now.entries) }
    ensures ordered { IsOrdered slot_cmp tree.now }
{
    let mut all = Vec::new(alloc);
    for (slot, value) in tree.iter() {
        all.push((*slot, *value))?;
    }
    Ok(all)
}

impl<V: Copy> SlotMap<V> {
    pub fn new(alloc: Global) -> SlotMap<V>
        ensures { result ≡ map.empty }
    {
        SlotMap {
            tree: BTreeMap::new(alloc),
        }
    }

    pub fn get(&self, slot: Slot) -> Option<V>
        ensures { result ≡ map.get self.now slot }
    {
        self.tree.get(&slot).copied()
    }

    pub fn has(&self, slot: Slot) -> bool
        ensures { result ≡ map.contains_key self.now slot }
    {
        self.tree.contains_key(&slot)
    }

    pub fn insert(&mut self, slot: Slot, value: V) -> Result<(), OutOfMemory>
        ensures ok { OnOk result (self.new ≡ map.insert self.old slot value) }
    {
        self.tree.insert(slot, value)?;
        Ok(())
    }

    pub fn remove(&mut self, slot: Slot)
        ensures { self.new ≡ map.remove self.old slot }
    {
        let _ = self.tree.remove(&slot);
    }

    pub fn put(&mut self, slot: Slot, value: Option<V>) -> Result<(), OutOfMemory>
        ensures ok { OnOk result (self.new ≡ put self.old slot value) }
    {
        match value {
            None => {
                self.remove(slot);
                Ok(())
            }
            Some(value) => self.insert(slot, value),
        }
    }

    pub fn len(&self) -> usize
        ensures { result ≡ map.len self.now }
    {
        self.tree.len()
    }

    /// The entries, in the order of slots.
    pub fn entries(&self, alloc: Global) -> Result<Vec<(Slot, V)>, OutOfMemory>
        ensures { IfOk result (λ all. all.items ≡ map.entries self.now) }
    {
        entries_of(alloc, &self.tree)
    }

    /// The slots, in their order.
    pub fn keys(&self, alloc: Global) -> Result<Vec<Slot>, OutOfMemory>
        ensures { IfOk result (λ all. all.items ≡ map.keys self.now) }
    {
        let entries = self.entries(alloc)?;
        Ok(entries.iter().map(|entry| entry.0).collect(alloc)?)
    }
}

impl SlotMap<Value> {
    pub fn copied(&self) -> Result<SlotMap<Value>, OutOfMemory>
        ensures { IfOk result (λ m. m ≡ self.now) }
    {
        let tree = self.tree.clone()?;
        Ok(SlotMap { tree })
    }
}

/// A set of objects. It is kept as a map with nothing at each object, so that contracts see maps and sets by the same
/// words.
#[derive(Drop)]
pub struct ObjSet {
    tree: BTreeMap<ObjId, ()>,
}

impl Model for ObjSet {
    ghost use Rattle.std.specs.FinMap as map;
    ghost use base.Stored.{coded_unit};
    ghost use Rattle.wjs_base.specs.Order.{obj_cmp};
    ghost use Rattle.wjs_store.specs.State.{KeySet};
    ghost use Rattle.wjs_base.specs.Codes.{coded_object};

    ghost Value = { KeySet obj_cmp };

    ghost coded = { map.code coded_object coded_unit };

    ghost view = { λ m. map.from_entries m.tree.entries };
}

impl ObjSet {
    pub fn new(alloc: Global) -> ObjSet
        ensures { result ≡ map.empty }
    {
        ObjSet {
            tree: BTreeMap::new(alloc),
        }
    }

    pub fn has(&self, object: ObjId) -> bool
        ensures { result ≡ map.contains_key self.now object }
    {
        self.tree.contains_key(&object)
    }

    pub fn insert(&mut self, object: ObjId) -> Result<(), OutOfMemory>
        ensures ok { OnOk result (self.new ≡ map.insert self.old object tt) }
    {
        self.tree.insert(object, ())?;
        Ok(())
    }

    pub fn len(&self) -> usize
        ensures { result ≡ map.len self.now }
    {
        self.tree.len()
    }

    /// The objects, in their order.
    pub fn objects(&self, alloc: Global) -> Result<Vec<ObjId>, OutOfMemory>
        ensures { IfOk result (λ all. all.items ≡ map.keys self.now) }
    {
        Ok(self.tree.keys().copied().collect(alloc)?)
    }
}
