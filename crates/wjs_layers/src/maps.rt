//! Rows, sets of objects and of slots, and values by slot, seen as finite maps.
ghost use Rattle.std.specs.Prelude.{◌≡◌, ◌+◌, ◌≤◌, length, OnOk, IfOk, is_some};
ghost use Rattle.wjs_layers.specs.Least.{first_object};
ghost use Rattle.std.specs.FinMap as map;
ghost use Rattle.std.specs.Map.{lookup_key};
ghost use Rattle.std.specs.Option.{option_copied};
ghost use Rattle.wjs_base.specs.Order.{slot_cmp, obj_cmp};
ghost use Rattle.wjs_rows.specs.Order.{is_from, is_after};

use std::alloc::Global;
use std::collections::BTreeMap;
use std::marker::Model;
use std::sync::ledger::Ledger;
use wjs_base::{Content, ObjId, OutOfMemory, Slot};
use wjs_rows::{Rows, Steps};

/// What a world keeps of a slot.
#[derive(Clone, Copy)]
pub struct Row {
    /// The recorded read, if there is one.
    pub read: Option<Content>,
    /// What the slot holds.
    pub now: Content,
    /// Whether it was written.
    pub written: bool,
}

/// The least of all objects.
pub fn least_object() -> ObjId
    ensures { result ≡ first_object }
{
    ObjId {
        owner: 0,
        serial: 0,
    }
}

#[derive(Drop)]
pub struct ObjectSet {
    rows: Rows<ObjId, ()>,
}

impl Model for ObjectSet {
    ghost use Rattle.std.specs.FinMap as map;
    ghost use base.Stored.{coded_unit};
    ghost use Rattle.wjs_base.specs.Order.{obj_cmp};
    ghost use Rattle.wjs_store.specs.State.{KeySet};
    ghost use Rattle.wjs_base.specs.Codes.{coded_object};

    ghost Value = { KeySet obj_cmp };

    ghost coded = { map.code coded_object coded_unit };

    ghost view = { λ m. map.from_entries m.rows };
}

impl ObjectSet {
    pub fn new(alloc: Global) -> ObjectSet
        ensures { result ≡ map.empty }
    {
        ObjectSet {
            rows: Rows::new(alloc),
        }
    }

    pub fn has<L: Ledger>(&self, object: ObjId, steps: &mut Steps<L>) -> bool
        ensures found { result ≡ map.contains_key self.now object }
        ensures step { steps.new ≡ steps.old + 1 }
    {
        self.rows.get(&object, steps).is_some()
    }

    pub fn insert<L: Ledger>(
        &mut self,
        object: ObjId,
        steps: &mut Steps<L>,
    ) -> Result<(), OutOfMemory>
        ensures ok { OnOk result (self.new ≡ map.insert self.old object tt) }
        ensures step { steps.new ≡ steps.old + 1 }
    {
        self.rows.set(object, (), steps)?;
        Ok(())
    }

    pub fn len(&self) -> usize
        ensures { result ≡ map.len self.now }
    {
        self.rows.len()
    }

    /// All objects, in their order.
    pub fn objects<L: Ledger>(
        &self,
        alloc: Global,
        steps: &mut Steps<L>,
    ) -> Result<Vec<ObjId>, OutOfMemory>
        ensures all { IfOk result (λ all. all.items ≡ map.keys self.now) }
        ensures steps { steps.new ≤ steps.old + (length (map.keys self.now) + 1) }
    {
        let mut all = Vec::new(alloc);
        let mut next = self.next_from(least_object(), steps);
        'objects: while let Some(object) = next {
            all.push(object)?;
            next = self.next_after(object, steps);
        }
        Ok(all)
    }

    /// The least object at or after an object.
    pub fn next_from<L: Ledger>(&self, object: ObjId, steps: &mut Steps<L>) -> Option<ObjId>
        ensures least { result ≡ lookup_key (is_from obj_cmp object) (map.entries self.now) }
        ensures step { steps.new ≡ steps.old + 1 }
    {
        match self.rows.next_from(&object, steps) {
            None => None,
            Some((next, _)) => Some(*next),
        }
    }

    /// The least object after an object.
    pub fn next_after<L: Ledger>(&self, object: ObjId, steps: &mut Steps<L>) -> Option<ObjId>
        ensures least { result ≡ lookup_key (is_after obj_cmp object) (map.entries self.now) }
        ensures step { steps.new ≡ steps.old + 1 }
    {
        match self.rows.next_after(&object, steps) {
            None => None,
            Some((next, _)) => Some(*next),
        }
    }
}

/// A set of slots that is gathered and then gone through.
#[derive(Drop)]
pub struct SlotSet {
    tree: BTreeMap<Slot, ()>,
}

impl Model for SlotSet {
    ghost use Rattle.std.specs.FinMap as map;
    ghost use base.Stored.{coded_unit};
    ghost use Rattle.wjs_base.specs.Order.{slot_cmp};
    ghost use Rattle.wjs_store.specs.State.{KeySet};
    ghost use Rattle.wjs_base.specs.Codes.{coded_slot};

    ghost Value = { KeySet slot_cmp };

    ghost coded = { map.code coded_slot coded_unit };

    ghost view = { λ m. map.from_entries m.tree.entries };
}

impl SlotSet {
    pub fn new(alloc: Global) -> SlotSet
        ensures { result ≡ map.empty }
    {
        SlotSet {
            tree: BTreeMap::new(alloc),
        }
    }

    pub fn insert(&mut self, slot: Slot) -> Result<(), OutOfMemory>
        ensures ok { OnOk result (self.new ≡ map.insert self.old slot tt) }
    {
        self.tree.insert(slot, ())?;
        Ok(())
    }

    /// The slots, in their order.
    pub fn slots(&self, alloc: Global) -> Result<Vec<Slot>, OutOfMemory>
        ensures { IfOk result (λ all. all.items ≡ map.keys self.now) }
    {
        Ok(self.tree.keys().copied().collect(alloc)?)
    }
}

/// Values by slot. A look at them takes no step.
#[derive(Drop)]
pub struct SlotMap<V> {
    tree: BTreeMap<Slot, V>,
}

impl<V> Model for SlotMap<V> {
    ghost use Rattle.std.specs.FinMap as map;
    ghost use Rattle.wjs_base.specs.Order.{slot_cmp};
    ghost use Rattle.wjs_base.specs.Codes.{coded_slot};

    ghost Value = { map.FinMap slot_cmp V };

    ghost coded = { map.code coded_slot V.code };

    ghost view = { λ m. map.from_entries m.tree.entries };
}

impl<V: Copy> SlotMap<V> {
    pub fn new(alloc: Global) -> SlotMap<V>
        ensures { result ≡ map.empty }
    {
        SlotMap {
            tree: BTreeMap::new(alloc),
        }
    }

    pub fn get(&self, slot: Slot) -> Option<&V>
        ensures { option_copied result ≡ map.get self.now slot }
    {
        self.tree.get(&slot)
    }

    pub fn insert(&mut self, slot: Slot, value: V) -> Result<(), OutOfMemory>
        ensures ok { OnOk result (self.new ≡ map.insert self.old slot value) }
    {
        self.tree.insert(slot, value)?;
        Ok(())
    }
}
