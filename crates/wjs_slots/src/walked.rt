//! Rows by slot that are gone through one after another, whose calls count their steps.
ghost use Rattle.std.specs.Prelude.{◌≡◌, ◌+◌, length, OnOk, OnErr};
ghost use Rattle.std.specs.Option.{option_copied};
ghost use Rattle.std.specs.FinMap as map;
ghost use Rattle.std.specs.Map.{lookup_entry};
ghost use Rattle.wjs_base.specs.Order.{slot_cmp};
ghost use Rattle.wjs_rows.specs.Order.{is_from, is_after};
ghost use Rattle.wjs_slots.specs.Least.{first_slot, is_next_on};

use crate::parts::{Parts, Start};
use std::alloc::Global;
use std::marker::Model;
use std::sync::ledger::Ledger;
use wjs_base::{Name, ObjId, OutOfMemory, Slot};
use wjs_rows::Steps;

/// How many rows there are before objects are found by number. The first of them are mostly of objects that an ancestor made.
const EARLY_ROWS: usize = 64;

/// The rows of a child world by slot, seen as a finite map. None is ever taken out.
///
/// Where they stand is as in a `Table`, but that the objects found by number begin with one made later. A row is found behind
/// another one with a look at fewer than 64 objects that have none: no two that are found by number and have rows are further
/// apart.
#[derive(Drop)]
pub struct Walked<V> {
    parts: Parts<V>,
    len: usize,
}

impl<V> Model for Walked<V> {
    ghost use Rattle.std.specs.Prelude.{◌≡◌};
    ghost use Rattle.std.specs.FinMap as map;
    ghost use Rattle.wjs_base.specs.Order.{slot_cmp};
    ghost use Rattle.wjs_base.specs.Codes.{coded_slot};

    ghost Value = { map.FinMap slot_cmp V };

    ghost coded = { map.code coded_slot V.code };

    ghost view = { λ w. w.parts };

    ghost invariant = { λ w. w.len ≡ map.len w.parts };
}

impl<V: Copy> Walked<V> {
    /// No rows.
    pub fn new(alloc: Global) -> Walked<V>
        ensures { result ≡ map.empty }
    {
        Walked {
            parts: Parts::later(alloc),
            len: 0,
        }
    }

    /// How many rows there are. It takes no step.
    pub fn len(&self) -> usize
        ensures { result ≡ length (map.entries self.now) }
    {
        self.len
    }

    /// The value at a slot; None exactly where there is no row.
    #[inline(always)]
    pub fn get<L: Ledger>(&self, slot: Slot, steps: &mut Steps<L>) -> Option<&V>
        ensures row { option_copied result ≡ map.get self.now slot }
        ensures step { steps.new ≡ steps.old + 1 }
    {
        steps.tick();
        self.parts.get(slot)
    }

    /// Puts a value at a slot. After a refusal all is as it was.
    pub fn set<L: Ledger>(
        &mut self,
        slot: Slot,
        value: V,
        steps: &mut Steps<L>,
    ) -> Result<(), OutOfMemory>
        ensures ok { OnOk result (self.new ≡ map.insert self.old slot value) }
        ensures err { OnErr result (self.new ≡ self.old) }
        ensures step { steps.new ≡ steps.old + 1 }
    {
        steps.tick();
        if self.len == usize::MAX {
            return Err(OutOfMemory);
        }
        let start = start_of(self.len);
        let added = self.parts.set(slot, value, start)?;
        if added {
            self.len += 1;
        }
        Ok(())
    }

    /// The least row at or after a slot; None exactly where there is none.
    pub fn next_from<L: Ledger>(&self, slot: Slot, steps: &mut Steps<L>) -> Option<(Slot, V)>
        ensures least { result ≡ lookup_entry (is_from slot_cmp slot) (map.entries self.now) }
        ensures step { steps.new ≡ steps.old + 1 }
    {
        steps.tick();
        self.row_from(slot)
    }

    /// The least row after a slot; None exactly where there is none.
    pub fn next_after<L: Ledger>(&self, slot: Slot, steps: &mut Steps<L>) -> Option<(Slot, V)>
        ensures least { result ≡ lookup_entry (is_after slot_cmp slot) (map.entries self.now) }
        ensures step { steps.new ≡ steps.old + 1 }
    {
        steps.tick();
        self.row_after(slot)
    }

    /// The least row of an object after the name that was passed, or the least of all that it has; None exactly where there
    /// is none.
    pub fn next_on<L: Ledger>(
        &self,
        object: ObjId,
        passed: Option<Name>,
        steps: &mut Steps<L>,
    ) -> Option<(Slot, V)>
        ensures least { result ≡ lookup_entry (is_next_on object passed) (map.entries self.now) }
        ensures step { steps.new ≡ steps.old + 1 }
    {
        steps.tick();
        self.parts.next_on(object, passed)
    }

    /// `next_from`, without its step.
    fn row_from(&self, slot: Slot) -> Option<(Slot, V)>
        ensures { result ≡ lookup_entry (is_from slot_cmp slot) (map.entries self.now) }
    {
        match self.parts.get(slot) {
            Some(value) => Some((slot, *value)),
            None => self.row_after(slot),
        }
    }

    /// `next_after`, without its step.
    fn row_after(&self, slot: Slot) -> Option<(Slot, V)>
        ensures { result ≡ lookup_entry (is_after slot_cmp slot) (map.entries self.now) }
    {
        match self.parts.next_on(slot.object, Some(slot.name)) {
            Some(row) => Some(row),
            None => self.parts.next_past(slot),
        }
    }
}

/// Where the objects that are found by number begin, as long as there are none.
#[inline(always)]
fn start_of(len: usize) -> Start {
    if len < EARLY_ROWS {
        Start::Nowhere
    } else {
        Start::Next
    }
}

/// The least of all slots.
pub fn least_slot() -> Slot
    ensures { result ≡ first_slot }
{
    Slot {
        object: ObjId {
            owner: 0,
            serial: 0,
        },
        name: Name::Index(0),
    }
}
