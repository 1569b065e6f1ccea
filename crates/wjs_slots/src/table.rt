//! Rows by slot, whose calls count their steps.
ghost use Rattle.std.specs.Prelude.{◌≡◌, ◌+◌, false, length, OnOk, OnErr, IfOk, IsTrue};
ghost use Rattle.std.specs.Option.{option_copied};
ghost use Rattle.std.specs.FinMap as map;
ghost use Rattle.std.specs.Map.{lookup_entry};
ghost use Rattle.wjs_slots.specs.Least.{is_next_on};
ghost use Rattle.wjs_slots.specs.Several.{with_rows_on};

use crate::parts::{Parts, Start};
use std::alloc::Global;
use std::marker::Model;
use std::sync::ledger::Ledger;
use wjs_base::{Name, ObjId, OutOfMemory, Slot};
use wjs_names::ROWS_IN_PLACE;
use wjs_rows::Steps;

/// Rows by slot, seen as a finite map. They are gone through object by object.
///
/// The rows of objects that one owner numbers one after another are found by that number, and the rows of
/// an object with many that stand at 0, 1, 2, .. by that index. The memory goes with the rows that an
/// object had at once, and with that count as far as rows come without a gap of 64 objects: a table
/// whose objects or indices have great numbers stays small, and so does one whose object gets rows at
/// one end and loses them at the other.
#[derive(Drop)]
pub struct Table<V> {
    parts: Parts<V>,
    len: usize,
}

impl<V> Model for Table<V> {
    ghost use Rattle.std.specs.Prelude.{◌≡◌};
    ghost use Rattle.std.specs.FinMap as map;
    ghost use Rattle.wjs_base.specs.Order.{slot_cmp};
    ghost use Rattle.wjs_base.specs.Codes.{coded_slot};

    ghost Value = { map.FinMap slot_cmp V };

    ghost coded = { map.code coded_slot V.code };

    ghost view = { λ t. t.parts };

    ghost invariant = { λ t. t.len ≡ map.len t.parts };
}

impl<V: Copy> Table<V> {
    /// A table with no rows.
    pub fn new(alloc: Global) -> Table<V>
        ensures { result ≡ map.empty }
    {
        Table {
            parts: Parts::new(alloc),
            len: 0,
        }
    }

    /// How many rows there are. It takes no step.
    pub fn len(&self) -> usize
        ensures { result ≡ length (map.entries self.now) }
    {
        self.len
    }

    /// The value at a slot; None exactly where there is no row.
    #[inline(always)]
    pub fn get<L: Ledger>(&self, slot: Slot, steps: &mut Steps<L>) -> Option<&V>
        ensures row { option_copied result ≡ map.get self.now slot }
        ensures step { steps.new ≡ steps.old + 1 }
    {
        steps.tick();
        self.parts.get(slot)
    }

    /// Puts a value at a slot. After a refusal the table is as it was.
    #[inline(always)]
    pub fn set<L: Ledger>(
        &mut self,
        slot: Slot,
        value: V,
        steps: &mut Steps<L>,
    ) -> Result<(), OutOfMemory>
        ensures ok { OnOk result (self.new ≡ map.insert self.old slot value) }
        ensures err { OnErr result (self.new ≡ self.old) }
        ensures step { steps.new ≡ steps.old + 1 }
    {
        steps.tick();
        if self.len == usize::MAX {
            return Err(OutOfMemory);
        }
        let added = self.parts.set(slot, value, Start::First)?;
        if added {
            self.len += 1;
        }
        Ok(())
    }

    /// Puts values at names of an object, one after another. After a refusal some of them may stand there.
    #[inline(always)]
    pub fn set_all<L: Ledger>(
        &mut self,
        object: ObjId,
        rows: &[(Name, V)],
        steps: &mut Steps<L>,
    ) -> Result<(), OutOfMemory>
        ensures { OnOk result (self.new ≡ with_rows_on object rows.now self.old) }
    {
        steps.tick();
        let filled = self.fill(object, rows)?;
        if filled {
            return Ok(());
        }
        self.set_each(object, rows, steps)
    }

    /// `set_all` of an object that has no rows, if it does it: else all stays as it is.
    #[inline(always)]
    fn fill(&mut self, object: ObjId, rows: &[(Name, V)]) -> Result<bool, OutOfMemory>
        ensures filled { IfOk result (λ filled. IsTrue filled → self.new ≡ with_rows_on object rows.now self.old) }
        ensures same { IfOk result (λ filled. filled ≡ false → self.new ≡ self.old) }
    {
        if usize::MAX - self.len < rows.len() {
            return Ok(false);
        }
        let filled = self.parts.fill(object, rows, Start::First)?;
        if filled {
            self.len += rows.len();
        }
        Ok(filled)
    }

    /// `set_all` by one `set` after another.
    #[inline(never)]
    fn set_each<L: Ledger>(
        &mut self,
        object: ObjId,
        rows: &[(Name, V)],
        steps: &mut Steps<L>,
    ) -> Result<(), OutOfMemory>
        ensures { OnOk result (self.new ≡ with_rows_on object rows.now self.old) }
    {
        for row in rows {
            let slot = Slot {
                object,
                name: row.0,
            };
            self.set(slot, row.1, steps)?;
        }
        Ok(())
    }

    /// Takes room for so many rows of an object that has none yet, if they are to stand in a list. It takes no step.
    #[inline(always)]
    pub fn reserve(&mut self, object: ObjId, count: usize) -> Result<(), OutOfMemory>
        ensures { self.new ≡ self.old }
    {
        if count <= ROWS_IN_PLACE {
            return Ok(());
        }
        self.parts.reserve(object, count, Start::First)
    }

    /// Takes the row at a slot out, if there is one. After a refusal the table is as it was.
    #[inline(never)]
    pub fn remove<L: Ledger>(&mut self, slot: Slot, steps: &mut Steps<L>) -> Result<(), OutOfMemory>
        ensures removed { OnOk result (self.new ≡ map.remove self.old slot) }
        ensures err { OnErr result (self.new ≡ self.old) }
        ensures step { steps.new ≡ steps.old + 1 }
    {
        steps.tick();
        let found = self.parts.remove(slot)?;
        if found {
            self.len -= 1;
        }
        Ok(())
    }

    /// The least row of an object after the name that was passed, or the least of all that it has; None exactly where there
    /// is none.
    pub fn next_on<L: Ledger>(
        &self,
        object: ObjId,
        passed: Option<Name>,
        steps: &mut Steps<L>,
    ) -> Option<(Slot, V)>
        ensures least { result ≡ lookup_entry (is_next_on object passed) (map.entries self.now) }
        ensures step { steps.new ≡ steps.old + 1 }
    {
        steps.tick();
        self.parts.next_on(object, passed)
    }
}
