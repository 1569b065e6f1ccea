//! The rows of a child world.
ghost use Rattle.std.specs.Prelude.{◌≡◌, ◌+◌, ◌≤◌, length, is_some, Some, true, false, IfOk, OnOk};
ghost use Rattle.std.specs.Option.{option_map, option_copied};
ghost use Rattle.std.specs.Ordering.{eq_by_cmp};
ghost use Rattle.std.specs.FinMap as map;
ghost use Rattle.std.specs.Map.{lookup_entry};
ghost use Rattle.wjs_base.specs.Order.{slot_cmp};
ghost use Rattle.wjs_base.specs.declared.values.Slot.{Slot};
ghost use Rattle.wjs_base.specs.declared.values.Content.{Content};
ghost use Rattle.wjs_rows.specs.Order.{is_from, is_after};
ghost use Rattle.wjs_slots.specs.Least.{is_next_on};
ghost use Rattle.wjs_layers.specs.declared.maps.Row.{Row};
ghost use Rattle.wjs_layers.specs.Keyed.{entry_by, rewritten};
ghost use Rattle.wjs_layers.specs.Shorts.{apart_of, is_write, read_by, row_in, row_read, row_written};

use crate::compact::{Mark, ShortContent};
use crate::maps::{Row, SlotMap};
use crate::short::{short, short_value};
use crate::values::held;
use std::alloc::Global;
use std::marker::Model;
use std::sync::ledger::Ledger;
use wjs_base::{Content, Name, ObjId, OutOfMemory, Slot};
use wjs_rows::Steps;
use wjs_slots::Walked;

/// What was touched in a world with a parent, seen as its rows by slot.
///
/// A slot that was only read holds what was read, and of one that was written nothing more is known in most cases. So a row is
/// what its slot holds, with a mark, and only what was read and then changed is kept apart.
#[derive(Drop)]
pub struct Touched {
    rows: Walked<ShortContent>,
    before: SlotMap<ShortContent>,
}

impl Model for Touched {
    ghost use Rattle.std.specs.FinMap as map;
    ghost use Rattle.wjs_base.specs.Order.{slot_cmp};
    ghost use Rattle.wjs_base.specs.Codes.{coded_slot};
    ghost use Rattle.wjs_layers.specs.declared.maps.Row.{Row};
    ghost use Rattle.wjs_layers.specs.Codes.{coded_row};
    ghost use Rattle.wjs_layers.specs.Keyed.{rows_by};
    ghost use Rattle.wjs_layers.specs.Shorts.{row_in};

    ghost Value = { map.FinMap slot_cmp Row };

    ghost coded = { map.code coded_slot coded_row };

    ghost view = { λ t. rows_by (row_in t.before) t.rows };
}

impl Touched {
    /// Nothing.
    pub fn new(alloc: Global) -> Touched
        ensures { result ≡ map.empty }
    {
        Touched {
            rows: Walked::new(alloc),
            before: SlotMap::new(alloc),
        }
    }

    /// How many rows there are.
    pub fn len(&self) -> usize
        ensures { result ≡ length (map.entries self.now) }
    {
        self.rows.len()
    }

    /// What the row of a slot says that it holds; None exactly where there is no row.
    pub fn now<L: Ledger>(&self, slot: Slot, steps: &mut Steps<L>) -> Option<Content>
        ensures now { result ≡ option_map (λ (row : Row). row.now) (map.get self.now slot) }
        ensures step { steps.new ≡ steps.old + 1 }
    {
        held(self.rows.get(slot, steps))
    }

    /// The row of a slot; None exactly where there is none.
    pub fn get<L: Ledger>(&self, slot: Slot, steps: &mut Steps<L>) -> Option<Row>
        ensures row { result ≡ map.get self.now slot }
        ensures step { steps.new ≡ steps.old + 1 }
    {
        full_row(&self.before, slot, self.rows.get(slot, steps))
    }

    /// The least row at or after a slot; None exactly where there is none.
    pub fn next_from<L: Ledger>(&self, slot: Slot, steps: &mut Steps<L>) -> Option<(Slot, Row)>
        ensures least { result ≡ lookup_entry (is_from slot_cmp slot) (map.entries self.now) }
        ensures step { steps.new ≡ steps.old + 1 }
    {
        full_entry(&self.before, self.rows.next_from(slot, steps))
    }

    /// The least row after a slot; None exactly where there is none.
    pub fn next_after<L: Ledger>(&self, slot: Slot, steps: &mut Steps<L>) -> Option<(Slot, Row)>
        ensures least { result ≡ lookup_entry (is_after slot_cmp slot) (map.entries self.now) }
        ensures step { steps.new ≡ steps.old + 1 }
    {
        full_entry(&self.before, self.rows.next_after(slot, steps))
    }

    /// The least row of an object after the name that was passed, or the least of all that it has; None exactly where there
    /// is none.
    pub fn next_on<L: Ledger>(
        &self,
        object: ObjId,
        passed: Option<Name>,
        steps: &mut Steps<L>,
    ) -> Option<(Slot, Row)>
        ensures least { result ≡ lookup_entry (is_next_on object passed) (map.entries self.now) }
        ensures step { steps.new ≡ steps.old + 1 }
    {
        full_entry(&self.before, self.rows.next_on(object, passed, steps))
    }

    /// Records what a slot was read as.
    pub fn set_read<L: Ledger>(
        &mut self,
        slot: Slot,
        read: Content,
        steps: &mut Steps<L>,
    ) -> Result<(), OutOfMemory>
        ensures ok { OnOk result (self.new ≡ map.insert self.old slot (row_read read)) }
        ensures step { steps.new ≡ steps.old + 1 }
    {
        self.rows.set(slot, short(read, Mark::Read), steps)
    }

    /// Writes a slot, with the read that is recorded, if one is.
    pub fn set_written<L: Ledger>(
        &mut self,
        slot: Slot,
        read: Option<Content>,
        content: Content,
        steps: &mut Steps<L>,
    ) -> Result<(), OutOfMemory>
        ensures ok { OnOk result (self.new ≡ map.insert self.old slot (row_written read content)) }
        ensures step { steps.new ≤ steps.old + 1 }
    {
        let mark = mark_over(&mut self.before, slot, read)?;
        self.rows.set(slot, short(content, mark), steps)
    }

    /// Writes a slot that has a row, and says whether it has one. Else all stays as it is, in one step.
    pub fn rewrite<L: Ledger>(
        &mut self,
        slot: Slot,
        content: Content,
        steps: &mut Steps<L>,
    ) -> Result<bool, OutOfMemory>
        ensures found { IfOk result (λ found. found ≡ is_some (map.get self.old slot)) }
        ensures ok { OnOk result (self.new ≡ rewritten self.old slot content) }
        ensures steps { steps.new ≤ steps.old + 2 }
        ensures look { IfOk result (λ found. found ≡ false → steps.new ≤ steps.old + 1) }
    {
        match self.rows.get(slot, steps).copied() {
            None => Ok(false),
            Some(kept) => {
                let mark = mark_after(&mut self.before, slot, kept)?;
                self.rows.set(slot, short(content, mark), steps)?;
                Ok(true)
            }
        }
    }
}

/// The recorded read of a slot with a mark, which holds this.
fn recorded(before: &SlotMap<ShortContent>, slot: Slot, mark: Mark, now: Content) -> Option<Content>
    ensures { result ≡ read_by mark now (apart_of before.now slot) }
{
    match mark {
        Mark::Read => Some(now),
        Mark::Written => None,
        Mark::Filled => Some(Content::Absent),
        Mark::Changed => held(before.get(slot)),
    }
}

/// The row of a slot, by what is kept of it.
fn row(before: &SlotMap<ShortContent>, slot: Slot, kept: ShortContent) -> Row
    ensures { result ≡ row_in before.now slot kept }
{
    let now = kept.content();
    Row {
        read: recorded(before, slot, kept.mark, now),
        now,
        written: kept.is_written(),
    }
}

/// The row of a slot of which something may be kept.
fn full_row(before: &SlotMap<ShortContent>, slot: Slot, kept: Option<&ShortContent>) -> Option<Row>
    ensures { result ≡ option_map (row_in before.now slot) (option_copied kept.entry) }
{
    match kept {
        None => None,
        Some(kept) => Some(row(before, slot, *kept)),
    }
}

/// An entry with its row.
fn full_entry(
    before: &SlotMap<ShortContent>,
    entry: Option<(Slot, ShortContent)>,
) -> Option<(Slot, Row)>
    ensures { result ≡ option_map (entry_by (row_in before.now)) entry }
{
    match entry {
        None => None,
        Some((slot, kept)) => Some((slot, row(before, slot, kept))),
    }
}

/// The mark of a slot that is written and was read as this. What was present is kept apart.
fn mark_read(
    before: &mut SlotMap<ShortContent>,
    slot: Slot,
    read: Content,
) -> Result<Mark, OutOfMemory>
    ensures read { IfOk result (λ mark. (now : Content) → read_by mark now (apart_of before.new slot) ≡ Some read) }
    ensures written { IfOk result (λ mark. is_write mark ≡ true) }
    ensures others { OnOk result ((q : Slot) → eq_by_cmp slot_cmp q slot ≡ false → map.get before.new q ≡ map.get before.old q) }
{
    match read {
        Content::Absent => Ok(Mark::Filled),
        Content::Present(value) => {
            before.insert(slot, short_value(value, Mark::Read))?;
            Ok(Mark::Changed)
        }
    }
}

/// The mark of a slot that is written, with the read that is recorded, if one is.
fn mark_over(
    before: &mut SlotMap<ShortContent>,
    slot: Slot,
    read: Option<Content>,
) -> Result<Mark, OutOfMemory>
    ensures read { IfOk result (λ mark. (now : Content) → read_by mark now (apart_of before.new slot) ≡ read) }
    ensures written { IfOk result (λ mark. is_write mark ≡ true) }
    ensures others { OnOk result ((q : Slot) → eq_by_cmp slot_cmp q slot ≡ false → map.get before.new q ≡ map.get before.old q) }
{
    match read {
        None => Ok(Mark::Written),
        Some(content) => mark_read(before, slot, content),
    }
}

/// The mark of a slot with a row once it is written.
fn mark_after(
    before: &mut SlotMap<ShortContent>,
    slot: Slot,
    kept: ShortContent,
) -> Result<Mark, OutOfMemory>
    ensures read { IfOk result (λ mark. (now : Content) → read_by mark now (apart_of before.new slot) ≡ (row_in before.old slot kept).read) }
    ensures written { IfOk result (λ mark. is_write mark ≡ true) }
    ensures others { OnOk result ((q : Slot) → eq_by_cmp slot_cmp q slot ≡ false → map.get before.new q ≡ map.get before.old q) }
{
    match kept.mark {
        Mark::Read => mark_read(before, slot, kept.content()),
        Mark::Written => Ok(Mark::Written),
        Mark::Filled => Ok(Mark::Filled),
        Mark::Changed => Ok(Mark::Changed),
    }
}
