//! One world, with all that it holds.
ghost use Rattle.std.specs.Prelude.{◌≡◌, ◌++◌, ◌∷◌, [], OnOk, IfOk, map as each, fold, filter, unwrap_or};
ghost use Rattle.std.specs.FinMap as map;
ghost use Rattle.wjs_base.specs.declared.values.Slot.{Slot};
ghost use Rattle.wjs_store.specs.State.{World, is_touched, has_row, read_in, write_in, list_in, slots_in, close_in, read_all, hand_entries};
ghost use Rattle.wjs_store.specs.State.{hand_objects, clear_marks, child_of, same_content, same_object, fails, lesser, least, fault_in, moves};
ghost use Rattle.wjs_store.specs.State.{reads_of};
ghost use Rattle.wjs_base.specs.Order.{slot_cmp};
ghost use Rattle.wjs_base.specs.Same.{same_value};
ghost use Rattle.wjs_full.specs.Rows.{world_in};
ghost use Rattle.wjs_store.specs.Fixed.{fresh};
ghost use Rattle.wjs_store.specs.Shown.{slots_of};

use crate::maps::{ObjSet, SlotMap};
use std::alloc::Global;
use wjs_base::{Names, ObjId, OutOfMemory, Slot, Value, WorldId};

/// A world with all that it holds.
#[derive(Drop)]
pub struct Row {
    pub id: WorldId,
    pub parent: Option<WorldId>,
    pub strict: bool,
    pub copy: SlotMap<Value>,
    pub first: SlotMap<Option<Value>>,
    pub written: SlotMap<()>,
    pub closed: ObjSet,
}

impl Row {
    /// The first world, with nothing in it.
    pub fn first(alloc: Global) -> Row
        ensures { world_in result ∷ [] ≡ fresh }
    {
        Row {
            id: WorldId {
                owner: 0,
                serial: 0,
            },
            parent: None,
            strict: false,
            copy: SlotMap::new(alloc),
            first: SlotMap::new(alloc),
            written: SlotMap::new(alloc),
            closed: ObjSet::new(alloc),
        }
    }

    fn has_row(&self, slot: Slot) -> bool
        ensures { result ≡ has_row (world_in self.now) slot }
    {
        self.first.has(slot) || self.written.has(slot)
    }

    pub fn is_touched(&self, slot: Slot) -> bool
        ensures { result ≡ is_touched (world_in self.now) slot }
    {
        self.has_row(slot) || self.closed.has(slot.object)
    }

    /// Records what an untouched slot holds.
    pub fn read(&mut self, slot: Slot) -> Result<(), OutOfMemory>
        ensures { OnOk result (world_in self.new ≡ read_in slot (world_in self.old)) }
    {
        if self.parent.is_some() && !self.is_touched(slot) {
            let now = self.copy.get(slot);
            self.first.insert(slot, now)?;
        }
        Ok(())
    }

    /// Writes in the world itself.
    pub fn write(&mut self, slot: Slot, content: Option<Value>) -> Result<(), OutOfMemory>
        ensures { OnOk result (world_in self.new ≡ write_in slot content (world_in self.old)) }
    {
        if self.parent.is_some() {
            if !self.has_row(slot) && (self.closed.has(slot.object) || self.strict) {
                let now = self.copy.get(slot);
                self.first.insert(slot, now)?;
            }
            self.written.insert(slot, ())?;
        }
        self.copy.put(slot, content)
    }

    /// The present slots of an object, in order.
    fn slots(&self, alloc: Global, object: ObjId) -> Result<Vec<Slot>, OutOfMemory>
        ensures { IfOk result (λ all. all.items ≡ slots_in object (world_in self.now)) }
    {
        let entries = self.copy.entries(alloc)?;
        Ok(
            entries
                .iter()
                .map(|entry| entry.0)
                .filter(|slot| slot.object == object)
                .collect(alloc)?,
        )
    }

    fn read_all(&mut self, slots: &[Slot]) -> Result<(), OutOfMemory>
        ensures { OnOk result (world_in self.new ≡ read_all slots.now (world_in self.old)) }
    {
        for slot in slots {
            self.read(*slot)?;
        }
        Ok(())
    }

    fn close(&mut self, object: ObjId) -> Result<(), OutOfMemory>
        ensures { OnOk result (world_in self.new ≡ close_in object (world_in self.old)) }
    {
        if self.parent.is_some() {
            self.closed.insert(object)?;
        }
        Ok(())
    }

    /// The names of an object's present slots, in order.
    pub fn names(&self, alloc: Global, object: ObjId) -> Result<Names, OutOfMemory>
        ensures { IfOk result (λ names. slots_of object names ≡ slots_in object (world_in self.now)) }
    {
        let slots = self.slots(alloc, object)?;
        names_of(alloc, slots.as_slice())
    }

    /// Marks an object as listed.
    pub fn list(&mut self, alloc: Global, object: ObjId) -> Result<(), OutOfMemory>
        ensures { OnOk result (world_in self.new ≡ list_in object (world_in self.old)) }
    {
        let slots = self.slots(alloc, object)?;
        self.read_all(slots.as_slice())?;
        self.close(object)
    }

    /// A child with the same contents and no marks.
    pub fn child(&self, alloc: Global, id: WorldId, strict: bool) -> Result<Row, OutOfMemory>
        ensures { IfOk result (λ child. world_in child ≡ child_of (world_in self.now) id strict) }
    {
        Ok(Row {
            id,
            parent: Some(self.id),
            strict,
            copy: self.copy.copied()?,
            first: SlotMap::new(alloc),
            written: SlotMap::new(alloc),
            closed: ObjSet::new(alloc),
        })
    }

    pub fn clear_marks(&mut self, alloc: Global)
        ensures { world_in self.new ≡ clear_marks (world_in self.old) }
    {
        self.first = SlotMap::new(alloc);
        self.written = SlotMap::new(alloc);
        self.closed = ObjSet::new(alloc);
    }

    /// Hands recorded reads to a world above.
    pub fn hand_reads(&mut self, reads: &[(Slot, Option<Value>)]) -> Result<(), OutOfMemory>
        ensures { OnOk result (world_in self.new ≡ hand_entries reads.now (world_in self.old)) }
    {
        if self.parent.is_some() {
            for read in reads {
                if !self.is_touched(read.0) {
                    self.first.insert(read.0, read.1)?;
                }
            }
        }
        Ok(())
    }

    pub fn hand_closed(&mut self, objects: &[ObjId]) -> Result<(), OutOfMemory>
        ensures { OnOk result (world_in self.new ≡ hand_objects objects.now (world_in self.old)) }
    {
        if self.parent.is_some() {
            for object in objects {
                self.closed.insert(*object)?;
            }
        }
        Ok(())
    }

    /// Whether a slot fails the check of a world under its parent.
    fn fails(&self, parent: &Row, slot: Slot) -> bool
        ensures { result ≡ fails (world_in self.now) (world_in parent.now) slot }
    {
        let present = parent.copy.get(slot);
        match self.first.get(slot) {
            Some(read) => {
                !same_content(read, present)
                    || (self.closed.has(slot.object) && (present.is_some() && !self.has_row(slot)))
            }
            None => self.closed.has(slot.object) && (present.is_some() && !self.has_row(slot)),
        }
    }

    /// The least of the slots that fail.
    fn least_fault(&self, parent: &Row, slots: &[Slot]) -> Option<Slot>
        ensures { result ≡ least slot_cmp (filter (fails (world_in self.now) (world_in parent.now)) slots.now) }
    {
        let mut least = None;
        for slot in slots {
            if self.fails(parent, *slot) {
                least = lesser(least, *slot);
            }
        }
        least
    }

    /// The slots that a check looks at.
    fn suspects(&self, alloc: Global, parent: &Row) -> Result<Vec<Slot>, OutOfMemory>
        ensures { IfOk result (λ all. all.items ≡ map.keys self.now.first ++ map.keys parent.now.copy) }
    {
        let reads = self.first.keys(alloc)?;
        let present = parent.copy.keys(alloc)?;
        let mut all = reads;
        all.extend_from_slice(present.as_slice())?;
        Ok(all)
    }

    /// The least slot that fails the check.
    pub fn fault(&self, alloc: Global, parent: &Row) -> Result<Option<Slot>, OutOfMemory>
        ensures { IfOk result (λ fault. fault ≡ fault_in (world_in self.now) (world_in parent.now)) }
    {
        let all = self.suspects(alloc, parent)?;
        Ok(self.least_fault(parent, all.as_slice()))
    }

    /// What a commit writes, the least slot first.
    pub fn moves(&self, alloc: Global) -> Result<Vec<(Slot, Option<Value>)>, OutOfMemory>
        ensures { IfOk result (λ all. all.items ≡ moves (world_in self.now)) }
    {
        let slots = self.written.keys(alloc)?;
        Ok(
            slots
                .iter()
                .map(|slot| (*slot, self.copy.get(*slot)))
                .collect(alloc)?,
        )
    }

    /// The read that was recorded of a slot.
    fn read_of(&self, slot: Slot) -> Option<Value>
        ensures { result ≡ unwrap_or (map.get (world_in self.now).first slot) None }
    {
        match self.first.get(slot) {
            Some(read) => read,
            None => None,
        }
    }

    /// The recorded reads.
    pub fn reads(&self, alloc: Global) -> Result<Vec<(Slot, Option<Value>)>, OutOfMemory>
        ensures { IfOk result (λ all. all.items ≡ reads_of (world_in self.now)) }
    {
        let slots = self.first.keys(alloc)?;
        Ok(
            slots
                .iter()
                .map(|slot| (*slot, self.read_of(*slot)))
                .collect(alloc)?,
        )
    }
}

fn names_of(alloc: Global, slots: &[Slot]) -> Result<Names, OutOfMemory>
    ensures { IfOk result (λ names. names ≡ each (λ (s : Slot). s.name) slots.now) }
{
    let mut names = Names::new(alloc);
    for slot in slots {
        names.push(slot.name)?;
    }
    Ok(names)
}

fn same_content(a: Option<Value>, b: Option<Value>) -> bool
    ensures { result ≡ same_content same_value a b }
{
    match (a, b) {
        (None, None) => true,
        (Some(a), Some(b)) => wjs_base::same_value(a, b),
        _ => false,
    }
}

/// The lesser of a slot and the least so far.
fn lesser(least: Option<Slot>, slot: Slot) -> Option<Slot>
    ensures { result ≡ lesser slot_cmp least slot }
{
    match least {
        None => Some(slot),
        Some(other) => {
            if slot < other {
                Some(slot)
            } else {
                Some(other)
            }
        }
    }
}
