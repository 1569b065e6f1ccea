//! Putting a property of an Array (ECMA-262, 3rd edition, section 15.4.5.1).
ghost use Rattle.std.specs.Prelude.{◌≡◌, ◌≤◌, Some, IfOk, IsTrue};
ghost use Rattle.wjs_base.specs.Spelling.{IsName, greatest_index};
ghost use Rattle.wjs_store.specs.State.{has_world};
ghost use Rattle.wjs_store.specs.Meaning.{worlds};
ghost use Rattle.wjs_arena.specs.Entries.{has};
ghost use Rattle.wjs_by_content.specs.Names as names;
ghost use Rattle.wjs_by_content.specs.Tables.{name_in, value_in};
ghost use Rattle.wjs_heap.specs.Heap.{IsHeap, HasValue, Performs};
ghost use Rattle.wjs_heap.specs.Means.{parts};
ghost use Rattle.wjs_by_content.specs.Properties as plan;

use crate::cuts::cut;
use crate::deeds::{read, write};
use crate::lengths::{is_length, length_name, length_of, length_of_value, value_of_length};
use wjs_base::{Content, Name, ObjId, OutOfMemory, Slot, Value, WorldId};
use wjs_by_content::PutAnswer;
use wjs_heap::Heap;
use wjs_store::WorldStore;

/// Puts an index, `length`, or another name.
pub fn put_in_array<S: WorldStore>(
    heap: &mut Heap<S>,
    world: WorldId,
    object: ObjId,
    name: Name,
    value: Value,
) -> Result<PutAnswer, OutOfMemory>
    requires heap { IsHeap (parts S.meaning heap.old) }
    requires world { IsTrue (has_world (worlds (S.meaning heap.old.store)) world) }
    requires object { IsTrue (has heap.old.arena object) }
    requires name { IsName heap.old.texts name }
    requires value { HasValue heap.old.texts heap.old.arena value }
    ensures { IfOk result (λ answer. Performs world (λ t. plan.put_in_array object (name_in t name) (value_in t value))
        (λ t. answer) (parts S.meaning heap.old) (parts S.meaning heap.new)) }
{
    let id = match name {
        Name::Index(index) => return put_index(heap, world, object, index, value),
        Name::Text(id) => id,
    };
    if !is_length(&heap.texts, id) {
        return put_slot(heap, world, object, name, value);
    }
    match length_of_value(value) {
        None => Ok(PutAnswer::BadLength),
        Some(length) => put_length(heap, world, object, name, length),
    }
}

/// Writes the slot.
#[inline(always)]
pub fn put_slot<S: WorldStore>(
    heap: &mut Heap<S>,
    world: WorldId,
    object: ObjId,
    name: Name,
    value: Value,
) -> Result<PutAnswer, OutOfMemory>
    requires heap { IsHeap (parts S.meaning heap.old) }
    requires world { IsTrue (has_world (worlds (S.meaning heap.old.store)) world) }
    requires object { IsTrue (has heap.old.arena object) }
    requires name { IsName heap.old.texts name }
    requires value { HasValue heap.old.texts heap.old.arena value }
    ensures { IfOk result (λ answer. Performs world (λ t. plan.put_slot object (name_in t name) (value_in t value))
        (λ t. answer) (parts S.meaning heap.old) (parts S.meaning heap.new)) }
{
    write(heap, world, Slot { object, name }, Content::Present(value))?;
    Ok(PutAnswer::Done)
}

/// Reads the length, writes the element, and then a greater length where it is due.
fn put_index<S: WorldStore>(
    heap: &mut Heap<S>,
    world: WorldId,
    object: ObjId,
    index: u32,
    value: Value,
) -> Result<PutAnswer, OutOfMemory>
    requires heap { IsHeap (parts S.meaning heap.old) }
    requires world { IsTrue (has_world (worlds (S.meaning heap.old.store)) world) }
    requires object { IsTrue (has heap.old.arena object) }
    requires index { index ≤ greatest_index }
    requires value { HasValue heap.old.texts heap.old.arena value }
    ensures { IfOk result (λ answer. Performs world (λ t. plan.put_index object index (value_in t value))
        (λ t. answer) (parts S.meaning heap.old) (parts S.meaning heap.new)) }
{
    let name = length_name(&mut heap.texts)?;
    let answer = put_element(heap, world, Slot { object, name }, index, value)?;
    Ok(answer)
}

/// The same, where the slot of the length is known.
fn put_element<S: WorldStore>(
    heap: &mut Heap<S>,
    world: WorldId,
    slot: Slot,
    index: u32,
    value: Value,
) -> Result<PutAnswer, OutOfMemory>
    requires heap { IsHeap (parts S.meaning heap.old) }
    requires world { IsTrue (has_world (worlds (S.meaning heap.old.store)) world) }
    requires object { IsTrue (has heap.old.arena slot.object) }
    requires name { IsName heap.old.texts slot.name }
    requires spells { name_in heap.old.texts slot.name ≡ names.length_name }
    requires index { index ≤ greatest_index }
    requires value { HasValue heap.old.texts heap.old.arena value }
    ensures { IfOk result (λ answer. Performs world (λ t. plan.put_index slot.object index (value_in t value))
        (λ t. answer) (parts S.meaning heap.old) (parts S.meaning heap.new)) }
{
    let held = read(heap, world, slot)?;
    let length = length_of(held);
    let element = Slot {
        object: slot.object,
        name: Name::Index(index),
    };
    write(heap, world, element, Content::Present(value))?;
    if index < length {
        return Ok(PutAnswer::Done);
    }
    let greater = value_of_length(index + 1);
    write(heap, world, slot, Content::Present(greater))?;
    Ok(PutAnswer::Done)
}

/// Reads the old length, takes the elements past the new one away, and writes it.
fn put_length<S: WorldStore>(
    heap: &mut Heap<S>,
    world: WorldId,
    object: ObjId,
    name: Name,
    length: u32,
) -> Result<PutAnswer, OutOfMemory>
    requires heap { IsHeap (parts S.meaning heap.old) }
    requires world { IsTrue (has_world (worlds (S.meaning heap.old.store)) world) }
    requires object { IsTrue (has heap.old.arena object) }
    requires name { IsName heap.old.texts name }
    requires spells { name_in heap.old.texts name ≡ names.length_name }
    ensures { IfOk result (λ answer. Performs world (λ t. plan.put_length object (Some length))
        (λ t. answer) (parts S.meaning heap.old) (parts S.meaning heap.new)) }
{
    let slot = Slot { object, name };
    let found = read(heap, world, slot)?;
    let old = length_of(found);
    cut(heap, world, object, length, old)?;
    let shorter = value_of_length(length);
    write(heap, world, slot, Content::Present(shorter))?;
    Ok(PutAnswer::Done)
}
