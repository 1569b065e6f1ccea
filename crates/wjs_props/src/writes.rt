//! Putting and deleting properties.
ghost use Rattle.std.specs.Prelude.{◌≡◌, IfOk, IsTrue};
ghost use Rattle.wjs_base.specs.Spelling.{IsName};
ghost use Rattle.wjs_base.specs.Text.{Table};
ghost use Rattle.wjs_store.specs.State.{has_world};
ghost use Rattle.wjs_store.specs.Meaning.{worlds};
ghost use Rattle.wjs_arena.specs.Entries.{has};
ghost use Rattle.wjs_by_content.specs.Objects.{is_array};
ghost use Rattle.wjs_by_content.specs.Tables.{name_in, value_in, arena_in};
ghost use Rattle.wjs_heap.specs.Heap.{IsHeap, HasValue, Performs};
ghost use Rattle.wjs_heap.specs.Means.{parts};
ghost use Rattle.wjs_by_content.specs.Properties as plan;

use crate::arrays::{put_in_array, put_slot};
use crate::deeds::{read, write};
use wjs_arena::{Arena, Class};
use wjs_base::{Content, Name, ObjId, OutOfMemory, Slot, Value, WorldId};
use wjs_by_content::PutAnswer;
use wjs_heap::Heap;
use wjs_store::WorldStore;

/// Sets a property of the object (ECMA-262, 3rd edition, section 8.6.2.2), of an Array by section 15.4.5.1.
///
/// `Ignored` comes exactly where an object of the chain has the name as a fixed property; `BadLength` exactly where it has
/// not, the object is an Array, the name is `length`, and the value is no Number from 0 to 4,294,967,295. Neither changes
/// anything. A `length` that is absent or no such Number counts as 0. An Array's put at index i reads `length`, writes the
/// element, and then `length` i + 1 where i is not below what was read. Its put of `length` n reads the old length m. Then
/// the elements from n to m - 1 go: at most 64 are each read, and at once written absent where present; of more, those that
/// a listing has are written absent, ascending. Then `length` is written.
#[inline(always)]
pub fn put<S: WorldStore>(
    heap: &mut Heap<S>,
    world: WorldId,
    object: ObjId,
    name: Name,
    value: Value,
) -> Result<PutAnswer, OutOfMemory>
    requires heap { IsHeap (parts S.meaning heap.old) }
    requires world { IsTrue (has_world (worlds (S.meaning heap.old.store)) world) }
    requires object { IsTrue (has heap.old.arena object) }
    requires name { IsName heap.old.texts name }
    requires value { HasValue heap.old.texts heap.old.arena value }
    ensures { IfOk result (λ answer. Performs world (λ t. plan.put (arena_in t heap.old.arena) object (name_in t name) (value_in t value))
        (λ t. answer) (parts S.meaning heap.old) (parts S.meaning heap.new)) }
{
    if !heap.arena.is_puttable(object, name) {
        return Ok(PutAnswer::Ignored);
    }
    if is_array(&heap.arena, object) {
        return put_in_array(heap, world, object, name, value);
    }
    put_slot(heap, world, object, name, value)
}

/// Whether the object is an Array.
#[inline(always)]
fn is_array(arena: &Arena, object: ObjId) -> bool
    requires { IsTrue (has arena.now object) }
    ensures { (t : Table) → is_array (arena_in t arena.now) object ≡ result }
{
    matches!(arena.class(object), Class::Array)
}

/// Takes a property away from the object, and says whether it is gone (ECMA-262, 3rd edition, section 8.6.2.5): a fixed one
/// stays; a kept one is read, and stays where it is present; any other is written absent, without a read.
pub fn delete<S: WorldStore>(
    heap: &mut Heap<S>,
    world: WorldId,
    object: ObjId,
    name: Name,
) -> Result<bool, OutOfMemory>
    requires heap { IsHeap (parts S.meaning heap.old) }
    requires world { IsTrue (has_world (worlds (S.meaning heap.old.store)) world) }
    requires object { IsTrue (has heap.old.arena object) }
    requires name { IsName heap.old.texts name }
    ensures { IfOk result (λ answer. Performs world (λ t. plan.delete (arena_in t heap.old.arena) object (name_in t name))
        (λ t. answer) (parts S.meaning heap.old) (parts S.meaning heap.new)) }
{
    if heap.arena.fixed(object, name).is_some() {
        return Ok(false);
    }
    let slot = Slot { object, name };
    if heap.arena.flags(object, name).kept {
        return Ok(match read(heap, world, slot)? {
            Content::Absent => true,
            Content::Present(_) => false,
        });
    }
    write(heap, world, slot, Content::Absent)?;
    Ok(true)
}
