//! Reading and testing properties.
ghost use Rattle.std.specs.Prelude.{◌≡◌, IfOk, IfSome, IsTrue, Some};
ghost use Rattle.wjs_base.specs.Spelling.{IsName};
ghost use Rattle.wjs_store.specs.State.{has_world};
ghost use Rattle.wjs_store.specs.Meaning.{worlds};
ghost use Rattle.wjs_store.specs.Shown.{content_of};
ghost use Rattle.wjs_arena.specs.Entries.{has};
ghost use Rattle.wjs_by_content.specs.Tables.{name_in, value_in, content_in, arena_in};
ghost use Rattle.wjs_heap.specs.Heap.{IsHeap, HasContent, HasValue, Performs};
ghost use Rattle.wjs_heap.specs.Means.{parts};
ghost use Rattle.wjs_by_content.specs.Properties as plan;

use crate::deeds::{look, look_held, read};
use wjs_base::{Content, Name, ObjId, OutOfMemory, Slot, Value, WorldId};
use wjs_heap::Heap;
use wjs_store::WorldStore;

/// What the object or its nearest prototype that has the name holds there in the world (ECMA-262, 3rd edition, section
/// 8.6.2.1): along the prototypes an object's fixed property before its slot. Each slot that it visits is read.
#[inline(always)]
pub fn get<S: WorldStore>(
    heap: &mut Heap<S>,
    world: WorldId,
    object: ObjId,
    name: Name,
) -> Result<Content, OutOfMemory>
    requires heap { IsHeap (parts S.meaning heap.old) }
    requires world { IsTrue (has_world (worlds (S.meaning heap.old.store)) world) }
    requires object { IsTrue (has heap.old.arena object) }
    requires name { IsName heap.old.texts name }
    ensures gets { IfOk result (λ found. Performs world (λ t. plan.get (arena_in t heap.old.arena) object (name_in t name))
        (λ t. content_in t found) (parts S.meaning heap.old) (parts S.meaning heap.new)) }
    ensures found { IfOk result (λ found. HasContent heap.new.texts heap.new.arena (content_of found)) }
{
    let mut at = object;
    'up: loop {
        if let Some(value) = heap.arena.fixed(at, name) {
            return Ok(Content::Present(value));
        }
        let found = read(heap, world, Slot { object: at, name })?;
        if let Content::Present(_) = found {
            return Ok(found);
        }
        match heap.arena.prototype(at) {
            None => return Ok(Content::Absent),
            Some(prototype) => at = prototype,
        }
    }
}

/// What `get` would find, where it would change nothing; else None, which any store may answer.
#[inline(always)]
pub fn peek<S: WorldStore>(
    heap: &Heap<S>,
    world: WorldId,
    object: ObjId,
    name: Name,
) -> Option<Content>
    requires heap { IsHeap (parts S.meaning heap.now) }
    requires world { IsTrue (has_world (worlds (S.meaning heap.now.store)) world) }
    requires object { IsTrue (has heap.now.arena object) }
    requires name { IsName heap.now.texts name }
    ensures gets { IfSome result (λ found. Performs world (λ t. plan.get (arena_in t heap.now.arena) object (name_in t name))
        (λ t. content_in t found) (parts S.meaning heap.now) (parts S.meaning heap.now)) }
    ensures found { IfSome result (λ found. HasContent heap.now.texts heap.now.arena (content_of found)) }
{
    let mut here = object;
    'up: loop {
        if let Some(value) = heap.arena.fixed(here, name) {
            return Some(Content::Present(value));
        }
        let found = look(heap, world, Slot { object: here, name })?;
        if let Content::Present(_) = found {
            return Some(found);
        }
        match heap.arena.prototype(here) {
            None => return Some(Content::Absent),
            Some(prototype) => here = prototype,
        }
    }
}

/// What `peek` finds where the object's own slot holds a value; else None. A slot that holds one has a name that is there, so none is
/// asked for.
#[inline(always)]
pub fn peek_held<S: WorldStore>(
    heap: &Heap<S>,
    world: WorldId,
    object: ObjId,
    name: Name,
) -> Option<Value>
    requires heap { IsHeap (parts S.meaning heap.now) }
    requires world { IsTrue (has_world (worlds (S.meaning heap.now.store)) world) }
    requires object { IsTrue (has heap.now.arena object) }
    ensures name { IfSome result (λ _. IsName heap.now.texts name) }
    ensures gets { IfSome result (λ value. Performs world (λ t. plan.get (arena_in t heap.now.arena) object (name_in t name))
        (λ t. Some (value_in t value)) (parts S.meaning heap.now) (parts S.meaning heap.now)) }
    ensures found { IfSome result (λ value. HasValue heap.now.texts heap.now.arena value) }
{
    let value = look_held(heap, world, Slot { object, name })?;
    match heap.arena.fixed(object, name) {
        Some(_) => None,
        None => Some(value),
    }
}

/// Whether `get` finds something; it makes the same reads.
pub fn has<S: WorldStore>(
    heap: &mut Heap<S>,
    world: WorldId,
    object: ObjId,
    name: Name,
) -> Result<bool, OutOfMemory>
    requires heap { IsHeap (parts S.meaning heap.old) }
    requires world { IsTrue (has_world (worlds (S.meaning heap.old.store)) world) }
    requires object { IsTrue (has heap.old.arena object) }
    requires name { IsName heap.old.texts name }
    ensures { IfOk result (λ answer. Performs world (λ t. plan.has (arena_in t heap.old.arena) object (name_in t name))
        (λ t. answer) (parts S.meaning heap.old) (parts S.meaning heap.new)) }
{
    let found = get(heap, world, object, name)?;
    Ok(match found {
        Content::Absent => false,
        Content::Present(_) => true,
    })
}
