//! One action of the worlds of a heap, and one object more.
ghost use Rattle.std.specs.Prelude.{◌≡◌, IfOk, IfSome, IsTrue, OnErr, OnOk, Some};
ghost use Rattle.wjs_base.specs.declared.ids.ObjId.{ObjId};
ghost use Rattle.wjs_base.specs.declared.values.Slot.{Slot};
ghost use Rattle.wjs_base.specs.Order.{slot_cmp};
ghost use Rattle.wjs_base.specs.Spelling.{IsName};
ghost use Rattle.wjs_base.specs.Text.{Table};
ghost use Rattle.wjs_store.specs.State.{has_world};
ghost use Rattle.wjs_store.specs.Meaning.{worlds};
ghost use Rattle.wjs_store.specs.Shown.{content_of, slots_of, verdict_of};
ghost use Rattle.wjs_store.specs.State as action;
ghost use Rattle.wjs_by_content.specs.Ascends.{Ascends};
ghost use Rattle.wjs_by_content.specs.Renamed.{Holds};
ghost use Rattle.wjs_by_content.specs.Rename.{shape};
ghost use Rattle.wjs_arena.specs.Entries.{IsThere, has, world_of};
ghost use Rattle.wjs_by_content.specs.Plans.{Gives, Reads, Writes, Lists, Sprouted, Committed};
ghost use Rattle.wjs_by_content.specs.Tables.{slot_in, content_in, value_in};
ghost use Rattle.wjs_by_content.specs.Worlds.{listing};
ghost use Rattle.wjs_heap.specs.Acts.{Acts, Creates};
ghost use Rattle.wjs_heap.specs.Heap.{IsHeap, HasNamed, HasSlot, HasContent, HasValue, Performs};
ghost use Rattle.wjs_heap.specs.Means.{parts, nothing};
ghost use Rattle.wjs_props.specs.Several.{writes, rows_in};

use wjs_arena::Object;
use wjs_base::{Content, Name, Names, ObjId, OutOfMemory, Slot, Value, WorldId};
use wjs_heap::Heap;
use wjs_store::{Verdict, WorldStore};

/// Reads a slot.
#[inline(always)]
pub fn read<S: WorldStore>(
    heap: &mut Heap<S>,
    world: WorldId,
    slot: Slot,
) -> Result<Content, OutOfMemory>
    requires heap { IsHeap (parts S.meaning heap.old) }
    requires world { IsTrue (has_world (worlds (S.meaning heap.old.store)) world) }
    requires slot { HasSlot heap.old.texts heap.old.arena slot }
    ensures reads { IfOk result (λ found. Performs world (λ t. Reads (slot_in t slot) Gives)
        (λ t. content_in t found) (parts S.meaning heap.old) (parts S.meaning heap.new)) }
    ensures found { IfOk result (λ found. HasContent heap.new.texts heap.new.arena (content_of found)) }
{
    let found = heap.store.read(world, slot)?;
    Ok(found)
}

/// What a slot holds, where a read of it would change nothing; else None, which any store may answer.
#[inline(always)]
pub fn look<S: WorldStore>(heap: &Heap<S>, world: WorldId, slot: Slot) -> Option<Content>
    requires heap { IsHeap (parts S.meaning heap.now) }
    requires world { IsTrue (has_world (worlds (S.meaning heap.now.store)) world) }
    requires slot { HasSlot heap.now.texts heap.now.arena slot }
    ensures reads { IfSome result (λ found. Performs world (λ t. Reads (slot_in t slot) Gives)
        (λ t. content_in t found) (parts S.meaning heap.now) (parts S.meaning heap.now)) }
    ensures found { IfSome result (λ found. HasContent heap.now.texts heap.now.arena (content_of found)) }
{
    match heap.store.peek(world, slot) {
        None => None,
        Some(found) => Some(found),
    }
}

/// The value that a slot holds, where it holds one and a read of it would change nothing; else None, which any store may answer.
/// A slot that holds one has an object and a name that are there, so neither is asked for.
#[inline(always)]
pub fn look_held<S: WorldStore>(heap: &Heap<S>, world: WorldId, slot: Slot) -> Option<Value>
    requires heap { IsHeap (parts S.meaning heap.now) }
    requires world { IsTrue (has_world (worlds (S.meaning heap.now.store)) world) }
    ensures slot { IfSome result (λ _. HasSlot heap.now.texts heap.now.arena slot) }
    ensures reads { IfSome result (λ value. Performs world (λ t. Reads (slot_in t slot) Gives)
        (λ t. Some (value_in t value)) (parts S.meaning heap.now) (parts S.meaning heap.now)) }
    ensures found { IfSome result (λ value. HasValue heap.now.texts heap.now.arena value) }
{
    let found = heap.store.peek(world, slot)?;
    match found {
        Content::Present(value) => Some(value),
        Content::Absent => None,
    }
}

/// Sets a slot.
#[inline(always)]
pub fn write<S: WorldStore>(
    heap: &mut Heap<S>,
    world: WorldId,
    slot: Slot,
    content: Content,
) -> Result<(), OutOfMemory>
    requires heap { IsHeap (parts S.meaning heap.old) }
    requires world { IsTrue (has_world (worlds (S.meaning heap.old.store)) world) }
    requires slot { HasSlot heap.old.texts heap.old.arena slot }
    requires content { HasContent heap.old.texts heap.old.arena (content_of content) }
    ensures { IfOk result (λ _. Performs world (λ t. Writes (slot_in t slot) (content_in t content) (Gives nothing))
        (λ t. nothing) (parts S.meaning heap.old) (parts S.meaning heap.new)) }
{
    heap.store.write(world, slot, content)?;
    Ok(())
}

/// Sets slots of an object, one after another.
#[inline(always)]
pub fn write_rows<S: WorldStore>(
    heap: &mut Heap<S>,
    world: WorldId,
    object: ObjId,
    rows: &[(Name, Value)],
) -> Result<(), OutOfMemory>
    requires heap { IsHeap (parts S.meaning heap.old) }
    requires world { IsTrue (has_world (worlds (S.meaning heap.old.store)) world) }
    requires object { IsTrue (has heap.old.arena object) }
    requires rows { Holds (λ row. IsName heap.old.texts row.0 × HasValue heap.old.texts heap.old.arena row.1) rows.now }
    ensures { OnOk result (Performs world (λ t. writes (rows_in t object rows.now)) (λ t. nothing) (parts S.meaning heap.old) (parts S.meaning heap.new)) }
{
    heap.store.write_rows(world, object, rows)?;
    Ok(())
}

/// Lists an object's present slots.
pub fn list<S: WorldStore>(
    heap: &mut Heap<S>,
    world: WorldId,
    object: ObjId,
) -> Result<Names, OutOfMemory>
    requires heap { IsHeap (parts S.meaning heap.old) }
    requires world { IsTrue (has_world (worlds (S.meaning heap.old.store)) world) }
    ensures lists { IfOk result (λ names. Performs world (λ t. Lists object Gives)
        (λ t. listing t object names) (parts S.meaning heap.old) (parts S.meaning heap.new)) }
    ensures names { IfOk result (λ names. Holds (IsName heap.new.texts) names) }
    ensures ascends { IfOk result (λ names. Ascends slot_cmp (slots_of object names)) }
{
    let names = heap.store.list(world, object)?;
    Ok(names)
}

/// Makes a child of the world, strict where that is asked. Its number is the owner's next.
pub fn sprout<S: WorldStore>(
    heap: &mut Heap<S>,
    world: WorldId,
    owner: u32,
    strict: bool,
) -> Result<WorldId, OutOfMemory>
    requires heap { IsHeap (parts S.meaning heap.old) }
    requires world { IsTrue (has_world (worlds (S.meaning heap.old.store)) world) }
    ensures sprouts { IfOk result (λ child. Acts (action.sprout world owner strict) (Sprouted child) (parts S.meaning heap.old) (parts S.meaning heap.new)) }
    ensures there { IfOk result (λ child. IsTrue (has_world (worlds (S.meaning heap.new.store)) child)) }
{
    let child = heap.store.sprout(world, owner, strict)?;
    Ok(child)
}

/// Commits the world to its parent.
pub fn commit<S: WorldStore>(heap: &mut Heap<S>, world: WorldId) -> Result<Verdict, OutOfMemory>
    requires heap { IsHeap (parts S.meaning heap.old) }
    requires world { IsTrue (has_world (worlds (S.meaning heap.old.store)) world) }
    ensures { IfOk result (λ verdict. Acts (action.commit world)
        (Committed (shape (verdict_of verdict))) (parts S.meaning heap.old) (parts S.meaning heap.new)) }
{
    let verdict = heap.store.commit(world)?;
    Ok(verdict)
}

/// Makes an object of an owner. What it names is there, and no object stands for its world; after a refusal nothing has
/// changed.
pub fn create<S: WorldStore>(
    heap: &mut Heap<S>,
    owner: u32,
    object: Object,
) -> Result<ObjId, OutOfMemory>
    requires heap { IsHeap (parts S.meaning heap.old) }
    requires prototype { IsThere heap.old.arena object.prototype }
    requires scope { IsThere heap.old.arena object.scope }
    requires world { IfSome object.world (λ world. (o : ObjId) → ¬ (world_of heap.old.arena o ≡ Some world)) }
    requires named { HasNamed heap.old.texts heap.old.arena object }
    ensures creates { IfOk result (λ id. Creates owner object id (parts S.meaning heap.old) (parts S.meaning heap.new)) }
    ensures err { OnErr result (heap.new ≡ heap.old) }
{
    let id = heap.arena.create(owner, object)?;
    Ok(id)
}
