//! The elements of an Array that a new length cuts.
ghost use Rattle.std.specs.Prelude.{◌≡◌, ◌≤◌, ◌-◌, ◌&&◌, nat_le, nat_lt, [], ◌∷◌, map, IfOk, IsTrue};
ghost use Rattle.wjs_base.specs.Spelling.{IsName, greatest_index};
ghost use Rattle.wjs_store.specs.State.{has_world};
ghost use Rattle.wjs_store.specs.Meaning.{worlds};
ghost use Rattle.wjs_arena.specs.Entries.{has};
ghost use Rattle.wjs_by_content.specs.Renamed.{Holds};
ghost use Rattle.wjs_by_content.specs.Plans.{Lists};
ghost use Rattle.wjs_by_content.specs.Tables.{name_in};
ghost use Rattle.wjs_heap.specs.Heap.{IsHeap, Performs};
ghost use Rattle.wjs_heap.specs.Means.{parts, nothing};
ghost use Rattle.wjs_by_content.specs.Properties as plan;

use crate::deeds::{list, read, write};
use wjs_base::{Content, Name, Names, ObjId, OutOfMemory, Slot, WorldId};
use wjs_heap::Heap;
use wjs_store::WorldStore;

/// The most elements that are looked at one by one.
const MOST_ONE_BY_ONE: u32 = 64;

/// Takes the elements from `from` to before `to` away: one by one where they are at most 64, else by a listing.
pub fn cut<S: WorldStore>(
    heap: &mut Heap<S>,
    world: WorldId,
    object: ObjId,
    from: u32,
    to: u32,
) -> Result<(), OutOfMemory>
    requires heap { IsHeap (parts S.meaning heap.old) }
    requires world { IsTrue (has_world (worlds (S.meaning heap.old.store)) world) }
    requires object { IsTrue (has heap.old.arena object) }
    ensures { IfOk result (λ _. Performs world (λ t. plan.cut from to object) (λ t. nothing) (parts S.meaning heap.old) (parts S.meaning heap.new)) }
{
    if to.saturating_sub(from) <= MOST_ONE_BY_ONE {
        cut_each(heap, world, object, from, to)
    } else {
        cut_listed(heap, world, object, from, to)
    }
}

/// Reads each element, and writes it absent where it is present.
fn cut_each<S: WorldStore>(
    heap: &mut Heap<S>,
    world: WorldId,
    object: ObjId,
    from: u32,
    to: u32,
) -> Result<(), OutOfMemory>
    requires heap { IsHeap (parts S.meaning heap.old) }
    requires world { IsTrue (has_world (worlds (S.meaning heap.old.store)) world) }
    requires object { IsTrue (has heap.old.arena object) }
    ensures { IfOk result (λ _. Performs world (λ t. plan.cut_each (to - from) from object)
        (λ t. nothing) (parts S.meaning heap.old) (parts S.meaning heap.new)) }
{
    let mut at = from;
    'cut: while at < to {
        cut_one(heap, world, object, at)?;
        at += 1;
    }
    Ok(())
}

/// Reads an element, and writes it absent where it is present.
fn cut_one<S: WorldStore>(
    heap: &mut Heap<S>,
    world: WorldId,
    object: ObjId,
    index: u32,
) -> Result<(), OutOfMemory>
    requires heap { IsHeap (parts S.meaning heap.old) }
    requires world { IsTrue (has_world (worlds (S.meaning heap.old.store)) world) }
    requires object { IsTrue (has heap.old.arena object) }
    requires index { index ≤ greatest_index }
    ensures { IfOk result (λ _. Performs world (λ t. plan.cut_each 1 index object) (λ t. nothing) (parts S.meaning heap.old) (parts S.meaning heap.new)) }
{
    let slot = Slot {
        object,
        name: Name::Index(index),
    };
    match read(heap, world, slot)? {
        Content::Absent => Ok(()),
        Content::Present(_) => {
            write(heap, world, slot, Content::Absent)?;
            Ok(())
        }
    }
}

/// Lists the object, and writes the listed elements absent.
fn cut_listed<S: WorldStore>(
    heap: &mut Heap<S>,
    world: WorldId,
    object: ObjId,
    from: u32,
    to: u32,
) -> Result<(), OutOfMemory>
    requires heap { IsHeap (parts S.meaning heap.old) }
    requires world { IsTrue (has_world (worlds (S.meaning heap.old.store)) world) }
    requires object { IsTrue (has heap.old.arena object) }
    ensures { IfOk result (λ _. Performs world (λ t. Lists object (λ names. plan.cut_listed names from to object))
        (λ t. nothing) (parts S.meaning heap.old) (parts S.meaning heap.new)) }
{
    let names = list(heap, world, object)?;
    cut_names(heap, world, object, &names, from, to)?;
    Ok(())
}

/// Writes the named elements absent.
fn cut_names<S: WorldStore>(
    heap: &mut Heap<S>,
    world: WorldId,
    object: ObjId,
    names: &Names,
    from: u32,
    to: u32,
) -> Result<(), OutOfMemory>
    requires heap { IsHeap (parts S.meaning heap.old) }
    requires world { IsTrue (has_world (worlds (S.meaning heap.old.store)) world) }
    requires object { IsTrue (has heap.old.arena object) }
    requires names { Holds (IsName heap.old.texts) names.now }
    ensures { IfOk result (λ _. Performs world (λ t. plan.cut_listed (map (name_in t) names.now) from to object)
        (λ t. nothing) (parts S.meaning heap.old) (parts S.meaning heap.new)) }
{
    let mut place = 0;
    'cut: while place < names.len() {
        cut_name(heap, world, object, names.at(place), from, to)?;
        place += 1;
    }
    Ok(())
}

/// Writes the element of a name absent, where it is one of these.
fn cut_name<S: WorldStore>(
    heap: &mut Heap<S>,
    world: WorldId,
    object: ObjId,
    name: Name,
    from: u32,
    to: u32,
) -> Result<(), OutOfMemory>
    requires heap { IsHeap (parts S.meaning heap.old) }
    requires world { IsTrue (has_world (worlds (S.meaning heap.old.store)) world) }
    requires object { IsTrue (has heap.old.arena object) }
    requires name { IsName heap.old.texts name }
    ensures { IfOk result (λ _. Performs world (λ t. plan.cut_listed (name_in t name ∷ []) from to object)
        (λ t. nothing) (parts S.meaning heap.old) (parts S.meaning heap.new)) }
{
    let Name::Index(index) = name else {
        return Ok(());
    };
    if !is_within(index, from, to) {
        return Ok(());
    }
    write(heap, world, Slot { object, name }, Content::Absent)?;
    Ok(())
}

/// Whether the index is from `from` to before `to`.
fn is_within(index: u32, from: u32, to: u32) -> bool
    ensures { result ≡ (nat_le from index && nat_lt index to) }
{
    from <= index && index < to
}
