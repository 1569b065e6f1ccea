//! Listing the names of properties.
ghost use Rattle.std.specs.Prelude.{◌≡◌, ◌++◌, ◌∷◌, ◌||◌, not, [], OnOk, IfOk, IsTrue};
ghost use Rattle.wjs_base.specs.declared.values.Name.{Name};
ghost use Rattle.wjs_store.specs.State.{has_world};
ghost use Rattle.wjs_store.specs.Meaning.{worlds};
ghost use Rattle.std.specs.FinMap as map;
ghost use Rattle.wjs_arena.specs.Chains.{flags, object_in};
ghost use Rattle.wjs_arena.specs.Entries.{has};
ghost use Rattle.wjs_by_content.specs.Tables.{arena_in};
ghost use Rattle.wjs_by_content.specs.Renamed.{Holds};
ghost use Rattle.wjs_heap.specs.Heap.{IsHeap, Performs};
ghost use Rattle.wjs_props.specs.Listing.{is_in, is_among, names_under, visits_of};
ghost use Rattle.wjs_heap.specs.Means.{parts};
ghost use Rattle.wjs_by_content.specs.Properties as plan;
ghost use Rattle.wjs_props.specs.Visits.{visits_in, HasVisit};

use crate::deeds::list;
use crate::order::in_order;
use crate::seen::{add_fixed, add_names};
use crate::visits::{Visit, Visits};
use std::collections::BTreeSet;
use wjs_arena::Arena;
use wjs_base::{Name, Names, ObjId, OutOfMemory, WorldId};
use wjs_heap::Heap;
use wjs_store::WorldStore;

/// What a `for`-`in` over the object visits in the world (ECMA-262, 3rd edition, section 12.6.4), in order.
///
/// Each object of the chain is listed. Of its present slots those are visited that are not hidden and whose names no
/// earlier object of the chain has, as a present slot or as a fixed property: indices ascending, then texts by their code
/// units.
pub fn list_names<S: WorldStore>(
    heap: &mut Heap<S>,
    world: WorldId,
    object: ObjId,
) -> Result<Visits, OutOfMemory>
    requires heap { IsHeap (parts S.meaning heap.old) }
    requires world { IsTrue (has_world (worlds (S.meaning heap.old.store)) world) }
    requires object { IsTrue (has heap.old.arena object) }
    ensures lists { IfOk result (λ visits. Performs world (λ t. plan.visits (arena_in t heap.old.arena) object)
        (λ t. visits_in t visits) (parts S.meaning heap.old) (parts S.meaning heap.new)) }
    ensures there { IfOk result (λ visits. Holds (HasVisit heap.new.texts heap.new.arena) visits) }
{
    let alloc = heap.arena.allocator();
    let mut seen = BTreeSet::new(alloc);
    let mut visits = Visits::new(alloc);
    let mut at = object;
    'up: loop {
        let names = list(heap, world, at)?;
        let order = in_order(alloc, &heap.texts, &names)?;
        visit_names(&heap.arena, at, &order, &seen, &mut visits)?;
        match heap.arena.prototype(at) {
            None => return Ok(visits),
            Some(prototype) => {
                see(&heap.arena, at, &order, &mut seen)?;
                at = prototype;
            }
        }
    }
}

/// Visits the names of an object that are not hidden and not seen.
fn visit_names(
    arena: &Arena,
    object: ObjId,
    order: &Names,
    seen: &BTreeSet<Name>,
    visits: &mut Visits,
) -> Result<(), OutOfMemory>
    requires { IsTrue (has arena.now object) }
    ensures { OnOk result (visits.new ≡ visits.old ++ visits_of object (λ n. (flags arena.now object n).hidden) (is_in seen.now) order.now) }
{
    let mut place = 0;
    'names: while place < order.len() {
        visit_name(arena, object, order.at(place), seen, visits)?;
        place += 1;
    }
    Ok(())
}

/// Visits the name, unless it is hidden or seen.
fn visit_name(
    arena: &Arena,
    object: ObjId,
    name: Name,
    seen: &BTreeSet<Name>,
    visits: &mut Visits,
) -> Result<(), OutOfMemory>
    requires { IsTrue (has arena.now object) }
    ensures { OnOk result (visits.new ≡ visits.old ++ visits_of object (λ n. (flags arena.now object n).hidden) (is_in seen.now) (name ∷ [])) }
{
    if arena.flags(object, name).hidden || seen.contains(&name) {
        return Ok(());
    }
    visits.push(Visit { object, name })
}

/// Notes the names of an object that was listed, and those of its fixed properties.
fn see(
    arena: &Arena,
    object: ObjId,
    order: &Names,
    seen: &mut BTreeSet<Name>,
) -> Result<(), OutOfMemory>
    requires { IsTrue (has arena.now object) }
    ensures { OnOk result
        ((n : Name) →
        is_in seen.new n ≡ (is_among (names_under (object_in (map.get arena.now object)).fixed) n || (is_among order.now n || is_in seen.old n))) }
{
    add_names(seen, order)?;
    add_fixed(seen, arena.fixed_of(object))
}
