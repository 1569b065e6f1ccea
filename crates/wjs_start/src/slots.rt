//! The slots of the first world are written.
ghost use Rattle.std.specs.Prelude.{◌≡◌, true, map, Some, IsTrue, OnOk};
ghost use Rattle.wjs_base.specs.Text.{Table};
ghost use Rattle.wjs_store.specs.State.{has_world, first_world};
ghost use Rattle.wjs_store.specs.Meaning.{worlds};
ghost use Rattle.wjs_by_content.specs.Plans.{Writes, Gives};
ghost use Rattle.wjs_heap.specs.Heap.{Performs};
ghost use Rattle.wjs_heap.specs.Means.{parts, nothing};
ghost use Rattle.wjs_by_content.specs.Renamed.{Holds};
ghost use Rattle.wjs_start.specs.Building.{Building};
ghost use Rattle.wjs_start.specs.First.{object_count};
ghost use Rattle.wjs_start.specs.Known.{IsThere, place_in};
ghost use Rattle.wjs_start.specs.Writing.{writes_of, is_within, are_within};

use crate::blueprints::FIRST_WORLD;
use crate::known::Place;
use wjs_base::{Content, OutOfMemory};
use wjs_heap::Heap;
use wjs_props::write;
use wjs_store::WorldStore;

/// Writes slots in the first world, the last one first, so that the first of a slot stands.
pub(crate) fn write_all<S: WorldStore>(
    heap: &mut Heap<S>,
    places: &[Place],
) -> Result<(), OutOfMemory>
    requires building { Building (parts S.meaning heap.old) object_count }
    requires world { IsTrue (has_world (worlds (S.meaning heap.old.store)) first_world) }
    requires there { Holds (IsThere heap.old.texts) places.now }
    requires within { are_within object_count (map (place_in heap.old.texts) places.now) ≡ true }
    ensures { OnOk result
        (Performs first_world (λ t. writes_of (map (place_in t) places.now)) (λ t. nothing) (parts S.meaning heap.old) (parts S.meaning heap.new)) }
{
    let mut i = places.len();
    'back: while i > 0 {
        i -= 1;
        write_place(heap, places[i])?;
    }
    Ok(())
}

fn write_place<S: WorldStore>(heap: &mut Heap<S>, place: Place) -> Result<(), OutOfMemory>
    requires building { Building (parts S.meaning heap.old) object_count }
    requires world { IsTrue (has_world (worlds (S.meaning heap.old.store)) first_world) }
    requires there { IsThere heap.old.texts place }
    requires within { is_within object_count (place_in heap.old.texts place) ≡ true }
    ensures { OnOk result
        (Performs first_world (λ t. let p = place_in t place in Writes p.at (Some p.value) (Gives nothing)) (λ t. nothing) (parts S.meaning heap.old)
        (parts S.meaning heap.new)) }
{
    write(heap, FIRST_WORLD, place.slot, Content::Present(place.value))
}
