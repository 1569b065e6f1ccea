//! The check of a world against its parent.
ghost use Rattle.std.specs.Prelude.{◌≡◌, ◌+◌, ◌*◌, ◌&&◌, ◌<◌, ◌≤◌, not, true, false, length, Some, None, is_some};
ghost use Rattle.std.specs.Option.{option_map_or};
ghost use Rattle.std.specs.FinMap as map;
ghost use Rattle.wjs_base.specs.Same.{same_value};
ghost use Rattle.wjs_store.specs.Naming.{plain};
ghost use Rattle.wjs_store.specs.State.{World, find_world, content_at, same_content, same_object, fault_in};
ghost use Rattle.wjs_base.specs.declared.values.Slot.{Slot};
ghost use Rattle.wjs_layers.specs.declared.layer.Layer.{Layer};
ghost use Rattle.wjs_layers.specs.Sparse.{IsSparse, IsAt, full_of, depth_of, read_of};
ghost use Rattle.wjs_layers.specs.Work.{row_slots, kept_from};
ghost use Rattle.wjs_layers.specs.Cursor.{comes_on};
ghost use Rattle.wjs_overlay.specs.Check.{IsLeast, differs, is_unseen};

use std::sync::ledger::Ledger;
use wjs_base::{Content, ObjId, Slot};
use wjs_layers::layers::{content, lesser, next_slot};
use wjs_layers::{Layer, Row, Spot, least_object};
use wjs_rows::Steps;
use wjs_slots::least_slot;
use wjs_store::same_content;

/// Whether a row's recorded read is not what a world holds.
fn row_differs<L: Ledger>(
    layers: &[Layer],
    above: Spot,
    slot: Slot,
    row: Row,
    steps: &mut Steps<L>,
) -> bool
    requires sparse { IsSparse layers.now }
    requires there { IsAt layers.now above }
    ensures differs { result ≡ option_map_or (λ c. not (same_content same_value c (content_at (full_of layers.now) above.world slot))) (read_of row) false }
    ensures steps { steps.new ≤ steps.old + (2 * depth_of (full_of layers.now) above.world + 2) }
{
    match row.read {
        None => false,
        Some(read) => !same_content(read, content(layers, above, slot, steps)),
    }
}

/// The least slot whose recorded read is not what the parent holds.
fn fault_in_reads<L: Ledger>(
    layers: &[Layer],
    world: Spot,
    above: Spot,
    steps: &mut Steps<L>,
) -> Option<Slot>
    requires sparse { IsSparse layers.now }
    requires there { IsAt layers.now world }
    requires parent { IsAt layers.now above }
    requires up { (x : World plain) → find_world (full_of layers.now) world.world ≡ Some x → is_some x.parent ≡ true }
    ensures least { (x y : World plain) → find_world (full_of layers.now) world.world ≡ Some x → find_world (full_of layers.now) above.world ≡ Some y → IsLeast (differs x y) result }
    ensures steps { (x : World plain) → find_world (full_of layers.now) world.world ≡ Some x → is_some x.parent ≡ true → steps.new ≤ steps.old + (length (row_slots x) * (2 * depth_of (full_of layers.now) above.world + 3) + 1) }
{
    let layer = &layers[world.place];
    let mut next = layer.next_from(least_slot(), steps);
    'rows: while let Some((slot, row)) = next {
        if row_differs(layers, above, slot, row, steps) {
            return Some(slot);
        }
        next = layer.next_after(slot, steps);
    }
    None
}

/// Whether a slot is present in a world and has no row in a layer.
fn slot_unseen<L: Ledger>(
    layers: &[Layer],
    layer: &Layer,
    above: Spot,
    slot: Slot,
    steps: &mut Steps<L>,
) -> bool
    requires sparse { IsSparse layers.now }
    requires there { IsAt layers.now above }
    ensures unseen { result ≡ (is_some (content_at (full_of layers.now) above.world slot) && not (is_some (map.get layer.now.rows slot))) }
    ensures steps { steps.new ≤ steps.old + (2 * depth_of (full_of layers.now) above.world + 3) }
{
    match content(layers, above, slot, steps) {
        Content::Absent => false,
        Content::Present(_) => layer.get(slot, steps).is_none(),
    }
}

/// The least slot of an object that is present in the parent and has no row in the world.
fn fault_on_object<L: Ledger>(
    layers: &[Layer],
    world: Spot,
    above: Spot,
    object: ObjId,
    steps: &mut Steps<L>,
) -> Option<Slot>
    requires sparse { IsSparse layers.now }
    requires there { IsAt layers.now world }
    requires parent { IsAt layers.now above }
    requires up { (x : World plain) → find_world (full_of layers.now) world.world ≡ Some x → is_some x.parent ≡ true }
    ensures least { (x y : World plain) → find_world (full_of layers.now) world.world ≡ Some x → find_world (full_of layers.now) above.world ≡ Some y → IsLeast (λ (s : Slot). same_object s.object object && is_unseen x y s) result }
    ensures steps { steps.new ≤ steps.old + (kept_from (comes_on object None) (full_of layers.now) above.world * (3 * depth_of (full_of layers.now) above.world + 4) + (depth_of (full_of layers.now) above.world + 1)) }
{
    let layer = &layers[world.place];
    let mut passed = None;
    'slots: while let Some(slot) = next_slot(layers, above, object, passed, steps) {
        if slot_unseen(layers, layer, above, slot, steps) {
            return Some(slot);
        }
        passed = Some(slot);
    }
    None
}

/// The least slot of a listed object that is present in the parent and has no row in the world.
fn fault_in_closed<L: Ledger>(
    layers: &[Layer],
    world: Spot,
    above: Spot,
    steps: &mut Steps<L>,
) -> Option<Slot>
    requires sparse { IsSparse layers.now }
    requires there { IsAt layers.now world }
    requires parent { IsAt layers.now above }
    requires up { (x : World plain) → find_world (full_of layers.now) world.world ≡ Some x → is_some x.parent ≡ true }
    ensures least { (x y : World plain) → find_world (full_of layers.now) world.world ≡ Some x → find_world (full_of layers.now) above.world ≡ Some y → IsLeast (λ (s : Slot). map.contains_key x.closed s.object && is_unseen x y s) result }
    ensures steps { (x : World plain) → find_world (full_of layers.now) world.world ≡ Some x → steps.new ≤ steps.old + (map.len x.closed * (depth_of (full_of layers.now) above.world + 2) + kept_from (λ (s : Slot). map.contains_key x.closed s.object) (full_of layers.now) above.world * (3 * depth_of (full_of layers.now) above.world + 4) + 1) }
{
    let layer = &layers[world.place];
    let mut next = layer.closed().next_from(least_object(), steps);
    'objects: while let Some(object) = next {
        if let Some(slot) = fault_on_object(layers, world, above, object, steps) {
            return Some(slot);
        }
        next = layer.closed().next_after(object, steps);
    }
    None
}

/// The least slot that fails the check of a world under its parent; None exactly where the check passes.
pub fn fault<L: Ledger>(
    layers: &[Layer],
    world: Spot,
    above: Spot,
    steps: &mut Steps<L>,
) -> Option<Slot>
    requires sparse { IsSparse layers.now }
    requires there { IsAt layers.now world }
    requires parent { IsAt layers.now above }
    requires up { (x : World plain) → find_world (full_of layers.now) world.world ≡ Some x → is_some x.parent ≡ true }
    ensures fault { (x y : World plain) → find_world (full_of layers.now) world.world ≡ Some x → find_world (full_of layers.now) above.world ≡ Some y → result ≡ fault_in x y }
    ensures steps { (x : World plain) → find_world (full_of layers.now) world.world ≡ Some x → steps.new ≤ steps.old + (length (row_slots x) * (2 * depth_of (full_of layers.now) above.world + 3) + map.len x.closed * (depth_of (full_of layers.now) above.world + 2) + kept_from (λ (s : Slot). map.contains_key x.closed s.object) (full_of layers.now) above.world * (3 * depth_of (full_of layers.now) above.world + 4) + 2) }
{
    let read = fault_in_reads(layers, world, above, steps);
    let listed = fault_in_closed(layers, world, above, steps);
    lesser(read, listed)
}
