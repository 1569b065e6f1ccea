//! The layers of all worlds, in the order of sprouting.
ghost use Rattle.std.specs.Prelude.{◌≡◌, ◌+◌, ◌*◌, ◌<◌, ◌≤◌, length, OnOk, IfOk, IfSome, is_some, true, false, cond, Some, slice_get, slice_set};
ghost use Rattle.wjs_layers.specs.Reset.{has_child, after_reset};
ghost use Rattle.std.specs.Option.{option_map};
ghost use Rattle.wjs_store.specs.Naming.{plain};
ghost use Rattle.wjs_store.specs.State.{World, find_world, parent_of, content_at, put, next_id, after_read, after_write, after_sprout, after_list, after_commit, at_world, clear_marks, close_in, fault_in, slots_at, write_all};
ghost use Rattle.std.specs.Prelude.{None};
ghost use Rattle.std.specs.FinMap as map;
ghost use Rattle.wjs_store.specs.State.{State};
ghost use Rattle.wjs_layers.specs.Sparse.{place_of};
ghost use Rattle.wjs_layers.specs.Moves.{handed_rows, ReadsAgree, written_rows, closed_all};
ghost use Rattle.wjs_layers.specs.Sparse.{AreKept, after_reads, now_of};
ghost use Rattle.wjs_store.specs.Meaning.{entries_of};
ghost use Rattle.wjs_store.specs.Shown.{content_of};
ghost use Rattle.wjs_base.specs.declared.values.Slot.{Slot};
ghost use Rattle.wjs_layers.specs.declared.layer.Layer.{Layer};
ghost use Rattle.wjs_layers.specs.Cursor.{IsNextSlot, lesser_of, with_present};
ghost use Rattle.wjs_layers.specs.Work.{row_slots};
ghost use Rattle.wjs_layers.specs.Look.{IsUntouched, Looked, read_after, first_row_of};
ghost use Rattle.wjs_layers.specs.Keyed.{rewritten};
ghost use Rattle.wjs_layers.specs.Several.{first_rows};
ghost use Rattle.wjs_layers.specs.Shorts.{row_read, row_written};
ghost use Rattle.wjs_layers.specs.Sparse.{IsSparse, IsAt, StandFor, full_of, depth_of};

use crate::layer::{Layer, Look, Spot, close_all, close_layer, hand_reads, look_past, next_row};
use crate::maps::{Row, SlotSet};
use std::alloc::Global;
use std::sync::ledger::Ledger;
use wjs_base::{Content, Name, ObjId, OutOfMemory, Slot, Value, WorldId};
use wjs_rows::Steps;

/// What a slot holds in a world: what the nearest row upward says, and nothing past a closed object.
pub fn content<L: Ledger>(
    layers: &[Layer],
    world: Spot,
    slot: Slot,
    steps: &mut Steps<L>,
) -> Content
    requires sparse { IsSparse layers.now }
    requires there { IsAt layers.now world }
    ensures content { content_of result ≡ content_at (full_of layers.now) world.world slot }
    ensures steps { steps.new ≤ steps.old + (2 * depth_of (full_of layers.now) world.world + 2) }
{
    let mut at = world;
    'up: loop {
        let layer = &layers[at.place];
        if let Some(now) = layer.now(slot, steps) {
            return now;
        }
        match look_past(layer, slot, steps) {
            Look::Closed => return Content::Absent,
            Look::Nowhere => return Content::Absent,
            Look::Untouched(above) => at = above,
        }
    }
}

/// Records what a slot was read as, in a world with a parent.
fn put_read<L: Ledger>(
    layers: &mut [Layer],
    world: Spot,
    slot: Slot,
    read: Content,
    steps: &mut Steps<L>,
) -> Result<(), OutOfMemory>
    requires there { world.place < length layers.old }
    requires parent { IfSome (slice_get layers.old world.place) (λ (r : Layer). is_some r.above ≡ true) }
    ensures ok { OnOk result (IfSome (slice_get layers.old world.place)
        (λ (r : Layer). layers.new ≡ slice_set layers.old world.place (record r { rows = map.insert r.rows slot (row_read read) }))) }
    ensures step { steps.new ≡ steps.old + 1 }
{
    let layer = &mut layers[world.place];
    layer.set_read(slot, read, steps)
}

/// Writes a slot of a world with a parent, with the read that is recorded, if one is.
fn put_written<L: Ledger>(
    layers: &mut [Layer],
    world: Spot,
    slot: Slot,
    read: Option<Content>,
    content: Content,
    steps: &mut Steps<L>,
) -> Result<(), OutOfMemory>
    requires there { world.place < length layers.old }
    requires parent { IfSome (slice_get layers.old world.place) (λ (r : Layer). is_some r.above ≡ true) }
    ensures ok { OnOk result (IfSome (slice_get layers.old world.place)
        (λ (r : Layer). layers.new ≡ slice_set layers.old world.place (record r { rows = map.insert r.rows slot (row_written read content) }))) }
    ensures step { steps.new ≤ steps.old + 1 }
{
    let layer = &mut layers[world.place];
    layer.set_written(slot, read, content, steps)
}

/// Writes a slot of a world with a parent that has a row there, and says whether it has one. Else all stays as it is, in one
/// step.
fn rewrite<L: Ledger>(
    layers: &mut [Layer],
    world: Spot,
    slot: Slot,
    content: Content,
    steps: &mut Steps<L>,
) -> Result<bool, OutOfMemory>
    requires there { world.place < length layers.old }
    requires parent { IfSome (slice_get layers.old world.place) (λ (r : Layer). is_some r.above ≡ true) }
    ensures found { IfOk result (λ found. IfSome (slice_get layers.old world.place) (λ (r : Layer). found ≡ is_some (map.get r.rows slot))) }
    ensures ok { OnOk result (IfSome (slice_get layers.old world.place)
        (λ (r : Layer). layers.new ≡ slice_set layers.old world.place (record r { rows = rewritten r.rows slot content }))) }
    ensures steps { steps.new ≤ steps.old + 2 }
    ensures look { IfOk result (λ found. found ≡ false → steps.new ≤ steps.old + 1) }
{
    let layer = &mut layers[world.place];
    layer.rewrite(slot, content, steps)
}

/// What a slot holds in a world, which is recorded there where the slot was untouched.
#[inline(always)]
pub fn read<L: Ledger>(
    layers: &mut [Layer],
    world: Spot,
    slot: Slot,
    steps: &mut Steps<L>,
) -> Result<Content, OutOfMemory>
    requires sparse { IsSparse layers.old }
    requires there { IsAt layers.old world }
    ensures found { IfOk result (λ found. content_of found ≡ content_at (full_of layers.old) world.world slot) }
    ensures after { OnOk result (StandFor layers.new (after_read (full_of layers.old) world.world slot)) }
    ensures steps { steps.new ≤ steps.old + (2 * depth_of (full_of layers.old) world.world + 3) }
{
    let layer = &layers[world.place];
    if let Some(now) = layer.now(slot, steps) {
        return Ok(now);
    }
    match look_past(layer, slot, steps) {
        Look::Closed => Ok(Content::Absent),
        Look::Nowhere => Ok(Content::Absent),
        Look::Untouched(above) => read_above(layers, world, above, slot, steps),
    }
}

/// Reads a slot that is untouched in a world, and records what it holds.
fn read_above<L: Ledger>(
    layers: &mut [Layer],
    world: Spot,
    above: Spot,
    slot: Slot,
    steps: &mut Steps<L>,
) -> Result<Content, OutOfMemory>
    requires sparse { IsSparse layers.old }
    requires there { IsAt layers.old world }
    requires untouched { IfSome (slice_get layers.old world.place) (λ (r : Layer). Looked r slot (Look.Untouched above)) }
    ensures found { IfOk result (λ found. content_of found ≡ content_at (full_of layers.old) world.world slot) }
    ensures after { OnOk result (StandFor layers.new (after_read (full_of layers.old) world.world slot)) }
    ensures steps { steps.new ≤ steps.old + (2 * depth_of (full_of layers.old) world.world + 1) }
{
    let found = content(layers, above, slot, steps);
    put_read(layers, world, slot, found, steps)?;
    Ok(found)
}

/// `read_above` of a slot that holds what it holds in the first world: only there it is looked up.
pub fn read_past<L: Ledger>(
    layers: &mut [Layer],
    world: Spot,
    first: Spot,
    slot: Slot,
    steps: &mut Steps<L>,
) -> Result<Content, OutOfMemory>
    requires sparse { IsSparse layers.old }
    requires there { IsAt layers.old world }
    requires untouched { IfSome (slice_get layers.old world.place) (λ (r : Layer). IsUntouched r slot) }
    requires first { IsAt layers.old first }
    requires same { content_at (full_of layers.old) first.world slot ≡ content_at (full_of layers.old) world.world slot }
    requires top { depth_of (full_of layers.old) first.world ≡ 0 }
    ensures found { IfOk result (λ found. content_of found ≡ content_at (full_of layers.old) world.world slot) }
    ensures after { OnOk result (StandFor layers.new (after_read (full_of layers.old) world.world slot)) }
    ensures steps { steps.new ≤ steps.old + 3 }
{
    let held = content(layers, first, slot, steps);
    put_read(layers, world, slot, held, steps)?;
    Ok(held)
}

/// The recorded read that a slot without a row has in a world with a parent once it is written there.
fn read_before<L: Ledger>(
    layers: &[Layer],
    world: Spot,
    slot: Slot,
    steps: &mut Steps<L>,
) -> Option<Content>
    requires sparse { IsSparse layers.now }
    requires there { IsAt layers.now world }
    requires parent { IfSome (slice_get layers.now world.place) (λ (r : Layer). is_some r.above ≡ true) }
    requires unseen { IfSome (slice_get layers.now world.place) (λ (r : Layer). map.get r.rows slot ≡ None) }
    ensures read { (x : World plain) → find_world (full_of layers.now) world.world ≡ Some x → option_map content_of result ≡ read_after x slot }
    ensures steps { steps.new ≤ steps.old + (2 * depth_of (full_of layers.now) world.world + 1) }
{
    let layer = &layers[world.place];
    match look_past(layer, slot, steps) {
        Look::Closed => Some(Content::Absent),
        Look::Untouched(above) => {
            if !layer.is_strict() {
                return None;
            }
            Some(content(layers, above, slot, steps))
        }
        Look::Nowhere => None,
    }
}

/// Sets a slot in a world. The descendants that are untouched at the slot have no row there, and hold it too.
#[inline(always)]
pub fn write<L: Ledger>(
    layers: &mut [Layer],
    world: Spot,
    slot: Slot,
    content: Content,
    steps: &mut Steps<L>,
) -> Result<(), OutOfMemory>
    requires sparse { IsSparse layers.old }
    requires there { IsAt layers.old world }
    ensures after { OnOk result (StandFor layers.new (after_write (full_of layers.old) world.world slot (content_of content))) }
    ensures steps { steps.new ≤ steps.old + (2 * depth_of (full_of layers.old) world.world + 3) }
{
    match layers[world.place].above() {
        None => write_first(layers, world, slot, content, steps),
        Some(_) => write_marked(layers, world, slot, content, steps),
    }
}

/// Sets a slot in the first world.
#[inline(always)]
fn write_first<L: Ledger>(
    layers: &mut [Layer],
    world: Spot,
    slot: Slot,
    content: Content,
    steps: &mut Steps<L>,
) -> Result<(), OutOfMemory>
    requires there { world.place < length layers.old }
    requires first { IfSome (slice_get layers.old world.place) (λ (r : Layer). r.above ≡ None) }
    ensures ok { OnOk result (IfSome (slice_get layers.old world.place) (λ (r : Layer). layers.new ≡ slice_set layers.old world.place (record r { rows = put r.rows slot (first_row_of content) }))) }
    ensures step { steps.new ≡ steps.old + 1 }
{
    let layer = &mut layers[world.place];
    layer.set_first(slot, content, steps)
}

/// Sets a slot in a world with a parent, where the slot is marked as written.
#[inline(never)]
fn write_marked<L: Ledger>(
    layers: &mut [Layer],
    world: Spot,
    slot: Slot,
    content: Content,
    steps: &mut Steps<L>,
) -> Result<(), OutOfMemory>
    requires sparse { IsSparse layers.old }
    requires there { IsAt layers.old world }
    requires parent { IfSome (slice_get layers.old world.place) (λ (r : Layer). is_some r.above ≡ true) }
    ensures after { OnOk result (StandFor layers.new (after_write (full_of layers.old) world.world slot (content_of content))) }
    ensures steps { steps.new ≤ steps.old + (2 * depth_of (full_of layers.old) world.world + 3) }
{
    let found = rewrite(layers, world, slot, content, steps)?;
    if found {
        return Ok(());
    }
    write_unseen(layers, world, slot, content, steps)
}

/// `write_marked` of a slot without a row.
fn write_unseen<L: Ledger>(
    layers: &mut [Layer],
    world: Spot,
    slot: Slot,
    content: Content,
    steps: &mut Steps<L>,
) -> Result<(), OutOfMemory>
    requires sparse { IsSparse layers.old }
    requires there { IsAt layers.old world }
    requires parent { IfSome (slice_get layers.old world.place) (λ (r : Layer). is_some r.above ≡ true) }
    requires unseen { IfSome (slice_get layers.old world.place) (λ (r : Layer). map.get r.rows slot ≡ None) }
    ensures after { OnOk result (StandFor layers.new (after_write (full_of layers.old) world.world slot (content_of content))) }
    ensures steps { steps.new ≤ steps.old + (2 * depth_of (full_of layers.old) world.world + 2) }
{
    let read = read_before(layers, world, slot, steps);
    put_written(layers, world, slot, read, content, steps)
}

/// Sets slots of an object in a world, one after another.
#[inline(always)]
pub fn write_on<L: Ledger>(
    layers: &mut [Layer],
    world: Spot,
    object: ObjId,
    rows: &[(Name, Value)],
    steps: &mut Steps<L>,
) -> Result<(), OutOfMemory>
    requires sparse { IsSparse layers.old }
    requires there { IsAt layers.old world }
    ensures after { OnOk result (StandFor layers.new (write_all world.world (entries_of object rows.now) (full_of layers.old))) }
{
    match layers[world.place].above() {
        None => write_first_on(layers, world, object, rows, steps),
        Some(_) => write_each_on(layers, world, object, rows, steps),
    }
}

/// Sets slots of an object in the first world.
#[inline(always)]
fn write_first_on<L: Ledger>(
    layers: &mut [Layer],
    world: Spot,
    object: ObjId,
    rows: &[(Name, Value)],
    steps: &mut Steps<L>,
) -> Result<(), OutOfMemory>
    requires there { world.place < length layers.old }
    requires first { IfSome (slice_get layers.old world.place) (λ (r : Layer). r.above ≡ None) }
    ensures ok { OnOk result (IfSome (slice_get layers.old world.place) (λ (r : Layer). layers.new ≡ slice_set layers.old world.place (record r { rows = first_rows object rows.now r.rows }))) }
{
    let layer = &mut layers[world.place];
    layer.set_rows_first(object, rows, steps)
}

/// `write_on` by one `write` after another.
#[inline(never)]
fn write_each_on<L: Ledger>(
    layers: &mut [Layer],
    world: Spot,
    object: ObjId,
    rows: &[(Name, Value)],
    steps: &mut Steps<L>,
) -> Result<(), OutOfMemory>
    requires sparse { IsSparse layers.old }
    requires there { IsAt layers.old world }
    ensures after { OnOk result (StandFor layers.new (write_all world.world (entries_of object rows.now) (full_of layers.old))) }
{
    for row in rows {
        let slot = Slot {
            object,
            name: row.0,
        };
        write(layers, world, slot, Content::Present(row.1), steps)?;
    }
    Ok(())
}

/// Puts a child of a world last. It has no rows: it holds what its parent holds.
pub fn sprout(
    alloc: Global,
    layers: &mut Vec<Layer>,
    world: Spot,
    id: WorldId,
    strict: bool,
) -> Result<(), OutOfMemory>
    requires sparse { IsSparse layers.old.items }
    requires there { IsAt layers.old.items world }
    requires next { id ≡ next_id (full_of layers.old.items) id.owner }
    ensures after { OnOk result (StandFor layers.new.items (after_sprout (full_of layers.old.items) world.world id.owner strict)) }
{
    layers.push(Layer::under(alloc, world, id, strict))?;
    Ok(())
}

/// The lesser of two slots.
pub fn lesser(a: Option<Slot>, b: Option<Slot>) -> Option<Slot>
    ensures { result ≡ lesser_of a b }
{
    match (a, b) {
        (None, _) => b,
        (Some(_), None) => a,
        (Some(first), Some(second)) => { if first < second { a } else { b } }
    }
}

/// A slot of an object after those that were passed, before which the world holds nothing of the object.
pub fn next_slot<L: Ledger>(
    layers: &[Layer],
    world: Spot,
    object: ObjId,
    passed: Option<Slot>,
    steps: &mut Steps<L>,
) -> Option<Slot>
    requires sparse { IsSparse layers.now }
    requires there { IsAt layers.now world }
    requires on { IfSome passed (λ (s : Slot). s.object ≡ object) }
    ensures next { IsNextSlot (full_of layers.now) world.world object passed result }
    ensures steps { steps.new ≤ steps.old + (depth_of (full_of layers.now) world.world + 1) }
{
    let mut at = world;
    let mut least = None;
    'up: loop {
        let layer = &layers[at.place];
        least = lesser(least, next_row(layer, object, passed, steps));
        match layer.above() {
            None => return least,
            Some(above) => at = above,
        }
    }
}

/// The present slots of an object in a world, in order.
fn present<L: Ledger>(
    alloc: Global,
    layers: &[Layer],
    world: Spot,
    object: ObjId,
    steps: &mut Steps<L>,
) -> Result<Vec<Slot>, OutOfMemory>
    requires sparse { IsSparse layers.now }
    requires there { IsAt layers.now world }
    ensures slots { IfOk result (λ slots. slots.items ≡ slots_at (full_of layers.now) world.world object) }
{
    let mut found = SlotSet::new(alloc);
    let mut passed = None;
    'slots: while let Some(slot) = next_slot(layers, world, object, passed, steps) {
        keep_present(&mut found, content(layers, world, slot, steps), slot)?;
        passed = Some(slot);
    }
    found.slots(alloc)
}

/// Keeps a slot that is present.
fn keep_present(found: &mut SlotSet, content: Content, slot: Slot) -> Result<(), OutOfMemory>
    ensures { OnOk result (found.new ≡ with_present found.old (content_of content) slot) }
{
    match content {
        Content::Absent => Ok(()),
        Content::Present(_) => found.insert(slot),
    }
}

/// Reads slots in a world, one after another.
fn read_all<L: Ledger>(
    layers: &mut [Layer],
    world: Spot,
    slots: &[Slot],
    steps: &mut Steps<L>,
) -> Result<(), OutOfMemory>
    requires sparse { IsSparse layers.old }
    requires there { IsAt layers.old world }
    ensures after { OnOk result (StandFor layers.new (after_reads world.world slots.now (full_of layers.old))) }
    ensures there { OnOk result (IsAt layers.new world) }
{
    for slot in slots {
        read(layers, world, *slot, steps)?;
    }
    Ok(())
}

/// Marks an object as listed, in a world with a parent.
fn close<L: Ledger>(
    layers: &mut [Layer],
    world: Spot,
    object: ObjId,
    steps: &mut Steps<L>,
) -> Result<(), OutOfMemory>
    requires sparse { IsSparse layers.old }
    requires there { IsAt layers.old world }
    ensures kept { OnOk result (AreKept layers.new (at_world world.world (close_in object) (full_of layers.old))) }
    ensures step { steps.new ≤ steps.old + 1 }
{
    let layer = &mut layers[world.place];
    close_layer(layer, object, steps)
}

/// Lists an object in a world: its present slots are read there, in order, and the object is marked.
pub fn list<L: Ledger>(
    alloc: Global,
    layers: &mut [Layer],
    world: Spot,
    object: ObjId,
    steps: &mut Steps<L>,
) -> Result<Vec<Slot>, OutOfMemory>
    requires sparse { IsSparse layers.old }
    requires there { IsAt layers.old world }
    ensures slots { IfOk result (λ slots. slots.items ≡ slots_at (full_of layers.old) world.world object) }
    ensures after { OnOk result (StandFor layers.new (after_list (full_of layers.old) world.world object)) }
{
    let slots = present(alloc, layers, world, object, steps)?;
    read_all(layers, world, slots.as_slice(), steps)?;
    close(layers, world, object, steps)?;
    Ok(slots)
}

/// Records a child's reads in a world.
fn hand_to<L: Ledger>(
    layers: &mut [Layer],
    world: Spot,
    rows: &[(Slot, Row)],
    steps: &mut Steps<L>,
) -> Result<(), OutOfMemory>
    requires { world.place < length layers.old }
    ensures kept { OnOk result ((F : State plain) → AreKept layers.old F → place_of F world.world ≡ Some world.place → ((y : World plain) → find_world F world.world ≡ Some y → ReadsAgree rows.now y) → AreKept layers.new (at_world world.world (handed_rows rows.now) F)) }
    ensures steps { steps.new ≤ steps.old + 3 * length rows.now }
{
    let layer = &mut layers[world.place];
    hand_reads(layer, rows, steps)
}

/// Marks objects as listed in a world.
fn close_to<L: Ledger>(
    layers: &mut [Layer],
    world: Spot,
    objects: &[ObjId],
    steps: &mut Steps<L>,
) -> Result<(), OutOfMemory>
    requires { world.place < length layers.old }
    ensures kept { OnOk result ((F : State plain) → AreKept layers.old F → place_of F world.world ≡ Some world.place → AreKept layers.new (at_world world.world (closed_all objects.now) F)) }
    ensures steps { steps.new ≤ steps.old + length objects.now }
{
    let layer = &mut layers[world.place];
    close_all(layer, objects, steps)
}

/// Empties the marks of a world with a parent.
fn clear_in(alloc: Global, layers: &mut [Layer], world: Spot)
    requires { world.place < length layers.old }
    ensures kept { (F : State plain) → AreKept layers.old F → place_of F world.world ≡ Some world.place → ((x : World plain) → find_world F world.world ≡ Some x → is_some x.parent ≡ true) → AreKept layers.new (at_world world.world clear_marks F) }
{
    let layer = &mut layers[world.place];
    layer.clear(alloc);
}

/// Gives up what was done in a world that has a parent and no child: it has no rows, and holds what its parent holds.
pub fn reset(alloc: Global, layers: &mut [Layer], world: Spot)
    requires sparse { IsSparse layers.old }
    requires there { IsAt layers.old world }
    requires parent { is_some (parent_of (full_of layers.old) world.world) ≡ true }
    requires leaf { has_child (full_of layers.old) world.world ≡ false }
    ensures after { StandFor layers.new (after_reset (full_of layers.old) world.world) }
{
    let layer = &mut layers[world.place];
    layer.clear(alloc);
}

/// Writes the written rows of a child into a world.
fn write_rows<L: Ledger>(
    layers: &mut [Layer],
    world: Spot,
    rows: &[(Slot, Row)],
    steps: &mut Steps<L>,
) -> Result<(), OutOfMemory>
    requires sparse { IsSparse layers.old }
    requires there { IsAt layers.old world }
    ensures after { OnOk result (StandFor layers.new (written_rows world.world rows.now (full_of layers.old))) }
    ensures steps { steps.new ≤ steps.old + length rows.now * (2 * depth_of (full_of layers.old) world.world + 3) }
{
    for (slot, row) in rows {
        write_row(layers, world, *slot, *row, steps)?;
    }
    Ok(())
}

/// Writes a row of a child into a world, if it is a written one.
fn write_row<L: Ledger>(
    layers: &mut [Layer],
    world: Spot,
    slot: Slot,
    row: Row,
    steps: &mut Steps<L>,
) -> Result<(), OutOfMemory>
    requires sparse { IsSparse layers.old }
    requires there { IsAt layers.old world }
    ensures after { OnOk result (StandFor layers.new (cond row.written (after_write (full_of layers.old) world.world slot (now_of row)) (full_of layers.old))) }
    ensures steps { steps.new ≤ steps.old + (2 * depth_of (full_of layers.old) world.world + 3) }
{
    if !row.written {
        return Ok(());
    }
    write(layers, world, slot, row.now, steps)
}

/// Moves what a world touched into its parent, where its check passes.
pub fn settle<L: Ledger>(
    alloc: Global,
    layers: &mut [Layer],
    world: Spot,
    above: Spot,
    steps: &mut Steps<L>,
) -> Result<(), OutOfMemory>
    requires sparse { IsSparse layers.old }
    requires there { IsAt layers.old world }
    requires up { IfSome (slice_get layers.old world.place) (λ (r : Layer). r.above ≡ Some above) }
    requires agrees { (x y : World plain) → find_world (full_of layers.old) world.world ≡ Some x → find_world (full_of layers.old) above.world ≡ Some y → fault_in x y ≡ None }
    ensures after { OnOk result (StandFor layers.new (after_commit (full_of layers.old) world.world)) }
    ensures steps { (x : World plain) → find_world (full_of layers.old) world.world ≡ Some x → steps.new ≤ steps.old + (length (row_slots x) * (2 * depth_of (full_of layers.old) above.world + 7) + map.len x.closed * 2 + 2) }
{
    let layer = &layers[world.place];
    let rows = layer.entries(alloc, steps)?;
    let objects = layer.closed().objects(alloc, steps)?;
    hand_to(layers, above, rows.as_slice(), steps)?;
    write_rows(layers, above, rows.as_slice(), steps)?;
    close_to(layers, above, objects.as_slice(), steps)?;
    clear_in(alloc, layers, world);
    Ok(())
}
