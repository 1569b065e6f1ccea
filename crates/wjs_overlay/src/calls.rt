//! The calls of the store on its layers.
ghost use Rattle.std.specs.Prelude.{◌≡◌, ◌+◌, ◌*◌, ◌≤◌, true, false, OnOk, IfOk, IfSome, is_some, length, slice_get};
ghost use Rattle.wjs_layers.specs.Reset.{has_child, after_reset};
ghost use Rattle.wjs_layers.specs.declared.layer.Layer.{Layer};
ghost use Rattle.wjs_layers.specs.Look.{IsUntouched};
ghost use Rattle.wjs_store.specs.State.{parent_of, content_at, slots_at, verdict_at, after_read, after_write, after_list, after_commit, write_all};
ghost use Rattle.wjs_store.specs.Meaning.{entries_of};
ghost use Rattle.wjs_store.specs.Shown.{content_of, slots_of, verdict_of};
ghost use Rattle.wjs_layers.specs.Sparse.{IsSparse, IsAt, StandFor, full_of, depth_of};
ghost use Rattle.wjs_base.specs.declared.values.Slot.{Slot};
ghost use Rattle.std.specs.Prelude.{map as each, ◌<◌};
ghost use Rattle.wjs_overlay.specs.Store.{check_of};
ghost use Rattle.wjs_layers.specs.Work.{rows_of, closed_of, rows_above};

use crate::check::fault;
use std::alloc::Global;
use std::sync::ledger::{Blank, Ledger};
use wjs_base::{Content, Name, Names, ObjId, OutOfMemory, Slot, Value};
use wjs_layers::{Layer, Spot, layers};
use wjs_rows::Steps;
use wjs_store::Verdict;

/// Reads a slot in a world.
#[inline(always)]
pub fn read<L: Ledger>(
    layers: &mut Vec<Layer>,
    world: Spot,
    slot: Slot,
    steps: &mut Steps<L>,
) -> Result<Content, OutOfMemory>
    requires sparse { IsSparse layers.old.items }
    requires there { IsAt layers.old.items world }
    ensures found { IfOk result (λ found. content_of found ≡ content_at (full_of layers.old.items) world.world slot) }
    ensures after { OnOk result (StandFor layers.new.items (after_read (full_of layers.old.items) world.world slot)) }
    ensures len { length layers.new.items ≡ length layers.old.items }
    ensures steps { steps.new ≤ steps.old + (2 * depth_of (full_of layers.old.items) world.world + 3) }
{
    layers::read(layers.as_mut_slice(), world, slot, steps)
}

/// Reads a slot of an object that no world between a world and the first has touched.
pub fn read_past<L: Ledger>(
    layers: &mut Vec<Layer>,
    world: Spot,
    first: Spot,
    slot: Slot,
    steps: &mut Steps<L>,
) -> Result<Content, OutOfMemory>
    requires sparse { IsSparse layers.old.items }
    requires there { IsAt layers.old.items world }
    requires untouched { IfSome (slice_get layers.old.items world.place) (λ (r : Layer). IsUntouched r slot) }
    requires first { IsAt layers.old.items first }
    requires same { content_at (full_of layers.old.items) first.world slot ≡ content_at (full_of layers.old.items) world.world slot }
    requires top { depth_of (full_of layers.old.items) first.world ≡ 0 }
    ensures found { IfOk result (λ found. content_of found ≡ content_at (full_of layers.old.items) world.world slot) }
    ensures after { OnOk result (StandFor layers.new.items (after_read (full_of layers.old.items) world.world slot)) }
    ensures len { length layers.new.items ≡ length layers.old.items }
    ensures steps { steps.new ≤ steps.old + 3 }
{
    layers::read_past(layers.as_mut_slice(), world, first, slot, steps)
}

/// Writes a slot in a world.
#[inline(always)]
pub fn write<L: Ledger>(
    layers: &mut Vec<Layer>,
    world: Spot,
    slot: Slot,
    content: Content,
    steps: &mut Steps<L>,
) -> Result<(), OutOfMemory>
    requires sparse { IsSparse layers.old.items }
    requires there { IsAt layers.old.items world }
    ensures after { OnOk result (StandFor layers.new.items (after_write (full_of layers.old.items) world.world slot (content_of content))) }
    ensures len { length layers.new.items ≡ length layers.old.items }
    ensures steps { steps.new ≤ steps.old + (2 * depth_of (full_of layers.old.items) world.world + 3) }
{
    layers::write(layers.as_mut_slice(), world, slot, content, steps)
}

/// Writes slots of an object in a world, one after another.
#[inline(always)]
pub fn write_rows<L: Ledger>(
    layers: &mut Vec<Layer>,
    world: Spot,
    object: ObjId,
    rows: &[(Name, Value)],
    steps: &mut Steps<L>,
) -> Result<(), OutOfMemory>
    requires sparse { IsSparse layers.old.items }
    requires there { IsAt layers.old.items world }
    ensures after { OnOk result (StandFor layers.new.items (write_all world.world (entries_of object rows.now) (full_of layers.old.items))) }
    ensures len { length layers.new.items ≡ length layers.old.items }
{
    layers::write_on(layers.as_mut_slice(), world, object, rows, steps)
}

/// The names of slots.
fn names_of(alloc: Global, slots: &[Slot]) -> Result<Names, OutOfMemory>
    ensures { IfOk result (λ names. names ≡ each (λ (s : Slot). s.name) slots.now) }
{
    let mut names = Names::new(alloc);
    for slot in slots {
        names.push(slot.name)?;
    }
    Ok(names)
}

/// Lists an object in a world.
fn list_slots<L: Ledger>(
    alloc: Global,
    layers: &mut Vec<Layer>,
    world: Spot,
    object: ObjId,
    steps: &mut Steps<L>,
) -> Result<Vec<Slot>, OutOfMemory>
    requires sparse { IsSparse layers.old.items }
    requires there { IsAt layers.old.items world }
    ensures slots { IfOk result (λ slots. slots.items ≡ slots_at (full_of layers.old.items) world.world object) }
    ensures after { OnOk result (StandFor layers.new.items (after_list (full_of layers.old.items) world.world object)) }
    ensures len { length layers.new.items ≡ length layers.old.items }
{
    layers::list(alloc, layers.as_mut_slice(), world, object, steps)
}

/// Lists an object in a world, and gives the names of its present slots.
pub fn list<L: Ledger>(
    alloc: Global,
    layers: &mut Vec<Layer>,
    world: Spot,
    object: ObjId,
    steps: &mut Steps<L>,
) -> Result<Names, OutOfMemory>
    requires sparse { IsSparse layers.old.items }
    requires there { IsAt layers.old.items world }
    ensures names { IfOk result (λ names. slots_of object names ≡ slots_at (full_of layers.old.items) world.world object) }
    ensures after { OnOk result (StandFor layers.new.items (after_list (full_of layers.old.items) world.world object)) }
    ensures len { length layers.new.items ≡ length layers.old.items }
{
    let slots = list_slots(alloc, layers, world, object, steps)?;
    names_of(alloc, slots.as_slice())
}

/// Commits a world.
fn commit_slots<L: Ledger>(
    alloc: Global,
    layers: &mut [Layer],
    world: Spot,
    steps: &mut Steps<L>,
) -> Result<Verdict, OutOfMemory>
    requires sparse { IsSparse layers.old }
    requires there { IsAt layers.old world }
    ensures verdict { IfOk result (λ verdict. verdict_of verdict ≡ verdict_at (full_of layers.old) world.world) }
    ensures after { OnOk result (StandFor layers.new (after_commit (full_of layers.old) world.world)) }
    ensures steps { steps.new ≤ steps.old + (rows_of (full_of layers.old) world.world + closed_of (full_of layers.old) world.world + rows_above (full_of layers.old) world.world + 1) * (4 * depth_of (full_of layers.old) world.world + 20) }
{
    let layer = &layers[world.place];
    match layer.above() {
        None => Ok(Verdict::NoParent),
        Some(above) => match fault(layers, world, above, steps) {
            Some(slot) => Ok(Verdict::Disagrees(slot)),
            None => {
                layers::settle(alloc, layers, world, above, steps)?;
                Ok(Verdict::Moved)
            }
        },
    }
}

/// Commits a world.
pub fn commit<L: Ledger>(
    alloc: Global,
    layers: &mut Vec<Layer>,
    world: Spot,
    steps: &mut Steps<L>,
) -> Result<Verdict, OutOfMemory>
    requires sparse { IsSparse layers.old.items }
    requires there { IsAt layers.old.items world }
    ensures verdict { IfOk result (λ verdict. verdict_of verdict ≡ verdict_at (full_of layers.old.items) world.world) }
    ensures after { OnOk result (StandFor layers.new.items (after_commit (full_of layers.old.items) world.world)) }
    ensures len { length layers.new.items ≡ length layers.old.items }
    ensures steps { steps.new ≤ steps.old + (rows_of (full_of layers.old.items) world.world + closed_of (full_of layers.old.items) world.world + rows_above (full_of layers.old.items) world.world + 1) * (4 * depth_of (full_of layers.old.items) world.world + 20) }
{
    commit_slots(alloc, layers.as_mut_slice(), world, steps)
}

/// Gives up what was done in a world that has a parent and no child.
pub fn reset(alloc: Global, layers: &mut Vec<Layer>, world: Spot)
    requires sparse { IsSparse layers.old.items }
    requires there { IsAt layers.old.items world }
    requires parent { is_some (parent_of (full_of layers.old.items) world.world) ≡ true }
    requires leaf { has_child (full_of layers.old.items) world.world ≡ false }
    ensures after { StandFor layers.new.items (after_reset (full_of layers.old.items) world.world) }
    ensures len { length layers.new.items ≡ length layers.old.items }
{
    layers::reset(alloc, layers.as_mut_slice(), world)
}

/// The least slot that fails the check of a world; none for a world without parent.
pub fn check_in<L: Ledger>(layers: &[Layer], world: Spot, blank: Blank) -> Option<Slot>
    requires name { blank.name ≡ L.name }
    requires parts { blank.parts ≡ L.parts }
    requires some { 0 < blank.parts }
    requires sparse { IsSparse layers.now }
    requires there { IsAt layers.now world }
    ensures { result ≡ check_of (full_of layers.now) world.world }
{
    let mut steps = Steps::<L>::new(blank);
    let layer = &layers[world.place];
    match layer.above() {
        None => None,
        Some(above) => fault(layers, world, above, &mut steps),
    }
}
