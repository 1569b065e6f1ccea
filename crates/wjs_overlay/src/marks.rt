//! The marks of a world: how many there are, and its written slots one after another.
ghost use Rattle.std.specs.Prelude.{◌≡◌, ◌<◌, if◌then◌else◌, is_some, true};
ghost use Rattle.std.specs.FinMap as map;
ghost use Rattle.std.specs.Prelude.{◌&&◌};
ghost use Rattle.std.specs.Map.{lookup_entry};
ghost use Rattle.wjs_base.specs.declared.values.Slot.{Slot};
ghost use Rattle.wjs_overlay.specs.Check.{IsLeast};
ghost use Rattle.wjs_layers.specs.Cursor.{to_come};
ghost use Rattle.wjs_layers.specs.Marks.{reads_in, writes_in, has_written};

use std::sync::ledger::{Blank, Ledger};
use wjs_base::Slot;
use wjs_layers::{Layer, Row};
use wjs_rows::Steps;
use wjs_slots::least_slot;
use wjs_store::Counts;

/// 1 where it holds.
fn one_if(holds: bool) -> u64
    ensures { result ≡ (if holds then 1 else 0) }
{
    if holds { 1 } else { 0 }
}

/// How many recorded reads, written slots and listed objects a layer has.
pub fn count_marks<L: Ledger>(layer: &Layer, blank: Blank) -> Counts
    requires name { blank.name ≡ L.name }
    requires parts { blank.parts ≡ L.parts }
    requires some { 0 < blank.parts }
    ensures reads { result.reads ≡ reads_in (map.entries layer.now.rows) }
    ensures writes { result.writes ≡ writes_in (map.entries layer.now.rows) }
    ensures closed { result.closed ≡ map.len layer.now.closed }
{
    if layer.is_first() {
        return Counts {
            reads: 0,
            writes: 0,
            closed: layer.closed().len() as u64,
        };
    }
    count_rows::<L>(layer, blank)
}

/// `count_marks` of a world with a parent.
fn count_rows<L: Ledger>(layer: &Layer, blank: Blank) -> Counts
    requires name { blank.name ≡ L.name }
    requires parts { blank.parts ≡ L.parts }
    requires some { 0 < blank.parts }
    requires child { is_some layer.now.above ≡ true }
    ensures reads { result.reads ≡ reads_in (map.entries layer.now.rows) }
    ensures writes { result.writes ≡ writes_in (map.entries layer.now.rows) }
    ensures closed { result.closed ≡ map.len layer.now.closed }
{
    let mut steps = Steps::<L>::new(blank);
    let total = layer.len();
    let mut seen = 0usize;
    let mut reads = 0u64;
    let mut writes = 0u64;
    let mut next = layer.next_from(least_slot(), &mut steps);
    'marks: while let Some((slot, row)) = next {
        prove!(seen < total);
        reads += one_if(row.read.is_some());
        writes += one_if(row.written);
        seen += 1;
        next = layer.next_after(slot, &mut steps);
    }
    Counts {
        reads,
        writes,
        closed: layer.closed().len() as u64,
    }
}

/// The least row after the slots that were passed, in a world with a parent.
fn row_after<L: Ledger>(
    layer: &Layer,
    passed: Option<Slot>,
    steps: &mut Steps<L>,
) -> Option<(Slot, Row)>
    requires { is_some layer.now.above ≡ true }
    ensures { result ≡ lookup_entry (to_come passed) (map.entries layer.now.rows) }
{
    match passed {
        None => layer.next_from(least_slot(), steps),
        Some(slot) => layer.next_after(slot, steps),
    }
}

/// The least written slot of a layer after a slot, or the least of all.
pub fn next_written<L: Ledger>(layer: &Layer, after: Option<Slot>, blank: Blank) -> Option<Slot>
    requires name { blank.name ≡ L.name }
    requires parts { blank.parts ≡ L.parts }
    requires some { 0 < blank.parts }
    ensures { IsLeast (λ (s : Slot). has_written layer.now.rows s && to_come after s) result }
{
    if layer.is_first() {
        return None;
    }
    next_marked::<L>(layer, after, blank)
}

/// `next_written` in a world with a parent.
fn next_marked<L: Ledger>(layer: &Layer, after: Option<Slot>, blank: Blank) -> Option<Slot>
    requires name { blank.name ≡ L.name }
    requires parts { blank.parts ≡ L.parts }
    requires some { 0 < blank.parts }
    requires child { is_some layer.now.above ≡ true }
    ensures { IsLeast (λ (s : Slot). has_written layer.now.rows s && to_come after s) result }
{
    let mut steps = Steps::<L>::new(blank);
    let mut passed = after;
    'rows: while let Some((slot, row)) = row_after(layer, passed, &mut steps) {
        if row.written {
            return Some(slot);
        }
        passed = Some(slot);
    }
    None
}
