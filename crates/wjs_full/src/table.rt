//! The rows of all worlds, in the order of sprouting.
ghost use Rattle.std.specs.Prelude.{◌≡◌, ◌<◌, ◌≤◌, ◌+◌, ◌==◌, Bool, cond, length, OnOk, IfOk, IfSome, map as each, count_by, slice_get, Option, Some, None};
ghost use Rattle.std.specs.Option.{option_map, option_and_then};
ghost use Rattle.wjs_base.specs.declared.ids.WorldId.{WorldId};
ghost use Rattle.wjs_full.specs.declared.rows.Row.{Row};
ghost use Rattle.wjs_store.specs.Naming.{plain};
ghost use Rattle.wjs_store.specs.Fixed.{fresh};
ghost use Rattle.wjs_store.specs.Shown.{slots_of, verdict_of, counts_of};
ghost use Rattle.wjs_store.specs.State.{World, find_world, is_below, same_world, put, write_in, content_at, slots_at, next_id, count_of, after_read};
ghost use Rattle.wjs_store.specs.State.{after_write, after_list, after_sprout, at_world, hand_entries, hand_objects, clear_marks, write_all, settle};
ghost use Rattle.wjs_store.specs.State.{with_parent, fault_in, verdict_at, after_commit, parent_of};
ghost use Rattle.wjs_full.specs.Rows.{world_in, worlds_in, worlds_at};

use crate::rows::Row;
use std::alloc::Global;
use wjs_base::{Names, ObjId, OutOfMemory, Slot, Value, WorldId};
use wjs_store::{Counts, Verdict};

/// The first world alone.
pub fn new(alloc: Global) -> Result<Vec<Row>, OutOfMemory>
    ensures worlds { IfOk result (λ table. worlds_in table.items ≡ fresh) }
    ensures len { IfOk result (λ table. 0 < length table.items) }
{
    let mut table = Vec::new(alloc);
    table.push(Row::first(alloc))?;
    Ok(table)
}

/// The place of a world.
pub fn find(table: &[Row], world: WorldId) -> Option<usize>
    ensures bound { IfSome result (λ i. i < length table.now) }
    ensures found { find_world (worlds_in table.now) world ≡ option_and_then (λ i. option_map world_in (slice_get table.now i)) result }
{
    let mut left = table.len();
    while left > 0 {
        left -= 1;
        if table[left].id == world {
            return Some(left);
        }
    }
    None
}

/// Whether a path of untouched worlds leads from `below` up to the world.
pub fn is_below(table: &[Row], world: WorldId, slot: Slot, below: WorldId) -> bool
    ensures { result ≡ is_below world slot (worlds_in table.now) below }
{
    let mut left = table.len();
    let mut at = below;
    while left > 0 {
        left -= 1;
        let row = &table[left];
        if row.id == at {
            if row.is_touched(slot) {
                return false;
            }
            match row.parent {
                None => return false,
                Some(parent) => {
                    if parent == world {
                        return true;
                    }
                    at = parent;
                }
            }
        }
    }
    false
}

/// Reads a slot in a world.
fn read_rows(table: &mut [Row], world: WorldId, slot: Slot) -> Result<(), OutOfMemory>
    ensures { OnOk result (worlds_in table.new ≡ after_read (worlds_in table.old) world slot) }
{
    for row in table.iter_mut() {
        if row.id == world {
            row.read(slot)?;
        }
    }
    Ok(())
}

/// What a slot holds in a world.
pub fn content(table: &[Row], world: WorldId, slot: Slot) -> Option<Value>
    ensures { result ≡ content_at (worlds_in table.now) world slot }
{
    match find(table, world) {
        None => None,
        Some(place) => table[place].copy.get(slot),
    }
}

/// Which worlds are below, in the table's order.
fn all_below(
    alloc: Global,
    table: &[Row],
    world: WorldId,
    slot: Slot,
) -> Result<Vec<bool>, OutOfMemory>
    ensures { IfOk result (λ hits. hits.items ≡ each (λ (row : Row). is_below world slot (worlds_in table.now) row.id) table.now) }
{
    Ok(
        table
            .iter()
            .map(|row| is_below(table, world, slot, row.id))
            .collect(alloc)?,
    )
}

fn write_row(
    row: &mut Row,
    world: WorldId,
    slot: Slot,
    content: Option<Value>,
    hit: bool,
) -> Result<(), OutOfMemory>
    ensures { OnOk result (world_in row.new ≡ cond (same_world row.old.id world) (write_in slot content (world_in row.old))
        (cond hit (record (world_in row.old) { copy = put row.old.copy slot content }) (world_in row.old))) }
{
    if row.id == world {
        row.write(slot, content)?;
    } else if hit {
        row.copy.put(slot, content)?;
    }
    Ok(())
}

fn write_each(
    table: &mut [Row],
    world: WorldId,
    slot: Slot,
    content: Option<Value>,
    hits: &[bool],
) -> Result<(), OutOfMemory>
    requires { hits.now ≡ each (λ (row : Row). is_below world slot (worlds_in table.old) row.id) table.old }
    ensures { OnOk result (worlds_in table.new ≡ after_write (worlds_in table.old) world slot content) }
{
    for (place, row) in table.iter_mut().enumerate() {
        write_row(row, world, slot, content, hits[place])?;
    }
    Ok(())
}

/// Writes a slot in a world, and copies the content down.
fn write_rows(
    alloc: Global,
    table: &mut [Row],
    world: WorldId,
    slot: Slot,
    content: Option<Value>,
) -> Result<(), OutOfMemory>
    ensures { OnOk result (worlds_in table.new ≡ after_write (worlds_in table.old) world slot content) }
{
    let hits = all_below(alloc, table, world, slot)?;
    write_each(table, world, slot, content, hits.as_slice())
}

/// The names of an object's present slots in a world.
pub fn names(
    alloc: Global,
    table: &[Row],
    world: WorldId,
    object: ObjId,
) -> Result<Names, OutOfMemory>
    ensures { IfOk result (λ names. slots_of object names ≡ slots_at (worlds_in table.now) world object) }
{
    match find(table, world) {
        None => Ok(Names::new(alloc)),
        Some(place) => table[place].names(alloc, object),
    }
}

/// Marks an object as listed in a world.
fn list_rows(
    alloc: Global,
    table: &mut [Row],
    world: WorldId,
    object: ObjId,
) -> Result<(), OutOfMemory>
    ensures { OnOk result (worlds_in table.new ≡ after_list (worlds_in table.old) world object) }
{
    for row in table.iter_mut() {
        if row.id == world {
            row.list(alloc, object)?;
        }
    }
    Ok(())
}

/// How many worlds an owner has.
pub fn next_serial(table: &[Row], owner: u32) -> u64
    ensures { result ≡ count_of owner (worlds_in table.now) }
{
    let mut count = 0;
    for row in table {
        if row.id.owner == owner {
            count += 1;
        }
    }
    count
}

/// Puts a child last.
pub fn sprout(
    alloc: Global,
    table: &mut Vec<Row>,
    world: WorldId,
    owner: u32,
    strict: bool,
) -> Result<WorldId, OutOfMemory>
    ensures id { IfOk result (λ id. id ≡ next_id (worlds_in table.old.items) owner) }
    ensures after { OnOk result (worlds_in table.new.items ≡ after_sprout (worlds_in table.old.items) world owner strict) }
    ensures len { length table.old.items ≤ length table.new.items }
{
    let id = WorldId {
        owner,
        serial: next_serial(table.as_slice(), owner),
    };
    match find(table.as_slice(), world) {
        None => Ok(id),
        Some(place) => {
            let child = table[place].child(alloc, id, strict)?;
            table.push(child)?;
            Ok(id)
        }
    }
}

fn hand_reads(
    table: &mut [Row],
    world: WorldId,
    reads: &[(Slot, Option<Value>)],
) -> Result<(), OutOfMemory>
    ensures { OnOk result (worlds_in table.new ≡ at_world world (hand_entries reads.now) (worlds_in table.old)) }
{
    for row in table.iter_mut() {
        if row.id == world {
            row.hand_reads(reads)?;
        }
    }
    Ok(())
}

fn hand_closed(table: &mut [Row], world: WorldId, objects: &[ObjId]) -> Result<(), OutOfMemory>
    ensures { OnOk result (worlds_in table.new ≡ at_world world (hand_objects objects.now) (worlds_in table.old)) }
{
    for row in table.iter_mut() {
        if row.id == world {
            row.hand_closed(objects)?;
        }
    }
    Ok(())
}

fn clear_marks(alloc: Global, table: &mut [Row], world: WorldId)
    ensures { worlds_in table.new ≡ at_world world clear_marks (worlds_in table.old) }
{
    for row in table.iter_mut() {
        if row.id == world {
            row.clear_marks(alloc);
        }
    }
}

fn write_all(
    alloc: Global,
    table: &mut Vec<Row>,
    world: WorldId,
    writes: &[(Slot, Option<Value>)],
) -> Result<(), OutOfMemory>
    ensures after { OnOk result (worlds_in table.new.items ≡ write_all world writes.now (worlds_in table.old.items)) }
    ensures len { length table.old.items ≤ length table.new.items }
{
    for entry in writes {
        write(alloc, table, world, entry.0, entry.1)?;
    }
    Ok(())
}

fn settle_marks(
    alloc: Global,
    table: &mut Vec<Row>,
    world: WorldId,
    parent: WorldId,
    reads: &[(Slot, Option<Value>)],
    writes: &[(Slot, Option<Value>)],
    objects: &[ObjId],
) -> Result<(), OutOfMemory>
    ensures after { OnOk result (worlds_in table.new.items ≡ at_world world clear_marks (at_world parent (hand_objects objects.now)
        (write_all parent writes.now (at_world parent (hand_entries reads.now) (worlds_in table.old.items))))) }
    ensures len { length table.old.items ≤ length table.new.items }
{
    hand_reads(table.as_mut_slice(), parent, reads)?;
    write_all(alloc, table, parent, writes)?;
    hand_closed(table.as_mut_slice(), parent, objects)?;
    clear_marks(alloc, table.as_mut_slice(), world);
    Ok(())
}

/// Moves what the world at a place wrote into its parent.
pub fn settle(
    alloc: Global,
    table: &mut Vec<Row>,
    place: usize,
    parent: WorldId,
) -> Result<(), OutOfMemory>
    requires { place < length table.old.items }
    ensures after { OnOk result (IfSome (slice_get table.old.items place)
        (λ (row : Row). worlds_in table.new.items ≡ settle (world_in row) parent (worlds_in table.old.items))) }
    ensures len { length table.old.items ≤ length table.new.items }
{
    let row = &table[place];
    let world = row.id;
    let reads = row.reads(alloc)?;
    let writes = row.moves(alloc)?;
    let objects = row.closed.objects(alloc)?;
    settle_marks(
        alloc,
        table,
        world,
        parent,
        reads.as_slice(),
        writes.as_slice(),
        objects.as_slice(),
    )
}

/// Reads a slot in a world.
pub fn read(table: &mut Vec<Row>, world: WorldId, slot: Slot) -> Result<(), OutOfMemory>
    ensures after { OnOk result (worlds_in table.new.items ≡ after_read (worlds_in table.old.items) world slot) }
    ensures len { length table.old.items ≤ length table.new.items }
{
    read_rows(table.as_mut_slice(), world, slot)
}

/// Writes a slot in a world, and copies the content down.
pub fn write(
    alloc: Global,
    table: &mut Vec<Row>,
    world: WorldId,
    slot: Slot,
    content: Option<Value>,
) -> Result<(), OutOfMemory>
    ensures after { OnOk result (worlds_in table.new.items ≡ after_write (worlds_in table.old.items) world slot content) }
    ensures len { length table.old.items ≤ length table.new.items }
{
    write_rows(alloc, table.as_mut_slice(), world, slot, content)
}

/// Marks an object as listed in a world.
pub fn list(
    alloc: Global,
    table: &mut Vec<Row>,
    world: WorldId,
    object: ObjId,
) -> Result<(), OutOfMemory>
    ensures after { OnOk result (worlds_in table.new.items ≡ after_list (worlds_in table.old.items) world object) }
    ensures len { length table.old.items ≤ length table.new.items }
{
    list_rows(alloc, table.as_mut_slice(), world, object)
}

/// The names of an object's present slots, which is then marked as listed.
pub fn list_names(
    alloc: Global,
    table: &mut Vec<Row>,
    world: WorldId,
    object: ObjId,
) -> Result<Names, OutOfMemory>
    ensures names { IfOk result (λ names. slots_of object names ≡ slots_at (worlds_in table.old.items) world object) }
    ensures after { OnOk result (worlds_in table.new.items ≡ after_list (worlds_in table.old.items) world object) }
    ensures len { length table.old.items ≤ length table.new.items }
{
    let names = names(alloc, table.as_slice(), world, object)?;
    list(alloc, table, world, object)?;
    Ok(names)
}

/// The places of a world and of its parent.
fn with_parent(table: &[Row], world: WorldId) -> Option<(usize, usize)>
    ensures bound { IfSome result (λ e. (e.0 < length table.now) × (e.1 < length table.now)) }
    ensures found { with_parent (worlds_in table.now) world ≡ option_and_then (worlds_at table.now) result }
{
    match find(table, world) {
        None => None,
        Some(place) => {
            let row = &table[place];
            match row.parent {
                None => None,
                Some(parent) => match find(table, parent) {
                    None => None,
                    Some(above) => Some((place, above)),
                },
            }
        }
    }
}

/// The least slot that fails the check of the world at one place under that at another.
fn fault(
    alloc: Global,
    table: &[Row],
    place: usize,
    above: usize,
) -> Result<Option<Slot>, OutOfMemory>
    requires place { place < length table.now }
    requires above { above < length table.now }
    ensures { IfOk result (λ fault. IfSome (worlds_at table.now (place, above)) (λ (e : World plain × World plain). fault ≡ fault_in e.0 e.1)) }
{
    table[place].fault(alloc, &table[above])
}

fn settle_at(
    alloc: Global,
    table: &mut Vec<Row>,
    place: usize,
    above: usize,
) -> Result<(), OutOfMemory>
    requires place { place < length table.old.items }
    requires above { above < length table.old.items }
    ensures after { OnOk result (IfSome (worlds_at table.old.items (place, above))
        (λ (e : World plain × World plain). worlds_in table.new.items ≡ settle e.0 e.1.id (worlds_in table.old.items))) }
    ensures len { length table.old.items ≤ length table.new.items }
{
    let parent = table[above].id;
    settle(alloc, table, place, parent)
}

/// Commits a world.
pub fn commit(alloc: Global, table: &mut Vec<Row>, world: WorldId) -> Result<Verdict, OutOfMemory>
    ensures verdict { IfOk result (λ verdict. verdict_of verdict ≡ verdict_at (worlds_in table.old.items) world) }
    ensures after { OnOk result (worlds_in table.new.items ≡ after_commit (worlds_in table.old.items) world) }
    ensures len { length table.old.items ≤ length table.new.items }
{
    match with_parent(table.as_slice(), world) {
        None => Ok(Verdict::NoParent),
        Some(places) => match fault(alloc, table.as_slice(), places.0, places.1)? {
            Some(slot) => Ok(Verdict::Disagrees(slot)),
            None => {
                settle_at(alloc, table, places.0, places.1)?;
                Ok(Verdict::Moved)
            }
        },
    }
}

pub fn parent(table: &[Row], world: WorldId) -> Option<WorldId>
    ensures { result ≡ parent_of (worlds_in table.now) world }
{
    match find(table, world) {
        None => None,
        Some(place) => table[place].parent,
    }
}

/// The sizes of a world's marks; of a world that is not there they are 0.
pub fn counts(table: &[Row], world: WorldId) -> Counts
    ensures { IfSome (find_world (worlds_in table.now) world) (λ (x : World plain). result ≡ counts_of x) }
{
    match find(table, world) {
        None => Counts {
            reads: 0,
            writes: 0,
            closed: 0,
        },
        Some(place) => {
            let row = &table[place];
            Counts {
                reads: row.first.len() as u64,
                writes: row.written.len() as u64,
                closed: row.closed.len() as u64,
            }
        }
    }
}
