//! A world, and its rows.
ghost use Rattle.std.specs.Prelude.{◌≡◌, ◌+◌, ◌*◌, ◌≤◌, length, OnOk};
ghost use Rattle.wjs_layers.specs.Look.{Looked, closed_layer};
ghost use Rattle.wjs_layers.specs.Cursor.{IsNextRow};
ghost use Rattle.std.specs.Prelude.{IfSome, is_some, ◌||◌, Some, None};
ghost use Rattle.std.specs.Option.{option_map};
ghost use Rattle.std.specs.FinMap as map;
ghost use Rattle.wjs_base.specs.declared.values.Value.{Value};
ghost use Rattle.std.specs.Prelude.{Option};
ghost use Rattle.wjs_store.specs.Naming.{plain};
ghost use Rattle.wjs_store.specs.State.{World};
ghost use Rattle.wjs_layers.specs.Sparse.{Keeps, read_of};
ghost use Rattle.wjs_layers.specs.Moves.{handed, handed_rows, ReadsAgree, closed_all};
ghost use Rattle.std.specs.Prelude.{true};
ghost use Rattle.wjs_base.specs.declared.values.Slot.{Slot};

use crate::compact::ShortContent;
use crate::maps::{ObjectSet, Row};
use crate::touched::Touched;
use crate::values::{content_with, held, set_value, set_values, with_entry, with_row};
use std::alloc::Global;
use std::marker::Model;
use std::sync::ledger::Ledger;
use wjs_base::{Content, Name, ObjId, OutOfMemory, Slot, Value, WorldId};
use wjs_rows::Steps;
use wjs_slots::{Table, least_slot};

/// A world by its number, and its place among the worlds.
#[derive(Clone, Copy)]
pub struct Spot {
    pub world: WorldId,
    pub place: usize,
}

/// What a world keeps of slots.
///
/// Nearly all reads and writes are in the first world, and there a row says no more than its value.
#[derive(Drop)]
enum Kept {
    /// The first world's present slots.
    First(Table<ShortContent>),
    /// What was touched in a world with this parent.
    Under(Spot, Touched),
}

impl Kept {
    ghost use Rattle.std.specs.Prelude.{◌≡◌};
    ghost use Rattle.std.specs.FinMap as map;
    ghost use Rattle.wjs_layers.specs.Tables.{above_in, rows_in};

    /// Takes all rows out.
    fn clear(&mut self, alloc: Global)
        ensures above { above_in self.new ≡ above_in self.old }
        ensures rows { rows_in self.new ≡ map.empty }
    {
        match self {
            Kept::First(values) => *values = Table::new(alloc),
            Kept::Under(_, rows) => *rows = Touched::new(alloc),
        }
    }
}

/// A world laid over its parent: what was touched in it. Of the first world it keeps the present slots.
///
/// Contracts see its rows as one finite map, in which each value of the first world is the row of a present slot.
#[derive(Drop)]
pub struct Layer {
    id: WorldId,
    strict: bool,
    kept: Kept,
    closed: ObjectSet,
}

impl Model for Layer {
    ghost use Rattle.wjs_layers.specs.Shape.{Shape, coded_shape};

    ghost Value = { Shape };

    ghost coded = { coded_shape };

    ghost use Rattle.wjs_layers.specs.Tables.{shown};

    ghost view = { shown };
}

impl Layer {
    ghost use Rattle.std.specs.Prelude.{◌≡◌, ◌+◌, ◌≤◌, length, OnOk, IfOk, Option, Some, None, is_some, true, false};
    ghost use Rattle.std.specs.Option.{option_map, option_and_then};
    ghost use Rattle.std.specs.FinMap as map;
    ghost use Rattle.std.specs.Map.{lookup_entry};
    ghost use Rattle.wjs_base.specs.Order.{slot_cmp};
    ghost use Rattle.wjs_rows.specs.Order.{is_from, is_after};
    ghost use Rattle.wjs_slots.specs.Least.{is_next_on};
    ghost use Rattle.wjs_store.specs.State.{put};
    ghost use Rattle.wjs_store.specs.Shown.{content_of};
    ghost use Rattle.wjs_layers.specs.Sparse.{now_of};
    ghost use Rattle.wjs_layers.specs.declared.maps.Row.{Row};
    ghost use Rattle.wjs_layers.specs.Keyed.{rewritten};
    ghost use Rattle.wjs_layers.specs.Look.{first_row_of};
    ghost use Rattle.wjs_layers.specs.Shorts.{row_read, row_written};
    ghost use Rattle.wjs_layers.specs.Moves.{cleared};
    ghost use Rattle.wjs_layers.specs.Several.{first_rows};
    ghost use Rattle.wjs_layers.specs.Marks.{reads_in, writes_in, has_written};
    ghost use Rattle.std.specs.Option.{is_none};

    /// The first world, in which all slots are absent.
    pub fn first(alloc: Global, id: WorldId) -> Layer
        ensures { result ≡ record { id = id; above = None; strict = false; rows = map.empty; closed = map.empty } }
    {
        Layer {
            id,
            strict: false,
            kept: Kept::First(Table::new(alloc)),
            closed: ObjectSet::new(alloc),
        }
    }

    /// A world in which nothing was touched.
    pub fn under(alloc: Global, above: Spot, id: WorldId, strict: bool) -> Layer
        ensures { result ≡ record { id = id; above = Some above; strict = strict; rows = map.empty; closed = map.empty } }
    {
        Layer {
            id,
            strict,
            kept: Kept::Under(above, Touched::new(alloc)),
            closed: ObjectSet::new(alloc),
        }
    }

    #[inline(always)]
    pub fn id(&self) -> WorldId
        ensures { result ≡ self.now.id }
    {
        self.id
    }

    /// Its parent.
    #[inline(always)]
    pub fn above(&self) -> Option<Spot>
        ensures { result ≡ self.now.above }
    {
        match &self.kept {
            Kept::First(_) => None,
            Kept::Under(above, _) => Some(*above),
        }
    }

    pub fn is_strict(&self) -> bool
        ensures { result ≡ self.now.strict }
    {
        self.strict
    }

    /// Whether it is the first world. No row of that has a mark.
    pub fn is_first(&self) -> bool
        ensures first { result ≡ is_none self.now.above }
        ensures reads { result ≡ true → reads_in (map.entries self.now.rows) ≡ 0 }
        ensures writes { result ≡ true → writes_in (map.entries self.now.rows) ≡ 0 }
        ensures written { result ≡ true → (slot : Slot) → has_written self.now.rows slot ≡ false }
    {
        match &self.kept {
            Kept::First(_) => true,
            Kept::Under(_, _) => false,
        }
    }

    /// The objects that were listed there.
    #[inline(always)]
    pub fn closed(&self) -> &ObjectSet
        ensures { result.now ≡ self.now.closed }
    {
        &self.closed
    }

    /// What the row of a slot says that it holds; None exactly where there is no row.
    pub fn now<L: Ledger>(&self, slot: Slot, steps: &mut Steps<L>) -> Option<Content>
        ensures now { result ≡ option_map (λ (row : Row). row.now) (map.get self.now.rows slot) }
        ensures step { steps.new ≡ steps.old + 1 }
    {
        match &self.kept {
            Kept::First(values) => held(values.get(slot, steps)),
            Kept::Under(_, rows) => rows.now(slot, steps),
        }
    }

    /// What a slot of the first world holds.
    #[inline(always)]
    pub fn get_first<L: Ledger>(&self, slot: Slot, steps: &mut Steps<L>) -> Content
        requires { self.now.above ≡ None }
        ensures content { content_of result ≡ option_and_then now_of (map.get self.now.rows slot) }
        ensures step { steps.new ≡ steps.old + 1 }
    {
        match &self.kept {
            Kept::First(values) => content_with(values.get(slot, steps)),
            Kept::Under(_, _) => unreachable!(),
        }
    }

    /// The row of a slot; None exactly where there is none.
    pub fn get<L: Ledger>(&self, slot: Slot, steps: &mut Steps<L>) -> Option<Row>
        ensures row { result ≡ map.get self.now.rows slot }
        ensures step { steps.new ≡ steps.old + 1 }
    {
        match &self.kept {
            Kept::First(values) => with_row(values.get(slot, steps)),
            Kept::Under(_, rows) => rows.get(slot, steps),
        }
    }

    /// How many rows there are.
    pub fn len(&self) -> usize
        ensures { result ≡ length (map.entries self.now.rows) }
    {
        match &self.kept {
            Kept::First(values) => values.len(),
            Kept::Under(_, rows) => rows.len(),
        }
    }

    /// The least row of a world with a parent at or after a slot; None exactly where there is none.
    pub fn next_from<L: Ledger>(&self, slot: Slot, steps: &mut Steps<L>) -> Option<(Slot, Row)>
        requires { is_some self.now.above ≡ true }
        ensures least { result ≡ lookup_entry (is_from slot_cmp slot) (map.entries self.now.rows) }
        ensures step { steps.new ≡ steps.old + 1 }
    {
        match &self.kept {
            Kept::First(_) => unreachable!(),
            Kept::Under(_, rows) => rows.next_from(slot, steps),
        }
    }

    /// The least row of a world with a parent after a slot; None exactly where there is none.
    pub fn next_after<L: Ledger>(&self, slot: Slot, steps: &mut Steps<L>) -> Option<(Slot, Row)>
        requires { is_some self.now.above ≡ true }
        ensures least { result ≡ lookup_entry (is_after slot_cmp slot) (map.entries self.now.rows) }
        ensures step { steps.new ≡ steps.old + 1 }
    {
        match &self.kept {
            Kept::First(_) => unreachable!(),
            Kept::Under(_, rows) => rows.next_after(slot, steps),
        }
    }

    /// The least row of an object after the name that was passed, or the least of all that it has; None exactly where there
    /// is none.
    fn next_on<L: Ledger>(
        &self,
        object: ObjId,
        passed: Option<Name>,
        steps: &mut Steps<L>,
    ) -> Option<(Slot, Row)>
        ensures least { result ≡ lookup_entry (is_next_on object passed) (map.entries self.now.rows) }
        ensures step { steps.new ≡ steps.old + 1 }
    {
        match &self.kept {
            Kept::First(values) => with_entry(values.next_on(object, passed, steps)),
            Kept::Under(_, rows) => rows.next_on(object, passed, steps),
        }
    }

    /// All rows of a world with a parent, in the order of slots.
    pub fn entries<L: Ledger>(
        &self,
        alloc: Global,
        steps: &mut Steps<L>,
    ) -> Result<Vec<(Slot, Row)>, OutOfMemory>
        requires { is_some self.now.above ≡ true }
        ensures all { IfOk result (λ all. all.items ≡ map.entries self.now.rows) }
        ensures steps { steps.new ≤ steps.old + (length (map.entries self.now.rows) + 1) }
    {
        let mut all = Vec::new(alloc);
        let mut next = self.next_from(least_slot(), steps);
        'rows: while let Some(row) = next {
            all.push(row)?;
            next = self.next_after(row.0, steps);
        }
        Ok(all)
    }

    /// Sets a slot of the first world.
    #[inline(always)]
    pub fn set_first<L: Ledger>(
        &mut self,
        slot: Slot,
        content: Content,
        steps: &mut Steps<L>,
    ) -> Result<(), OutOfMemory>
        requires { self.old.above ≡ None }
        ensures ok { OnOk result (self.new ≡ record self.old { rows = put self.old.rows slot (first_row_of content) }) }
        ensures step { steps.new ≡ steps.old + 1 }
    {
        match &mut self.kept {
            Kept::First(values) => set_value(values, slot, content, steps),
            Kept::Under(_, _) => unreachable!(),
        }
    }

    /// Sets slots of an object of the first world, one after another.
    #[inline(always)]
    pub fn set_rows_first<L: Ledger>(
        &mut self,
        object: ObjId,
        rows: &[(Name, Value)],
        steps: &mut Steps<L>,
    ) -> Result<(), OutOfMemory>
        requires { self.old.above ≡ None }
        ensures ok { OnOk result (self.new ≡ record self.old { rows = first_rows object rows.now self.old.rows }) }
    {
        match &mut self.kept {
            Kept::First(values) => set_values(values, object, rows, steps),
            Kept::Under(_, _) => unreachable!(),
        }
    }

    /// Records what a slot was read as, in a world with a parent.
    pub fn set_read<L: Ledger>(
        &mut self,
        slot: Slot,
        read: Content,
        steps: &mut Steps<L>,
    ) -> Result<(), OutOfMemory>
        requires { is_some self.old.above ≡ true }
        ensures ok { OnOk result (self.new ≡ record self.old { rows = map.insert self.old.rows slot (row_read read) }) }
        ensures step { steps.new ≡ steps.old + 1 }
    {
        match &mut self.kept {
            Kept::First(_) => unreachable!(),
            Kept::Under(_, rows) => rows.set_read(slot, read, steps),
        }
    }

    /// Writes a slot of a world with a parent, with the read that is recorded, if one is.
    pub fn set_written<L: Ledger>(
        &mut self,
        slot: Slot,
        read: Option<Content>,
        content: Content,
        steps: &mut Steps<L>,
    ) -> Result<(), OutOfMemory>
        requires { is_some self.old.above ≡ true }
        ensures ok { OnOk result (self.new ≡ record self.old { rows = map.insert self.old.rows slot (row_written read content) }) }
        ensures step { steps.new ≤ steps.old + 1 }
    {
        match &mut self.kept {
            Kept::First(_) => unreachable!(),
            Kept::Under(_, rows) => rows.set_written(slot, read, content, steps),
        }
    }

    /// Writes a slot that has a row in a world with a parent, and says whether it has one. Else all stays as it is, in one
    /// step.
    pub fn rewrite<L: Ledger>(
        &mut self,
        slot: Slot,
        content: Content,
        steps: &mut Steps<L>,
    ) -> Result<bool, OutOfMemory>
        requires { is_some self.old.above ≡ true }
        ensures found { IfOk result (λ found. found ≡ is_some (map.get self.old.rows slot)) }
        ensures ok { OnOk result (self.new ≡ record self.old { rows = rewritten self.old.rows slot content }) }
        ensures steps { steps.new ≤ steps.old + 2 }
        ensures look { IfOk result (λ found. found ≡ false → steps.new ≤ steps.old + 1) }
    {
        match &mut self.kept {
            Kept::First(_) => unreachable!(),
            Kept::Under(_, rows) => rows.rewrite(slot, content, steps),
        }
    }

    /// Marks an object as listed.
    fn close<L: Ledger>(&mut self, object: ObjId, steps: &mut Steps<L>) -> Result<(), OutOfMemory>
        ensures ok { OnOk result (self.new ≡ record self.old { closed = map.insert self.old.closed object tt }) }
        ensures step { steps.new ≡ steps.old + 1 }
    {
        self.closed.insert(object, steps)
    }

    /// Takes all rows out, and unmarks all objects.
    pub fn clear(&mut self, alloc: Global)
        ensures { self.new ≡ cleared self.old }
    {
        self.kept.clear(alloc);
        self.closed = ObjectSet::new(alloc);
    }
}

/// What a world without a row of a slot says of it.
pub enum Look {
    /// The object is listed there.
    Closed,
    /// It is untouched: it holds what the parent holds.
    Untouched(Spot),
    /// It is absent in the first world.
    Nowhere,
}

#[inline(always)]
pub fn look_past<L: Ledger>(layer: &Layer, slot: Slot, steps: &mut Steps<L>) -> Look
    requires { map.get layer.now.rows slot ≡ None }
    ensures seen { Looked layer.now slot result }
    ensures step { steps.new ≤ steps.old + 1 }
{
    match layer.above() {
        None => Look::Nowhere,
        Some(above) => {
            if layer.closed().has(slot.object, steps) {
                Look::Closed
            } else {
                Look::Untouched(above)
            }
        }
    }
}

/// The name of the slot that was passed, if one was.
fn name_of(passed: Option<Slot>) -> Option<Name>
    ensures { result ≡ option_map (λ (s : Slot). s.name) passed }
{
    match passed {
        None => None,
        Some(slot) => Some(slot.name),
    }
}

/// The slot of an entry, if there is one.
fn slot_of(entry: Option<(Slot, Row)>) -> Option<Slot>
    ensures { result ≡ option_map (λ (e : Slot × Row). e.0) entry }
{
    match entry {
        None => None,
        Some((slot, _)) => Some(slot),
    }
}

/// The least row of an object after the slots that were passed.
pub fn next_row<L: Ledger>(
    layer: &Layer,
    object: ObjId,
    passed: Option<Slot>,
    steps: &mut Steps<L>,
) -> Option<Slot>
    requires { IfSome passed (λ (s : Slot). s.object ≡ object) }
    ensures next { IsNextRow layer.now.rows object passed result }
    ensures step { steps.new ≡ steps.old + 1 }
{
    slot_of(layer.next_on(object, name_of(passed), steps))
}

/// Marks an object as listed, in a world with a parent.
pub fn close_layer<L: Ledger>(
    layer: &mut Layer,
    object: ObjId,
    steps: &mut Steps<L>,
) -> Result<(), OutOfMemory>
    ensures ok { OnOk result (layer.new ≡ closed_layer object layer.old) }
    ensures step { steps.new ≤ steps.old + 1 }
{
    match layer.above() {
        None => Ok(()),
        Some(_) => layer.close(object, steps),
    }
}

/// Whether a slot is touched in a world with a parent.
fn is_marked<L: Ledger>(layer: &Layer, slot: Slot, steps: &mut Steps<L>) -> bool
    ensures marked { result ≡ (is_some (map.get layer.now.rows slot) || map.contains_key layer.now.closed slot.object) }
    ensures steps { steps.new ≤ steps.old + 2 }
{
    layer.get(slot, steps).is_some() || layer.closed().has(slot.object, steps)
}

/// Records a child's read, where the slot is untouched, in a world with a parent.
fn hand_read<L: Ledger>(
    layer: &mut Layer,
    slot: Slot,
    row: Row,
    steps: &mut Steps<L>,
) -> Result<(), OutOfMemory>
    requires { is_some layer.old.above ≡ true }
    ensures kept { OnOk result ((layer.new.above ≡ layer.old.above) × ((y : World plain) → Keeps layer.old y → is_some y.parent ≡ true → ((c : Option Value) → read_of row ≡ Some c → map.get y.copy slot ≡ c) → Keeps layer.new (handed y (slot, row)))) }
    ensures steps { steps.new ≤ steps.old + 3 }
{
    match row.read {
        None => Ok(()),
        Some(read) => {
            if is_marked(layer, slot, steps) {
                return Ok(());
            }
            layer.set_read(slot, read, steps)
        }
    }
}

/// Records a child's reads, in a world with a parent.
pub fn hand_reads<L: Ledger>(
    layer: &mut Layer,
    rows: &[(Slot, Row)],
    steps: &mut Steps<L>,
) -> Result<(), OutOfMemory>
    ensures kept { OnOk result ((layer.new.above ≡ layer.old.above) × ((y : World plain) → Keeps layer.old y → ReadsAgree rows.now y → Keeps layer.new (handed_rows rows.now y))) }
    ensures steps { steps.new ≤ steps.old + 3 * length rows.now }
{
    if layer.above().is_none() {
        return Ok(());
    }
    for (slot, row) in rows {
        hand_read(layer, *slot, *row, steps)?;
    }
    Ok(())
}

/// Marks objects as listed, in a world with a parent.
pub fn close_all<L: Ledger>(
    layer: &mut Layer,
    objects: &[ObjId],
    steps: &mut Steps<L>,
) -> Result<(), OutOfMemory>
    ensures kept { OnOk result ((layer.new.above ≡ layer.old.above) × ((y : World plain) → Keeps layer.old y → Keeps layer.new (closed_all objects.now y))) }
    ensures steps { steps.new ≤ steps.old + length objects.now }
{
    for object in objects {
        close_layer(layer, *object, steps)?;
    }
    Ok(())
}
