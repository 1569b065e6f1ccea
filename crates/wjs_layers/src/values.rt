//! What the first world keeps, as contents and rows.
ghost use Rattle.std.specs.Prelude.{◌≡◌, ◌+◌, OnOk};
ghost use Rattle.std.specs.Option.{option_map, option_and_then, option_copied};
ghost use Rattle.wjs_base.specs.declared.values.Content.TheVariants.{Present};
ghost use Rattle.wjs_store.specs.State.{put};
ghost use Rattle.wjs_store.specs.Shown.{content_of};
ghost use Rattle.wjs_layers.specs.Look.{first_row_of};
ghost use Rattle.wjs_layers.specs.Several.{first_rows};
ghost use Rattle.wjs_layers.specs.Shorts.{content_in, row_first, at_first};
ghost use Rattle.wjs_layers.specs.Sparse.{now_of};
ghost use Rattle.wjs_layers.specs.Keyed.{entry_by, rows_by};

use crate::compact::{Mark, ShortContent};
use crate::maps::Row;
use crate::short::short_value;
use std::sync::ledger::Ledger;
use wjs_base::{Content, Name, ObjId, OutOfMemory, Slot, Value};
use wjs_rows::Steps;
use wjs_slots::Table;

/// The row of a slot of the first world.
fn row_of(value: &ShortContent) -> Row
    ensures { result ≡ row_first value.now }
{
    Row {
        read: None,
        now: value.content(),
        written: false,
    }
}

/// What a slot of the first world holds.
#[inline(always)]
pub fn content_with(value: Option<&ShortContent>) -> Content
    ensures { content_of result ≡ option_and_then now_of (option_map row_first (option_copied value.entry)) }
{
    match value {
        None => Content::Absent,
        Some(value) => value.content(),
    }
}

/// What a slot of which something is kept holds.
pub fn held(value: Option<&ShortContent>) -> Option<Content>
    ensures { result ≡ option_map content_in (option_copied value.entry) }
{
    match value {
        None => None,
        Some(value) => Some(value.content()),
    }
}

/// The row of a slot of the first world.
pub fn with_row(value: Option<&ShortContent>) -> Option<Row>
    ensures { result ≡ option_map row_first (option_copied value.entry) }
{
    match value {
        None => None,
        Some(value) => Some(row_of(value)),
    }
}

/// An entry of the first world with its row.
pub fn with_entry(entry: Option<(Slot, ShortContent)>) -> Option<(Slot, Row)>
    ensures { result ≡ option_map (entry_by at_first) entry }
{
    match entry {
        None => None,
        Some((slot, value)) => Some((slot, row_of(&value))),
    }
}

/// Sets a slot of the first world: an absent one is not kept.
#[inline(always)]
pub fn set_value<L: Ledger>(
    values: &mut Table<ShortContent>,
    slot: Slot,
    content: Content,
    steps: &mut Steps<L>,
) -> Result<(), OutOfMemory>
    ensures ok { OnOk result (rows_by at_first values.new ≡ put (rows_by at_first values.old) slot (first_row_of content)) }
    ensures step { steps.new ≡ steps.old + 1 }
{
    match content {
        Content::Absent => values.remove(slot, steps),
        Content::Present(value) => values.set(slot, short_value(value, Mark::Read), steps),
    }
}

/// Sets slots of an object of the first world, one after another.
pub fn set_values<L: Ledger>(
    values: &mut Table<ShortContent>,
    object: ObjId,
    rows: &[(Name, Value)],
    steps: &mut Steps<L>,
) -> Result<(), OutOfMemory>
    ensures { OnOk result (rows_by at_first values.new ≡ first_rows object rows.now (rows_by at_first values.old)) }
{
    match rows {
        [a] => values.set_all(object, &[short_row(*a)], steps),
        [a, b] => values.set_all(object, &[short_row(*a), short_row(*b)], steps),
        [a, b, c] => {
            let shorts = [short_row(*a), short_row(*b), short_row(*c)];
            values.set_all(object, &shorts, steps)
        }
        [a, b, c, d] => {
            let shorts = [short_row(*a), short_row(*b), short_row(*c), short_row(*d)];
            values.set_all(object, &shorts, steps)
        }
        _ => set_each(values, object, rows, steps),
    }
}

/// A name, and its value in short.
#[inline(always)]
fn short_row(row: (Name, Value)) -> (Name, ShortContent)
    ensures name { result.0 ≡ row.0 }
    ensures content { content_in result.1 ≡ Present row.1 }
{
    (row.0, short_value(row.1, Mark::Read))
}

/// `set_values` by one `set_value` after another.
#[inline(never)]
fn set_each<L: Ledger>(
    values: &mut Table<ShortContent>,
    object: ObjId,
    rows: &[(Name, Value)],
    steps: &mut Steps<L>,
) -> Result<(), OutOfMemory>
    ensures { OnOk result (rows_by at_first values.new ≡ first_rows object rows.now (rows_by at_first values.old)) }
{
    values.reserve(object, rows.len())?;
    for row in rows {
        let slot = Slot {
            object,
            name: row.0,
        };
        set_value(values, slot, Content::Present(row.1), steps)?;
    }
    Ok(())
}
