//! The rows of an object in a list, in the order of names.
ghost use Rattle.std.specs.Prelude.{◌≡◌, not, ◌++◌, ◌∷◌, [], is_some, OnOk, OnErr, IfOk, IfSome, MatchOption, None, Some, Ok, Err, IsTrue, length, cond};
ghost use Rattle.std.specs.Prelude.{true, false, drop, slice_get, ◌≤◌};
ghost use Rattle.std.specs.Ordering.{is_gt, is_eq};
ghost use Rattle.wjs_base.specs.declared.values.Name.{Name};
ghost use Rattle.wjs_base.specs.declared.values.Name.TheVariants.{Text};
ghost use Rattle.std.specs.Option.{option_copied};
ghost use Rattle.std.specs.FinMap.Entries.{put, find};
ghost use Rattle.std.specs.Map.{lookup_entry};
ghost use Rattle.wjs_base.specs.Order.{name_cmp};
ghost use Rattle.wjs_rows.specs.Order.{is_from, is_after};
ghost use Rattle.wjs_names.specs.Lists.{IsInOrder, seek, without};

use crate::short_name::ShortName;
use wjs_base::{Name, OutOfMemory, TextId};

/// Up to how many rows a list is gone through row by row: a longer one is halved instead.
const SHORT_LIST: usize = 12;

/// Where a name stands, or would stand where it isn't there.
#[inline(always)]
fn seek<V: Copy>(few: &[(ShortName, V)], name: Name) -> Result<usize, usize>
    requires { IsInOrder name_cmp few.now }
    ensures { result ≡ seek name_cmp name 0 few.now }
{
    let place = first_from(few, name);
    if is_at(few, place, name) {
        Ok(place)
    } else {
        Err(place)
    }
}

/// The place of the first name that isn't less than a name, found by halving.
#[inline(always)]
fn first_from<V: Copy>(few: &[(ShortName, V)], name: Name) -> usize
    requires { IsInOrder name_cmp few.now }
    ensures within { result ≤ length few.now }
    ensures before { seek name_cmp name 0 few.now ≡ seek name_cmp name result (drop result few.now) }
    ensures after { (row : Name × V) → slice_get few.now result ≡ Some row → is_gt (name_cmp name row.0) ≡ false }
{
    let mut low = 0;
    let mut high = few.len();
    while low < high {
        let middle = low + (high - low) / 2;
        if few[middle].0.is_before(name) {
            low = middle + 1;
        } else {
            high = middle;
        }
    }
    low
}

/// Whether a name comes after all that are there, as most new names do.
fn goes_last<V: Copy>(few: &[(ShortName, V)], name: Name) -> bool
    requires { IsInOrder name_cmp few.now }
    ensures { IsTrue result → seek name_cmp name 0 few.now ≡ Err (length few.now) }
{
    let count = few.len();
    count == 0 || few[count - 1].0.is_before(name)
}

/// Where a name stands; None where it isn't there.
#[inline(always)]
fn place_of<V: Copy>(few: &[(ShortName, V)], name: Name) -> Option<usize>
    requires { IsInOrder name_cmp few.now }
    ensures { MatchOption result (find name_cmp name few.now ≡ None) (λ place. Ok place ≡ seek name_cmp name 0 few.now) }
{
    match name {
        Name::Text(text) if few.len() <= SHORT_LIST => place_of_text(few, text),
        Name::Text(text) => seek_text(few, text),
        Name::Index(index) if is_at(few, index as usize, name) => Some(index as usize),
        Name::Index(_) => seek_name(few, name),
    }
}

/// `place_of` by halving.
#[inline(never)]
fn seek_name<V: Copy>(few: &[(ShortName, V)], name: Name) -> Option<usize>
    requires { IsInOrder name_cmp few.now }
    ensures { MatchOption result (find name_cmp name few.now ≡ None) (λ place. Ok place ≡ seek name_cmp name 0 few.now) }
{
    match seek(few, name) {
        Ok(place) => Some(place),
        Err(_) => None,
    }
}

/// `seek_name` of a text: of which kind a name is need not be asked at each halving.
#[inline(never)]
fn seek_text<V: Copy>(few: &[(ShortName, V)], text: TextId) -> Option<usize>
    requires { IsInOrder name_cmp few.now }
    ensures { MatchOption result (find name_cmp (Text text) few.now ≡ None) (λ place. Ok place ≡ seek name_cmp (Text text) 0 few.now) }
{
    match seek(few, Name::Text(text)) {
        Ok(place) => Some(place),
        Err(_) => None,
    }
}

/// Whether a name stands at a place, as an index does in an array without holes.
#[inline(always)]
fn is_at<V: Copy>(few: &[(ShortName, V)], place: usize, name: Name) -> bool
    requires { IsInOrder name_cmp few.now }
    ensures here { IsTrue result → Ok place ≡ seek name_cmp name 0 few.now }
    ensures other { result ≡ false → (row : Name × V) → slice_get few.now place ≡ Some row → is_eq (name_cmp name row.0) ≡ false }
{
    match few.get(place) {
        None => false,
        Some(row) => row.0.is_named(name),
    }
}

/// Where a text stands; None where it isn't there.
fn place_of_text<V: Copy>(few: &[(ShortName, V)], text: TextId) -> Option<usize>
    requires { IsInOrder name_cmp few.now }
    ensures { MatchOption result (find name_cmp (Text text) few.now ≡ None) (λ place. Ok place ≡ seek name_cmp (Text text) 0 few.now) }
{
    for (place, row) in few.iter().enumerate() {
        if row.0.has(text) {
            return Some(place);
        }
    }
    None
}

/// The value at a name.
#[inline(always)]
pub(crate) fn get<V: Copy>(few: &[(ShortName, V)], name: Name) -> Option<&V>
    requires { IsInOrder name_cmp few.now }
    ensures { option_copied result ≡ find name_cmp name few.now }
{
    match place_of(few, name) {
        Some(place) => Some(&few[place].1),
        None => None,
    }
}

/// Puts a value at a name that is there, and says whether it is: elsewhere the list stays as it is.
#[inline(always)]
pub(crate) fn replace<V: Copy>(few: &mut [(ShortName, V)], name: Name, value: V) -> bool
    requires { IsInOrder name_cmp few.old }
    ensures found { result ≡ is_some (find name_cmp name few.old) }
    ensures replaced { few.new ≡ cond result (put name_cmp name value few.old) few.old }
{
    if goes_last(few, name) {
        return false;
    }
    match place_of(few, name) {
        Some(place) => {
            let row = few[place];
            few[place] = (row.0, value);
            true
        }
        None => false,
    }
}

/// Puts a value at a name, and says whether the name is new. After a refusal the list is as it was.
pub(crate) fn set<V: Copy>(
    few: &mut Vec<(ShortName, V)>,
    name: Name,
    value: V,
) -> Result<bool, OutOfMemory>
    requires { IsInOrder name_cmp few.old.items }
    ensures ok { OnOk result (few.new.items ≡ put name_cmp name value few.old.items) }
    ensures added { IfOk result (λ added. added ≡ not (is_some (find name_cmp name few.old.items))) }
    ensures err { OnErr result (few.new.items ≡ few.old.items) }
{
    let Some(row) = row_of(name, value) else {
        return Err(OutOfMemory);
    };
    put_row(few, row)
}

/// `set` of a row with its name in short.
pub(crate) fn put_row<V: Copy>(
    few: &mut Vec<(ShortName, V)>,
    row: (ShortName, V),
) -> Result<bool, OutOfMemory>
    requires { IsInOrder name_cmp few.old.items }
    ensures ok { OnOk result (few.new.items ≡ put name_cmp row.0 row.1 few.old.items) }
    ensures added { IfOk result (λ added. added ≡ not (is_some (find name_cmp row.0 few.old.items))) }
    ensures err { OnErr result (few.new.items ≡ few.old.items) }
{
    let name = row.0.name();
    if goes_last(few, name) {
        return push(few, row);
    }
    match seek(few, name) {
        Ok(place) => {
            few[place] = row;
            Ok(false)
        }
        Err(place) => {
            few.insert(place, row)?;
            Ok(true)
        }
    }
}

/// A row of this name, where that can be kept in short.
#[inline(always)]
pub(crate) fn row_of<V: Copy>(name: Name, value: V) -> Option<(ShortName, V)>
    ensures { IfSome result (λ row. row ≡ (name, value)) }
{
    match ShortName::new(name) {
        None => None,
        Some(short) => Some((short, value)),
    }
}

/// A row with its name in full.
pub(crate) fn named<V: Copy>(row: Option<(ShortName, V)>) -> Option<(Name, V)>
    ensures { result ≡ row }
{
    match row {
        None => None,
        Some((short, value)) => Some((short.name(), value)),
    }
}

/// Puts a row last. After a refusal the list is as it was.
fn push<V: Copy>(few: &mut Vec<(ShortName, V)>, row: (ShortName, V)) -> Result<bool, OutOfMemory>
    ensures ok { OnOk result (few.new.items ≡ few.old.items ++ row ∷ []) }
    ensures added { IfOk result (λ added. added ≡ true) }
    ensures err { OnErr result (few.new.items ≡ few.old.items) }
{
    few.push(row)?;
    Ok(true)
}

/// Takes the row at a name out, and says whether there was one.
pub(crate) fn remove<V: Copy>(few: &mut Vec<(ShortName, V)>, name: Name) -> bool
    requires { IsInOrder name_cmp few.old.items }
    ensures removed { few.new.items ≡ without name_cmp name few.old.items }
    ensures found { result ≡ is_some (find name_cmp name few.old.items) }
{
    match seek(few, name) {
        Ok(place) => {
            let _ = few.remove(place);
            true
        }
        Err(_) => false,
    }
}

/// The first row at or after a name.
pub(crate) fn next_from<V: Copy>(few: &[(ShortName, V)], name: Name) -> Option<(Name, V)>
    requires { IsInOrder name_cmp few.now }
    ensures { result ≡ lookup_entry (is_from name_cmp name) few.now }
{
    match seek(few, name) {
        Ok(place) => named(few.get(place).copied()),
        Err(place) => named(few.get(place).copied()),
    }
}

/// The first row after a name.
pub(crate) fn next_after<V: Copy>(few: &[(ShortName, V)], name: Name) -> Option<(Name, V)>
    requires { IsInOrder name_cmp few.now }
    ensures { result ≡ lookup_entry (is_after name_cmp name) few.now }
{
    match seek(few, name) {
        Ok(place) => named(few.get(place + 1).copied()),
        Err(place) => named(few.get(place).copied()),
    }
}
