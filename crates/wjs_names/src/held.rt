//! The rows at an object's first indices, with holes where there is none.
ghost use Rattle.std.specs.Prelude.{◌≡◌, ◌+◌, ◌-◌, ◌<◌, ◌≤◌, ◌^◌, ◌++◌, ◌∷◌, [], length, set, not, cond, is_some, true, false, OnOk, OnErr, IfOk, IsTrue};
ghost use Rattle.std.specs.Prelude.{None, Some};
ghost use Rattle.std.specs.FinMap.Entries.{put};
ghost use Rattle.std.specs.Option.{option_copied, option_map};
ghost use Rattle.std.specs.Ordering.{nat_cmp};
ghost use Rattle.wjs_base.specs.declared.values.Name.{Name};
ghost use Rattle.wjs_base.specs.declared.values.Name.TheVariants.{Index};
ghost use Rattle.wjs_base.specs.Order.{name_cmp};
ghost use Rattle.wjs_rows.specs.Order.{is_from};
ghost use Rattle.wjs_names.specs.Dense.{dense_value};
ghost use Rattle.wjs_names.specs.Least.{IsLeast};
ghost use Rattle.wjs_names.specs.Starts.{IsOpen, IsPassed, IsStarts, stands};

use crate::tree;
use std::alloc::Global;
use std::collections::BTreeMap;
use std::marker::Model;
use wjs_base::{Name, OutOfMemory};

/// Rows by index from 0 on, seen as a list, with None where there is none.
///
/// The indices behind a hole are known, so the next row is found without a look at the holes before it.
#[derive(Drop)]
pub(crate) struct Held<V> {
    list: Vec<Option<V>>,
    /// The index of each row that stands right behind a hole, and maybe of others.
    starts: BTreeMap<usize, ()>,
}

impl<V> Model for Held<V> {
    ghost use Rattle.std.specs.Prelude.{List, Option};
    ghost use Rattle.wjs_names.specs.Starts.{IsStarts};

    ghost Value = { List (Option V) };

    ghost view = { λ h. h.list.items };

    ghost invariant = { λ h. IsStarts h.list.items h.starts.entries };
}

impl<V: Copy> Held<V> {
    /// No rows.
    pub(crate) fn new(alloc: Global) -> Held<V>
        ensures { result ≡ [] }
    {
        Held {
            list: Vec::new(alloc),
            starts: BTreeMap::new(alloc),
        }
    }

    /// How many indices there are, holes too.
    #[inline(always)]
    pub(crate) fn len(&self) -> usize
        ensures { result ≡ length self.now }
    {
        self.list.len()
    }

    /// The value at an index.
    #[inline(always)]
    pub(crate) fn value(&self, place: usize) -> Option<&V>
        requires { place < length self.now }
        ensures { option_copied result ≡ dense_value self.now (Index place) }
    {
        self.list[place].as_ref()
    }

    /// Puts a value at an index where there is a row, and says whether there is one: a hole stays.
    #[inline(always)]
    pub(crate) fn replace(&mut self, place: usize, value: V) -> bool
        requires { place < length self.old }
        ensures found { result ≡ is_some (dense_value self.old (Index place)) }
        ensures replaced { self.new ≡ cond result (set self.old place (Some value)) self.old }
    {
        if self.list[place].is_none() {
            return false;
        }
        self.list[place] = Some(value);
        true
    }

    /// Puts a value at an index, and says whether there was a hole. After a refusal all is as it was.
    pub(crate) fn set(&mut self, place: usize, value: V) -> Result<bool, OutOfMemory>
        requires { place < length self.old }
        ensures ok { OnOk result (self.new ≡ set self.old place (Some value)) }
        ensures added { IfOk result (λ added. added ≡ not (is_some (dense_value self.old (Index place)))) }
        ensures err { OnErr result (self.new ≡ self.old) }
    {
        let added = self.list[place].is_none();
        ready_for_row(self.list.as_slice(), &mut self.starts, place)?;
        self.list[place] = Some(value);
        Ok(added)
    }

    /// Puts a value at the next index. After a refusal all is as it was.
    pub(crate) fn push(&mut self, value: V) -> Result<bool, OutOfMemory>
        ensures ok { OnOk result (self.new ≡ self.old ++ Some value ∷ []) }
        ensures added { IfOk result (λ added. added ≡ true) }
        ensures err { OnErr result (self.new ≡ self.old) }
    {
        let place = self.list.len();
        ready_for_row(self.list.as_slice(), &mut self.starts, place)?;
        append(&mut self.list, value)
    }

    /// Makes a hole at an index, and says whether there was a row. Holes at the end go. After a refusal all is as it was.
    pub(crate) fn take(&mut self, place: usize) -> Result<bool, OutOfMemory>
        requires { place < length self.old }
        ensures values { OnOk result ((name : Name) → dense_value self.new name ≡ dense_value (set self.old place None) name) }
        ensures found { IfOk result (λ found. found ≡ is_some (dense_value self.old (Index place))) }
        ensures len { length self.new ≤ length self.old }
        ensures err { OnErr result (self.new ≡ self.old) }
    {
        let found = self.list[place].is_some();
        ready_for_hole(self.list.as_slice(), &mut self.starts, place)?;
        let _ = tree::remove(&mut self.starts, &place);
        self.list[place] = None;
        trim(&mut self.list);
        Ok(found)
    }

    /// The least row from an index on: the one there, or else the one behind the holes that begin there.
    pub(crate) fn first_from(&self, start: usize) -> Option<(Name, V)>
        requires { length self.now ≤ 2 ^ 32 }
        ensures { IsLeast name_cmp (dense_value self.now) (is_from name_cmp (Index start)) result }
    {
        match row_at(self.list.as_slice(), start) {
            Some(row) => Some(row),
            None => match tree::next_after(&self.starts, &start) {
                None => None,
                Some((place, _)) => row_at(self.list.as_slice(), place),
            },
        }
    }
}

/// Puts a value behind all that are there. After a refusal the list is as it was.
fn append<V: Copy>(list: &mut Vec<Option<V>>, value: V) -> Result<bool, OutOfMemory>
    ensures ok { OnOk result (list.new.items ≡ list.old.items ++ Some value ∷ []) }
    ensures added { IfOk result (λ added. added ≡ true) }
    ensures err { OnErr result (list.new.items ≡ list.old.items) }
{
    list.push(Some(value))?;
    Ok(true)
}

/// The row at an index.
fn row_at<V: Copy>(list: &[Option<V>], place: usize) -> Option<(Name, V)>
    requires { length list.now ≤ 2 ^ 32 }
    ensures { result ≡ option_map (λ value. (Index place, value)) (dense_value list.now (Index place)) }
{
    if place >= list.len() {
        return None;
    }
    match list[place] {
        None => None,
        Some(value) => Some((Name::Index(place as u32), value)),
    }
}

/// Whether there is a row at an index.
fn stands_at<V: Copy>(list: &[Option<V>], place: usize) -> bool
    ensures { result ≡ stands list.now place }
{
    place < list.len() && list[place].is_some()
}

/// Whether there is no hole before an index.
fn follows_row<V: Copy>(list: &[Option<V>], place: usize) -> bool
    ensures { IsTrue result → 0 < place → stands list.now (place - 1) ≡ true }
{
    place == 0 || stands_at(list, place - 1)
}

/// Gets ready for a row at an index: where there is a hole before it, it is one of the starts. After a refusal all is as it was.
fn ready_for_row<V: Copy>(
    list: &[Option<V>],
    starts: &mut BTreeMap<usize, ()>,
    place: usize,
) -> Result<(), OutOfMemory>
    requires { IsStarts list.now starts.old.entries }
    ensures ok { OnOk result (IsOpen list.now place starts.new.entries) }
    ensures err { OnErr result (starts.new.entries ≡ starts.old.entries) }
{
    if follows_row(list, place) {
        return Ok(());
    }
    start(starts, place)
}

/// Makes an index one of the starts. After a refusal all is as it was.
fn start(starts: &mut BTreeMap<usize, ()>, place: usize) -> Result<(), OutOfMemory>
    ensures ok { OnOk result (starts.new.entries ≡ put nat_cmp place tt starts.old.entries) }
    ensures err { OnErr result (starts.new.entries ≡ starts.old.entries) }
{
    tree::set(starts, place, ())?;
    Ok(())
}

/// Gets ready for a hole at an index: where there is a row behind it, that is one of the starts. After a refusal all is as it was.
fn ready_for_hole<V: Copy>(
    list: &[Option<V>],
    starts: &mut BTreeMap<usize, ()>,
    place: usize,
) -> Result<(), OutOfMemory>
    requires starts { IsStarts list.now starts.old.entries }
    requires within { place < length list.now }
    ensures ok { OnOk result (IsPassed list.now place starts.new.entries) }
    ensures err { OnErr result (starts.new.entries ≡ starts.old.entries) }
{
    let next = place + 1;
    if stands_at(list, next) {
        return start(starts, next);
    }
    Ok(())
}

/// Takes holes off the end.
fn trim<V: Copy>(dense: &mut Vec<Option<V>>)
    ensures values { (name : Name) → dense_value dense.new.items name ≡ dense_value dense.old.items name }
    ensures len { length dense.new.items ≤ length dense.old.items }
{
    while ends_in_hole(dense) {
        let _ = dense.pop();
    }
}

/// Whether the last place is a hole.
fn ends_in_hole<V: Copy>(dense: &[Option<V>]) -> bool
    ensures some { IsTrue result → 0 < length dense.now }
    ensures hole { IsTrue result → dense_value dense.now (Index (length dense.now - 1)) ≡ None }
{
    let count = dense.len();
    count > 0 && dense[count - 1].is_none()
}
