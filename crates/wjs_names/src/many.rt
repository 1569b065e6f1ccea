//! The rows of an object with many, most of them at its first indices.
ghost use Rattle.std.specs.Prelude.{◌≡◌, ◌≤◌, ◌^◌, length, not, cond, true, OnOk, OnErr, IfOk, IsTrue, None};
ghost use Rattle.std.specs.Option.{option_copied};
ghost use Rattle.std.specs.FinMap as map;
ghost use Rattle.std.specs.FinMap.Entries.{find};
ghost use Rattle.std.specs.Map.{lookup_entry};
ghost use Rattle.wjs_base.specs.Order.{name_cmp};
ghost use Rattle.wjs_base.specs.declared.values.Name.{Name};
ghost use Rattle.wjs_base.specs.declared.values.Name.TheVariants.{Index};
ghost use Rattle.wjs_rows.specs.Order.{is_from, is_after};
ghost use Rattle.wjs_names.specs.Dense.{index_in, dense_value};
ghost use Rattle.wjs_names.specs.Least.{IsLeast};
ghost use Rattle.wjs_names.specs.Lists.{IsInOrder};

use crate::held::Held;
use crate::short_name::ShortName;
use crate::tree;
use std::alloc::Global;
use std::collections::BTreeMap;
use std::marker::Model;
use wjs_base::{Name, OutOfMemory};

/// Rows by name. Those at the first indices stand at these, with None where there is no row, so that
/// they are found without a search, and the names in the tree stay few.
#[derive(Drop)]
pub(crate) struct Many<V> {
    dense: Held<V>,
    /// How many of the first indices have no row. Only where new rows go depends on it.
    holes: usize,
    rest: BTreeMap<Name, V>,
}

impl<V> Model for Many<V> {
    ghost use Rattle.std.specs.Prelude.{◌++◌, length};
    ghost use Rattle.std.specs.FinMap as map;
    ghost use Rattle.wjs_base.specs.Order.{name_cmp};
    ghost use Rattle.wjs_names.specs.Codes.{coded_name};
    ghost use Rattle.wjs_names.specs.Dense.{dense_rows, IsBeside};

    ghost Value = { map.FinMap name_cmp V };

    ghost coded = { map.code coded_name V.code };

    ghost view = { λ m. map.from_entries (dense_rows 0 m.dense ++ m.rest.entries) };

    ghost invariant = { λ m. IsBeside (length m.dense) m.rest.entries };
}

impl<V: Copy> Many<V> {
    /// No rows.
    pub(crate) fn new(alloc: Global) -> Many<V>
        ensures { result ≡ map.empty }
    {
        Many {
            dense: Held::new(alloc),
            holes: 0,
            rest: BTreeMap::new(alloc),
        }
    }

    /// The rows of a list: those at 0, 1, 2, .. that it begins with at these indices.
    pub(crate) fn of_list(few: &[(ShortName, V)], alloc: Global) -> Result<Many<V>, OutOfMemory>
        requires { IsInOrder name_cmp few.now }
        ensures { IfOk result (λ many. map.entries many ≡ few.now) }
    {
        let mut many = Many::new(alloc);
        for place in 0..few.len() {
            let row = few[place];
            many.set(row.0.name(), row.1)?;
        }
        Ok(many)
    }

    /// The value at a name.
    #[inline(always)]
    pub(crate) fn get(&self, name: Name) -> Option<&V>
        ensures { option_copied result ≡ map.get self.now name }
    {
        match place_in(self.dense.len(), name) {
            Some(place) => self.dense.value(place),
            None => tree::get(&self.rest, &name),
        }
    }

    /// Puts a value at a name that is there at one of the first indices, and says whether it is:
    /// elsewhere all stays as it is.
    #[inline(always)]
    pub(crate) fn replace(&mut self, name: Name, value: V) -> bool
        ensures found { IsTrue result → map.contains_key self.old name ≡ true }
        ensures replaced { self.new ≡ cond result (map.insert self.old name value) self.old }
    {
        match place_in(self.dense.len(), name) {
            Some(place) => self.dense.replace(place, value),
            None => false,
        }
    }

    /// Puts a value at a name, and says whether the name is new. After a refusal all is as it was.
    pub(crate) fn set(&mut self, name: Name, value: V) -> Result<bool, OutOfMemory>
        ensures ok { OnOk result (self.new ≡ map.insert self.old name value) }
        ensures added { IfOk result (λ added. added ≡ not (map.contains_key self.old name)) }
        ensures err { OnErr result (self.new ≡ self.old) }
    {
        match place_in(self.dense.len(), name) {
            Some(place) => {
                let added = self.dense.set(place, value)?;
                self.holes = self.holes.saturating_sub(added as usize);
                Ok(added)
            }
            None => {
                if !self.is_hollow() && goes_next(self.dense.len(), &self.rest, name) {
                    return self.dense.push(value);
                }
                tree::set(&mut self.rest, name, value)
            }
        }
    }

    /// Takes the row at a name out, and says whether there was one. After a refusal all is as it was.
    pub(crate) fn remove(&mut self, name: Name) -> Result<bool, OutOfMemory>
        ensures removed { OnOk result (self.new ≡ map.remove self.old name) }
        ensures found { IfOk result (λ found. found ≡ map.contains_key self.old name) }
        ensures err { OnErr result (self.new ≡ self.old) }
    {
        match place_in(self.dense.len(), name) {
            Some(place) => {
                let count = self.dense.len();
                let found = self.dense.take(place)?;
                let holes = self.holes.saturating_add(found as usize);
                self.holes = holes.saturating_sub(count - self.dense.len());
                Ok(found)
            }
            None => Ok(tree::remove(&mut self.rest, &name)),
        }
    }

    /// Whether more than half of the first indices have no row, as where a queue is pushed at its end
    /// and deleted from its front. Further rows go to the tree then, so that these indices are never
    /// more than twice the rows that were there at once.
    fn is_hollow(&self) -> bool {
        self.holes > self.dense.len() / 2
    }

    /// The least row at or after a name.
    pub(crate) fn next_from(&self, name: Name) -> Option<(Name, V)>
        ensures { result ≡ lookup_entry (is_from name_cmp name) (map.entries self.now) }
    {
        match dense_from(&self.dense, name) {
            Some(row) => Some(row),
            None => tree::next_from(&self.rest, &name),
        }
    }

    /// The least row after a name.
    pub(crate) fn next_after(&self, name: Name) -> Option<(Name, V)>
        ensures { result ≡ lookup_entry (is_after name_cmp name) (map.entries self.now) }
    {
        match dense_after(&self.dense, name) {
            Some(row) => Some(row),
            None => tree::next_after(&self.rest, &name),
        }
    }
}

/// The place of a name among the first indices; None where it is none of these.
#[inline(always)]
fn place_in(count: usize, name: Name) -> Option<usize>
    ensures { result ≡ index_in count name }
{
    match name {
        Name::Index(index) if (index as usize) < count => Some(index as usize),
        _ => None,
    }
}

/// Whether a name is the index past the first ones, with no row among the others.
fn goes_next<V: Copy>(count: usize, rest: &BTreeMap<Name, V>, name: Name) -> bool
    ensures next { IsTrue result → name ≡ Index count }
    ensures none { IsTrue result → find name_cmp name rest.now.entries ≡ None }
{
    match name {
        Name::Index(index) if index as usize == count => tree::get(rest, &name).is_none(),
        _ => false,
    }
}

/// The least row at the first indices that is at or after a name.
fn dense_from<V: Copy>(dense: &Held<V>, name: Name) -> Option<(Name, V)>
    requires { length dense.now ≤ 2 ^ 32 }
    ensures { IsLeast name_cmp (dense_value dense.now) (is_from name_cmp name) result }
{
    match name {
        Name::Index(index) => dense.first_from(index as usize),
        Name::Text(_) => None,
    }
}

/// The least row at the first indices that is after a name.
fn dense_after<V: Copy>(dense: &Held<V>, name: Name) -> Option<(Name, V)>
    requires { length dense.now ≤ 2 ^ 32 }
    ensures { IsLeast name_cmp (dense_value dense.now) (is_after name_cmp name) result }
{
    match name {
        Name::Index(index) => dense.first_from(index as usize + 1),
        Name::Text(_) => None,
    }
}
