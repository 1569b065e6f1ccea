//! The rows of one object.
ghost use Rattle.std.specs.Prelude.{◌≡◌, ◌+◌, not, length, OnOk, OnErr, IfOk, IsTrue, false};
ghost use Rattle.std.specs.Option.{option_copied};
ghost use Rattle.std.specs.FinMap as map;
ghost use Rattle.std.specs.Map.{lookup_entry};
ghost use Rattle.wjs_base.specs.Order.{name_cmp};
ghost use Rattle.wjs_rows.specs.Order.{is_from, is_after};
ghost use Rattle.wjs_names.specs.Least.{comes_past};
ghost use Rattle.wjs_names.specs.Several.{with_rows};

use crate::kept::Kept;
use std::alloc::Global;
use std::marker::Model;
use wjs_base::{Name, OutOfMemory};

/// The rows of one object by their names. An object without rows takes no memory of its own.
#[derive(Drop)]
pub struct RowsByName<V> {
    kept: Kept<V>,
}

impl<V> Model for RowsByName<V> {
    ghost use Rattle.std.specs.FinMap as map;
    ghost use Rattle.wjs_base.specs.Order.{name_cmp};
    ghost use Rattle.wjs_names.specs.Codes.{coded_name};
    ghost use Rattle.wjs_names.specs.Lists.{IsInOrder};

    ghost Value = { map.FinMap name_cmp V };

    ghost coded = { map.code coded_name V.code };

    ghost use Rattle.wjs_names.specs.Kept.{rows_of};

    ghost view = { λ n. map.from_sorted (rows_of n.kept) };

    ghost invariant = { λ n. IsInOrder name_cmp (rows_of n.kept) };
}

impl<V: Copy> RowsByName<V> {
    /// No rows.
    pub fn new() -> RowsByName<V>
        ensures { result ≡ map.empty }
    {
        RowsByName { kept: Kept::Zero }
    }

    /// The value at a name.
    #[inline(always)]
    pub fn get(&self, name: Name) -> Option<&V>
        ensures { option_copied result ≡ map.get self.now name }
    {
        self.kept.get(name)
    }

    /// Takes room for so many rows where there are none, if they are to stand in a list.
    pub fn reserve(&mut self, count: usize, alloc: Global) -> Result<(), OutOfMemory>
        ensures { self.new ≡ self.old }
    {
        self.kept.reserve(count, alloc)
    }

    /// Puts a value at a name, and says whether the name is new. After a refusal all is as it was.
    #[inline(always)]
    pub fn set(&mut self, name: Name, value: V, alloc: Global) -> Result<bool, OutOfMemory>
        ensures ok { OnOk result (self.new ≡ map.insert self.old name value) }
        ensures added { IfOk result (λ added. added ≡ not (map.contains_key self.old name)) }
        ensures err { OnErr result (self.new ≡ self.old) }
    {
        self.kept.set(name, value, alloc)
    }

    /// Puts rows where there are none, and says whether it did: elsewhere all stays as it is, and so where they are more than
    /// stand in the object's place, or two of them have one name.
    #[inline(always)]
    pub fn fill(&mut self, rows: &[(Name, V)]) -> bool
        ensures filled { IsTrue result → self.new ≡ with_rows rows.now self.old }
        ensures len { IsTrue result → map.len self.new ≡ map.len self.old + length rows.now }
        ensures same { result ≡ false → self.new ≡ self.old }
    {
        self.kept.fill(rows)
    }

    /// Takes the row at a name out, and says whether there was one. After a refusal all is as it was.
    pub fn remove(&mut self, name: Name) -> Result<bool, OutOfMemory>
        ensures removed { OnOk result (self.new ≡ map.remove self.old name) }
        ensures found { IfOk result (λ found. found ≡ map.contains_key self.old name) }
        ensures err { OnErr result (self.new ≡ self.old) }
    {
        self.kept.remove(name)
    }

    /// The least row at or after a name.
    pub fn next_from(&self, name: Name) -> Option<(Name, V)>
        ensures { result ≡ lookup_entry (is_from name_cmp name) (map.entries self.now) }
    {
        self.kept.next_from(name)
    }

    /// The least row after a name.
    pub fn next_after(&self, name: Name) -> Option<(Name, V)>
        ensures { result ≡ lookup_entry (is_after name_cmp name) (map.entries self.now) }
    {
        self.kept.next_after(name)
    }

    /// The first row after the name that was passed, or the first of all.
    pub fn next_past(&self, passed: Option<Name>) -> Option<(Name, V)>
        ensures { result ≡ lookup_entry (comes_past passed) (map.entries self.now) }
    {
        match passed {
            None => self.next_from(Name::Index(0)),
            Some(name) => self.next_after(name),
        }
    }
}
