//! Four rows in the order of names.
ghost use Rattle.std.specs.Prelude.{◌≡◌, ◌∷◌, [], cond, is_some, true, IfSome, IsTrue, MatchOption, None};
ghost use Rattle.std.specs.FinMap.Entries.{put, find};
ghost use Rattle.std.specs.Map.{lookup_entry};
ghost use Rattle.std.specs.Option.{option_copied};
ghost use Rattle.wjs_base.specs.Order.{name_cmp};
ghost use Rattle.wjs_rows.specs.Order as order;
ghost use Rattle.wjs_names.specs.Four.{rows_of_four};
ghost use Rattle.wjs_names.specs.Kept.{short_rows};
ghost use Rattle.wjs_names.specs.Lists.{IsInOrder, without};

use crate::short::{Short, row_after, row_from};
use crate::short_name::ShortName;
use crate::tiny_name::{TinyName, rank_for};
use wjs_base::Name;

/// Four of a kind.
#[derive(Clone, Copy)]
pub(crate) struct Quad<T> {
    pub(crate) first: T,
    pub(crate) second: T,
    pub(crate) third: T,
    pub(crate) fourth: T,
}

/// Four rows whose names are tiny, so that they take no more room than three of other names. The arguments of a call with two
/// values, arrays of three elements, and most scopes of four names and objects of four properties have such rows.
#[derive(Clone, Copy)]
pub(crate) struct Four<V> {
    names: Quad<TinyName>,
    values: Quad<V>,
}

impl<V: Copy> Four<V> {
    /// Three rows in order with one more, whose name none has; None where the number of a name is too great.
    pub(crate) fn new(
        first: (ShortName, V),
        second: (ShortName, V),
        third: (ShortName, V),
        row: (ShortName, V),
    ) -> Option<Four<V>>
        requires ordered { IsInOrder name_cmp (first ∷ second ∷ third ∷ []) }
        requires none { find name_cmp row.0 (first ∷ second ∷ third ∷ []) ≡ None }
        ensures { IfSome result (λ four. rows_of_four four ≡ put name_cmp row.0 row.1 (first ∷ second ∷ third ∷ [])) }
    {
        if third.0.is_before(row.0.name()) {
            return Four::of_rows(first, second, third, row);
        }
        if second.0.is_before(row.0.name()) {
            return Four::of_rows(first, second, row, third);
        }
        if first.0.is_before(row.0.name()) {
            return Four::of_rows(first, row, second, third);
        }
        Four::of_rows(row, first, second, third)
    }

    /// Four rows with tiny names.
    pub(crate) fn of_rows(
        first: (ShortName, V),
        second: (ShortName, V),
        third: (ShortName, V),
        fourth: (ShortName, V),
    ) -> Option<Four<V>>
        ensures { IfSome result (λ four. rows_of_four four ≡ first ∷ second ∷ third ∷ fourth ∷ []) }
    {
        let first_name = TinyName::new(first.0)?;
        let second_name = TinyName::new(second.0)?;
        let third_name = TinyName::new(third.0)?;
        let fourth_name = TinyName::new(fourth.0)?;
        let names = Quad {
            first: first_name,
            second: second_name,
            third: third_name,
            fourth: fourth_name,
        };
        let values = Quad {
            first: first.1,
            second: second.1,
            third: third.1,
            fourth: fourth.1,
        };
        Some(Four { names, values })
    }

    /// The rows, with names in short.
    #[inline(always)]
    pub(crate) fn rows(&self) -> Quad<(ShortName, V)>
        ensures { result.first ∷ result.second ∷ result.third ∷ result.fourth ∷ [] ≡ rows_of_four self.now }
    {
        Quad {
            first: (self.names.first.short(), self.values.first),
            second: (self.names.second.short(), self.values.second),
            third: (self.names.third.short(), self.values.third),
            fourth: (self.names.fourth.short(), self.values.fourth),
        }
    }

    /// The value at a name.
    pub(crate) fn get(&self, name: Name) -> Option<&V>
        ensures { option_copied result ≡ find name_cmp name (rows_of_four self.now) }
    {
        let rank = rank_for(name);
        if self.names.first.has_rank(rank) {
            return Some(&self.values.first);
        }
        if self.names.second.has_rank(rank) {
            return Some(&self.values.second);
        }
        if self.names.third.has_rank(rank) {
            return Some(&self.values.third);
        }
        if self.names.fourth.has_rank(rank) {
            return Some(&self.values.fourth);
        }
        None
    }

    /// Puts a value at a name that is there, and says whether it is: elsewhere all stays as it is.
    pub(crate) fn replace(&mut self, name: Name, value: V) -> bool
        requires { IsInOrder name_cmp (rows_of_four self.old) }
        ensures found { IsTrue result → is_some (find name_cmp name (rows_of_four self.old)) ≡ true }
        ensures replaced { rows_of_four self.new ≡ cond result (put name_cmp name value (rows_of_four self.old)) (rows_of_four self.old) }
    {
        let rank = rank_for(name);
        if self.names.first.has_rank(rank) {
            self.values.first = value;
            return true;
        }
        if self.names.second.has_rank(rank) {
            self.values.second = value;
            return true;
        }
        if self.names.third.has_rank(rank) {
            self.values.third = value;
            return true;
        }
        if self.names.fourth.has_rank(rank) {
            self.values.fourth = value;
            return true;
        }
        false
    }

    /// The rows without the one of this name; None where none has it.
    pub(crate) fn without(&self, name: Name) -> Option<Short<V>>
        requires { IsInOrder name_cmp (rows_of_four self.now) }
        ensures { MatchOption result (find name_cmp name (rows_of_four self.now) ≡ None)
            (λ short. (short_rows short ≡ without name_cmp name (rows_of_four self.now)) × (is_some (find name_cmp name (rows_of_four self.now)) ≡ true)) }
    {
        let rows = self.rows();
        without_of_four(rows.first, rows.second, rows.third, rows.fourth, name)
    }

    /// The first row at or after a name.
    pub(crate) fn next_from(&self, name: Name) -> Option<(Name, V)>
        ensures { result ≡ lookup_entry (order.is_from name_cmp name) (rows_of_four self.now) }
    {
        let rows = self.rows();
        let last = row_from(rows.fourth, name, None);
        let behind = row_from(rows.third, name, last);
        let rest = row_from(rows.second, name, behind);
        row_from(rows.first, name, rest)
    }

    /// The first row after a name.
    pub(crate) fn next_after(&self, name: Name) -> Option<(Name, V)>
        ensures { result ≡ lookup_entry (order.is_after name_cmp name) (rows_of_four self.now) }
    {
        let rows = self.rows();
        let last = row_after(rows.fourth, name, None);
        let behind = row_after(rows.third, name, last);
        let rest = row_after(rows.second, name, behind);
        row_after(rows.first, name, rest)
    }
}

/// Four rows without the one of this name; None where none has it.
fn without_of_four<V: Copy>(
    first: (ShortName, V),
    second: (ShortName, V),
    third: (ShortName, V),
    fourth: (ShortName, V),
    name: Name,
) -> Option<Short<V>>
    requires { IsInOrder name_cmp (first ∷ second ∷ third ∷ fourth ∷ []) }
    ensures { MatchOption result (find name_cmp name (first ∷ second ∷ third ∷ fourth ∷ []) ≡ None)
        (λ short. (short_rows short ≡ without name_cmp name (first ∷ second ∷ third ∷ fourth ∷ []))
        × (is_some (find name_cmp name (first ∷ second ∷ third ∷ fourth ∷ [])) ≡ true)) }
{
    if first.0.is_named(name) {
        return Some(Short::Three(second, third, fourth));
    }
    if second.0.is_named(name) {
        return Some(Short::Three(first, third, fourth));
    }
    if third.0.is_named(name) {
        return Some(Short::Three(first, second, fourth));
    }
    if fourth.0.is_named(name) {
        return Some(Short::Three(first, second, third));
    }
    None
}
