//! Up to three rows in the order of names.
ghost use Rattle.std.specs.Prelude.{◌≡◌, ◌∷◌, [], cond, is_some, true, IsTrue, None, Some};
ghost use Rattle.std.specs.FinMap.Entries.{put, find};
ghost use Rattle.std.specs.Option.{option_copied};
ghost use Rattle.std.specs.Ordering.{is_eq, is_le, is_lt};
ghost use Rattle.wjs_base.specs.Order.{name_cmp};
ghost use Rattle.wjs_names.specs.Kept.{short_rows};
ghost use Rattle.wjs_names.specs.Lists.{IsInOrder, without};

use crate::short_name::ShortName;
use wjs_base::Name;

/// Up to three rows.
#[derive(Clone, Copy)]
pub(crate) enum Short<V> {
    Zero,
    One((ShortName, V)),
    Two((ShortName, V), (ShortName, V)),
    Three((ShortName, V), (ShortName, V), (ShortName, V)),
}

/// The value of a row, if it has this name.
#[inline(always)]
pub(crate) fn value_in<V: Copy>(row: &(ShortName, V), name: Name) -> Option<&V>
    ensures { option_copied result ≡ find name_cmp name (row.now ∷ []) }
{
    if row.0.is_named(name) {
        Some(&row.1)
    } else {
        None
    }
}

/// The value of the one of two rows that has this name, if one has.
#[inline(always)]
pub(crate) fn value_in_two<'a, V: Copy>(
    first: &'a (ShortName, V),
    second: &'a (ShortName, V),
    name: Name,
) -> Option<&'a V>
    ensures { option_copied result ≡ find name_cmp name (first.now ∷ second.now ∷ []) }
{
    match value_in(first, name) {
        Some(value) => Some(value),
        None => value_in(second, name),
    }
}

/// Puts a value into a row that has this name, and says whether it has it: another one stays as it is.
#[inline(always)]
pub(crate) fn put_in<V: Copy>(row: &mut (ShortName, V), name: Name, value: V) -> bool
    ensures is { result ≡ is_eq (name_cmp name row.old.0) }
    ensures put { row.new ≡ cond result (row.old.0, value) row.old }
{
    if !row.0.is_named(name) {
        return false;
    }
    row.1 = value;
    true
}

/// `value_in_two` of three.
#[inline(always)]
pub(crate) fn value_in_three<'a, V: Copy>(
    first: &'a (ShortName, V),
    second: &'a (ShortName, V),
    third: &'a (ShortName, V),
    name: Name,
) -> Option<&'a V>
    ensures { option_copied result ≡ find name_cmp name (first.now ∷ second.now ∷ third.now ∷ []) }
{
    match value_in(first, name) {
        Some(value) => Some(value),
        None => value_in_two(second, third, name),
    }
}

/// `put_in` of two rows in order.
#[inline(always)]
pub(crate) fn put_in_two<V: Copy>(
    first: &mut (ShortName, V),
    second: &mut (ShortName, V),
    name: Name,
    value: V,
) -> bool
    requires { IsInOrder name_cmp (first.old ∷ second.old ∷ []) }
    ensures found { result ≡ is_some (find name_cmp name (first.old ∷ second.old ∷ [])) }
    ensures put { first.new ∷ second.new ∷ [] ≡ cond result (put name_cmp name value (first.old ∷ second.old ∷ [])) (first.old ∷ second.old ∷ []) }
{
    if put_in(first, name, value) {
        return true;
    }
    put_in(second, name, value)
}

/// `put_in` of three rows in order.
#[inline(always)]
pub(crate) fn put_in_three<V: Copy>(
    first: &mut (ShortName, V),
    second: &mut (ShortName, V),
    third: &mut (ShortName, V),
    name: Name,
    value: V,
) -> bool
    requires { IsInOrder name_cmp (first.old ∷ second.old ∷ third.old ∷ []) }
    ensures found { result ≡ is_some (find name_cmp name (first.old ∷ second.old ∷ third.old ∷ [])) }
    ensures put { first.new ∷ second.new ∷ third.new ∷ [] ≡ cond result (put name_cmp name value (first.old ∷ second.old ∷ third.old ∷ []))
        (first.old ∷ second.old ∷ third.old ∷ []) }
{
    if put_in(first, name, value) {
        return true;
    }
    put_in_two(second, third, name, value)
}

/// Two rows in order: one, and one of another name.
#[inline(always)]
pub(crate) fn two<V: Copy>(first: (ShortName, V), row: (ShortName, V)) -> Short<V>
    requires { find name_cmp row.0 (first ∷ []) ≡ None }
    ensures { short_rows result ≡ put name_cmp row.0 row.1 (first ∷ []) }
{
    if first.0.is_before(row.0.name()) {
        Short::Two(first, row)
    } else {
        Short::Two(row, first)
    }
}

/// Three rows in order: two in order, and one of another name.
#[inline(always)]
pub(crate) fn three<V: Copy>(
    first: (ShortName, V),
    second: (ShortName, V),
    row: (ShortName, V),
) -> Short<V>
    requires ordered { IsInOrder name_cmp (first ∷ second ∷ []) }
    requires none { find name_cmp row.0 (first ∷ second ∷ []) ≡ None }
    ensures { short_rows result ≡ put name_cmp row.0 row.1 (first ∷ second ∷ []) }
{
    if second.0.is_before(row.0.name()) {
        return Short::Three(first, second, row);
    }
    if first.0.is_before(row.0.name()) {
        return Short::Three(first, row, second);
    }
    Short::Three(row, first, second)
}

/// One row without the one of this name.
fn without_of_one<V: Copy>(row: (ShortName, V), name: Name) -> Short<V>
    ensures { short_rows result ≡ without name_cmp name (row ∷ []) }
{
    if row.0.is_named(name) {
        Short::Zero
    } else {
        Short::One(row)
    }
}

/// Two rows without the one of this name.
fn without_of_two<V: Copy>(first: (ShortName, V), second: (ShortName, V), name: Name) -> Short<V>
    requires { IsInOrder name_cmp (first ∷ second ∷ []) }
    ensures { short_rows result ≡ without name_cmp name (first ∷ second ∷ []) }
{
    if first.0.is_named(name) {
        return Short::One(second);
    }
    if second.0.is_named(name) {
        Short::One(first)
    } else {
        Short::Two(first, second)
    }
}

/// Three rows without the one of this name.
fn without_of_three<V: Copy>(
    first: (ShortName, V),
    second: (ShortName, V),
    third: (ShortName, V),
    name: Name,
) -> Short<V>
    requires { IsInOrder name_cmp (first ∷ second ∷ third ∷ []) }
    ensures { short_rows result ≡ without name_cmp name (first ∷ second ∷ third ∷ []) }
{
    if first.0.is_named(name) {
        return Short::Two(second, third);
    }
    if second.0.is_named(name) {
        return Short::Two(first, third);
    }
    if third.0.is_named(name) {
        return Short::Two(first, second);
    }
    Short::Three(first, second, third)
}

/// A row with its name in full, where it passes; else what comes behind it.
fn or_behind<V: Copy>(
    row: (ShortName, V),
    passes: bool,
    behind: Option<(Name, V)>,
) -> Option<(Name, V)>
    ensures { result ≡ cond passes (Some row) behind }
{
    if passes {
        Some((row.0.name(), row.1))
    } else {
        behind
    }
}

/// A row, where its name is this one or comes after it; else what comes behind it.
pub(crate) fn row_from<V: Copy>(
    row: (ShortName, V),
    name: Name,
    behind: Option<(Name, V)>,
) -> Option<(Name, V)>
    ensures { result ≡ cond (is_le (name_cmp name row.0)) (Some row) behind }
{
    let before = row.0.is_before(name);
    or_behind(row, !before, behind)
}

/// A row, where its name comes after this one; else what comes behind it.
pub(crate) fn row_after<V: Copy>(
    row: (ShortName, V),
    name: Name,
    behind: Option<(Name, V)>,
) -> Option<(Name, V)>
    ensures { result ≡ cond (is_lt (name_cmp name row.0)) (Some row) behind }
{
    if row.0.is_before(name) {
        return behind;
    }
    let named = row.0.is_named(name);
    or_behind(row, !named, behind)
}

impl<V: Copy> Short<V> {
    ghost use Rattle.std.specs.Prelude.{◌≡◌, IfSome, None};
    ghost use Rattle.std.specs.FinMap.Entries.{put, find};
    ghost use Rattle.std.specs.Map.{lookup_entry};
    ghost use Rattle.wjs_rows.specs.Order as order;

    /// The rows without the one of this name.
    pub(crate) fn without(self, name: Name) -> Short<V>
        requires { IsInOrder name_cmp (short_rows self) }
        ensures { short_rows result ≡ without name_cmp name (short_rows self) }
    {
        match self {
            Short::Zero => Short::Zero,
            Short::One(row) => without_of_one(row, name),
            Short::Two(first, second) => without_of_two(first, second, name),
            Short::Three(first, second, third) => without_of_three(first, second, third, name),
        }
    }

    /// The first row at or after a name.
    pub(crate) fn next_from(self, name: Name) -> Option<(Name, V)>
        ensures { result ≡ lookup_entry (order.is_from name_cmp name) (short_rows self) }
    {
        match self {
            Short::Zero => None,
            Short::One(row) => row_from(row, name, None),
            Short::Two(first, second) => {
                let behind = row_from(second, name, None);
                row_from(first, name, behind)
            }
            Short::Three(first, second, third) => {
                let last = row_from(third, name, None);
                let rest = row_from(second, name, last);
                row_from(first, name, rest)
            }
        }
    }

    /// The first row after a name.
    pub(crate) fn next_after(self, name: Name) -> Option<(Name, V)>
        ensures { result ≡ lookup_entry (order.is_after name_cmp name) (short_rows self) }
    {
        match self {
            Short::Zero => None,
            Short::One(row) => row_after(row, name, None),
            Short::Two(first, second) => {
                let behind = row_after(second, name, None);
                row_after(first, name, behind)
            }
            Short::Three(first, second, third) => {
                let last = row_after(third, name, None);
                let rest = row_after(second, name, last);
                row_after(first, name, rest)
            }
        }
    }
}
