//! The rows of one object, in a list or by their indices.
ghost use Rattle.std.specs.Prelude.{◌≡◌, ◌++◌, ◌∷◌, [], not, length, is_some, OnOk, OnErr, IfOk, IfSome, IsTrue, None, true, false, cond};
ghost use Rattle.std.specs.Option.{option_copied};
ghost use Rattle.std.specs.FinMap as map;
ghost use Rattle.std.specs.FinMap.Entries.{put, find};
ghost use Rattle.std.specs.Map.{lookup_entry};
ghost use Rattle.wjs_base.specs.Order.{name_cmp};
ghost use Rattle.wjs_rows.specs.Order.{is_from, is_after};
ghost use Rattle.wjs_names.specs.Four.{rows_of_four};
ghost use Rattle.wjs_names.specs.Kept.{rows_of, short_rows};
ghost use Rattle.wjs_names.specs.Lists.{IsInOrder, without};
ghost use Rattle.wjs_names.specs.Several.{put_all};

use crate::few;
use crate::four::Four;
use crate::many::Many;
use crate::short::{
    Short, put_in, put_in_three, put_in_two, three, two, value_in, value_in_three, value_in_two,
};
use crate::short_name::ShortName;
use std::alloc::Global;
use wjs_base::{Name, OutOfMemory};

/// How many rows a list has at most: past that, room for one in between would take too long a move.
const LONGEST_LIST: usize = 256;

/// For how many rows a list has room first, as an object gets its fifth, or its fourth where a name isn't tiny.
const FIRST_ROWS: usize = 6;

/// Up to how many rows stand in the object's place: they need no room.
pub const ROWS_IN_PLACE: usize = 4;

/// Rows in the order of their names. Up to three stand in the object's place itself, and four where their names are tiny, as the
/// scope and the arguments of a short call have them. Those of an object with more stand elsewhere: each object takes the room of
/// the largest form.
#[derive(Drop)]
pub(crate) enum Kept<V> {
    Zero,
    One((ShortName, V)),
    Two((ShortName, V), (ShortName, V)),
    Three((ShortName, V), (ShortName, V), (ShortName, V)),
    Four(Four<V>),
    Few(Vec<(ShortName, V)>),
    Many(Box<Many<V>>),
}

const _: () = prove!(size_of::<Kept<(u64, u64)>>() == 80);

impl<V: Copy> Kept<V> {
    ghost use Rattle.wjs_names.specs.Kept.{is_past_three, rows_of, short_rows};

    /// The value at a name.
    #[inline(always)]
    pub(crate) fn get(&self, name: Name) -> Option<&V>
        requires { IsInOrder name_cmp (rows_of self.now) }
        ensures { option_copied result ≡ find name_cmp name (rows_of self.now) }
    {
        match self {
            Kept::Zero => None,
            Kept::One(row) => value_in(row, name),
            Kept::Two(first, second) => value_in_two(first, second, name),
            Kept::Three(first, second, third) => value_in_three(first, second, third, name),
            Kept::Four(four) => four.get(name),
            Kept::Few(few) => few::get(few, name),
            Kept::Many(many) => many.get(name),
        }
    }

    /// Takes room for so many rows where there are none, if they are to stand in a list.
    pub(crate) fn reserve(&mut self, count: usize, alloc: Global) -> Result<(), OutOfMemory>
        ensures { rows_of self.new ≡ rows_of self.old }
    {
        if count <= ROWS_IN_PLACE || count > LONGEST_LIST {
            return Ok(());
        }
        match self {
            Kept::Zero => {
                let few = Vec::with_capacity(alloc, count.max(FIRST_ROWS))?;
                *self = Kept::Few(few);
                Ok(())
            }
            _ => Ok(()),
        }
    }

    /// Puts rows where there are none, and says whether it did: elsewhere all stays as it is, and so where they don't stand in
    /// the object's place.
    #[inline(always)]
    pub(crate) fn fill(&mut self, rows: &[(Name, V)]) -> bool
        ensures none { IsTrue result → rows_of self.old ≡ [] }
        ensures filled { IsTrue result → rows_of self.new ≡ put_all rows.now [] }
        ensures len { IsTrue result → length (rows_of self.new) ≡ length rows.now }
        ensures same { result ≡ false → rows_of self.new ≡ rows_of self.old }
    {
        match self {
            Kept::Zero => match in_place(rows) {
                Some(kept) => {
                    *self = kept;
                    true
                }
                None => false,
            },
            _ => false,
        }
    }

    /// Puts a value at a name, and says whether the name is new. After a refusal all is as it was.
    #[inline(always)]
    pub(crate) fn set(&mut self, name: Name, value: V, alloc: Global) -> Result<bool, OutOfMemory>
        requires { IsInOrder name_cmp (rows_of self.old) }
        ensures ok { OnOk result (rows_of self.new ≡ put name_cmp name value (rows_of self.old)) }
        ensures added { IfOk result (λ added. added ≡ not (is_some (find name_cmp name (rows_of self.old)))) }
        ensures err { OnErr result (rows_of self.new ≡ rows_of self.old) }
    {
        if self.replace(name, value) {
            return Ok(false);
        }
        self.add(name, value, alloc)
    }

    /// Puts a value at a name that is there, and says whether it did: elsewhere all stays as it is.
    #[inline(always)]
    fn replace(&mut self, name: Name, value: V) -> bool
        requires { IsInOrder name_cmp (rows_of self.old) }
        ensures found { IsTrue result → is_some (find name_cmp name (rows_of self.old)) ≡ true }
        ensures absent { is_past_three self.new ≡ false → result ≡ false → find name_cmp name (rows_of self.old) ≡ None }
        ensures replaced { rows_of self.new ≡ cond result (put name_cmp name value (rows_of self.old)) (rows_of self.old) }
    {
        match self {
            Kept::Zero => false,
            Kept::One(row) => put_in(row, name, value),
            Kept::Two(first, second) => put_in_two(first, second, name, value),
            Kept::Three(first, second, third) => put_in_three(first, second, third, name, value),
            Kept::Four(four) => four.replace(name, value),
            Kept::Few(few) => few::replace(few, name, value),
            Kept::Many(many) => many.replace(name, value),
        }
    }

    /// Up to three rows in the object's place, if they stand there.
    fn short(&self) -> Option<Short<V>>
        ensures rows { IfSome result (λ short. short_rows short ≡ rows_of self.now) }
        ensures past_three { result ≡ None → is_past_three self.now ≡ true }
    {
        match self {
            Kept::Zero => Some(Short::Zero),
            Kept::One(row) => Some(Short::One(*row)),
            Kept::Two(first, second) => Some(Short::Two(*first, *second)),
            Kept::Three(first, second, third) => Some(Short::Three(*first, *second, *third)),
            Kept::Four(_) => None,
            Kept::Few(_) => None,
            Kept::Many(_) => None,
        }
    }

    /// Four rows in the object's place, if they stand there.
    fn four_rows(&self) -> Option<Four<V>>
        ensures { IfSome result (λ four. rows_of_four four ≡ rows_of self.now) }
    {
        match self {
            Kept::Four(four) => Some(*four),
            _ => None,
        }
    }

    /// `set`, with room for one more row. No row in the object's place has the name.
    #[inline(never)]
    fn add(&mut self, name: Name, value: V, alloc: Global) -> Result<bool, OutOfMemory>
        requires ordered { IsInOrder name_cmp (rows_of self.old) }
        requires absent { is_past_three self.old ≡ false → find name_cmp name (rows_of self.old) ≡ None }
        ensures ok { OnOk result (rows_of self.new ≡ put name_cmp name value (rows_of self.old)) }
        ensures added { IfOk result (λ added. added ≡ not (is_some (find name_cmp name (rows_of self.old)))) }
        ensures err { OnErr result (rows_of self.new ≡ rows_of self.old) }
    {
        match few::row_of(name, value) {
            Some(row) => self.add_row(row, alloc),
            None => self.add_elsewhere(name, value, alloc),
        }
    }

    /// `add` of a row with its name in short.
    #[inline(always)]
    fn add_row(&mut self, row: (ShortName, V), alloc: Global) -> Result<bool, OutOfMemory>
        requires ordered { IsInOrder name_cmp (rows_of self.old) }
        requires absent { is_past_three self.old ≡ false → find name_cmp row.0 (rows_of self.old) ≡ None }
        ensures ok { OnOk result (rows_of self.new ≡ put name_cmp row.0 row.1 (rows_of self.old)) }
        ensures added { IfOk result (λ added. added ≡ not (is_some (find name_cmp row.0 (rows_of self.old)))) }
        ensures err { OnErr result (rows_of self.new ≡ rows_of self.old) }
    {
        match self {
            Kept::Zero => {
                *self = Kept::One(row);
                Ok(true)
            }
            Kept::One(first) => {
                let more = two(*first, row);
                *self = kept_of(more);
                Ok(true)
            }
            Kept::Two(first, second) => {
                let more = three(*first, *second, row);
                *self = kept_of(more);
                Ok(true)
            }
            Kept::Few(few) => {
                if few.len() < LONGEST_LIST {
                    return few::put_row(few, row);
                }
                self.add_elsewhere(row.0.name(), row.1, alloc)
            }
            _ => self.add_fourth(row, alloc),
        }
    }

    /// `add_row` to three rows or more.
    #[inline(never)]
    fn add_fourth(&mut self, row: (ShortName, V), alloc: Global) -> Result<bool, OutOfMemory>
        requires ordered { IsInOrder name_cmp (rows_of self.old) }
        requires absent { is_past_three self.old ≡ false → find name_cmp row.0 (rows_of self.old) ≡ None }
        ensures ok { OnOk result (rows_of self.new ≡ put name_cmp row.0 row.1 (rows_of self.old)) }
        ensures added { IfOk result (λ added. added ≡ not (is_some (find name_cmp row.0 (rows_of self.old)))) }
        ensures err { OnErr result (rows_of self.new ≡ rows_of self.old) }
    {
        match self.with_fourth(row) {
            Some(four) => {
                *self = Kept::Four(four);
                Ok(true)
            }
            None => self.add_elsewhere(row.0.name(), row.1, alloc),
        }
    }

    /// Three rows with one more, where their names are tiny.
    #[inline(always)]
    fn with_fourth(&self, row: (ShortName, V)) -> Option<Four<V>>
        requires ordered { IsInOrder name_cmp (rows_of self.now) }
        requires absent { is_past_three self.now ≡ false → find name_cmp row.0 (rows_of self.now) ≡ None }
        ensures put { IfSome result (λ four. rows_of_four four ≡ put name_cmp row.0 row.1 (rows_of self.now)) }
        ensures none { IfSome result (λ _. find name_cmp row.0 (rows_of self.now) ≡ None) }
    {
        match self {
            Kept::Three(first, second, third) => Four::new(*first, *second, *third, row),
            _ => None,
        }
    }

    /// `add`, in a list or at the indices.
    fn add_elsewhere(&mut self, name: Name, value: V, alloc: Global) -> Result<bool, OutOfMemory>
        requires { IsInOrder name_cmp (rows_of self.old) }
        ensures ok { OnOk result (rows_of self.new ≡ put name_cmp name value (rows_of self.old)) }
        ensures added { IfOk result (λ added. added ≡ not (is_some (find name_cmp name (rows_of self.old)))) }
        ensures err { OnErr result (rows_of self.new ≡ rows_of self.old) }
    {
        self.make_room(name, alloc)?;
        match self {
            Kept::Few(few) => few::set(few, name, value),
            Kept::Many(many) => many.set(name, value),
            _ => Err(OutOfMemory),
        }
    }

    /// Takes the row at a name out, and says whether there was one. After a refusal all is as it was.
    pub(crate) fn remove(&mut self, name: Name) -> Result<bool, OutOfMemory>
        requires { IsInOrder name_cmp (rows_of self.old) }
        ensures removed { OnOk result (rows_of self.new ≡ without name_cmp name (rows_of self.old)) }
        ensures found { IfOk result (λ found. found ≡ is_some (find name_cmp name (rows_of self.old))) }
        ensures err { OnErr result (rows_of self.new ≡ rows_of self.old) }
    {
        match self.short() {
            Some(short) => {
                let found = self.get(name).is_some();
                *self = kept_of(short.without(name));
                Ok(found)
            }
            None => self.remove_past_three(name),
        }
    }

    /// `remove` of four rows, in a list or at the indices.
    fn remove_past_three(&mut self, name: Name) -> Result<bool, OutOfMemory>
        requires { IsInOrder name_cmp (rows_of self.old) }
        ensures removed { OnOk result (rows_of self.new ≡ without name_cmp name (rows_of self.old)) }
        ensures found { IfOk result (λ found. found ≡ is_some (find name_cmp name (rows_of self.old))) }
        ensures err { OnErr result (rows_of self.new ≡ rows_of self.old) }
    {
        match self.four_rows() {
            Some(four) => self.remove_of_four(four, name),
            None => self.remove_far(name),
        }
    }

    /// `remove` of these rows.
    fn remove_of_four(&mut self, four: Four<V>, name: Name) -> Result<bool, OutOfMemory>
        requires ordered { IsInOrder name_cmp (rows_of self.old) }
        requires four { rows_of_four four ≡ rows_of self.old }
        ensures removed { OnOk result (rows_of self.new ≡ without name_cmp name (rows_of self.old)) }
        ensures found { IfOk result (λ found. found ≡ is_some (find name_cmp name (rows_of self.old))) }
        ensures err { OnErr result (rows_of self.new ≡ rows_of self.old) }
    {
        match four.without(name) {
            None => Ok(false),
            Some(short) => {
                *self = kept_of(short);
                Ok(true)
            }
        }
    }

    /// `remove`, in a list or at the indices.
    fn remove_far(&mut self, name: Name) -> Result<bool, OutOfMemory>
        requires { IsInOrder name_cmp (rows_of self.old) }
        ensures removed { OnOk result (rows_of self.new ≡ without name_cmp name (rows_of self.old)) }
        ensures found { IfOk result (λ found. found ≡ is_some (find name_cmp name (rows_of self.old))) }
        ensures err { OnErr result (rows_of self.new ≡ rows_of self.old) }
    {
        match self {
            Kept::Few(few) => Ok(few::remove(few, name)),
            Kept::Many(many) => many.remove(name),
            _ => Err(OutOfMemory),
        }
    }

    /// The first row at or after a name.
    pub(crate) fn next_from(&self, name: Name) -> Option<(Name, V)>
        requires { IsInOrder name_cmp (rows_of self.now) }
        ensures { result ≡ lookup_entry (is_from name_cmp name) (rows_of self.now) }
    {
        match self.short() {
            Some(short) => short.next_from(name),
            None => self.next_from_past_three(name),
        }
    }

    /// `next_from` of four rows, in a list or by the indices.
    fn next_from_past_three(&self, name: Name) -> Option<(Name, V)>
        requires ordered { IsInOrder name_cmp (rows_of self.now) }
        requires past_three { is_past_three self.now ≡ true }
        ensures { result ≡ lookup_entry (is_from name_cmp name) (rows_of self.now) }
    {
        match self {
            Kept::Zero => unreachable!(),
            Kept::One(_) => unreachable!(),
            Kept::Two(_, _) => unreachable!(),
            Kept::Three(_, _, _) => unreachable!(),
            Kept::Four(four) => four.next_from(name),
            Kept::Few(few) => few::next_from(few, name),
            Kept::Many(many) => many.next_from(name),
        }
    }

    /// The first row after a name.
    pub(crate) fn next_after(&self, name: Name) -> Option<(Name, V)>
        requires { IsInOrder name_cmp (rows_of self.now) }
        ensures { result ≡ lookup_entry (is_after name_cmp name) (rows_of self.now) }
    {
        match self.short() {
            Some(short) => short.next_after(name),
            None => self.next_after_past_three(name),
        }
    }

    /// `next_after` of four rows, in a list or by the indices.
    fn next_after_past_three(&self, name: Name) -> Option<(Name, V)>
        requires ordered { IsInOrder name_cmp (rows_of self.now) }
        requires past_three { is_past_three self.now ≡ true }
        ensures { result ≡ lookup_entry (is_after name_cmp name) (rows_of self.now) }
    {
        match self {
            Kept::Zero => unreachable!(),
            Kept::One(_) => unreachable!(),
            Kept::Two(_, _) => unreachable!(),
            Kept::Three(_, _, _) => unreachable!(),
            Kept::Four(four) => four.next_after(name),
            Kept::Few(few) => few::next_after(few, name),
            Kept::Many(many) => many.next_after(name),
        }
    }

    /// Moves the rows to where one more of this name can be put.
    fn make_room(&mut self, name: Name, alloc: Global) -> Result<(), OutOfMemory>
        requires { IsInOrder name_cmp (rows_of self.old) }
        ensures { rows_of self.new ≡ rows_of self.old }
    {
        match self.outgrown(name, alloc)? {
            Some(kept) => {
                *self = kept;
                Ok(())
            }
            None => Ok(()),
        }
    }

    /// The rows in another form, where one more of this name can't be put into this one.
    fn outgrown(&self, name: Name, alloc: Global) -> Result<Option<Kept<V>>, OutOfMemory>
        requires { IsInOrder name_cmp (rows_of self.now) }
        ensures { IfOk result (λ outgrown. IfSome outgrown (λ kept. rows_of kept ≡ rows_of self.now)) }
    {
        match self.short() {
            Some(short) => Ok(Some(list_of(short, name, alloc)?)),
            None => self.outgrown_past_three(name, alloc),
        }
    }

    /// `outgrown` of four rows or a list.
    fn outgrown_past_three(&self, name: Name, alloc: Global) -> Result<Option<Kept<V>>, OutOfMemory>
        requires { IsInOrder name_cmp (rows_of self.now) }
        ensures { IfOk result (λ outgrown. IfSome outgrown (λ kept. rows_of kept ≡ rows_of self.now)) }
    {
        match self {
            Kept::Four(four) => Ok(Some(list_of_four(four, name, alloc)?)),
            Kept::Few(few) => {
                if few.len() < LONGEST_LIST && ShortName::new(name).is_some() {
                    return Ok(None);
                }
                Ok(Some(many_of(few, alloc)?))
            }
            _ => Ok(None),
        }
    }
}

/// The rows in the object's place.
#[inline(always)]
fn kept_of<V: Copy>(short: Short<V>) -> Kept<V>
    ensures { rows_of result ≡ short_rows short }
{
    match short {
        Short::Zero => Kept::Zero,
        Short::One(row) => Kept::One(row),
        Short::Two(first, second) => Kept::Two(first, second),
        Short::Three(first, second, third) => Kept::Three(first, second, third),
    }
}

/// Up to four rows in the object's place, in the order of their names; None where two have one name.
#[inline(always)]
fn in_place<V: Copy>(rows: &[(Name, V)]) -> Option<Kept<V>>
    ensures put { IfSome result (λ kept. rows_of kept ≡ put_all rows.now []) }
    ensures len { IfSome result (λ kept. length (rows_of kept) ≡ length rows.now) }
{
    match rows {
        [a] => {
            let row = few::row_of(a.0, a.1)?;
            Some(Kept::One(row))
        }
        [a, b] => {
            let short = two_of(*a, *b)?;
            Some(kept_of(short))
        }
        [a, b, c] => {
            let short = three_of(*a, *b, *c)?;
            Some(kept_of(short))
        }
        [a, b, c, d] => {
            let four = four_of(*a, *b, *c, *d)?;
            Some(Kept::Four(four))
        }
        _ => None,
    }
}

/// Two rows in the order of their names; None where they have one name.
#[inline(always)]
fn two_of<V: Copy>(a: (Name, V), b: (Name, V)) -> Option<Short<V>>
    ensures put { IfSome result (λ short. short_rows short ≡ put_all (a ∷ b ∷ []) []) }
    ensures len { IfSome result (λ short. length (short_rows short) ≡ 2) }
{
    let first = few::row_of(a.0, a.1)?;
    let row = few::row_of(b.0, b.1)?;
    match value_in(&first, b.0) {
        Some(_) => None,
        None => Some(two(first, row)),
    }
}

/// `two_of` of three.
#[inline(always)]
fn three_of<V: Copy>(a: (Name, V), b: (Name, V), c: (Name, V)) -> Option<Short<V>>
    ensures put { IfSome result (λ short. short_rows short ≡ put_all (a ∷ b ∷ c ∷ []) []) }
    ensures len { IfSome result (λ short. length (short_rows short) ≡ 3) }
{
    let Short::Two(first, second) = two_of(a, b)? else {
        return None;
    };
    let row = few::row_of(c.0, c.1)?;
    match value_in_two(&first, &second, c.0) {
        Some(_) => None,
        None => Some(three(first, second, row)),
    }
}

/// `two_of` of four; None also where a name isn't tiny.
#[inline(always)]
fn four_of<V: Copy>(a: (Name, V), b: (Name, V), c: (Name, V), d: (Name, V)) -> Option<Four<V>>
    ensures { IfSome result (λ four. rows_of_four four ≡ put_all (a ∷ b ∷ c ∷ d ∷ []) []) }
{
    let Short::Three(first, second, third) = three_of(a, b, c)? else {
        return None;
    };
    let row = few::row_of(d.0, d.1)?;
    match value_in_three(&first, &second, &third, d.0) {
        Some(_) => None,
        None => Four::new(first, second, third, row),
    }
}

/// Four rows in a list; where a name can't be kept in short, by their indices.
fn list_of_four<V: Copy>(four: &Four<V>, name: Name, alloc: Global) -> Result<Kept<V>, OutOfMemory>
    requires { IsInOrder name_cmp (rows_of_four four.now) }
    ensures { IfOk result (λ kept. rows_of kept ≡ rows_of_four four.now) }
{
    let few = four_listed(four, alloc)?;
    if ShortName::new(name).is_none() {
        return many_of(few.as_slice(), alloc);
    }
    Ok(Kept::Few(few))
}

/// A list of four rows.
fn four_listed<V: Copy>(four: &Four<V>, alloc: Global) -> Result<Vec<(ShortName, V)>, OutOfMemory>
    ensures { IfOk result (λ few. few.items ≡ rows_of_four four.now) }
{
    let rows = four.rows();
    let mut few = Vec::with_capacity(alloc, FIRST_ROWS)?;
    put_last(&mut few, rows.first)?;
    put_last(&mut few, rows.second)?;
    put_last(&mut few, rows.third)?;
    put_last(&mut few, rows.fourth)?;
    Ok(few)
}

/// The rows by their indices.
fn many_of<V: Copy>(few: &[(ShortName, V)], alloc: Global) -> Result<Kept<V>, OutOfMemory>
    requires { IsInOrder name_cmp few.now }
    ensures { IfOk result (λ kept. rows_of kept ≡ few.now) }
{
    let many = Many::of_list(few, alloc)?;
    let many = Box::new(alloc, many)?;
    Ok(Kept::Many(many))
}

/// The rows in a list; where a name can't be kept in short, by their indices.
fn list_of<V: Copy>(short: Short<V>, name: Name, alloc: Global) -> Result<Kept<V>, OutOfMemory>
    requires { IsInOrder name_cmp (short_rows short) }
    ensures { IfOk result (λ kept. rows_of kept ≡ short_rows short) }
{
    let few = listed(short, alloc)?;
    if ShortName::new(name).is_none() {
        return many_of(few.as_slice(), alloc);
    }
    Ok(Kept::Few(few))
}

/// A list of rows that stood in the object's place.
fn listed<V: Copy>(short: Short<V>, alloc: Global) -> Result<Vec<(ShortName, V)>, OutOfMemory>
    ensures { IfOk result (λ few. few.items ≡ short_rows short) }
{
    let mut few = Vec::with_capacity(alloc, FIRST_ROWS)?;
    match short {
        Short::Zero => Ok(few),
        Short::One(row) => {
            put_last(&mut few, row)?;
            Ok(few)
        }
        Short::Two(first, second) => {
            put_last(&mut few, first)?;
            put_last(&mut few, second)?;
            Ok(few)
        }
        Short::Three(first, second, third) => {
            put_last(&mut few, first)?;
            put_last(&mut few, second)?;
            put_last(&mut few, third)?;
            Ok(few)
        }
    }
}

/// Puts a row last.
fn put_last<V: Copy>(few: &mut Vec<(ShortName, V)>, row: (ShortName, V)) -> Result<(), OutOfMemory>
    ensures { OnOk result (few.new.items ≡ few.old.items ++ row ∷ []) }
{
    few.push(row)?;
    Ok(())
}
