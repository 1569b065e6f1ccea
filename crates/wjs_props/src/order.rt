//! The names of a listing in the order of their contents.
ghost use Rattle.std.specs.Prelude.{◌≡◌, map, IfOk, IsPermutation, IsSorted};
ghost use Rattle.wjs_base.specs.Spelling.{IsName, spelling_cmp};
ghost use Rattle.wjs_by_content.specs.Renamed.{Holds};
ghost use Rattle.wjs_props.specs.Spelled.{spelled_cmp, IsSpelled};

use std::alloc::Global;
use std::cmp::Ordering;
use wjs_base::{Name, Names, OutOfMemory};
use wjs_texts::Texts;

/// A name with the code units of its text; an index has none.
#[derive(Clone, Copy)]
pub struct Spelled<'a> {
    pub name: Name,
    pub units: &'a [u16],
}

/// The names in the order of contents: indices ascending, then texts by their code units.
pub fn in_order(alloc: Global, texts: &Texts, names: &Names) -> Result<Names, OutOfMemory>
    requires { Holds (IsName texts.now) names.now }
    ensures permutation { IfOk result (λ order. IsPermutation names.now order) }
    ensures sorted { IfOk result (λ order. IsSorted (spelling_cmp texts.now) order) }
{
    let mut all = spell_all(alloc, texts, names)?;
    all.sort_unstable_by(|a, b| compare(a, b));
    names_of(alloc, all.as_slice())
}

/// Each name with its units.
fn spell_all<'a>(
    alloc: Global,
    texts: &'a Texts,
    names: &Names,
) -> Result<Vec<Spelled<'a>>, OutOfMemory>
    requires { Holds (IsName texts.now) names.now }
    ensures names { IfOk result (λ all. map (λ s. s.name) all.items ≡ names.now) }
    ensures units { IfOk result (λ all. Holds (IsSpelled texts.now) all.items) }
{
    let mut all = Vec::new(alloc);
    let mut place = 0;
    'names: while place < names.len() {
        let each = spell(texts, names.at(place));
        all.push(each)?;
        place += 1;
    }
    Ok(all)
}

/// A name with its units.
fn spell(texts: &Texts, name: Name) -> Spelled<'_>
    requires { IsName texts.now name }
    ensures name { result.name ≡ name }
    ensures units { IsSpelled texts.now result }
{
    let units: &[u16] = match name {
        Name::Index(_) => &[],
        Name::Text(id) => texts.units(id),
    };
    Spelled { name, units }
}

/// The order of two names by content.
fn compare(a: &Spelled, b: &Spelled) -> Ordering
    ensures { result ≡ spelled_cmp a.now b.now }
{
    match (a.name, b.name) {
        (Name::Index(a), Name::Index(b)) => a.cmp(&b),
        (Name::Index(_), Name::Text(_)) => Ordering::Less,
        (Name::Text(_), Name::Index(_)) => Ordering::Greater,
        (Name::Text(_), Name::Text(_)) => a.units.cmp(&b.units),
    }
}

/// The names alone.
fn names_of(alloc: Global, all: &[Spelled]) -> Result<Names, OutOfMemory>
    ensures { IfOk result (λ names. names ≡ map (λ s. s.name) all.now) }
{
    let mut names = Names::new(alloc);
    for each in all {
        names.push(each.name)?;
    }
    Ok(names)
}
