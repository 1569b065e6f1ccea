//! The table of interned texts.
ghost use Rattle.std.specs.Prelude.{◌≡◌, ◌+◌, ◌<◌, ◌≤◌, ◌↔◌, ◌++◌, [], ◌∷◌, length, IfOk, IfSome, OnOk, OnErr, IsErrOf, None, slice_get, Some, true};
ghost use Rattle.wjs_texts.specs.Hash.{hash_of};
ghost use Rattle.wjs_texts.specs.Keys.{AreFound, IsSought, at_key, texts_in};
ghost use Rattle.wjs_texts.specs.Known.{text_of};
ghost use Rattle.wjs_texts.specs.Spans.{IsWithin, units_in};
ghost use Rattle.wjs_base.specs.Spelling.{SpellsNoIndex};
ghost use Rattle.wjs_base.specs.Text.{Denotes, Finds, Grows, Has, Interns, IsTable, IsText, Units, longest};

use crate::buffers::{Buffers, Span};
use crate::hash::{EMPTY_HASH, FACTOR, factor, hash_behind};
use crate::keys::{Key, Sought};
use crate::known::{KNOWN, Known};
use indexmap::IndexMap;
use std::alloc::Global;
use std::marker::Model;
use thiserror::Error;
use wjs_base::{OutOfMemory, TextId};

/// The longest text, in code units.
pub const LONGEST_TEXT: usize = 16_777_216;

/// Why a text is not interned.
#[derive(Clone, Copy, Debug, PartialEq, Eq, Error)]
pub enum TextFault {
    /// It has more than 16,777,216 code units.
    #[error("text too long")]
    TooLong,
    #[error("out of memory")]
    OutOfMemory,
}

impl From<OutOfMemory> for TextFault {
    ghost use Rattle.wjs_texts.specs.declared.texts.TextFault.TheVariants.{OutOfMemory};

    ghost from_gives = { λ _ fault. fault ≡ OutOfMemory };

    fn from(_: OutOfMemory) -> Self {
        TextFault::OutOfMemory
    }
}

/// A caller whose texts are short enough meets want of memory alone.
impl From<TextFault> for OutOfMemory {
    fn from(_: TextFault) -> Self {
        OutOfMemory
    }
}

/// A list of different texts. A text is known by its place in it, which it keeps: equal content has equal number.
///
/// A call that fails leaves the list as it was.
#[derive(Drop)]
pub struct Texts {
    /// Where each text stands in the buffers, in the order of their numbers.
    spans: IndexMap<Key, Span>,
    buffers: Buffers,
    /// The number of each known text that was found, at its place: a text keeps its number.
    known: [Option<TextId>; 9],
}

impl Model for Texts {
    ghost use Rattle.wjs_base.specs.Text.{Table};

    ghost Value = { Table };

    ghost use Rattle.wjs_texts.specs.Keys.{AreFound, texts_in};
    ghost use Rattle.wjs_texts.specs.Known.{AreKept};

    ghost view = { λ t. texts_in t.buffers t.spans.entries };

    ghost invariant = { λ t. AreFound t.buffers t.spans.entries × AreKept (texts_in t.buffers t.spans.entries) t.known };
}

impl Texts {
    /// A list of no texts.
    pub fn new(alloc: Global) -> Result<Texts, OutOfMemory>
        ensures empty { IfOk result (λ texts. texts ≡ []) }
        ensures table { IfOk result IsTable }
    {
        let buffers = Buffers::new(alloc)?;
        Ok(Texts {
            spans: IndexMap::new(alloc),
            buffers,
            known: [None; KNOWN],
        })
    }

    /// The number of the text of these code units, which is put last where it is new.
    ///
    /// `TooLong` comes exactly where there are more than 16,777,216. The units are copied only where they are new.
    pub fn intern(&mut self, units: &[u16]) -> Result<TextId, TextFault>
        ensures ok { IfOk result (Interns self.old self.new units.now) }
        ensures too_long { IsErrOf result TextFault.TooLong ↔ (longest < length units.now) }
        ensures err { OnErr result (self.new ≡ self.old) }
        ensures table { IsTable self.new }
        ensures grows { Grows self.old self.new }
    {
        let nothing = self.buffers.nothing();
        if units.len() > LONGEST_TEXT {
            return Err(TextFault::TooLong);
        }
        let hash = hash_behind(FACTOR, EMPTY_HASH, units);
        Ok(put(&mut self.spans, &mut self.buffers, hash, nothing, units)?)
    }

    /// The number of the text of these code units; None exactly where no text of the table has them. It copies nothing.
    pub fn find(&self, units: &[u16]) -> Option<TextId>
        ensures { Finds self.now units.now result }
    {
        let nothing = self.buffers.nothing();
        let hash = hash_behind(FACTOR, EMPTY_HASH, units);
        match seek(&self.spans, &self.buffers, hash, nothing, units) {
            Sought::There(id) => Some(id),
            Sought::Free(_) => None,
            Sought::Full => None,
        }
    }

    /// The number of a known text; None exactly where no text of the table is it. None of them spells an index. It compares no units
    /// where the text was found before.
    #[inline(always)]
    pub fn known(&mut self, known: Known) -> Option<TextId>
        ensures finds { Finds self.old (text_of known) result }
        ensures no_index { IfSome result (λ id. SpellsNoIndex self.old id) }
        ensures same { self.new ≡ self.old }
    {
        match self.kept(known) {
            Some(id) => Some(id),
            None => self.find_known(known),
        }
    }

    /// The number of a known text that was found before.
    #[inline(always)]
    fn kept(&self, known: Known) -> Option<TextId>
        ensures { IfSome result (λ id. Denotes self.now id (text_of known)) }
    {
        self.known[known.place()]
    }

    /// The number of a known text, which is kept where there is one.
    fn find_known(&mut self, known: Known) -> Option<TextId>
        ensures finds { Finds self.old (text_of known) result }
        ensures same { self.new ≡ self.old }
    {
        let id = self.find(known.units())?;
        self.known[known.place()] = Some(id);
        Some(id)
    }

    /// The code units of the text of a number.
    pub fn units(&self, id: TextId) -> &[u16]
        requires { Has self.now id }
        ensures text { Denotes self.now id result.now }
        ensures is_text { IsText result.now }
        ensures table { IsTable self.now }
    {
        let (_, span) = entry_at(&self.spans, id);
        self.buffers.units(span)
    }

    /// The number of the text that has the units of `a` and then those of `b`.
    ///
    /// `TooLong` comes exactly where both together have more than 16,777,216.
    pub fn join(&mut self, a: TextId, b: TextId) -> Result<TextId, TextFault>
        requires first { Has self.old a }
        requires second { Has self.old b }
        ensures ok { IfOk result (λ id. (x y : Units) → Denotes self.old a x → Denotes self.old b y → Interns self.old self.new (x ++ y) id) }
        ensures too_long { (x y : Units) → Denotes self.old a x → Denotes self.old b y → (IsErrOf result TextFault.TooLong ↔ (longest < length x + length y)) }
        ensures err { OnErr result (self.new ≡ self.old) }
        ensures table { IsTable self.new }
        ensures grows { Grows self.old self.new }
    {
        let back = self.units(b);
        if self.units(a).len() + back.len() > LONGEST_TEXT {
            return Err(TextFault::TooLong);
        }
        let Ok(copy) = Vec::from_slice(self.buffers.allocator(), back) else {
            return Err(TextFault::OutOfMemory);
        };
        match self.extend(a, copy.as_slice()) {
            Ok(id) => Ok(id),
            Err(fault) => Err(fault),
        }
    }

    /// The number of the text that has the units of `front` and then these. Where `front` was put last or is the front of the text
    /// that was, its units serve both: what is behind is all that is hashed, compared and copied.
    ///
    /// `TooLong` comes exactly where both together have more than 16,777,216.
    pub fn extend(&mut self, front: TextId, back: &[u16]) -> Result<TextId, TextFault>
        requires { Has self.old front }
        ensures ok { IfOk result (λ id. (units : Units) → Denotes self.old front units → Interns self.old self.new (units ++ back.now) id) }
        ensures too_long { (units : Units) → Denotes self.old front units → (IsErrOf result TextFault.TooLong ↔ (longest < length units + length back.now)) }
        ensures err { OnErr result (self.new ≡ self.old) }
        ensures table { IsTable self.new }
        ensures grows { Grows self.old self.new }
    {
        let (key, span) = entry_at(&self.spans, front);
        if self.buffers.units(span).len() + back.len() > LONGEST_TEXT {
            return Err(TextFault::TooLong);
        }
        let hash = hash_behind(FACTOR, first_hash(key, self.buffers.units(span)), back);
        Ok(put(&mut self.spans, &mut self.buffers, hash, span, back)?)
    }

    /// How many texts there are.
    pub fn len(&self) -> usize
        ensures len { result ≡ length self.now }
        ensures table { IsTable self.now }
    {
        self.spans.len()
    }
}

/// The key of the text of a number, and where it stands.
#[inline(always)]
fn entry_at(spans: &IndexMap<Key, Span>, id: TextId) -> (Key, Span)
    requires { id.0 < length spans.now.entries }
    ensures { slice_get spans.now.entries id.0 ≡ Some result }
{
    match spans.get_index(id.0 as usize) {
        Some((key, span)) => (*key, *span),
        None => unreachable!(),
    }
}

/// The hash of a text at the first turn, which its key has if that is its turn.
fn first_hash(key: Key, units: &[u16]) -> u32
    requires { key.hash ≡ hash_of key.turn units.now }
    ensures { result ≡ hash_of 0 units.now }
{
    if key.turn == 0 {
        return key.hash;
    }
    hash_behind(FACTOR, EMPTY_HASH, units)
}

/// The hash of a text at a turn, where that at the first turn is known.
fn hash_at(buffers: &Buffers, turn: u32, first: u32, front: Span, back: &[u16]) -> u32
    requires front { IsWithin buffers.now front }
    requires first { first ≡ hash_of 0 (units_in buffers.now front ++ back.now) }
    ensures { result ≡ hash_of turn (units_in buffers.now front ++ back.now) }
{
    if turn == 0 {
        return first;
    }
    let odd = factor(turn);
    let before = hash_behind(odd, EMPTY_HASH, buffers.units(front));
    hash_behind(odd, before, back)
}

/// The text that has the units of one that stands in the buffers and then these, or the key that is free for it. The hash is that
/// at the first turn.
fn seek(
    spans: &IndexMap<Key, Span>,
    buffers: &Buffers,
    hash: u32,
    front: Span,
    back: &[u16],
) -> Sought
    requires found { AreFound buffers.now spans.now.entries }
    requires front { IsWithin buffers.now front }
    requires hash { hash ≡ hash_of 0 (units_in buffers.now front ++ back.now) }
    ensures { IsSought buffers.now spans.now.entries (units_in buffers.now front ++ back.now) result }
{
    let _count = spans.len();
    for turn in 0..u32::MAX {
        let key = Key {
            hash: hash_at(buffers, turn, hash, front, back),
            turn,
        };
        let Some(entry) = spans.get_full(&key) else {
            return Sought::Free(key);
        };
        if buffers.holds(*entry.2, front, back) {
            return Sought::There(TextId(entry.0 as u64));
        }
    }
    Sought::Full
}

/// The number of that text, which is put last where it is new.
fn put(
    spans: &mut IndexMap<Key, Span>,
    buffers: &mut Buffers,
    hash: u32,
    front: Span,
    back: &[u16],
) -> Result<TextId, OutOfMemory>
    requires found { AreFound buffers.old spans.old.entries }
    requires front { IsWithin buffers.old front }
    requires hash { hash ≡ hash_of 0 (units_in buffers.old front ++ back.now) }
    requires text { IsText (units_in buffers.old front ++ back.now) }
    ensures ok { IfOk result
        (Interns (texts_in buffers.old spans.old.entries) (texts_in buffers.new spans.new.entries) (units_in buffers.old front ++ back.now)) }
    ensures err { OnErr result (texts_in buffers.new spans.new.entries ≡ texts_in buffers.old spans.old.entries) }
    ensures grows { Grows (texts_in buffers.old spans.old.entries) (texts_in buffers.new spans.new.entries) }
    ensures found { AreFound buffers.new spans.new.entries }
{
    let key = match seek(spans, buffers, hash, front, back) {
        Sought::There(id) => return Ok(id),
        Sought::Free(key) => key,
        Sought::Full => return Err(OutOfMemory),
    };
    let span = buffers.extend(front, back)?;
    let id = add(spans, key, span)?;
    Ok(id)
}

/// Puts a text of a new key last, and gives its number.
fn add(spans: &mut IndexMap<Key, Span>, key: Key, span: Span) -> Result<TextId, OutOfMemory>
    requires { at_key spans.old.entries key ≡ None }
    ensures number { IfOk result (λ id. id.0 ≡ length spans.old.entries) }
    ensures ok { OnOk result (spans.new.entries ≡ spans.old.entries ++ (key, span) ∷ []) }
    ensures err { OnErr result (spans.new.entries ≡ spans.old.entries) }
{
    let place = spans.len();
    spans.insert(key, span)?;
    Ok(TextId(place as u64))
}
