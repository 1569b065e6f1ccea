//! Parts of texts.
ghost use Rattle.std.specs.Prelude.{◌≡◌};
ghost use Rattle.wjs_base.specs.Text.{Table};
ghost use Rattle.wjs_by_content.specs.Tables.{value_in};
ghost use Rattle.wjs_meaning.specs.NativesOfTexts as line;

use crate::places::{end_from_end, end_within, from_end, kept_within, or_zero};
use wjs_base::{Value, Whole};

/// The code units from a place to before another; none where they are not in order. Past the end there are none.
pub fn part_of(text: &[u16], start: usize, end: usize) -> &[u16]
    ensures { result.now ≡ line.part_of text.now start end }
{
    let end = end.min(text.len());
    if start < end { &text[start..end] } else { &[] }
}

/// The part between two places, whichever comes first (ECMA-262, 3rd edition, section 15.5.4.15).
pub fn substring(text: &[u16], start: Whole, end: Value) -> &[u16]
    ensures { (t : Table) → line.substring text.now start.number (value_in t end) ≡ result.now }
{
    let a = kept_within(or_zero(start), text.len());
    let b = end_within(end, text.len());
    part_of(text, a.min(b), a.max(b))
}

/// The part from a place to before another, each counted from the end where it is below 0 (section 15.5.4.13).
pub fn slice(text: &[u16], start: Whole, end: Value) -> &[u16]
    ensures { (t : Table) → line.slice text.now start.number (value_in t end) ≡ result.now }
{
    let a = from_end(or_zero(start), text.len());
    let b = end_from_end(end, text.len());
    part_of(text, a, b)
}

/// The code unit at a place; None exactly where there is none (section 15.5.4.5).
pub fn unit_at(text: &[u16], place: Whole) -> Option<u16>
    ensures { result ≡ line.unit_at text.now place.number }
{
    match place.get() {
        Some(n) if n >= 0 => text.get(n as usize).copied(),
        _ => None,
    }
}
