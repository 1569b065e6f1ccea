//! The pieces of a text between separators (ECMA-262, 3rd edition, section 15.5.4.14).
ghost use Rattle.std.specs.Prelude.{◌≡◌, ◌<◌, ◌++◌, ◌∷◌, [], IfOk, OnOk, length};
ghost use Rattle.wjs_by_content.specs.Values.{String};
ghost use Rattle.wjs_meaning.specs.NativesOfTexts as line;
ghost use Rattle.wjs_strings.specs.Pieces.{texts_of, up_to, has_room};

use crate::periods::periods;
use crate::search::find;
use std::alloc::Global;
use wjs_base::OutOfMemory;

/// A piece of a text, from its first code unit to before its end.
#[derive(Clone, Copy)]
pub struct Piece {
    pub start: usize,
    pub end: usize,
}

/// The pieces of a text between separators, no more than a limit; between the code units where the separator is empty.
pub fn split(
    alloc: Global,
    text: &[u16],
    separator: &[u16],
    limit: Option<u32>,
) -> Result<Vec<Piece>, OutOfMemory>
    ensures { IfOk result (λ pieces. texts_of text.now pieces.items ≡ up_to limit (line.parts_of text.now (String separator.now))) }
{
    if separator.is_empty() {
        split_units(alloc, text, limit)
    } else {
        split_between(alloc, text, separator, limit)
    }
}

/// The code units of a text, each a piece.
fn split_units(alloc: Global, text: &[u16], limit: Option<u32>) -> Result<Vec<Piece>, OutOfMemory>
    ensures { IfOk result (λ pieces. texts_of text.now pieces.items ≡ up_to limit (line.parts_of text.now (String []))) }
{
    let mut pieces = Vec::new(alloc);
    let mut start = 0;
    'units: while start < text.len() && has_room(limit, start) {
        add_piece(&mut pieces, start, start + 1)?;
        start += 1;
    }
    Ok(pieces)
}

/// The pieces of a text between separators that are not empty.
fn split_between(
    alloc: Global,
    text: &[u16],
    separator: &[u16],
    limit: Option<u32>,
) -> Result<Vec<Piece>, OutOfMemory>
    requires { 0 < length separator.now }
    ensures { IfOk result (λ pieces. texts_of text.now pieces.items ≡ up_to limit (line.parts_from separator.now 0 [] text.now)) }
{
    let periods = periods(alloc, separator)?;
    let mut pieces = Vec::new(alloc);
    let mut start = 0;
    'pieces: while has_room(limit, pieces.len()) {
        let Some(end) = find(text, separator, periods.as_slice(), start, 0) else {
            add_piece(&mut pieces, start, text.len())?;
            return Ok(pieces);
        };
        add_piece(&mut pieces, start, end)?;
        start = end + separator.len();
    }
    Ok(pieces)
}

/// Whether more than so many are allowed.
fn has_room(limit: Option<u32>, count: usize) -> bool
    ensures { result ≡ has_room limit count }
{
    match limit {
        Some(limit) => count < limit as usize,
        None => true,
    }
}

fn add_piece(pieces: &mut Vec<Piece>, start: usize, end: usize) -> Result<(), OutOfMemory>
    ensures { OnOk result (pieces.new.items ≡ pieces.old.items ++ record { start = start; end = end } ∷ []) }
{
    pieces.push(Piece { start, end })?;
    Ok(())
}
