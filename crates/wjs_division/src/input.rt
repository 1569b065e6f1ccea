//! The programs of a play's parts.
ghost use Rattle.std.specs.Prelude.{◌≡◌, ℕ, List, ◌≤◌, ◌<◌, ◌^◌, true, false, All, IfOk, IfErr, IfSome, length, map, take};
ghost use Rattle.std.specs.Str.{IsUtf8};
ghost use Rattle.wjs_base.specs.Text.{Grows, IsTable};
ghost use Rattle.wjs_model.specs.Texts.{KnowsUnit, PlacesUnit};
ghost use Rattle.wjs_model.specs.Units.{unit_in};
ghost use Rattle.wjs_programs.specs.Programs.{IsProgram};
ghost use Rattle.wjs_load.specs.Loading.{Refuses};
ghost use Rattle.wjs_division.specs.Division.{part_behind, parts_of};
ghost use Rattle.wjs_division.specs.Pieces.{IsInside, piece_in, pieces_in};
ghost use Rattle.wjs_division.specs.Inputs.{ArePrograms, IsInput, IsNoInput, IsNoPart, moved_down};

use crate::division::{Piece, parts_of};
use crate::lines::line_ends;
use std::alloc::Global;
use wjs_base::OutOfMemory;
use wjs_load::{LoadFault, Refusal, load};
use wjs_model::LoadedProgram;
use wjs_texts::Texts;

/// The most parts of a play.
const MOST: usize = 1000;

/// Why bytes are no input of a play. The first of these that holds is the one that is told; a part's refusal is that of the first
/// part that is no script, with its line counted in the whole input.
#[derive(Clone, Copy, Debug, PartialEq, Eq)]
pub enum InputFault {
    NotUtf8,
    /// There are more than a thousand parts.
    TooMany,
    Refused(Refusal),
    OutOfMemory,
}

/// The loaded programs of the parts that at most 16,777,216 bytes are divided into by lines that are `---`; their texts are put into the table,
/// in which what was there keeps its number, also after a fault. Each fault but want of memory comes exactly where it holds of the
/// bytes.
pub fn load_parts(
    alloc: Global,
    bytes: &[u8],
    texts: &mut Texts,
) -> Result<Vec<LoadedProgram>, InputFault>
    requires { length bytes.now ≤ 2 ^ 24 }
    ensures ok { IfOk result (λ units. IsInput bytes.now (map (unit_in texts.new) units.items)) }
    ensures known { IfOk result (λ units. All (KnowsUnit texts.new) units.items) }
    ensures places { IfOk result (λ units. All (PlacesUnit texts.new) units.items) }
    ensures some { IfOk result (λ units. 1 ≤ length units.items) }
    ensures few { IfOk result (λ units. length units.items ≤ 1000) }
    ensures err { IfErr result (IsNoInput bytes.now) }
    ensures grows { Grows texts.old texts.new }
    ensures table { IfOk result (λ units. IsTable texts.new) }
{
    match std::str::from_utf8(bytes) {
        Ok(_text) => load_text(alloc, bytes, texts),
        Err(_) => Err(InputFault::NotUtf8),
    }
}

/// The same of bytes that are text.
fn load_text(
    alloc: Global,
    bytes: &[u8],
    texts: &mut Texts,
) -> Result<Vec<LoadedProgram>, InputFault>
    requires short { length bytes.now ≤ 2 ^ 24 }
    requires utf8 { IsUtf8 bytes.now }
    ensures ok { IfOk result (λ units. IsInput bytes.now (map (unit_in texts.new) units.items)) }
    ensures known { IfOk result (λ units. All (KnowsUnit texts.new) units.items) }
    ensures places { IfOk result (λ units. All (PlacesUnit texts.new) units.items) }
    ensures some { IfOk result (λ units. 1 ≤ length units.items) }
    ensures few { IfOk result (λ units. length units.items ≤ 1000) }
    ensures err { IfErr result (IsNoInput bytes.now) }
    ensures grows { Grows texts.old texts.new }
    ensures table { IfOk result (λ units. IsTable texts.new) }
{
    let Ok(pieces) = parts_of(alloc, bytes) else {
        return Err(InputFault::OutOfMemory);
    };
    if are_too_many(pieces.as_slice()) {
        Err(InputFault::TooMany)
    } else {
        load_pieces(alloc, bytes, pieces.as_slice(), texts)
    }
}

fn are_too_many(pieces: &[Piece]) -> bool
    ensures more { result ≡ true → 1000 < length pieces.now }
    ensures few { result ≡ false → length pieces.now ≤ 1000 }
{
    pieces.len() > MOST
}

/// The loaded programs of the parts, one after another, up to the first that is no script.
fn load_pieces(
    alloc: Global,
    bytes: &[u8],
    pieces: &[Piece],
    texts: &mut Texts,
) -> Result<Vec<LoadedProgram>, InputFault>
    requires short { length bytes.now ≤ 2 ^ 24 }
    requires utf8 { IsUtf8 bytes.now }
    requires parts { pieces_in bytes.now pieces.now ≡ parts_of bytes.now }
    requires inside { All (IsInside bytes.now) pieces.now }
    requires few { length pieces.now ≤ 1000 }
    ensures programs { IfOk result (λ units. ArePrograms (parts_of bytes.now) (map (unit_in texts.new) units.items)) }
    ensures known { IfOk result (λ units. All (KnowsUnit texts.new) units.items) }
    ensures places { IfOk result (λ units. All (PlacesUnit texts.new) units.items) }
    ensures err { IfErr result (IsNoInput bytes.now) }
    ensures grows { Grows texts.old texts.new }
    ensures table { IfOk result (λ units. IsTable texts.new) }
{
    let mut units = Vec::new(alloc);
    for piece in pieces {
        let unit = match load_piece(alloc, bytes, *piece, texts) {
            Ok(unit) => unit,
            Err(fault) => return Err(fault),
        };
        match units.push(unit) {
            Ok(()) => {}
            Err(_) => return Err(InputFault::OutOfMemory),
        }
    }
    Ok(units)
}

/// The loaded program of a part.
fn load_piece(
    alloc: Global,
    bytes: &[u8],
    piece: Piece,
    texts: &mut Texts,
) -> Result<LoadedProgram, InputFault>
    requires short { length bytes.now ≤ 2 ^ 24 }
    requires inside { IsInside bytes.now piece }
    requires front { IsUtf8 (take piece.from bytes.now) }
    ensures ok { IfOk result (λ unit. IsProgram (piece_in bytes.now piece).bytes (unit_in texts.new unit)) }
    ensures known { IfOk result (KnowsUnit texts.new) }
    ensures places { IfOk result (PlacesUnit texts.new) }
    ensures err { IfErr result (IsNoPart (piece_in bytes.now piece)) }
    ensures grows { Grows texts.old texts.new }
    ensures table { IsTable texts.new }
{
    match load(alloc, &bytes[piece.from..piece.to], texts) {
        Ok(unit) => Ok(unit),
        Err(LoadFault::Refused(refusal)) => Err(refusal_below(
            alloc,
            &bytes[..piece.from],
            refusal,
        )),
        Err(LoadFault::OutOfMemory) => Err(InputFault::OutOfMemory),
    }
}

/// The fault of a part that is refused so and stands behind a text. Its line is counted in both.
fn refusal_below(alloc: Global, front: &[u8], refusal: Refusal) -> InputFault
    requires utf8 { IsUtf8 front.now }
    requires short { length front.now ≤ 2 ^ 24 }
    ensures { (bytes : List ℕ) → Refuses bytes refusal → IsNoPart (part_behind front.now bytes) result }
{
    let Ok(lines) = line_ends(alloc, front) else {
        return InputFault::OutOfMemory;
    };
    match move_down(refusal, lines) {
        Some(refusal) => InputFault::Refused(refusal),
        None => InputFault::OutOfMemory,
    }
}

/// A refusal whose line is counted from so many lines further up; None only where its number would have no place.
fn move_down(refusal: Refusal, lines: u64) -> Option<Refusal>
    ensures { IfSome result (λ moved. moved ≡ moved_down lines refusal) }
{
    match refusal {
        Refusal::NotAToken { line } => {
            let line = lines.checked_add(line)?;
            Some(Refusal::NotAToken { line })
        }
        Refusal::Unexpected { line } => {
            let line = lines.checked_add(line)?;
            Some(Refusal::Unexpected { line })
        }
        Refusal::NotUtf8 => Some(Refusal::NotUtf8),
        Refusal::NotAScript => Some(Refusal::NotAScript),
    }
}
