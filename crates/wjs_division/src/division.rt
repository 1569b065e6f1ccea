//! The parts of a play's input.
ghost use Rattle.std.specs.Prelude.{◌≡◌, ◌<◌, ◌≤◌, ◌∷◌, ◌++◌, [], All, IfOk, OnOk, drop, length, take};
ghost use Rattle.wjs_division.specs.Division.{divides, lines_of, parts_of};
ghost use Rattle.wjs_division.specs.Pieces.{IsInside, TakesIn, piece_of, pieces_in};

use std::alloc::Global;
use wjs_base::OutOfMemory;

/// Where a part stands among the bytes: from its first byte up to the one behind its last.
#[derive(Clone, Copy, Debug, PartialEq, Eq)]
pub struct Piece {
    pub from: usize,
    pub to: usize,
}

/// The parts that were found so far, and where the one at hand begins.
#[derive(Drop)]
struct Division {
    pieces: Vec<Piece>,
    from: usize,
}

/// The parts of bytes, which are divided at each line that is `---` and nothing more. A line ends at LF or at the end. No part is left
/// out, so there is always one, and an empty part is an empty script.
pub fn parts_of(alloc: Global, bytes: &[u8]) -> Result<Vec<Piece>, OutOfMemory>
    ensures parts { IfOk result (λ pieces. pieces_in bytes.now pieces.items ≡ parts_of bytes.now) }
    ensures inside { IfOk result (λ pieces. All (IsInside bytes.now) pieces.items) }
{
    let mut division = Division {
        pieces: Vec::new(alloc),
        from: 0,
    };
    let mut line = 0;
    while line < bytes.len() {
        let next = line + line_len(&bytes[line..]);
        division.take_in(bytes, line, next)?;
        line = next;
    }
    division.begin_part(line, line)?;
    Ok(division.pieces)
}

/// How long the first line is, with the LF that ends it.
fn line_len(bytes: &[u8]) -> usize
    requires { 0 < length bytes.now }
    ensures some { 0 < result }
    ensures within { result ≤ length bytes.now }
    ensures line { lines_of bytes.now ≡ take result bytes.now ∷ lines_of (drop result bytes.now) }
{
    for (place, byte) in bytes.iter().enumerate() {
        if *byte == b'\n' {
            return place + 1;
        }
    }
    bytes.len()
}

/// Whether a line, with the LF that ends it or at the end, divides the input.
fn divides(line: &[u8]) -> bool
    ensures { result ≡ divides line.now }
{
    line == b"---".as_slice() || line == b"---\n".as_slice()
}

impl Division {
    /// Takes in the line between two places.
    fn take_in(&mut self, bytes: &[u8], line: usize, next: usize) -> Result<(), OutOfMemory>
        requires from { self.old.from ≤ line }
        requires order { line ≤ next }
        requires within { next ≤ length bytes.now }
        ensures { OnOk result (TakesIn bytes.now line next self.old self.new) }
    {
        if divides(&bytes[line..next]) {
            self.begin_part(line, next)
        } else {
            Ok(())
        }
    }

    /// The part at hand ends before a place, and the next one begins at another.
    fn begin_part(&mut self, end: usize, next: usize) -> Result<(), OutOfMemory>
        ensures pieces { OnOk result (self.new.pieces.items ≡ self.old.pieces.items ++ piece_of self.old.from end ∷ []) }
        ensures from { OnOk result (self.new.from ≡ next) }
    {
        let piece = Piece {
            from: self.from,
            to: end,
        };
        match self.pieces.push(piece) {
            Ok(()) => {
                self.from = next;
                Ok(())
            }
            Err(_) => Err(OutOfMemory),
        }
    }
}
