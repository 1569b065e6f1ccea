//! Output in pieces.
ghost use Rattle.std.specs.Prelude.{OnOk, OnErr, ◌≤◌};
ghost use Rattle.wjs_io.specs.Streams.{over, Got, Stops};

use crate::loops::write_all_of;
use crate::traits::{Failed, Sink};

/// The longest piece that is handed to a sink.
pub const PIECE: usize = 4096;

/// Writes all of the bytes, in pieces of at most 4,096 bytes.
pub fn write_pieces<O: Sink>(out: &mut O, bytes: &[u8]) -> Result<(), Failed>
    ensures ok { OnOk result (Got (over O.seen out.old out.new) bytes.now) }
    ensures err { OnErr result (Stops (over O.seen out.old out.new) bytes.now) }
    ensures never_falls { (O.seen out.old).faults ≤ (O.seen out.new).faults }
{
    let mut rest = bytes;
    while !rest.is_empty() {
        let (piece, behind) = rest.split_at(rest.len().min(PIECE));
        match write_all_of(out, piece) {
            Ok(()) => rest = behind,
            Err(_stopped) => return Err(Failed),
        }
    }
    Ok(())
}
