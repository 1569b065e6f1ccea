// Reading a source to its end, and writing all of some bytes.
ghost use Rattle.std.specs.Prelude.{◌≡◌, ◌≤◌, ◌<◌, ◌+◌, [], length, take, min, vec_len, IsOk, IfOk, OnOk, IfErr, OnErr, IfSome, IsErrOf};
ghost use Rattle.std.specs.Io.KnownBytes.{Appends, Consumes, IsAtEnd, Keeps};
ghost use Rattle.wjs_io.specs.Faults.{Rises, HasCause};
ghost use Rattle.wjs_io.specs.Stops.{StopsAfter};
ghost use Rattle.wjs_io.specs.declared.loops.ReadFault.TheVariants.{Failed as SourceFailed, OutOfMemory};

use crate::traits::{Failed, Sink, Source};
use std::alloc::{AllocError, Global};

/// Why a source was not read to its end.
#[derive(Clone, Copy, Debug, PartialEq, Eq)]
pub enum ReadFault {
    /// The source failed.
    Failed,
    /// It gave one byte more than the limit.
    TooLong,
    OutOfMemory,
}

impl From<Failed> for ReadFault {
    ghost from_gives = { λ _ fault. fault ≡ SourceFailed };

    fn from(_: Failed) -> Self {
        ReadFault::Failed
    }
}

impl From<AllocError> for ReadFault {
    ghost from_gives = { λ _ fault. fault ≡ OutOfMemory };

    fn from(_: AllocError) -> Self {
        ReadFault::OutOfMemory
    }
}

/// A sink failed before all of the bytes were written.
#[derive(Clone, Copy, Debug, PartialEq, Eq)]
pub struct Stopped {
    /// How many of the bytes the sink took: the first ones, and fewer than all.
    pub gone: usize,
}

// The most bytes that one read asks for.
const PIECE: usize = 65_536;

fn zeros(alloc: Global, len: usize) -> Result<Vec<u8>, AllocError>
    ensures { IfOk result (λ zeros. vec_len zeros ≡ len) }
{
    vec![in alloc; 0; len]
}

// Reads into the front of the buffer, at most one byte more than there is room for.
fn read_piece<S: Source>(source: &mut S, buffer: &mut [u8], room: u64) -> Result<usize, Failed>
    requires { 0 < length buffer.old }
    ensures bound { IfOk result (λ n. n ≤ min (length buffer.new) (room + 1)) }
    ensures taken { IfOk result (λ n. Consumes (S.seen source.old).bytes (S.seen source.new).bytes (take n buffer.new)) }
    ensures end { IfOk result (λ n. n ≡ 0 → IsAtEnd (S.seen source.new).bytes) }
    ensures kept { OnErr result (Keeps (S.seen source.old).bytes (S.seen source.new).bytes) }
    ensures cause { HasCause (S.seen source.old).faults (S.seen source.new).faults result }
{
    let asked = room.min(buffer.len() as u64 - 1) as usize + 1;
    source.read(&mut buffer[..asked])
}

/// Reads a source to its end.
///
/// `TooLong` comes exactly where the source gave `limit + 1` bytes, and no more are asked for.
/// `Failed` comes only where the source's count of faults rose.
pub fn read_all<S: Source>(alloc: Global, source: &mut S, limit: u64) -> Result<Vec<u8>, ReadFault>
    // All that was left, which is within the limit.
    ensures all { IfOk result (λ bytes. IfSome (S.seen source.old).bytes (λ left. bytes.items ≡ left)) }
    ensures end { OnOk result (IsAtEnd (S.seen source.new).bytes) }
    ensures within { IfOk result (λ bytes. length bytes.items ≤ limit) }

    // At a fault the bytes that were read are gone: past the limit by one, or within it.
    ensures stops { IfErr result (StopsAfter limit (S.seen source.old).bytes (S.seen source.new).bytes) }

    ensures failed { IsErrOf result ReadFault.Failed → Rises (S.seen source.old).faults (S.seen source.new).faults }
    ensures never_falls { (S.seen source.old).faults ≤ (S.seen source.new).faults }
{
    let mut buffer = zeros(alloc, PIECE)?;
    let mut bytes = Vec::new(alloc);
    loop {
        let room = limit - bytes.len() as u64;
        let taken = read_piece(source, &mut buffer, room)?;
        if taken == 0 {
            return Ok(bytes);
        }
        if taken as u64 > room {
            return Err(ReadFault::TooLong);
        }
        bytes.extend_from_slice(&buffer[..taken])?;
    }
}

/// Writes all of the bytes, in as many pieces as the sink takes them in. It takes no memory.
///
/// For no bytes it makes no call.
pub fn write_all_of<O: Sink>(sink: &mut O, bytes: &[u8]) -> Result<(), Stopped>
    ensures ok { OnOk result (Appends (O.seen sink.old).bytes (O.seen sink.new).bytes bytes.now) }
    ensures few { IfErr result (λ stopped. stopped.gone < length bytes.now) }
    ensures gone { IfErr result (λ stopped. Appends (O.seen sink.old).bytes (O.seen sink.new).bytes (take stopped.gone bytes.now)) }

    ensures cause { HasCause (O.seen sink.old).faults (O.seen sink.new).faults result }
    ensures no_call { bytes.now ≡ [] → IsOk result × (sink.new ≡ sink.old) }
{
    let mut gone = 0;
    while gone < bytes.len() {
        match sink.write(&bytes[gone..]) {
            Ok(taken) => gone += taken,
            Err(Failed) => return Err(Stopped { gone }),
        }
    }
    Ok(())
}
