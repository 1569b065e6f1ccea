// What gives bytes and what takes them.
ghost use Rattle.std.specs.Prelude.{◌≡◌, ◌≤◌, ◌<◌, length, IfOk};
ghost use Rattle.std.specs.Io.KnownBytes.{ReadConsumes, WriteAppends};
ghost use Rattle.wjs_io.specs.Faults.{HasCause};
ghost use Rattle.wjs_io.specs.Streams.{Seen};

/// A read or a write that failed. The source or the sink has counted it.
#[derive(Clone, Copy, Debug, PartialEq, Eq)]
pub struct Failed;

/// What gives bytes, in pieces.
pub trait Source {
    /// What is seen of it: the bytes that are left to be read, where the source tells them, and how often it has failed. A new
    /// source has failed 0 times.
    ghost seen: { Self → Seen };

    /// Reads at most `buf.len()` bytes into the front of `buf`, and returns how many. It is 0 for a
    /// buffer with room only where no byte is left.
    ///
    /// Fails only where the count of faults rose, and takes nothing then.
    fn read(&mut self, buf: &mut [u8]) -> Result<usize, Failed>
        ensures bound { IfOk result (λ n. n ≤ length buf.new) }
        ensures bytes { ReadConsumes (seen self.old).bytes (seen self.new).bytes result buf.new }
        ensures cause { HasCause (seen self.old).faults (seen self.new).faults result };
}

/// What takes bytes, in pieces.
pub trait Sink {
    /// What is seen of it: the bytes that it holds, where the sink tells them, and how often it has failed. A new sink has
    /// failed 0 times.
    ghost seen: { Self → Seen };

    /// Appends some of the first bytes, at least one where there is one, and returns how many.
    ///
    /// Fails only where the count of faults rose, and appends nothing then.
    fn write(&mut self, bytes: &[u8]) -> Result<usize, Failed>
        ensures bound { IfOk result (λ n. n ≤ length bytes.now) }
        ensures progress { IfOk result (λ n. 0 < length bytes.now → 0 < n) }
        ensures bytes { WriteAppends (seen self.old).bytes (seen self.new).bytes result bytes.now }
        ensures cause { HasCause (seen self.old).faults (seen self.new).faults result };
}
