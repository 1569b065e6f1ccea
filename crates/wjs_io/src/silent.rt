// A sink for output that nobody wants.
ghost use Rattle.std.specs.Prelude.{◌≡◌, ◌≤◌, ◌<◌, length, None, IfOk};
ghost use Rattle.std.specs.Io.KnownBytes.{WriteAppends};
ghost use Rattle.wjs_io.specs.Faults.{HasCause};

use crate::traits::{Failed, Sink};

/// A sink that takes all that it is given and keeps none of it. It tells no bytes, and never fails: its count of faults
/// stands at 0, so a caller can prove that no fault of it is reported.
#[derive(Clone, Copy, Debug)]
pub struct Unheard;

impl Sink for Unheard {
    ghost seen = { λ _. record { bytes = None; faults = 0 } };

    fn write(&mut self, bytes: &[u8]) -> Result<usize, Failed>
        // As of every sink.
        ensures bound { IfOk result (λ n. n ≤ length bytes.now) }
        ensures progress { IfOk result (λ n. 0 < length bytes.now → 0 < n) }
        ensures bytes { WriteAppends None None result bytes.now }
        ensures cause { HasCause 0 0 result }

        // It takes all.
        ensures all { result ≡ Ok (length bytes.now) }
    {
        Ok(bytes.len())
    }
}
