//! Why an evaluation has no end.
ghost use Rattle.std.specs.Prelude.{◌≡◌};

use wjs_base::{OutOfMemory, Value};

/// Why there is no value.
#[derive(Clone, Copy)]
pub enum Broken {
    Throws(Value),
    /// The evaluation stands still, and its frames say where.
    Stopped,
    OutOfMemory,
}

impl From<OutOfMemory> for Broken {
    ghost use Rattle.wjs_stopping.specs.declared.ends.Broken.TheVariants.{OutOfMemory};

    ghost from_gives = { λ _ end. end ≡ OutOfMemory };

    fn from(_none: OutOfMemory) -> Broken {
        Broken::OutOfMemory
    }
}
