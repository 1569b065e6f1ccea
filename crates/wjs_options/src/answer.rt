//! What the words ask for.
ghost use Rattle.std.specs.Prelude.{◌≡◌};

use crate::mode::Mode;
use std::alloc::AllocError;

/// What the words ask for.
#[derive(Clone, Copy)]
pub struct Options {
    /// The most steps that a run may take, or in a play each try and the library, from 1 to 1,000,000,000,000.
    pub steps: u64,
    /// What to do.
    pub mode: Mode,
    /// The number that the generated script is made from, from 1 to 50,000.
    pub number: u64,
    /// The steps of a turn of a play, from 1 to 1,000,000.
    pub turn: u64,
}

/// Why the words give no options.
#[derive(Debug, Drop)]
pub enum WordsFault {
    /// They are not the command's, or ask for its help. This is the line for standard error:
    /// `usage: `, the first line of `clap`'s fault, and a line feed.
    Usage(String),
    OutOfMemory,
}

impl From<AllocError> for WordsFault {
    ghost use Rattle.wjs_options.specs.declared.answer.WordsFault.TheVariants.{OutOfMemory};

    ghost from_gives = { λ _ fault. fault ≡ OutOfMemory };

    fn from(_error: AllocError) -> WordsFault {
        WordsFault::OutOfMemory
    }
}
