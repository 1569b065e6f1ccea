//! How a run of the program ends.

/// How a run of the program ends.
#[derive(Clone, Copy, Debug, PartialEq, Eq)]
pub enum Status {
    /// The run ended normally, the script was checked, all activities of a play have ended, or the audit says yes.
    Done,
    /// The run ended by a throw.
    Threw,
    /// It needed more steps than there were; in a play the library did.
    StepsSpent,
    /// Memory ran out.
    OutOfMemory,
    /// The bytes were refused: they are too many, or no script, no scripts of a play, or no log whose answers are right.
    Refused,
    /// The words were not understood, and nothing was read.
    Usage,
    /// The source failed.
    ReadFault,
    /// The output could not be written.
    OutFault,
    /// The line on errors could not be written.
    ErrFault,
}

impl Status {
    ghost use Rattle.std.specs.Prelude.{◌≡◌};
    ghost use Rattle.wjs_command.specs.Status.{code_of};

    /// The number that the program ends with, from 0 to 8 in the order of the variants.
    pub fn code(self) -> u8
        ensures { result ≡ code_of self }
    {
        match self {
            Status::Done => 0,
            Status::Threw => 1,
            Status::StepsSpent => 2,
            Status::OutOfMemory => 3,
            Status::Refused => 4,
            Status::Usage => 5,
            Status::ReadFault => 6,
            Status::OutFault => 7,
            Status::ErrFault => 8,
        }
    }
}
