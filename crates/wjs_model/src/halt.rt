//! Why a run stops, and how it ends.

use wjs_base::Value;

/// Why a turn could not be taken, or its output not be written.
#[derive(Clone, Copy, Debug, PartialEq, Eq)]
pub enum Halt {
    /// The sink failed.
    SinkFailed,
    OutOfMemory,
}

/// How a run ended.
#[derive(Clone, Copy)]
pub enum Ending {
    Done,
    /// By a throw that nothing caught.
    Threw(Value),
    /// A step was due, and none was left.
    StepsSpent,
    /// The sink failed before all of the output was written.
    SinkFailed,
    OutOfMemory,
}
