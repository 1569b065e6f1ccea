//! Why a play doesn't come to its end, or doesn't begin.

use std::alloc::AllocFailed;
use thiserror::Error;
use wjs_base::OutOfMemory;
use wjs_command::Status;
use wjs_division::InputFault;
use wjs_io::ReadFault;
use wjs_load::Refusal;

/// Why a play doesn't come to its end, or doesn't begin.
#[derive(Clone, Copy, Debug, Error)]
pub enum Fault {
    #[error("read failed")]
    ReadFailed,
    #[error("too long")]
    TooLong,
    #[error("line 1: not a schedule")]
    NotASchedule,
    #[error("not UTF-8")]
    NotUtf8,
    #[error("too many activities")]
    TooManyActivities,
    #[error("line {line}: not a token")]
    NotAToken { line: u64 },
    #[error("line {line}: syntax error")]
    Unexpected { line: u64 },
    #[error("syntax error")]
    NotAScript,
    /// The library needs more steps than a try has.
    #[error("step budget spent")]
    StepsSpent,
    #[error("write failed")]
    WriteFailed,
    #[error("out of memory")]
    OutOfMemory,
}

impl Fault {
    /// The status that the program ends with.
    pub fn status(self) -> Status {
        match self {
            Fault::ReadFailed => Status::ReadFault,
            Fault::StepsSpent => Status::StepsSpent,
            Fault::WriteFailed => Status::OutFault,
            Fault::OutOfMemory => Status::OutOfMemory,
            _ => Status::Refused,
        }
    }
}

impl From<OutOfMemory> for Fault {
    fn from(_: OutOfMemory) -> Self {
        Fault::OutOfMemory
    }
}

impl<T: Drop> From<AllocFailed<T>> for Fault {
    fn from(_: AllocFailed<T>) -> Self {
        Fault::OutOfMemory
    }
}

impl From<ReadFault> for Fault {
    fn from(fault: ReadFault) -> Fault {
        match fault {
            ReadFault::TooLong => Fault::TooLong,
            ReadFault::Failed => Fault::ReadFailed,
            ReadFault::OutOfMemory => Fault::OutOfMemory,
        }
    }
}

impl From<InputFault> for Fault {
    fn from(fault: InputFault) -> Fault {
        match fault {
            InputFault::NotUtf8 => Fault::NotUtf8,
            InputFault::TooMany => Fault::TooManyActivities,
            InputFault::Refused(refusal) => below_the_schedule(refusal),
            InputFault::OutOfMemory => Fault::OutOfMemory,
        }
    }
}

/// The fault of scripts that stand behind the line of the schedule.
fn below_the_schedule(refusal: Refusal) -> Fault {
    match refusal {
        Refusal::NotUtf8 => Fault::NotUtf8,
        Refusal::NotAToken { line } => Fault::NotAToken {
            line: line.saturating_add(1),
        },
        Refusal::Unexpected { line } => Fault::Unexpected {
            line: line.saturating_add(1),
        },
        Refusal::NotAScript => Fault::NotAScript,
    }
}
