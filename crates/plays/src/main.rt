//! A host of activities: it plays what standard input gives, with the turns that its first line tells, and so shows how
//! [`wjs_activity::play`] is called.
//!
//! The first line is as `1:1000000 2:9 turn 1 steps 3000`: a turn of 1,000,000 steps of activity 1, then one of 9 of activity 2, then
//! rounds whose turns have one step each; a try has 3,000 steps, and so has the library. The scripts stand below it, divided by lines
//! `---`, as in mode `play` of `worlds`. Output and statuses are those of that mode, and a line is counted in the whole input; a first
//! line that is no schedule is refused, too.
#![tactic(auto)]

mod fault;
mod playing;
mod schedule;

use crate::fault::Fault;
use crate::playing::play_source;
use std::process::ExitCode;
use wjs_command::Status;
use wjs_io::{StdSink, StdSource};

fn main(rt: HostRuntime) -> ExitCode {
    let mut source = StdSource::new(rt.stdin());
    let mut out = StdSink::new(rt.stdout());
    let status = match play_source(rt.alloc(), &mut source, &mut out) {
        Ok(()) => Status::Done,
        Err(fault) => told(&rt, fault),
    };
    ExitCode::from(status.code())
}

/// Tells a fault on a line of standard error, and gives its status. Where the output can't be written there is no line.
fn told(rt: &impl Eprint, fault: Fault) -> Status {
    let status = fault.status();
    if status == Status::OutFault {
        return status;
    }
    match eprintln!(rt; "{fault}") {
        Ok(()) => status,
        Err(_) if status == Status::OutOfMemory => status,
        Err(_) => Status::ErrFault,
    }
}
