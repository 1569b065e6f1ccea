//! The program: it reads a script from standard input, runs it in a world, and writes what it prints
//! on standard output and a line on standard error where it is refused or a fault comes.
#![tactic(auto)]

use std::env;
use std::process::ExitCode;
use wjs_command::command;
use wjs_io::{StdSink, StdSource};

/// What the program ends with where it can't have its words.
const NO_WORDS: u8 = 9;

fn main(rt: HostRuntime) -> ExitCode {
    let Ok(args) = env::args(&rt) else {
        return ExitCode::from(NO_WORDS);
    };
    let Ok(words) = args.collect::<Vec<String>>(rt.alloc()) else {
        return ExitCode::from(NO_WORDS);
    };
    let mut source = StdSource::new(rt.stdin());
    let mut out = StdSink::new(rt.stdout());
    let mut err = StdSink::new(rt.stderr());
    let status = command(
        rt.alloc(),
        words.as_slice(),
        &mut source,
        &mut out,
        &mut err,
    );
    ExitCode::from(status.code())
}
