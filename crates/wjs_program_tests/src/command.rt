//! The command over streams in memory, and over full copies.

mod copies;
mod streams;

use std::alloc::{AllocError, Global};
use wjs_command::{Status, command};
use wjs_io::{MemSink, MemSource};

/// A stream in memory: the most bytes of a call, one at least, and the number of the call that fails, from 1, or 0.
#[derive(Clone, Copy)]
struct Flow(usize, u64);

/// A stream that doesn't fail.
const WHOLE: Flow = Flow(4096, 0);

/// A run: the words after the program's name, the script and the streams.
#[derive(Clone, Copy)]
struct Run {
    words: &'static [&'static str],
    script: &'static [u8],
    source: Flow,
    out: Flow,
    err: Flow,
}

/// What a run wrote, and how it ended.
#[derive(Drop)]
struct Ended {
    out: Vec<u8>,
    err: Vec<u8>,
    status: Status,
}

fn words(alloc: Global, line: &[&str]) -> Result<Vec<String>, AllocError> {
    let mut words = Vec::new(alloc);
    words.push(String::from_str(alloc, "worlds")?)?;
    for word in line {
        words.push(String::from_str(alloc, word)?)?;
    }
    Ok(words)
}

fn source(alloc: Global, bytes: &[u8], flow: Flow) -> Result<MemSource, AllocError> {
    let Flow(piece, fails) = flow;
    let fails = [fails].to_vec(alloc)?;
    Ok(MemSource::new(bytes.to_vec(alloc)?, fails, piece.max(1)))
}

fn sink(alloc: Global, flow: Flow) -> Result<MemSink, AllocError> {
    let Flow(piece, fails) = flow;
    let fails = [fails].to_vec(alloc)?;
    Ok(MemSink::new(alloc, fails, piece.max(1)))
}

fn outcome(alloc: Global, run: Run) -> Result<Ended, AllocError> {
    let words = words(alloc, run.words)?;
    let mut source = source(alloc, run.script, run.source)?;
    let mut out = sink(alloc, run.out)?;
    let mut err = sink(alloc, run.err)?;
    let status = command(alloc, words.as_slice(), &mut source, &mut out, &mut err);
    Ok(Ended {
        out: out.content().to_vec(alloc)?,
        err: err.content().to_vec(alloc)?,
        status,
    })
}

/// Whether the run writes this on out and on err, and ends so.
fn comes_to(
    alloc: Global,
    run: Run,
    out: &[u8],
    err: &[u8],
    status: Status,
) -> Result<bool, AllocError> {
    let ended = outcome(alloc, run)?;
    Ok(ended.out.as_slice() == out && ended.err.as_slice() == err && ended.status == status)
}
