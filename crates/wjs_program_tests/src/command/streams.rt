//! Streams that take or give a byte a call: to the end, and where one of them fails.

use super::*;
use std::test::Fail;

/// A stream that takes or gives one byte a call.
const SLOW: Flow = Flow(1, 0);

/// A script that writes to both streams.
const SCRIPT: &[u8] = b"print(\"abcdef\"); throw 1;";

/// Runs, each with what comes on out and on err, and the status.
const ROWS: [(Run, &[u8], &[u8], Status); 4] = [
    (
        Run {
            words: &["--steps", "1000"],
            script: SCRIPT,
            source: SLOW,
            out: SLOW,
            err: SLOW,
        },
        b"abcdef\n",
        b"uncaught 1\n",
        Status::Threw,
    ),
    (
        Run {
            words: &["--steps", "1000"],
            script: SCRIPT,
            source: Flow(1, 5),
            out: SLOW,
            err: SLOW,
        },
        b"",
        b"read failed\n",
        Status::ReadFault,
    ),
    (
        Run {
            words: &["--steps", "1000"],
            script: SCRIPT,
            source: SLOW,
            out: Flow(1, 4),
            err: SLOW,
        },
        b"abc",
        b"",
        Status::OutFault,
    ),
    (
        Run {
            words: &["--steps", "1000"],
            script: SCRIPT,
            source: SLOW,
            out: SLOW,
            err: Flow(1, 4),
        },
        b"abcdef\n",
        b"unc",
        Status::ErrFault,
    ),
];

#[test]
fn streams_that_fail(rt: HostRuntime) -> Result<(), Fail> {
    for &(run, out, err, status) in &ROWS {
        assert!(rt; comes_to(rt.alloc(), run, out, err, status)?);
    }
    Ok(())
}
