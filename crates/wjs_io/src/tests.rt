// Pieces of every size, each call failing in turn, and the edges of the limit.
ghost use Rattle.std.specs.Prelude.{◌≡◌, ◌<◌, IfOk};

use super::*;
use std::alloc::{AllocError, Global};
use std::cell::Cell;
use std::io::{Error, ErrorKind, Read, Result as IoResult, Write};
use std::test::Fail;

// 21 bytes: in pieces of 3, seven calls, and one more that finds the end.
const TEXT: &[u8] = b"worlds are kept apart";

fn source(alloc: Global, fails: &[u64], piece: usize) -> Result<MemSource, AllocError>
    requires { 0 < piece }
{
    Ok(MemSource::new(TEXT.to_vec(alloc)?, fails.to_vec(alloc)?, piece))
}

#[test]
fn the_limit_counts_to_the_byte(rt: HostRuntime) -> Result<(), Fail> {
    let alloc = rt.alloc();
    let cases = [
        (1, 21, None),
        (3, 21, None),
        (4096, 21, None),
        (4096, u64::MAX, None),
        (1, 20, Some(ReadFault::TooLong)),
        (3, 20, Some(ReadFault::TooLong)),
        (4096, 20, Some(ReadFault::TooLong)),
        (4096, 0, Some(ReadFault::TooLong)),
    ];
    for (piece, limit, fault) in cases {
        assert!(rt; piece > 0);
        match read_all(alloc, &mut source(alloc, &[], piece)?, limit) {
            Ok(bytes) => {
                assert_eq!(rt; fault, None, "pieces of {piece} up to {limit}");
                assert_eq!(rt; bytes.as_slice(), TEXT, "pieces of {piece} up to {limit}");
            }
            Err(e) => assert_eq!(rt; Some(e), fault, "pieces of {piece} up to {limit}"),
        }
    }
    Ok(())
}

#[test]
fn too_long_reads_one_byte_past_the_limit(rt: HostRuntime) -> Result<(), Fail> {
    let alloc = rt.alloc();
    let mut source = source(alloc, &[], 3)?;
    assert_eq!(rt;
        read_all(alloc, &mut source, 9).err(),
        Some(ReadFault::TooLong)
    );
    let rest = read_all(alloc, &mut source, 100)?;
    assert_eq!(rt; rest.as_slice(), &TEXT[10..]);
    Ok(())
}

#[test]
fn a_failed_read_is_a_fault(rt: HostRuntime) -> Result<(), Fail> {
    let alloc = rt.alloc();
    for call in 1..=8u64 {
        let mut source = source(alloc, &[call], 3)?;
        assert_eq!(rt;
            read_all(alloc, &mut source, 21).err(),
            Some(ReadFault::Failed),
            "call {call}"
        );
    }
    let late = read_all(alloc, &mut source(alloc, &[9], 3)?, 21)?;
    assert_eq!(rt; late.as_slice(), TEXT);
    Ok(())
}

#[test]
fn writes_all_until_a_call_fails(rt: HostRuntime) -> Result<(), Fail> {
    let alloc = rt.alloc();
    let cases = [
        (1, 22, 21),
        (1, 1, 0),
        (1, 21, 20),
        (3, 8, 21),
        (3, 1, 0),
        (3, 2, 3),
        (3, 7, 18),
        (4096, 2, 21),
        (4096, 1, 0),
    ];
    for (piece, call, gone) in cases {
        assert!(rt; piece > 0);
        assert!(rt; gone <= TEXT.len());
        let mut sink = MemSink::new(alloc, [call].to_vec(alloc)?, piece);
        let want = if gone < TEXT.len() {
            Err(Stopped { gone })
        } else {
            Ok(())
        };
        assert_eq!(rt;
            write_all_of(&mut sink, TEXT),
            want,
            "pieces of {piece}, call {call}"
        );
        assert_eq!(rt;
            sink.content(),
            &TEXT[..gone],
            "pieces of {piece}, call {call}"
        );
    }
    Ok(())
}

#[test]
fn no_bytes_are_written_by_no_call(rt: HostRuntime) -> Result<(), Fail> {
    let alloc = rt.alloc();
    let mut sink = MemSink::new(alloc, [1].to_vec(alloc)?, 1);
    assert_eq!(rt; write_all_of(&mut sink, b""), Ok(()));
    assert_eq!(rt; write_all_of(&mut sink, b"!"), Err(Stopped { gone: 0 }));
    assert_eq!(rt; write_all_of(&mut sink, b"!"), Ok(()));
    assert_eq!(rt; sink.content(), b"!".as_slice());
    Ok(())
}

#[test]
fn what_nobody_hears_is_taken(rt: HostRuntime) {
    let mut sink = Unheard;
    assert_eq!(rt; sink.write(TEXT), Ok(21));
    assert_eq!(rt; sink.write(b""), Ok(0));
    assert_eq!(rt; write_all_of(&mut sink, TEXT), Ok(()));
    assert_eq!(rt; write_pieces(&mut sink, TEXT), Ok(()));
}

// A stream whose first call a signal interrupts, and whose third fails.
#[derive(Drop)]
struct Flaky {
    calls: u8,
}

impl Flaky {
    fn call(&mut self) -> IoResult<usize>
        ensures { IfOk result (λ n. n ≡ 1) }
    {
        self.calls = self.calls.saturating_add(1);
        match self.calls {
            1 => Err(Error::from(ErrorKind::Interrupted)),
            2 => Ok(1),
            _ => Err(Error::from(ErrorKind::Other)),
        }
    }
}

impl Read for Flaky {
    fn read(&mut self, buf: &mut [u8]) -> IoResult<usize> {
        if buf.is_empty() {
            return Ok(0);
        }
        let taken = self.call()?;
        buf[0] = b'w';
        Ok(taken)
    }
}

impl Write for Flaky {
    fn write(&mut self, buf: &[u8]) -> IoResult<usize> {
        if buf.is_empty() {
            return Ok(0);
        }
        self.call()
    }

    fn flush(&mut self) -> IoResult<()> {
        Ok(())
    }
}

// Keeps what it takes until it is flushed.
#[derive(Drop)]
struct Buffered<'a> {
    taken: usize,
    flushed: &'a Cell<usize>,
}

impl Write for Buffered<'_> {
    fn write(&mut self, buf: &[u8]) -> IoResult<usize> {
        self.taken = self.taken.saturating_add(buf.len());
        Ok(buf.len())
    }

    fn flush(&mut self) -> IoResult<()> {
        self.flushed.set(self.taken);
        Ok(())
    }
}

#[test]
fn nothing_stays_in_a_buffer(rt: HostRuntime) {
    let flushed = Cell::new(0);
    let mut sink = StdSink::new(Buffered {
        taken: 0,
        flushed: &flushed,
    });
    assert_eq!(rt; write_all_of(&mut sink, TEXT), Ok(()));
    assert_eq!(rt; flushed.get(), TEXT.len());
}

#[test]
fn streams_of_std_are_read_and_written(rt: HostRuntime) -> Result<(), Fail> {
    let alloc = rt.alloc();
    let bytes = read_all(alloc, &mut StdSource::new(TEXT), 21)?;
    assert_eq!(rt; bytes.as_slice(), TEXT);

    let mut out = Vec::new(alloc);
    assert_eq!(rt; write_all_of(&mut StdSink::new(&mut out), TEXT), Ok(()));
    assert_eq!(rt; out.as_slice(), TEXT);

    let mut reader = StdSource::new(Flaky { calls: 0 });
    let mut byte = [0; 4];
    assert_eq!(rt; reader.read(&mut byte), Ok(1));
    assert_eq!(rt; reader.read(&mut byte), Err(Failed));
    let mut writer = StdSink::new(Flaky { calls: 0 });
    assert_eq!(rt; write_all_of(&mut writer, TEXT), Err(Stopped { gone: 1 }));
    let mut full = [0u8; 4];
    assert_eq!(rt;
        write_all_of(&mut StdSink::new(&mut full[..]), TEXT),
        Err(Stopped { gone: 4 })
    );
    Ok(())
}
