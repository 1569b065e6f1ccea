// A source and a sink in memory, for tests: pieces are as small as is wanted, and named calls fail.
ghost use Rattle.std.specs.Prelude.{◌≡◌, ◌≤◌, ◌<◌, ◌-◌, ◌⊎◌, ◌↔◌, [], length, drop, min, vec_len, vec_capacity, if◌then◌else◌};
ghost use Rattle.std.specs.Prelude.{Some, IsErr, IsTrue, IfOk, is_ok};
ghost use Rattle.std.specs.Io.KnownBytes.{ReadConsumes, WriteAppends};
ghost use Rattle.wjs_io.specs.Calls.{Calls, NextFails, called, failed, no_calls};
ghost use Rattle.wjs_io.specs.Faults.{HasCause, one_more};
ghost use Rattle.wjs_io.specs.Memory.{Reading, Writing};

use crate::traits::{Failed, Sink, Source};
use std::alloc::Global;
use std::marker::Model;

// Numbers the calls from 1, and knows which of them are to fail.
#[derive(Drop)]
struct Schedule {
    fails: Vec<u64>,
    made: u64,
    faults: u64,
}

impl Model for Schedule {
    ghost Value = { Calls };

    ghost view = { λ s. record { fails = s.fails.items; made = s.made; faults = s.faults } };
}

impl Schedule {
    fn new(fails: Vec<u64>) -> Self
        ensures { result ≡ no_calls fails.items }
    {
        Schedule {
            fails,
            made: 0,
            faults: 0,
        }
    }

    // Counts a call, and says whether it is to fail. One past `u64::MAX` has no number.
    fn next_fails(&mut self) -> bool
        ensures named { IsTrue result ↔ NextFails self.old }
        ensures counted { self.new ≡ called self.old }
    {
        if self.made == u64::MAX {
            return false;
        }
        self.made += 1;
        self.fails.contains(&self.made)
    }

    fn count_fault(&mut self)
        ensures counted { self.new ≡ record self.old { faults = one_more self.old.faults } }
        ensures never_falls { self.old.faults ≤ self.new.faults }
    {
        self.faults = self.faults.saturating_add(1);
    }
}

/// Bytes that are read in pieces. Calls of `read` are numbered from 1, those past `u64::MAX` not at
/// all, and those that are named fail.
#[derive(Drop)]
pub struct MemSource {
    bytes: Vec<u8>,
    at: usize,
    piece: usize,
    schedule: Schedule,
}

impl Model for MemSource {
    ghost Value = { Reading };

    ghost view = { λ s. record { left = drop s.at s.bytes.items; piece = s.piece; calls = s.schedule } };

    ghost invariant = { λ s. (s.at ≤ vec_len s.bytes) × (0 < s.piece) };
}

impl MemSource {
    /// The calls whose numbers are in `fails` fail, and each other gives at most `piece` bytes.
    pub fn new(bytes: Vec<u8>, fails: Vec<u64>, piece: usize) -> MemSource
        requires { 0 < piece }
        ensures { result ≡ record { left = bytes.items; piece = piece; calls = no_calls fails.items } }
    {
        MemSource {
            bytes,
            at: 0,
            piece,
            schedule: Schedule::new(fails),
        }
    }
}

impl Source for MemSource {
    ghost seen = { λ s. record { bytes = Some s.left; faults = s.calls.faults } };

    fn read(&mut self, buf: &mut [u8]) -> Result<usize, Failed>
        // As of every source.
        ensures bound { IfOk result (λ n. n ≤ length buf.new) }
        ensures bytes { ReadConsumes (Some self.old.left) (Some self.new.left) result buf.new }
        ensures cause { HasCause self.old.calls.faults self.new.calls.faults result }

        // It fails exactly where the call is named, and else gives what there is, up to a piece.
        ensures named { IsErr result ↔ NextFails self.old.calls }
        ensures given { IfOk result (λ n. n ≡ min (min self.old.piece (length buf.new)) (length self.old.left)) }
        ensures rest { IfOk result (λ n. drop n buf.new ≡ drop n buf.old) }
        ensures piece { self.new.piece ≡ self.old.piece }
        ensures calls { self.new.calls ≡ (if is_ok result then called self.old.calls else failed self.old.calls) }
    {
        if self.schedule.next_fails() {
            self.schedule.count_fault();
            return Err(Failed);
        }
        let left = &self.bytes[self.at..];
        let count = self.piece.min(buf.len()).min(left.len());
        buf[..count].copy_from_slice(&left[..count]);
        self.at += count;
        Ok(count)
    }
}

/// Holds what is written, in pieces. Calls of `write` are numbered from 1, those past `u64::MAX` not
/// at all, and those that are named fail.
#[derive(Drop)]
pub struct MemSink {
    content: Vec<u8>,
    piece: usize,
    schedule: Schedule,
}

impl Model for MemSink {
    ghost Value = { Writing };

    ghost view = { λ s. record {
      held = s.content.items;
      room = vec_capacity s.content - vec_len s.content;
      piece = s.piece;
      calls = s.schedule;
    } };

    ghost invariant = { λ s. 0 < s.piece };
}

impl MemSink {
    /// The calls whose numbers are in `fails` fail, and each other takes at most `piece` bytes.
    pub fn new(alloc: Global, fails: Vec<u64>, piece: usize) -> MemSink
        requires { 0 < piece }
        ensures { result ≡ record { held = []; room = 0; piece = piece; calls = no_calls fails.items } }
    {
        MemSink {
            content: Vec::new(alloc),
            piece,
            schedule: Schedule::new(fails),
        }
    }

    /// What was written so far.
    pub fn content(&self) -> &[u8]
        ensures { result.now ≡ self.now.held }
    {
        &self.content
    }
}

impl Sink for MemSink {
    ghost seen = { λ s. record { bytes = Some s.held; faults = s.calls.faults } };

    fn write(&mut self, bytes: &[u8]) -> Result<usize, Failed>
        // As of every sink.
        ensures bound { IfOk result (λ n. n ≤ length bytes.now) }
        ensures progress { IfOk result (λ n. 0 < length bytes.now → 0 < n) }
        ensures bytes { WriteAppends (Some self.old.held) (Some self.new.held) result bytes.now }
        ensures cause { HasCause self.old.calls.faults self.new.calls.faults result }

        // It fails where the call is named, and elsewhere only where it found no memory for a piece.
        ensures named { NextFails self.old.calls → IsErr result }
        ensures only { IsErr result → NextFails self.old.calls
            ⊎ (self.old.room < min self.old.piece (length bytes.now)) }
        ensures taken { IfOk result (λ n. n ≡ min self.old.piece (length bytes.now)) }
        ensures piece { self.new.piece ≡ self.old.piece }
        ensures calls { self.new.calls ≡ (if is_ok result then called self.old.calls else failed self.old.calls) }
    {
        let count = self.piece.min(bytes.len());
        if self.schedule.next_fails() || self.content.extend_from_slice(&bytes[..count]).is_err() {
            self.schedule.count_fault();
            return Err(Failed);
        }
        Ok(count)
    }
}
