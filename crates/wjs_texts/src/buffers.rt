//! The buffers in which texts stand, so that a text and a longer one that begins with it share their units.
ghost use Rattle.std.specs.Prelude.{◌≡◌, ◌+◌, ◌≤◌, ◌↔◌, ◌++◌, [], length, take, IfOk, IsTrue};
ghost use Rattle.wjs_texts.specs.Spans.{IsLast, IsWithin, Stands, units_in};
ghost use Rattle.wjs_base.specs.Text.{longest};

use std::alloc::{AllocError, Global};
use std::marker::Model;
use wjs_base::OutOfMemory;

/// Up to how many units a new text goes to a buffer that others share.
const SHORT: usize = 32;

/// From how many units on a shared buffer takes no further text.
const FULL: usize = 65_536;

/// How many buffers there can be.
const MOST_BUFFERS: usize = 4_294_967_295;

/// Where the units of a text stand: in a buffer, from a place on.
#[derive(Clone, Copy)]
pub(crate) struct Span {
    buffer: u32,
    start: u32,
    len: u32,
}

/// Buffers of units, each with texts one behind another. Units that stand there stay.
#[derive(Drop)]
pub(crate) struct Buffers {
    buffers: Vec<Vec<u16>>,
    /// The buffer to which short texts go.
    shared: u32,
}

impl Model for Buffers {
    ghost use Rattle.std.specs.Prelude.{◌<◌, length, map};
    ghost use Rattle.wjs_base.specs.Text.{Table};

    ghost Value = { Table };

    ghost view = { λ b. map (λ buffer. buffer.items) b.buffers.items };

    ghost invariant = { λ b. b.shared < length b.buffers.items };
}

impl Buffers {
    /// One buffer, in which nothing stands.
    pub(crate) fn new(alloc: Global) -> Result<Buffers, OutOfMemory> {
        let mut buffers = Vec::new(alloc);
        match buffers.push(Vec::new(alloc)) {
            Ok(()) => Ok(Buffers { buffers, shared: 0 }),
            Err(_) => Err(OutOfMemory),
        }
    }

    /// Where its memory comes from.
    pub(crate) fn allocator(&self) -> Global {
        *self.buffers.allocator()
    }

    /// No units: what stands in front of a text that is put behind no other.
    pub(crate) fn nothing(&self) -> Span
        ensures within { IsWithin self.now result }
        ensures units { units_in self.now result ≡ [] }
    {
        let _shared = self.shared;
        Span {
            buffer: 0,
            start: 0,
            len: 0,
        }
    }

    /// The units of a text.
    #[inline(always)]
    pub(crate) fn units(&self, span: Span) -> &[u16]
        requires { IsWithin self.now span }
        ensures { result.now ≡ units_in self.now span }
    {
        let buffer = self.buffers[span.buffer as usize].as_slice();
        let start = span.start as usize;
        &buffer[start..start + span.len as usize]
    }

    /// Whether the units of a text are those of another one and then these. Where both begin at one place, only these are compared.
    pub(crate) fn holds(&self, span: Span, front: Span, back: &[u16]) -> bool
        requires span { IsWithin self.now span }
        requires front { IsWithin self.now front }
        ensures { IsTrue result ↔ (units_in self.now span ≡ units_in self.now front ++ back.now) }
    {
        let len = front.len as usize;
        if span.len as usize != len + back.len() {
            return false;
        }
        let (_, rest) = self.units(span).split_at(len);
        if rest == back {
            return self.begins(span, front);
        }
        false
    }

    /// Whether a text begins with the units of another one.
    fn begins(&self, span: Span, front: Span) -> bool
        requires span { IsWithin self.now span }
        requires front { IsWithin self.now front }
        requires long { front.len ≤ span.len }
        ensures { IsTrue result ↔ (take front.len (units_in self.now span) ≡ units_in self.now front) }
    {
        if span.buffer == front.buffer && span.start == front.start {
            return true;
        }
        &self.units(span)[..front.len as usize] == self.units(front)
    }

    /// Puts a text into the buffers: the units of one that stands there, and then these.
    ///
    /// Where nothing stands behind that one, its units serve both, and only these are copied.
    pub(crate) fn extend(&mut self, front: Span, back: &[u16]) -> Result<Span, OutOfMemory>
        requires front { IsWithin self.old front }
        requires short { front.len + length back.now ≤ longest }
        ensures within { IfOk result (IsWithin self.new) }
        ensures units { IfOk result (λ span. units_in self.new span ≡ units_in self.old front ++ back.now) }
        ensures stands { Stands self.old self.new }
    {
        if self.is_last(front) {
            return self.append(front, back);
        }
        if front.len == 0 {
            return self.place(back);
        }
        let text = joined(self.allocator(), self.units(front), back)?;
        if text.len() <= SHORT {
            return self.place(text.as_slice());
        }
        self.push(text)
    }

    /// Whether nothing stands behind a text.
    fn is_last(&self, span: Span) -> bool
        requires { IsWithin self.now span }
        ensures { IsTrue result → IsLast self.now span }
    {
        span.start as usize + span.len as usize == self.buffers[span.buffer as usize].len()
    }

    /// Puts units behind a text behind which nothing stands. They are one text with it.
    fn append(&mut self, front: Span, back: &[u16]) -> Result<Span, OutOfMemory>
        requires last { IsLast self.old front }
        requires short { front.len + length back.now ≤ longest }
        ensures within { IfOk result (IsWithin self.new) }
        ensures units { IfOk result (λ span. units_in self.new span ≡ units_in self.old front ++ back.now) }
        ensures stands { Stands self.old self.new }
    {
        let len = front.len + back.len() as u32;
        let buffer = &mut self.buffers[front.buffer as usize];
        buffer.extend_from_slice(back)?;
        Ok(Span {
            buffer: front.buffer,
            start: front.start,
            len,
        })
    }

    /// Puts a text of its own into the buffers: a short one behind others, and a long one into a new buffer.
    fn place(&mut self, units: &[u16]) -> Result<Span, OutOfMemory>
        requires { length units.now ≤ longest }
        ensures within { IfOk result (IsWithin self.new) }
        ensures units { IfOk result (λ span. units_in self.new span ≡ units.now) }
        ensures stands { Stands self.old self.new }
    {
        if units.len() <= SHORT {
            let room = self.room()?;
            return self.append(room, units);
        }
        let text = Vec::from_slice(self.allocator(), units)?;
        self.push(text)
    }

    /// Where the next short text goes: no units, at the end of a buffer.
    fn room(&mut self) -> Result<Span, OutOfMemory>
        ensures last { IfOk result (IsLast self.new) }
        ensures empty { IfOk result (λ span. span.len ≡ 0) }
        ensures stands { Stands self.old self.new }
    {
        let start = self.buffers[self.shared as usize].len();
        if start < FULL {
            return Ok(Span {
                buffer: self.shared,
                start: start as u32,
                len: 0,
            });
        }
        let span = self.push(Vec::new(self.allocator()))?;
        self.shared = span.buffer;
        Ok(span)
    }

    /// Puts a text of its own into a new buffer.
    fn push(&mut self, text: Vec<u16>) -> Result<Span, OutOfMemory>
        requires { length text.items ≤ longest }
        ensures last { IfOk result (IsLast self.new) }
        ensures len { IfOk result (λ span. span.len ≡ length text.items) }
        ensures units { IfOk result (λ span. units_in self.new span ≡ text.items) }
        ensures stands { Stands self.old self.new }
    {
        let buffer = self.buffers.len();
        if buffer >= MOST_BUFFERS {
            return Err(OutOfMemory);
        }
        let len = text.len() as u32;
        self.buffers.push(text)?;
        Ok(Span {
            buffer: buffer as u32,
            start: 0,
            len,
        })
    }
}

/// The units of one text and then those of another.
fn joined(alloc: Global, front: &[u16], back: &[u16]) -> Result<Vec<u16>, AllocError>
    requires { length front.now + length back.now ≤ longest }
    ensures { IfOk result (λ text. text.items ≡ front.now ++ back.now) }
{
    let mut text = Vec::with_capacity(alloc, front.len() + back.len())?;
    text.extend_from_slice(front)?;
    text.extend_from_slice(back)?;
    Ok(text)
}
