//! What a scan by pieces wrote, and was not handed out yet.
ghost use Rattle.std.specs.Prelude.{◌≡◌, ℕ, ◌+◌, ◌-◌, ◌^◌, ◌<◌, ◌≤◌, List, []};
ghost use Rattle.std.specs.Prelude.{◌++◌, take, drop, length, vec_len, true, OnOk};
ghost use Rattle.lex_io.specs.Sink.{fault_count};
ghost use Rattle.liblex_calls.specs.Buffers.{HandedOut};
ghost use Rattle.liblex_calls.specs.Ends.{Kept, Kept-nil, Kept-trans};

use crate::buffers::hand_out;
use lex_io::copy_to;
use lexkit::{Sink, WriteFault};
use std::alloc::{AllocError, Global};

/// How many bytes there is room for at first.
const FIRST_ROOM: usize = 4_096;

/// What was written and was not handed out yet: the bytes of the buffer from `from` to `end`. What follows is room, so
/// that a short write is mostly a short copy. As a sink it fails only where memory is refused.
#[derive(Drop)]
pub(crate) struct Backlog {
    buffer: Vec<u8>,
    /// How many of the bytes were handed out.
    from: usize,
    /// Where what was written ends.
    end: usize,
    /// How often it failed as a sink since `begin`.
    failures: u64,
    ghost inside: { from ≤ end },
    ghost in_buffer: { end ≤ length buffer.items },
    ghost failures_bound: { failures < 2 ^ 64 },
}

impl Backlog {
    ghost use Rattle.liblex_calls.specs.Backlogs.{rest};

    /// One with nothing in it.
    pub(crate) fn new(alloc: Global) -> Backlog
        ensures { rest result ≡ [] }
    {
        Backlog {
            buffer: Vec::new(alloc),
            from: 0,
            end: 0,
            failures: 0,
        }
    }

    /// How many bytes were not handed out yet.
    pub(crate) fn len(&self) -> usize
        ensures { result ≡ length (rest self.now) }
    {
        self.end - self.from
    }

    /// Forgets the faults that were counted.
    pub(crate) fn begin(&mut self)
        ensures bytes { rest self.new ≡ rest self.old }
        ensures failures { self.new.failures ≡ 0 }
    {
        self.failures = 0;
    }

    /// Hands out the first bytes, as many as the buffer has room for, and tells how many there are.
    pub(crate) fn hand_out(&mut self, buffer: &mut [u8], count: &mut usize)
        ensures handed { HandedOut (rest self.old) buffer.old buffer.new count.new }
        ensures left { rest self.new ≡ drop (length buffer.old) (rest self.old) }
    {
        hand_out(&self.buffer[self.from..self.end], buffer, count);
        self.drop_first((*count).min(buffer.len()));
    }

    /// Drops the first bytes. What was handed out is moved over once it is half of all, so that each byte is moved
    /// once.
    fn drop_first(&mut self, count: usize)
        requires { count ≤ length (rest self.old) }
        ensures { rest self.new ≡ drop count (rest self.old) }
    {
        let from = self.from + count;
        let left = self.end - from;
        if left <= from {
            self.buffer.copy_within(from..self.end, 0);
            self.from = 0;
            self.end = left;
        } else {
            self.from = from;
        }
    }

    /// Makes the buffer longer, by as many bytes at least.
    #[cold]
    #[inline(never)]
    fn grow(&mut self, count: usize) -> Result<(), AllocError>
        requires { count < 2 ^ 63 }
        ensures bytes { rest self.new ≡ rest self.old }
        ensures failures { self.new.failures ≡ self.old.failures }
        ensures room { OnOk result (self.new.end + count ≤ vec_len self.new.buffer) }
    {
        let size = self.buffer.len();
        self.buffer
            .resize(size + size.max(count).max(FIRST_ROOM), 0)
    }

    /// Makes room for so many bytes more.
    #[inline(always)]
    fn make_room(&mut self, count: usize) -> Result<(), AllocError>
        requires { count < 2 ^ 63 }
        ensures bytes { rest self.new ≡ rest self.old }
        ensures failures { self.new.failures ≡ self.old.failures }
        ensures room { OnOk result (self.new.end + count ≤ vec_len self.new.buffer) }
    {
        if count <= self.buffer.len() - self.end {
            return Ok(());
        }
        self.grow(count)
    }

    /// Appends bytes that there is room for.
    #[inline(always)]
    fn append(&mut self, bytes: &[u8])
        requires { self.old.end + length bytes.now ≤ vec_len self.old.buffer }
        ensures bytes { take self.new.end self.new.buffer.items ≡ take self.old.end self.old.buffer.items ++ bytes.now }
        ensures from { self.new.from ≡ self.old.from }
        ensures failures { self.new.failures ≡ self.old.failures }
    {
        let begin = self.end;
        let end = begin + bytes.len();
        copy_to(&mut self.buffer[begin..end], bytes);
        self.end = end;
    }
}

impl Sink for Backlog {
    ghost use Rattle.liblex_calls.specs.Backlogs.{rest};

    ghost wrote = { λ s xs t. Kept (rest s) (rest t) xs };

    ghost failures = { λ s. s.failures };

    ghost flushed = { λ s. true };

    /// Keeps the bytes behind what waits.
    #[inline]
    fn put(&mut self, bytes: &[u8]) -> Result<(), WriteFault> {
        match self.make_room(bytes.len()) {
            Ok(()) => {
                self.append(bytes);
                Ok(())
            }
            Err(_) => {
                self.failures += 1;
                Err(WriteFault)
            }
        }
    }

    /// Nothing is held back.
    #[inline]
    fn flush(&mut self) -> Result<(), WriteFault> {
        Ok(())
    }

    /// How many bytes there is room for.
    #[inline]
    fn room(&self) -> usize {
        self.buffer.len() - self.end
    }

    /// Keeps as many of the bytes as there is room for.
    #[inline]
    fn hold(&mut self, bytes: &[u8]) -> usize {
        let count = bytes.len().min(self.buffer.len() - self.end);
        self.append(&bytes[..count]);
        count
    }

    ghost wrote_none = { λ s. Kept-nil (rest s) };

    ghost wrote_more = { λ s t u xs ys p q. Kept-trans (rest s) (rest t) (rest u) xs ys p q };

    ghost failures_bound = { λ s. s.failures_bound };
}
