//! A sink over memory, mostly for tests: it keeps what it is given, and may fail once, at a stated place. `null_sink`
//! has one that keeps nothing.
ghost use Rattle.std.specs.Prelude.{◌≡◌, ℕ, ◌+◌, ◌-◌, ◌^◌, ◌<◌, ◌≤◌, Bool, true, false};
ghost use Rattle.std.specs.Prelude.{List, [], ◌++◌, length, take, None, Some, OnOk, ◌↔◌};
ghost use Rattle.std.specs.Result.{IsErr};
ghost use Rattle.lex_io.specs.Sink.{Appended, fault_count};
ghost use Rattle.lex_io.specs.Growing.{Grows, Grows-nil, Grows-trans};

use crate::sink::{Sink, WriteFault};
use std::alloc::Global;
use std::mem;

/// Keeps the bytes that it is given.
///
/// It may fail once, at a place among the bytes or in a flush. What a caller puts after that is kept.
#[derive(Drop)]
pub struct MemorySink {
    written: Vec<u8>,
    room: Option<usize>,
    flush_fails: bool,
    failures: u64,
    flushed: bool,
    ghost failures_bound: { failures < 2 ^ 64 },
}

impl MemorySink {
    ghost use Rattle.lex_io.specs.MemorySinks.{written_of, room_of, flush_fails, is_flushed, fitting};

    /// Fails only where memory runs out.
    pub fn new(alloc: Global) -> MemorySink
        ensures empty { written_of result ≡ [] }
        ensures room { room_of result ≡ None }
        ensures flush { flush_fails result ≡ false }
        ensures failures { ⟦<MemorySink as Sink>⟧.failures result ≡ 0 }
    {
        MemorySink {
            written: Vec::new(alloc),
            room: None,
            flush_fails: false,
            failures: 0,
            flushed: false,
        }
    }

    /// Takes this many bytes, and fails in the call that gives one more.
    pub fn failing_after(alloc: Global, count: usize) -> MemorySink
        ensures empty { written_of result ≡ [] }
        ensures room { room_of result ≡ Some count }
        ensures flush { flush_fails result ≡ false }
        ensures failures { ⟦<MemorySink as Sink>⟧.failures result ≡ 0 }
    {
        MemorySink {
            written: Vec::new(alloc),
            room: Some(count),
            flush_fails: false,
            failures: 0,
            flushed: false,
        }
    }

    /// Fails in its first flush.
    pub fn failing_flush(alloc: Global) -> MemorySink
        ensures empty { written_of result ≡ [] }
        ensures room { room_of result ≡ None }
        ensures flush { flush_fails result ≡ true }
        ensures failures { ⟦<MemorySink as Sink>⟧.failures result ≡ 0 }
    {
        MemorySink {
            written: Vec::new(alloc),
            room: None,
            flush_fails: true,
            failures: 0,
            flushed: false,
        }
    }

    /// How many of this many bytes the next `put` takes.
    fn room_for(&self, count: usize) -> usize
        ensures { result ≡ fitting (room_of self.now) count }
    {
        match self.room {
            None => count,
            Some(room) => count.min(room),
        }
    }

    /// All that was appended so far.
    pub fn written(&self) -> &[u8]
        ensures { result.now ≡ written_of self.now }
    {
        self.written.as_slice()
    }

    /// Whether a flush was answered since the last `put`, or since the sink was made.
    pub fn is_flushed(&self) -> bool
        ensures { result ≡ is_flushed self.now }
    {
        self.flushed
    }

    /// All that was appended so far, without a copy.
    pub fn into_bytes(self) -> Vec<u8>
        ensures { result.items ≡ written_of self }
    {
        let MemorySink { written, .. } = self;
        written
    }

    /// All that was appended so far, without a copy. The sink goes on with none, and fails as before.
    pub fn take_bytes(&mut self, alloc: Global) -> Vec<u8>
        ensures bytes { result.items ≡ written_of self.old }
        ensures empty { written_of self.new ≡ [] }
        ensures room { room_of self.new ≡ room_of self.old }
        ensures flush { flush_fails self.new ≡ flush_fails self.old }
        ensures flushed { is_flushed self.new ≡ is_flushed self.old }
        ensures failures { ⟦<MemorySink as Sink>⟧.failures self.new ≡ ⟦<MemorySink as Sink>⟧.failures self.old }
    {
        mem::replace(&mut self.written, Vec::new(alloc))
    }
}

impl Sink for MemorySink {
    ghost use Rattle.lex_io.specs.MemorySinks.{written_of, room_of, flush_fails, is_flushed, failures_of, fitting, left};

    ghost wrote = { λ s xs t. Grows (written_of s) (written_of t) xs };

    ghost failures = { λ s. failures_of s };

    ghost flushed = { λ s. is_flushed s };

    /// Fails where the bytes pass the room that is left, or where memory runs out.
    fn put(&mut self, bytes: &[u8]) -> Result<(), WriteFault>
        requires { failures_of self.old < 2 ^ 64 - 1 }
        ensures bytes { Appended (λ xs. Grows (written_of self.old) (written_of self.new) xs) bytes.now result }
        ensures failures { failures_of self.new ≡ failures_of self.old + fault_count result }
        ensures full { OnOk result ((room : ℕ) → room_of self.old ≡ Some room → length bytes.now ≤ room) }
        ensures room { OnOk result (room_of self.new ≡ left (room_of self.old) (length bytes.now)) }
        ensures unflushed { is_flushed self.new ≡ false }
    {
        self.flushed = false;
        let count = self.room_for(bytes.len());
        if self.written.extend_from_slice(&bytes[..count]).is_err() {
            self.failures += 1;
            return Err(WriteFault);
        }
        if count < bytes.len() {
            self.room = None;
            self.failures += 1;
            return Err(WriteFault);
        }
        self.room = self.room.map(|room| room.saturating_sub(count));
        Ok(())
    }

    /// Fails exactly in the first flush, where the sink was made so.
    fn flush(&mut self) -> Result<(), WriteFault>
        requires { failures_of self.old < 2 ^ 64 - 1 }
        ensures bytes { Grows (written_of self.old) (written_of self.new) [] }
        ensures failures { failures_of self.new ≡ failures_of self.old + fault_count result }
        ensures fails { IsErr result ↔ flush_fails self.old ≡ true }
        ensures once { flush_fails self.new ≡ false }
        ensures flushed { OnOk result (is_flushed self.new ≡ true) }
    {
        if !self.flush_fails {
            self.flushed = true;
            return Ok(());
        }
        self.flush_fails = false;
        self.failures += 1;
        Err(WriteFault)
    }

    /// How many bytes `put` takes, if memory lasts.
    fn room(&self) -> usize {
        self.room_for(usize::MAX)
    }

    /// Takes as many as `put` does, and none where memory runs out.
    fn hold(&mut self, bytes: &[u8]) -> usize
        ensures few { result ≤ length bytes.now }
        ensures fits { result ≤ fitting (room_of self.old) (length bytes.now) }
        ensures bytes { Grows (written_of self.old) (written_of self.new) (take result bytes.now) }
        ensures failures { failures_of self.new ≡ failures_of self.old }
        ensures room { room_of self.new ≡ left (room_of self.old) result }
        ensures unflushed { is_flushed self.new ≡ false }
    {
        self.flushed = false;
        let count = self.room_for(bytes.len());
        if self.written.extend_from_slice(&bytes[..count]).is_err() {
            return 0;
        }
        self.room = self.room.map(|room| room.saturating_sub(count));
        count
    }

    ghost wrote_none = { λ s. Grows-nil s.written.items };

    ghost wrote_more = { λ s t u xs ys p q. Grows-trans s.written.items t.written.items u.written.items xs ys p q };

    ghost failures_bound = { λ s. s.failures_bound };
}
