//! A sink over a writer with a buffer, which knows whether the buffer is empty.
ghost use Rattle.std.specs.Prelude.{◌≡◌, ℕ, ◌+◌, ◌-◌, ◌^◌, ◌<◌, ◌≤◌, Bool, true, List, [], ◌++◌, OnOk};
ghost use Rattle.std.specs.Prelude.{length, take, min};
ghost use Rattle.std.specs.Io.KnownBytes.{Appends};
ghost use Rattle.std.proofs.KnownBytes.{Appends-nil, Appends-trans};
ghost use Rattle.lex_io.specs.ByteReaders.{is_none};
ghost use Rattle.lex_io.specs.ByteWriters.{bytes_held, bytes_written, room_in};
ghost use Rattle.lex_io.specs.Sink.{Appended, fault_count};

use crate::byte_writer::ByteWriter;
use crate::sink::{Sink, WriteFault, write_whole};
use std::io::Write;

/// How often a sink failed.
#[derive(Drop)]
struct Failures {
    count: u64,
    ghost bound: { count < 2 ^ 64 },
}

/// Puts bytes as `ToWrite` does. It is flushed where the writer holds none of them back.
#[derive(Drop)]
pub struct ToBytes<W: Write + Drop> {
    writer: ByteWriter<W>,
    failures: Failures,
}

impl<W: Write + Drop> ToBytes<W> {
    ghost use Rattle.lex_io.specs.Adapters.{byte_writer_of, byte_writer_failures};

    /// A sink over this writer, with no failure counted yet.
    pub fn new(writer: ByteWriter<W>) -> ToBytes<W>
        ensures writer { byte_writer_of result ≡ writer }
        ensures failures { ⟦<ToBytes<W> as Sink>⟧.failures result ≡ 0 }
    {
        ToBytes {
            writer,
            failures: Failures { count: 0 },
        }
    }

    /// Puts bytes for which there is no room, by writes of the writer.
    #[cold]
    #[inline(never)]
    fn put_out(&mut self, bytes: &[u8]) -> Result<(), WriteFault>
        requires { byte_writer_failures self.old < 2 ^ 64 - 1 }
        ensures bytes { Appended (λ xs. Appends (bytes_written W.contents (byte_writer_of self.old))
            (bytes_written W.contents (byte_writer_of self.new)) xs) bytes.now result }
        ensures failures { byte_writer_failures self.new ≡ byte_writer_failures self.old + fault_count result }
    {
        match write_whole(&mut self.writer, bytes) {
            Ok(()) => Ok(()),
            Err(fault) => {
                self.failures.count += 1;
                Err(fault)
            }
        }
    }
}

impl<W: Write + Drop> Sink for ToBytes<W> {
    ghost use Rattle.lex_io.specs.Adapters.{byte_writer_of, byte_writer_failures};

    ghost wrote = { λ s xs t. Appends (bytes_written W.contents (byte_writer_of s))
        (bytes_written W.contents (byte_writer_of t)) xs };

    ghost failures = { λ s. byte_writer_failures s };

    ghost flushed = { λ s. is_none (bytes_held (byte_writer_of s)) };

    /// Holds or writes all of the bytes, or fails after a prefix of them.
    #[inline(always)]
    fn put(&mut self, bytes: &[u8]) -> Result<(), WriteFault> {
        if self.writer.hold(bytes) {
            return Ok(());
        }
        self.put_out(bytes)
    }

    /// Pours what the writer holds, and flushes the writer behind it.
    fn flush(&mut self) -> Result<(), WriteFault> {
        match self.writer.flush() {
            Ok(()) => Ok(()),
            Err(_) => {
                self.failures.count += 1;
                Err(WriteFault)
            }
        }
    }

    /// How many bytes the writer holds before it pours.
    #[inline(always)]
    fn room(&self) -> usize {
        self.writer.room()
    }

    /// Holds as many of the bytes as there is room for.
    #[inline(always)]
    fn hold(&mut self, bytes: &[u8]) -> usize
        ensures few { result ≤ length bytes.now }
        ensures fits { result ≡ min (length bytes.now) (room_in (byte_writer_of self.old)) }
        ensures bytes { Appends (bytes_written W.contents (byte_writer_of self.old))
            (bytes_written W.contents (byte_writer_of self.new)) (take result bytes.now) }
        ensures failures { byte_writer_failures self.new ≡ byte_writer_failures self.old }
    {
        let count = bytes.len().min(self.writer.room());
        let _held = self.writer.hold(&bytes[..count]);
        count
    }

    ghost wrote_none = { λ s. Appends-nil (bytes_written W.contents s.writer) };

    ghost wrote_more = { λ s t u xs ys p q. Appends-trans (bytes_written W.contents s.writer)
        (bytes_written W.contents t.writer) (bytes_written W.contents u.writer) xs ys p q };

    ghost failures_bound = { λ s. s.failures.bound };
}
