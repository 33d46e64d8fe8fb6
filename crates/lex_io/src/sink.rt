//! Where the bytes of a scan go.
ghost use Rattle.std.specs.Prelude.{◌≡◌, ℕ, ◌+◌, ◌-◌, ◌^◌, ◌<◌, ◌≤◌, Bool, true, false};
ghost use Rattle.std.specs.Prelude.{List, [], ◌++◌, length, take, IfOk, OnOk};
ghost use Rattle.lex_io.specs.Sink.{Appended, fault_count};
ghost use Rattle.std.specs.Io.KnownBytes.{Appends};
ghost use Rattle.std.proofs.KnownBytes.{Appends-nil, Appends-trans};

use std::io::Write;
use thiserror::Error;

/// The sink failed.
#[derive(Clone, Copy, Debug, PartialEq, Eq, Error)]
#[error("write fault")]
pub struct WriteFault;

/// Takes bytes, and tells of each call what it appended.
pub trait Sink {
    /// The calls on the way from the first state to the second appended these bytes.
    ghost wrote: { Self → List ℕ → Self → Type 0 };

    /// How often the sink failed: a count of 64 bits.
    ghost failures: { Self → ℕ };

    /// All that was appended has been handed on.
    ghost flushed: { Self → Bool };

    /// Appends the bytes. At `Err` a prefix of them was appended.
    fn put(&mut self, bytes: &[u8]) -> Result<(), WriteFault>
        requires { failures self.old < 2 ^ 64 - 1 }
        ensures bytes { Appended (λ xs. wrote self.old xs self.new) bytes.now result }
        ensures failures { failures self.new ≡ failures self.old + fault_count result };

    /// Hands on what was appended, and appends nothing.
    fn flush(&mut self) -> Result<(), WriteFault>
        requires { failures self.old < 2 ^ 64 - 1 }
        ensures bytes { wrote self.old [] self.new }
        ensures failures { failures self.new ≡ failures self.old + fault_count result }
        ensures flushed { OnOk result (flushed self.new ≡ true) };

    /// How many bytes may be appended at the least, where that cannot fail. It says only what pays.
    fn room(&self) -> usize {
        0
    }

    /// Appends some of the first bytes, as many as can be appended without fail. Answers how many.
    fn hold(&mut self, bytes: &[u8]) -> usize
        ensures few { result ≤ length bytes.now }
        ensures bytes { wrote self.old (take result bytes.now) self.new }
        ensures failures { failures self.new ≡ failures self.old }
    {
        let _bytes = bytes;
        0
    }

    ghost wrote_none: { (s : Self) → wrote s [] s };

    ghost wrote_more: { (s t u : Self) (xs ys : List ℕ) → wrote s xs t → wrote t ys u → wrote s (xs ++ ys) u };

    ghost failures_bound: { (s : Self) → failures s < 2 ^ 64 };
}

/// Calls `write` until all is written: an error or a count of 0 is a fault.
#[inline]
pub(crate) fn write_whole<W: Write>(writer: &mut W, bytes: &[u8]) -> Result<(), WriteFault>
    ensures { Appended (λ xs. Appends (W.contents writer.old) (W.contents writer.new) xs) bytes.now result }
{
    let mut rest = bytes;
    while !rest.is_empty() {
        match writer.write(rest) {
            Ok(0) | Err(_) => return Err(WriteFault),
            Ok(count) => rest = &rest[count..],
        }
    }
    Ok(())
}

/// Calls `write` until all is written: an error or a count of 0 is a fault.
///
/// It keeps whether `flush` of the writer was answered since bytes were put: no contract of a writer says what a flush
/// does.
#[derive(Drop)]
pub struct ToWrite<W> {
    writer: W,
    failures: u64,
    flushed: bool,
    ghost failures_bound: { failures < 2 ^ 64 },
}

impl<W: Write> ToWrite<W> {
    ghost use Rattle.lex_io.specs.Adapters.{writer_of};

    /// A sink over this writer, with no failure counted yet.
    pub fn new(writer: W) -> ToWrite<W>
        ensures writer { writer_of result ≡ writer }
        ensures failures { ⟦<ToWrite<W> as Sink>⟧.failures result ≡ 0 }
    {
        ToWrite {
            writer,
            failures: 0,
            flushed: false,
        }
    }

    /// The writer, with what was written to it.
    pub fn into_inner(self) -> W
        ensures { result ≡ writer_of self }
    {
        self.writer
    }
}

impl<W: Write> Sink for ToWrite<W> {
    ghost use Rattle.lex_io.specs.Adapters.{writer_of, writer_failures, writer_flushed};

    ghost wrote = { λ s xs t. Appends (W.contents (writer_of s)) (W.contents (writer_of t)) xs };

    ghost failures = { λ s. writer_failures s };

    ghost flushed = { λ s. writer_flushed s };

    /// Writes all of the bytes, or fails after a prefix of them.
    #[inline]
    fn put(&mut self, bytes: &[u8]) -> Result<(), WriteFault> {
        self.flushed = false;
        match write_whole(&mut self.writer, bytes) {
            Ok(()) => Ok(()),
            Err(fault) => {
                self.failures += 1;
                Err(fault)
            }
        }
    }

    /// Flushes the writer.
    fn flush(&mut self) -> Result<(), WriteFault> {
        match self.writer.flush() {
            Ok(()) => {
                self.flushed = true;
                Ok(())
            }
            Err(_) => {
                self.failures += 1;
                Err(WriteFault)
            }
        }
    }

    ghost wrote_none = { λ s. Appends-nil (W.contents s.writer) };

    ghost wrote_more = { λ s t u xs ys p q. Appends-trans (W.contents s.writer) (W.contents t.writer)
        (W.contents u.writer) xs ys p q };

    ghost failures_bound = { λ s. s.failures_bound };
}
