//! Where the bytes of a scan come from.
ghost use Rattle.std.specs.Prelude.{◌≡◌, refl, ℕ, ◌+◌, ◌-◌, ◌^◌, ◌<◌, ◌≤◌, Bool, true, false};
ghost use Rattle.std.specs.Prelude.{List, [], ◌++◌, length, take, IfOk, slice_get};
ghost use Rattle.lex_io.specs.Source.{given, end_count, Gives};
ghost use Rattle.lex_io.specs.Sink.{fault_count};
ghost use Rattle.lex_io.specs.SourceLaws.{Gives-nil, Gives-trans};

use std::io::Read;
use thiserror::Error;

/// The source failed.
#[derive(Clone, Copy, Debug, PartialEq, Eq, Error)]
#[error("read fault")]
pub struct ReadFault;

/// Gives bytes one at a time, and tells of each call what it gave.
pub trait Source {
    /// The calls on the way from the first state to the second gave these bytes.
    ghost gave: { Self → List ℕ → Self → Type 0 };

    /// How often the end was answered: a count of 64 bits.
    ghost ends: { Self → ℕ };

    /// How often the source failed: a count of 64 bits.
    ghost failures: { Self → ℕ };

    /// The bytes that it can give without asking for them.
    ghost ready: { Self → List ℕ };

    /// The next call of `next` may have to wait.
    ghost waits: { Self → Bool };

    /// The next byte, or `None` at the end.
    fn next(&mut self) -> Result<Option<u8>, ReadFault>
        requires few_ends { ends self.old < 2 ^ 64 - 1 }
        requires few_failures { failures self.old < 2 ^ 64 - 1 }
        ensures byte { gave self.old (given result) self.new }
        ensures ends { ends self.new ≡ ends self.old + end_count result }
        ensures failures { failures self.new ≡ failures self.old + fault_count result };

    /// Bytes that it can give without asking for them. They are not given yet.
    fn ahead(&self) -> &[u8]
        ensures { result.now ≡ ready self.now };

    /// Gives as many of these bytes.
    fn give(&mut self, count: usize)
        requires { count ≤ length (ready self.old) }
        ensures bytes { gave self.old (take count (ready self.old)) self.new }
        ensures ends { ends self.new ≡ ends self.old }
        ensures failures { failures self.new ≡ failures self.old };

    /// Whether the next call of `next` may have to wait, as for a line that is still to be typed. So what was written
    /// before is to be seen first.
    fn may_wait(&self) -> bool
        ensures { result ≡ waits self.now };

    ghost gave_none: { (s : Self) → gave s [] s };

    ghost gave_more: { (s t u : Self) (xs ys : List ℕ) → gave s xs t → gave t ys u → gave s (xs ++ ys) u };

    ghost none_ready: { (s : Self) → waits s ≡ true → ready s ≡ [] };

    ghost ends_bound: { (s : Self) → ends s < 2 ^ 64 };

    ghost failures_bound: { (s : Self) → failures s < 2 ^ 64 };
}

/// Reads one byte in each call of `next`: no byte is the end, and any error is a fault.
#[derive(Drop)]
pub struct FromRead<R> {
    reader: R,
    ends: u64,
    failures: u64,
    ghost ends_bound: { ends < 2 ^ 64 },
    ghost failures_bound: { failures < 2 ^ 64 },
}

impl<R: Read> FromRead<R> {
    ghost use Rattle.lex_io.specs.Adapters.{reader_of};

    /// A source over this reader, with no end and no failure counted yet.
    pub fn new(reader: R) -> FromRead<R>
        ensures reader { reader_of result ≡ reader }
        ensures ends { ⟦<FromRead<R> as Source>⟧.ends result ≡ 0 }
        ensures failures { ⟦<FromRead<R> as Source>⟧.failures result ≡ 0 }
    {
        FromRead {
            reader,
            ends: 0,
            failures: 0,
        }
    }
}

impl<R: Read> Source for FromRead<R> {
    ghost use Rattle.lex_io.specs.Adapters.{reader_of, reader_ends, reader_failures};

    ghost gave = { λ s xs t. Gives (R.remaining (reader_of s)) (R.remaining (reader_of t))
        (reader_ends s) (reader_ends t) xs };

    ghost ends = { λ s. reader_ends s };

    ghost failures = { λ s. reader_failures s };

    ghost ready = { λ s. [] };

    ghost waits = { λ s. true };

    /// Reads one byte: no byte is the end, and any error is a fault.
    #[inline(always)]
    fn next(&mut self) -> Result<Option<u8>, ReadFault> {
        let mut one = [0u8; 1];
        match self.reader.read(&mut one) {
            Ok(0) => {
                self.ends += 1;
                Ok(None)
            }
            Ok(_) => Ok(Some(one[0])),
            Err(_) => {
                self.failures += 1;
                Err(ReadFault)
            }
        }
    }

    /// None: the reader has no buffer to look into.
    fn ahead(&self) -> &[u8] {
        &[]
    }

    /// Gives nothing, since nothing is ahead.
    fn give(&mut self, count: usize) {
        let _count = count;
    }

    /// Each call of `next` asks the reader.
    fn may_wait(&self) -> bool {
        true
    }

    ghost gave_none = { λ s. Gives-nil (R.remaining s.reader) s.ends };

    ghost gave_more = { λ s t u xs ys p q. Gives-trans (R.remaining s.reader) (R.remaining t.reader)
        (R.remaining u.reader) s.ends t.ends u.ends xs ys p q };

    ghost none_ready = { λ s e. refl };

    ghost ends_bound = { λ s. s.ends_bound };

    ghost failures_bound = { λ s. s.failures_bound };
}
