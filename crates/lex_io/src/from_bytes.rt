//! A source over a reader with a buffer, which shows the bytes ahead.
ghost use Rattle.std.specs.Prelude.{◌≡◌, ℕ, ◌+◌, ◌-◌, ◌^◌, ◌<◌, ◌≤◌, Bool, true, List, [], ◌++◌, length, take};
ghost use Rattle.lex_io.specs.ByteReaders.{bytes_ahead, bytes_left, is_none, is_none-nil};
ghost use Rattle.lex_io.specs.Source.{given, end_count, Gives};
ghost use Rattle.lex_io.specs.Sink.{fault_count};
ghost use Rattle.lex_io.specs.SourceLaws.{Gives-nil, Gives-trans};

use crate::byte_reader::ByteReader;
use crate::source::{ReadFault, Source};
use std::io::Read;

/// Reads one byte in each call of `next`, as `FromRead` does, and shows what the reader has read ahead.
#[derive(Drop)]
pub struct FromBytes<R> {
    reader: ByteReader<R>,
    ends: u64,
    failures: u64,
    ghost ends_bound: { ends < 2 ^ 64 },
    ghost failures_bound: { failures < 2 ^ 64 },
}

impl<R: Read> FromBytes<R> {
    ghost use Rattle.lex_io.specs.Adapters.{byte_reader_of};

    /// A source over this reader, with no end and no failure counted yet.
    pub fn new(reader: ByteReader<R>) -> FromBytes<R>
        ensures reader { byte_reader_of result ≡ reader }
        ensures ends { ⟦<FromBytes<R> as Source>⟧.ends result ≡ 0 }
        ensures failures { ⟦<FromBytes<R> as Source>⟧.failures result ≡ 0 }
    {
        FromBytes {
            reader,
            ends: 0,
            failures: 0,
        }
    }
}

impl<R: Read> Source for FromBytes<R> {
    ghost use Rattle.lex_io.specs.Adapters.{byte_reader_of, byte_reader_ends, byte_reader_failures};

    ghost gave = { λ s xs t. Gives (bytes_left R.remaining (byte_reader_of s))
        (bytes_left R.remaining (byte_reader_of t)) (byte_reader_ends s) (byte_reader_ends t) xs };

    ghost ends = { λ s. byte_reader_ends s };

    ghost failures = { λ s. byte_reader_failures s };

    ghost ready = { λ s. bytes_ahead (byte_reader_of s) };

    ghost waits = { λ s. is_none (bytes_ahead (byte_reader_of s)) };

    /// Reads one byte: no byte is the end, and any error is a fault.
    #[inline(always)]
    fn next(&mut self) -> Result<Option<u8>, ReadFault> {
        let mut one = [0u8; 1];
        match self.reader.read(&mut one) {
            Ok(0) => {
                self.ends += 1;
                Ok(None)
            }
            Ok(_) => Ok(Some(one[0])),
            Err(_) => {
                self.failures += 1;
                Err(ReadFault)
            }
        }
    }

    /// The bytes that the reader has read ahead.
    #[inline(always)]
    fn ahead(&self) -> &[u8] {
        self.reader.ahead()
    }

    /// Drops as many of these from the reader.
    #[inline(always)]
    fn give(&mut self, count: usize) {
        self.reader.skip(count);
    }

    /// Where no byte is ahead, the reader is asked.
    #[inline(always)]
    fn may_wait(&self) -> bool {
        self.reader.ahead().is_empty()
    }

    ghost gave_none = { λ s. Gives-nil (bytes_left R.remaining s.reader) s.ends };

    ghost gave_more = { λ s t u xs ys p q. Gives-trans (bytes_left R.remaining s.reader)
        (bytes_left R.remaining t.reader) (bytes_left R.remaining u.reader) s.ends t.ends u.ends xs ys p q };

    ghost none_ready = { λ s. is_none-nil (bytes_ahead s.reader) };

    ghost ends_bound = { λ s. s.ends_bound };

    ghost failures_bound = { λ s. s.failures_bound };
}
