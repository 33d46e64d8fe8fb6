//! A source over a slice: input that is all in memory.
ghost use Rattle.std.specs.Prelude.{◌≡◌, ℕ, ◌+◌, ◌-◌, ◌^◌, ◌<◌, ◌≤◌, true, false, List, [], ◌++◌, length, take, Some};
ghost use Rattle.lex_io.specs.Sink.{fault_count};
ghost use Rattle.lex_io.specs.Source.{given, end_count, Gives};
ghost use Rattle.lex_io.specs.SourceLaws.{Gives-nil, Gives-trans};
ghost use Rattle.lex_io.specs.Taking.{never-fails, never-waits};

use crate::source::{ReadFault, Source};

/// Gives the bytes of a slice, and then its end in each call. It never fails and never waits.
#[derive(Drop)]
pub struct SliceSource<'a> {
    rest: &'a [u8],
    ends: u64,
    ghost ends_bound: { ends < 2 ^ 64 },
}

impl<'a> SliceSource<'a> {
    ghost use Rattle.lex_io.specs.SliceSources.{slice_rest, slice_ends};

    /// A source over these bytes, with no end answered yet.
    pub fn new(bytes: &'a [u8]) -> SliceSource<'a>
        ensures bytes { slice_rest result ≡ bytes.entry.now }
        ensures ends { slice_ends result ≡ 0 }
        ensures small { length bytes.entry.now < 2 ^ 63 }
    {
        SliceSource {
            rest: bytes,
            ends: 0,
        }
    }
}

impl Source for SliceSource<'_> {
    ghost use Rattle.lex_io.specs.SliceSources.{slice_rest, slice_ends};

    ghost gave = { λ s xs t. Gives (Some (slice_rest s)) (Some (slice_rest t)) (slice_ends s) (slice_ends t) xs };

    ghost ends = { λ s. slice_ends s };

    ghost failures = { λ s. 0 };

    ghost ready = { λ s. slice_rest s };

    ghost waits = { λ s. false };

    /// The next byte; after the last of them the end, in each call.
    #[inline]
    fn next(&mut self) -> Result<Option<u8>, ReadFault> {
        match self.rest.split_first() {
            None => {
                self.ends += 1;
                Ok(None)
            }
            Some((byte, rest)) => {
                self.rest = rest;
                Ok(Some(*byte))
            }
        }
    }

    /// All the bytes that are left.
    #[inline]
    fn ahead(&self) -> &[u8] {
        self.rest
    }

    /// Gives as many of these bytes.
    #[inline]
    fn give(&mut self, count: usize) {
        self.rest = &self.rest[count..];
    }

    /// Memory is there at once.
    #[inline]
    fn may_wait(&self) -> bool {
        false
    }

    ghost gave_none = { λ s. Gives-nil (Some s.rest.now) s.ends };

    ghost gave_more = { λ s t u xs ys p q. Gives-trans (Some s.rest.now) (Some t.rest.now) (Some u.rest.now)
        s.ends t.ends u.ends xs ys p q };

    ghost none_ready = { λ s. never-waits s.rest.now };

    ghost ends_bound = { λ s. s.ends_bound };

    ghost failures_bound = { λ s. never-fails };
}
