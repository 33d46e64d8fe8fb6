//! The sink of a scan between slices: it keeps what it is given, for the caller's buffer.
ghost use Rattle.std.specs.Prelude.{◌≡◌, refl, ℕ, ◌+◌, ◌-◌, ◌^◌, ◌<◌, List, [], ◌++◌, true};
ghost use Rattle.lex_io.specs.Sink.{Appended, fault_count};
ghost use Rattle.liblex_calls.specs.Ends.{Kept, Kept-nil, Kept-trans};

use lexkit::{Sink, WriteFault};
use std::alloc::Global;

/// Keeps what it is given. It fails only where memory is refused.
#[derive(Drop)]
pub(crate) struct Kept {
    /// All that it was given.
    pub(crate) bytes: Vec<u8>,
    /// How often memory was refused.
    failures: u64,
    ghost failures_bound: { failures < 2 ^ 64 },
}

impl Kept {
    /// One that keeps nothing yet.
    pub(crate) fn new(alloc: Global) -> Kept
        ensures bytes { result.bytes.items ≡ [] }
        ensures failures { result.failures ≡ 0 }
    {
        Kept {
            bytes: Vec::new(alloc),
            failures: 0,
        }
    }
}

impl Sink for Kept {
    ghost wrote = { λ s xs t. Kept s.bytes.items t.bytes.items xs };

    ghost failures = { λ s. s.failures };

    ghost flushed = { λ s. true };

    /// Keeps the bytes behind the others.
    #[inline]
    fn put(&mut self, bytes: &[u8]) -> Result<(), WriteFault> {
        match self.bytes.extend_from_slice(bytes) {
            Ok(()) => Ok(()),
            Err(_) => {
                self.failures += 1;
                Err(WriteFault)
            }
        }
    }

    /// Nothing is held back.
    #[inline]
    fn flush(&mut self) -> Result<(), WriteFault> {
        Ok(())
    }

    /// As many as memory has room for: that is not known before.
    #[inline]
    fn room(&self) -> usize {
        usize::MAX
    }

    /// Keeps all of the bytes, or none where memory is refused.
    #[inline]
    fn hold(&mut self, bytes: &[u8]) -> usize {
        match self.bytes.extend_from_slice(bytes) {
            Ok(()) => bytes.len(),
            Err(_) => 0,
        }
    }

    ghost wrote_none = { λ s. Kept-nil s.bytes.items };

    ghost wrote_more = { λ s t u xs ys p q. Kept-trans s.bytes.items t.bytes.items u.bytes.items xs ys p q };

    ghost failures_bound = { λ s. s.failures_bound };
}
