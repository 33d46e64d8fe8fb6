//! A sink that keeps nothing, for scans of which only the matches are wanted.
ghost use Rattle.std.specs.Prelude.{ℕ, List, true, ⊤};
ghost use Rattle.lex_io.specs.Taking.{never-fails};

use crate::sink::{Sink, WriteFault};

/// Takes what it is given, and keeps nothing of it. It never fails. Its relation tells nothing of the bytes.
#[derive(Drop)]
pub struct NullSink {}

impl Sink for NullSink {
    ghost wrote = { λ s xs t. ⊤ };

    ghost failures = { λ s. 0 };

    ghost flushed = { λ s. true };

    /// Forgets the bytes.
    #[inline]
    fn put(&mut self, bytes: &[u8]) -> Result<(), WriteFault> {
        let _bytes = bytes;
        Ok(())
    }

    /// There is nothing to hand on.
    #[inline]
    fn flush(&mut self) -> Result<(), WriteFault> {
        Ok(())
    }

    /// There is always room.
    #[inline]
    fn room(&self) -> usize {
        usize::MAX
    }

    /// Forgets the bytes.
    #[inline]
    fn hold(&mut self, bytes: &[u8]) -> usize {
        bytes.len()
    }

    ghost wrote_none = { λ s. tt };

    ghost wrote_more = { λ s t u xs ys p q. tt };

    ghost failures_bound = { λ s. never-fails };
}
