//! A source over bytes that wait in memory.
ghost use Rattle.std.specs.Prelude.{◌≡◌, refl, ℕ, ◌+◌, ◌-◌, ◌^◌, ◌<◌, ◌≤◌, false, List, [], ◌++◌, length, take};
ghost use Rattle.lex_io.specs.Taking.{never-fails, never-waits};

use lex_io::{ReadFault, Source};

/// The two slices, where the second moves up in the place of a first one without bytes.
#[inline(always)]
fn in_order<'a>(first: &'a [u8], later: &'a [u8]) -> (&'a [u8], &'a [u8])
    ensures bytes { result.0.now ++ result.1.now ≡ first.entry.now ++ later.entry.now }
    ensures in_order { length result.0.now ≡ 0 → length result.1.now ≡ 0 }
{
    if first.is_empty() {
        (later, &[])
    } else {
        (first, later)
    }
}

/// Gives the bytes of one slice and of another, and then their end in each call. It never fails.
#[derive(Drop)]
pub struct Waiting<'a> {
    rest: &'a [u8],
    /// The bytes after these: none where those are all given.
    later: &'a [u8],
    ends: u64,
    ghost in_order: { length rest.now ≡ 0 → length later.now ≡ 0 },
    ghost ends_bound: { ends < 2 ^ 64 },
}

impl<'a> Waiting<'a> {
    ghost use Rattle.lexscan_window.specs.Waits.{bytes_left, ends_told};

    /// The source over the bytes of both slices.
    pub fn new(first: &'a [u8], later: &'a [u8]) -> Waiting<'a>
        ensures bytes { bytes_left result ≡ first.entry.now ++ later.entry.now }
        ensures ends { ends_told result ≡ 0 }
    {
        let (rest, later) = in_order(first, later);
        Waiting {
            rest,
            later,
            ends: 0,
        }
    }
}

impl Source for Waiting<'_> {
    ghost use Rattle.lexscan_window.specs.Waits.{bytes_left, bytes_ready, ends_told, GivesWaiting};
    ghost use Rattle.lexscan_window.specs.Waits.{gives-none, gives-more};

    ghost gave = { λ s xs t. GivesWaiting (bytes_left s) (ends_told s) (bytes_left t) (ends_told t) xs };

    ghost ends = { λ s. ends_told s };

    ghost failures = { λ s. 0 };

    ghost ready = { λ s. bytes_ready s };

    ghost waits = { λ s. false };

    /// The next byte, of the second slice where the first is used up; after both their end, in each call.
    fn next(&mut self) -> Result<Option<u8>, ReadFault> {
        match self.rest.split_first() {
            None => {
                self.ends += 1;
                Ok(None)
            }
            Some((byte, rest)) => {
                // The second slice moves up, so that bytes are ready wherever any are left.
                let (rest, later) = in_order(rest, self.later);
                self.rest = rest;
                self.later = later;
                Ok(Some(*byte))
            }
        }
    }

    /// What is left of the first slice, or then of the second.
    #[inline(always)]
    fn ahead(&self) -> &[u8] {
        self.rest
    }

    /// Gives as many of these bytes.
    #[inline(always)]
    fn give(&mut self, count: usize) {
        let (rest, later) = in_order(&self.rest[count..], self.later);
        self.rest = rest;
        self.later = later;
    }

    /// Memory is there at once.
    fn may_wait(&self) -> bool {
        false
    }

    ghost gave_none = { λ s. gives-none (bytes_left s) s.ends };

    ghost gave_more = { λ s t u xs ys p q. gives-more (bytes_left s) (bytes_left t) (bytes_left u)
        s.ends t.ends u.ends xs ys p q };

    ghost none_ready = { λ s. never-waits s.rest.now };

    ghost ends_bound = { λ s. s.ends_bound };

    ghost failures_bound = { λ s. never-fails };
}
