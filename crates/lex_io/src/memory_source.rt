//! A source over a slice for tests: it may fail or end once, at a stated place, and counts its calls. `slice_source`
//! has the one for scans, which does neither.
ghost use Rattle.std.specs.Prelude.{◌≡◌, refl, ℕ, ◌+◌, ◌-◌, ◌^◌, ◌<◌, ◌≤◌, min, Bool, true, false};
ghost use Rattle.std.specs.Prelude.{List, [], ◌++◌, length, take, None, Some, ◌⊎◌, ◌↔◌};
ghost use Rattle.lex_io.specs.Sink.{fault_count};
ghost use Rattle.lex_io.specs.Source.{given, end_count};
ghost use Rattle.lex_io.specs.Taking.{Takes, Takes-trans, never-waits};

use crate::source::{ReadFault, Source};

/// What a source over memory answers once in place of a byte, after this many bytes.
#[derive(Clone, Copy, PartialEq, Eq)]
enum Pause {
    Fault(usize),
    End(usize),
}

/// Gives the bytes of a slice, and then its end in each call.
///
/// It may fail once, or answer its end once, before they are all given. A caller that goes on after
/// that is given the rest.
#[derive(Drop)]
pub struct MemorySource<'a> {
    rest: &'a [u8],
    pause: Option<Pause>,
    calls: u64,
    ends: u64,
    failures: u64,
    ghost ends_bound: { ends < 2 ^ 64 },
    ghost failures_bound: { failures < 2 ^ 64 },
}

impl<'a> MemorySource<'a> {
    ghost use Rattle.lex_io.specs.MemorySources.{rest_of, call_count, pause_of};
    ghost use Rattle.lex_io.specs.declared.memory_source.Pause.TheVariants.{Fault, End};

    /// Gives these bytes, and then its end.
    pub fn new(bytes: &'a [u8]) -> MemorySource<'a>
        ensures bytes { rest_of result ≡ bytes.entry.now }
        ensures pause { pause_of result ≡ None }
        ensures calls { call_count result ≡ 0 }
        ensures ends { ⟦<MemorySource<'a> as Source>⟧.ends result ≡ 0 }
        ensures failures { ⟦<MemorySource<'a> as Source>⟧.failures result ≡ 0 }
    {
        MemorySource::pausing(bytes, None)
    }

    /// Gives this many of the bytes, then fails once, then gives the others.
    pub fn failing_after(bytes: &'a [u8], count: usize) -> MemorySource<'a>
        ensures bytes { rest_of result ≡ bytes.entry.now }
        ensures pause { pause_of result ≡ Some (Fault count) }
        ensures calls { call_count result ≡ 0 }
        ensures ends { ⟦<MemorySource<'a> as Source>⟧.ends result ≡ 0 }
        ensures failures { ⟦<MemorySource<'a> as Source>⟧.failures result ≡ 0 }
    {
        MemorySource::pausing(bytes, Some(Pause::Fault(count)))
    }

    /// Gives this many of the bytes, then answers its end once, then gives the others.
    pub fn ending_after(bytes: &'a [u8], count: usize) -> MemorySource<'a>
        ensures bytes { rest_of result ≡ bytes.entry.now }
        ensures pause { pause_of result ≡ Some (End count) }
        ensures calls { call_count result ≡ 0 }
        ensures ends { ⟦<MemorySource<'a> as Source>⟧.ends result ≡ 0 }
        ensures failures { ⟦<MemorySource<'a> as Source>⟧.failures result ≡ 0 }
    {
        MemorySource::pausing(bytes, Some(Pause::End(count)))
    }

    /// Gives these bytes, with this pause or none.
    fn pausing(bytes: &'a [u8], pause: Option<Pause>) -> MemorySource<'a>
        ensures bytes { result.rest.now ≡ bytes.entry.now }
        ensures pause { result.pause ≡ pause }
        ensures calls { result.calls ≡ 0 }
        ensures ends { result.ends ≡ 0 }
        ensures failures { result.failures ≡ 0 }
    {
        MemorySource {
            rest: bytes,
            pause,
            calls: 0,
            ends: 0,
            failures: 0,
        }
    }

    /// How often `next` was called, at most `u64::MAX`.
    pub fn calls(&self) -> u64
        ensures { result ≡ call_count self.now }
    {
        self.calls
    }
}

impl Source for MemorySource<'_> {
    ghost use Rattle.lex_io.specs.MemorySources.{rest_of, ends_of, source_failures, call_count, pause_of};
    ghost use Rattle.lex_io.specs.MemorySources.{nearer, nearer_by, shown_of, IsFault, IsEnd};
    ghost use Rattle.lex_io.specs.declared.memory_source.Pause.TheVariants.{Fault, End};

    ghost gave = { λ s xs t. Takes (rest_of s) (rest_of t) xs };

    ghost ends = { λ s. ends_of s };

    ghost failures = { λ s. source_failures s };

    ghost ready = { λ s. shown_of s };

    ghost waits = { λ s. false };

    /// The next byte. It fails exactly where it pauses with a fault, and answers the end where it pauses with one or
    /// has no byte left.
    fn next(&mut self) -> Result<Option<u8>, ReadFault>
        requires few_ends { ends_of self.old < 2 ^ 64 - 1 }
        requires few_failures { source_failures self.old < 2 ^ 64 - 1 }
        ensures byte { Takes (rest_of self.old) (rest_of self.new) (given result) }
        ensures ends { ends_of self.new ≡ ends_of self.old + end_count result }
        ensures failures { source_failures self.new ≡ source_failures self.old + fault_count result }
        ensures fault { IsFault result ↔ pause_of self.old ≡ Some (Fault 0) }
        ensures end { IsEnd result ↔ ((pause_of self.old ≡ Some (End 0)) ⊎ ((rest_of self.old ≡ [])
            × (pause_of self.old ≡ Some (Fault 0) → ⊥))) }
        ensures pause { pause_of self.new ≡ nearer (pause_of self.old) }
        ensures calls { call_count self.new ≡ min (call_count self.old + 1) (2 ^ 64 - 1) }
    {
        self.calls = self.calls.saturating_add(1);
        match self.pause {
            Some(Pause::Fault(0)) => {
                self.pause = None;
                self.failures += 1;
                return Err(ReadFault);
            }
            Some(Pause::End(0)) => {
                self.pause = None;
                self.ends += 1;
                return Ok(None);
            }
            Some(Pause::Fault(count)) => self.pause = Some(Pause::Fault(count - 1)),
            Some(Pause::End(count)) => self.pause = Some(Pause::End(count - 1)),
            None => {}
        }
        match self.rest.split_first() {
            None => {
                self.ends += 1;
                Ok(None)
            }
            Some((byte, rest)) => {
                self.rest = rest;
                Ok(Some(*byte))
            }
        }
    }

    /// The bytes before it pauses, or all that are left.
    fn ahead(&self) -> &[u8] {
        let shown = match self.pause {
            None => self.rest.len(),
            Some(Pause::Fault(count) | Pause::End(count)) => count.min(self.rest.len()),
        };
        &self.rest[..shown]
    }

    /// Gives as many of these bytes. It counts as that many calls of `next`.
    fn give(&mut self, count: usize)
        requires { count ≤ length (shown_of self.old) }
        ensures bytes { Takes (rest_of self.old) (rest_of self.new) (take count (shown_of self.old)) }
        ensures ends { ends_of self.new ≡ ends_of self.old }
        ensures failures { source_failures self.new ≡ source_failures self.old }
        ensures pause { pause_of self.new ≡ nearer_by count (pause_of self.old) }
        ensures calls { call_count self.new ≡ min (call_count self.old + count) (2 ^ 64 - 1) }
    {
        self.calls = self.calls.saturating_add(count as u64);
        self.pause = match self.pause {
            None => None,
            Some(Pause::Fault(left)) => Some(Pause::Fault(left - count)),
            Some(Pause::End(left)) => Some(Pause::End(left - count)),
        };
        self.rest = &self.rest[count..];
    }

    /// Memory is there at once.
    fn may_wait(&self) -> bool {
        false
    }

    ghost gave_none = { λ s. refl };

    ghost gave_more = { λ s t u xs ys p q. Takes-trans s.rest.now t.rest.now u.rest.now xs ys p q };

    ghost none_ready = { λ s. never-waits (shown_of s) };

    ghost ends_bound = { λ s. s.ends_bound };

    ghost failures_bound = { λ s. s.failures_bound };
}
