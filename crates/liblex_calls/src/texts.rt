//! The bytes that were fed last, of which the texts of tokens are shown.
ghost use Rattle.std.specs.Prelude.{◌≡◌, ℕ, ◌+◌, ◌-◌, ◌^◌, ◌<◌, ◌≤◌, true, false, OnOk, OnErr};
ghost use Rattle.std.specs.Prelude.{List, [], ◌++◌, length, take, drop};

use std::alloc::{AllocError, Global};

/// The bytes that were fed last, and how many were fed before them.
#[derive(Drop)]
pub struct Texts {
    bytes: Vec<u8>,
    before: u64,
    ghost few: { before + length bytes.items < 2 ^ 64 - 1 },
}

impl Texts {
    ghost use Rattle.liblex_calls.specs.Ahead.{HoldsFed, held_text};

    /// None so far.
    pub(crate) fn new(alloc: Global) -> Texts
        ensures holds { HoldsFed [] result }
        ensures before { result.before ≡ 0 }
    {
        Texts {
            bytes: Vec::new(alloc),
            before: 0,
        }
    }

    /// Whether so many bytes more may be fed.
    pub(crate) fn may_feed(&self, count: usize) -> bool
        ensures few { result ≡ true → self.now.before + length self.now.bytes.items + count < 2 ^ 64 - 1 }
        ensures many { result ≡ false → 2 ^ 64 - 1 ≤ self.now.before + length self.now.bytes.items + count }
    {
        let fed = self.before + self.bytes.len() as u64;
        (count as u64) < u64::MAX - fed
    }

    /// Keeps a piece that is fed.
    pub(crate) fn push(&mut self, piece: &[u8]) -> Result<(), AllocError>
        requires { self.old.before + length self.old.bytes.items + length piece.now < 2 ^ 64 - 1 }
        ensures bytes { OnOk result (self.new.bytes.items ≡ self.old.bytes.items ++ piece.now) }
        ensures same { OnErr result (self.new.bytes.items ≡ self.old.bytes.items) }
        ensures before { self.new.before ≡ self.old.before }
    {
        self.bytes.extend_from_slice(piece)
    }

    /// Takes back the last bytes, which were not fed after all.
    pub(crate) fn take_back(&mut self, count: usize)
        ensures bytes { self.new.bytes.items ≡
            take (length self.old.bytes.items - count) self.old.bytes.items }
        ensures before { self.new.before ≡ self.old.before }
    {
        let left = self.bytes.len().saturating_sub(count);
        self.bytes.truncate(left);
    }

    /// Drops bytes before a place, once these are no fewer than the others. So each byte is moved once.
    pub(crate) fn drop_before(&mut self, place: u64)
        ensures holds { (fed : List ℕ) → HoldsFed fed self.old → HoldsFed fed self.new }
        ensures low { self.old.before ≤ place → self.new.before ≤ place }
    {
        let done = place.saturating_sub(self.before) as usize;
        let left = self.bytes.len().saturating_sub(done);
        if done < left || self.bytes.len() < done {
            return;
        }
        self.bytes.copy_within(done.., 0);
        self.bytes.truncate(left);
        self.before += done as u64;
    }

    /// So many bytes from a place of the input on.
    #[inline(always)]
    pub(crate) fn text(&self, start: u64, length: usize) -> &[u8]
        ensures { result.now ≡ held_text self.now start length }
    {
        let first = (start.saturating_sub(self.before) as usize).min(self.bytes.len());
        let count = length.min(self.bytes.len() - first);
        &self.bytes[first..first + count]
    }
}
