//! Keys as they are kept, each once, and their places: the keys of one row are chained, each to the one before it.
ghost use Rattle.std.specs.Prelude.{◌≡◌, ◌==◌, ◌<◌, ◌^◌, ℕ, [], ◌∷◌, ◌++◌, cond, length, slice_index_or, OnOk};
ghost use Rattle.lexauto.specs.Interned.{digest, row_of, found, no_key, rows};

use std::alloc::{AllocError, Global};

/// How many rows there are.
const ROWS: usize = 1024;

/// What stands for a place where there is no key.
const NO_KEY: u32 = u32::MAX;

/// A key as it is kept, and the place of the key before it in its row.
#[derive(Drop)]
pub(crate) struct KeptKey {
    pub key: Vec<u32>,
    pub before: u32,
}

/// Keys in order of their first finding.
#[derive(Drop)]
pub(crate) struct Interner {
    pub keys: Vec<KeptKey>,
    /// For each row the place of its last key. They are made with the first key.
    pub lasts: Vec<u32>,
}

/// The row of a key: the upper bits of a hash of its numbers.
pub(crate) fn row_of(kept: &[u32]) -> usize
    ensures within { result < rows }
    ensures row { result ≡ row_of kept.now }
{
    let mut hash: u64 = 0;
    for number in kept {
        hash = hash
            .wrapping_add(u64::from(*number))
            .wrapping_mul(0x9E37_79B9_7F4A_7C15);
    }
    (hash >> 54) as usize
}

impl Interner {
    /// A table with no keys.
    pub(crate) fn new(alloc: Global) -> Interner
        ensures { result.keys.items ≡ [] }
    {
        Interner {
            keys: Vec::new(alloc),
            lasts: Vec::new(alloc),
        }
    }

    /// The place of the last key of a row.
    fn last_of(&self, row: usize) -> u32
        ensures { result ≡ slice_index_or self.now.lasts.items row no_key }
    {
        self.lasts.get(row).copied().unwrap_or(NO_KEY)
    }

    /// The place of a key that is kept so and would stand in this row.
    pub(crate) fn find(&self, row: usize, kept: &[u32]) -> Option<u32>
        ensures { result ≡ found self.now.keys.items (slice_index_or self.now.lasts.items row no_key) kept.now }
    {
        let mut at = self.last_of(row);
        for _ in 0..self.keys.len() {
            let Some(here) = self.keys.get(at as usize) else {
                return None;
            };
            if here.key.as_slice() == kept {
                return Some(at);
            }
            at = here.before;
        }
        None
    }

    /// Adds a key that is kept so at the end, as the last one of its row.
    pub(crate) fn add(&mut self, row: usize, kept: Vec<u32>) -> Result<(), AllocError>
        requires within { row < rows }
        requires few { length self.old.keys.items < 2 ^ 32 }
        ensures keys { OnOk result (self.new.keys.items ≡ self.old.keys.items
            ++ record { key = kept; before = slice_index_or self.old.lasts.items row no_key } ∷ []) }
        ensures lasts { OnOk result ((r : ℕ) → slice_index_or self.new.lasts.items r no_key
            ≡ cond (r == row) (length self.old.keys.items) (slice_index_or self.old.lasts.items r no_key)) }
    {
        let place = self.keys.len() as u32;
        if row >= self.lasts.len() {
            self.lasts.resize(ROWS, NO_KEY)?;
        }
        self.keys.push(KeptKey {
            key: kept,
            before: self.lasts[row],
        })?;
        self.lasts[row] = place;
        Ok(())
    }
}
