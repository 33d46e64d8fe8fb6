//! The bytes at which what a letter reads changes.
ghost use Rattle.std.specs.Prelude.{◌≡◌, ℕ, ◌<◌, false, length, slice_index_or, IfOk};
ghost use Rattle.lex_semantics.specs.ByteSets.{has, empty_set};
ghost use Rattle.lexauto_positions.specs.Letters.{reads_at};
ghost use Rattle.lexauto.specs.Moving.{AreChanges};

use lexre_bytes::ByteSet;
use std::alloc::{AllocError, Global};

/// All of the sets, united.
pub(crate) fn united(sets: &[ByteSet]) -> ByteSet
    ensures { (q b : ℕ) → b < 256 → has result b ≡ false → has (slice_index_or sets.now q empty_set) b ≡ false }
{
    let mut all = ByteSet::empty();
    for set in sets {
        all = all.union(set);
    }
    all
}

/// For each of the sets the bytes from 1 on of which it has just one, that or the byte before.
pub(crate) fn changes_of(alloc: Global, letters: &[ByteSet]) -> Result<Vec<ByteSet>, AllocError>
    ensures len { IfOk result (λ v. length v.items ≡ length letters.now) }
    ensures changes { IfOk result (λ v. AreChanges (λ b q. reads_at letters.now b q 0) v.items) }
{
    let mut all = Vec::with_capacity(alloc, letters.len())?;
    for set in letters {
        all.push(set.changes())?;
    }
    Ok(all)
}
