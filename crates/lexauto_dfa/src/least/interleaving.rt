//! Two lists by turns.
ghost use Rattle.std.specs.Prelude.{◌≡◌, ◌^◌, ℕ, ◌+◌, ◌*◌, ◌<◌, length, slice_index, IfOk};
ghost use Rattle.lexauto_dfa.specs.Least.{by_turns};

use std::alloc::{AllocError, Global};

/// The elements of two lists by turns.
pub(crate) fn interleave(alloc: Global, evens: &[u32], odds: &[u32]) -> Result<Vec<u32>, AllocError>
    requires { length odds.now ≡ length evens.now }
    ensures { IfOk result (λ v. v.items ≡ by_turns evens.now odds.now) }
{
    let mut both = Vec::new(alloc);
    for i in 0..evens.len() {
        both.push(evens[i])?;
        both.push(odds[i])?;
    }
    Ok(both)
}

/// The elements at even places, or with `first` 1 those at odd places.
pub(crate) fn every_other(
    alloc: Global,
    both: &[u32],
    pairs: usize,
    first: usize,
) -> Result<Vec<u32>, AllocError>
    requires first { first < 2 }
    requires pairs { length both.now ≡ 2 * pairs }
    ensures len { IfOk result (λ v. length v.items ≡ pairs) }
    ensures each { IfOk result (λ v. (i : ℕ) → i < pairs
        → slice_index v.items i ≡ slice_index both.now (2 * i + first)) }
{
    let mut some = Vec::new(alloc);
    for i in 0..pairs {
        some.push(both[2 * i + first])?;
    }
    Ok(some)
}
