//! Classes of states with equal futures.
ghost use Rattle.std.specs.Prelude.{◌≡◌, ◌^◌, ℕ, ◌*◌, ◌<◌, length, slice_index, IfOk};
ghost use Rattle.lexauto_dfa.specs.Futures.{IsCoarsest};
ghost use Rattle.lexauto_dfa.specs.Letters.{bytes_machine};
ghost use Rattle.lexauto_dfa.specs.Sources.{IsRow};

use crate::least::letters::letters_of;
use crate::least::partition::refine;
use std::alloc::{AllocError, Global};

/// For each state the class of those that no continuation tells apart, by the states' labels.
pub(crate) fn classes(alloc: Global, next: &[u32], labels: Vec<u32>) -> Result<Vec<u32>, AllocError>
    requires some { 0 < length labels.items }
    requires few { length labels.items < 2 ^ 32 }
    requires labels { IsRow labels.items }
    requires len { length next.now ≡ 256 * length labels.items }
    requires known { (i : ℕ) → i < length next.now → slice_index next.now i < length labels.items }
    ensures len { IfOk result (λ v. length v.items ≡ length labels.items) }
    ensures row { IfOk result (λ v. IsRow v.items) }
    ensures coarsest { IfOk result (λ v. IsCoarsest (bytes_machine next.now labels.items)
        (λ x. slice_index v.items x)) }
{
    let letters = letters_of(alloc, next, labels.len())?;
    let blocks = refine(alloc, &letters, labels)?;
    Ok(blocks.block)
}
