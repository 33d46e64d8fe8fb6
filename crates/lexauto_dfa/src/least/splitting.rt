//! Cutting the touched blocks.
ghost use Rattle.std.specs.Prelude.{◌≡◌, ◌≢◌, ◌↔◌, ℕ, ◌<◌, Bool, true, List, length, slice_index, OnOk};
ghost use Rattle.lexauto_dfa.specs.Arranged.{Arranged, IsMarked, IsTouched, block_of, count, states};
ghost use Rattle.lexauto_dfa.specs.Going.{Counts, Going};
ghost use Rattle.lexauto_dfa.specs.Marked.{Notes};
ghost use Rattle.lexauto_dfa.specs.Sources.{Has};
ghost use Rattle.lexauto_dfa.specs.Splits.{Cuts};

use crate::least::blocks::{Blocks, split_block};
use std::alloc::AllocError;

/// Cuts a block. The new block, if there is one, waits.
#[inline(never)]
fn split_one(blocks: &mut Blocks, number: u32, waiting: &mut Vec<u32>) -> Result<(), AllocError>
    requires number { number < count blocks.old }
    requires arranged { Arranged blocks.old }
    requires known { (i : ℕ) → i < length waiting.old.items → slice_index waiting.old.items i < count blocks.old }
    ensures arranged { OnOk result (Arranged blocks.new) }
    ensures counts { OnOk result (Counts blocks.old waiting.old.items blocks.new waiting.new.items) }
    ensures touched { OnOk result ((c : ℕ) → c < count blocks.new → IsTouched blocks.new c → (c < count blocks.old)
        × (c ≢ number) × IsTouched blocks.old c) }
    ensures goes_on { OnOk result ((old : Blocks) (waited : List ℕ) (m : ℕ → Bool) → states blocks.old ≡ states old
        → Going old waited blocks.old waiting.old.items m → Going old waited blocks.new waiting.new.items m) }
{
    let new = blocks.first.len() as u32;
    if split_block(blocks, number as usize)? {
        waiting.push(new)?;
    }
    Ok(())
}

/// Cuts each touched block into its marked and its other states. The new blocks wait.
pub(crate) fn split_touched(
    blocks: &mut Blocks,
    touched: &[u32],
    waiting: &mut Vec<u32>,
) -> Result<(), AllocError>
    requires notes { Notes touched.now blocks.old }
    requires arranged { Arranged blocks.old }
    requires known { (i : ℕ) → i < length waiting.old.items → slice_index waiting.old.items i < count blocks.old }
    ensures arranged { OnOk result (Arranged blocks.new) }
    ensures counts { OnOk result (Counts blocks.old waiting.old.items blocks.new waiting.new.items) }
    ensures untouched { OnOk result ((c : ℕ) → c < count blocks.new → IsTouched blocks.new c → ⊥) }
    ensures cuts { OnOk result ((m : ℕ → Bool)
        → ((x : ℕ) → x < states blocks.old → IsMarked blocks.old x ↔ (m x ≡ true))
        → Cuts (states blocks.old) (block_of blocks.old) (block_of blocks.new) m (Has waiting.old.items)
        (Has waiting.new.items)) }
{
    for number in touched {
        split_one(blocks, *number, waiting)?;
    }
    Ok(())
}
