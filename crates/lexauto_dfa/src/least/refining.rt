//! Cutting blocks until states of one block go to one block by each letter.
ghost use Rattle.std.specs.Prelude.{◌≡◌, ◌↔◌, ℕ, ◌<◌, Bool, true, List, length, slice_index, IfOk, OnOk};
ghost use Rattle.lexauto_dfa.specs.Arranged.{Arranged, block_of, count, states};
ghost use Rattle.lexauto_dfa.specs.Going.{AreReady, Counts};
ghost use Rattle.lexauto_dfa.specs.Letters.{AreLetters, IsMembership, machine};
ghost use Rattle.lexauto_dfa.specs.Predecessors.{ArePredecessors};
ghost use Rattle.lexauto_dfa.specs.Sources.{Has};
ghost use Rattle.lexauto_dfa.specs.Splits.{Cuts, Refining, Using};
ghost use Rattle.lexauto_dfa.specs.Futures.{IsCoarsest};

use crate::least::blocks::Blocks;
use crate::least::marking::{mark_all, reaches};
use crate::least::predecessors::{Predecessors, is_settled, predecessors_of};
use crate::least::sources::Letter;
use crate::least::splitting::split_touched;
use std::alloc::{AllocError, Global};

/// Cuts each block into the states that go to one of the targets by a letter, and the others. The list of touched
/// blocks is used anew each time.
#[inline(always)]
pub(crate) fn split(
    blocks: &mut Blocks,
    letter: &Letter,
    targets: &[u32],
    touched: &mut Vec<u32>,
    waiting: &mut Vec<u32>,
) -> Result<(), AllocError>
    requires targets { (i : ℕ) → i < length targets.now → slice_index targets.now i < states blocks.old }
    requires row { length letter.now.row.items ≡ states blocks.old }
    requires ready { AreReady blocks.old waiting.old.items }
    ensures ready { OnOk result (AreReady blocks.new waiting.new.items) }
    ensures counts { OnOk result (Counts blocks.old waiting.old.items blocks.new waiting.new.items) }
    ensures cuts { OnOk result ((m : ℕ → Bool)
        → ((x : ℕ) → x < states blocks.old → (m x ≡ true) ↔ Has targets.now (slice_index letter.now.row.items x))
        → Cuts (states blocks.old) (block_of blocks.old) (block_of blocks.new) m (Has waiting.old.items)
        (Has waiting.new.items)) }
{
    touched.clear();
    mark_all(blocks, letter, targets, touched)?;
    split_touched(blocks, touched, waiting)?;
    Ok(())
}

/// Cuts each block by what its states go to by each letter: to one of the targets or not. It ends where nothing is left
/// to be cut.
fn split_by_all(
    blocks: &mut Blocks,
    letters: &[Letter],
    known: &[Predecessors],
    targets: &[u32],
    touched: &mut Vec<u32>,
    waiting: &mut Vec<u32>,
) -> Result<(), AllocError>
    requires targets { (i : ℕ) → i < length targets.now → slice_index targets.now i < states blocks.old }
    requires rows { AreLetters letters.now (states blocks.old) }
    requires known { ArePredecessors letters.now (states blocks.old) known.now }
    requires ready { AreReady blocks.old waiting.old.items }
    ensures ready { OnOk result (AreReady blocks.new waiting.new.items) }
    ensures counts { OnOk result (Counts blocks.old waiting.old.items blocks.new waiting.new.items) }
    ensures used { OnOk result ((labels : List ℕ) (coarse : ℕ → ℕ) (inside : ℕ → Bool)
        → length labels ≡ states blocks.old → IsMembership inside targets.now (states blocks.old)
        → Using (machine letters.now labels) (block_of blocks.old) (Has waiting.old.items) coarse inside 0
        → Using (machine letters.now labels) (block_of blocks.new) (Has waiting.new.items) coarse inside
        (length letters.now)) }
{
    for index in 0..letters.len() {
        let letter = &letters[index];
        if !reaches(letter, targets) {
            continue;
        }
        if is_settled(blocks, known, targets) {
            return Ok(());
        }
        split(blocks, letter, targets, touched, waiting)?;
    }
    Ok(())
}

/// The states of a block.
fn members(alloc: Global, blocks: &Blocks, number: u32) -> Result<Vec<u32>, AllocError>
    requires number { number < count blocks.now }
    requires arranged { Arranged blocks.now }
    ensures known { IfOk result (λ v. (i : ℕ) → i < length v.items → slice_index v.items i < states blocks.now) }
    ensures of { IfOk result (λ v. (x : ℕ) → x < states blocks.now → Has v.items x ↔ (block_of blocks.now x ≡ number)) }
{
    let from = blocks.first[number as usize] as usize;
    let to = blocks.end[number as usize] as usize;
    let states = Vec::from_slice(alloc, &blocks.order[from..to])?;
    Ok(states)
}

/// Takes one waiting block after another, until none waits.
pub(crate) fn split_by_waiting(
    alloc: Global,
    blocks: &mut Blocks,
    letters: &[Letter],
    waiting: &mut Vec<u32>,
) -> Result<(), AllocError>
    requires rows { AreLetters letters.now (states blocks.old) }
    requires ready { AreReady blocks.old waiting.old.items }
    ensures arranged { OnOk result (Arranged blocks.new) }
    ensures same_states { OnOk result (states blocks.new ≡ states blocks.old) }
    ensures coarsest { OnOk result ((labels : List ℕ) → length labels ≡ states blocks.old
        → (coarse : ℕ → ℕ) × Refining (machine letters.now labels) (block_of blocks.old) (Has waiting.old.items) coarse
        → IsCoarsest (machine letters.now labels) (block_of blocks.new)) }
{
    let mut touched = Vec::new(alloc);
    let known = predecessors_of(alloc, letters, blocks.block.len())?;
    'rounds: while let Some(number) = waiting.pop() {
        let targets = members(alloc, blocks, number)?;
        split_by_all(blocks, letters, &known, &targets, &mut touched, waiting)?;
    }
    Ok(())
}
