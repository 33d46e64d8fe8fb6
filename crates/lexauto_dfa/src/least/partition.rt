//! The coarsest partition of the states, by their labels and the letters.
ghost use Rattle.std.specs.Prelude.{◌≡◌, ◌^◌, ℕ, ◌<◌, ◌≤◌, length, slice_index, IfOk, OnOk};
ghost use Rattle.lexauto_dfa.specs.Arranged.{Arranged, block_of, states};
ghost use Rattle.lexauto_dfa.specs.Going.{AreReady};
ghost use Rattle.lexauto_dfa.specs.Labels.{AreAlike, IsOneBlock};
ghost use Rattle.lexauto_dfa.specs.Letters.{AreLetters, machine};
ghost use Rattle.lexauto_dfa.specs.Futures.{IsCoarsest};
ghost use Rattle.lexauto_dfa.specs.Sources.{IsRow};

use crate::least::blocks::Blocks;
use crate::least::refining::{split, split_by_waiting};
use crate::least::sources::{Letter, chain};
use std::alloc::{AllocError, Global};

/// The numbers below another.
fn numbers(alloc: Global, end: u32) -> Result<Vec<u32>, AllocError>
    ensures len { IfOk result (λ v. length v.items ≡ end) }
    ensures each { IfOk result (λ v. (i : ℕ) → i < end → slice_index v.items i ≡ i) }
{
    let mut numbers = Vec::new(alloc);
    for i in 0..end {
        numbers.push(i)?;
    }
    Ok(numbers)
}

/// Some states in one block.
fn one_block(alloc: Global, end: u32) -> Result<Blocks, AllocError>
    requires { 0 < end }
    ensures { IfOk result (λ b. IsOneBlock end b) }
{
    let order = numbers(alloc, end)?;
    let place = numbers(alloc, end)?;
    let block = vec![in alloc; 0; end as usize]?;
    let first = vec![in alloc; 0; 1]?;
    let middle = vec![in alloc; 0; 1]?;
    let last = vec![in alloc; end; 1]?;
    Ok(Blocks {
        order,
        place,
        block,
        first,
        middle,
        end: last,
    })
}

/// Cuts blocks into states with one label. Each new block waits.
fn split_by_labels(
    alloc: Global,
    blocks: &mut Blocks,
    labels: &Letter,
    waiting: &mut Vec<u32>,
) -> Result<(), AllocError>
    requires row { length labels.now.row.items ≡ states blocks.old }
    requires ready { AreReady blocks.old waiting.old.items }
    requires alike { AreAlike labels.now.row.items 0 blocks.old waiting.old.items }
    ensures ready { OnOk result (AreReady blocks.new waiting.new.items) }
    ensures same_states { OnOk result (states blocks.new ≡ states blocks.old) }
    ensures alike { OnOk result (AreAlike labels.now.row.items (states blocks.old) blocks.new waiting.new.items) }
{
    let mut touched = Vec::new(alloc);
    let end = labels.row.len() as u32;
    for label in 0..end {
        split(blocks, labels, &[label], &mut touched, waiting)?;
    }
    Ok(())
}

/// The blocks of states that no continuation tells apart, by the letters and the states' labels.
pub(crate) fn refine(
    alloc: Global,
    letters: &[Letter],
    labels: Vec<u32>,
) -> Result<Blocks, AllocError>
    requires some { 0 < length labels.items }
    requires few { length labels.items < 2 ^ 32 }
    requires labels { IsRow labels.items }
    requires rows { AreLetters letters.now (length labels.items) }
    ensures arranged { IfOk result (λ b. Arranged b) }
    ensures same_states { IfOk result (λ b. states b ≡ length labels.items) }
    ensures coarsest { IfOk result (λ b. IsCoarsest (machine letters.now labels.items) (block_of b)) }
{
    let labels = chain(alloc, labels)?;
    let mut blocks = one_block(alloc, labels.row.len() as u32)?;
    let mut waiting = Vec::new(alloc);
    split_by_labels(alloc, &mut blocks, &labels, &mut waiting)?;
    split_by_waiting(alloc, &mut blocks, letters, &mut waiting)?;
    Ok(blocks)
}
