//! Marking the states that go to a splitter.
ghost use Rattle.std.specs.Prelude.{◌≡◌, ℕ, ◌+◌, ◌<◌, true, false, length, slice_index, OnOk};
ghost use Rattle.lexauto_dfa.specs.Arranged.{Arranged, block_of, states};
ghost use Rattle.lexauto_dfa.specs.Marked.{Marks, Notes};
ghost use Rattle.lexauto_dfa.specs.Sources.{Has};

use crate::least::blocks::{Blocks, mark};
use crate::least::sources::Letter;
use std::alloc::AllocError;

/// Marks a state, and notes its block when it is the first there.
#[inline(never)]
fn note(blocks: &mut Blocks, touched: &mut Vec<u32>, state: u32) -> Result<(), AllocError>
    requires state { state < states blocks.old }
    requires arranged { Arranged blocks.old }
    requires notes { Notes touched.old.items blocks.old }
    ensures arranged { OnOk result (Arranged blocks.new) }
    ensures notes { OnOk result (Notes touched.new.items blocks.new) }
    ensures marks { OnOk result (Marks blocks.old (λ x. x ≡ state) blocks.new) }
{
    if !mark(blocks, state) {
        return Ok(());
    }
    touched.push(blocks.block[state as usize])?;
    Ok(())
}

/// Whether a state's block has no other.
pub(crate) fn is_alone(blocks: &Blocks, state: u32) -> bool
    requires state { state < states blocks.now }
    requires arranged { Arranged blocks.now }
    ensures { result ≡ true → slice_index blocks.now.first.items (block_of blocks.now state) + 1
        ≡ slice_index blocks.now.end.items (block_of blocks.now state) }
{
    let number = blocks.block[state as usize] as usize;
    let first = blocks.first[number] as usize;
    let end = blocks.end[number] as usize;
    first + 1 == end
}

/// Marks a state as `note` does, but one that is alone in its block, which cannot be cut.
fn note_unless_alone(
    blocks: &mut Blocks,
    touched: &mut Vec<u32>,
    state: u32,
) -> Result<(), AllocError>
    requires state { state < states blocks.old }
    requires arranged { Arranged blocks.old }
    requires notes { Notes touched.old.items blocks.old }
    ensures arranged { OnOk result (Arranged blocks.new) }
    ensures notes { OnOk result (Notes touched.new.items blocks.new) }
    ensures marks { OnOk result (Marks blocks.old (λ x. x ≡ state) blocks.new) }
{
    if is_alone(blocks, state) {
        return Ok(());
    }
    note(blocks, touched, state)
}

/// Marks the states that go to a target by a letter, and notes each block when its first state is marked.
fn mark_sources(
    blocks: &mut Blocks,
    letter: &Letter,
    target: u32,
    touched: &mut Vec<u32>,
) -> Result<(), AllocError>
    requires target { target < states blocks.old }
    requires row { length letter.now.row.items ≡ states blocks.old }
    requires arranged { Arranged blocks.old }
    requires notes { Notes touched.old.items blocks.old }
    ensures arranged { OnOk result (Arranged blocks.new) }
    ensures notes { OnOk result (Notes touched.new.items blocks.new) }
    ensures marks { OnOk result (Marks blocks.old (λ x. slice_index letter.now.row.items x ≡ target) blocks.new) }
{
    let mut next = letter.chains.last[target as usize];
    'chain: while next > 0 {
        let state = next - 1;
        note_unless_alone(blocks, touched, state)?;
        next = letter.chains.before[state as usize];
    }
    Ok(())
}

/// Whether some state goes to one of the targets by a letter.
#[inline(always)]
pub(crate) fn reaches(letter: &Letter, targets: &[u32]) -> bool
    requires { (i : ℕ) → i < length targets.now → slice_index targets.now i < length letter.now.row.items }
    ensures { result ≡ false → (x : ℕ) → x < length letter.now.row.items
        → Has targets.now (slice_index letter.now.row.items x) → ⊥ }
{
    for target in targets {
        if letter.chains.last[*target as usize] > 0 {
            return true;
        }
    }
    false
}

/// Marks the states that go to one of some targets by a letter.
pub(crate) fn mark_all(
    blocks: &mut Blocks,
    letter: &Letter,
    targets: &[u32],
    touched: &mut Vec<u32>,
) -> Result<(), AllocError>
    requires targets { (i : ℕ) → i < length targets.now → slice_index targets.now i < states blocks.old }
    requires row { length letter.now.row.items ≡ states blocks.old }
    requires arranged { Arranged blocks.old }
    requires notes { Notes touched.old.items blocks.old }
    ensures arranged { OnOk result (Arranged blocks.new) }
    ensures notes { OnOk result (Notes touched.new.items blocks.new) }
    ensures marks { OnOk result (Marks blocks.old
        (λ x. Has targets.now (slice_index letter.now.row.items x)) blocks.new) }
{
    for target in targets {
        mark_sources(blocks, letter, *target, touched)?;
    }
    Ok(())
}
