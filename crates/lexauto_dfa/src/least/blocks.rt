//! Blocks of states.
ghost use Rattle.std.specs.Prelude.{◌≡◌, ◌≢◌, ◌⊎◌, ◌^◌, ℕ, ◌+◌, ◌*◌, ◌<◌, ◌≤◌};
ghost use Rattle.std.specs.Prelude.{true, false, length, slice_index, IfOk, OnOk};
ghost use Rattle.lexauto_dfa.specs.Arranged.{ArePieces, Arranged, IsCut, IsDivided, IsDivision, IsTouched};
ghost use Rattle.lexauto_dfa.specs.Arranged.{IsMarked, block_of, size, states, count};

use std::alloc::{AllocError, Global};

/// States in an order in which each block is a stretch: from `first`, to `end`, those before `middle` marked.
#[derive(Drop)]
pub(crate) struct Blocks {
    pub order: Vec<u32>,
    pub place: Vec<u32>,
    pub block: Vec<u32>,
    pub first: Vec<u32>,
    pub middle: Vec<u32>,
    pub end: Vec<u32>,
}

/// Marks a state. Whether it is the first of its block to be marked.
pub(crate) fn mark(blocks: &mut Blocks, state: u32) -> bool
    requires state { state < states blocks.old }
    requires arranged { Arranged blocks.old }
    ensures arranged { Arranged blocks.new }
    ensures same { (blocks.new.block ≡ blocks.old.block) × (blocks.new.first ≡ blocks.old.first) }
    ensures marks { IsMarked blocks.new state }
    ensures keeps { (x : ℕ) → x < states blocks.old → IsMarked blocks.old x → IsMarked blocks.new x }
    ensures only { (x : ℕ) → x < states blocks.old → IsMarked blocks.new x → IsMarked blocks.old x ⊎ (x ≡ state) }
    ensures touches { (c : ℕ) → IsTouched blocks.new c
        → IsTouched blocks.old c ⊎ ((c ≡ block_of blocks.old state) × (result ≡ true)) }
{
    let place = blocks.place[state as usize] as usize;
    let number = blocks.block[state as usize] as usize;
    let middle = blocks.middle[number];
    if place < middle as usize {
        return false;
    }
    let other = blocks.order[middle as usize];
    blocks.order[place] = other;
    blocks.place[other as usize] = place as u32;
    blocks.order[middle as usize] = state;
    blocks.place[state as usize] = middle;
    blocks.middle[number] = middle + 1;
    middle == blocks.first[number]
}

/// Gives the states at some places another block.
fn rename(order: &[u32], block: &mut [u32], from: usize, to: usize, number: u32)
    requires from { from ≤ to }
    requires to { to ≤ length order.now }
    requires known { (i : ℕ) → i < length order.now → slice_index order.now i < length block.old }
    ensures moved { (i : ℕ) → from ≤ i → i < to → slice_index block.new (slice_index order.now i) ≡ number }
    ensures rest { (x : ℕ) → ((i : ℕ) → from ≤ i → i < to → slice_index order.now i ≢ x)
        → slice_index block.new x ≡ slice_index block.old x }
{
    for i in from..to {
        block[order[i] as usize] = number;
    }
}

/// A part of the order.
#[derive(Clone, Copy)]
pub(crate) struct Stretch {
    pub from: u32,
    pub to: u32,
}

/// Makes one of two pieces of a block a block of its own.
fn divide(
    blocks: &mut Blocks,
    number: usize,
    kept: Stretch,
    piece: Stretch,
) -> Result<(), AllocError>
    requires number { number < count blocks.old }
    requires arranged { Arranged blocks.old }
    requires pieces { IsDivided (slice_index blocks.old.first.items number)
        (slice_index blocks.old.end.items number) kept.from kept.to piece.from piece.to }
    ensures arranged { OnOk result (Arranged blocks.new) }
    ensures division { OnOk result (IsDivision blocks.old number piece.from piece.to blocks.new) }
{
    let new = blocks.first.len() as u32;
    blocks.first[number] = kept.from;
    blocks.middle[number] = kept.from;
    blocks.end[number] = kept.to;
    blocks.first.push(piece.from)?;
    blocks.middle.push(piece.from)?;
    blocks.end.push(piece.to)?;
    rename(
        &blocks.order,
        &mut blocks.block,
        piece.from as usize,
        piece.to as usize,
        new,
    );
    Ok(())
}

/// Whether a block has marked states and others.
fn is_mixed(first: u32, middle: u32, end: u32) -> bool
    requires from { first ≤ middle }
    requires to { middle ≤ end }
    ensures mixed { result ≡ true → (first < middle) × (middle < end) }
    ensures uniform { result ≡ false → (middle ≡ first) ⊎ (middle ≡ end) }
{
    first < middle && middle < end
}

/// The two pieces of a block: the one that it keeps, and a new block.
#[derive(Clone, Copy)]
struct Pieces {
    kept: Stretch,
    new: Stretch,
}

/// The marked states and the others of a block. The smaller piece is to be a new block.
fn halves(first: u32, middle: u32, end: u32) -> Pieces
    requires marked { first < middle }
    requires others { middle < end }
    ensures { ArePieces first middle end result.kept.from result.kept.to result.new.from result.new.to }
{
    let marked = Stretch {
        from: first,
        to: middle,
    };
    let others = Stretch {
        from: middle,
        to: end,
    };
    if middle - first <= end - middle {
        return Pieces {
            kept: others,
            new: marked,
        };
    }
    Pieces {
        kept: marked,
        new: others,
    }
}

/// Cuts a block into its marked and its other states, where it has both. The smaller piece is a new block. Whether it
/// did.
pub(crate) fn split_block(blocks: &mut Blocks, number: usize) -> Result<bool, AllocError>
    requires number { number < count blocks.old }
    requires arranged { Arranged blocks.old }
    ensures arranged { OnOk result (Arranged blocks.new) }
    ensures half { IfOk result (λ done. done ≡ true → 2 * size blocks.new (count blocks.old) ≤ size blocks.old number) }
    ensures cut { IfOk result (λ done. IsCut blocks.old number blocks.new done) }
{
    let first = blocks.first[number];
    let middle = blocks.middle[number];
    let end = blocks.end[number];
    if !is_mixed(first, middle, end) {
        blocks.middle[number] = first;
        return Ok(false);
    }
    let pieces = halves(first, middle, end);
    divide(blocks, number, pieces.kept, pieces.new)?;
    Ok(true)
}
