//! The slots of the entries.
ghost use Rattle.std.specs.Prelude.{◌≡◌, ◌≢◌, ℕ, ◌+◌, ◌*◌, ◌<◌, ◌≤◌, ◌^◌, length, slice_index, IfOk};
ghost use Rattle.lextab.specs.Columns.{IsBase, IsSize, AreSlots};
ghost use Rattle.lextab.specs.Searching.{by_head, HasRows, AreFilled};
ghost use Rattle.lex_semantics.specs.Limits.{max_states};

use std::alloc::{AllocError, Global};

/// The number of slots: the greatest base and the number of classes.
pub(crate) fn size_of(bases: &[u32], count: usize) -> usize
    requires some { 0 < length bases.now }
    requires few { count ≤ 256 }
    ensures { IsSize (length bases.now) count bases.now result }
{
    let mut greatest = bases[0];
    for base in bases {
        if *base > greatest {
            greatest = *base;
        }
    }
    greatest as usize + count
}

/// Writes the slots of one state.
fn fill(
    block: &[u32],
    heads: &[u8],
    default: u32,
    base: usize,
    state: u16,
    check: &mut [u16],
    targets: &mut [u16],
)
    requires block { length block.now ≡ 256 }
    requires few { (b : ℕ) → b < 256 → slice_index block.now b < 2 ^ 16 }
    requires low { base < 2 ^ 40 }
    requires within { base + length heads.now ≤ length check.old }
    requires same { length targets.old ≡ length check.old }
    ensures { AreFilled (λ k. slice_index block.now (slice_index heads.now k)) default base state (length heads.now)
        check.old targets.old check.new targets.new }
{
    for (k, head) in heads.iter().enumerate() {
        let target = block[*head as usize];
        if target != default {
            check[base + k] = state;
            targets[base + k] = target as u16;
        }
    }
}

/// Writes the slots of all states.
fn fill_all(
    next: &[u32],
    heads: &[u8],
    defaults: &[u32],
    bases: &[u32],
    check: &mut [u16],
    targets: &mut [u16],
)
    requires laid { HasRows next.now heads.now (length bases.now) }
    requires below { (i : ℕ) → i < length next.now → slice_index next.now i < length bases.now }
    requires states { length bases.now ≤ max_states }
    requires defaults { length defaults.now ≡ length bases.now }
    requires placed { (s : ℕ) → s < length bases.now
        → IsBase (by_head next.now heads.now) (length heads.now) defaults.now bases.now s (slice_index bases.now s) }
    requires within { (s : ℕ) → s < length bases.now → slice_index bases.now s + length heads.now ≤ length check.old }
    requires same { length targets.old ≡ length check.old }
    requires zeros { (i : ℕ) → (slice_index check.old i ≡ 0) × (slice_index targets.old i ≡ 0) }
    ensures { AreSlots (length bases.now) (by_head next.now heads.now)
        (length heads.now) defaults.now bases.now check.new targets.new }
{
    for state in 0..bases.len() {
        fill(
            &next[256 * state..256 * state + 256],
            heads,
            defaults[state],
            bases[state] as usize,
            state as u16,
            check,
            targets,
        );
    }
}

/// The slots of a packed table.
#[derive(Drop)]
pub(crate) struct Slots {
    pub(crate) check: Vec<u16>,
    pub(crate) targets: Vec<u16>,
}

/// The slots of all states.
pub(crate) fn slots_of(
    alloc: Global,
    next: &[u32],
    heads: &[u8],
    defaults: &[u32],
    bases: &[u32],
) -> Result<Slots, AllocError>
    requires some { 0 < length bases.now }
    requires laid { HasRows next.now heads.now (length bases.now) }
    requires below { (i : ℕ) → i < length next.now → slice_index next.now i < length bases.now }
    requires states { length bases.now ≤ max_states }
    requires defaults { length defaults.now ≡ length bases.now }
    requires placed { (s : ℕ) → s < length bases.now
        → IsBase (by_head next.now heads.now) (length heads.now) defaults.now bases.now s (slice_index bases.now s) }
    ensures check { IfOk result (λ t. IsSize (length bases.now) (length heads.now) bases.now (length t.check.items)) }
    ensures targets { IfOk result (λ t. IsSize (length bases.now) (length heads.now) bases.now
        (length t.targets.items)) }
    ensures slots { IfOk result (λ t. AreSlots (length bases.now) (by_head next.now heads.now)
        (length heads.now) defaults.now bases.now t.check.items t.targets.items) }
{
    let size = size_of(bases, heads.len());
    let mut check = vec![in alloc; 0u16; size]?;
    let mut targets = vec![in alloc; 0u16; size]?;
    fill_all(next, heads, defaults, bases, &mut check, &mut targets);
    Ok(Slots { check, targets })
}
