//! Rows placed one over another, each at the first place that fits.
ghost use Rattle.std.specs.Prelude.{◌≡◌, ◌≢◌, true, ℕ, ◌+◌, ◌-◌, ◌*◌, ◌<◌, ◌≤◌, ◌^◌};
ghost use Rattle.std.specs.Prelude.{length, vec_len, slice_index, OnOk, IfOk};
ghost use Rattle.lextab.specs.Columns.{IsBase, IsEntry};
ghost use Rattle.lextab.specs.Searching.{HasRoom, HasRows, Hits, IsFirstFit, IsMarked, IsEarlier, IsFreeAtEnd, by_head};
ghost use Rattle.lex_semantics.specs.Limits.{max_states};

use crate::rows::{read_entries, read_row};
use crate::slots::{REACH, first_fit, full_words, mark};
use std::alloc::{AllocError, Global};

/// Places entries at the first place that fits, which is not before `from`, and takes their slots.
fn place(
    words: &mut Vec<u64>,
    full: usize,
    from: usize,
    entries: &[u32],
) -> Result<usize, AllocError>
    requires few { vec_len words.old < 2 ^ 24 }
    requires room { HasRoom words.old.items full }
    requires from { (c : ℕ) → c < from → Hits words.old.items entries.now c }
    requires small { (j : ℕ) → j < length entries.now → slice_index entries.now j < 256 }
    ensures low { IfOk result (λ b. b ≤ 64 * (vec_len words.old - 5)) }
    ensures placed { IfOk result (λ b. IsFirstFit words.old.items entries.now b
        × IsMarked words.old.items entries.now b (length entries.now) words.new.items) }
    ensures room { OnOk result ((vec_len words.old ≤ vec_len words.new)
        × (vec_len words.new ≤ vec_len words.old - 5 + 10)) }
    ensures free { OnOk result (IsFreeAtEnd words.new.items) }
{
    if entries.is_empty() {
        return Ok(0);
    }
    let base = first_fit(words, entries, full, from);
    let need = base / 64 + 2 * REACH;
    if words.len() < need {
        words.resize(need, 0)?;
    }
    mark(words, entries, base);
    Ok(base)
}

/// Where a state is kept that has these entries, of so many cells. (The hash FNV-1a.)
fn cell_of(entries: &[u32], cells: usize) -> usize
    requires { 0 < cells }
    ensures { result < cells }
{
    let mut hash = 2_166_136_261u32;
    for k in entries {
        hash = (hash ^ *k).wrapping_mul(16_777_619);
    }
    hash as usize % cells
}

/// Whether each class by which a state goes to another target than its default is one by which this row does.
fn is_within(block: &[u32], heads: &[u8], other: u32, row: &[u32], default: u32) -> bool
    requires block { length block.now ≡ 256 }
    requires row { length row.now ≡ length heads.now }
    ensures { result ≡ true → (k : ℕ) → k < length heads.now
        → slice_index block.now (slice_index heads.now k) ≢ other → slice_index row.now k ≢ default }
{
    for (k, head) in heads.iter().enumerate() {
        if row[k] == default && block[*head as usize] != other {
            return false;
        }
    }
    true
}

/// A place that a row's base is not before: the base of an earlier state, if that one's entries are all among the
/// row's. It fitted nowhere before, so the row does not either.
#[inline(never)]
fn start_of(
    next: &[u32],
    heads: &[u8],
    defaults: &[u32],
    bases: &[u32],
    earlier: usize,
    row: &[u32],
    default: u32,
) -> usize
    requires rows { 256 * length bases.now ≤ length next.now }
    requires defaults { length bases.now ≤ length defaults.now }
    requires row { length row.now ≡ length heads.now }
    ensures { IsEarlier (by_head next.now heads.now) (length heads.now) defaults.now bases.now row.now default result }
{
    if earlier == 0 || earlier >= bases.len() {
        return 0;
    }
    let block = &next[256 * earlier..256 * earlier + 256];
    if !is_within(block, heads, defaults[earlier], row, default) {
        return 0;
    }
    bases[earlier] as usize
}

/// The base of each state. Of the states whose entries have one hash the last is kept: the next one with the same
/// entries fits nowhere before it.
pub(crate) fn bases_of(
    alloc: Global,
    next: &[u32],
    states: usize,
    heads: &[u8],
    defaults: &[u32],
) -> Result<Vec<u32>, AllocError>
    requires laid { HasRows next.now heads.now states }
    requires states { states ≤ max_states }
    requires defaults { length defaults.now ≡ states }
    ensures len { IfOk result (λ v. length v.items ≡ states) }
    ensures small { IfOk result (λ v. (s : ℕ) → s < states → slice_index v.items s ≤ 320 * states) }
    ensures each { IfOk result (λ v. (s : ℕ) → s < states
        → IsBase (by_head next.now heads.now) (length heads.now) defaults.now v.items s (slice_index v.items s)) }
{
    let mut row = vec![in alloc; 0u32; heads.len()]?;
    let mut entries = Vec::with_capacity(alloc, heads.len())?;
    let mut words: Vec<u64> = Vec::new(alloc);
    let mut full = 0;
    let mut lasts = vec![in alloc; 0u32; states]?;
    let mut bases = Vec::with_capacity(alloc, states)?;
    for state in 0..states {
        let default = defaults[state];
        read_row(next, state, heads, &mut row);
        read_entries(&row, default, &mut entries)?;
        let cell = cell_of(&entries, states);
        let from = start_of(
            next,
            heads,
            defaults,
            &bases,
            lasts[cell] as usize,
            &row,
            default,
        );
        let base = place(&mut words, full, from, &entries)?;
        full = full_words(&words, full);
        lasts[cell] = state as u32;
        bases.push(base as u32)?;
    }
    Ok(bases)
}
