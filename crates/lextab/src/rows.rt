//! Rows of targets, class by class.
ghost use Rattle.std.specs.Prelude.{◌≡◌, true, ℕ, ◌≢◌, ◌+◌, ◌*◌, ◌<◌, ◌≤◌, ◌^◌};
ghost use Rattle.std.specs.Prelude.{◌⊎◌, length, slice_index, map, OnOk, IfOk};
ghost use Rattle.lextab.specs.Columns.{often, IsDefault};
ghost use Rattle.lextab.specs.Searching.{AreAllBytes, AreEntries, HasRows, by_head};

use std::alloc::{AllocError, Global};

/// Writes the targets of the bytes.
fn pick(block: &[u32], heads: &[u8], row: &mut [u32])
    requires block { length block.now ≡ 256 }
    requires len { length row.old ≡ length heads.now }
    ensures len { length row.new ≡ length heads.now }
    ensures each { (k : ℕ) → k < length heads.now
        → slice_index row.new k ≡ slice_index block.now (slice_index heads.now k) }
{
    for (k, head) in heads.iter().enumerate() {
        row[k] = block[*head as usize];
    }
}

/// Writes the targets of the bytes, in 16 bits each.
fn pick_short(block: &[u32], heads: &[u8], row: &mut [u16])
    requires block { length block.now ≡ 256 }
    requires few { (b : ℕ) → b < 256 → slice_index block.now b < 2 ^ 16 }
    requires len { length row.old ≡ length heads.now }
    ensures len { length row.new ≡ length heads.now }
    ensures each { (k : ℕ) → k < length heads.now
        → slice_index row.new k ≡ slice_index block.now (slice_index heads.now k) }
{
    for (k, head) in heads.iter().enumerate() {
        row[k] = block[*head as usize] as u16;
    }
}

/// Counts how often each target stands in the row.
fn count_up(row: &[u32], counts: &mut [u32])
    requires few { length row.now < 2 ^ 32 }
    requires below { (k : ℕ) → k < length row.now → slice_index row.now k < length counts.old }
    requires none { (t : ℕ) → slice_index counts.old t ≡ 0 }
    ensures { (t : ℕ) → slice_index counts.new t ≡ often (slice_index row.now) (length row.now) t }
{
    for target in row {
        counts[*target as usize] += 1;
    }
}

/// The target that stands most often, the smallest number of equals.
fn most_often(row: &[u32], counts: &[u32]) -> u32
    requires some { 0 < length row.now }
    requires below { (k : ℕ) → k < length row.now → slice_index row.now k < length counts.now }
    requires counts { (t : ℕ) → slice_index counts.now t ≡ often (slice_index row.now) (length row.now) t }
    ensures { IsDefault (slice_index row.now) (length row.now) result }
{
    let mut best = row[0];
    for target in row {
        let times = counts[*target as usize];
        let most = counts[best as usize];
        if times > most || times == most && *target < best {
            best = *target;
        }
    }
    best
}

/// Sets the counts of the targets back to 0.
fn clear(row: &[u32], counts: &mut [u32])
    requires below { (k : ℕ) → k < length row.now → slice_index row.now k < length counts.old }
    requires rest { (t : ℕ) → ((k : ℕ) → k < length row.now → slice_index row.now k ≢ t)
        → slice_index counts.old t ≡ 0 }
    ensures { (t : ℕ) → slice_index counts.new t ≡ 0 }
{
    for target in row {
        counts[*target as usize] = 0;
    }
}

/// How often a target stands in the row.
fn times_of(row: &[u32], target: u32) -> u32
    requires { length row.now < 2 ^ 32 }
    ensures { result ≡ often (slice_index row.now) (length row.now) target }
{
    let mut times = 0;
    for other in row {
        if *other == target {
            times += 1;
        }
    }
    times
}

/// Whether a target stands in more than half of the row.
fn is_mostly(row: &[u32], target: u32) -> bool
    requires { length row.now < 2 ^ 32 }
    ensures { result ≡ true → length row.now < 2 * often (slice_index row.now) (length row.now) target }
{
    row.len() / 2 < times_of(row, target) as usize
}

/// The default of a row. The counts are all 0 before and after. Mostly the target in the middle stands in more than
/// half of the row, so that nothing else needs to be counted.
pub(crate) fn default_of(row: &[u32], counts: &mut [u32]) -> u32
    requires few { length row.now < 2 ^ 32 }
    requires some { 0 < length row.now }
    requires below { (k : ℕ) → k < length row.now → slice_index row.now k < length counts.old }
    requires none { (t : ℕ) → slice_index counts.old t ≡ 0 }
    ensures default { IsDefault (slice_index row.now) (length row.now) result }
    ensures none { (t : ℕ) → slice_index counts.new t ≡ 0 }
{
    let middle = row[row.len() / 2];
    if is_mostly(row, middle) {
        return middle;
    }
    count_up(row, counts);
    let best = most_often(row, counts);
    clear(row, counts);
    best
}

/// Writes the classes whose target is another.
pub(crate) fn read_entries(
    row: &[u32],
    default: u32,
    entries: &mut Vec<u32>,
) -> Result<(), AllocError>
    requires { length row.now < 2 ^ 32 }
    ensures { OnOk result (AreEntries row.now default (length row.now) entries.new.items) }
{
    entries.clear();
    for (k, target) in row.iter().enumerate() {
        if *target != default {
            entries.push(k as u32)?;
        }
    }
    Ok(())
}

/// Writes the targets of a state's classes.
pub(crate) fn read_row(next: &[u32], state: usize, heads: &[u8], row: &mut Vec<u32>)
    requires block { 256 * state + 256 ≤ length next.now }
    requires all { AreAllBytes heads.now }
    requires len { length row.old.items ≡ length heads.now }
    ensures len { length row.new.items ≡ length heads.now }
    ensures each { (k : ℕ) → k < length heads.now → slice_index row.new.items k ≡ by_head next.now heads.now state k }
{
    let block = &next[256 * state..256 * state + 256];
    if heads.len() == 256 {
        row.copy_from_slice(block);
    } else {
        pick(block, heads, row);
    }
}

/// Writes the targets of a state's classes, in 16 bits each.
pub(crate) fn read_short_row(next: &[u32], state: usize, heads: &[u8], row: &mut Vec<u16>)
    requires block { 256 * state + 256 ≤ length next.now }
    requires few { (i : ℕ) → i < length next.now → slice_index next.now i < 2 ^ 16 }
    requires len { length row.old.items ≡ length heads.now }
    ensures len { length row.new.items ≡ length heads.now }
    ensures each { (k : ℕ) → k < length heads.now → slice_index row.new.items k ≡ by_head next.now heads.now state k }
{
    pick_short(&next[256 * state..256 * state + 256], heads, row);
}

/// The default of each state. The counts are all 0.
pub(crate) fn defaults_of(
    alloc: Global,
    next: &[u32],
    states: usize,
    heads: &[u8],
    counts: &mut [u32],
) -> Result<Vec<u32>, AllocError>
    requires laid { HasRows next.now heads.now states }
    requires some { 0 < length heads.now }
    requires below { (i : ℕ) → i < length next.now → slice_index next.now i < states }
    requires counts { length counts.old ≡ states }
    requires none { (t : ℕ) → slice_index counts.old t ≡ 0 }
    ensures len { IfOk result (λ v. length v.items ≡ states) }
    ensures each { IfOk result (λ v. (s : ℕ) → s < states
        → IsDefault (by_head next.now heads.now s) (length heads.now) (slice_index v.items s)) }
{
    let mut row = vec![in alloc; 0u32; heads.len()]?;
    let mut defaults = Vec::with_capacity(alloc, states)?;
    for state in 0..states {
        read_row(next, state, heads, &mut row);
        let default = default_of(&row, counts);
        defaults.push(default)?;
    }
    Ok(defaults)
}
