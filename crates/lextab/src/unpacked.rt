//! Columns of a table for one scan. Each state has a row of slots of its own, so no place is searched, and neighbouring
//! bytes are one class.
ghost use Rattle.std.specs.Prelude.{◌≡◌, ℕ, ◌+◌, ◌*◌, ◌<◌, ◌≤◌, length, slice_index, IfOk};
ghost use Rattle.lex_semantics.specs.Limits.{max_states};
ghost use Rattle.lexauto_dfa.specs.Alike.{moves};
ghost use Rattle.lextab.specs.Columns.{GoesAs};
ghost use Rattle.lextab.specs.PackingViews.{packing_of};
ghost use Rattle.lextab.specs.Searching.{HasRows, by_head};
ghost use Rattle.lextab.specs.Unpacked.{TellsNext, TellChanges, AreNeighbours, AreRowByRow};

use crate::classes::Classes;
use crate::packing::Packed;
use crate::rows::read_short_row;
use std::alloc::{AllocError, Global};

/// Not 0 where a state goes elsewhere by the next byte, or some state before did.
#[inline(always)]
fn change(row: &[u32], changes: &[u32], byte: usize) -> u32
    requires targets { length row.now ≡ 256 }
    requires changes { length changes.now ≡ 256 }
    requires byte { byte < 255 }
    ensures before { result ≡ 0 → slice_index changes.now byte ≡ 0 }
    ensures here { result ≡ 0 → slice_index row.now byte ≡ slice_index row.now (byte + 1) }
{
    changes[byte] | row[byte] ^ row[byte + 1]
}

/// Marks four bytes from this one on, where the state of the row goes elsewhere by the next byte. Four at a time are
/// compiled to single instructions.
#[inline(always)]
fn mark_four(row: &[u32], changes: &mut [u32], byte: usize)
    requires targets { length row.now ≡ 256 }
    requires changes { length changes.old ≡ 256 }
    requires byte { byte + 4 < 256 }
    ensures len { length changes.new ≡ 256 }
    ensures before { (b : ℕ) → slice_index changes.new b ≡ 0 → slice_index changes.old b ≡ 0 }
    ensures here { (b : ℕ) → byte ≤ b → b < byte + 4 → TellsNext row.now changes.new b }
{
    let four = [
        change(row, changes, byte),
        change(row, changes, byte + 1),
        change(row, changes, byte + 2),
        change(row, changes, byte + 3),
    ];
    changes[byte..byte + 4].copy_from_slice(&four);
}

/// Marks the bytes where the state of the row goes elsewhere by the next byte.
fn mark_changes(row: &[u32], changes: &mut [u32])
    requires targets { length row.now ≡ 256 }
    requires changes { length changes.old ≡ 256 }
    ensures len { length changes.new ≡ 256 }
    ensures before { (b : ℕ) → slice_index changes.new b ≡ 0 → slice_index changes.old b ≡ 0 }
    ensures here { (b : ℕ) → b < 255 → TellsNext row.now changes.new b }
{
    for block in 0..63usize {
        mark_four(row, changes, 4 * block);
    }
    mark_four(row, changes, 251);
}

/// Marks the bytes where some state goes elsewhere by the next byte.
fn mark_all(next: &[u32], states: usize, changes: &mut [u32])
    requires rows { length next.now ≡ 256 * states }
    requires changes { length changes.old ≡ 256 }
    ensures len { length changes.new ≡ 256 }
    ensures tell { TellChanges next.now states changes.new }
{
    for state in 0..states {
        mark_changes(&next[256 * state..256 * state + 256], changes);
    }
}

/// For each byte but the last whether some state goes elsewhere by the next one; not 0 where one does.
fn changes_of(alloc: Global, next: &[u32], states: usize) -> Result<Vec<u32>, AllocError>
    requires { length next.now ≡ 256 * states }
    ensures len { IfOk result (λ v. length v.items ≡ 256) }
    ensures tell { IfOk result (λ v. TellChanges next.now states v.items) }
{
    let mut changes = vec![in alloc; 0u32; 256]?;
    mark_all(next, states, &mut changes);
    Ok(changes)
}

/// Classes of neighbours by which each state goes alike: a class begins after each change.
fn neighbours(
    alloc: Global,
    next: &[u32],
    states: usize,
    changes: &[u32],
) -> Result<Classes, AllocError>
    requires len { length changes.now ≡ 256 }
    requires tell { TellChanges next.now states changes.now }
    ensures { IfOk result (λ c. AreNeighbours next.now states c.class_of.items c.heads.items 256) }
{
    let mut class_of: Vec<u8> = Vec::with_capacity(alloc, 256)?;
    let mut heads: Vec<u8> = Vec::with_capacity(alloc, 256)?;
    for byte in 0..256usize {
        if byte == 0 || changes[byte - 1] != 0 {
            heads.push(byte as u8)?;
        }
        class_of.push((heads.len() - 1) as u8)?;
    }
    Ok(Classes { class_of, heads })
}

/// Where the slots of each state begin, and the slots.
#[derive(Drop)]
struct SlotRows {
    bases: Vec<u32>,
    check: Vec<u16>,
    targets: Vec<u16>,
}

/// A slot for each state and class, row by row.
fn slot_rows(
    alloc: Global,
    next: &[u32],
    states: usize,
    heads: &[u8],
) -> Result<SlotRows, AllocError>
    requires laid { HasRows next.now heads.now states }
    requires few { states ≤ max_states }
    requires below { (i : ℕ) → i < length next.now → slice_index next.now i < states }
    ensures { IfOk result (λ r. AreRowByRow (by_head next.now heads.now) (length heads.now) states
        r.bases.items r.check.items r.targets.items) }
{
    let count = states * heads.len();
    let mut row = vec![in alloc; 0u16; heads.len()]?;
    let mut bases = Vec::with_capacity(alloc, states)?;
    let mut check: Vec<u16> = Vec::with_capacity(alloc, count)?;
    let mut targets: Vec<u16> = Vec::with_capacity(alloc, count)?;
    for state in 0..states {
        read_short_row(next, state, heads, &mut row);
        bases.push(check.len() as u32)?;
        check.resize(check.len() + heads.len(), state as u16)?;
        targets.extend_from_slice(&row)?;
    }
    Ok(SlotRows {
        bases,
        check,
        targets,
    })
}

/// Columns by which a table goes as an automaton of this many states. They are no packing, and so made at once.
pub(crate) fn unpacked(alloc: Global, next: &[u32], states: usize) -> Result<Packed, AllocError>
    requires rows { length next.now ≡ 256 * states }
    requires some { 0 < states }
    requires few { states ≤ max_states }
    requires below { (i : ℕ) → i < length next.now → slice_index next.now i < states }
    requires dead { (b : ℕ) → b < 256 → slice_index next.now b ≡ 0 }
    ensures { IfOk result (λ p. GoesAs states (moves next.now) (packing_of p)) }
{
    let changes = changes_of(alloc, next, states)?;
    let classes = neighbours(alloc, next, states, &changes)?;
    let rows = slot_rows(alloc, next, states, &classes.heads)?;
    Ok(Packed {
        class_count: classes.heads.len(),
        class_of: classes.class_of,
        defaults: vec![in alloc; 0u32; states]?,
        bases: rows.bases,
        check: rows.check,
        next: rows.targets,
    })
}
