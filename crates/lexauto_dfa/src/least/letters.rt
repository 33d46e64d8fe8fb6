//! The letters of an automaton over bytes.
ghost use Rattle.std.specs.Prelude.{◌≡◌, ◌^◌, ℕ, ◌+◌, ◌*◌, ◌<◌, length, slice_index, IfOk, OnOk};
ghost use Rattle.lexauto_dfa.specs.Columns.{AreBytes, HaveLetters};

use crate::alike::first_bytes;
use crate::least::sources::{Letter, chain};
use std::alloc::{AllocError, Global};

/// Where each state goes by one byte.
fn column(alloc: Global, next: &[u32], states: usize, byte: usize) -> Result<Vec<u32>, AllocError>
    requires byte { byte < 256 }
    requires len { length next.now ≡ 256 * states }
    ensures len { IfOk result (λ v. length v.items ≡ states) }
    ensures each { IfOk result (λ v. (x : ℕ) → x < states
        → slice_index v.items x ≡ slice_index next.now (x * 256 + byte)) }
{
    let mut column = vec![in alloc; 0; states]?;
    for state in 0..states {
        column[state] = next[state * 256 + byte];
    }
    Ok(column)
}

/// Adds the letter of a byte that is the first of those alike.
fn add_first(
    alloc: Global,
    letters: &mut Vec<Letter>,
    next: &[u32],
    states: usize,
    firsts: &[u8],
    byte: usize,
) -> Result<(), AllocError>
    requires byte { byte < 256 }
    requires firsts { length firsts.now ≡ 256 }
    requires few { states < 2 ^ 32 }
    requires len { length next.now ≡ 256 * states }
    requires known { (i : ℕ) → i < length next.now → slice_index next.now i < states }
    requires letters { HaveLetters next.now firsts.now states letters.old.items byte }
    ensures { OnOk result (HaveLetters next.now firsts.now states letters.new.items (byte + 1)) }
{
    if firsts[byte] as usize != byte {
        return Ok(());
    }
    let row = column(alloc, next, states, byte)?;
    letters.push(chain(alloc, row)?)?;
    Ok(())
}

/// The letters of the bytes, one for those by which all states go alike.
pub(crate) fn letters_of(
    alloc: Global,
    next: &[u32],
    states: usize,
) -> Result<Vec<Letter>, AllocError>
    requires few { states < 2 ^ 32 }
    requires len { length next.now ≡ 256 * states }
    requires known { (i : ℕ) → i < length next.now → slice_index next.now i < states }
    ensures { IfOk result (λ v. AreBytes next.now states v.items) }
{
    let firsts = first_bytes(alloc, next, states)?;
    let mut letters = Vec::new(alloc);
    for byte in 0..256 {
        add_first(alloc, &mut letters, next, states, &firsts, byte)?;
    }
    Ok(letters)
}
