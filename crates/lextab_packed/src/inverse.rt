//! The inverse transitions of a table: its entries by their targets.
ghost use Rattle.std.specs.Prelude.{◌≡◌, ◌^◌, ◌*◌, ℕ, ◌<◌, length, slice_index, IfOk};
ghost use Rattle.lextab_packed.specs.Inverse.{AreChains};

use std::alloc::{AllocError, Global};

/// For each target the last link to it. A link is an entry of the table, and the last link before it with the same
/// target. Both are told by one more than the link, and 0 where there is none.
#[derive(Drop)]
pub(crate) struct Chains {
    pub last: Vec<u32>,
    pub entries: Vec<u32>,
    pub before: Vec<u32>,
}

/// A table with its inverse transitions, as chains.
#[derive(Drop)]
pub(crate) struct InverseTransitions<'a> {
    pub next: &'a [u32],
    pub chains: Chains,
    ghost rows: { length next.now ≡ 256 * length chains.last.items },
    ghost few: { length next.now < 2 ^ 32 },
    ghost chained: { AreChains next.now chains.last.items chains.entries.items chains.before.items (length next.now) },
}

/// The table with its inverse transitions.
pub(crate) fn inverse_transitions(
    alloc: Global,
    next: &[u32],
    targets: usize,
) -> Result<InverseTransitions<'_>, AllocError>
    requires rows { length next.now ≡ 256 * targets }
    requires few { length next.now < 2 ^ 32 }
    requires known { (x : ℕ) → x < length next.now → slice_index next.now x < targets }
    ensures next { IfOk result (λ s. s.next.now ≡ next.now) }
    ensures targets { IfOk result (λ s. length s.chains.last.items ≡ targets) }
{
    let chains = chains_of(alloc, next, targets)?;
    Ok(InverseTransitions { next, chains })
}

/// The chains of a table over this many targets. Of neighbouring bytes that lead from a state to one target the first
/// has a link alone.
fn chains_of(alloc: Global, next: &[u32], targets: usize) -> Result<Chains, AllocError>
    requires few { length next.now < 2 ^ 32 }
    requires known { (x : ℕ) → x < length next.now → slice_index next.now x < targets }
    ensures chains { IfOk result (λ s. AreChains next.now s.last.items s.entries.items s.before.items (length next.now)) }
    ensures targets { IfOk result (λ s. length s.last.items ≡ targets) }
{
    let mut last: Vec<u32> = vec![in alloc; 0; targets]?;
    let mut entries: Vec<u32> = Vec::new(alloc);
    let mut before: Vec<u32> = Vec::new(alloc);
    for x in 0..next.len() {
        if x % 256 == 0 || next[x - 1] != next[x] {
            let target = next[x] as usize;
            entries.push(x as u32)?;
            before.push(last[target])?;
            last[target] = entries.len() as u32;
        }
    }
    Ok(Chains {
        last,
        entries,
        before,
    })
}
