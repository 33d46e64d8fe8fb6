//! The states that go to each state by one letter.
ghost use Rattle.std.specs.Prelude.{◌≡◌, ◌^◌, ℕ, ◌<◌, length, slice_index, IfOk};
ghost use Rattle.lexauto_dfa.specs.Sources.{IsRow, AreChains};

use std::alloc::{AllocError, Global};

/// For each target the last state that goes there, and for each state the last one before it that goes where it goes;
/// each one more than the state, and 0 where there is none.
#[derive(Drop)]
pub(crate) struct Chains {
    pub last: Vec<u32>,
    pub before: Vec<u32>,
}

/// Where the states go by one letter, with the chains of those that go to one state.
#[derive(Drop)]
pub(crate) struct Letter {
    pub row: Vec<u32>,
    pub chains: Chains,
    ghost row_known: { Rattle.lexauto_dfa.specs.Sources.IsRow row.items },
    ghost chained: { Rattle.lexauto_dfa.specs.Sources.AreChains row.items
        chains.last.items chains.before.items (length row.items) },
}

/// The chains of a row.
fn chains_of(alloc: Global, row: &[u32]) -> Result<Chains, AllocError>
    requires few { length row.now < 2 ^ 32 }
    requires row { IsRow row.now }
    ensures { IfOk result (λ s. AreChains row.now s.last.items s.before.items (length row.now)) }
{
    let mut last: Vec<u32> = vec![in alloc; 0; row.len()]?;
    let mut before: Vec<u32> = vec![in alloc; 0; row.len()]?;
    for x in 0..row.len() {
        let target = row[x] as usize;
        before[x] = last[target];
        last[target] = x as u32 + 1;
    }
    Ok(Chains { last, before })
}

/// A row with its chains.
pub(crate) fn chain(alloc: Global, row: Vec<u32>) -> Result<Letter, AllocError>
    requires few { length row.items < 2 ^ 32 }
    requires row { IsRow row.items }
    ensures { IfOk result (λ l. l.row.items ≡ row.items) }
{
    let chains = chains_of(alloc, &row)?;
    Ok(Letter { row, chains })
}
