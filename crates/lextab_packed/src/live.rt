//! Which states are live.
ghost use Rattle.std.specs.Prelude.{◌≡◌, ℕ, ◌*◌, ◌<◌, ◌≤◌, Bool, true, length, slice_index, IfOk, OnOk};
ghost use Rattle.lex_semantics.specs.Limits.{max_states};
ghost use Rattle.lex_semantics.specs.Text.{flag};
ghost use Rattle.lextab_packed.specs.Live.{AreLive, GoesTo};
ghost use Rattle.lextab_packed.specs.Inverse.{Has};
ghost use Rattle.lextab_packed.specs.Spreading.{Spreads};

use crate::inverse::{InverseTransitions, inverse_transitions};
use std::alloc::{AllocError, Global};

/// Makes a state live. It waits, if it was not live and does not accept.
fn mark_live(
    accepting: &[bool],
    live: &mut Vec<bool>,
    waiting: &mut Vec<u32>,
    state: u32,
) -> Result<(), AllocError>
    requires state { state < length live.old.items }
    requires one_each { length live.old.items ≡ length accepting.now }
    ensures { OnOk result (Spreads (λ x. x
        ≡ state) accepting.now live.old.items waiting.old.items live.new.items waiting.new.items) }
{
    if live[state as usize] {
        return Ok(());
    }
    live[state as usize] = true;
    if !accepting[state as usize] {
        waiting.push(state)?;
    }
    Ok(())
}

/// Makes the states live that go to a target.
fn mark_sources(
    sources: &InverseTransitions<'_>,
    accepting: &[bool],
    live: &mut Vec<bool>,
    waiting: &mut Vec<u32>,
    target: u32,
) -> Result<(), AllocError>
    requires target { target < length live.old.items }
    requires one_each { length live.old.items ≡ length accepting.now }
    requires targets { length sources.now.chains.last.items ≡ length live.old.items }
    ensures { OnOk result (Spreads (GoesTo sources.now.next.now target) accepting.now live.old.items waiting.old.items
        live.new.items waiting.new.items) }
{
    let chains = &sources.chains;
    let mut link = chains.last[target as usize];
    'chain: while link > 0 {
        let at = (link - 1) as usize;
        mark_live(accepting, live, waiting, chains.entries[at] / 256)?;
        link = chains.before[at];
    }
    Ok(())
}

/// The states that accept.
fn accepting_states(alloc: Global, accepting: &[bool]) -> Result<Vec<u32>, AllocError>
    requires few { length accepting.now ≤ max_states }
    ensures known { IfOk result (λ v. (x : ℕ) → Has v.items x → flag accepting.now x ≡ true) }
    ensures all { IfOk result (λ v. (x : ℕ) → flag accepting.now x ≡ true → Has v.items x) }
{
    let mut states: Vec<u32> = Vec::new(alloc);
    for state in 0..accepting.len() {
        if accepting[state] {
            states.push(state as u32)?;
        }
    }
    Ok(states)
}

/// For each state whether it is live: some text that is not empty leads from it to a state that accepts. `next` has a
/// row of 256 targets for each state. Takes time in proportion to the table.
pub fn live_states(alloc: Global, next: &[u32], accepting: &[bool]) -> Result<Vec<bool>, AllocError>
    requires rows { length next.now ≡ 256 * length accepting.now }
    requires few { length accepting.now ≤ max_states }
    requires known { (i : ℕ) → i < length next.now → slice_index next.now i < length accepting.now }
    ensures { IfOk result (λ live. AreLive next.now accepting.now live.items) }
{
    let sources = inverse_transitions(alloc, next, accepting.len())?;
    let mut waiting = accepting_states(alloc, accepting)?;
    let mut live = vec![in alloc; false; accepting.len()]?;
    'rounds: while let Some(target) = waiting.pop() {
        mark_sources(&sources, accepting, &mut live, &mut waiting, target)?;
    }
    Ok(live)
}
