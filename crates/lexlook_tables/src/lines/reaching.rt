//! The states of a machine that texts lead to.
ghost use Rattle.std.specs.Prelude.{◌≡◌, ℕ, ◌+◌, ◌<◌, ◌≤◌, true, length, get_or, IfOk, OnOk, List};
ghost use Rattle.lex_semantics.specs.Text.{Among, flag};
ghost use Rattle.lexlook_tables.specs.Reaching.{Found, IsReached, Added, BegunFrom, Followed, unmarked};

use lex_machine::Machine;
use std::alloc::{AllocError, Global};

/// Adds a state to those found, if it is a new one.
pub(crate) fn add(found: &mut Vec<u32>, marks: &mut Vec<bool>, state: u32) -> Result<(), AllocError>
    requires { state < length marks.old.items }
    ensures { OnOk result (Added found.old.items marks.old.items state found.new.items marks.new.items) }
{
    if !marks[state as usize] {
        marks[state as usize] = true;
        found.push(state)?;
    }
    Ok(())
}

/// Adds the states of a list, from which the search begins.
fn add_all(found: &mut Vec<u32>, marks: &mut Vec<bool>, states: &[u32]) -> Result<(), AllocError>
    requires { (s : ℕ) → Among states.now s → s < length marks.old.items }
    ensures { OnOk result (BegunFrom states.now found.old.items marks.old.items found.new.items marks.new.items) }
{
    for state in states {
        add(found, marks, *state)?;
    }
    Ok(())
}

/// Adds the states to which each byte leads from the one at this place.
pub(crate) fn widen<M: Machine>(
    machine: &M,
    found: &mut Vec<u32>,
    marks: &mut Vec<bool>,
    place: usize,
) -> Result<(), AllocError>
    requires place { place < length found.old.items }
    requires known { (s : ℕ) → Among found.old.items s → s < M.states machine.now }
    requires size { length marks.old.items ≡ M.states machine.now }
    ensures longer { OnOk result (length found.old.items ≤ length found.new.items) }
    ensures fewer { OnOk result (unmarked marks.new.items + length found.new.items
        ≤ unmarked marks.old.items + length found.old.items) }
    ensures found { OnOk result ((from : List ℕ)
        → Found (M.machine machine.now) (M.states machine.now) from found.old.items marks.old.items place 0
        → Found (M.machine machine.now) (M.states machine.now) from found.new.items marks.new.items place 256) }
    ensures followed { OnOk result (Followed (M.machine machine.now) (get_or found.old.items place 0) 256
        found.old.items marks.old.items found.new.items marks.new.items) }
{
    let state = found[place];
    'bytes: for byte in 0..256u32 {
        add(found, marks, machine.step(state, byte as u8))?;
    }
    Ok(())
}

/// The states that texts lead to from these, each once, or want of memory. They stand in the order of the first text
/// that leads to each. Shorter texts come first, then those from the first of these states, then byte order counts.
pub(crate) fn reached<M: Machine>(
    alloc: Global,
    machine: &M,
    states: u32,
    starts: &[u32],
) -> Result<Vec<u32>, AllocError>
    requires states { states ≡ M.states machine.now }
    requires starts { (s : ℕ) → Among starts.now s → s < M.states machine.now }
    ensures { IfOk result (λ v. IsReached (M.machine machine.now) (M.states machine.now) starts.now v.items) }
{
    let mut found = Vec::new(alloc);
    let mut marks = vec![in alloc; false; states as usize]?;
    add_all(&mut found, &mut marks, starts)?;
    let mut place = 0usize;
    'states: while place < found.len() {
        widen(machine, &mut found, &mut marks, place)?;
        place += 1;
    }
    Ok(found)
}
