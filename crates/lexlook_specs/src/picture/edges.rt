//! The edges of a state.
ghost use Rattle.std.specs.Prelude.{◌≡◌, ℕ, ◌+◌, ◌<◌, ◌≤◌, ◌==◌, ◌++◌, length, slice_index, OnOk};
ghost use Rattle.lexlook_specs.specs.Pictures.{edge, edge_at, edges, leads_below};

use crate::picture::adding::{add, add_number};
use crate::picture::classes::add_class;
use std::alloc::AllocError;

/// Appends the edge to a target.
fn add_edge(text: &mut Vec<u8>, state: u32, row: &[u32], target: u32) -> Result<(), AllocError>
    requires { length row.now ≡ 256 }
    ensures { OnOk result (text.new.items ≡ text.old.items
        ++ edge state target (λ c. slice_index row.now c == target)) }
{
    add(text, b"  ")?;
    add_number(text, state)?;
    add(text, b" -> ")?;
    add_number(text, target)?;
    add(text, b" [label=\"")?;
    add_class(text, row, target)?;
    add(text, b"\"];\n")
}

/// Appends the edge that stands at a byte. `drawn` tells for each target the last state from which an edge there was
/// looked at.
fn add_edge_at(
    text: &mut Vec<u8>,
    drawn: &mut [u32],
    state: u32,
    row: &[u32],
    byte: usize,
) -> Result<(), AllocError>
    requires row { length row.now ≡ 256 }
    requires byte { byte < 256 }
    requires known { slice_index row.now byte < length drawn.old }
    requires told { (t : ℕ) → (slice_index drawn.old t == state) ≡ leads_below (slice_index row.now) t byte }
    ensures text { OnOk result (text.new.items ≡ text.old.items ++ edge_at state (slice_index row.now) byte) }
    ensures told { (t : ℕ) → (slice_index drawn.new t == state) ≡ leads_below (slice_index row.now) t (byte + 1) }
    ensures at_most { ((t : ℕ) → slice_index drawn.old t ≤ state) → (t : ℕ) → slice_index drawn.new t ≤ state }
{
    let target = row[byte];
    if drawn[target as usize] == state {
        return Ok(());
    }
    drawn[target as usize] = state;
    if target == 0 {
        return Ok(());
    }
    add_edge(text, state, row, target)
}

/// Appends the edges of a state. `drawn` tells for each target the last state from which an edge there was looked at.
pub(crate) fn add_edges(
    text: &mut Vec<u8>,
    drawn: &mut [u32],
    state: u32,
    row: &[u32],
) -> Result<(), AllocError>
    requires row { length row.now ≡ 256 }
    requires known { (b : ℕ) → b < 256 → slice_index row.now b < length drawn.old }
    requires earlier { (t : ℕ) → slice_index drawn.old t < state }
    ensures text { OnOk result (text.new.items ≡ text.old.items ++ edges state (slice_index row.now)) }
    ensures drawn { (t : ℕ) → slice_index drawn.new t ≤ state }
{
    for byte in 0..256usize {
        add_edge_at(text, drawn, state, row, byte)?;
    }
    Ok(())
}
