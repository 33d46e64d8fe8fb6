//! How a table goes from state to state.
ghost use Rattle.std.specs.Prelude.{◌≡◌, ℕ, ◌+◌, ◌*◌, ◌^◌, ◌<◌, ◌≤◌, length, slice_index, slice_get, Some, IfOk, OnOk};
ghost use Rattle.lex_semantics.specs.Limits.{max_states};
ghost use Rattle.lex_semantics.specs.Text.{flag};
ghost use Rattle.lextab_packed.specs.Flats.{as_target, marked_target, stop_of, kind_of};
ghost use Rattle.lextab_packed.specs.Machines.{table_machine, table_states, flags_of};
ghost use Rattle.lextab_packed.specs.Checks.{IsTable};
ghost use Rattle.lextab_packed.specs.Steps.{step_of};
ghost use Rattle.lextab_packed.specs.Views.{table_of};

use crate::kinds::Kind;
use crate::parts::TableParts;
use crate::tables::Tables;
use std::alloc::{AllocError, Global};

/// The state after one byte more.
pub(crate) fn target(parts: &TableParts, state: u32, byte: u8) -> u32
    requires table { IsTable (table_of parts.now) }
    requires state { state < length parts.now.rows.items }
    ensures state { result ≡ step_of (table_of parts.now) state byte }
    ensures known { result < length parts.now.rows.items }
{
    let row = &parts.rows[state as usize];
    let slot = row.base as usize + usize::from(parts.class_of[usize::from(byte)]);
    if u32::from(parts.checks[slot]) == state {
        u32::from(parts.nexts[slot])
    } else {
        row.default_target
    }
}

/// The least mark of a target at which the machine stops: no rule is accepted there.
pub(crate) const STOP: u32 = 2_147_483_648;

/// The mark of a stop where the first rule that is accepted does nothing.
pub(crate) const STOP_SILENT: u32 = 2_148_532_224;

/// The mark of a stop where it writes the text.
pub(crate) const STOP_ECHO: u32 = 2_149_580_800;

/// The mark of a stop where it does anything else.
pub(crate) const STOP_OTHER: u32 = 2_150_629_376;

/// The mark of a stop, by what is known of the first rule that is accepted there.
fn stop_of(kind: Kind) -> u32
    ensures { result ≡ stop_of kind }
{
    match kind {
        Kind::NoRule => STOP,
        Kind::Silent => STOP_SILENT,
        Kind::Echo => STOP_ECHO,
        Kind::Any | Kind::Print(_) | Kind::Begin(_) | Kind::Several(_) => STOP_OTHER,
    }
}

/// A target with its mark.
fn mark(state: u32, kind: Kind, goes_on: bool) -> u32
    requires { state ≤ max_states }
    ensures { result ≡ as_target goes_on kind state }
{
    if goes_on {
        256 * state
    } else {
        stop_of(kind) + state
    }
}

/// Each state as a target with its mark.
pub(crate) fn marks_of(
    alloc: Global,
    tables: &Tables,
    kinds: &[Kind],
) -> Result<Vec<u32>, AllocError>
    requires kinds { length kinds.now ≡ table_states tables.now }
    requires told { (s : ℕ) → s < table_states tables.now
        → slice_get kinds.now s ≡ Some (kind_of (table_machine tables.now) s) }
    ensures len { IfOk result (λ v. length v.items ≡ table_states tables.now) }
    ensures each { IfOk result (λ v. (s : ℕ) → s < table_states tables.now → slice_index v.items s
        ≡ as_target (flag (flags_of tables.now) s) (kind_of (table_machine tables.now) s) s) }
{
    let mut marks = Vec::with_capacity(alloc, kinds.len())?;
    for state in 0..kinds.len() {
        marks.push(mark(state as u32, kinds[state], tables.goes_on[state]))?;
    }
    Ok(marks)
}

/// Marks the targets of rows, each in its place.
pub(crate) fn mark_rows(
    alloc: Global,
    tables: &Tables,
    kinds: &[Kind],
    rows: &mut Vec<u32>,
) -> Result<(), AllocError>
    requires kinds { length kinds.now ≡ table_states tables.now }
    requires told { (s : ℕ) → s < table_states tables.now
        → slice_get kinds.now s ≡ Some (kind_of (table_machine tables.now) s) }
    requires len { length rows.old.items ≡ 256 * length tables.now.parts.rows.items }
    requires steps { (s b : ℕ) → s < length tables.now.parts.rows.items → b < 256
        → slice_index rows.old.items (256 * s + b) ≡ step_of (table_of tables.now.parts) s b }
    ensures len { OnOk result (length rows.new.items ≡ 256 * length tables.now.parts.rows.items) }
    ensures each { OnOk result ((s b : ℕ) → s < length tables.now.parts.rows.items → b < 256
        → slice_index rows.new.items (256 * s + b) ≡ marked_target tables.now s b) }
{
    let marks = marks_of(alloc, tables, kinds)?;
    for place in 0..rows.len() {
        rows[place] = marks[rows[place] as usize];
    }
    Ok(())
}
