//! The table of some parts, with its rows.
ghost use Rattle.std.specs.Prelude.{◌≡◌, ◌*◌, ◌+◌, ◌<◌, ℕ, length, map, nat_lt, slice_index, IfOk};
ghost use Rattle.lextab_packed.specs.Checks.{IsTable};
ghost use Rattle.lextab_packed.specs.Invariant.{GoesOn};
ghost use Rattle.lextab_packed.specs.Machines.{table_parts};
ghost use Rattle.lextab_packed.specs.Steps.{step_of};
ghost use Rattle.lextab_packed.specs.Views.{table_of};

use crate::live::live_states;
use crate::parts::{Row, TableParts};
use crate::rows::flat_rows;
use crate::tables::Tables;
use std::alloc::{AllocError, Global};

/// For each state whether it accepts a rule.
pub(crate) fn accepting(alloc: Global, rows: &[Row]) -> Result<Vec<bool>, AllocError>
    ensures { IfOk result (λ v. v.items ≡ map (λ r. nat_lt 0 (length r.rules.items)) rows.now) }
{
    let mut flags = Vec::with_capacity(alloc, rows.len())?;
    for row in rows {
        flags.push(!row.rules.is_empty())?;
    }
    Ok(flags)
}

/// For each state whether some text of at least one byte leads from it to one that accepts a rule. `next` has its row
/// of 256 targets.
fn going_on(alloc: Global, parts: &TableParts, next: &[u32]) -> Result<Vec<bool>, AllocError>
    requires table { IsTable (table_of parts.now) }
    requires len { length next.now ≡ 256 * length parts.now.rows.items }
    requires steps { (s b : ℕ) → s < length parts.now.rows.items → b < 256
        → slice_index next.now (256 * s + b) ≡ step_of (table_of parts.now) s b }
    ensures { IfOk result (λ v. GoesOn (table_of parts.now) v.items) }
{
    let accepting = accepting(alloc, &parts.rows)?;
    live_states(alloc, next, &accepting)
}

/// The table of these parts, and for each state its row of 256 targets. By these it is known which states go on. It
/// takes time and memory in proportion to the rows.
pub fn laid_out(alloc: Global, parts: TableParts) -> Result<(Tables, Vec<u32>), AllocError>
    requires { IsTable (table_of parts) }
    ensures parts { IfOk result (λ r. table_parts r.0 ≡ parts) }
    ensures len { IfOk result (λ r. length r.1.items ≡ 256 * length parts.rows.items) }
    ensures steps { IfOk result (λ r. (s b : ℕ) → s < length parts.rows.items → b < 256
        → slice_index r.1.items (256 * s + b) ≡ step_of (table_of parts) s b) }
{
    let rows = flat_rows(alloc, &parts)?;
    let goes_on = going_on(alloc, &parts, &rows)?;
    Ok((Tables::new(parts, goes_on), rows))
}
