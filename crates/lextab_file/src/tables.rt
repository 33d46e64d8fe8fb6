//! Reads packed tables.
ghost use Rattle.std.specs.Prelude.{◌≡◌, ◌<◌, ℕ, List, length, ◌++◌, IfOk, IfErr, Some, true, false};
ghost use Rattle.lextab_packed.specs.Table.{Table};
ghost use Rattle.lextab_packed.specs.Checks.{IsTable};
ghost use Rattle.lextab_packed.specs.FlatViews.{tables_of};
ghost use Rattle.lextab_packed.specs.Machines.{table_parts};
ghost use Rattle.lextab_packed.specs.Views.{table_of};
ghost use Rattle.lextab_file.specs.File.{file_of, IsFileOf};
ghost use Rattle.lextab_file.specs.Refusals.{is_out_of_memory, is_trailing, read_refusal};

use crate::error::TableError;
use crate::reading::read_parts;
use lextab_packed::{Flat, Tables, laid_out};
use std::alloc::Global;

/// Reads a table file, in time and memory in proportion to its length.
///
/// `BadField` names the first field that is not as it must be, and the tag of a statement that may not stand there.
/// A field that is cut short is `Truncated`, and bytes after the table are `TrailingBytes`.
pub fn read_tables(alloc: Global, bytes: &[u8]) -> Result<Tables, TableError>
    // The bytes are the table's file.
    ensures found { IfOk result (λ tables. IsFileOf (table_of (table_parts tables)) bytes.now) }
    // Unless memory ran out, it is the fault of the first field that is not as it must be, with that field's offset.
    ensures refused { IfErr result (λ e. is_out_of_memory e ≡ false → read_refusal bytes.now ≡ Some e) }
    // Unless memory ran out, the bytes are no table's file.
    ensures none { IfErr result (λ e. is_out_of_memory e ≡ false → (t : Table) → IsFileOf t bytes.now → ⊥) }
    // A proper prefix of the bytes is a table's file.
    ensures trailing { IfErr result (λ e. is_trailing e ≡ true → (t : Table) × (rest : List ℕ) × IsTable t
        × (bytes.now ≡ file_of t ++ rest) × (0 < length rest)) }
{
    let parts = read_parts(alloc, bytes)?;
    let (tables, _rows) = laid_out(alloc, parts)?;
    Ok(tables)
}

/// Reads a table file as the machine of a scan. Its rows are laid out once. It refuses what `read_tables` refuses.
pub fn read_flat(alloc: Global, bytes: &[u8]) -> Result<Flat, TableError>
    ensures found { IfOk result (λ flat. IsFileOf (table_of (table_parts (tables_of flat))) bytes.now) }
    ensures refused { IfErr result (λ e. is_out_of_memory e ≡ false → read_refusal bytes.now ≡ Some e) }
    ensures none { IfErr result (λ e. is_out_of_memory e ≡ false → (t : Table) → IsFileOf t bytes.now → ⊥) }
    ensures trailing { IfErr result (λ e. is_trailing e ≡ true → (t : Table) × (rest : List ℕ) × IsTable t
        × (bytes.now ≡ file_of t ++ rest) × (0 < length rest)) }
{
    let parts = read_parts(alloc, bytes)?;
    Ok(Flat::of_parts(alloc, parts)?)
}
