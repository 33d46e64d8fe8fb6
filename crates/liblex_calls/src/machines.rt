//! The machine of a table file.
ghost use Rattle.std.specs.Prelude.{IfOk, IfErr};
ghost use Rattle.lextab_packed.specs.FlatViews.{tables_of};
ghost use Rattle.lextab_packed.specs.Machines.{table_machine};
ghost use Rattle.lexkit.specs.Headline.{TableRefusal};
ghost use Rattle.liblex_calls.specs.Files.{IsMachineOf};

use lexkit::{Flat, TableError, read_flat};
use std::alloc::Global;

/// The machine of the table whose file this is, laid flat. Bytes that are no table file are refused.
pub(crate) fn flat_of(alloc: Global, file: &[u8]) -> Result<Flat, TableError>
    ensures found { IfOk result (λ f. IsMachineOf file.now (table_machine (tables_of f))) }
    ensures refused { IfErr result (TableRefusal file.now) }
{
    let flat = read_flat(alloc, file)?;
    Ok(flat)
}
