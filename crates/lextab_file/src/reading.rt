//! Reads a table file.
ghost use Rattle.std.specs.Prelude.{◌≡◌, ◌<◌, ℕ, List, length, ◌++◌, IfOk, IfErr, Some, true, false};
ghost use Rattle.lextab_packed.specs.Table.{Table};
ghost use Rattle.lextab_packed.specs.Checks.{IsTable};
ghost use Rattle.lextab_packed.specs.Views.{table_of};
ghost use Rattle.lextab_file.specs.File.{file_of, IsFileOf};
ghost use Rattle.lextab_file.specs.Reading.{read_table};
ghost use Rattle.lextab_file.specs.Refusals.{is_out_of_memory, is_trailing, read_refusal};
ghost use Rattle.lextab_file.specs.Views.{Gives};

mod actions;
mod conditions;
mod fields;
mod header;
mod slots;
mod states;

use crate::error::{ReadError, TableError};
use crate::version::version_of;
use actions::rules;
use conditions::conditions;
use header::{magic, sizes, version};
use lextab_packed::{TableParts, any_reject};
use slots::slots;
use states::{class_map, states};
use std::alloc::Global;

/// The parts of the table at the front of the bytes, and the bytes after it. The first field from the left that is not
/// as it must be is reported.
#[tactic(auto, unfolding(crate::specs::Reading::read_table))]
fn table(alloc: Global, bytes: &[u8]) -> Result<(TableParts, &[u8]), ReadError>
    ensures { Gives (λ x. (table_of x.0, x.1.now)) result (read_table bytes.now) }
{
    let (_, after_magic) = magic(bytes)?;
    let (version, rest) = version(after_magic)?;
    let (counts, rest) = sizes(rest)?;
    let (conditions, rest) = conditions(alloc, rest, counts.conditions, counts.states)?;
    let (rules, rest) = rules(alloc, rest, counts.rules, counts.conditions, version == 2)?;
    if version_of(&rules) != version {
        return Err(ReadError::BadField(after_magic.len()));
    }
    let rejects = any_reject(&rules);
    let (class_of, rest) = class_map(alloc, rest, counts.classes)?;
    let (rows, rest) = states(alloc, rest, counts, rejects)?;
    let ((checks, nexts), rest) = slots(alloc, rest, counts, &rows)?;
    let classes = counts.classes;
    Ok((
        TableParts {
            conditions,
            rules,
            classes,
            class_of,
            rows,
            checks,
            nexts,
        },
        rest,
    ))
}

/// Reads the parts of a table.
pub fn read_parts(alloc: Global, bytes: &[u8]) -> Result<TableParts, TableError>
    // The bytes are the table's file.
    ensures found { IfOk result (λ parts. IsFileOf (table_of parts) bytes.now) }
    // Unless memory ran out, it is the fault of the first field that is not as it must be, with that field's offset.
    ensures refused { IfErr result (λ e. is_out_of_memory e ≡ false → read_refusal bytes.now ≡ Some e) }
    // Unless memory ran out, the bytes are no table's file.
    ensures none { IfErr result (λ e. is_out_of_memory e ≡ false → (t : Table) → IsFileOf t bytes.now → ⊥) }
    // A proper prefix of the bytes is a table's file.
    ensures trailing { IfErr result (λ e. is_trailing e ≡ true → (t : Table) × (rest : List ℕ) × IsTable t
        × (bytes.now ≡ file_of t ++ rest) × (0 < length rest)) }
{
    match table(alloc, bytes) {
        Ok((parts, rest)) => {
            if rest.is_empty() {
                Ok(parts)
            } else {
                Err(TableError::TrailingBytes)
            }
        }
        Err(error) => Err(error.in_file(bytes.len())),
    }
}
