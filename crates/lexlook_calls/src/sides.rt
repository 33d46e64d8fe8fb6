//! What a file that is compared stands for.
ghost use Rattle.std.specs.Prelude.{◌≡◌, ◌≤◌, true, false, IfOk, IfErr};
ghost use Rattle.lex_semantics.specs.Limits.{max_positions, max_states};
ghost use Rattle.lextab_packed.specs.Machines.{table_machine};
ghost use Rattle.lexlook_calls.specs.Sides.{StandsFor, IsRefused, is_table_file, read_as};

use crate::error::LookError;
use lexkit::{Options, Tables, least_automaton, read_tables, read_text};
use lexspec::Spec;
use lextab::pack;
use std::alloc::Global;

/// The tables of a file, and the specification if it is one.
#[derive(Drop)]
pub(crate) struct Side {
    /// The tables that the file has, or those of its specification.
    pub tables: Tables,
    /// The specification, where the file is one.
    pub spec: Option<Spec>,
}

/// Whether the bytes are taken for those of a table file: they begin with `LEXTAB` and a byte that is 0.
pub fn is_table_file(bytes: &[u8]) -> bool
    ensures { result ≡ is_table_file bytes.now }
{
    bytes.starts_with(b"LEXTAB\0")
}

/// What a table file stands for.
fn side_of_table(alloc: Global, bytes: &[u8], options: Options) -> Result<Side, LookError>
    requires { is_table_file bytes.now ≡ true }
    ensures stands { IfOk result (λ s. StandsFor options bytes.now (table_machine s.tables) (read_as s.spec)) }
    ensures refused { IfErr result (IsRefused options bytes.now) }
{
    let _options = options;
    match read_tables(alloc, bytes) {
        Err(error) => Err(LookError::Table(error)),
        Ok(tables) => Ok(Side { tables, spec: None }),
    }
}

/// What a specification stands for.
fn side_of_spec(alloc: Global, text: &[u8], options: Options) -> Result<Side, LookError>
    requires few_positions { options.limits.positions ≤ max_positions }
    requires few_states { options.limits.states ≤ max_states }
    requires spec { is_table_file text.now ≡ false }
    ensures stands { IfOk result (λ s. StandsFor options text.now (table_machine s.tables) (read_as s.spec)) }
    ensures refused { IfErr result (IsRefused options text.now) }
{
    let spec = read_text(alloc, text, options)?;
    let least = least_automaton(alloc, &spec, options.limits)?;
    match pack(alloc, &least.automaton, &spec) {
        Err(_) => Err(LookError::OutOfMemory),
        Ok(tables) => Ok(Side {
            tables,
            spec: Some(spec),
        }),
    }
}

/// What the bytes of a file stand for.
pub(crate) fn side_of(alloc: Global, bytes: &[u8], options: Options) -> Result<Side, LookError>
    requires few_positions { options.limits.positions ≤ max_positions }
    requires few_states { options.limits.states ≤ max_states }
    ensures stands { IfOk result (λ s. StandsFor options bytes.now (table_machine s.tables) (read_as s.spec)) }
    ensures refused { IfErr result (IsRefused options bytes.now) }
{
    if is_table_file(bytes) {
        side_of_table(alloc, bytes, options)
    } else {
        side_of_spec(alloc, bytes, options)
    }
}
