//! A caller of lexkit that lists tokens: that of its CALLING.md.
ghost use Rattle.std.specs.Prelude.{IfOk, length};
ghost use Rattle.lex_semantics.specs.Acting.{Status};
ghost use Rattle.lex_semantics.specs.Machine.{rules_of_machine};
ghost use Rattle.lextab_packed.specs.Machines.{table_machine};
ghost use Rattle.lexscan.specs.Tokens.{LieIn, Tokenised};

use lexkit::{RunError, Tables, Token, tokens};
use std::alloc::Global;

/// The tokens of an input by tables, and the status that the scan of it ends with.
pub fn tokens_by(alloc: Global, tables: &Tables, input: &[u8]) -> Result<(Vec<Token>, u8), RunError>
    ensures listed { IfOk result (λ (list, status). Tokenised (rules_of_machine (table_machine tables.now))
        input.now list.items (Status status)) }
    ensures inside { IfOk result (λ (list, status). LieIn (length input.now) 0 list.items) }
{
    let mut list = Vec::new(alloc);
    let status = tokens(alloc, tables, input, &mut list)?;
    Ok((list, status))
}
