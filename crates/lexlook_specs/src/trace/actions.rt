//! Actions that tell their match.
ghost use Rattle.std.specs.Prelude.{◌≡◌, ◌∷◌, [], length, map, IfOk};
ghost use Rattle.std.specs.List.{filter};
ghost use Rattle.lex_machine.specs.Views.{statement_of};
ghost use Rattle.lexlook_specs.specs.Traced.{steers, telling};

use lex_machine::Statement;
use std::alloc::{AllocError, Global};

/// What follows the text in a line.
const TEXT_END: &[u8] = b"\")\n";

/// Whether a statement writes nothing.
pub(crate) fn steers(statement: &Statement) -> bool
    ensures { result ≡ steers (statement_of statement.now) }
{
    !matches!(statement, Statement::Echo | Statement::Print(_))
}

/// The action that writes a line with the text after `front`, and then does of these statements what writes nothing.
pub(crate) fn telling(
    alloc: Global,
    front: Vec<u8>,
    statements: Vec<Statement>,
) -> Result<Vec<Statement>, AllocError>
    ensures { IfOk result (λ v. map statement_of v.items
        ≡ telling front.items (map statement_of statements.items)) }
{
    let mut told = Vec::new(alloc);
    told.push(Statement::Print(front))?;
    told.push(Statement::Echo)?;
    told.push(Statement::Print(Vec::from_slice(alloc, TEXT_END)?))?;
    for statement in statements {
        if steers(&statement) {
            told.push(statement)?;
        }
    }
    Ok(told)
}
