//! Copies of actions.
ghost use Rattle.std.specs.Prelude.{◌≡◌, ℕ, map, IfOk};
ghost use Rattle.lex_semantics.specs.Text.{IsText};
ghost use Rattle.lex_machine.specs.Literals.{Each, HasText};
ghost use Rattle.lex_machine.specs.Views.{statement_of, end_action_of};

use crate::action::{EndAction, Statement};
use std::alloc::{AllocError, Global};

/// A copy of bytes.
fn copy_bytes(alloc: Global, bytes: &[u8]) -> Result<Vec<u8>, AllocError>
    ensures same { IfOk result (λ v. v.items ≡ bytes.now) }
    ensures text { IfOk result (λ v. IsText v.items) }
{
    let copy = Vec::from_slice(alloc, bytes)?;
    Ok(copy)
}

/// A copy of an end action, or want of memory.
pub fn copy_end(alloc: Global, end: &EndAction) -> Result<EndAction, AllocError>
    ensures same { IfOk result (λ e. end_action_of e ≡ end_action_of end.now) }
    ensures text { IfOk result (λ e. IsText e.print.items) }
{
    let print = copy_bytes(alloc, &end.print)?;
    Ok(EndAction {
        print,
        status: end.status,
    })
}

/// A copy of a statement.
fn copy_statement(alloc: Global, statement: &Statement) -> Result<Statement, AllocError>
    ensures same { IfOk result (λ s. statement_of s ≡ statement_of statement.now) }
    ensures text { IfOk result (λ s. (i : ℕ) → HasText i (statement_of s)) }
{
    match statement {
        Statement::Echo => Ok(Statement::Echo),
        Statement::Print(bytes) => Ok(Statement::Print(copy_bytes(alloc, bytes)?)),
        Statement::Begin(condition) => Ok(Statement::Begin(*condition)),
        Statement::More => Ok(Statement::More),
        Statement::Less(count) => Ok(Statement::Less(*count)),
        Statement::Reject => Ok(Statement::Reject),
        Statement::End(status) => Ok(Statement::End(*status)),
        Statement::Push(condition) => Ok(Statement::Push(*condition)),
        Statement::Pop => Ok(Statement::Pop),
    }
}

/// Copies of statements, in their order, or want of memory.
pub fn copy_statements(
    alloc: Global,
    statements: &[Statement],
) -> Result<Vec<Statement>, AllocError>
    ensures same { IfOk result (λ ss. map statement_of ss.items ≡ map statement_of statements.now) }
    ensures text { IfOk result (λ ss. Each HasText 0 (map statement_of ss.items)) }
{
    let mut copies = Vec::new(alloc);
    for statement in statements {
        copies.push(copy_statement(alloc, statement)?)?;
    }
    Ok(copies)
}
