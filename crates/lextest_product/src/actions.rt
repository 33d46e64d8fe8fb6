//! Actions, in the conditions INITIAL and C.
ghost use Rattle.std.specs.Prelude.{◌≡◌, length, IfOk};

use crate::answer::Answer;
use crate::row::Row;
use lexspec::{Condition, EndAction, SpecErrorKind, Statement};
use lexspec_actions::{read_action, read_end_action};
use std::alloc::{AllocError, Global};

/// A condition of this name; C is exclusive.
fn condition(alloc: Global, name: &str) -> Result<Condition, AllocError> {
    Ok(Condition {
        name: Vec::from_slice(alloc, name.as_bytes())?,
        exclusive: name == "C",
        end: EndAction {
            print: Vec::new(alloc),
            status: 0,
        },
    })
}

/// INITIAL and C.
fn conditions(alloc: Global) -> Result<Vec<Condition>, AllocError>
    ensures { IfOk result (λ v. length v.items ≡ 2) }
{
    let mut conditions = Vec::new(alloc);
    conditions.push(condition(alloc, "INITIAL")?)?;
    conditions.push(condition(alloc, "C")?)?;
    Ok(conditions)
}

/// The letter of a statement, and its number where it has one.
fn mark_of(statement: &Statement) -> (&'static str, Option<u32>) {
    match statement {
        Statement::Echo => ("E", None),
        Statement::Print(_) => ("P", None),
        Statement::Begin(number) => ("B", Some(u32::from(*number))),
        Statement::More => ("M", None),
        Statement::Less(count) => ("L", Some(u32::from(*count))),
        Statement::Reject => ("R", None),
        Statement::End(status) => ("X", Some(u32::from(*status))),
        Statement::Push(number) => ("U", Some(u32::from(*number))),
        Statement::Pop => ("O", None),
    }
}

/// Adds a statement: its letter, its number, and what is printed, in parentheses.
fn show(alloc: Global, statement: &Statement, out: &mut Vec<u8>) -> Result<(), AllocError> {
    let (mark, number) = mark_of(statement);
    out.extend_from_slice(mark.as_bytes())?;
    if let Some(number) = number {
        out.extend_from_slice(format!(in alloc; "{number}")?.as_bytes())?;
    }
    if let Statement::Print(bytes) = statement {
        out.extend_from_slice(b"(")?;
        out.extend_from_slice(bytes.as_slice())?;
        out.extend_from_slice(b")")?;
    }
    Ok(())
}

/// The name of a refusal.
fn refused(alloc: Global, kind: SpecErrorKind) -> Result<Answer, AllocError> {
    let line = format!(in alloc; "{kind}\n")?;
    Answer::telling(alloc, line.as_str())
}

/// Writes the statements of an action.
pub(crate) fn action(alloc: Global, row: &Row<'_>) -> Result<Answer, AllocError> {
    let conditions = conditions(alloc)?;
    match read_action(alloc, &conditions, true, row.value("text")) {
        Ok(statements) => {
            let mut out = Vec::new(alloc);
            for statement in &statements {
                show(alloc, statement, &mut out)?;
            }
            Ok(Answer::of_bytes(alloc, out))
        }
        Err(kind) => refused(alloc, kind),
    }
}

/// Writes what the action of an end prints, and tells its status.
pub(crate) fn end(alloc: Global, row: &Row<'_>) -> Result<Answer, AllocError> {
    let conditions = conditions(alloc)?;
    match read_end_action(alloc, &conditions, true, row.value("text")) {
        Ok(end) => {
            let status = end.status;
            let told = format!(in alloc; "status {status}\n")?;
            Ok(Answer {
                written: end.print,
                told: Vec::from_slice(alloc, told.as_bytes())?,
            })
        }
        Err(kind) => refused(alloc, kind),
    }
}
