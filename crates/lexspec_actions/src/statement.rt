//! Statements.
ghost use Rattle.std.specs.Prelude.{◌≡◌, map, OnOk, IfErr};
ghost use Rattle.lexspec_actions.specs.Statements.{then_print, then_one, then_all};
ghost use Rattle.lexspec_actions.specs.ActionSteps.{said_by};
ghost use Rattle.lexspec_actions.specs.Views.{statement_of, said_of};
ghost use Rattle.lexspec_actions.specs.Outcome.{UnlessMemory};
ghost use Rattle.lexspec_actions.specs.ActionFaults.{IsActionFault};

use lex_machine::Statement;
use lexre_bytes::SpecErrorKind;

/// What a statement of the text says.
#[derive(Drop)]
pub(crate) enum Said {
    Does(Statement),
    Prints(Vec<u8>),
    /// A literal, the text, and a literal.
    PrintsText(Vec<u8>, Vec<u8>),
}

/// What a call of the text says, or what is wrong with its argument.
#[derive(Drop)]
pub(crate) enum Called {
    Says(Said),
    /// yyless keeps no byte, or too many.
    BadCount,
    /// exit has too great a status.
    BadStatus,
    /// BEGIN or yy_push_state names a condition that is not declared.
    UnknownCondition,
}

/// What the text of an action is made of, between blanks and comments.
#[derive(Drop)]
pub(crate) enum Piece {
    Semicolon,
    Opens,
    Closes,
    Says(Said),
}

/// The literals of a format round its `%s`, of which the second is there only if that is.
#[derive(Drop)]
pub(crate) struct FormatLiterals {
    pub(crate) front: Vec<u8>,
    pub(crate) back: Option<Vec<u8>>,
}

/// Puts a literal at the end.
fn print(statements: &mut Vec<Statement>, bytes: Vec<u8>) -> Result<(), SpecErrorKind>
    ensures ok { OnOk result (map statement_of statements.new.items
        ≡ then_print (map statement_of statements.old.items) bytes.items) }
    ensures err { IfErr result (λ e. UnlessMemory e ⊥) }
    ensures fault { IfErr result (λ e. IsActionFault e) }
{
    if bytes.is_empty() {
        return Ok(());
    }
    match statements.pop() {
        Some(last) => match last {
            Statement::Print(front) => {
                let mut joined = front;
                joined.extend_from_slice(&bytes)?;
                statements.push(Statement::Print(joined))?;
                Ok(())
            }
            other => {
                statements.push(other)?;
                statements.push(Statement::Print(bytes))?;
                Ok(())
            }
        },
        None => {
            statements.push(Statement::Print(bytes))?;
            Ok(())
        }
    }
}

/// Puts what is said at the end, in normal form.
pub(crate) fn say(statements: &mut Vec<Statement>, said: Said) -> Result<(), SpecErrorKind>
    ensures ok { OnOk result (map statement_of statements.new.items
        ≡ then_all (map statement_of statements.old.items) (said_by (said_of said))) }
    ensures err { IfErr result (λ e. UnlessMemory e ⊥) }
    ensures fault { IfErr result (λ e. IsActionFault e) }
{
    match said {
        Said::Does(Statement::Print(bytes)) => print(statements, bytes),
        Said::Does(other) => {
            statements.push(other)?;
            Ok(())
        }
        Said::Prints(bytes) => print(statements, bytes),
        Said::PrintsText(front, back) => {
            print(statements, front)?;
            statements.push(Statement::Echo)?;
            print(statements, back)
        }
    }
}
