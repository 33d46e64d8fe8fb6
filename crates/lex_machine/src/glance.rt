//! What a machine can tell of a match at a glance.
ghost use Rattle.std.specs.Prelude.{◌≡◌, map};
ghost use Rattle.lex_machine.specs.Views.{statement_of};
ghost use Rattle.lex_machine.specs.Glances.{is_simple, are_simple};

use crate::action::Statement;
use crate::cut::Cut;

/// A walk over bytes up to the first after which the machine goes on no more: how many they are, the state after them,
/// the one before the last of them, and what is known of the first rule that the last state accepts.
#[derive(Clone, Copy)]
pub struct Way<'a> {
    pub count: usize,
    pub state: u32,
    pub before: u32,
    pub gist: Gist<'a>,
}

/// What is known of the first rule that a state accepts. Each but the first two says that the rule keeps all of a
/// match, and does this alone.
#[derive(Clone, Copy)]
pub enum Gist<'a> {
    /// Nothing is known.
    Any,
    /// There is no such rule.
    NoRule,
    /// It does nothing.
    Silent,
    /// It writes the text.
    Echo,
    /// It writes these bytes.
    Print(&'a [u8]),
    /// It sets the start condition of the next match.
    Begin(u8),
    /// It does these one after another, and each writes the text or a literal, or sets the start condition.
    Several(&'a [Statement]),
}

/// What a rule keeps of a match that sets a start condition and does yymore, and that condition.
#[derive(Clone, Copy)]
pub struct BegunMore {
    pub cut: Cut,
    pub condition: u8,
}

/// Whether the statement writes the text or a literal, or sets the start condition.
fn is_simple(statement: &Statement) -> bool
    ensures { result ≡ is_simple (statement_of statement.now) }
{
    matches!(
        statement,
        Statement::Echo | Statement::Print(_) | Statement::Begin(_)
    )
}

/// Whether each of the statements writes the text or a literal, or sets the start condition.
pub fn are_simple(statements: &[Statement]) -> bool
    ensures { result ≡ are_simple (map statement_of statements.now) }
{
    for statement in statements {
        if !is_simple(statement) {
            return false;
        }
    }
    true
}
