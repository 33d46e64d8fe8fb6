//! What actions leave behind.
ghost use Rattle.std.specs.Prelude.{◌≡◌, map};
ghost use Rattle.std.specs.List.{list_any};
ghost use Rattle.lex_machine.specs.Views.{statement_of, cut_of};
ghost use Rattle.lexlook_tables.specs.Lines.{is_unsteady, is_begin, is_home, strays};
ghost use Rattle.lexlook_tables.specs.Lines.{is_steady, leaves_line, may_keep_last};

use lex_machine::{Cut, Statement, has_reject};

/// Whether the last byte of a match may be one of its text.
pub(crate) fn may_keep_last(cut: Cut) -> bool
    ensures { result ≡ may_keep_last (cut_of cut) }
{
    match cut {
        Cut::Whole | Cut::Head(_) => true,
        Cut::Trail(count) => count == 0,
    }
}

/// Whether it ends the scan, or uses the stack of conditions.
fn is_unsteady(statement: &Statement) -> bool
    ensures { result ≡ is_unsteady (statement_of statement.now) }
{
    matches!(
        statement,
        Statement::End(_) | Statement::Push(_) | Statement::Pop
    )
}

/// Whether it sets a condition.
fn is_begin(statement: &Statement) -> bool
    ensures { result ≡ is_begin (statement_of statement.now) }
{
    matches!(statement, Statement::Begin(_))
}

/// Whether it begins INITIAL.
fn is_home(statement: &Statement) -> bool
    ensures { result ≡ is_home (statement_of statement.now) }
{
    match statement {
        Statement::Begin(condition) => *condition == 0,
        _ => false,
    }
}

/// Whether it begins another condition, or keeps the text for the next match.
fn strays(statement: &Statement) -> bool
    ensures { result ≡ strays (statement_of statement.now) }
{
    match statement {
        Statement::Begin(condition) => *condition != 0,
        Statement::More => true,
        _ => false,
    }
}

/// Whether one of the statements ends the scan, or uses the stack of conditions.
fn any_unsteady(statements: &[Statement]) -> bool
    ensures { result ≡ list_any is_unsteady (map statement_of statements.now) }
{
    for statement in statements {
        if is_unsteady(statement) {
            return true;
        }
    }
    false
}

/// Whether one of the statements sets a condition.
fn any_begin(statements: &[Statement]) -> bool
    ensures { result ≡ list_any is_begin (map statement_of statements.now) }
{
    for statement in statements {
        if is_begin(statement) {
            return true;
        }
    }
    false
}

/// Whether one of the statements begins INITIAL.
fn any_home(statements: &[Statement]) -> bool
    ensures { result ≡ list_any is_home (map statement_of statements.now) }
{
    for statement in statements {
        if is_home(statement) {
            return true;
        }
    }
    false
}

/// Whether one of the statements begins another condition, or keeps the text for the next match.
fn any_strays(statements: &[Statement]) -> bool
    ensures { result ≡ list_any strays (map statement_of statements.now) }
{
    for statement in statements {
        if strays(statement) {
            return true;
        }
    }
    false
}

/// Whether an action neither ends the scan nor uses the stack of conditions, and sets no condition where it has REJECT.
pub(crate) fn is_steady(statements: &[Statement]) -> bool
    ensures { result ≡ is_steady (map statement_of statements.now) }
{
    !any_unsteady(statements) && !(any_begin(statements) && has_reject(statements))
}

/// Whether an action that takes a newline in this condition leaves the scan in INITIAL, with no text kept by yymore.
pub(crate) fn ends_line(condition: u8, statements: &[Statement]) -> bool
    ensures { result ≡ leaves_line condition (map statement_of statements.now) }
{
    (condition == 0 || any_home(statements)) && !any_strays(statements)
}
