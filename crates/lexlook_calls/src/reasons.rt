//! By which of its statements a rule stands against cuts of an input at its newlines.
ghost use Rattle.std.specs.Prelude.{◌≡◌, map};
ghost use Rattle.std.specs.List.{list_any};
ghost use Rattle.lex_semantics.specs.Legal.{has_more};
ghost use Rattle.lex_machine.specs.Views.{statement_of};
ghost use Rattle.lexlook_calls.specs.Reasons.{is_end, uses_stack, straying_words, unsteady_words};

use lex_machine::Statement;

/// Whether it ends the scan.
fn is_end(statement: &Statement) -> bool
    ensures { result ≡ is_end (statement_of statement.now) }
{
    matches!(statement, Statement::End(_))
}

/// Whether it uses the stack of conditions.
fn uses_stack(statement: &Statement) -> bool
    ensures { result ≡ uses_stack (statement_of statement.now) }
{
    matches!(statement, Statement::Push(_) | Statement::Pop)
}

/// Whether one of the statements ends the scan.
fn any_end(statements: &[Statement]) -> bool
    ensures { result ≡ list_any is_end (map statement_of statements.now) }
{
    for statement in statements {
        if is_end(statement) {
            return true;
        }
    }
    false
}

/// Whether one of the statements uses the stack of conditions.
fn any_stack(statements: &[Statement]) -> bool
    ensures { result ≡ list_any uses_stack (map statement_of statements.now) }
{
    for statement in statements {
        if uses_stack(statement) {
            return true;
        }
    }
    false
}

/// Whether one of the statements keeps the text for the next match.
fn any_more(statements: &[Statement]) -> bool
    ensures { result ≡ has_more (map statement_of statements.now) }
{
    for statement in statements {
        if statement.is_yymore() {
            return true;
        }
    }
    false
}

/// What an action does that may stand nowhere.
pub(crate) fn unsteady_words(statements: &[Statement]) -> &'static str
    ensures { result.now ≡ unsteady_words (map statement_of statements.now) }
{
    if any_end(statements) {
        "it ends the scan"
    } else if any_stack(statements) {
        "it uses the stack of conditions"
    } else {
        "it has BEGIN and REJECT"
    }
}

/// What an action leaves that may not take a newline.
pub(crate) fn straying_words(statements: &[Statement]) -> &'static str
    ensures { result.now ≡ straying_words (map statement_of statements.now) }
{
    if any_more(statements) {
        "the text is kept"
    } else {
        "the scan is not in INITIAL"
    }
}
