//! In which start condition a scan comes to the end of its input.
ghost use Rattle.std.specs.Prelude.{◌≡◌, map};
ghost use Rattle.lex_machine.specs.Views.{statement_of};
ghost use Rattle.lex_semantics.specs.Rules.{rules_of};
ghost use Rattle.lexspec.specs.Views.{spec_of};
ghost use Rattle.lexlook_counts.specs.Ends.{has_exit, exits_by, is_exit};
ghost use Rattle.lexlook_counts.specs.Told.{ended_by};

use crate::counting::Counted;
use lex_machine::Statement;
use lexscan_window::MatchedRule;
use lexspec::Spec;

/// Whether a statement ends the scan.
fn is_exit(statement: &Statement) -> bool
    ensures { result ≡ is_exit (statement_of statement.now) }
{
    matches!(statement, Statement::End(_))
}

/// Whether one of the statements does.
fn has_exit(statements: &[Statement]) -> bool
    ensures { result ≡ has_exit (map statement_of statements.now) }
{
    for statement in statements {
        if is_exit(statement) {
            return true;
        }
    }
    false
}

/// Whether the action of a rule does.
fn exits_by(spec: &Spec, rule: MatchedRule) -> bool
    ensures { result ≡ exits_by (rules_of (spec_of spec.now)) rule }
{
    let MatchedRule::Numbered(number) = rule else {
        return false;
    };
    match spec.rules().get(number as usize) {
        Some(rule) => has_exit(&rule.statements),
        None => false,
    }
}

/// The condition in which the end of the input was met; none where a rule has ended the scan.
pub(crate) fn ended_by(spec: &Spec, counted: &Counted) -> Option<u8>
    ensures { result ≡ ended_by (spec_of spec.now) counted.now }
{
    match counted.last {
        Some(rule) if exits_by(spec, rule) => None,
        _ => Some(counted.condition),
    }
}
