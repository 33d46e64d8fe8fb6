//! Statements, given to a rule and to those before it that wait for them by `|`. (POSIX, lex, Actions in lex.)
ghost use Rattle.std.specs.Prelude.{◌≡◌, ◌++◌, ◌∷◌, [], map, IfOk};
ghost use Rattle.lexspec_actions.specs.Views.{statement_of};
ghost use Rattle.lexspec.specs.WaitingRules.{acting};
ghost use Rattle.lexspec.specs.RuleViews.{rule_of};

use crate::rule::Rule;
use lex_machine::{Statement, copy_statements};
use std::alloc::{AllocError, Global};

/// The rule with these statements.
fn with_statements(rule: Rule, statements: Vec<Statement>) -> Rule
    ensures { rule_of result ≡ acting (map statement_of statements.items) (rule_of rule) }
{
    let mut acted = rule;
    acted.statements = statements;
    acted
}

/// The rules with one more that has these statements, and before it those that wait for them.
pub(crate) fn finish(
    alloc: Global,
    done: Vec<Rule>,
    waiting: Vec<Rule>,
    rule: Rule,
    statements: Vec<Statement>,
) -> Result<Vec<Rule>, AllocError>
    ensures { IfOk result (λ rs. map rule_of rs.items ≡ map rule_of done.items
        ++ (map (acting (map statement_of statements.items)) (map rule_of waiting.items)
        ++ acting (map statement_of statements.items) (rule_of rule) ∷ [])) }
{
    let mut rules = done;
    for waiter in waiting {
        let copies = copy_statements(alloc, &statements)?;
        rules.push(with_statements(waiter, copies))?;
    }
    rules.push(with_statements(rule, statements))?;
    Ok(rules)
}
