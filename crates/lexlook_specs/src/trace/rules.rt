//! Rules that tell their matches.
ghost use Rattle.std.specs.Prelude.{◌≡◌, ◌≤◌, ◌++◌, ◌∷◌, [], length, map, true, IfOk};
ghost use Rattle.lex_semantics.specs.Text.{listed};
ghost use Rattle.lexspec.specs.RuleViews.{rule_of};
ghost use Rattle.lexlook_specs.specs.Traced.{default_rule, traced_rule};

use crate::trace::actions::telling;
use crate::trace::lines::rule_front;
use lexre::{ByteSet, Pattern};
use lexspec::{Cut, Rule};
use std::alloc::{AllocError, Global};

/// The rules with actions that tell.
pub(crate) fn telling_rules(alloc: Global, rules: Vec<Rule>) -> Result<Vec<Rule>, AllocError>
    ensures { IfOk result (λ v. map rule_of v.items ≡ map traced_rule (map rule_of rules.items)) }
{
    let mut told = Vec::new(alloc);
    for rule in rules {
        told.push(telling_rule(alloc, rule)?)?;
    }
    Ok(told)
}

/// The rule with the action that tells.
fn telling_rule(alloc: Global, rule: Rule) -> Result<Rule, AllocError>
    ensures { IfOk result (λ r. rule_of r ≡ traced_rule (rule_of rule)) }
{
    let front = rule_front(alloc, rule.line)?;
    Ok(Rule {
        statements: telling(alloc, front, rule.statements)?,
        ..rule
    })
}

/// The numbers below the count.
fn numbers(alloc: Global, count: u8) -> Result<Vec<u8>, AllocError>
    ensures { IfOk result (λ v. v.items ≡ listed (λ c. true) 0 count) }
{
    let mut numbers = Vec::new(alloc);
    for number in 0..count {
        numbers.push(number)?;
    }
    Ok(numbers)
}

/// The rule that takes any byte in each of the conditions, and tells it as the default rule.
pub(crate) fn default_rule(alloc: Global, conditions: u8) -> Result<Rule, AllocError>
    ensures { IfOk result (λ r. rule_of r ≡ default_rule conditions) }
{
    let front = Vec::from_slice(alloc, b"--accepting default rule (\"")?;
    Ok(Rule {
        line: 0,
        conditions: Some(numbers(alloc, conditions)?),
        anchored: false,
        head: Pattern::Set(ByteSet::empty().complement()),
        trail: None,
        cut: Cut::Whole,
        statements: telling(alloc, front, Vec::new(alloc))?,
    })
}
