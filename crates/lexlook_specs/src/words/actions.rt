//! A specification whose automaton tells all the rules that fit.
ghost use Rattle.std.specs.Prelude.{◌≡◌, ℕ, length, map, slice_get, IfOk};
ghost use Rattle.lex_semantics.specs.Spec.{has_reject, statements_at};
ghost use Rattle.lex_semantics.specs.Text.{flag};
ghost use Rattle.lexspec.specs.Views.{rules_in, spec_of};
ghost use Rattle.lexspec.specs.RuleViews.{rule_of};
ghost use Rattle.lexlook_specs.specs.Rejecting.{rejecting, rejecting_rule};

use lex_machine::{Statement, has_reject};
use lexspec::{Rule, Spec};
use std::alloc::{AllocError, Global};

/// The same rule, with REJECT as its action.
fn rejecting_rule(alloc: Global, rule: Rule) -> Result<Rule, AllocError>
    ensures { IfOk result (λ r. rule_of r ≡ rejecting_rule (rule_of rule)) }
{
    Ok(Rule {
        statements: vec![in alloc; Statement::Reject]?,
        ..rule
    })
}

/// The same rules, each with REJECT as its action.
fn rejecting_rules(alloc: Global, rules: Vec<Rule>) -> Result<Vec<Rule>, AllocError>
    ensures { IfOk result (λ v. map rule_of v.items ≡ map rejecting_rule (map rule_of rules.items)) }
{
    let mut rejecting = Vec::new(alloc);
    for rule in rules {
        rejecting.push(rejecting_rule(alloc, rule)?)?;
    }
    Ok(rejecting)
}

/// The same specification, where the action of each rule is REJECT. So its automaton accepts all the rules that fit.
pub fn rejecting(alloc: Global, spec: Spec) -> Result<Spec, AllocError>
    ensures { IfOk result (λ s. spec_of s ≡ rejecting (spec_of spec)) }
{
    let (conditions, rules, skipped) = spec.into_parts();
    let rules = rejecting_rules(alloc, rules)?;
    Ok(Spec::new(conditions, rules, skipped))
}

/// Whether the action of each of these rules has REJECT.
fn flags_of(alloc: Global, rules: &[Rule]) -> Result<Vec<bool>, AllocError>
    ensures { IfOk result (λ v. v.items ≡ map (λ r. has_reject r.statements) (map rule_of rules.now)) }
{
    let mut flags = Vec::new(alloc);
    for rule in rules {
        flags.push(has_reject(&rule.statements))?;
    }
    Ok(flags)
}

/// For each rule whether its action has REJECT.
pub fn rejects_of(alloc: Global, spec: &Spec) -> Result<Vec<bool>, AllocError>
    ensures len { IfOk result (λ v. length v.items ≡ length (rules_in (spec_of spec.now))) }
    ensures flags { IfOk result (λ v. (i : ℕ)
        → flag v.items i ≡ has_reject (statements_at (slice_get (rules_in (spec_of spec.now)) i))) }
{
    let flags = flags_of(alloc, spec.rules())?;
    Ok(flags)
}
