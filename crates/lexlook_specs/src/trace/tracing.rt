//! The specification that tells its matches.
ghost use Rattle.std.specs.Prelude.{◌≡◌, true, false, map, None, IfOk, IfErr, IfSome};
ghost use Rattle.lexre_bytes.specs.Memory.{UnlessMemory};
ghost use Rattle.lexspec.specs.RuleViews.{rule_of};
ghost use Rattle.lexspec.specs.Views.{spec_of};
ghost use Rattle.lexlook_specs.specs.TraceLaw.{TellsRuns, TellsTurns};
ghost use Rattle.lexlook_specs.specs.Traced.{are_short, has_room, is_short, traced};

use crate::trace::actions::steers;
use crate::trace::ends::telling_ends;
use crate::trace::rules::{default_rule, telling_rules};
use lex_semantics::{MAX_RULES, MAX_STATEMENTS};
use lexspec::{Rule, Spec, SpecError, SpecErrorKind};
use std::alloc::Global;

/// Whether the action that tells has no more statements than an action may have.
fn is_short(rule: &Rule) -> bool
    ensures { result ≡ is_short (rule_of rule.now) }
{
    let _line = rule.line;
    let mut count = 3;
    for statement in &rule.statements {
        if steers(statement) {
            count += 1;
        }
    }
    count <= MAX_STATEMENTS
}

/// The line of the first rule whose action would have too many statements.
fn long_rule(rules: &[Rule]) -> Option<u32>
    ensures none { result ≡ None → are_short (map rule_of rules.now) ≡ true }
    ensures some { IfSome result (λ _. are_short (map rule_of rules.now) ≡ false) }
{
    for rule in rules {
        if !is_short(rule) {
            return Some(rule.line);
        }
    }
    None
}

/// The specification that writes for each match a line in the words of flex's `-d`, and does of the actions what writes
/// nothing. `TooManyRules`, at line 0, of one with 4,096 rules, since the default rule needs one; `TooLong` at the line
/// of a rule whose action has no room for what is written.
pub fn traced(alloc: Global, spec: Spec) -> Result<Spec, SpecError>
    ensures told { IfOk result (λ t. spec_of t ≡ traced (spec_of spec)) }
    ensures room { IfOk result (λ t. has_room (spec_of spec) ≡ true) }
    ensures turns { IfOk result (λ t. TellsTurns (spec_of spec)) }
    ensures runs { IfOk result (λ t. TellsRuns (spec_of spec)) }
    ensures refused { IfErr result (λ e. UnlessMemory e.kind (has_room (spec_of spec) ≡ false)) }
{
    let (conditions, rules, skipped) = spec.into_parts();
    if rules.len() >= MAX_RULES {
        return Err(SpecError {
            line: 0,
            kind: SpecErrorKind::TooManyRules,
        });
    }
    if let Some(line) = long_rule(&rules) {
        return Err(SpecError {
            line,
            kind: SpecErrorKind::TooLong,
        });
    }
    let count = conditions.len() as u8;
    let mut told = telling_rules(alloc, rules)?;
    told.push(default_rule(alloc, count)?)?;
    let ends = telling_ends(alloc, conditions)?;
    Ok(Spec::new(ends, told, skipped))
}
