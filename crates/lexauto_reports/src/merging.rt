//! The warnings of a specification.
ghost use Rattle.std.specs.Prelude.{◌≡◌, ℕ, ◌+◌, ◌*◌, ◌<◌, ◌++◌, cond, length, map, IfOk, OnOk};
ghost use Rattle.std.specs.List.Sorted.{IsPermutation};
ghost use Rattle.lex_semantics.specs.Text.{Among, Pairwise};
ghost use Rattle.lexspec.specs.RuleViews.{rule_of};
ghost use Rattle.lexspec.specs.Views.{spec_of, rules_in};
ghost use Rattle.lexauto_reports.specs.Warned.{of_code, of_rule, warned_of, MayPrecede};

use crate::warned::Warning;
use lexauto_dfa::OutOfMemory;
use lexspec::{Rule, Spec};
use std::alloc::{AllocError, Global};

/// The warnings, in order of line: one for each line where code was skipped, and one for the line of each of these
/// rules. Of one line skipped code comes first.
pub fn warnings(alloc: Global, spec: &Spec, useless: &[u32]) -> Result<Vec<Warning>, OutOfMemory>
    requires known { (i : ℕ) → Among useless.now i → i < length (rules_in (spec_of spec.now)) }
    ensures all { IfOk result (λ v. IsPermutation (warned_of spec.now useless.now) v.items) }
    ensures in_order { IfOk result (λ v. Pairwise MayPrecede v.items) }
{
    let mut warnings = of_code(alloc, spec.skipped())?;
    add_rules(&mut warnings, spec.rules(), useless)?;
    warnings.sort_by_key(|warning| order(warning))?;
    Ok(warnings)
}

/// A warning's place in the order.
fn order(warning: &Warning) -> u64
    ensures { result ≡ 2 * warning.now.line + cond warning.now.code 0 1 }
{
    let rule = if warning.code { 0 } else { 1 };
    2 * u64::from(warning.line) + rule
}

/// A warning for each line where code was skipped.
fn of_code(alloc: Global, lines: &[u32]) -> Result<Vec<Warning>, AllocError>
    ensures { IfOk result (λ v. v.items ≡ map of_code lines.now) }
{
    let mut warnings = Vec::new(alloc);
    for line in lines {
        warnings.push(Warning {
            line: *line,
            code: true,
        })?;
    }
    Ok(warnings)
}

/// Adds a warning for each of some rules.
fn add_rules(warnings: &mut Vec<Warning>, rules: &[Rule], useless: &[u32]) -> Result<(), AllocError>
    requires known { (i : ℕ) → Among useless.now i → i < length rules.now }
    ensures { OnOk result (warnings.new.items
        ≡ warnings.old.items ++ map (of_rule (map rule_of rules.now)) useless.now) }
{
    for rule in useless {
        warnings.push(Warning {
            line: rules[*rule as usize].line,
            code: false,
        })?;
    }
    Ok(())
}
