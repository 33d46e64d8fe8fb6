//! What conditions, rules and texts are called in the lines that are written.
ghost use Rattle.std.specs.Prelude.{◌≡◌, ◌<◌, Bool, [], ◌++◌, length, map, slice_index, slice_index_or};
ghost use Rattle.std.specs.Prelude.{IfOk, IfSome, OnOk};
ghost use Rattle.lexspec_actions.specs.Views.{condition_of};
ghost use Rattle.lexspec.specs.Views.{conditions_in, rules_in, spec_of};
ghost use Rattle.lexkit.specs.Generated.{lines_of};
ghost use Rattle.lexlook_calls.specs.Looks.{names_of};
ghost use Rattle.lexlook_calls.specs.Lines.{condition_words, rule_words, start_words};
ghost use Rattle.lexlook_calls.specs.Sides.{read_as};
ghost use Rattle.lexlook_calls.specs.Words.{line_words};

use lexlook_specs::{add, add_number};
use lexspec::{Condition, Spec};
use std::alloc::{AllocError, Global};

/// The names of conditions.
pub(crate) fn names_of(alloc: Global, conditions: &[Condition]) -> Result<Vec<&[u8]>, AllocError>
    ensures { IfOk result (λ names. map (λ n. n.now) names.items ≡ names_of (map condition_of conditions.now)) }
{
    let mut names = Vec::new(alloc);
    for condition in conditions {
        names.push(condition.name.as_slice())?;
    }
    Ok(names)
}

/// The name of a condition.
fn name_of(spec: &Spec, condition: u8) -> &[u8]
    requires { condition < length (conditions_in (spec_of spec.now)) }
    ensures { result.now ≡ slice_index_or (names_of (conditions_in (spec_of spec.now))) condition [] }
{
    spec.conditions()[condition as usize].name.as_slice()
}

/// The line of a rule.
fn line_of(spec: &Spec, rule: u32) -> u32
    requires { rule < length (rules_in (spec_of spec.now)) }
    ensures { result ≡ slice_index (lines_of (rules_in (spec_of spec.now))) rule }
{
    spec.rules()[rule as usize].line
}

/// Appends what a condition is called.
pub(crate) fn add_condition(
    text: &mut Vec<u8>,
    given: &Option<Spec>,
    condition: u8,
) -> Result<(), AllocError>
    requires { IfSome (read_as given.now) (λ S. condition < length (conditions_in S)) }
    ensures { OnOk result (text.new.items ≡ text.old.items ++ condition_words (read_as given.now) condition) }
{
    match given {
        Some(spec) => add(text, name_of(spec, condition)),
        None => {
            add(text, b"condition ")?;
            add_number(text, condition as u32)
        }
    }
}

/// Appends what a rule is called.
pub(crate) fn add_rule(
    text: &mut Vec<u8>,
    given: &Option<Spec>,
    rule: u32,
) -> Result<(), AllocError>
    requires { IfSome (read_as given.now) (λ S. rule < length (rules_in S)) }
    ensures { OnOk result (text.new.items ≡ text.old.items ++ rule_words (read_as given.now) rule) }
{
    match given {
        Some(spec) => {
            add(text, b" line ")?;
            add_number(text, line_of(spec, rule))
        }
        None => {
            add(text, b" rule ")?;
            add_number(text, rule)
        }
    }
}

/// Appends at which line a rule is.
pub(crate) fn add_line(text: &mut Vec<u8>, lines: &[u32], rule: usize) -> Result<(), AllocError>
    requires { rule < length lines.now }
    ensures { OnOk result (text.new.items ≡ text.old.items ++ line_words lines.now rule) }
{
    add(text, b" line ")?;
    add_number(text, lines[rule])
}

/// Appends whether a match is at the start of a line.
pub(crate) fn add_start(text: &mut Vec<u8>, line_start: bool) -> Result<(), AllocError>
    ensures { OnOk result (text.new.items ≡ text.old.items ++ start_words line_start) }
{
    if line_start {
        return add(text, b" at the start of a line");
    }
    add(text, b"")
}
