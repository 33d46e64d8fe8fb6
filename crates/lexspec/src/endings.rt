//! The end action of each condition, by the `<<EOF>>` rules. (flex, End-of-File Rules.)
ghost use Rattle.std.specs.Prelude.{◌≡◌, ◌==◌, ◌≤◌, ℕ, true, false, List, [], ◌∷◌, ◌++◌, map, length, IfOk};
ghost use Rattle.std.specs.List.{list_any};
ghost use Rattle.lexspec.specs.Endings.{numbers_kept, clashes, unlisted_end as unlisted_end_in, lists_number};
ghost use Rattle.lexspec_actions.specs.Views.{condition_of, end_action_of};
ghost use Rattle.lexspec_lines.specs.Declaring.{declared_of};
ghost use Rattle.lexspec.specs.Files.{end_in, AreSingle};
ghost use Rattle.lexspec.specs.Endings.{conditions_with};
ghost use Rattle.lexspec.specs.EndRules.{end_rule_of};
ghost use Rattle.lexspec.specs.RuleItems.{EndRule as EndRuleMeant};
ghost use Rattle.lexspec.specs.Tests.{sound_list};
ghost use Rattle.lex_semantics.specs.Limits.{max_conditions};

use lex_machine::copy_end;
use lexspec_actions::{Condition, EndAction};
use std::alloc::{AllocError, Global};

/// An `<<EOF>>` rule, by the numbers of its conditions: None without a list.
#[derive(Drop)]
pub(crate) struct EndRule {
    pub(crate) conditions: Option<Vec<u8>>,
    pub(crate) action: EndAction,
}

/// Whether the number is in the list.
fn is_listed(numbers: &[u8], number: u8) -> bool
    ensures { result ≡ list_any (λ d. d == number) numbers.now }
{
    numbers.iter().any(|listed| *listed == number)
}

/// Whether a number is in both lists.
fn have_common(numbers: &[u8], others: &[u8]) -> bool
    ensures { result ≡ list_any (λ d. list_any (λ k. k == d) numbers.now) others.now }
{
    others.iter().any(|number| is_listed(numbers, *number))
}

/// Whether two rules list a condition in common, or neither has a list.
fn clash(end: &EndRule, other: &EndRule) -> bool
    ensures { result ≡ clashes (numbers_kept end.now) (numbers_kept other.now) }
{
    match &end.conditions {
        None => other.conditions.is_none(),
        Some(numbers) => match &other.conditions {
            None => false,
            Some(others) => have_common(numbers, others),
        },
    }
}

/// Whether a rule may join others: none of them has a condition of its list, or, if it has no list, each of them has
/// one.
pub(crate) fn may_join(ends: &[EndRule], end: &EndRule) -> bool
    ensures found { result ≡ true → (count : ℕ) → AreSingle count (map end_rule_of ends.now)
        → AreSingle count (map end_rule_of ends.now ++ end_rule_of end.now ∷ []) }
    ensures none { result ≡ false → (count : ℕ) (more : List EndRuleMeant)
        → sound_list count (numbers_kept end.now) ≡ true
        → AreSingle count (map end_rule_of ends.now ++ end_rule_of end.now ∷ more) → ⊥ }
{
    for other in ends {
        if clash(other, end) {
            return false;
        }
    }
    true
}

/// The end action of the conditions that no rule lists: that of the rule without a list, else nothing, with status 0.
fn unlisted_end(alloc: Global, ends: &[EndRule]) -> Result<EndAction, AllocError>
    ensures { IfOk result (λ e. end_action_of e ≡ unlisted_end_in (map end_rule_of ends.now)) }
{
    for end in ends {
        if end.conditions.is_none() {
            return copy_end(alloc, &end.action);
        }
    }
    Ok(EndAction {
        print: Vec::new(alloc),
        status: 0,
    })
}

/// Whether the rule lists the condition with the number.
fn lists(end: &EndRule, number: u8) -> bool
    ensures { result ≡ lists_number (numbers_kept end.now) number }
{
    match &end.conditions {
        None => false,
        Some(numbers) => is_listed(numbers, number),
    }
}

/// The end action of the condition with the number: that of the first rule that lists it, else `unlisted_end`.
fn end_of(alloc: Global, ends: &[EndRule], number: u8) -> Result<EndAction, AllocError>
    ensures { IfOk result (λ e. end_action_of e ≡ end_in (map end_rule_of ends.now) number) }
{
    for end in ends {
        if lists(end, number) {
            return copy_end(alloc, &end.action);
        }
    }
    unlisted_end(alloc, ends)
}

/// The condition with this end action.
fn with_end(condition: Condition, end: EndAction) -> Condition
    ensures { condition_of result ≡ record {
      name = condition.name.items;
      exclusive = condition.exclusive;
      end =
          end_action_of end;
    } }
{
    let mut ended = condition;
    ended.end = end;
    ended
}

/// The conditions, each with the end action that the `<<EOF>>` rules give it.
pub(crate) fn with_ends(
    alloc: Global,
    conditions: Vec<Condition>,
    ends: &[EndRule],
) -> Result<Vec<Condition>, AllocError>
    requires { length conditions.items ≤ max_conditions }
    ensures { IfOk result (λ cs. map condition_of cs.items
        ≡ conditions_with 0 (map declared_of conditions.items) (map end_rule_of ends.now)) }
{
    let mut ended = Vec::new(alloc);
    for condition in conditions {
        let end = end_of(alloc, ends, ended.len() as u8)?;
        ended.push(with_end(condition, end))?;
    }
    Ok(ended)
}
