//! The numbers of the conditions that a rule lists. (POSIX, lex, Rules in lex; flex, Start Conditions.)
ghost use Rattle.std.specs.Prelude.{◌≡◌, ◌≢◌, ◌≤◌, ◌<◌, ℕ, List, Bool, true, false, Option, Some, None};
ghost use Rattle.std.specs.Prelude.{option_map, filter_map, length, slice_index_or, IfOk, IfErr, IfSome, IfNone};
ghost use Rattle.lex_semantics.specs.Active.{contains};
ghost use Rattle.lexspec_actions.specs.Names.{number_from, names_of};
ghost use Rattle.lexspec.specs.RuleItems.{numbers_of};
ghost use Rattle.std.specs.List.{filter, range_with_len};
ghost use Rattle.lexspec.specs.SubjectViews.{all_numbered, conditions_of, parts};
ghost use Rattle.lexspec_lines.specs.Outcome.{UnlessMemory};
ghost use Rattle.lexre_bytes.specs.declared.refusals.SpecErrorKind.TheVariants.{DanglingBar};
ghost use Rattle.lex_semantics.specs.Limits.{max_conditions};

use crate::subject::Conditions;
use lex_semantics::MAX_CONDITIONS;
use lexre_bytes::skip_first;
use lexspec_actions::{Condition, number_of};
use lexspec_lines::{SpecErrorKind, split_before};
use std::alloc::{AllocError, Global};

/// The conditions that the names between commas list, each as a flag at its number. None where a name is not declared.
fn listed(conditions: &[Condition], names: &[u8]) -> Option<[bool; MAX_CONDITIONS]>
    requires { length conditions.now ≤ max_conditions }
    ensures numbered { IfSome result
        (λ _. all_numbered (number_from 0 (names_of conditions.now)) (parts names.now) ≡ true) }
    ensures listed { IfSome result (λ flags. (c : ℕ) → c < max_conditions
        → slice_index_or flags c false ≡ contains
        (filter_map (number_from 0 (names_of conditions.now)) (parts names.now)) c) }
    ensures none { IfNone result (all_numbered (number_from 0 (names_of conditions.now)) (parts names.now) ≡ false) }
{
    let mut flags = [false; MAX_CONDITIONS];
    let mut rest = names;
    'names: loop {
        let (name, after) = split_before(|byte| byte == b',', rest);
        let number = number_of(conditions, name)?;
        flags[number as usize] = true;
        if after.is_empty() {
            return Some(flags);
        }
        rest = skip_first(after);
    }
}

/// The numbers below the count at which a flag is set, ascending.
fn numbers_where(alloc: Global, flags: &[bool], count: u8) -> Result<Vec<u8>, AllocError>
    requires { length flags.now ≡ max_conditions }
    ensures { IfOk result (λ v. (test : ℕ → Bool)
        → ((c : ℕ) → c < max_conditions → slice_index_or flags.now c false ≡ test c) → v.items ≡ filter test (range_with_len 0 count)) }
{
    let mut numbers = Vec::new(alloc);
    for number in 0..count {
        if flags[number as usize] {
            numbers.push(number)?;
        }
    }
    Ok(numbers)
}

/// The numbers of a condition list, ascending; None without a list. A name that is not declared is an
/// `UnknownCondition`.
pub(crate) fn condition_numbers(
    alloc: Global,
    conditions: &[Condition],
    asked: Conditions<'_>,
) -> Result<Option<Vec<u8>>, SpecErrorKind>
    requires { length conditions.now ≤ max_conditions }
    ensures found { IfOk result (λ v. ◌≡◌ {A = Option (Option (List ℕ))}
        (numbers_of (number_from 0 (names_of conditions.now)) (length conditions.now) (conditions_of asked.entry))
        (Some (option_map (λ v. v.items) v))) }
    ensures none { IfErr result (λ e. UnlessMemory e
        (◌≡◌ {A = Option (Option (List ℕ))}
        (numbers_of (number_from 0 (names_of conditions.now)) (length conditions.now)
        (conditions_of asked.entry)) None)) }
    ensures no_bar { IfErr result (λ e. e ≢ DanglingBar) }
{
    let count = conditions.len() as u8;
    match asked {
        Conditions::Unlisted => Ok(None),
        Conditions::Every => {
            let numbers = numbers_where(alloc, &[true; MAX_CONDITIONS], count)?;
            Ok(Some(numbers))
        }
        Conditions::Only(names) => match listed(conditions, names) {
            None => Err(SpecErrorKind::UnknownCondition),
            Some(flags) => {
                let numbers = numbers_where(alloc, &flags, count)?;
                Ok(Some(numbers))
            }
        },
    }
}
