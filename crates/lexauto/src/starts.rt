//! Where matches start: the active rules of each condition, at the start of a line or not.
ghost use Rattle.std.specs.Prelude.{◌≡◌, ◌<◌, ◌≤◌, ◌&&◌, ◌||◌, [], ◌∷◌, not, ℕ, false, true, length, slice_get};
ghost use Rattle.std.specs.Prelude.{slice_index, option_map, List, IfOk, OnOk, IsErrOf};
ghost use Rattle.lex_semantics.specs.Active.{contains, serves, active};
ghost use Rattle.lexspec_actions.specs.Views.{condition_of};
ghost use Rattle.lexspec.specs.Views.{spec_of, conditions_in};
ghost use Rattle.lexauto.specs.Keys.{Key, At, Finds};
ghost use Rattle.lexauto.specs.KeyPacking.{look_kept, kept_in};
ghost use Rattle.lexauto.specs.Explored.{MoreThan};
ghost use Rattle.lexauto.specs.WordKeys.{start_key, IsRoot, AreRoots, AreStartPlaces, Grows};

use crate::explore::{ExploreError, intern};
use crate::interner::Interner;
use crate::sets::{KeyKind, key_of};
use lexspec::{Condition, Rule, Spec};
use std::alloc::{AllocError, Global};

/// Whether a number is in the list.
fn contains(numbers: &[u8], number: usize) -> bool
    ensures { result ≡ contains numbers.now number }
{
    for other in numbers {
        if usize::from(*other) == number {
            return true;
        }
    }
    false
}

/// Whether a rule is active in the condition of this number, at the start of a line or not.
/// (POSIX, lex, Definitions in lex and Regular Expressions in lex; flex, Start Conditions.)
fn is_active(condition: &Condition, number: usize, line_start: bool, rule: &Rule) -> bool
    ensures { result ≡ (serves (option_map (λ v. v.items) rule.now.conditions) number
        (Some (condition_of condition.now)) && (not rule.now.anchored || line_start)) }
{
    let serves = match &rule.conditions {
        None => !condition.exclusive,
        Some(numbers) => contains(numbers, number),
    };
    serves && (!rule.anchored || line_start)
}

/// The key of the state where a match starts.
fn start_key(
    alloc: Global,
    spec: &Spec,
    number: usize,
    line_start: bool,
) -> Result<Vec<u32>, AllocError>
    requires { number < length (conditions_in (spec_of spec.now)) }
    ensures { IfOk result (λ v. v.items ≡ start_key (spec_of spec.now) number line_start) }
{
    let condition = &spec.conditions()[number];
    let mut numbers = Vec::new(alloc);
    for (i, rule) in spec.rules().iter().enumerate() {
        if is_active(condition, number, line_start, rule) {
            numbers.push(i as u32)?;
        }
    }
    key_of(alloc, KeyKind::ActiveRules, &numbers)
}

/// A table that has only the dead state's key.
pub(crate) fn dead_root(alloc: Global, limit: u32) -> Result<Interner, ExploreError>
    ensures finds { IfOk result (λ t. Finds (look_kept t) (kept_in t.keys.items)) }
    ensures keys { IfOk result (λ t. kept_in t.keys.items ≡ [] ∷ []) }
    ensures room { IfOk result (λ t. length t.keys.items ≤ limit) }
    ensures too_many { IsErrOf result ExploreError.TooMany → limit ≡ 0 }
{
    let mut table = Interner::new(alloc);
    intern(alloc, &mut table, Vec::new(alloc), limit)?;
    Ok(table)
}

/// Adds the keys of the states where matches start, and answers their places, by condition.
pub(crate) fn add_starts(
    alloc: Global,
    spec: &Spec,
    line_start: bool,
    table: &mut Interner,
    limit: u32,
) -> Result<Vec<u32>, ExploreError>
    requires { AreRoots (spec_of spec.now) (look_kept table.old) (kept_in table.old.keys.items) }
    ensures roots { OnOk result (AreRoots (spec_of spec.now) (look_kept table.new)
        (kept_in table.new.keys.items)) }
    ensures grows { OnOk result (Grows (kept_in table.old.keys.items) (kept_in table.new.keys.items)) }
    ensures places { IfOk result (λ v. AreStartPlaces (spec_of spec.now) line_start
        (kept_in table.new.keys.items) v.items) }
    ensures len { IfOk result (λ v. length v.items ≡ length (conditions_in (spec_of spec.now))) }
    ensures room { OnOk result (length table.old.keys.items ≤ limit → length table.new.keys.items ≤ limit) }
    ensures too_many { IsErrOf result ExploreError.TooMany → MoreThan limit (IsRoot (spec_of spec.now)) }
{
    let mut places = Vec::new(alloc);
    for number in 0..spec.conditions().len() {
        let key = start_key(alloc, spec, number, line_start)?;
        let place = intern(alloc, table, key, limit)?;
        places.push(place)?;
    }
    Ok(places)
}
