//! At which of the words that a search found each rule takes a text, and by which rules texts are taken.
ghost use Rattle.std.specs.Prelude.{◌≡◌, ◌⊎◌, ◌↔◌, ◌+◌, ◌*◌, ◌<◌, ◌^◌, ℕ, true, false, length, IfOk};
ghost use Rattle.lex_semantics.specs.Text.{Among, Ascending, flag};
ghost use Rattle.lexauto_dfa.specs.Automata.{accepts_of, lists_of, states_of};
ghost use Rattle.lexauto_reports.specs.Searching.{place_of};
ghost use Rattle.lexlook_specs.specs.Placing.{IsLeastOf, SharesAt, TakesAt, TakesBelow, least_place, takers};

use crate::words::taking::{behind, has, taken, taker};
use lexauto_dfa::{Dfa, unset};
use std::alloc::{AllocError, Global};

/// The smaller of two places, where there are any.
fn smaller(place: Option<usize>, other: Option<usize>) -> Option<usize>
    ensures { result ≡ least_place place other }
{
    match (place, other) {
        (Some(one), Some(another)) => Some(one.min(another)),
        (None, _) => other,
        (_, None) => place,
    }
}

/// The place of the first word of one byte or more that leads to a state.
fn place_at(places: &[Option<usize>], state: u32) -> Option<usize>
    requires { 3 * state + 2 < length places.now }
    ensures { result ≡ least_place (place_of places.now (3 * state + 1)) (place_of places.now (3 * state + 2)) }
{
    let first = 3 * state as usize;
    smaller(places[first + 1], places[first + 2])
}

/// Lowers the places of some rules to this one.
fn lower(firsts: &mut [Option<usize>], rules: &[u32], place: Option<usize>)
    requires known { (i : ℕ) → Among rules.now i → i < length firsts.old }
    ensures len { length firsts.new ≡ length firsts.old }
    ensures kept { (i : ℕ) → (Among rules.now i → ⊥) → place_of firsts.new i ≡ place_of firsts.old i }
    ensures lowered { (i : ℕ) → Among rules.now i
        → place_of firsts.new i ≡ least_place (place_of firsts.old i) place }
{
    for rule in rules {
        firsts[*rule as usize] = smaller(firsts[*rule as usize], place);
    }
}

/// For each rule the place of the first word by which it takes a text, if there is one.
pub(crate) fn first_places(
    alloc: Global,
    dfa: &Dfa,
    rejects: &[bool],
    places: &[Option<usize>],
) -> Result<Vec<Option<usize>>, AllocError>
    requires len { length places.now ≡ 3 * states_of dfa.now }
    requires rules { (s i : ℕ) → s < states_of dfa.now → Among (accepts_of dfa.now s) i → i < length rejects.now }
    ensures len { IfOk result (λ v. length v.items ≡ length rejects.now) }
    ensures least { IfOk result (λ v. (i : ℕ) → IsLeastOf
        (TakesAt (lists_of dfa.now) rejects.now places.now (states_of dfa.now) i) (place_of v.items i)) }
{
    let mut firsts = vec![in alloc; None; rejects.len()]?;
    for state in 0..dfa.len() {
        let rules = taken(rejects, dfa.accepts(state));
        lower(&mut firsts, rules, place_at(places, state));
    }
    Ok(firsts)
}

/// For each rule behind `rule` the place of the first word that it fits and `rule` takes, if there is one.
pub(crate) fn shared_places(
    alloc: Global,
    dfa: &Dfa,
    rejects: &[bool],
    places: &[Option<usize>],
    rule: u32,
) -> Result<Vec<Option<usize>>, AllocError>
    requires len { length places.now ≡ 3 * states_of dfa.now }
    requires rules { (s i : ℕ) → s < states_of dfa.now → Among (accepts_of dfa.now s) i → i < length rejects.now }
    ensures len { IfOk result (λ v. length v.items ≡ length rejects.now) }
    ensures least { IfOk result (λ v. (j : ℕ) → IsLeastOf
        (SharesAt (lists_of dfa.now) rejects.now places.now (states_of dfa.now) rule j) (place_of v.items j)) }
{
    let mut firsts = vec![in alloc; None; rejects.len()]?;
    for state in 0..dfa.len() {
        let rules = behind(rejects, dfa.accepts(state), rule);
        lower(&mut firsts, rules, place_at(places, state));
    }
    Ok(firsts)
}

/// Clears the flag of the rule that takes the texts which lead to this state, if they fit a rule and it gives none up.
fn clear_taker(free: &mut [bool], rejects: &[bool], rules: &[u32], rule: u32)
    requires known { (i : ℕ) → Among rules.now i → i < length rejects.now }
    requires len { length free.old ≡ length rejects.now }
    ensures len { length free.new ≡ length free.old }
    ensures cleared { (j : ℕ) → (flag free.new j ≡ false) ↔ ((flag free.old j ≡ false)
        ⊎ (Among rules.now rule × Among (takers rejects.now rules.now) j × (flag rejects.now j ≡ false))) }
{
    if has(rules, rule) {
        if let Some(other) = taker(rejects, rules) {
            free[other as usize] = false;
        }
    }
}

/// The rules that take the texts of a rule and do not give them up, ascending.
pub(crate) fn takers(
    alloc: Global,
    dfa: &Dfa,
    rejects: &[bool],
    places: &[Option<usize>],
    rule: u32,
) -> Result<Vec<u32>, AllocError>
    requires len { length places.now ≡ 3 * states_of dfa.now }
    requires rules { (s i : ℕ) → s < states_of dfa.now → Among (accepts_of dfa.now s) i → i < length rejects.now }
    requires few { length rejects.now < 2 ^ 32 }
    ensures ascending { IfOk result (λ v. Ascending v.items) }
    ensures takers { IfOk result (λ v. (j : ℕ) → Among v.items j
        ↔ TakesBelow (lists_of dfa.now) rejects.now places.now (states_of dfa.now) rule j) }
{
    let mut free = vec![in alloc; true; rejects.len()]?;
    for state in 0..dfa.len() {
        if place_at(places, state).is_some() {
            clear_taker(&mut free, rejects, dfa.accepts(state), rule);
        }
    }
    unset(alloc, &free)
}
