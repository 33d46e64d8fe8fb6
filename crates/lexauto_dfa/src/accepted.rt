//! The rules that no state accepts.
ghost use Rattle.std.specs.Prelude.{◌≡◌, ◌⊎◌, ◌^◌, ◌<◌, ◌↔◌, ℕ, true, false, length, IfOk};
ghost use Rattle.lex_semantics.specs.Text.{Among, Ascending, flag};
ghost use Rattle.lexauto_dfa.specs.Automata.{states_of, accepts_of};
ghost use Rattle.lexauto_dfa.specs.Accepted.{Accepts};

use crate::dfa::Dfa;
use std::alloc::{AllocError, Global};

/// Of so many rules those that no state accepts, ascending.
pub fn unaccepted_rules(alloc: Global, dfa: &Dfa, rules: usize) -> Result<Vec<u32>, AllocError>
    requires known { (s i : ℕ) → s < states_of dfa.now → Among (accepts_of dfa.now s) i → i < rules }
    requires few { rules < 2 ^ 32 }
    ensures ascending { IfOk result (λ v. Ascending v.items) }
    ensures unaccepted { IfOk result (λ v. (i : ℕ)
        → Among v.items i ↔ ((i < rules) × (Accepts dfa.now i → ⊥))) }
{
    let accepted = accepted_rules(alloc, dfa, rules)?;
    let unaccepted = unset(alloc, &accepted)?;
    Ok(unaccepted)
}

/// Whether some state accepts each rule.
fn accepted_rules(alloc: Global, dfa: &Dfa, rules: usize) -> Result<Vec<bool>, AllocError>
    requires known { (s i : ℕ) → s < states_of dfa.now → Among (accepts_of dfa.now s) i → i < rules }
    ensures len { IfOk result (λ v. length v.items ≡ rules) }
    ensures flags { IfOk result (λ v. (i : ℕ) → (flag v.items i ≡ true) ↔ Accepts dfa.now i) }
{
    let mut accepted = vec![in alloc; false; rules]?;
    for state in 0..dfa.len() {
        set(&mut accepted, dfa.accepts(state));
    }
    Ok(accepted)
}

/// Sets the flags of some rules.
fn set(flags: &mut [bool], rules: &[u32])
    requires known { (i : ℕ) → Among rules.now i → i < length flags.old }
    ensures len { length flags.new ≡ length flags.old }
    ensures flags { (i : ℕ) → (flag flags.new i ≡ true) ↔ ((flag flags.old i ≡ true) ⊎ Among rules.now i) }
{
    for rule in rules {
        flags[*rule as usize] = true;
    }
}

/// The places of the flags that are not set, ascending.
pub fn unset(alloc: Global, flags: &[bool]) -> Result<Vec<u32>, AllocError>
    requires few { length flags.now < 2 ^ 32 }
    ensures ascending { IfOk result (λ v. Ascending v.items) }
    ensures unset { IfOk result (λ v. (i : ℕ)
        → Among v.items i ↔ ((i < length flags.now) × (flag flags.now i ≡ false))) }
{
    let mut places = Vec::new(alloc);
    for place in 0..flags.len() {
        if !flags[place] {
            places.push(place as u32)?;
        }
    }
    Ok(places)
}
