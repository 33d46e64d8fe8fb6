//! States that back up.
ghost use Rattle.std.specs.Prelude.{◌≡◌, ◌<◌, ◌↔◌, ℕ, length, IfOk};
ghost use Rattle.lex_semantics.specs.Text.{Among, Ascending};
ghost use Rattle.lex_semantics.specs.Spec.{Spec};
ghost use Rattle.lex_semantics.specs.TableFor.{TableFor};
ghost use Rattle.lexauto_dfa.specs.Automata.{bare, conditions_of, lists_of, machine_of, states_of};
ghost use Rattle.lexauto_reports.specs.BackWords.{states_in, BacksUp, IsAfterBackWord, IsEntry, IsFirstWord};
ghost use Rattle.lexauto_reports.specs.Searching.{words_of, AreFound};
ghost use Rattle.lexauto_reports.specs.declared.backup.BackUp.{BackUp};

use crate::backup::BackUp;
use crate::search::{Found, first_words};
use lexauto_dfa::{Dfa, OutOfMemory};
use std::alloc::{AllocError, Global};

/// The states that back up, ascending: they go on and accept nothing, and a word of two bytes or more leads to them
/// from a start. Each has the shortest such word, and of these the first in byte order. In an automaton for a
/// specification these are the states after its back words.
pub fn backing_up(alloc: Global, dfa: &Dfa) -> Result<Vec<BackUp>, OutOfMemory>
    ensures ascending { IfOk result (λ v. Ascending (states_in v.items)) }
    ensures states { IfOk result (λ v. (s : ℕ) → Among (states_in v.items) s ↔ BacksUp (lists_of dfa.now) s) }
    ensures words { IfOk result (λ v. (e : BackUp) → Among v.items e
        → IsFirstWord (bare (lists_of dfa.now)) e.state e.word.items) }
    ensures back_words { IfOk result (λ v. (S : Spec) → conditions_of dfa.now ≡ length S.conditions
        → TableFor (machine_of dfa.now S) S → (s : ℕ)
        → Among (states_in v.items) s ↔ IsAfterBackWord (machine_of dfa.now S) S s) }
{
    let found = first_words(alloc, dfa)?;
    let entries = entries(alloc, dfa, &found)?;
    Ok(entries)
}

/// The states that go on and accept nothing, of those that were found after two bytes or more.
fn entries(alloc: Global, dfa: &Dfa, found: &Found) -> Result<Vec<BackUp>, AllocError>
    requires { AreFound (lists_of dfa.now) (words_of found.now.groups) found.now.places.items }
    ensures ascending { IfOk result (λ v. Ascending (states_in v.items)) }
    ensures states { IfOk result (λ v. (s : ℕ) → Among (states_in v.items) s ↔ BacksUp (lists_of dfa.now) s) }
    ensures words { IfOk result (λ v. (e : BackUp) → Among v.items e
        → IsFirstWord (bare (lists_of dfa.now)) e.state e.word.items) }
{
    let mut entries = Vec::new(alloc);
    for state in 0..dfa.len() {
        if let Some(entry) = entry(alloc, dfa, found, state)? {
            entries.push(entry)?;
        }
    }
    Ok(entries)
}

/// The entry of a state, if it backs up.
fn entry(alloc: Global, dfa: &Dfa, found: &Found, state: u32) -> Result<Option<BackUp>, AllocError>
    requires found { AreFound (lists_of dfa.now) (words_of found.now.groups) found.now.places.items }
    requires known { state < states_of dfa.now }
    ensures { IfOk result (λ o. IsEntry (lists_of dfa.now) state o) }
{
    if !dfa.goes_on(state) || !dfa.accepts(state).is_empty() {
        return Ok(None);
    }
    match found.places[3 * state as usize + 2] {
        None => Ok(None),
        Some(place) => {
            let word = Vec::from_slice(alloc, found.groups.word(place))?;
            Ok(Some(BackUp { state, word }))
        }
    }
}
