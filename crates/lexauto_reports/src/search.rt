//! The first word that leads to each state, with how many bytes were read: words in order of length and then of bytes,
//! and the states of equal words together.
ghost use Rattle.std.specs.Prelude.{◌≡◌, ◌⊎◌, ◌↔◌, ℕ, ◌+◌, ◌*◌, ◌<◌, ◌≤◌};
ghost use Rattle.std.specs.Prelude.{[], ◌∷◌, ◌++◌, None, Some, length, IfOk, OnOk};
ghost use Rattle.lex_semantics.specs.Text.{Among};
ghost use Rattle.lexauto_dfa.specs.Alike.{AreLeads, moves};
ghost use Rattle.lexauto_dfa.specs.Automata.{lists_of, states_of};
ghost use Rattle.lexauto_reports.specs.Counting.{step, IsStart};
ghost use Rattle.lexauto_reports.specs.Searching.{place_of, words_of, states_of_groups};
ghost use Rattle.lexauto_reports.specs.Searching.{unfound, IsAt, IsUpTo, AreFound};

use crate::groups::Groups;
use lexauto_dfa::{Dfa, first_bytes};
use std::alloc::{AllocError, Global};

/// Groups in the order of their words, and for each state the place of the group that it is in.
#[derive(Drop)]
pub struct Found {
    /// The groups.
    pub groups: Groups,
    /// For each state, with how many bytes were read, the place of its group; None where no word leads there.
    pub places: Vec<Option<usize>>,
}

/// The states that are reached, each with its first word. It takes memory for each group, its word and its states.
pub fn first_words(alloc: Global, dfa: &Dfa) -> Result<Found, AllocError>
    ensures { IfOk result (λ f. AreFound (lists_of dfa.now) (words_of f.groups) f.places.items) }
{
    let mut places = vec![in alloc; None; 3 * dfa.len() as usize]?;
    let mut groups = first_group(alloc, dfa, &mut places)?;
    let leads = first_bytes(alloc, &dfa.parts().next, dfa.len() as usize)?;
    let mut place = 0;
    while place < groups.groups.len() {
        expand(alloc, dfa, &leads, &mut groups, &mut places, place)?;
        place += 1;
    }
    Ok(Found { groups, places })
}

/// The group of the empty word: the starts.
fn first_group(
    alloc: Global,
    dfa: &Dfa,
    places: &mut Vec<Option<usize>>,
) -> Result<Groups, AllocError>
    requires len { length places.old.items ≡ 3 * states_of dfa.now }
    requires none { (x : ℕ) → place_of places.old.items x ≡ None }
    ensures { IfOk result (λ g. IsUpTo (lists_of dfa.now) (words_of g) (states_of_groups g) places.new.items 0) }
{
    let states = starts(alloc, dfa)?;
    put_first(places, &states);
    let groups = Groups::first(alloc, states)?;
    Ok(groups)
}

/// Gives some states the first place.
fn put_first(places: &mut Vec<Option<usize>>, states: &[u32])
    requires known { (x : ℕ) → Among states.now x → x < length places.old.items }
    ensures len { length places.new.items ≡ length places.old.items }
    ensures first { (x : ℕ) → Among states.now x → place_of places.new.items x ≡ Some 0 }
    ensures only { (x j : ℕ) → place_of places.new.items x ≡ Some j
        → (place_of places.old.items x ≡ Some j) ⊎ ((j ≡ 0) × Among states.now x) }
{
    for state in states {
        places[*state as usize] = Some(0);
    }
}

/// The states before any byte.
fn starts(alloc: Global, dfa: &Dfa) -> Result<Vec<u32>, AllocError>
    ensures { IfOk result (λ v. (x : ℕ) → Among v.items x ↔ IsStart (lists_of dfa.now) x) }
{
    let mut starts = Vec::new(alloc);
    for condition in 0..dfa.parts().starts.len() {
        starts.push(3 * dfa.start(condition, false))?;
        starts.push(3 * dfa.start(condition, true))?;
    }
    Ok(starts)
}

/// Adds the groups of the words that are a group's word with one byte more.
fn expand(
    alloc: Global,
    dfa: &Dfa,
    leads: &[u8],
    groups: &mut Groups,
    places: &mut Vec<Option<usize>>,
    place: usize,
) -> Result<(), AllocError>
    requires len { length leads.now ≡ 256 }
    requires leads { AreLeads (states_of dfa.now) (moves (lists_of dfa.now).next.items) leads.now }
    requires here { IsAt (lists_of dfa.now) (words_of groups.old)
        (states_of_groups groups.old) places.old.items place 0 }
    ensures up_to { OnOk result (IsUpTo (lists_of dfa.now) (words_of groups.new)
        (states_of_groups groups.new) places.new.items (place + 1)) }
    ensures fewer { OnOk result (length groups.new.groups.items + unfound places.new.items
        ≤ length groups.old.groups.items + unfound places.old.items) }
{
    for byte in 0..256u32 {
        visit(
            alloc,
            dfa,
            groups,
            places,
            place,
            byte as u8,
            leads[byte as usize],
        )?;
    }
    Ok(())
}

/// Adds the group of the word that is a group's word with this byte more, if it is the first word of some states. Where
/// each state goes as by an earlier byte, `lead`, it is not.
fn visit(
    alloc: Global,
    dfa: &Dfa,
    groups: &mut Groups,
    places: &mut Vec<Option<usize>>,
    place: usize,
    byte: u8,
    lead: u8,
) -> Result<(), AllocError>
    requires lead { lead ≤ byte }
    requires alike { (x : ℕ) → step (lists_of dfa.now) x lead ≡ step (lists_of dfa.now) x byte }
    requires here { IsAt (lists_of dfa.now) (words_of groups.old)
        (states_of_groups groups.old) places.old.items place byte }
    ensures next { OnOk result (IsAt (lists_of dfa.now) (words_of groups.new)
        (states_of_groups groups.new) places.new.items place (byte + 1)) }
    ensures fewer { OnOk result (length groups.new.groups.items + unfound places.new.items
        ≤ length groups.old.groups.items + unfound places.old.items) }
{
    if lead < byte {
        return Ok(());
    }
    let new = groups.groups.len();
    let states = unseen(alloc, dfa, &groups.groups[place].states, byte, places, new)?;
    if states.is_empty() {
        return Ok(());
    }
    groups.add(alloc, place, byte, states)?;
    Ok(())
}

/// Where some states go by a byte, of those that have no place yet. They get this one.
fn unseen(
    alloc: Global,
    dfa: &Dfa,
    states: &[u32],
    byte: u8,
    places: &mut Vec<Option<usize>>,
    place: usize,
) -> Result<Vec<u32>, AllocError>
    requires len { length places.old.items ≡ 3 * states_of dfa.now }
    requires known { (x : ℕ) → Among states.now x → x < 3 * states_of dfa.now }
    ensures len { OnOk result (length places.new.items ≡ length places.old.items) }
    ensures kept { OnOk result ((x j : ℕ) → place_of places.old.items x ≡ Some j
        → place_of places.new.items x ≡ Some j) }
    ensures only { IfOk result (λ v. (x j : ℕ) → place_of places.new.items x ≡ Some j
        → (place_of places.old.items x ≡ Some j) ⊎ ((j ≡ place) × Among v.items x)) }
    ensures seen { IfOk result (λ v. (x : ℕ) → Among v.items x → (x < 3 * states_of dfa.now) × (y : ℕ)
        × Among states.now y × (step (lists_of dfa.now) y byte ≡ x)) }
    ensures all { OnOk result ((y : ℕ) → Among states.now y → (j : ℕ)
        × (place_of places.new.items (step (lists_of dfa.now) y byte) ≡ Some j)) }
    ensures fewer { IfOk result (λ v. length v.items + unfound places.new.items ≡ unfound places.old.items) }
{
    let mut unseen = Vec::new(alloc);
    for state in states {
        let target = next(dfa, *state, byte);
        if places[target as usize].is_none() {
            places[target as usize] = Some(place);
            unseen.push(target)?;
        }
    }
    Ok(unseen)
}

/// The state after one byte more, with how many bytes were read.
fn next(dfa: &Dfa, state: u32, byte: u8) -> u32
    requires { state < 3 * states_of dfa.now }
    ensures state { result ≡ step (lists_of dfa.now) state byte }
    ensures known { result < 3 * states_of dfa.now }
{
    3 * dfa.next(state / 3, byte) + (state % 3 + 1).min(2)
}
