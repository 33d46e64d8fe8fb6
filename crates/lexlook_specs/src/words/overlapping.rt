//! The pairs of rules that fit one text with the same length.
ghost use Rattle.std.specs.Prelude.{◌≡◌, ◌<◌, ◌≤◌, ◌+◌, ◌^◌, ℕ, length, IfOk, OnOk};
ghost use Rattle.lex_semantics.specs.Text.{Among, flag};
ghost use Rattle.lexauto_dfa.specs.Automata.{accepts_of, conditions_of, lists_of, states_of};
ghost use Rattle.lexauto_reports.specs.Searching.{words_of, AreFound};
ghost use Rattle.lexlook_specs.specs.Matches.{matches_in};
ghost use Rattle.lexlook_specs.specs.Overlaps.{AreHomes, AreOverlaps, IsFirstShared, IsHome, IsOverlap};
ghost use Rattle.lexlook_specs.specs.Pairing.{IsUpTo};

use crate::words::placing::shared_places;
use crate::words::starting::{Start, Wish, meets_after};
use lexauto_dfa::Dfa;
use lexauto_reports::{Found, first_words};
use std::alloc::{AllocError, Global};

/// Where in a condition two rules share a text.
#[derive(Clone, Copy)]
pub enum Home {
    /// Nowhere in it.
    Nowhere,
    /// At the start of a line alone.
    AtLineStart,
    /// Not at the start of a line alone.
    Anywhere,
}

/// Two rules that share a text: it fits both with the same length, and the first takes it.
#[derive(Drop)]
pub struct Overlap {
    /// The number of the rule that takes it, which is the smaller one.
    pub first: u32,
    /// The number of the other rule.
    pub second: u32,
    /// The first of the shortest texts that they share.
    pub text: Vec<u8>,
    /// By the number of each condition, where they share this text.
    pub homes: Vec<Home>,
    /// Whether the action of the first rule has REJECT.
    pub gives_up: bool,
}

/// Where in a condition these rules share a text.
fn home_in(dfa: &Dfa, rejects: &[bool], first: u32, second: u32, text: &[u8], condition: u8) -> Home
    requires condition { condition < conditions_of dfa.now }
    requires rules { (s i : ℕ) → s < states_of dfa.now → Among (accepts_of dfa.now s) i → i < length rejects.now }
    ensures { IsHome (matches_in (lists_of dfa.now) rejects.now) first second text.now condition result }
{
    let wish = Wish::Shares(first, second);
    let within = Start {
        condition,
        line_start: false,
    };
    if meets_after(dfa, rejects, text, wish, within) {
        return Home::Anywhere;
    }
    let begins = Start {
        condition,
        line_start: true,
    };
    if meets_after(dfa, rejects, text, wish, begins) {
        return Home::AtLineStart;
    }
    Home::Nowhere
}

/// The same of each condition.
fn homes_of(
    alloc: Global,
    dfa: &Dfa,
    rejects: &[bool],
    first: u32,
    second: u32,
    text: &[u8],
) -> Result<Vec<Home>, AllocError>
    requires conditions { conditions_of dfa.now ≤ 255 }
    requires rules { (s i : ℕ) → s < states_of dfa.now → Among (accepts_of dfa.now s) i → i < length rejects.now }
    ensures { IfOk result (λ homes. AreHomes (matches_in (lists_of dfa.now) rejects.now) first second text.now homes.items) }
{
    let conditions = dfa.parts().starts.len() as u8;
    let mut homes = Vec::new(alloc);
    for condition in 0..conditions {
        homes.push(home_in(dfa, rejects, first, second, text, condition))?;
    }
    Ok(homes)
}

/// What is told of two rules, by the first of the shortest texts that they share.
fn overlap_of(
    alloc: Global,
    dfa: &Dfa,
    rejects: &[bool],
    first: u32,
    second: u32,
    text: &[u8],
) -> Result<Overlap, AllocError>
    requires conditions { conditions_of dfa.now ≤ 255 }
    requires rules { (s i : ℕ) → s < states_of dfa.now → Among (accepts_of dfa.now s) i → i < length rejects.now }
    requires order { first < second }
    requires known { second < length rejects.now }
    requires shared { IsFirstShared (matches_in (lists_of dfa.now) rejects.now) first second text.now }
    ensures first { IfOk result (λ x. x.first ≡ first) }
    ensures second { IfOk result (λ x. x.second ≡ second) }
    ensures overlap { IfOk result (IsOverlap (matches_in (lists_of dfa.now) rejects.now)) }
{
    let homes = homes_of(alloc, dfa, rejects, first, second, text)?;
    let text = Vec::from_slice(alloc, text)?;
    let gives_up = rejects[first as usize];
    Ok(Overlap {
        first,
        second,
        text,
        homes,
        gives_up,
    })
}

/// Appends a pair, where there is room for it.
fn add_pair(
    alloc: Global,
    dfa: &Dfa,
    rejects: &[bool],
    first: u32,
    second: u32,
    text: &[u8],
    most: usize,
    overlaps: &mut Vec<Overlap>,
) -> Result<(), AllocError>
    requires conditions { conditions_of dfa.now ≤ 255 }
    requires rules { (s i : ℕ) → s < states_of dfa.now → Among (accepts_of dfa.now s) i → i < length rejects.now }
    requires order { first < second }
    requires known { second < length rejects.now }
    requires shared { IsFirstShared (matches_in (lists_of dfa.now) rejects.now) first second text.now }
    requires before { IsUpTo (matches_in (lists_of dfa.now) rejects.now) most first second overlaps.old.items }
    ensures { OnOk result (IsUpTo (matches_in (lists_of dfa.now) rejects.now) most first (second + 1) overlaps.new.items) }
{
    if overlaps.len() < most {
        overlaps.push(overlap_of(alloc, dfa, rejects, first, second, text)?)?;
    }
    Ok(())
}

/// Appends the pairs of which this rule is the first, as far as there is room.
fn add_pairs(
    alloc: Global,
    dfa: &Dfa,
    rejects: &[bool],
    found: &Found,
    first: u32,
    most: usize,
    overlaps: &mut Vec<Overlap>,
) -> Result<(), AllocError>
    requires conditions { conditions_of dfa.now ≤ 255 }
    requires rules { (s i : ℕ) → s < states_of dfa.now → Among (accepts_of dfa.now s) i → i < length rejects.now }
    requires few { length rejects.now < 2 ^ 32 }
    requires found { AreFound (lists_of dfa.now) (words_of found.now.groups) found.now.places.items }
    requires before { IsUpTo (matches_in (lists_of dfa.now) rejects.now) most first 0 overlaps.old.items }
    ensures { OnOk result (IsUpTo (matches_in (lists_of dfa.now) rejects.now) most (first + 1) 0 overlaps.new.items) }
{
    let places = shared_places(alloc, dfa, rejects, &found.places, first)?;
    for second in 0..rejects.len() {
        if let Some(place) = places[second] {
            let text = found.groups.word(place);
            add_pair(
                alloc,
                dfa,
                rejects,
                first,
                second as u32,
                text,
                most,
                overlaps,
            )?;
        }
    }
    Ok(())
}

/// The pairs of rules that share a text, by an automaton that accepts all rules that fit, and the flags of the rules that
/// have REJECT: in order of the first rule and then of the second, and of these the first `most`. A pair shares a text that
/// fits both rules with the same length, and that no rule before the first of them keeps.
pub fn find_overlaps(
    alloc: Global,
    dfa: &Dfa,
    rejects: &[bool],
    most: usize,
) -> Result<Vec<Overlap>, AllocError>
    requires conditions { conditions_of dfa.now ≤ 255 }
    requires rules { (s i : ℕ) → s < states_of dfa.now → Among (accepts_of dfa.now s) i → i < length rejects.now }
    requires few { length rejects.now < 2 ^ 32 }
    ensures { IfOk result (λ v. AreOverlaps (matches_in (lists_of dfa.now) rejects.now) most v.items) }
{
    let found = first_words(alloc, dfa)?;
    let mut overlaps = Vec::new(alloc);
    for rule in 0..rejects.len() {
        add_pairs(
            alloc,
            dfa,
            rejects,
            &found,
            rule as u32,
            most,
            &mut overlaps,
        )?;
    }
    Ok(overlaps)
}
