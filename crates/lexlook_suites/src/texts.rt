//! The first texts that lead over edges.
ghost use Rattle.std.specs.Prelude.{◌≡◌, ◌<◌, ◌+◌, ◌*◌, [], ◌∷◌, ◌++◌, length, IfOk, OnOk};
ghost use Rattle.lex_semantics.specs.Text.{Among};
ghost use Rattle.lexauto_dfa.specs.Automata.{conditions_of, lists_of, next_of, start_of, states_of};
ghost use Rattle.lexauto_dfa.specs.Parts.{after};
ghost use Rattle.lexauto_reports.specs.Searching.{AreFound, place_of, words_of};
ghost use Rattle.lexlook_specs.specs.Placing.{least_place};
ghost use Rattle.lexlook_suites.specs.Texts.{AreTexts, IsEdge, IsFirstStart, IsTextOver, unwalked};
ghost use Rattle.lexlook_suites.specs.declared.edges.Edge.{Edge as EdgeModel};

use crate::edges::Edge;
use lexauto_dfa::Dfa;
use lexauto_reports::{Found, first_words};
use lexlook_specs::ShownText;
use std::alloc::{AllocError, Global};

/// Where a match starts.
#[derive(Clone, Copy)]
struct Start {
    condition: u8,
    line_start: bool,
}

/// An edge that no match goes through, and the first text that leads over it.
#[derive(Drop)]
pub struct Missed {
    pub edge: Edge,
    pub text: Option<ShownText>,
}

/// The smaller of two places, where there are any.
fn smaller(place: Option<usize>, other: Option<usize>) -> Option<usize>
    ensures { result ≡ least_place place other }
{
    match (place, other) {
        (Some(one), Some(another)) => Some(one.min(another)),
        (None, _) => other,
        (_, None) => place,
    }
}

/// The place of the first word that leads to a state.
fn first_place(places: &[Option<usize>], state: u32) -> Option<usize>
    requires { 3 * state + 2 < length places.now }
    ensures { result ≡ least_place (least_place (place_of places.now (3 * state)) (place_of places.now (3 * state + 1)))
        (place_of places.now (3 * state + 2)) }
{
    let first = 3 * state as usize;
    smaller(smaller(places[first], places[first + 1]), places[first + 2])
}

/// The state after a word.
fn state_after(dfa: &Dfa, start: Start, word: &[u8]) -> u32
    requires { start.condition < conditions_of dfa.now }
    ensures { result ≡ after (lists_of dfa.now) (start_of dfa.now start.condition start.line_start) word.now }
{
    let mut state = dfa.start(start.condition as usize, start.line_start);
    for byte in word {
        state = dfa.next(state, *byte);
    }
    state
}

/// The first start from which a word leads to a state: of the first condition, and there not at the start of a line rather
/// than at it.
fn first_start(dfa: &Dfa, word: &[u8], state: u32, conditions: u8) -> Option<Start>
    requires { conditions ≡ conditions_of dfa.now }
    ensures { IsFirstStart (lists_of dfa.now) state word.now conditions result }
{
    for condition in 0..conditions {
        let within = Start {
            condition,
            line_start: false,
        };
        if state_after(dfa, within, word) == state {
            return Some(within);
        }
        let begins = Start {
            condition,
            line_start: true,
        };
        if state_after(dfa, begins, word) == state {
            return Some(begins);
        }
    }
    None
}

/// The first text that leads over an edge.
fn text_over(
    alloc: Global,
    dfa: &Dfa,
    found: &Found,
    edge: Edge,
    conditions: u8,
) -> Result<Option<ShownText>, AllocError>
    requires conditions { conditions ≡ conditions_of dfa.now }
    requires found { AreFound (lists_of dfa.now) (words_of found.now.groups) found.now.places.items }
    requires edge { IsEdge (lists_of dfa.now) edge }
    ensures { IfOk result (IsTextOver (lists_of dfa.now) edge.state edge.target) }
{
    let Some(place) = first_place(&found.places, edge.state) else {
        return Ok(None);
    };
    let word = found.groups.word(place);
    let Some(start) = first_start(dfa, word, edge.state, conditions) else {
        return Ok(None);
    };
    let mut text = Vec::from_slice(alloc, word)?;
    text.push(edge.byte)?;
    Ok(Some(ShownText {
        condition: start.condition,
        line_start: start.line_start,
        text,
    }))
}

/// The edges that no match goes through.
pub(crate) fn unwalked(alloc: Global, edges: &[Edge]) -> Result<Vec<Edge>, AllocError>
    ensures { IfOk result (λ v. v.items ≡ unwalked edges.now) }
{
    let mut unwalked = Vec::new(alloc);
    for edge in edges {
        add_unwalked(&mut unwalked, *edge)?;
    }
    Ok(unwalked)
}

/// Appends an edge, if no match goes through it.
fn add_unwalked(edges: &mut Vec<Edge>, edge: Edge) -> Result<(), AllocError>
    ensures { OnOk result (edges.new.items ≡ edges.old.items ++ unwalked (edge ∷ [])) }
{
    if edge.part.walked {
        return Ok(());
    }
    edges.push(edge)?;
    Ok(())
}

/// The first texts that lead over edges.
pub(crate) fn texts_of(
    alloc: Global,
    dfa: &Dfa,
    edges: &[Edge],
    conditions: u8,
) -> Result<Vec<Missed>, AllocError>
    requires conditions { conditions ≡ conditions_of dfa.now }
    requires edges { (e : EdgeModel) → Among edges.now e → IsEdge (lists_of dfa.now) e }
    ensures { IfOk result (λ v. AreTexts (lists_of dfa.now) edges.now v.items) }
{
    let found = first_words(alloc, dfa)?;
    let mut texts = Vec::new(alloc);
    for edge in edges {
        let text = text_over(alloc, dfa, &found, *edge, conditions)?;
        texts.push(Missed { edge: *edge, text })?;
    }
    Ok(texts)
}
