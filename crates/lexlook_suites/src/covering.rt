//! What is told of the matches of an input: how much they go through, and what they do not.
ghost use Rattle.std.specs.Prelude.{◌≡◌, length, map, take, IfOk};
ghost use Rattle.lexauto_dfa.specs.Automata.{conditions_of, lists_of, states_of};
ghost use Rattle.lexlook_suites.specs.CoverLines.{HasName, cover_lines};
ghost use Rattle.lexlook_suites.specs.Covers.{IsCoverOf, line_limit};
ghost use Rattle.lexlook_suites.specs.Marking.{IsSized};

use crate::edges::{Edge, Part, edges_of, parts_of, state_parts};
use crate::lines::{add_all_missed, add_more, add_shares};
use crate::marks::Marks;
use crate::texts::{Missed, texts_of, unwalked};
use lexauto_dfa::Dfa;
use std::alloc::{AllocError, Global};

/// So many edges at most are told with a text.
pub(crate) const LINE_LIMIT: usize = 1_000;

/// What matches go through: all states and edges, and the first of the edges that none goes through.
#[derive(Drop)]
pub struct Cover {
    pub states: Vec<Part>,
    pub edges: Vec<Part>,
    /// The first 1,000 edges that no match goes through.
    pub missed: Vec<Missed>,
    /// How many more there are.
    pub more: usize,
}

/// The first of these edges that are told.
pub(crate) fn told_of(edges: &[Edge]) -> &[Edge]
    ensures { result.now ≡ take line_limit edges.now }
{
    if edges.len() <= LINE_LIMIT {
        return edges;
    }
    &edges[..LINE_LIMIT]
}

/// What matches go through, by the marks of an automaton with so many rules and conditions.
pub(crate) fn cover_of(
    alloc: Global,
    dfa: &Dfa,
    marks: &Marks,
    rules: u32,
    conditions: u8,
) -> Result<Cover, AllocError>
    requires size { IsSized (states_of dfa.now) marks.now }
    requires conditions { conditions ≡ conditions_of dfa.now }
    ensures { IfOk result (IsCoverOf (lists_of dfa.now) marks.now rules) }
{
    let states = state_parts(alloc, dfa, marks, rules)?;
    let all = edges_of(alloc, dfa, marks, rules)?;
    let edges = parts_of(alloc, &all)?;
    let left = unwalked(alloc, &all)?;
    let told = told_of(&left);
    let missed = texts_of(alloc, dfa, told, conditions)?;
    Ok(Cover {
        states,
        edges,
        missed,
        more: left.len().saturating_sub(LINE_LIMIT),
    })
}

/// The lines of what matches go through, of rules at these lines of the file and of conditions of these names.
pub(crate) fn cover_lines(
    alloc: Global,
    names: &[&[u8]],
    lines: &[u32],
    rules: u32,
    cover: &Cover,
) -> Result<Vec<u8>, AllocError>
    requires rules { rules ≡ length lines.now }
    requires names { HasName (length names.now) cover.now.missed.items }
    ensures { IfOk result (λ text. text.items ≡ cover_lines (map (λ n. n.now) names.now) lines.now rules cover.now) }
{
    let mut text = Vec::new(alloc);
    add_shares(&mut text, lines, rules, &cover.states, &cover.edges)?;
    add_all_missed(&mut text, names, &cover.missed)?;
    add_more(&mut text, cover.more)?;
    Ok(text)
}
