//! The states and the edges of an automaton: of which rule each is, and whether a match goes through it.
ghost use Rattle.std.specs.Prelude.{◌≡◌, ◌<◌, ◌≤◌, ◌++◌, map, IfOk, OnOk};
ghost use Rattle.lexauto_dfa.specs.Automata.{lists_of, next_of, states_of};
ghost use Rattle.lexlook_suites.specs.Edges.{all_edges, marked_edge, edges_from, goes_to, rule_at, state_parts};
ghost use Rattle.lexlook_suites.specs.Edges.{marked_by};
ghost use Rattle.lexlook_suites.specs.Marking.{IsSized};
ghost use Rattle.lexlook_specs.specs.Pictures.{leads_below};

use crate::marks::Marks;
use lexauto_dfa::Dfa;
use std::alloc::{AllocError, Global};

/// Of which rule a state or an edge is, and whether a match goes through it.
#[derive(Clone, Copy)]
pub struct Part {
    /// The rule that matches there: the first that the state accepts. The number of rules, if it accepts none.
    pub rule: u32,
    pub walked: bool,
}

/// The bytes by which a state leads to another one.
#[derive(Clone, Copy)]
pub struct Edge {
    pub state: u32,
    /// The first of the bytes.
    pub byte: u8,
    pub target: u32,
    /// Of the rule that matches at the target.
    pub part: Part,
}

/// The rule that matches at a state, of so many.
pub(crate) fn rule_at(dfa: &Dfa, rules: u32, state: u32) -> u32
    requires { state < states_of dfa.now }
    ensures { result ≡ rule_at (lists_of dfa.now) rules state }
{
    match dfa.accepts(state).first() {
        Some(rule) => *rule,
        None => rules,
    }
}

/// Whether a byte before this one leads to the target.
#[tactic(auto, using(crate::proofs::Edged::leads_more))]
fn leads_before(dfa: &Dfa, state: u32, byte: u32, target: u32) -> bool
    requires known { state < states_of dfa.now }
    requires byte { byte ≤ 256 }
    ensures { result ≡ leads_below (next_of dfa.now state) target byte }
{
    for earlier in 0..byte {
        if dfa.next(state, earlier as u8) == target {
            return true;
        }
    }
    false
}

/// Whether a match goes to the target by some byte.
#[tactic(auto, using(crate::proofs::Edged::goes_more))]
pub(crate) fn is_walked(dfa: &Dfa, marks: &Marks, state: u32, target: u32) -> bool
    requires known { state < states_of dfa.now }
    requires size { IsSized (states_of dfa.now) marks.now }
    ensures { result ≡ goes_to (marked_by marks.now state) (next_of dfa.now state) target }
{
    for byte in 0..256u32 {
        let marked = marks.bytes[256 * state as usize + byte as usize];
        if marked && dfa.next(state, byte as u8) == target {
            return true;
        }
    }
    false
}

/// Appends the edge that stands at a byte, if there is one.
fn add_edge_at(
    edges: &mut Vec<Edge>,
    dfa: &Dfa,
    marks: &Marks,
    rules: u32,
    state: u32,
    byte: u32,
) -> Result<(), AllocError>
    requires known { state < states_of dfa.now }
    requires size { IsSized (states_of dfa.now) marks.now }
    requires byte { byte < 256 }
    ensures { OnOk result (edges.new.items
        ≡ edges.old.items ++ marked_edge (lists_of dfa.now) marks.now rules state byte) }
{
    let target = dfa.next(state, byte as u8);
    if target == 0 || leads_before(dfa, state, byte, target) {
        return Ok(());
    }
    edges.push(Edge {
        state,
        byte: byte as u8,
        target,
        part: Part {
            rule: rule_at(dfa, rules, target),
            walked: is_walked(dfa, marks, state, target),
        },
    })?;
    Ok(())
}

/// Appends the edges of a state.
fn add_edges(
    edges: &mut Vec<Edge>,
    dfa: &Dfa,
    marks: &Marks,
    rules: u32,
    state: u32,
) -> Result<(), AllocError>
    requires known { state < states_of dfa.now }
    requires size { IsSized (states_of dfa.now) marks.now }
    ensures { OnOk result (edges.new.items ≡ edges.old.items ++ edges_from (lists_of dfa.now) marks.now rules state) }
{
    for byte in 0..256u32 {
        add_edge_at(edges, dfa, marks, rules, state, byte)?;
    }
    Ok(())
}

/// All edges, by their states and then by their bytes.
pub(crate) fn edges_of(
    alloc: Global,
    dfa: &Dfa,
    marks: &Marks,
    rules: u32,
) -> Result<Vec<Edge>, AllocError>
    requires size { IsSized (states_of dfa.now) marks.now }
    ensures { IfOk result (λ edges. edges.items ≡ all_edges (lists_of dfa.now) marks.now rules) }
{
    let mut edges = Vec::new(alloc);
    for state in 1..dfa.len() {
        add_edges(&mut edges, dfa, marks, rules, state)?;
    }
    Ok(edges)
}

/// All states but the dead one.
pub(crate) fn state_parts(
    alloc: Global,
    dfa: &Dfa,
    marks: &Marks,
    rules: u32,
) -> Result<Vec<Part>, AllocError>
    requires size { IsSized (states_of dfa.now) marks.now }
    ensures { IfOk result (λ parts. parts.items ≡ state_parts (lists_of dfa.now) marks.now rules) }
{
    let mut parts = Vec::new(alloc);
    for state in 1..dfa.len() {
        parts.push(Part {
            rule: rule_at(dfa, rules, state),
            walked: marks.states[state as usize],
        })?;
    }
    Ok(parts)
}

/// What is known of edges, without where they are.
pub(crate) fn parts_of(alloc: Global, edges: &[Edge]) -> Result<Vec<Part>, AllocError>
    ensures { IfOk result (λ parts. parts.items ≡ map (λ e. e.part) edges.now) }
{
    let mut parts = Vec::new(alloc);
    for edge in edges {
        parts.push(edge.part)?;
    }
    Ok(parts)
}
