//! The picture of an automaton.
ghost use Rattle.std.specs.Prelude.{◌≡◌, ℕ, ◌+◌, ◌-◌, ◌^◌, ◌<◌, ◌++◌, length};
ghost use Rattle.std.specs.Prelude.{map, slice_index, slice_index_or, [], OnOk};
ghost use Rattle.lex_io.specs.Sink.{Appended};
ghost use Rattle.lex_semantics.specs.Text.{Among};
ghost use Rattle.lexauto_dfa.specs.Automata.{accepts_of, conditions_of, next_of, states_of};
ghost use Rattle.lexlook_specs.specs.Faults.{picture_fault_count};
ghost use Rattle.lexlook_specs.specs.Pictures.{all_starts, all_states, picture, starts_of, state_lines};

use crate::picture::edges::add_edges;
use crate::picture::error::PictureError;
use crate::picture::nodes::{add_starts, add_state};
use lex_io::Sink;
use lexauto_dfa::Dfa;
use std::alloc::{AllocError, Global};

/// The targets of a state, by the bytes from 0 to 255.
fn row_of(dfa: &Dfa, state: u32) -> &[u32]
    requires { state < states_of dfa.now }
    ensures len { length result.now ≡ 256 }
    ensures targets { (b : ℕ) → slice_index result.now b ≡ next_of dfa.now state b }
    ensures known { (b : ℕ) → b < 256 → slice_index result.now b < states_of dfa.now }
{
    let first = state as usize * 256;
    &dfa.parts().next[first..first + 256]
}

/// Appends the lines of a state: its own, and those of its edges.
fn add_state_lines(
    text: &mut Vec<u8>,
    drawn: &mut [u32],
    dfa: &Dfa,
    lines: &[u32],
    state: u32,
) -> Result<(), AllocError>
    requires state { state < states_of dfa.now }
    requires room { length drawn.old ≡ states_of dfa.now }
    requires earlier { (t : ℕ) → slice_index drawn.old t < state }
    requires lines { (s i : ℕ) → s < states_of dfa.now → Among (accepts_of dfa.now s) i → i < length lines.now }
    ensures text { OnOk result (text.new.items ≡ text.old.items ++ state_lines dfa.now lines.now state) }
    ensures drawn { OnOk result ((t : ℕ) → slice_index drawn.new t < state + 1) }
{
    add_state(text, state, dfa.accepts(state), lines)?;
    add_edges(text, drawn, state, row_of(dfa, state))
}

/// The name of a condition.
fn name_of<'a>(names: &[&'a [u8]], condition: usize) -> &'a [u8]
    requires { condition < length names.now }
    ensures { result.now ≡ slice_index_or (map (λ n. n.now) names.now) condition [] }
{
    names[condition]
}

/// Appends the starts of a condition.
fn add_condition(
    text: &mut Vec<u8>,
    dfa: &Dfa,
    names: &[&[u8]],
    condition: usize,
) -> Result<(), AllocError>
    requires names { length names.now ≡ conditions_of dfa.now }
    requires condition { condition < length names.now }
    ensures { OnOk result (text.new.items ≡ text.old.items
        ++ starts_of dfa.now (map (λ n. n.now) names.now) condition) }
{
    let state = dfa.start(condition, false);
    let at_line_start = dfa.start(condition, true);
    add_starts(text, name_of(names, condition), state, at_line_start)
}

/// Writes the starts of each condition.
fn write_starts<K: Sink>(
    alloc: Global,
    dfa: &Dfa,
    names: &[&[u8]],
    sink: &mut K,
) -> Result<(), PictureError>
    requires few { K.failures sink.old < 2 ^ 64 - 1 }
    requires names { length names.now ≡ conditions_of dfa.now }
    ensures bytes { Appended (λ xs. K.wrote sink.old xs sink.new)
        (all_starts dfa.now (map (λ n. n.now) names.now)) result }
    ensures failures { K.failures sink.new ≡ K.failures sink.old + picture_fault_count result }
{
    let mut text = Vec::new(alloc);
    for condition in 0..names.len() {
        text.clear();
        add_condition(&mut text, dfa, names, condition)?;
        sink.put(&text)?;
    }
    Ok(())
}

/// Writes the lines of each state but the dead one.
fn write_states<K: Sink>(
    alloc: Global,
    dfa: &Dfa,
    lines: &[u32],
    sink: &mut K,
) -> Result<(), PictureError>
    requires few { K.failures sink.old < 2 ^ 64 - 1 }
    requires lines { (s i : ℕ) → s < states_of dfa.now → Among (accepts_of dfa.now s) i → i < length lines.now }
    ensures bytes { Appended (λ xs. K.wrote sink.old xs sink.new) (all_states dfa.now lines.now) result }
    ensures failures { K.failures sink.new ≡ K.failures sink.old + picture_fault_count result }
{
    let mut table = vec![in alloc; 0u32; dfa.len() as usize]?;
    let drawn = table.as_mut_slice();
    let mut text = Vec::new(alloc);
    for state in 1..dfa.len() {
        text.clear();
        add_state_lines(&mut text, drawn, dfa, lines, state)?;
        sink.put(&text)?;
    }
    Ok(())
}

/// Writes the picture of an automaton in DOT. `names` has the name of each condition, and `lines` the line of each rule
/// in the file. The dead state and the edges to it are left out. After a fault a prefix of the picture was written.
pub fn write_picture<K: Sink>(
    alloc: Global,
    dfa: &Dfa,
    names: &[&[u8]],
    lines: &[u32],
    sink: &mut K,
) -> Result<(), PictureError>
    requires few { K.failures sink.old < 2 ^ 64 - 1 }
    requires names { length names.now ≡ conditions_of dfa.now }
    requires lines { (s i : ℕ) → s < states_of dfa.now → Among (accepts_of dfa.now s) i → i < length lines.now }
    ensures bytes { Appended (λ xs. K.wrote sink.old xs sink.new)
        (picture dfa.now (map (λ n. n.now) names.now) lines.now) result }
    ensures failures { K.failures sink.new ≡ K.failures sink.old + picture_fault_count result }
{
    sink.put(b"digraph lex {\n  rankdir=LR;\n  node [shape=circle];\n")?;
    write_starts(alloc, dfa, names, sink)?;
    write_states(alloc, dfa, lines, sink)?;
    sink.put(b"}\n")?;
    Ok(())
}
