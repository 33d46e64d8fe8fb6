//! The pairs of rules of a specification that fit one text with the same length.
ghost use Rattle.std.specs.Prelude.{◌≡◌, ◌≤◌, ◌<◌, ◌+◌, ◌-◌, ◌^◌, ◌++◌};
ghost use Rattle.std.specs.Prelude.{length, map, Some, IfOk, IfErr, OnOk, slice_index_or, []};
ghost use Rattle.std.specs.List.{flat_map};
ghost use Rattle.lex_semantics.specs.Limits.{max_positions, max_states};
ghost use Rattle.lexspec.specs.Views.{conditions_in, rules_in, spec_of};
ghost use Rattle.lexkit.specs.Generated.{SpecRefusal, lines_of};
ghost use Rattle.lexlook_specs.specs.Rejecting.{rejecting};
ghost use Rattle.lexlook_calls.specs.Errors.{look_fault_count};
ghost use Rattle.lexlook_calls.specs.Looks.{names_of};
ghost use Rattle.lexlook_calls.specs.Overlaps.{AreOverlapsOf, ArePairLabels, HasPairLabels, TellsOverlaps};
ghost use Rattle.lexlook_calls.specs.Overlaps.{in_condition, in_conditions, limit_words, max_pairs, overlap_line};
ghost use Rattle.lexlook_calls.specs.Overlaps.{overlap_lines, pair_words, reject_words, shared_words, winner_words};

use crate::error::LookError;
use crate::labels::{add_line, add_start, names_of};
use lexauto::build;
use lexkit::{GenError, Limits, Options, Sink, lines_of, read_text};
use lexlook_specs::{Home, Overlap, add, add_string, find_overlaps, rejecting, rejects_of};
use lexspec::Spec;
use std::alloc::{AllocError, Global};

/// How many pairs are told at most.
const MAX_PAIRS: usize = 10_000;

/// What was found, and a specification with the same names and lines.
#[derive(Drop)]
struct Found {
    spec: Spec,
    overlaps: Vec<Overlap>,
}

/// Appends a condition, if two rules share a text there.
fn add_home(text: &mut Vec<u8>, name: &[u8], home: Home) -> Result<(), AllocError>
    ensures { OnOk result (text.new.items ≡ text.old.items ++ in_condition name.now home) }
{
    let line_start = match home {
        Home::Nowhere => return Ok(()),
        Home::AtLineStart => true,
        Home::Anywhere => false,
    };
    add(text, b", in ")?;
    add(text, name)?;
    add_start(text, line_start)
}

/// Appends the conditions in which two rules share a text.
fn add_homes(text: &mut Vec<u8>, names: &[&[u8]], homes: &[Home]) -> Result<(), AllocError>
    requires { length homes.now ≡ length names.now }
    ensures { OnOk result (text.new.items
        ≡ text.old.items ++ in_conditions (map (λ n. n.now) names.now) homes.now) }
{
    for condition in 0..homes.len() {
        add_home(text, names[condition], homes[condition])?;
    }
    Ok(())
}

/// Appends at which lines two rules are.
fn add_pair(
    text: &mut Vec<u8>,
    lines: &[u32],
    first: usize,
    second: usize,
) -> Result<(), AllocError>
    requires first { first < length lines.now }
    requires second { second < length lines.now }
    ensures { OnOk result (text.new.items ≡ text.old.items ++ pair_words lines.now first second) }
{
    add(text, b"at")?;
    add_line(text, lines, first)?;
    add(text, b" and")?;
    add_line(text, lines, second)
}

/// Appends the text that two rules share, and where they do.
fn add_shared(text: &mut Vec<u8>, names: &[&[u8]], overlap: &Overlap) -> Result<(), AllocError>
    requires { length overlap.now.homes.items ≡ length names.now }
    ensures { OnOk result (text.new.items
        ≡ text.old.items ++ shared_words (map (λ n. n.now) names.now) overlap.now) }
{
    add(text, b": \"")?;
    add_string(text, overlap.text.as_slice())?;
    add(text, b"\"")?;
    add_homes(text, names, overlap.homes.as_slice())
}

/// Appends that a rule wins, and whether its action has REJECT.
fn add_reject(text: &mut Vec<u8>, gives_up: bool) -> Result<(), AllocError>
    ensures { OnOk result (text.new.items ≡ text.old.items ++ reject_words gives_up) }
{
    if gives_up {
        return add(text, b" wins, with REJECT\n");
    }
    add(text, b" wins\n")
}

/// Appends which of two rules wins.
fn add_winner(text: &mut Vec<u8>, lines: &[u32], overlap: &Overlap) -> Result<(), AllocError>
    requires { overlap.now.first < length lines.now }
    ensures { OnOk result (text.new.items ≡ text.old.items ++ winner_words lines.now overlap.now) }
{
    add(text, b";")?;
    add_line(text, lines, overlap.first as usize)?;
    add_reject(text, overlap.gives_up)
}

/// Appends the line of a pair.
fn add_overlap(
    text: &mut Vec<u8>,
    names: &[&[u8]],
    lines: &[u32],
    overlap: &Overlap,
) -> Result<(), AllocError>
    requires { HasPairLabels (map (λ n. n.now) names.now) lines.now overlap.now }
    ensures { OnOk result (text.new.items
        ≡ text.old.items ++ overlap_line (map (λ n. n.now) names.now) lines.now overlap.now) }
{
    add_pair(text, lines, overlap.first as usize, overlap.second as usize)?;
    add_shared(text, names, overlap)?;
    add_winner(text, lines, overlap)
}

/// Appends a line for each pair.
fn add_overlaps(
    text: &mut Vec<u8>,
    names: &[&[u8]],
    lines: &[u32],
    overlaps: &[Overlap],
) -> Result<(), AllocError>
    requires { ArePairLabels (map (λ n. n.now) names.now) lines.now overlaps.now }
    ensures { OnOk result (text.new.items
        ≡ text.old.items ++ flat_map (overlap_line (map (λ n. n.now) names.now) lines.now) overlaps.now) }
{
    for overlap in overlaps {
        add_overlap(text, names, lines, overlap)?;
    }
    Ok(())
}

/// The lines of what was found.
fn overlap_lines(
    alloc: Global,
    names: &[&[u8]],
    lines: &[u32],
    overlaps: &[Overlap],
) -> Result<Vec<u8>, AllocError>
    requires { ArePairLabels (map (λ n. n.now) names.now) lines.now overlaps.now }
    ensures { IfOk result (λ text. text.items
        ≡ overlap_lines (map (λ n. n.now) names.now) lines.now overlaps.now) }
{
    let mut text = Vec::new(alloc);
    add_overlaps(&mut text, names, lines, overlaps)?;
    if overlaps.len() >= MAX_PAIRS {
        add(&mut text, b"no more than 10000 pairs are told\n")?;
    }
    Ok(text)
}

/// The lines of what was found, with the names and lines of a specification.
fn found_lines(alloc: Global, found: &Found) -> Result<Vec<u8>, AllocError>
    requires { ArePairLabels (names_of (conditions_in (spec_of found.now.spec)))
        (lines_of (rules_in (spec_of found.now.spec))) found.now.overlaps.items }
    ensures { IfOk result (λ text. text.items ≡ overlap_lines (names_of (conditions_in (spec_of found.now.spec)))
        (lines_of (rules_in (spec_of found.now.spec))) found.now.overlaps.items) }
{
    let names = names_of(alloc, found.spec.conditions())?;
    let lines = lines_of(alloc, found.spec.rules())?;
    overlap_lines(alloc, &names, &lines, &found.overlaps)
}

/// The pairs of rules of a specification that share a text.
fn overlaps_of(alloc: Global, spec: Spec, limits: Limits) -> Result<Found, GenError>
    requires few_positions { limits.positions ≤ max_positions }
    requires few_states { limits.states ≤ max_states }
    ensures same { IfOk result (λ f. spec_of f.spec ≡ rejecting (spec_of spec)) }
    ensures overlaps { IfOk result (λ f. AreOverlapsOf limits (spec_of spec) f.overlaps.items) }
    ensures refused { IfErr result (SpecRefusal limits (spec_of spec)) }
{
    let rejects = match rejects_of(alloc, &spec) {
        Err(_) => return Err(GenError::OutOfMemory),
        Ok(rejects) => rejects,
    };
    let spec = match rejecting(alloc, spec) {
        Err(_) => return Err(GenError::OutOfMemory),
        Ok(spec) => spec,
    };
    let automaton = match build(alloc, &spec, limits) {
        Err(error) => return Err(GenError::Build(error)),
        Ok(automaton) => automaton,
    };
    match find_overlaps(alloc, &automaton, &rejects, MAX_PAIRS) {
        Err(_) => Err(GenError::OutOfMemory),
        Ok(overlaps) => Ok(Found { spec, overlaps }),
    }
}

/// Writes a line for each pair of rules of the specification that a text spells of which one text fits both with the same
/// length: the shortest such text, the conditions, and which of them wins. Of two rules the one that stands first wins, and
/// a pair is told if it does so on some text, since no rule before it keeps that. The first 10,000 pairs are told. A text
/// that spells no specification, or one whose automaton passes the limits, is refused, and then nothing is written.
pub fn tell_overlaps<K: Sink>(
    alloc: Global,
    text: &[u8],
    options: Options,
    sink: &mut K,
) -> Result<(), LookError>
    requires few_positions { options.limits.positions ≤ max_positions }
    requires few_states { options.limits.states ≤ max_states }
    requires few { K.failures sink.old < 2 ^ 64 - 1 }
    ensures told { TellsOverlaps K.wrote options text.now sink.old sink.new result }
    ensures failures { K.failures sink.new ≡ K.failures sink.old + look_fault_count result }
{
    let spec = read_text(alloc, text, options)?;
    let found = overlaps_of(alloc, spec, options.limits)?;
    let lines = match found_lines(alloc, &found) {
        Err(_) => return Err(LookError::OutOfMemory),
        Ok(lines) => lines,
    };
    match sink.put(lines.as_slice()) {
        Err(_) => Err(LookError::Write),
        Ok(()) => Ok(()),
    }
}
