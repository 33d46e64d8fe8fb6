//! The texts that the rules of a specification take.
ghost use Rattle.std.specs.Prelude.{◌≡◌, ◌≤◌, ◌<◌, ◌+◌, ◌-◌, ◌^◌, ◌++◌, List, ℕ};
ghost use Rattle.std.specs.Prelude.{[], length, map, Some, None, IfOk, IfErr, OnOk};
ghost use Rattle.std.specs.Prelude.{slice_get, slice_index_or};
ghost use Rattle.std.specs.List.{flat_map};
ghost use Rattle.lex_io.specs.Sink.{Appended};
ghost use Rattle.lex_semantics.specs.Limits.{max_positions, max_states};
ghost use Rattle.lex_semantics.specs.Text.{Among};
ghost use Rattle.lexspec.specs.Views.{conditions_in, rules_in, spec_of};
ghost use Rattle.lexkit.specs.Generated.{SpecRefusal, lines_of};
ghost use Rattle.lexlook_specs.specs.Rejecting.{rejecting};
ghost use Rattle.lexlook_calls.specs.Errors.{look_fault_count};
ghost use Rattle.lexlook_calls.specs.Looks.{names_of};
ghost use Rattle.lexlook_calls.specs.Words.{AreLabelled, AreWordsOf, HasLabel, HasLabels, TellsWords};
ghost use Rattle.lexlook_calls.specs.Words.{default_line, lines_of_default, never_words, lines_of_rules, shown_place, word_line, word_lines};

use crate::error::LookError;
use crate::labels::{add_line, add_start, names_of};
use lexauto::build;
use lexkit::{GenError, Limits, Options, Sink, lines_of, read_text};
use lexlook_specs::{ShownText, Word, Words, add, add_string, find_words, rejecting, rejects_of};
use lexspec::Spec;
use std::alloc::{AllocError, Global};

/// What was found, and a specification with the same names and lines.
#[derive(Drop)]
struct Found {
    spec: Spec,
    words: Words,
}

/// The name of a condition.
fn name_of<'a>(names: &[&'a [u8]], condition: u8) -> &'a [u8]
    requires { condition < length names.now }
    ensures { result.now ≡ slice_index_or (map (λ n. n.now) names.now) condition [] }
{
    names[condition as usize]
}

/// Appends a text and where a match of it starts.
fn add_place(text: &mut Vec<u8>, names: &[&[u8]], place: &ShownText) -> Result<(), AllocError>
    requires { place.now.condition < length names.now }
    ensures { OnOk result (text.new.items ≡ text.old.items ++ shown_place (map (λ n. n.now) names.now) place.now) }
{
    add(text, b": \"")?;
    add_string(text, place.text.as_slice())?;
    add(text, b"\" in ")?;
    add(text, name_of(names, place.condition))?;
    add_start(text, place.line_start)?;
    add(text, b"\n")
}

/// Appends why a rule takes no text: by which rules its texts are taken, if any fits it.
fn add_takers(text: &mut Vec<u8>, lines: &[u32], rules: &[u32]) -> Result<(), AllocError>
    requires { (i : ℕ) → Among rules.now i → i < length lines.now }
    ensures { OnOk result (text.new.items ≡ text.old.items ++ never_words lines.now rules.now) }
{
    if rules.is_empty() {
        return add(text, b": rule cannot be matched, no text fits it\n");
    }
    add(text, b": rule cannot be matched, its texts are taken at")?;
    for rule in rules {
        add_line(text, lines, *rule as usize)?;
    }
    add(text, b"\n")?;
    Ok(())
}

/// Appends the line of a rule.
fn add_word(
    text: &mut Vec<u8>,
    names: &[&[u8]],
    lines: &[u32],
    rule: usize,
    word: &Word,
) -> Result<(), AllocError>
    requires rule { rule < length lines.now }
    requires labels { HasLabels (map (λ n. n.now) names.now) lines.now word.now }
    ensures { OnOk result (text.new.items
        ≡ text.old.items ++ word_line (map (λ n. n.now) names.now) lines.now rule (Some word.now)) }
{
    add(text, b"at")?;
    add_line(text, lines, rule)?;
    match word {
        Word::Taken(place) => add_place(text, names, place),
        Word::Never(rules) => add_takers(text, lines, rules.as_slice()),
    }
}

/// Appends the line of the default rule in a condition.
fn add_default(
    text: &mut Vec<u8>,
    names: &[&[u8]],
    condition: usize,
    place: &Option<ShownText>,
) -> Result<(), AllocError>
    requires condition { condition < length names.now }
    requires label { HasLabel (map (λ n. n.now) names.now) place.now }
    ensures { OnOk result (text.new.items
        ≡ text.old.items ++ default_line (map (λ n. n.now) names.now) condition (Some place.now)) }
{
    match place {
        None => {
            add(text, b"default rule cannot be matched in ")?;
            add(text, names[condition])?;
            add(text, b"\n")
        }
        Some(place) => {
            add(text, b"default rule")?;
            add_place(text, names, place)
        }
    }
}

/// Appends a line for each rule.
fn add_rules(
    text: &mut Vec<u8>,
    names: &[&[u8]],
    lines: &[u32],
    words: &Words,
) -> Result<(), AllocError>
    requires { AreLabelled (map (λ n. n.now) names.now) lines.now words.now }
    ensures { OnOk result (text.new.items
        ≡ text.old.items ++ lines_of_rules (map (λ n. n.now) names.now) lines.now words.now.rules.items) }
{
    for rule in 0..words.rules.len() {
        add_word(text, names, lines, rule, &words.rules[rule])?;
    }
    Ok(())
}

/// Appends a line of the default rule for each condition.
fn add_defaults(text: &mut Vec<u8>, names: &[&[u8]], words: &Words) -> Result<(), AllocError>
    requires { (lines : List ℕ) × AreLabelled (map (λ n. n.now) names.now) lines words.now }
    ensures { OnOk result (text.new.items
        ≡ text.old.items ++ lines_of_default (map (λ n. n.now) names.now) words.now.defaults.items) }
{
    for condition in 0..words.defaults.len() {
        add_default(text, names, condition, &words.defaults[condition])?;
    }
    Ok(())
}

/// The lines of what was found.
fn word_lines(
    alloc: Global,
    names: &[&[u8]],
    lines: &[u32],
    words: &Words,
) -> Result<Vec<u8>, AllocError>
    requires { AreLabelled (map (λ n. n.now) names.now) lines.now words.now }
    ensures { IfOk result (λ text. text.items ≡ word_lines (map (λ n. n.now) names.now) lines.now words.now) }
{
    let mut text = Vec::new(alloc);
    add_rules(&mut text, names, lines, words)?;
    add_defaults(&mut text, names, words)?;
    Ok(text)
}

/// The lines of what was found, with the names and lines of a specification.
fn found_lines(alloc: Global, found: &Found) -> Result<Vec<u8>, AllocError>
    requires { AreLabelled (names_of (conditions_in (spec_of found.now.spec)))
        (lines_of (rules_in (spec_of found.now.spec))) found.now.words }
    ensures { IfOk result (λ text. text.items ≡ word_lines (names_of (conditions_in (spec_of found.now.spec)))
        (lines_of (rules_in (spec_of found.now.spec))) found.now.words) }
{
    let names = names_of(alloc, found.spec.conditions())?;
    let lines = lines_of(alloc, found.spec.rules())?;
    word_lines(alloc, &names, &lines, &found.words)
}

/// The texts that the rules of a specification take.
fn words_of(alloc: Global, spec: Spec, limits: Limits) -> Result<Found, GenError>
    requires few_positions { limits.positions ≤ max_positions }
    requires few_states { limits.states ≤ max_states }
    ensures same { IfOk result (λ f. spec_of f.spec ≡ rejecting (spec_of spec)) }
    ensures words { IfOk result (λ f. AreWordsOf limits (spec_of spec) f.words) }
    ensures refused { IfErr result (SpecRefusal limits (spec_of spec)) }
{
    let rejects = match rejects_of(alloc, &spec) {
        Err(_) => return Err(GenError::OutOfMemory),
        Ok(rejects) => rejects,
    };
    let spec = match rejecting(alloc, spec) {
        Err(_) => return Err(GenError::OutOfMemory),
        Ok(spec) => spec,
    };
    let automaton = match build(alloc, &spec, limits) {
        Err(error) => return Err(GenError::Build(error)),
        Ok(automaton) => automaton,
    };
    match find_words(alloc, &automaton, &rejects) {
        Err(_) => Err(GenError::OutOfMemory),
        Ok(words) => Ok(Found { spec, words }),
    }
}

/// Writes for each rule of the specification that a text spells a line with the first of the shortest texts that it
/// takes, or with the rules that take its texts; and a line of the default rule for each condition. A text that spells no
/// specification, or one whose automaton passes the limits, is refused, and then nothing is written.
pub fn tell_words<K: Sink>(
    alloc: Global,
    text: &[u8],
    options: Options,
    sink: &mut K,
) -> Result<(), LookError>
    requires few_positions { options.limits.positions ≤ max_positions }
    requires few_states { options.limits.states ≤ max_states }
    requires few { K.failures sink.old < 2 ^ 64 - 1 }
    ensures told { TellsWords K.wrote options text.now sink.old sink.new result }
    ensures failures { K.failures sink.new ≡ K.failures sink.old + look_fault_count result }
{
    let spec = read_text(alloc, text, options)?;
    let found = words_of(alloc, spec, options.limits)?;
    let lines = match found_lines(alloc, &found) {
        Err(_) => return Err(LookError::OutOfMemory),
        Ok(lines) => lines,
    };
    match sink.put(lines.as_slice()) {
        Err(_) => Err(LookError::Write),
        Ok(()) => Ok(()),
    }
}
