//! By which rules the texts of one are taken that cannot be matched, with the first of these texts.
ghost use Rattle.std.specs.Prelude.{◌≡◌, ◌≤◌, ◌++◌, Some, IfOk, OnOk, codes, flat_map, length, map, option_map};
ghost use Rattle.lex_semantics.specs.Limits.{max_positions, max_states};
ghost use Rattle.lexspec.specs.Views.{spec_of};
ghost use Rattle.lexlook_specs.specs.Matches.{matches_of};
ghost use Rattle.lexlook_specs.specs.Rejecting.{rejecting};
ghost use Rattle.lexlook_specs.specs.Words.{AreWords};
ghost use Rattle.lexlook_check.specs.Checks.{AreTakingsIn, AreTakingsOf};
ghost use Rattle.lexlook_check.specs.Places.{file_line_words};
ghost use Rattle.lexlook_check.specs.Takings.{numbered_line, taken_words, taking_at, taking_for, taking_of, takings_at, takings_of, text_byte};

use crate::findings::{Finding, What};
use crate::lines::add_place;
use crate::places::SourceFile;
use lexauto::{Limits, build};
use lexkit::{Options, lines_of, read_text};
use lexlook_specs::{Word, Words, add, find_words, rejecting, rejects_of};
use lexspec::Spec;
use std::alloc::{AllocError, Global};

/// By which rules the texts of one are taken that takes none.
#[derive(Drop)]
pub struct Taking {
    /// The line of the rule, from 1.
    pub line: u32,
    /// The lines of those that take its texts.
    pub by: Vec<u32>,
    /// The first text that fits it.
    pub text: Vec<u8>,
}

/// What texts the rules take, and which fit them.
#[derive(Drop)]
struct Seen {
    /// The first text that each rule takes.
    taken: Words,
    /// The first text that fits each rule.
    fits: Words,
}

/// The line of a rule.
fn numbered_line(lines: &[u32], rule: usize) -> u32
    ensures { result ≡ numbered_line lines.now rule }
{
    match lines.get(rule) {
        None => 0,
        Some(line) => *line,
    }
}

/// The lines of rules.
fn rule_lines(alloc: Global, lines: &[u32], rules: &[u32]) -> Result<Vec<u32>, AllocError>
    ensures { IfOk result (λ found. found.items ≡ map (numbered_line lines.now) rules.now) }
{
    let mut found = Vec::new(alloc);
    for rule in rules {
        found.push(numbered_line(lines, *rule as usize))?;
    }
    Ok(found)
}

/// Appends what is told of a rule, where it takes no text, and one fits it.
fn add_taking(
    alloc: Global,
    takings: &mut Vec<Taking>,
    lines: &[u32],
    rule: usize,
    taken: &Word,
    fits: &Word,
) -> Result<(), AllocError>
    ensures { OnOk result (map taking_of takings.new.items
        ≡ map taking_of takings.old.items ++ takings_at lines.now rule (Some taken.now) (Some fits.now)) }
{
    match taken {
        Word::Taken(_) => Ok(()),
        Word::Never(rules) => match fits {
            Word::Never(_) => Ok(()),
            Word::Taken(place) => {
                let by = rule_lines(alloc, lines, rules.as_slice())?;
                let text = Vec::from_slice(alloc, place.text.as_slice())?;
                let line = numbered_line(lines, rule);
                takings.push(Taking { line, by, text })?;
                Ok(())
            }
        },
    }
}

/// What is told of the rules with these lines.
fn takings_of(alloc: Global, lines: &[u32], seen: &Seen) -> Result<Vec<Taking>, AllocError>
    requires taken { length seen.now.taken.rules.items ≡ length lines.now }
    requires fits { length seen.now.fits.rules.items ≡ length lines.now }
    ensures { IfOk result (λ takings. map taking_of takings.items
        ≡ takings_of lines.now seen.now.taken.rules.items seen.now.fits.rules.items) }
{
    let mut takings = Vec::new(alloc);
    for rule in 0..lines.len() {
        let taken = &seen.taken.rules[rule];
        let fits = &seen.fits.rules[rule];
        add_taking(alloc, &mut takings, lines, rule, taken, fits)?;
    }
    Ok(takings)
}

/// What texts the rules of a specification take, and which fit them.
fn seen_by(alloc: Global, spec: Spec, limits: Limits) -> Result<Seen, AllocError>
    requires few_positions { limits.positions ≤ max_positions }
    requires few_states { limits.states ≤ max_states }
    ensures taken { IfOk result (λ seen. AreWords (matches_of (spec_of spec)) seen.taken) }
    ensures fits { IfOk result (λ seen. AreWords (matches_of (rejecting (spec_of spec))) seen.fits) }
{
    let some = rejects_of(alloc, &spec)?;
    let spec = rejecting(alloc, spec)?;
    let all = rejects_of(alloc, &spec)?;
    match build(alloc, &spec, limits) {
        Err(_) => Err(AllocError),
        Ok(automaton) => {
            let taken = find_words(alloc, &automaton, some.as_slice())?;
            let fits = find_words(alloc, &automaton, all.as_slice())?;
            Ok(Seen { taken, fits })
        }
    }
}

/// What is told of the rules of a specification.
fn takings_by(alloc: Global, spec: Spec, limits: Limits) -> Result<Vec<Taking>, AllocError>
    requires few_positions { limits.positions ≤ max_positions }
    requires few_states { limits.states ≤ max_states }
    ensures { IfOk result (λ takings. AreTakingsIn (spec_of spec) (map taking_of takings.items)) }
{
    let lines = lines_of(alloc, spec.rules())?;
    let seen = seen_by(alloc, spec, limits)?;
    takings_of(alloc, lines.as_slice(), &seen)
}

/// What is told of the rules of the specification that a text spells, where that is asked for.
pub(crate) fn takings_in(
    alloc: Global,
    asked: bool,
    text: &[u8],
    options: Options,
) -> Result<Vec<Taking>, AllocError>
    requires few_positions { options.limits.positions ≤ max_positions }
    requires few_states { options.limits.states ≤ max_states }
    ensures { IfOk result (λ takings. AreTakingsOf options text.now asked (map taking_of takings.items)) }
{
    if !asked {
        return Ok(Vec::new(alloc));
    }
    match read_text(alloc, text, options) {
        Err(_) => Err(AllocError),
        Ok(spec) => takings_by(alloc, spec, options.limits),
    }
}

/// What is told of the rule at this line.
fn taking_at(takings: &[Taking], line: u32) -> Option<&Taking>
    ensures { option_map (λ taking. taking_of taking.now) result ≡ taking_at (map taking_of takings.now) line }
{
    for taking in takings {
        if taking.line == line {
            return Some(taking);
        }
    }
    None
}

/// What is told of the rule that is warned of.
pub(crate) fn taking_for(takings: &[Taking], finding: Finding) -> Option<&Taking>
    ensures { option_map (λ taking. taking_of taking.now) result ≡ taking_for (map taking_of takings.now) finding }
{
    match finding.what {
        What::Warned(false) => taking_at(takings, finding.line),
        _ => None,
    }
}

/// Appends a byte of a text: by a backslash and octal digits, where it is not shown as it is.
fn add_text_byte(text: &mut Vec<u8>, byte: u8) -> Result<(), AllocError>
    ensures { OnOk result (text.new.items ≡ text.old.items ++ text_byte byte) }
{
    if byte >= 32 && byte < 127 {
        return add(text, &[byte]);
    }
    add(
        text,
        &[
            b'\\',
            b'0' + byte / 64,
            b'0' + byte / 8 % 8,
            b'0' + byte % 8,
        ],
    )
}

/// Appends the bytes of a text.
fn add_text(text: &mut Vec<u8>, bytes: &[u8]) -> Result<(), AllocError>
    ensures { OnOk result (text.new.items ≡ text.old.items ++ flat_map text_byte bytes.now) }
{
    for byte in bytes {
        add_text_byte(text, *byte)?;
    }
    Ok(())
}

/// Appends lines, each in its file.
fn add_places(text: &mut Vec<u8>, files: &[SourceFile<'_>], lines: &[u32]) -> Result<(), AllocError>
    ensures { OnOk result (text.new.items
        ≡ text.old.items ++ flat_map (λ n. codes " " ++ file_line_words files.now n) lines.now) }
{
    for line in lines {
        add(text, b" ")?;
        add_place(text, files, *line)?;
    }
    Ok(())
}

/// Appends by which rules the texts of one are taken.
pub(crate) fn add_taken(
    text: &mut Vec<u8>,
    files: &[SourceFile<'_>],
    taking: &Taking,
) -> Result<(), AllocError>
    ensures { OnOk result (text.new.items ≡ text.old.items ++ taken_words files.now (taking_of taking.now)) }
{
    add(text, b"its texts are taken at")?;
    add_places(text, files, taking.by.as_slice())?;
    add(text, b", as `")?;
    add_text(text, taking.text.as_slice())?;
    add(text, b"`")
}
