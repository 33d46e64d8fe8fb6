//! The lines that tell what the matches of an input go through.
ghost use Rattle.std.specs.Prelude.{◌≡◌, ◌<◌, ◌++◌, [], decimal, length, map, slice_index_or, IfOk, IfSome, OnOk};
ghost use Rattle.lexlook_suites.specs.Shown.{text_and_start, line_start_words};
ghost use Rattle.lexlook_suites.specs.CoverLines.{HasName, missed_line, missed_lines, more_line, rule_shares};
ghost use Rattle.lexlook_suites.specs.CoverLines.{share_line, share_subject, share_words, shares_lines};

use crate::edges::Part;
use crate::shares::{Share, share_of, share_of_all};
use crate::texts::Missed;
use itoa::Buffer;
use lexlook_specs::{ShownText, add, add_number, add_string};
use std::alloc::AllocError;

/// Of what a line tells how much matches go through.
#[derive(Clone, Copy)]
pub(crate) enum Subject {
    /// Of all states and edges.
    All,
    /// Of those of the rule at this line of the file.
    Line(u32),
    /// Of those where no rule matches.
    NoRule,
}

/// Appends a number, in decimal.
fn add_count(text: &mut Vec<u8>, count: usize) -> Result<(), AllocError>
    ensures { OnOk result (text.new.items ≡ text.old.items ++ decimal count) }
{
    let mut digits = Buffer::new();
    add(text, digits.format(count).as_bytes())
}

/// Appends how many of how many, and of what.
fn add_share(text: &mut Vec<u8>, share: Share, what: &[u8]) -> Result<(), AllocError>
    ensures { OnOk result (text.new.items ≡ text.old.items ++ share_words share what.now) }
{
    add_count(text, share.walked)?;
    add(text, b" of ")?;
    add_count(text, share.all)?;
    add(text, what)
}

/// Appends of what a line tells.
fn add_subject(text: &mut Vec<u8>, subject: Subject) -> Result<(), AllocError>
    ensures { OnOk result (text.new.items ≡ text.old.items ++ share_subject subject) }
{
    match subject {
        Subject::All => add(text, b"all: "),
        Subject::Line(line) => {
            add(text, b"line ")?;
            add_number(text, line)?;
            add(text, b": ")
        }
        Subject::NoRule => add(text, b"no rule: "),
    }
}

/// Appends the line of a subject.
fn add_line(
    text: &mut Vec<u8>,
    subject: Subject,
    states: Share,
    edges: Share,
) -> Result<(), AllocError>
    ensures { OnOk result (text.new.items ≡ text.old.items ++ share_line subject states edges) }
{
    add_subject(text, subject)?;
    add_share(text, states, b" states, ")?;
    add_share(text, edges, b" edges\n")
}

/// Appends a line for each rule, at these lines of the file.
fn add_rules(
    text: &mut Vec<u8>,
    lines: &[u32],
    rules: u32,
    states: &[Part],
    edges: &[Part],
) -> Result<(), AllocError>
    requires { rules ≡ length lines.now }
    ensures { OnOk result (text.new.items ≡ text.old.items ++ rule_shares lines.now rules states.now edges.now) }
{
    for rule in 0..rules {
        let subject = Subject::Line(lines[rule as usize]);
        add_line(text, subject, share_of(states, rule), share_of(edges, rule))?;
    }
    Ok(())
}

/// Appends how much matches go through, in all and by rule.
pub(crate) fn add_shares(
    text: &mut Vec<u8>,
    lines: &[u32],
    rules: u32,
    states: &[Part],
    edges: &[Part],
) -> Result<(), AllocError>
    requires { rules ≡ length lines.now }
    ensures { OnOk result (text.new.items ≡ text.old.items ++ shares_lines lines.now rules states.now edges.now) }
{
    add_line(
        text,
        Subject::All,
        share_of_all(states),
        share_of_all(edges),
    )?;
    add_rules(text, lines, rules, states, edges)?;
    add_line(
        text,
        Subject::NoRule,
        share_of(states, rules),
        share_of(edges, rules),
    )
}

/// Appends whether a match is at the start of a line.
fn add_start(text: &mut Vec<u8>, line_start: bool) -> Result<(), AllocError>
    ensures { OnOk result (text.new.items ≡ text.old.items ++ line_start_words line_start) }
{
    if line_start {
        return add(text, b" at the start of a line");
    }
    add(text, b"")
}

/// The name of a condition.
fn name_of<'a>(names: &[&'a [u8]], condition: u8) -> &'a [u8]
    requires { condition < length names.now }
    ensures { result.now ≡ slice_index_or (map (λ n. n.now) names.now) condition [] }
{
    names[condition as usize]
}

/// Appends a text and where a match of it starts.
fn add_text(text: &mut Vec<u8>, names: &[&[u8]], shown: &ShownText) -> Result<(), AllocError>
    requires { shown.now.condition < length names.now }
    ensures { OnOk result (text.new.items ≡ text.old.items ++ text_and_start (map (λ n. n.now) names.now) shown.now) }
{
    add(text, b": \"")?;
    add_string(text, shown.text.as_slice())?;
    add(text, b"\" in ")?;
    add(text, name_of(names, shown.condition))?;
    add_start(text, shown.line_start)?;
    add(text, b"\n")
}

/// Appends the line of an edge that no match goes through.
fn add_missed(text: &mut Vec<u8>, names: &[&[u8]], missed: &Missed) -> Result<(), AllocError>
    requires { IfSome missed.now.text (λ s. s.condition < length names.now) }
    ensures { OnOk result (text.new.items ≡ text.old.items ++ missed_line (map (λ n. n.now) names.now) missed.now) }
{
    match &missed.text {
        None => add(text, b""),
        Some(shown) => {
            add(text, b"not walked: ")?;
            add_number(text, missed.edge.state)?;
            add(text, b" -> ")?;
            add_number(text, missed.edge.target)?;
            add_text(text, names, shown)
        }
    }
}

/// Appends the lines of these edges.
pub(crate) fn add_all_missed(
    text: &mut Vec<u8>,
    names: &[&[u8]],
    missed: &[Missed],
) -> Result<(), AllocError>
    requires { HasName (length names.now) missed.now }
    ensures { OnOk result (text.new.items
        ≡ text.old.items ++ missed_lines (map (λ n. n.now) names.now) missed.now) }
{
    for edge in missed {
        add_missed(text, names, edge)?;
    }
    Ok(())
}

/// Appends how many edges more there are than lines, if there are any.
pub(crate) fn add_more(text: &mut Vec<u8>, more: usize) -> Result<(), AllocError>
    ensures { OnOk result (text.new.items ≡ text.old.items ++ more_line more) }
{
    if more == 0 {
        return add(text, b"");
    }
    add(text, b"not walked: ")?;
    add_count(text, more)?;
    add(text, b" more\n")
}
