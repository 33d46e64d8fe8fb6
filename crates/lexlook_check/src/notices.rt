//! What is warned of in patterns, beside what lex warns of.
ghost use Rattle.std.specs.Prelude.{◌≡◌, ◌≤◌, ◌<◌, ◌+◌, ◌^◌, ◌++◌, false, IfOk, OnOk, flat_map, length, map, nat_le, take};
ghost use Rattle.std.specs.List.{list_any};
ghost use Rattle.std.specs.Str.{is_utf8};
ghost use Rattle.lex_semantics.specs.Limits.{max_file_bytes};
ghost use Rattle.lexspec.specs.Views.{spec_of};
ghost use Rattle.lexlook_text.specs.LineViews.{line_of};
ghost use Rattle.lexlook_text.specs.PieceViews.{piece_of};
ghost use Rattle.lexlook_check.specs.Notices.{definition_notices, escapes_letter, has_letters, max_notices, notice_of, notices_of, pattern_notices, piece_notices, rule_line_notices, rule_notices, text_notices};

use crate::bar_trails::add_bar_trails;
use crate::case_ranges::is_case_class;
use crate::conditions::add_conditions;
use crate::differences::add_differences;
use crate::end_rules::add_ends;
use crate::flex_trails::add_trail;
use crate::line_walks::add_walk;
use crate::returns::add_lone_returns;
use crate::unused::add_unused;
use lexkit::lines_of as rule_lines;
use lexlook_text::{Line, LineKind, Piece, lines_of, pieces_of, section_lines};
use lexre_bytes::split_name;
use lexspec::Spec;
use lexspec_lines::skip_blanks;
use std::alloc::{AllocError, Global};

/// What is warned of.
#[derive(Clone, Copy)]
pub enum NoticeKind {
    /// A class in which a letter beyond ASCII stands, by the bytes of its UTF-8.
    LettersAsBytes,
    /// A backslash before d, D, s, S, w or W, which stand for themselves.
    LetterAlone,
    /// `\b` outside of classes and quotes: a backspace.
    Backspace,
    /// A class with a range from an upper to a lower case letter.
    CaseRange,
    /// A rule that begins with `.*` or the like and goes on, so that it walks to the end of the line at each byte.
    LineWalk,
    /// A trailing context whose sides flex takes to vary in length, though one does not.
    FlexTrail,
    /// A trailing context behind a rule whose action is `|`.
    BarTrail,
    /// An `<<EOF>>` rule whose action does not end the scan.
    EndAgain,
    /// A definition with `|` at the end of a trailing context.
    NamedTrail,
    /// A trailing context behind what may be empty.
    EmptyHead,
    /// An `<<EOF>>` rule without a condition list that serves no condition.
    IdleEnd,
    /// A carriage return that stands before no newline.
    LoneReturn,
    /// A definition whose name stands in braces nowhere.
    UnusedDefinition,
    /// A condition that no action enters.
    NeverEntered,
    /// A condition that no action leads out of.
    NeverLeft,
    /// An exclusive condition in which the default rule copies bytes, of which this is the first.
    DefaultRule(u8),
}

/// A place of a specification, and what is warned of there.
#[derive(Clone, Copy)]
pub struct Notice {
    /// The line, from 1.
    pub line: u32,
    /// How many bytes of the line stand before the place.
    pub at: usize,
    /// How many bytes it has.
    pub size: usize,
    /// What is warned of.
    pub kind: NoticeKind,
}

/// Whether the bytes are UTF-8.
pub(crate) fn is_utf8(bytes: &[u8]) -> bool
    ensures { result ≡ is_utf8 bytes.now }
{
    match std::str::from_utf8(bytes) {
        Ok(_) => true,
        Err(_) => false,
    }
}

/// Whether a byte is 128 or more.
fn has_wide_byte(bytes: &[u8]) -> bool
    ensures { result ≡ list_any (λ b. nat_le 128 b) bytes.now }
{
    bytes.iter().any(|byte| *byte >= 128)
}

/// Whether a piece is a class in which a letter beyond ASCII stands.
fn has_letters(piece: &[u8]) -> bool
    ensures { result ≡ has_letters piece.now }
{
    piece.starts_with(b"[") && is_utf8(piece) && has_wide_byte(piece)
}

/// Whether a backslash stands before a letter that stands for itself.
fn escapes_letter(piece: &[u8]) -> bool
    ensures { result ≡ escapes_letter false piece.now }
{
    let mut rest = piece;
    let mut escaped = false;
    'bytes: while let Some((first, next)) = rest.split_first() {
        if escaped && matches!(*first, b'd' | b'D' | b's' | b'S' | b'w' | b'W') {
            return true;
        }
        escaped = !escaped && *first == b'\\';
        rest = next;
    }
    false
}

/// What is warned of in a piece.
fn notice_of(piece: &[u8]) -> Option<NoticeKind>
    ensures { result ≡ notice_of piece.now }
{
    if has_letters(piece) {
        Some(NoticeKind::LettersAsBytes)
    } else if escapes_letter(piece) {
        Some(NoticeKind::LetterAlone)
    } else if piece.starts_with(b"\\b") {
        Some(NoticeKind::Backspace)
    } else if is_case_class(piece) {
        Some(NoticeKind::CaseRange)
    } else {
        None
    }
}

/// Appends what is warned of in a piece of a line.
fn add_piece_notices(
    notices: &mut Vec<Notice>,
    line: u32,
    piece: Piece<'_>,
) -> Result<(), AllocError>
    ensures { OnOk result (notices.new.items ≡ notices.old.items ++ piece_notices line (piece_of piece.entry)) }
{
    if let Some(kind) = notice_of(piece.text) {
        notices.push(Notice {
            line,
            at: piece.at,
            size: piece.text.len(),
            kind,
        })?;
    }
    Ok(())
}

/// Appends what is warned of in the pattern that begins the text, before which so many bytes of the line stand.
fn add_pattern_notices(
    alloc: Global,
    notices: &mut Vec<Notice>,
    line: u32,
    before: usize,
    text: &[u8],
) -> Result<(), AllocError>
    requires { before + length text.now < 2 ^ 64 }
    ensures { OnOk result (notices.new.items ≡ notices.old.items ++ pattern_notices line before text.now) }
{
    let pieces = pieces_of(alloc, before, text)?;
    for piece in pieces.as_slice() {
        add_piece_notices(notices, line, *piece)?;
    }
    Ok(())
}

/// Appends what is warned of in a definition.
fn add_definition_notices(
    alloc: Global,
    notices: &mut Vec<Notice>,
    line: Line<'_>,
) -> Result<(), AllocError>
    ensures { OnOk result (notices.new.items ≡ notices.old.items ++ definition_notices (line_of line.entry)) }
{
    let text = skip_blanks(split_name(line.text).1);
    let before = line.text.len().saturating_sub(text.len());
    add_pattern_notices(alloc, notices, line.number, before, text)
}

/// Appends what is warned of in the rule that begins a line.
fn add_rule_line_notices(
    alloc: Global,
    notices: &mut Vec<Notice>,
    line: Line<'_>,
) -> Result<(), AllocError>
    ensures { OnOk result (notices.new.items ≡ notices.old.items ++ rule_line_notices (line_of line.entry)) }
{
    add_pattern_notices(alloc, notices, line.number, 0, line.text)?;
    add_walk(notices, line)?;
    add_trail(alloc, notices, line)
}

/// Appends what is warned of in the rule that stands at this line.
fn add_rule_notices(
    alloc: Global,
    notices: &mut Vec<Notice>,
    lines: &[Line<'_>],
    rule: u32,
) -> Result<(), AllocError>
    ensures { OnOk result (notices.new.items ≡ notices.old.items ++ rule_notices (map line_of lines.now) rule) }
{
    match lines.get((rule as usize).saturating_sub(1)) {
        None => Ok(()),
        Some(line) => add_rule_line_notices(alloc, notices, *line),
    }
}

/// Appends what is warned of in definitions.
fn add_all_definition_notices(
    alloc: Global,
    notices: &mut Vec<Notice>,
    definitions: &[Line<'_>],
) -> Result<(), AllocError>
    ensures { OnOk result (notices.new.items
        ≡ notices.old.items ++ flat_map definition_notices (map line_of definitions.now)) }
{
    for line in definitions {
        add_definition_notices(alloc, notices, *line)?;
    }
    Ok(())
}

/// Appends what is warned of in the rules that stand at these lines.
fn add_all_rule_notices(
    alloc: Global,
    notices: &mut Vec<Notice>,
    lines: &[Line<'_>],
    rules: &[u32],
) -> Result<(), AllocError>
    ensures { OnOk result (notices.new.items
        ≡ notices.old.items ++ flat_map (rule_notices (map line_of lines.now)) rules.now) }
{
    for rule in rules {
        add_rule_notices(alloc, notices, lines, *rule)?;
    }
    Ok(())
}

/// The most places that are told of.
const MAX_NOTICES: usize = 100;

/// The most definitions whose names are looked for, and the most rules whose trailing context is followed into definitions.
pub(crate) const MAX_LOOKED_FOR: usize = 1000;

/// What is warned of in the definitions of a text, and then in its rules, which stand at these lines: in each alone, and
/// then behind one with `|`. Then in its `<<EOF>>` rules, and those of its definitions from the line `own` on that nothing
/// in `whole` uses.
fn text_notices(
    alloc: Global,
    own: usize,
    whole: &[u8],
    rules: &[u32],
    text: &[u8],
) -> Result<Vec<Notice>, AllocError>
    requires { length text.now ≤ max_file_bytes }
    ensures { IfOk result (λ notices. notices.items ≡ text_notices own whole.now rules.now text.now) }
{
    let lines = lines_of(alloc, text)?;
    let mut definitions = section_lines(alloc, LineKind::Definition, lines.as_slice())?;
    let mut notices = Vec::new(alloc);
    add_all_definition_notices(alloc, &mut notices, definitions.as_slice())?;
    add_all_rule_notices(alloc, &mut notices, lines.as_slice(), rules)?;
    add_bar_trails(alloc, &mut notices, lines.as_slice(), rules)?;
    add_ends(&mut notices, lines.as_slice())?;
    definitions.truncate(MAX_LOOKED_FOR);
    add_unused(&mut notices, own, whole, definitions.as_slice())?;
    Ok(notices)
}

/// What is warned of in a text, which spells this specification, beside what lex warns of: in its definitions first, then
/// in its rules, of definitions from the line `own` on that nothing in `whole` uses, then what flex takes otherwise by
/// what the specification says, and carriage returns that end no line. Where nothing is left out of the text, its conditions
/// come last. Of all these the first 100.
pub(crate) fn notices_of(
    alloc: Global,
    own: usize,
    faultless: bool,
    whole: &[u8],
    spec: &Spec,
    copied: &[Option<u8>],
    text: &[u8],
) -> Result<Vec<Notice>, AllocError>
    requires { length text.now ≤ max_file_bytes }
    ensures { IfOk result (λ notices. notices.items
        ≡ take max_notices (notices_of own faultless whole.now (spec_of spec.now) copied.now text.now)) }
{
    let rules = rule_lines(alloc, spec.rules())?;
    let mut notices = text_notices(alloc, own, whole, rules.as_slice(), text)?;
    add_differences(alloc, &mut notices, faultless, spec, text)?;
    add_lone_returns(alloc, &mut notices, text)?;
    add_conditions(alloc, &mut notices, faultless, spec, copied, text)?;
    notices.truncate(MAX_NOTICES);
    Ok(notices)
}
