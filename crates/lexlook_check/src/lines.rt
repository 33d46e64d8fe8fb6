//! The lines of what was found.
ghost use Rattle.std.specs.Prelude.{◌≡◌, ◌++◌, ◌<◌, ◌-◌, ◌^◌, IfOk, IfSome, OnOk, flat_map, map, option_map};
ghost use Rattle.lexauto_reports.specs.ReportLines.{warning_words};
ghost use Rattle.lexkit.specs.Faults.{build_words};
ghost use Rattle.lexlook_text.specs.Known.{AreNamesOf};
ghost use Rattle.lexlook_check.specs.Findings.{known_lines};
ghost use Rattle.lexlook_check.specs.CheckLines.{column_words, detail_words, finding_lines, full_hint, head_words, hint_of, notice_words, severity_words, shown_line, what_words, whole_hint};
ghost use Rattle.lexlook_check.specs.Places.{file_line_words};
ghost use Rattle.lexlook_check.specs.SourceLines.{place_in};
ghost use Rattle.lexlook_check.specs.Takings.{is_useless, taking_of};

use crate::adding::add_each;
use crate::findings::{Finding, What};
use crate::hints::{add_hint, definition_hint, limit_hint, notice_hint};
use crate::homes::add_home_of;
use crate::notices::NoticeKind;
use crate::places::{SourceFile, line_place};
use crate::remarks::remark_told;
use crate::source::{add_source, place_in, text_line};
use crate::takings::{Taking, add_taken, taking_for};
use crate::weights::add_limit;
use crate::words::add_front;
use itoa::Buffer;
use lexauto::BuildError;
use lexlook_specs::{add, add_number};
use lexlook_text::KnownNames;
use std::alloc::{AllocError, Global};

/// Appends the file in which a line stands, and its number there. Line 0 is the whole of the first file.
pub(crate) fn add_place(
    text: &mut Vec<u8>,
    files: &[SourceFile<'_>],
    line: u32,
) -> Result<(), AllocError>
    ensures { OnOk result (text.new.items ≡ text.old.items ++ file_line_words files.now line) }
{
    let place = line_place(files, line);
    add(text, place.name.as_bytes())?;
    if place.line == 0 {
        return Ok(());
    }
    add(text, b":")?;
    add_number(text, place.line)
}

/// Appends the column of a place, from 1, where one is told.
fn add_column(text: &mut Vec<u8>, offset: Option<usize>) -> Result<(), AllocError>
    requires { IfSome offset (λ at. at < 2 ^ 64 - 1) }
    ensures { OnOk result (text.new.items ≡ text.old.items ++ column_words offset) }
{
    match offset {
        None => add(text, b""),
        Some(at) => {
            let mut digits = Buffer::new();
            add_each(text, &[b":", digits.format(at + 1).as_bytes()])
        }
    }
}

/// What a limit is called.
fn limit_text(limit: BuildError) -> &'static str
    ensures { result.now ≡ build_words limit }
{
    match limit {
        BuildError::TooManyPositions => "TooManyPositions",
        BuildError::TooManyStates => "TooManyStates",
        BuildError::OutOfMemory => "out of memory",
    }
}

/// What a warning of lex says.
fn warning_text(code: bool) -> &'static str
    ensures { result.now ≡ warning_words code }
{
    if code {
        "code skipped"
    } else {
        "rule cannot be matched"
    }
}

/// What is said of what is warned of beside these.
fn notice_text(kind: NoticeKind) -> &'static str
    ensures { result.now ≡ notice_words kind }
{
    match kind {
        NoticeKind::LettersAsBytes => "letters of a class as bytes",
        NoticeKind::LetterAlone => "letter behind a backslash",
        NoticeKind::Backspace => "backspace by its escape",
        NoticeKind::CaseRange => "range from an upper to a lower case letter",
        NoticeKind::LineWalk => "line walked at each byte",
        NoticeKind::FlexTrail => "trailing context that flex takes otherwise",
        NoticeKind::BarTrail => "trailing context behind a rule with a bar",
        NoticeKind::EndAgain => "end rule that does not end the scan",
        NoticeKind::NamedTrail => "definition with a bar at the end of a trailing context",
        NoticeKind::EmptyHead => "trailing context behind what may be empty",
        NoticeKind::IdleEnd => "end rule that serves no condition",
        NoticeKind::LoneReturn => "carriage return that ends no line",
        NoticeKind::UnusedDefinition => "definition that no pattern uses",
        NoticeKind::NeverEntered => "condition that no action enters",
        NoticeKind::NeverLeft => "condition that no action leaves",
        NoticeKind::DefaultRule(_) => "default rule in an exclusive condition",
    }
}

/// Whether it is an error or a warning.
pub(crate) fn severity_text(what: What) -> &'static str
    ensures { result.now ≡ severity_words what }
{
    match what {
        What::Fault(_) | What::Limit(_, _) | What::Copied(_) => "error",
        What::Warned(_) | What::Noticed(_) => "warning",
    }
}

/// What it is called.
pub(crate) fn what_text(what: What) -> &'static str
    ensures { result.now ≡ what_words what }
{
    match what {
        What::Fault(kind) => kind.name(),
        What::Limit(limit, _) => limit_text(limit),
        What::Copied(_) => "default rule can be matched",
        What::Warned(code) => warning_text(code),
        What::Noticed(kind) => notice_text(kind),
    }
}

/// What is expected there, or to be known.
fn hint_of(what: What) -> Option<&'static str>
    ensures { option_map (λ hint. hint.now) result ≡ hint_of what }
{
    match what {
        What::Fault(kind) => Some(definition_hint(kind)),
        What::Limit(limit, _) => Some(limit_hint(limit)),
        What::Copied(byte) => Some(notice_hint(NoticeKind::DefaultRule(byte))),
        What::Warned(_) => None,
        What::Noticed(kind) => Some(notice_hint(kind)),
    }
}

/// What is told of the word at the place in this line of the text, which has these names, where that is defined or declared,
/// or how many positions there are where a limit is passed, and what is expected there.
pub(crate) fn full_hint(
    alloc: Global,
    files: &[SourceFile<'_>],
    whole: &[u8],
    names: &KnownNames,
    what: What,
    offset: Option<usize>,
    line: &[u8],
) -> Result<Option<Vec<u8>>, AllocError>
    requires { AreNamesOf (known_lines whole.now) names.now }
    ensures { IfOk result (λ hint. option_map (λ h. h.items) hint
        ≡ full_hint files.now whole.now what offset line.now) }
{
    match hint_of(what) {
        None => Ok(None),
        Some(hint) => {
            let mut text = Vec::new(alloc);
            add_front(&mut text, names, what, offset, line)?;
            add_home_of(alloc, &mut text, files, whole, what, offset, line)?;
            add_limit(&mut text, files, what)?;
            let remark = remark_told(whole, what, offset, line).as_bytes();
            add_each(&mut text, &[remark, hint.as_bytes()])?;
            Ok(Some(text))
        }
    }
}

/// Appends what stands below: where something is expected, the line with this number as it stands, and that.
fn add_details(
    text: &mut Vec<u8>,
    number: u32,
    line: &[u8],
    offset: Option<usize>,
    hint: &Option<Vec<u8>>,
) -> Result<(), AllocError>
    ensures { OnOk result (text.new.items
        ≡ text.old.items ++ detail_words number line.now offset (option_map (λ hint. hint.items) hint.now)) }
{
    match hint {
        None => add(text, b""),
        Some(hint) => {
            add_source(text, number, line, offset)?;
            add_hint(text, number, hint.as_slice())
        }
    }
}

/// Appends the first line of what was found.
fn add_head(
    text: &mut Vec<u8>,
    files: &[SourceFile<'_>],
    finding: Finding,
    offset: Option<usize>,
) -> Result<(), AllocError>
    requires { IfSome offset (λ at. at < 2 ^ 64 - 1) }
    ensures { OnOk result (text.new.items ≡ text.old.items ++ head_words files.now finding offset) }
{
    add_place(text, files, finding.line)?;
    add_column(text, offset)?;
    let severity = severity_text(finding.what).as_bytes();
    let what = what_text(finding.what).as_bytes();
    add_each(text, &[b": ", severity, b": ", what, b"\n"])
}

/// Whether it is a rule that cannot be matched.
fn is_useless(what: What) -> bool
    ensures { result ≡ is_useless what }
{
    match what {
        What::Warned(code) => !code,
        _ => false,
    }
}

/// The line of what was found, where it is shown.
pub(crate) fn shown_line(text: &[u8], finding: Finding) -> &[u8]
    ensures { result.now ≡ shown_line text.now finding }
{
    if hint_of(finding.what).is_none() && !is_useless(finding.what) {
        return b"";
    }
    text_line(text, finding.line)
}

/// What is expected where something was found in this line of a text, which has these names. Of a rule that cannot be
/// matched it is by which its texts are taken.
pub(crate) fn whole_hint(
    alloc: Global,
    files: &[SourceFile<'_>],
    whole: &[u8],
    names: &KnownNames,
    takings: &[Taking],
    finding: Finding,
    line: &[u8],
) -> Result<Option<Vec<u8>>, AllocError>
    requires { AreNamesOf (known_lines whole.now) names.now }
    ensures { IfOk result (λ hint. option_map (λ h. h.items) hint
        ≡ whole_hint files.now whole.now (map taking_of takings.now) finding (place_in finding.at line.now) line.now) }
{
    match taking_for(takings, finding) {
        None => full_hint(
            alloc,
            files,
            whole,
            names,
            finding.what,
            place_in(finding.at, line),
            line,
        ),
        Some(taking) => {
            let mut text = Vec::new(alloc);
            add_taken(&mut text, files, taking)?;
            Ok(Some(text))
        }
    }
}

/// Appends the lines of what was found of a text, which has these names.
fn add_finding(
    alloc: Global,
    text: &mut Vec<u8>,
    files: &[SourceFile<'_>],
    whole: &[u8],
    names: &KnownNames,
    takings: &[Taking],
    finding: Finding,
) -> Result<(), AllocError>
    requires { AreNamesOf (known_lines whole.now) names.now }
    ensures { OnOk result (text.new.items
        ≡ text.old.items ++ finding_lines files.now whole.now (map taking_of takings.now) finding) }
{
    let line = shown_line(whole, finding);
    let offset = place_in(finding.at, line);
    let number = line_place(files, finding.line).line;
    let hint = whole_hint(alloc, files, whole, names, takings, finding, line)?;
    add_head(text, files, finding, offset)?;
    add_details(text, number, line, offset, &hint)
}

/// The lines of all that was found of a text, which has these names.
pub(crate) fn told_lines(
    alloc: Global,
    files: &[SourceFile<'_>],
    whole: &[u8],
    names: &KnownNames,
    takings: &[Taking],
    findings: &[Finding],
) -> Result<Vec<u8>, AllocError>
    requires { AreNamesOf (known_lines whole.now) names.now }
    ensures { IfOk result (λ text. text.items
        ≡ flat_map (finding_lines files.now whole.now (map taking_of takings.now)) findings.now) }
{
    let mut text = Vec::new(alloc);
    for finding in findings {
        add_finding(alloc, &mut text, files, whole, names, takings, *finding)?;
    }
    Ok(text)
}
