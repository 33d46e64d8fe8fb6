//! What was found as JSON, an object a line.
ghost use Rattle.std.specs.Prelude.{◌≡◌, ◌++◌, ◌+◌, ◌-◌, ◌<◌, ◌≤◌, ◌^◌, IfOk, IfSome, OnOk, flat_map, length, map, option_map};
ghost use Rattle.lexlook_text.specs.Known.{AreNamesOf};
ghost use Rattle.lexlook_check.specs.Takings.{taking_of};
ghost use Rattle.lexlook_check.specs.Findings.{known_lines};
ghost use Rattle.lexlook_check.specs.JsonLines.{finding_json, hint_fields, json_string, number_field, place_fields, string_byte, string_field, known_line, what_fields, what_name};
ghost use Rattle.lexlook_check.specs.SourceLines.{end_of_span};

use crate::findings::{Finding, What};
use crate::lines::{severity_text, shown_line, what_text, whole_hint};
use crate::notices::{NoticeKind, is_utf8};
use crate::places::{SourceFile, line_place};
use crate::source::place_in;
use crate::takings::Taking;
use itoa::Buffer;
use lexlook_specs::add;
use lexlook_text::KnownNames;
use std::alloc::{AllocError, Global};

/// The digits of numbers in base 16.
const DIGITS: &[u8; 16] = b"0123456789abcdef";

/// Appends a byte of a string. In a string that is UTF-8 bytes from 128 on stand as they are.
fn add_string_byte(text: &mut Vec<u8>, whole: bool, byte: u8) -> Result<(), AllocError>
    ensures { OnOk result (text.new.items ≡ text.old.items ++ string_byte whole byte) }
{
    if byte == b'"' || byte == b'\\' {
        return add(text, &[b'\\', byte]);
    }
    if byte < 32 || (byte >= 128 && !whole) {
        let high = DIGITS[(byte / 16) as usize];
        let low = DIGITS[(byte % 16) as usize];
        return add(text, &[b'\\', b'u', b'0', b'0', high, low]);
    }
    add(text, &[byte])
}

/// Appends a string.
fn add_string(text: &mut Vec<u8>, bytes: &[u8]) -> Result<(), AllocError>
    ensures { OnOk result (text.new.items ≡ text.old.items ++ json_string bytes.now) }
{
    let whole = is_utf8(bytes);
    add(text, b"\"")?;
    for byte in bytes {
        add_string_byte(text, whole, *byte)?;
    }
    add(text, b"\"")
}

/// Appends a name with what stands before it, and a string.
fn add_string_field(text: &mut Vec<u8>, front: &str, value: &[u8]) -> Result<(), AllocError>
    ensures { OnOk result (text.new.items ≡ text.old.items ++ string_field front.now value.now) }
{
    add(text, front.as_bytes())?;
    add_string(text, value)
}

/// Appends a name with what stands before it, and a number, or null where there is none.
fn add_number_field(text: &mut Vec<u8>, front: &str, value: Option<usize>) -> Result<(), AllocError>
    ensures { OnOk result (text.new.items ≡ text.old.items ++ number_field front.now value) }
{
    add(text, front.as_bytes())?;
    match value {
        None => add(text, b"null"),
        Some(value) => {
            let mut digits = Buffer::new();
            add(text, digits.format(value).as_bytes())
        }
    }
}

/// The name of what is warned of, which has no blanks.
fn notice_name(kind: NoticeKind) -> &'static str
    ensures { result.now ≡ what_name (What.Noticed kind) }
{
    match kind {
        NoticeKind::LettersAsBytes => "LettersAsBytes",
        NoticeKind::LetterAlone => "LetterAlone",
        NoticeKind::Backspace => "Backspace",
        NoticeKind::CaseRange => "CaseRange",
        NoticeKind::LineWalk => "LineWalk",
        NoticeKind::FlexTrail => "FlexTrail",
        NoticeKind::BarTrail => "BarTrail",
        NoticeKind::EndAgain => "EndAgain",
        NoticeKind::NamedTrail => "NamedTrail",
        NoticeKind::EmptyHead => "EmptyHead",
        NoticeKind::IdleEnd => "IdleEnd",
        NoticeKind::LoneReturn => "LoneReturn",
        NoticeKind::UnusedDefinition => "UnusedDefinition",
        NoticeKind::NeverEntered => "NeverEntered",
        NoticeKind::NeverLeft => "NeverLeft",
        NoticeKind::DefaultRule(_) => "DefaultRule",
    }
}

/// The name of what was found, which has no blanks.
fn what_name(what: What) -> &'static str
    ensures { result.now ≡ what_name what }
{
    match what {
        What::Copied(_) => "DefaultRule",
        What::Warned(true) => "SkippedCode",
        What::Warned(false) => "UselessRule",
        What::Noticed(kind) => notice_name(kind),
        What::Fault(_) | What::Limit(_, _) => what_text(what),
    }
}

/// The number of a line, but for line 0, which is the whole.
fn known_line(line: u32) -> Option<usize>
    ensures { result ≡ known_line line }
{
    if line == 0 { None } else { Some(line as usize) }
}

/// The column of a place, from 1.
fn column_of(at: Option<usize>) -> Option<usize>
    requires { IfSome at (λ n. n < 2 ^ 64 - 1) }
    ensures { result ≡ option_map (λ n. n + 1) at }
{
    let at = at?;
    Some(at + 1)
}

/// The column behind so many bytes at a place of the line.
fn end_column_of(at: Option<usize>, size: usize, line: &[u8]) -> Option<usize>
    requires { IfSome at (λ n. n ≤ length line.now) }
    ensures { result ≡ option_map (λ n. end_of_span n size line.now + 1) at }
{
    let at = at?;
    let end = if size <= line.len() - at {
        at + size
    } else {
        line.len()
    };
    Some(end + 1)
}

/// Appends the fields of the place of a finding in this line.
fn add_place_fields(
    text: &mut Vec<u8>,
    files: &[SourceFile<'_>],
    line: &[u8],
    finding: Finding,
) -> Result<(), AllocError>
    ensures { OnOk result (text.new.items ≡ text.old.items ++ place_fields files.now line.now finding) }
{
    let place = line_place(files, finding.line);
    let at = place_in(finding.at, line);
    add_string_field(text, "{\"file\":", place.name.as_bytes())?;
    add_number_field(text, ",\"line\":", known_line(place.line))?;
    add_number_field(text, ",\"column\":", column_of(at))?;
    add_number_field(
        text,
        ",\"end_column\":",
        end_column_of(at, finding.size, line),
    )
}

/// Appends the fields of what is expected in this line, where something is.
fn add_hint_fields(
    text: &mut Vec<u8>,
    line: &[u8],
    hint: &Option<Vec<u8>>,
) -> Result<(), AllocError>
    ensures { OnOk result (text.new.items ≡ text.old.items ++ hint_fields line.now (option_map (λ h. h.items) hint.now)) }
{
    match hint {
        None => add(text, b",\"hint\":null,\"text\":null"),
        Some(hint) => {
            add_string_field(text, ",\"hint\":", hint.as_slice())?;
            add_string_field(text, ",\"text\":", line)
        }
    }
}

/// Appends the fields of what was found in this line, of which this is told.
fn add_what_fields(
    text: &mut Vec<u8>,
    line: &[u8],
    what: What,
    hint: &Option<Vec<u8>>,
) -> Result<(), AllocError>
    ensures { OnOk result (text.new.items
        ≡ text.old.items ++ what_fields line.now what (option_map (λ h. h.items) hint.now)) }
{
    add_string_field(text, ",\"severity\":", severity_text(what).as_bytes())?;
    add_string_field(text, ",\"kind\":", what_name(what).as_bytes())?;
    add_string_field(text, ",\"message\":", what_text(what).as_bytes())?;
    add_hint_fields(text, line, hint)?;
    add(text, b"}\n")
}

/// Appends the object of what was found of a text, which has these names.
fn add_json(
    alloc: Global,
    text: &mut Vec<u8>,
    files: &[SourceFile<'_>],
    whole: &[u8],
    names: &KnownNames,
    takings: &[Taking],
    finding: Finding,
) -> Result<(), AllocError>
    requires { AreNamesOf (known_lines whole.now) names.now }
    ensures { OnOk result (text.new.items
        ≡ text.old.items ++ finding_json files.now whole.now (map taking_of takings.now) finding) }
{
    let line = shown_line(whole, finding);
    let hint = whole_hint(alloc, files, whole, names, takings, finding, line)?;
    add_place_fields(text, files, line, finding)?;
    add_what_fields(text, line, finding.what, &hint)
}

/// The objects of all that was found of a text, which has these names.
pub(crate) fn told_json(
    alloc: Global,
    files: &[SourceFile<'_>],
    whole: &[u8],
    names: &KnownNames,
    takings: &[Taking],
    findings: &[Finding],
) -> Result<Vec<u8>, AllocError>
    requires { AreNamesOf (known_lines whole.now) names.now }
    ensures { IfOk result (λ text. text.items
        ≡ flat_map (finding_json files.now whole.now (map taking_of takings.now)) findings.now) }
{
    let mut text = Vec::new(alloc);
    for finding in findings {
        add_json(alloc, &mut text, files, whole, names, takings, *finding)?;
    }
    Ok(text)
}
