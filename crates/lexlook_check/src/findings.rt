//! What is told of a text, in order of place.
ghost use Rattle.std.specs.Prelude.{◌≡◌, ◌≤◌, ◌++◌, IfOk, OnOk, length, map, take};
ghost use Rattle.lex_semantics.specs.Limits.{max_file_bytes};
ghost use Rattle.lexlook_text.specs.Known.{AreNamesOf};
ghost use Rattle.lexlook_text.specs.LineViews.{line_of};
ghost use Rattle.lexlook_check.specs.Findings.{AreInOrder, fault_finding, fault_place, fault_spot, finding_at, findings_of, known_lines, limit_findings, notice_finding, warning_finding, word_spot};

use crate::checking::Checked;
use crate::homes::again_spot;
use crate::notices::{Notice, NoticeKind};
use crate::weights::Weights;
use lex_semantics::MAX_FILE_BYTES;
use lexauto::BuildError;
use lexauto_reports::Warning;
use lexlook_text::{KnownNames, Line, Spot, lines_of, spot_of};
use lexspec::{SpecError, SpecErrorKind};
use std::alloc::{AllocError, Global};

/// What was found.
#[derive(Clone, Copy)]
pub enum What {
    /// A fault, as lex calls it.
    Fault(SpecErrorKind),
    /// A limit that the automaton passes, and how many positions there are.
    Limit(BuildError, Option<Weights>),
    /// Where none is to be copied, the first byte that the default rule copies in a condition.
    Copied(u8),
    /// A warning of lex: of skipped code, or of a rule that cannot be matched.
    Warned(bool),
    /// What is warned of beside these.
    Noticed(NoticeKind),
}

/// What was found, and where.
#[derive(Clone, Copy)]
pub struct Finding {
    /// The line, from 1, or 0 for the whole.
    pub line: u32,
    /// How many bytes of the line stand before it, where a place is told.
    pub at: Option<usize>,
    /// How many bytes it has there.
    pub size: usize,
    /// What was found.
    pub what: What,
}

/// The place of a fault in its line, where lex tells one.
fn fault_place(kind: SpecErrorKind) -> Option<usize>
    ensures { result ≡ fault_place kind }
{
    match kind {
        SpecErrorKind::Pattern(error) => Some(error.at),
        _ => None,
    }
}

/// As much of a text as lex takes.
fn taken(text: &[u8]) -> &[u8]
    ensures front { result.now ≡ take max_file_bytes text.now }
    ensures few { length result.now ≤ max_file_bytes }
{
    if text.len() <= MAX_FILE_BYTES {
        return text;
    }
    text.split_at(MAX_FILE_BYTES).0
}

/// The lines of a text, as much of it as lex takes.
pub(crate) fn known_lines(alloc: Global, text: &[u8]) -> Result<Vec<Line<'_>>, AllocError>
    ensures { IfOk result (λ lines. map line_of lines.items ≡ known_lines text.now) }
{
    lines_of(alloc, taken(text))
}

/// The word that is at fault, in a text with these lines and names.
fn word_spot(names: &KnownNames, lines: &[Line<'_>], fault: SpecError) -> Option<Spot>
    requires { AreNamesOf (map line_of lines.now) names.now }
    ensures { result ≡ word_spot (map line_of lines.now) fault }
{
    match lines.get((fault.line as usize).saturating_sub(1)) {
        None => None,
        Some(line) => spot_of(names, fault.kind, *line),
    }
}

/// The name of a condition that is declared again, or else that word.
fn fault_spot(
    alloc: Global,
    names: &KnownNames,
    lines: &[Line<'_>],
    fault: SpecError,
) -> Result<Option<Spot>, AllocError>
    requires { AreNamesOf (map line_of lines.now) names.now }
    ensures { IfOk result (λ spot. spot ≡ fault_spot (map line_of lines.now) fault) }
{
    let again = again_spot(alloc, lines, fault.line, fault.kind)?;
    match again {
        Some(spot) => Ok(Some(spot)),
        None => Ok(word_spot(names, lines, fault)),
    }
}

/// A fault, at this word, or else at one byte, where lex tells its place.
fn finding_at(fault: SpecError, spot: Option<Spot>) -> Finding
    ensures { result ≡ finding_at fault spot }
{
    let what = What::Fault(fault.kind);
    match spot {
        None => Finding {
            line: fault.line,
            at: fault_place(fault.kind),
            size: 1,
            what,
        },
        Some(spot) => Finding {
            line: spot.line,
            at: Some(spot.at),
            size: spot.size,
            what,
        },
    }
}

/// A fault of a text with these lines and names, at the word that is at fault.
fn fault_finding(
    alloc: Global,
    names: &KnownNames,
    lines: &[Line<'_>],
    fault: SpecError,
) -> Result<Finding, AllocError>
    requires { AreNamesOf (map line_of lines.now) names.now }
    ensures { IfOk result (λ finding. finding ≡ fault_finding (map line_of lines.now) fault) }
{
    let spot = fault_spot(alloc, names, lines, fault)?;
    Ok(finding_at(fault, spot))
}

/// Appends faults of a text with these lines and names.
fn add_faults(
    alloc: Global,
    findings: &mut Vec<Finding>,
    names: &KnownNames,
    lines: &[Line<'_>],
    faults: &[SpecError],
) -> Result<(), AllocError>
    requires { AreNamesOf (map line_of lines.now) names.now }
    ensures { OnOk result (findings.new.items
        ≡ findings.old.items ++ map (fault_finding (map line_of lines.now)) faults.now) }
{
    for fault in faults {
        let finding = fault_finding(alloc, names, lines, *fault)?;
        findings.push(finding)?;
    }
    Ok(())
}

/// Appends a limit, where one is passed, at line 0, which is the whole.
fn add_limit(
    findings: &mut Vec<Finding>,
    limit: Option<BuildError>,
    weights: Option<Weights>,
) -> Result<(), AllocError>
    ensures { OnOk result (findings.new.items ≡ findings.old.items ++ limit_findings limit weights) }
{
    if let Some(limit) = limit {
        findings.push(Finding {
            line: 0,
            at: None,
            size: 1,
            what: What::Limit(limit, weights),
        })?;
    }
    Ok(())
}

/// Appends where the default rule copies, though none is to be copied.
fn add_copies(findings: &mut Vec<Finding>, copies: &[Finding]) -> Result<(), AllocError>
    ensures { OnOk result (findings.new.items ≡ findings.old.items ++ copies.now) }
{
    for copy in copies {
        findings.push(*copy)?;
    }
    Ok(())
}

/// Appends warnings of lex.
fn add_warnings(findings: &mut Vec<Finding>, warnings: &[Warning]) -> Result<(), AllocError>
    ensures { OnOk result (findings.new.items ≡ findings.old.items ++ map warning_finding warnings.now) }
{
    for warning in warnings {
        findings.push(Finding {
            line: warning.line,
            at: None,
            size: 1,
            what: What::Warned(warning.code),
        })?;
    }
    Ok(())
}

/// Appends what is warned of beside these.
fn add_notices(findings: &mut Vec<Finding>, notices: &[Notice]) -> Result<(), AllocError>
    ensures { OnOk result (findings.new.items ≡ findings.old.items ++ map notice_finding notices.now) }
{
    for notice in notices {
        findings.push(Finding {
            line: notice.line,
            at: Some(notice.at),
            size: notice.size,
            what: What::Noticed(notice.kind),
        })?;
    }
    Ok(())
}

/// All that was found of a text with these lines and names, as it was found.
fn findings_of(
    alloc: Global,
    names: &KnownNames,
    lines: &[Line<'_>],
    checked: &Checked,
) -> Result<Vec<Finding>, AllocError>
    requires { AreNamesOf (map line_of lines.now) names.now }
    ensures { IfOk result (λ findings. findings.items ≡ findings_of (map line_of lines.now) checked.now) }
{
    let mut findings = Vec::new(alloc);
    add_faults(
        alloc,
        &mut findings,
        names,
        lines,
        checked.faults.as_slice(),
    )?;
    add_limit(&mut findings, checked.limit, checked.weights)?;
    add_copies(&mut findings, checked.copies.as_slice())?;
    add_warnings(&mut findings, checked.warnings.as_slice())?;
    add_notices(&mut findings, checked.notices.as_slice())?;
    Ok(findings)
}

/// All that was found of a text with these lines and names, in order of place. Where no place in the line is told it is
/// the first of the line.
pub(crate) fn findings_in_order(
    alloc: Global,
    names: &KnownNames,
    lines: &[Line<'_>],
    checked: &Checked,
) -> Result<Vec<Finding>, AllocError>
    requires { AreNamesOf (map line_of lines.now) names.now }
    ensures { IfOk result (λ told. AreInOrder (findings_of (map line_of lines.now) checked.now) told.items) }
{
    let mut told = findings_of(alloc, names, lines, checked)?;
    told.sort_by_key(|finding| finding.at.unwrap_or(0))?;
    told.sort_by_key(|finding| finding.line)?;
    Ok(told)
}
