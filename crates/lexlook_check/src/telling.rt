//! What is written of the files of a specification.
ghost use Rattle.std.specs.Prelude.{◌≡◌, ◌≤◌, ◌<◌, ◌+◌, ◌-◌, ◌^◌, IfOk, map};
ghost use Rattle.lex_semantics.specs.Limits.{max_positions, max_states};
ghost use Rattle.lexlook_text.specs.Known.{AreNamesOf};
ghost use Rattle.lexlook_check.specs.Findings.{known_lines};
ghost use Rattle.lexlook_check.specs.Takings.{taking_of};
ghost use Rattle.lexlook_check.specs.Telling.{AreBytesOf, IsTellingOf, TellsCheck, check_fault_count, told_bytes};

use crate::checking::{Checked, check};
use crate::error::CheckError;
use crate::findings::{Finding, findings_in_order, known_lines};
use crate::json::told_json;
use crate::lines::told_lines;
use crate::places::{SourceFile, joined_text, own_line};
use crate::takings::Taking;
use lexkit::{Options, Sink};
use lexlook_text::{KnownNames, names_of};
use lexspec_lines::without_returns;
use std::alloc::{AllocError, Global};

/// How what was found is told.
#[derive(Clone, Copy)]
pub enum Form {
    /// By lines to read.
    Lines,
    /// By an object of JSON a line.
    Json,
}

/// What is to be written of files.
#[derive(Drop)]
struct Telling {
    /// The bytes.
    bytes: Vec<u8>,
    /// What was found.
    checked: Checked,
}

/// What was found of a text, which has these names, in this form.
fn told_bytes(
    alloc: Global,
    form: Form,
    files: &[SourceFile<'_>],
    whole: &[u8],
    names: &KnownNames,
    takings: &[Taking],
    findings: &[Finding],
) -> Result<Vec<u8>, AllocError>
    requires { AreNamesOf (known_lines whole.now) names.now }
    ensures { IfOk result (λ bytes. bytes.items
        ≡ told_bytes form files.now whole.now (map taking_of takings.now) findings.now) }
{
    match form {
        Form::Lines => told_lines(alloc, files, whole, names, takings, findings),
        Form::Json => told_json(alloc, files, whole, names, takings, findings),
    }
}

/// What is to be written of what was found of a text.
fn bytes_of(
    alloc: Global,
    form: Form,
    files: &[SourceFile<'_>],
    text: &[u8],
    checked: &Checked,
) -> Result<Vec<u8>, AllocError>
    ensures { IfOk result (λ bytes. AreBytesOf form files.now text.now checked.now bytes.items) }
{
    let whole = without_returns(alloc, text)?;
    let lines = known_lines(alloc, whole.as_slice())?;
    let names = names_of(alloc, lines.as_slice())?;
    let findings = findings_in_order(alloc, &names, lines.as_slice(), checked)?;
    told_bytes(
        alloc,
        form,
        files,
        whole.as_slice(),
        &names,
        checked.takings.as_slice(),
        findings.as_slice(),
    )
}

/// What is to be written of what is found of the text that the files are together.
fn telling_of(
    alloc: Global,
    files: &[SourceFile<'_>],
    options: Options,
    form: Form,
    strict: bool,
) -> Result<Telling, AllocError>
    requires few_positions { options.limits.positions ≤ max_positions }
    requires few_states { options.limits.states ≤ max_states }
    ensures { IfOk result (λ t. IsTellingOf options form strict files.now t.bytes.items t.checked) }
{
    let text = joined_text(alloc, files)?;
    let own = own_line(files, text.as_slice());
    let checked = check(alloc, own, strict, text.as_slice(), options)?;
    let bytes = bytes_of(alloc, form, files, text.as_slice(), &checked)?;
    Ok(Telling { bytes, checked })
}

/// Writes every fault of the specification that the files are together, up to 100, and what is warned of, in order of
/// place. Each is told with its file and the line there, the column where one is told, the line as it stands, and what is
/// expected. Where `strict` it is a fault too that the default rule copies a byte. It answers whether no fault was found. Want
/// of memory leaves the sink as it was.
pub fn tell_check<K: Sink>(
    alloc: Global,
    files: &[SourceFile<'_>],
    options: Options,
    form: Form,
    strict: bool,
    sink: &mut K,
) -> Result<bool, CheckError>
    requires few_positions { options.limits.positions ≤ max_positions }
    requires few_states { options.limits.states ≤ max_states }
    requires few { K.failures sink.old < 2 ^ 64 - 1 }
    ensures told { TellsCheck K.wrote options form strict files.now sink.old sink.new result }
    ensures failures { K.failures sink.new ≡ K.failures sink.old + check_fault_count result }
{
    let telling = match telling_of(alloc, files, options, form, strict) {
        Err(_) => return Err(CheckError::OutOfMemory),
        Ok(telling) => telling,
    };
    match sink.put(telling.bytes.as_slice()) {
        Err(_) => Err(CheckError::Write),
        Ok(()) => Ok(telling.checked.is_well()),
    }
}
