//! The reader of whole specification files. (POSIX, lex, Input Files; flex, Format of the Input File.)
ghost use Rattle.std.specs.Prelude.{◌≡◌, ◌≤◌, ◌+◌, ◌++◌, true, length, IfOk, IfErr};
ghost use Rattle.lex_semantics.specs.Spec.{Spec as Meant};
ghost use Rattle.lexspec.specs.Files.{SpellsSpec};
ghost use Rattle.lexspec.specs.FaultLines.{TellsDefinitions, TellsLength, TellsRules};
ghost use Rattle.lexspec_lines.specs.Outcome.{UnlessMemory};
ghost use Rattle.lexspec.specs.Readings.{of_sections, IsRefusedRest, SpellsRest, SkipsRest};
ghost use Rattle.lexspec.specs.Skipped.{user_section, AreSkipped};
ghost use Rattle.lexspec.specs.Tests.{is_sound};
ghost use Rattle.lexspec.specs.Views.{spec_of, skipped_in};
ghost use Rattle.lexspec.specs.ItemRuns.{has_text};
ghost use Rattle.lexre_bytes.specs.declared.refusals.SpecErrorKind.TheVariants.{OutOfMemory};
ghost use Rattle.lex_semantics.specs.Limits.{max_conditions, max_file_bytes};

use crate::endings::with_ends;
use crate::rules_section::{RulesSection, read_rules};
use crate::spec::Spec;
use lex_semantics::MAX_FILE_BYTES;
use lexre::{NameCache, ReadOptions};
use lexspec_lines::{
    Declarations, Section, Skipped, SpecError, SpecErrorKind, is_blank, read_section, split_line,
    without_returns,
};
use std::alloc::Global;

/// Whether a text has a byte other than blanks and newlines.
fn has_text(text: &[u8]) -> bool
    ensures { result ≡ has_text text.now }
{
    text.iter().any(|byte| !is_blank(*byte) && *byte != b'\n')
}

/// The specification of what the two sections declare and spell. `skipped` has the lines of skipped code in the second.
fn join(
    alloc: Global,
    declarations: Declarations,
    found: RulesSection<'_>,
    skipped: Skipped,
) -> Result<Spec, SpecError>
    requires few { length declarations.conditions.items ≤ max_conditions }
    requires sound { is_sound (of_sections declarations found) ≡ true }
    ensures found { IfOk result (λ s. spec_of s ≡ of_sections declarations found.entry) }
    ensures skipped { IfOk result (λ s. skipped_in s
        ≡ declarations.skipped.lines.items ++ skipped.lines.items
        ++ user_section found.entry.line found.entry.rest.now) }
    ensures none { IfErr result (λ e. e.kind ≡ OutOfMemory) }
{
    let RulesSection {
        rules,
        ends,
        rest,
        line,
    } = found;
    let mut lines = declarations.skipped.lines;
    lines.extend_from_slice(&skipped.lines)?;
    let (_, code) = split_line(rest);
    if has_text(code) {
        lines.push(line)?;
    }
    let conditions = with_ends(alloc, declarations.conditions, &ends)?;
    Ok(Spec::new(conditions, rules, lines))
}

/// The specification of a file whose definitions section is this.
fn read_on(alloc: Global, section: Section<'_>) -> Result<Spec, SpecError>
    requires some { 1 ≤ length section.declarations.conditions.items }
    requires few { length section.declarations.conditions.items ≤ max_conditions }
    requires short { length section.rest.now ≤ max_file_bytes }
    requires line { section.line ≤ max_file_bytes + 1 }
    ensures found { IfOk result (λ s. SpellsRest section.entry (spec_of s)) }
    ensures skipped { IfOk result (λ s. SkipsRest section.entry (skipped_in s)) }
    ensures refused { IfErr result (λ e. UnlessMemory e.kind (IsRefusedRest section.entry e)) }
{
    let Section {
        declarations,
        rest,
        line,
    } = section;
    let (_, text) = split_line(rest);
    let mut skipped = Skipped::new(alloc);
    let mut names = NameCache::new(alloc);
    match read_rules(
        alloc,
        &declarations,
        &mut names,
        &mut skipped,
        text,
        line + 1,
    ) {
        Ok(found) => join(alloc, declarations, found, skipped),
        Err(fault) => Err(fault),
    }
}

/// The specification that a file spells. `options` says how patterns are read without an option.
/// The first faulty line is reported, for a rule that of its pattern; `TooLong` of the whole file is reported at line
/// 0.
pub fn read_spec(alloc: Global, text: &[u8], options: ReadOptions) -> Result<Spec, SpecError>
    ensures found { IfOk result (λ s. SpellsSpec options text.now (spec_of s)) }
    ensures skipped { IfOk result (λ s. AreSkipped text.now (skipped_in s)) }
    ensures none { IfErr result (λ e. UnlessMemory e.kind ((S : Meant) → SpellsSpec options text.now S → ⊥)) }
    ensures too_long { IfErr result (λ e. UnlessMemory e.kind (TellsLength text.now e)) }
    ensures definitions { IfErr result (λ e. UnlessMemory e.kind (TellsDefinitions text.now e)) }
    ensures rules { IfErr result (λ e. UnlessMemory e.kind (TellsRules options text.now e)) }
{
    if text.len() > MAX_FILE_BYTES {
        return Err(SpecError {
            line: 0,
            kind: SpecErrorKind::TooLong,
        });
    }
    let kept = without_returns(alloc, text)?;
    match read_section(alloc, &kept, options) {
        Ok(section) => read_on(alloc, section),
        Err(fault) => Err(fault),
    }
}
