//! The reader of the rules section, from its first line to a `%%` or the end of the file. (POSIX, lex, Rules in lex.)
ghost use Rattle.std.specs.Prelude.{◌≡◌, ◌+◌, ◌≤◌, List, length, IfOk, IfErr};
ghost use Rattle.lexspec_lines.specs.Lines.{newlines};
ghost use Rattle.lexspec.specs.ItemRuns.{IsLine, code_of_item};
ghost use Rattle.lexspec.specs.KeptNames.{AreKept};
ghost use Rattle.lexspec.specs.SectionReads.{HasRules, IsRefused, line_of_last};
ghost use Rattle.lexspec_lines.specs.Outcome.{UnlessMemory};
ghost use Rattle.lexspec_lines.specs.SkippedCode.{Code};
ghost use Rattle.lexspec_lines.specs.Skips.{TellsCode, TellsPieces};
ghost use Rattle.lexre_bytes.specs.declared.refusals.SpecErrorKind.TheVariants.{DanglingBar};
ghost use Rattle.lex_semantics.specs.Limits.{max_conditions, max_file_bytes};

use crate::endings::EndRule;
use crate::rule::Rule;
use crate::rules_so_far::RulesSoFar;
use lexre::NameCache;
use lexspec_lines::{Declarations, Skipped, SpecError, SpecErrorKind, newlines_before};
use std::alloc::Global;

/// What the rules section has, and what follows it.
#[derive(Drop)]
pub(crate) struct RulesSection<'a> {
    pub(crate) rules: Vec<Rule>,
    pub(crate) ends: Vec<EndRule>,
    /// The text from the line on that begins with `%%`, or nothing.
    pub(crate) rest: &'a [u8],
    /// The number of that line, from 1.
    pub(crate) line: u32,
}

/// The rules of a section that ends with this rest, at this line. If rules still wait for an action, the last of them is
/// a `DanglingBar`.
fn finish(progress: RulesSoFar, rest: &[u8], line: u32) -> Result<RulesSection<'_>, SpecError>
    ensures waiting { IfOk result (λ s. length progress.waiting.items ≡ 0) }
    ensures rules { IfOk result (λ s. s.rules.items ≡ progress.rules.items) }
    ensures ends { IfOk result (λ s. s.ends.items ≡ progress.ends.items) }
    ensures rest { IfOk result (λ s. s.rest.now ≡ rest.now) }
    ensures line { IfOk result (λ s. s.line ≡ line) }
    ensures none { IfErr result (λ e. length progress.waiting.items ≡ 0 → ⊥) }
    ensures fault { IfErr result (λ e. e
        ≡ record { line = line_of_last line progress.waiting.items; kind = DanglingBar }) }
{
    let RulesSoFar {
        rules,
        waiting,
        ends,
    } = progress;
    match waiting.last() {
        Some(last) => Err(SpecError {
            line: last.line,
            kind: SpecErrorKind::DanglingBar,
        }),
        None => Ok(RulesSection {
            rules,
            ends,
            rest,
            line,
        }),
    }
}

/// The rules section, which begins at the line with this number, up to a line that begins with `%%` or the end. The
/// lines of skipped code are added to the others. The first faulty item is refused, and after the last `DanglingBar`
/// where rules wait for an action.
pub(crate) fn read_rules<'a>(
    alloc: Global,
    declarations: &Declarations,
    names: &mut NameCache,
    skipped: &mut Skipped,
    text: &'a [u8],
    first: u32,
) -> Result<RulesSection<'a>, SpecError>
    requires few { length declarations.now.conditions.items ≤ max_conditions }
    requires known_so_far { AreKept declarations.now names.old }
    requires short { length text.now ≤ max_file_bytes }
    requires first { first ≤ max_file_bytes + 2 }
    ensures found { IfOk result (λ s. HasRules declarations.now first text.now s) }
    ensures line { IfOk result (λ s. s.line + newlines s.rest.now ≡ first + newlines text.now) }
    ensures code { IfOk result (λ s. (before : List Code) → TellsCode before skipped.old
        → TellsPieces before IsLine code_of_item (first + newlines text.now) text.now s.rest.now skipped.new) }
    ensures refused { IfErr result (λ e. UnlessMemory e.kind (IsRefused declarations.now first text.now e)) }
{
    let mut progress = RulesSoFar::new(alloc);
    let mut rest = text;
    let mut line = first;
    'items: while !rest.is_empty() && !rest.starts_with(b"%%") {
        let waiting = progress.line_waiting(line);
        let (next, after) = match progress.with_item(
            alloc,
            declarations,
            names,
            skipped,
            rest,
            line,
        ) {
            Ok(found) => found,
            Err(kind) => {
                let line = match kind {
                    SpecErrorKind::DanglingBar => waiting,
                    _ => line,
                };
                return Err(SpecError { line, kind });
            }
        };
        line += newlines_before(rest, after);
        progress = next;
        rest = after;
    }
    finish(progress, rest, line)
}
