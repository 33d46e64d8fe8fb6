//! What flex takes otherwise by what a whole specification says.
ghost use Rattle.std.specs.Prelude.{◌≡◌, ◌++◌, OnOk, map};
ghost use Rattle.lexspec.specs.Views.{spec_of};
ghost use Rattle.lexlook_text.specs.LineViews.{line_of};
ghost use Rattle.lexlook_check.specs.Differences.{differences, differences_in, faultless_ends};

use crate::empty_heads::add_empty_heads;
use crate::findings::known_lines;
use crate::idle_ends::add_idle_ends;
use crate::named_trails::add_named_trails;
use crate::notices::{MAX_LOOKED_FOR, Notice};
use lexkit::lines_of as rule_lines;
use lexlook_text::{Line, LineKind, section_lines};
use lexspec::Spec;
use lexspec_lines::without_returns;
use std::alloc::{AllocError, Global};

/// Appends the `<<EOF>>` rules that serve no condition, where no rule was left out.
fn add_faultless_ends(
    notices: &mut Vec<Notice>,
    faultless: bool,
    lines: &[Line<'_>],
    spec: &Spec,
) -> Result<(), AllocError>
    ensures { OnOk result (notices.new.items
        ≡ notices.old.items ++ faultless_ends faultless (map line_of lines.now) (spec_of spec.now)) }
{
    if !faultless {
        return Ok(());
    }
    add_idle_ends(notices, lines, spec.conditions())
}

/// Appends what flex takes otherwise of a text with these lines, which spells this specification.
fn add_differences_in(
    alloc: Global,
    notices: &mut Vec<Notice>,
    faultless: bool,
    spec: &Spec,
    lines: &[Line<'_>],
) -> Result<(), AllocError>
    ensures { OnOk result (notices.new.items
        ≡ notices.old.items ++ differences_in faultless (spec_of spec.now) (map line_of lines.now)) }
{
    let definitions = section_lines(alloc, LineKind::Definition, lines)?;
    let mut rules = rule_lines(alloc, spec.rules())?;
    rules.truncate(MAX_LOOKED_FOR);
    add_named_trails(
        alloc,
        notices,
        definitions.as_slice(),
        lines,
        rules.as_slice(),
    )?;
    add_empty_heads(alloc, notices, lines, spec.rules())?;
    add_faultless_ends(notices, faultless, lines, spec)
}

/// Appends what flex takes otherwise of a text, which spells this specification: names at the end of trailing context,
/// texts that may be empty before one, and where no rule was left out `<<EOF>>` rules that serve no condition.
pub(crate) fn add_differences(
    alloc: Global,
    notices: &mut Vec<Notice>,
    faultless: bool,
    spec: &Spec,
    text: &[u8],
) -> Result<(), AllocError>
    ensures { OnOk result (notices.new.items
        ≡ notices.old.items ++ differences faultless (spec_of spec.now) text.now) }
{
    let kept = without_returns(alloc, text)?;
    let lines = known_lines(alloc, kept.as_slice())?;
    add_differences_in(alloc, notices, faultless, spec, lines.as_slice())
}
