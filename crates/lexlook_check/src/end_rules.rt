//! `<<EOF>>` rules whose action does not end the scan, which flex meets again for ever.
ghost use Rattle.std.specs.Prelude.{◌≡◌, ◌++◌, OnOk, flat_map, map};
ghost use Rattle.lexlook_text.specs.LineViews.{line_of};
ghost use Rattle.lexlook_check.specs.EndRules.{end_notices, meets_again};

use crate::line_walks::behind_list;
use crate::notices::{Notice, NoticeKind};
use lexlook_text::{Line, prints_alone};
use std::alloc::AllocError;

/// Whether a rule, behind its condition list, is an `<<EOF>>` whose action prints alone.
fn meets_again(rule: &[u8]) -> bool
    ensures { result ≡ meets_again rule.now }
{
    rule.starts_with(b"<<EOF>>") && prints_alone(rule.get(7..).unwrap_or(b""))
}

/// Appends the `<<EOF>>` of such a rule, where it begins a line.
fn add_end(notices: &mut Vec<Notice>, line: Line<'_>) -> Result<(), AllocError>
    ensures { OnOk result (notices.new.items ≡ notices.old.items ++ end_notices (line_of line.entry)) }
{
    let rule = behind_list(line.text);
    if !meets_again(rule) {
        return Ok(());
    }
    notices.push(Notice {
        line: line.number,
        at: line.text.len().saturating_sub(rule.len()),
        size: 7,
        kind: NoticeKind::EndAgain,
    })?;
    Ok(())
}

/// Appends those of these lines.
pub(crate) fn add_ends(notices: &mut Vec<Notice>, lines: &[Line<'_>]) -> Result<(), AllocError>
    ensures { OnOk result (notices.new.items ≡ notices.old.items ++ flat_map end_notices (map line_of lines.now)) }
{
    for line in lines {
        add_end(notices, *line)?;
    }
    Ok(())
}
