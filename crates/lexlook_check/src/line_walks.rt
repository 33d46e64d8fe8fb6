//! Rules that walk a line at each of its bytes.
ghost use Rattle.std.specs.Prelude.{◌≡◌, ◌≤◌, ◌++◌, OnOk, length};
ghost use Rattle.lexlook_text.specs.LineViews.{line_of};
ghost use Rattle.lexlook_check.specs.LineWalks.{behind_line_class, behind_list, goes_on_pattern, walk_notices, walks_on};

use crate::notices::{Notice, NoticeKind};
use lexlook_text::Line;
use lexre_bytes::skip_first;
use lexspec_lines::{is_blank, split_before};
use std::alloc::AllocError;

/// What follows the condition list of a rule.
pub(crate) fn behind_list(text: &[u8]) -> &[u8]
    ensures after { result.now ≡ behind_list text.now }
    ensures shorter { length result.now ≤ length text.now }
{
    if text.starts_with(b"<") && !text.starts_with(b"<<") {
        skip_first(split_before(|byte| byte == b'>' || byte == b'\n', text).1)
    } else {
        text
    }
}

/// What follows a class at the front that has each byte but a newline. Nothing where there is none.
fn behind_line_class(text: &[u8]) -> &[u8]
    ensures { result.now ≡ behind_line_class text.now }
{
    if text.starts_with(b".") {
        text.get(1..).unwrap_or(b"")
    } else if text.starts_with(b"[^\\n]") {
        text.get(5..).unwrap_or(b"")
    } else {
        b""
    }
}

/// Whether a pattern goes on with the text: with more than what ends it, its branch, what is taken, or the line.
fn goes_on_pattern(text: &[u8]) -> bool
    ensures { result ≡ goes_on_pattern text.now }
{
    let Some((first, _)) = text.split_first() else {
        return false;
    };
    let ends = is_blank(*first) || *first == b'\n' || matches!(*first, b'$' | b'|' | b'/');
    !(ends || text.starts_with(b"\\n"))
}

/// Whether the text begins with a `*` or a `+`, and a pattern goes on behind it.
fn walks_on(text: &[u8]) -> bool
    ensures { result ≡ walks_on text.now }
{
    match text.split_first() {
        None => false,
        Some((first, next)) => (*first == b'*' || *first == b'+') && goes_on_pattern(next),
    }
}

/// Appends the first class of the rule that begins a line, where it walks to the end of a line before it is known whether
/// it matches.
pub(crate) fn add_walk(notices: &mut Vec<Notice>, line: Line<'_>) -> Result<(), AllocError>
    ensures { OnOk result (notices.new.items ≡ notices.old.items ++ walk_notices (line_of line.entry)) }
{
    let text = behind_list(line.text);
    let rest = behind_line_class(text);
    if !walks_on(rest) {
        return Ok(());
    }
    notices.push(Notice {
        line: line.number,
        at: line.text.len().saturating_sub(text.len()),
        size: text.len().saturating_sub(rest.len()),
        kind: NoticeKind::LineWalk,
    })?;
    Ok(())
}
