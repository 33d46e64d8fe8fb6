//! `<<EOF>>` rules without a condition list that serve no condition, since each has one of its own.
ghost use Rattle.std.specs.Prelude.{◌≡◌, ◌++◌, false, true, OnOk, flat_map, map, option_map};
ghost use Rattle.std.specs.Option.{option_map_or};
ghost use Rattle.lexspec_actions.specs.Views.{condition_of};
ghost use Rattle.lexlook_text.specs.LineViews.{line_of};
ghost use Rattle.lexlook_check.specs.IdleEnds.{end_list, has_own, have_own, idle_ends, idle_notices, is_listed, lists};

use crate::line_walks::behind_list;
use crate::notices::{Notice, NoticeKind};
use lexlook_text::Line;
use lexre_bytes::skip_first;
use lexspec::Condition;
use lexspec_lines::split_before;
use std::alloc::AllocError;

/// The condition list of the `<<EOF>>` rule that begins the text, where it has one.
fn end_list(text: &[u8]) -> Option<&[u8]>
    ensures { option_map (λ list. list.now) result ≡ end_list text.now }
{
    let listed = text.starts_with(b"<") && !text.starts_with(b"<<");
    if listed && behind_list(text).starts_with(b"<<EOF>>") {
        Some(split_before(|byte| byte == b'>' || byte == b'\n', skip_first(text)).0)
    } else {
        None
    }
}

/// Whether a name stands between the commas of a list.
fn is_listed(name: &[u8], list: &[u8]) -> bool
    ensures { result ≡ is_listed name.now true list.now }
{
    let mut rest = list;
    let mut fresh = true;
    'bytes: while let Some((first, next)) = rest.split_first() {
        if fresh && split_before(|byte| byte == b',', rest).0 == name {
            return true;
        }
        fresh = *first == b',';
        rest = next;
    }
    false
}

/// Whether the `<<EOF>>` rule that begins the text lists the condition with this name.
fn lists_end(name: &[u8], text: &[u8]) -> bool
    ensures { result ≡ option_map_or (lists name.now) (end_list text.now) false }
{
    match end_list(text) {
        None => false,
        Some(list) => list == b"*".as_slice() || is_listed(name, list),
    }
}

/// Whether an `<<EOF>>` rule at one of these lines lists it.
fn has_own(lines: &[Line<'_>], name: &[u8]) -> bool
    ensures { result ≡ has_own (map line_of lines.now) name.now }
{
    for line in lines {
        if lists_end(name, line.text) {
            return true;
        }
    }
    false
}

/// Whether so it is with each of these conditions.
fn have_own(lines: &[Line<'_>], conditions: &[Condition]) -> bool
    ensures { result ≡ have_own (map line_of lines.now) (map condition_of conditions.now) }
{
    for condition in conditions {
        if !has_own(lines, condition.name.as_slice()) {
            return false;
        }
    }
    true
}

/// Appends the `<<EOF>>` of a rule without a list, where no condition is left for it.
fn add_idle_end(notices: &mut Vec<Notice>, own: bool, line: Line<'_>) -> Result<(), AllocError>
    ensures { OnOk result (notices.new.items ≡ notices.old.items ++ idle_notices own (line_of line.entry)) }
{
    if own && line.text.starts_with(b"<<EOF>>") {
        notices.push(Notice {
            line: line.number,
            at: 0,
            size: 7,
            kind: NoticeKind::IdleEnd,
        })?;
    }
    Ok(())
}

/// Appends those of a text with these lines and conditions.
pub(crate) fn add_idle_ends(
    notices: &mut Vec<Notice>,
    lines: &[Line<'_>],
    conditions: &[Condition],
) -> Result<(), AllocError>
    ensures { OnOk result (notices.new.items
        ≡ notices.old.items ++ idle_ends (map line_of lines.now) (map condition_of conditions.now)) }
{
    let own = have_own(lines, conditions);
    for line in lines {
        add_idle_end(notices, own, *line)?;
    }
    Ok(())
}
