//! Definitions that no pattern uses.
ghost use Rattle.std.specs.Prelude.{◌≡◌, ◌++◌, OnOk, flat_map, map};
ghost use Rattle.lexlook_text.specs.LineViews.{line_of};
ghost use Rattle.lexlook_check.specs.Unused.{stands_in, unused_notices};

use crate::notices::{Notice, NoticeKind};
use lexlook_text::Line;
use lexre_bytes::split_name;
use std::alloc::AllocError;

/// Whether a name stands behind a brace in a text.
fn stands_in(name: &[u8], text: &[u8]) -> bool
    ensures { result ≡ stands_in name.now text.now }
{
    let mut rest = text;
    'bytes: while let Some((first, next)) = rest.split_first() {
        if *first == b'{' && split_name(next).0 == name {
            return true;
        }
        rest = next;
    }
    false
}

/// Appends a definition, where it stands at the line `own` or behind it and its name stands in braces nowhere.
fn add_if_unused(
    notices: &mut Vec<Notice>,
    own: usize,
    whole: &[u8],
    line: Line<'_>,
) -> Result<(), AllocError>
    ensures { OnOk result (notices.new.items ≡ notices.old.items ++ unused_notices own whole.now (line_of line.entry)) }
{
    let name = split_name(line.text).0;
    if (line.number as usize) < own || stands_in(name, whole) {
        return Ok(());
    }
    notices.push(Notice {
        line: line.number,
        at: 0,
        size: name.len(),
        kind: NoticeKind::UnusedDefinition,
    })?;
    Ok(())
}

/// Appends those of these definitions that are at the line `own` or behind it and that nothing uses.
pub(crate) fn add_unused(
    notices: &mut Vec<Notice>,
    own: usize,
    whole: &[u8],
    definitions: &[Line<'_>],
) -> Result<(), AllocError>
    ensures { OnOk result (notices.new.items
        ≡ notices.old.items ++ flat_map (unused_notices own whole.now) (map line_of definitions.now)) }
{
    for line in definitions {
        add_if_unused(notices, own, whole, *line)?;
    }
    Ok(())
}
