//! Trailing context behind a rule whose action is `|`, which flex takes to vary in length.
ghost use Rattle.std.specs.Prelude.{◌≡◌, ◌++◌, ◌<◌, ◌^◌, false, OnOk, length, map};
ghost use Rattle.lexlook_text.specs.LineViews.{line_of};
ghost use Rattle.lexlook_text.specs.PieceViews.{piece_of};
ghost use Rattle.lexlook_check.specs.BarTrails.{bar_notices, bar_trails, is_all_of_line, has_bar, is_bar_action, text_at, trail_place};

use crate::flex_trails::add_sign;
use crate::notices::{Notice, NoticeKind};
use lexlook_text::{Line, Piece, behind_pattern, pieces_of};
use lexspec_lines::skip_blanks;
use std::alloc::{AllocError, Global};

/// Whether nothing more stands in the line.
fn is_all_of_line(text: &[u8]) -> bool
    ensures { result ≡ is_all_of_line text.now }
{
    match text.split_first() {
        None => true,
        Some((first, _)) => *first == b'\n' || *first == b'\r',
    }
}

/// Whether a bar begins the text that is the whole action.
fn is_bar_action(text: &[u8]) -> bool
    ensures { result ≡ is_bar_action text.now }
{
    match text.split_first() {
        None => false,
        Some((first, rest)) => *first == b'|' && is_all_of_line(skip_blanks(rest)),
    }
}

/// Whether the action of the rule that begins a line is `|`.
fn has_bar(text: &[u8]) -> bool
    ensures { result ≡ has_bar text.now }
{
    is_bar_action(skip_blanks(behind_pattern(text)))
}

/// The place of the first slash of a pattern, or else that of a `$` that is its last piece.
pub(crate) fn trail_place(pieces: &[Piece<'_>]) -> Option<usize>
    ensures { result ≡ trail_place (map piece_of pieces.now) }
{
    for index in 0..pieces.len() {
        let piece = pieces[index];
        let last = index + 1 == pieces.len();
        if piece.text == b"/".as_slice() || (piece.text == b"$".as_slice() && last) {
            return Some(piece.at);
        }
    }
    None
}

/// Appends the trailing context of the rule at this line, which has this text, where it stands behind a rule with `|`.
fn add_bar_trail(
    alloc: Global,
    notices: &mut Vec<Notice>,
    behind: bool,
    rule: u32,
    text: &[u8],
) -> Result<(), AllocError>
    ensures { OnOk result (notices.new.items ≡ notices.old.items ++ bar_notices behind rule text.now) }
{
    if !behind {
        return Ok(());
    }
    let pieces = pieces_of(alloc, 0, text)?;
    add_sign(
        notices,
        rule,
        NoticeKind::BarTrail,
        trail_place(pieces.as_slice()),
    )
}

/// The text from a line of this number on, where there is one.
pub(crate) fn text_at<'a>(lines: &[Line<'a>], number: u32) -> &'a [u8]
    ensures { result.now ≡ text_at (map line_of lines.now) number }
{
    match lines.get((number as usize).saturating_sub(1)) {
        None => b"",
        Some(line) => line.text,
    }
}

/// Appends the trailing contexts of rules that stand behind one with `|`. These are the lines of all rules.
pub(crate) fn add_bar_trails(
    alloc: Global,
    notices: &mut Vec<Notice>,
    lines: &[Line<'_>],
    rules: &[u32],
) -> Result<(), AllocError>
    ensures { OnOk result (notices.new.items
        ≡ notices.old.items ++ bar_trails (map line_of lines.now) false rules.now) }
{
    let mut behind = false;
    for rule in rules {
        let text = text_at(lines, *rule);
        add_bar_trail(alloc, notices, behind, *rule, text)?;
        behind = has_bar(text);
    }
    Ok(())
}
