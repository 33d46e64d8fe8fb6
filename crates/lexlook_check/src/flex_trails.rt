//! Trailing context that flex takes otherwise.
ghost use Rattle.std.specs.Prelude.{◌≡◌, ◌||◌, ◌++◌, false, OnOk, map};
ghost use Rattle.lexlook_text.specs.LineViews.{line_of};
ghost use Rattle.lexlook_text.specs.PieceViews.{piece_of};
ghost use Rattle.lexlook_check.specs.FlexTrails.{any_varies, sign_notices, slash_if, slash_varies, trail_notices, varies_piece};

use crate::line_walks::behind_list;
use crate::notices::{Notice, NoticeKind};
use lexlook_text::{Line, Piece, pieces_of};
use lexre_bytes::starts_name;
use std::alloc::{AllocError, Global};

/// Whether flex takes the length to vary by a piece: a sign or an interval.
fn varies_piece(piece: &[u8]) -> bool
    ensures { result ≡ varies_piece piece.now }
{
    let Some((first, rest)) = piece.split_first() else {
        return false;
    };
    match rest.split_first() {
        None => matches!(*first, b'*' | b'+' | b'?' | b'|'),
        Some((second, _)) => *first == b'{' && !starts_name(*second),
    }
}

/// Whether it does by one of these.
fn any_varies(pieces: &[Piece<'_>]) -> bool
    ensures { result ≡ any_varies (map piece_of pieces.now) }
{
    for piece in pieces {
        if varies_piece(piece.text) {
            return true;
        }
    }
    false
}

/// A slash at this place, where flex takes the length to vary before it, and by one of these behind it.
fn slash_if(varies: bool, behind: &[Piece<'_>], at: usize) -> Option<usize>
    ensures { result ≡ slash_if varies (map piece_of behind.now) at }
{
    if varies && any_varies(behind) {
        Some(at)
    } else {
        None
    }
}

/// Whether flex takes the length to vary before a piece, or by it.
fn varies_with(varies: bool, piece: &[u8]) -> bool
    ensures { result ≡ (varies || varies_piece piece.now) }
{
    varies || varies_piece(piece)
}

/// The place of the slash, where flex takes the length to vary on both sides of it.
fn slash_varies(pieces: &[Piece<'_>]) -> Option<usize>
    ensures { result ≡ slash_varies false (map piece_of pieces.now) }
{
    let mut varies = false;
    for index in 0..pieces.len() {
        let piece = pieces[index];
        if piece.text == b"/".as_slice() {
            return slash_if(varies, pieces.split_at(index + 1).1, piece.at);
        }
        varies = varies_with(varies, piece.text);
    }
    None
}

/// Appends the sign of a line at this place, if there is one, for which this is warned of.
pub(crate) fn add_sign(
    notices: &mut Vec<Notice>,
    line: u32,
    kind: NoticeKind,
    place: Option<usize>,
) -> Result<(), AllocError>
    ensures { OnOk result (notices.new.items ≡ notices.old.items ++ sign_notices line kind place) }
{
    if let Some(at) = place {
        notices.push(Notice {
            line,
            at,
            size: 1,
            kind,
        })?;
    }
    Ok(())
}

/// Appends the slash of the rule that begins a line, where flex takes both of its sides to vary in length.
pub(crate) fn add_trail(
    alloc: Global,
    notices: &mut Vec<Notice>,
    line: Line<'_>,
) -> Result<(), AllocError>
    ensures { OnOk result (notices.new.items ≡ notices.old.items ++ trail_notices (line_of line.entry)) }
{
    let text = behind_list(line.text);
    let before = line.text.len().saturating_sub(text.len());
    let pieces = pieces_of(alloc, before, text)?;
    let place = slash_varies(pieces.as_slice());
    add_sign(notices, line.number, NoticeKind::FlexTrail, place)
}
