//! Definitions at the end of trailing context, whose pattern flex reads as if it stood in no parentheses.
ghost use Rattle.std.specs.Prelude.{◌≡◌, ◌≤◌, ◌<◌, ◌+◌, ◌^◌, ◌&&◌, ◌++◌, not, true, IfOk, OnOk, map, option_map};
ghost use Rattle.lexlook_text.specs.LineViews.{line_of};
ghost use Rattle.lexlook_text.specs.PieceViews.{piece_of};
ghost use Rattle.lexlook_check.specs.NamedTrails.{behind_slash, end_of, ends_in_name, has_branches, last_name, last_notices, last_piece, loses_bar, most_names, named_notices, named_trails, open_behind, pattern_of, piece_name, trail_lines};

use crate::bar_trails::text_at;
use crate::notices::{Notice, NoticeKind};
use lexlook_text::{Line, Piece, pieces_of};
use lexre_bytes::{split_name, starts_name};
use lexspec_lines::skip_blanks;
use std::alloc::{AllocError, Global};

/// The most names that are followed, each at the end of the pattern of the one before it.
const MOST_NAMES: usize = 8;

/// The most rules that are looked at, of those whose trailing context ends in a name.
const MOST_TRAILS: usize = 100;

/// The name at the end of a pattern.
#[derive(Clone, Copy)]
struct End<'a> {
    /// Whether it is a branch of its own.
    whole: bool,
    /// The name.
    name: &'a [u8],
}

/// The name in a piece, where it is one in braces.
fn piece_name(piece: &[u8]) -> Option<&[u8]>
    ensures { option_map (λ name. name.now) result ≡ piece_name piece.now }
{
    let (first, rest) = piece.split_first()?;
    let (second, _) = rest.split_first()?;
    if *first == b'{' && starts_name(*second) {
        Some(split_name(rest).0)
    } else {
        None
    }
}

/// The pattern of the first of these definitions that has the name. Nothing where there is none.
fn pattern_of<'a>(definitions: &[Line<'a>], name: &[u8]) -> &'a [u8]
    ensures { result.now ≡ pattern_of (map line_of definitions.now) name.now }
{
    for line in definitions {
        let (front, rest) = split_name(line.text);
        if front == name {
            return skip_blanks(rest);
        }
    }
    b""
}

/// How many parentheses are open behind a piece, where so many are before it.
fn open_behind(depth: usize, piece: &[u8]) -> usize
    requires { depth + 1 < 2 ^ 64 }
    ensures is { result ≡ open_behind depth piece.now }
    ensures at_most { result ≤ depth + 1 }
{
    if piece == b"(".as_slice() {
        depth + 1
    } else if piece == b")".as_slice() {
        depth.saturating_sub(1)
    } else {
        depth
    }
}

/// Whether a bar stands among these pieces outside of parentheses.
fn has_branches(pieces: &[Piece<'_>]) -> bool
    ensures { result ≡ has_branches 0 (map piece_of pieces.now) }
{
    let mut depth = 0;
    for piece in pieces {
        if depth == 0 && piece.text == b"|".as_slice() {
            return true;
        }
        depth = open_behind(depth, piece.text);
    }
    false
}

/// The last of these pieces, and whether it is a branch of its own: a bar stands before it, or, where it is the only one,
/// `whole`.
fn last_piece<'a>(whole: bool, pieces: &[Piece<'a>]) -> Option<(bool, Piece<'a>)>
    ensures { option_map (λ e. (e.0, piece_of e.1)) result ≡ last_piece whole (map piece_of pieces.now) }
{
    let mut alone = whole;
    for index in 0..pieces.len() {
        let piece = pieces[index];
        if index + 1 == pieces.len() {
            return Some((alone, piece));
        }
        alone = piece.text == b"|".as_slice();
    }
    None
}

/// The name in the last piece, where it is one in braces.
fn last_name<'a>(last: Option<(bool, Piece<'a>)>) -> Option<End<'a>>
    ensures { option_map end_of result ≡ last_name (option_map (λ e. (e.0, piece_of e.1)) last.entry) }
{
    let (whole, piece) = last?;
    let name = piece_name(piece.text)?;
    Some(End { whole, name })
}

/// Whether a bar among the pieces of a name divides more without parentheses round them: the name is no branch of its own.
fn divides_more(whole: bool, pieces: &[Piece<'_>]) -> bool
    ensures { result ≡ (not whole && has_branches 0 (map piece_of pieces.now)) }
{
    !whole && has_branches(pieces)
}

/// Whether a bar divides more where the pattern of the name at an end stands in no parentheses, and that of the name at its
/// end, and so on.
fn loses_bar<'a>(
    alloc: Global,
    definitions: &[Line<'a>],
    end: Option<End<'a>>,
) -> Result<bool, AllocError>
    ensures { IfOk result (λ r. r ≡ loses_bar most_names (map line_of definitions.now) (option_map end_of end.entry)) }
{
    let mut next = end;
    for _ in 0..MOST_NAMES {
        let Some(End { whole, name }) = next else {
            return Ok(false);
        };
        let pieces = pieces_of(alloc, 0, pattern_of(definitions, name))?;
        if divides_more(whole, pieces.as_slice()) {
            return Ok(true);
        }
        next = last_name(last_piece(whole, pieces.as_slice()));
    }
    Ok(false)
}

/// The pieces behind the first slash. None where there is none.
fn behind_slash<'p, 'a>(pieces: &'p [Piece<'a>]) -> &'p [Piece<'a>]
    ensures { map piece_of result.now ≡ behind_slash (map piece_of pieces.now) }
{
    for index in 0..pieces.len() {
        if pieces[index].text == b"/".as_slice() {
            return pieces.split_at(index + 1).1;
        }
    }
    pieces.split_at(pieces.len()).1
}

/// Appends a piece of a line, if there is one.
fn add_last(
    notices: &mut Vec<Notice>,
    line: u32,
    last: Option<(bool, Piece<'_>)>,
) -> Result<(), AllocError>
    ensures { OnOk result (notices.new.items
        ≡ notices.old.items ++ last_notices line (option_map (λ e. (e.0, piece_of e.1)) last.entry)) }
{
    if let Some((_, piece)) = last {
        notices.push(Notice {
            line,
            at: piece.at,
            size: piece.text.len(),
            kind: NoticeKind::NamedTrail,
        })?;
    }
    Ok(())
}

/// Appends the name at the end of the trailing context of the rule at this line, which has this text, where a bar of its
/// pattern divides more without parentheses.
fn add_named_trail<'a>(
    alloc: Global,
    notices: &mut Vec<Notice>,
    definitions: &[Line<'a>],
    rule: u32,
    text: &'a [u8],
) -> Result<(), AllocError>
    ensures { OnOk result (notices.new.items
        ≡ notices.old.items ++ named_notices (map line_of definitions.now) rule text.now) }
{
    let pieces = pieces_of(alloc, 0, text)?;
    let last = last_piece(true, behind_slash(pieces.as_slice()));
    if !loses_bar(alloc, definitions, last_name(last))? {
        return Ok(());
    }
    add_last(notices, rule, last)
}

/// Whether a name stands at the end of the trailing context of a rule with this text.
fn ends_in_name(alloc: Global, text: &[u8]) -> Result<bool, AllocError>
    ensures { IfOk result (λ r. r ≡ ends_in_name text.now) }
{
    let pieces = pieces_of(alloc, 0, text)?;
    Ok(last_name(last_piece(true, behind_slash(pieces.as_slice()))).is_some())
}

/// The first of these lines at which such a rule stands.
#[tactic(auto, using(crate::proofs::TrailLaws::all_passed))]
fn trail_lines(alloc: Global, lines: &[Line<'_>], rules: &[u32]) -> Result<Vec<u32>, AllocError>
    ensures { IfOk result (λ r. r.items ≡ trail_lines (map line_of lines.now) rules.now) }
{
    let mut found = Vec::new(alloc);
    for rule in rules {
        if ends_in_name(alloc, text_at(lines, *rule))? {
            found.push(*rule)?;
        }
    }
    found.truncate(MOST_TRAILS);
    Ok(found)
}

/// Appends those of the first rules at these lines whose trailing context ends in a name.
pub(crate) fn add_named_trails<'a>(
    alloc: Global,
    notices: &mut Vec<Notice>,
    definitions: &[Line<'a>],
    lines: &[Line<'a>],
    rules: &[u32],
) -> Result<(), AllocError>
    ensures { OnOk result (notices.new.items
        ≡ notices.old.items ++ named_trails (map line_of definitions.now) (map line_of lines.now) rules.now) }
{
    let found = trail_lines(alloc, lines, rules)?;
    for rule in found.as_slice() {
        add_named_trail(alloc, notices, definitions, *rule, text_at(lines, *rule))?;
    }
    Ok(())
}
