//! The pieces of a pattern, as they stand. (POSIX, lex, Regular Expressions in lex.)
ghost use Rattle.std.specs.Prelude.{◌≡◌, ◌≤◌, ◌<◌, ◌+◌, ◌^◌, false, IfOk, length, map};
ghost use Rattle.lexlook_text.specs.Pieces.{behind_pattern, behind_piece, behind_quote, from_slash, pieces_from, stops_at_slash};
ghost use Rattle.lexlook_text.specs.PieceViews.{piece_of};

use lexre_bytes::{skip_class, skip_first};
use lexspec_lines::{is_blank, split_before};
use std::alloc::{AllocError, Global};

/// A piece of a pattern.
#[derive(Clone, Copy)]
pub struct Piece<'a> {
    /// How many bytes of its line stand before it.
    pub at: usize,
    /// Its bytes.
    pub text: &'a [u8],
}

/// What follows the next quote that stands behind no backslash.
fn behind_quote(text: &[u8]) -> &[u8]
    ensures { result.now ≡ behind_quote false text.now }
{
    let mut rest = text;
    let mut escaped = false;
    'bytes: while let Some((first, next)) = rest.split_first() {
        if !escaped && *first == b'"' {
            return next;
        }
        escaped = !escaped && *first == b'\\';
        rest = next;
    }
    rest
}

/// What follows the piece that begins the text.
fn behind_piece(text: &[u8]) -> &[u8]
    ensures { result.now ≡ behind_piece text.now }
{
    let Some((first, next)) = text.split_first() else {
        return text;
    };
    match *first {
        b'"' => behind_quote(next),
        b'[' => match skip_class(text, next) {
            Ok(rest) => rest,
            Err(_) => next,
        },
        b'{' => skip_first(split_before(|byte| byte == b'}', next).1),
        b'\\' => skip_first(next),
        _ => next,
    }
}

/// The pieces of the pattern that begins the text, up to the first blank or newline outside of them. So many bytes of its
/// line stand before the text.
pub fn pieces_of(alloc: Global, before: usize, text: &[u8]) -> Result<Vec<Piece<'_>>, AllocError>
    requires { before + length text.now < 2 ^ 64 }
    ensures { IfOk result (λ found. map piece_of found.items ≡ pieces_from before 0 text.now) }
{
    let mut found = Vec::new(alloc);
    let mut rest = text;
    let mut at = before;
    'pieces: while let Some((first, next)) = rest.split_first() {
        if is_blank(*first) || *first == b'\n' {
            return Ok(found);
        }
        let more = next.len().saturating_sub(behind_piece(rest).len());
        let (piece, behind) = rest.split_at(more + 1);
        found.push(Piece { at, text: piece })?;
        at += more + 1;
        rest = behind;
    }
    Ok(found)
}

/// What follows the pattern that begins the text.
pub fn behind_pattern(text: &[u8]) -> &[u8]
    ensures after { result.now ≡ behind_pattern 0 text.now }
    ensures shorter { length result.now ≤ length text.now }
{
    let mut rest = text;
    'pieces: while let Some((first, next)) = rest.split_first() {
        if is_blank(*first) || *first == b'\n' {
            return rest;
        }
        let more = next.len().saturating_sub(behind_piece(rest).len());
        rest = rest.split_at(more + 1).1;
    }
    rest
}

/// Whether a byte is a blank, a newline or a slash.
fn stops_at_slash(byte: u8) -> bool
    ensures { result ≡ stops_at_slash byte }
{
    is_blank(byte) || byte == b'\n' || byte == b'/'
}

/// What the first slash of the pattern that begins the text begins, or else what follows the pattern.
pub(crate) fn from_slash(text: &[u8]) -> &[u8]
    ensures { result.now ≡ from_slash 0 text.now }
{
    let mut rest = text;
    'pieces: while let Some((first, next)) = rest.split_first() {
        if stops_at_slash(*first) {
            return rest;
        }
        let more = next.len().saturating_sub(behind_piece(rest).len());
        rest = rest.split_at(more + 1).1;
    }
    rest
}
