//! Where what has no end was opened: a string, a comment or a brace of an action. (POSIX, lex, Actions in lex.)
ghost use Rattle.std.specs.Prelude.{◌≡◌, ◌≤◌, ◌<◌, ◌+◌, ◌^◌, length};
ghost use Rattle.lex_semantics.specs.Limits.{max_file_bytes};
ghost use Rattle.lexlook_text.specs.LineViews.{line_of};
ghost use Rattle.lexlook_text.specs.Opened.{brace_behind, is_slash, is_string, opened_by, opened_from, opening_behind, spot_up_to, stops_at, text_behind, unclosed_spot};

use crate::definitions::Line;
use crate::pieces::behind_pattern;
use crate::scan::{Cursor, Place, Spot};

/// Where a scan stands, and what is open there.
#[derive(Clone, Copy)]
pub(crate) struct Openings {
    /// Where it stands.
    cursor: Cursor,
    /// The string or comment that is open.
    text: Option<Spot>,
    /// The outermost brace that is open.
    brace: Option<Spot>,
}

/// Whether it is behind a slash.
fn is_slash(place: Place) -> bool
    ensures { result ≡ is_slash place }
{
    matches!(place, Place::Slash)
}

/// Whether it is in a string.
fn is_string(place: Place) -> bool
    ensures { result ≡ is_string place }
{
    matches!(place, Place::Quoted | Place::Escaped)
}

/// So many bytes that end with the one of a cursor.
fn spot_up_to(cursor: Cursor, size: usize) -> Spot
    ensures { result ≡ spot_up_to cursor size }
{
    Spot {
        line: cursor.line,
        at: cursor.at.saturating_sub(size.saturating_sub(1)),
        size,
    }
}

/// What opens a string or a comment with this byte.
fn opened_by(cursor: Cursor, byte: u8) -> Option<Spot>
    ensures { result ≡ opened_by cursor byte }
{
    if byte == b'"' {
        Some(spot_up_to(cursor, 1))
    } else if is_slash(cursor.place) && byte == b'*' {
        Some(spot_up_to(cursor, 2))
    } else {
        None
    }
}

/// Whether a string, or an action outside of braces, ends with the byte.
fn stops_at(cursor: Cursor, byte: u8) -> bool
    ensures { result ≡ stops_at cursor byte }
{
    (byte == b'\n' && is_string(cursor.place)) || cursor.ends_scan(byte)
}

impl Openings {
    /// The string or comment that is open behind the byte.
    fn text_behind(self, byte: u8) -> Option<Spot>
        ensures { result ≡ text_behind self byte }
    {
        if self.cursor.place.is_code() {
            opened_by(self.cursor, byte)
        } else if self.cursor.place.behind(byte).is_code() {
            None
        } else {
            self.text
        }
    }

    /// The outermost brace that is open behind the byte.
    fn brace_behind(self, byte: u8) -> Option<Spot>
        ensures { result ≡ brace_behind self byte }
    {
        if !self.cursor.place.is_code() {
            self.brace
        } else if byte == b'{' && self.cursor.depth == 0 {
            Some(spot_up_to(self.cursor, 1))
        } else if byte == b'}' && self.cursor.depth <= 1 {
            None
        } else {
            self.brace
        }
    }

    /// What is open behind the byte.
    fn behind(self, byte: u8) -> Openings
        requires depth { self.cursor.depth + 1 < 2 ^ 64 }
        requires line { self.cursor.line + 1 < 2 ^ 32 }
        requires at { self.cursor.at + 1 < 2 ^ 64 }
        ensures { result ≡ opening_behind self byte }
    {
        Openings {
            cursor: self.cursor.past(byte),
            text: self.text_behind(byte),
            brace: self.brace_behind(byte),
        }
    }
}

/// Where in a text what has no end was opened.
fn opened_from(start: Openings, text: &[u8]) -> Option<Spot>
    requires depth { start.cursor.depth + length text.now < 2 ^ 64 }
    requires line { start.cursor.line + length text.now < 2 ^ 32 }
    requires at { start.cursor.at + length text.now < 2 ^ 64 }
    ensures { result ≡ opened_from start text.now }
{
    let mut open = start;
    let mut rest = text;
    'bytes: while let Some((first, next)) = rest.split_first() {
        if stops_at(open.cursor, *first) {
            return open.text.or(open.brace);
        }
        open = open.behind(*first);
        rest = next;
    }
    open.text.or(open.brace)
}

/// Where in a line that has something without an end that was opened: a block or a comment that it begins with, or
/// something in the action of its rule.
pub(crate) fn unclosed_spot(line: Line<'_>) -> Option<Spot>
    requires { line.number + length line.text.now ≤ max_file_bytes + 1 }
    ensures { result ≡ unclosed_spot (line_of line.entry) }
{
    if line.text.starts_with(b"%{") || line.text.starts_with(b"/*") {
        return Some(Spot {
            line: line.number,
            at: 0,
            size: 2,
        });
    }
    let rest = behind_pattern(line.text);
    let at = line.text.len().saturating_sub(rest.len());
    let start = Openings {
        cursor: Cursor::start_at(line.number, at),
        text: None,
        brace: None,
    };
    opened_from(start, rest)
}
