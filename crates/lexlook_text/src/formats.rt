//! Where the format of a printf has what is not read: it has `%s` once, and `%%`. (POSIX, fprintf.)
ghost use Rattle.std.specs.Prelude.{◌≡◌, ◌≤◌, ◌<◌, ◌+◌, ◌^◌, ◌∷◌, length};
ghost use Rattle.lex_semantics.specs.Limits.{max_file_bytes};
ghost use Rattle.lexlook_text.specs.Formats.{begins_directive, format_behind, format_from, format_spot, has_text, is_bad, is_format, is_quoted};
ghost use Rattle.lexlook_text.specs.LineViews.{line_of};

use crate::definitions::Line;
use crate::pieces::behind_pattern;
use crate::scan::{Cursor, Place, Spot};
use lexre_bytes::split_name;

/// Where a scan for formats stands.
#[derive(Clone, Copy)]
pub(crate) struct Formats {
    /// Where it stands.
    cursor: Cursor,
    /// Whether strings there are formats.
    format: bool,
    /// Whether a `%s` stands before it.
    text: bool,
    /// Whether it is behind a `%` that the byte there belongs to.
    percent: bool,
}

/// Whether it is in a string, and not behind a backslash.
fn is_quoted(place: Place) -> bool
    ensures { result ≡ is_quoted place }
{
    matches!(place, Place::Quoted)
}

impl Formats {
    /// Whether the byte is a `%` to which the next one belongs.
    fn begins_directive(self, byte: u8) -> bool
        ensures { result ≡ begins_directive self byte }
    {
        self.format && is_quoted(self.cursor.place) && byte == b'%' && !self.percent
    }

    /// Whether it is one that is not read, where this text stands behind it.
    fn is_bad(self, byte: u8, next: &[u8]) -> bool
        ensures { result ≡ is_bad self byte next.now }
    {
        self.begins_directive(byte)
            && !(next.starts_with(b"%") || (next.starts_with(b"s") && !self.text))
    }

    /// Whether strings behind the byte, which begins the text, are formats.
    fn is_format(self, byte: u8, text: &[u8]) -> bool
        ensures { result ≡ is_format self byte text.now }
    {
        if self.cursor.begins_name(byte) {
            split_name(text).0 == b"printf".as_slice()
        } else {
            self.format
        }
    }

    /// Whether a `%s` stands before the text behind the byte, in the same format or one beside it.
    fn has_text(self, byte: u8, next: &[u8]) -> bool
        ensures { result ≡ has_text self byte next.now }
    {
        !self.cursor.begins_name(byte)
            && (self.text || (self.begins_directive(byte) && next.starts_with(b"s")))
    }

    /// Behind the byte that begins the text, behind which is `next`.
    fn behind(self, byte: u8, text: &[u8], next: &[u8]) -> Formats
        requires text { text.now ≡ byte ∷ next.now }
        requires depth { self.cursor.depth + 1 < 2 ^ 64 }
        requires line { self.cursor.line + 1 < 2 ^ 32 }
        requires at { self.cursor.at + 1 < 2 ^ 64 }
        ensures { result ≡ format_behind self byte next.now }
    {
        Formats {
            cursor: self.cursor.past(byte),
            format: self.is_format(byte, text),
            text: self.has_text(byte, next),
            percent: self.begins_directive(byte),
        }
    }
}

/// The first `%` of a text that is not read in a format.
fn format_from(start: Formats, text: &[u8]) -> Option<Spot>
    requires depth { start.cursor.depth + length text.now < 2 ^ 64 }
    requires line { start.cursor.line + length text.now < 2 ^ 32 }
    requires at { start.cursor.at + length text.now < 2 ^ 64 }
    ensures { result ≡ format_from start text.now }
{
    let mut scan = start;
    let mut rest = text;
    'bytes: while let Some((first, next)) = rest.split_first() {
        if scan.cursor.ends_scan(*first) {
            return None;
        }
        if scan.is_bad(*first, next) {
            return Some(Spot {
                line: scan.cursor.line,
                at: scan.cursor.at,
                size: 2,
            });
        }
        scan = scan.behind(*first, rest, next);
        rest = next;
    }
    None
}

/// The same of the action of the rule that stands at a line.
pub(crate) fn format_spot(line: Line<'_>) -> Option<Spot>
    requires { line.number + length line.text.now ≤ max_file_bytes + 1 }
    ensures { result ≡ format_spot (line_of line.entry) }
{
    let rest = behind_pattern(line.text);
    let at = line.text.len().saturating_sub(rest.len());
    let start = Formats {
        cursor: Cursor::start_at(line.number, at),
        format: false,
        text: false,
        percent: false,
    };
    format_from(start, rest)
}
