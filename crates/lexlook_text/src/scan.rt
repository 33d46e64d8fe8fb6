//! The first name of a text that has no meaning there, outside of strings and comments. (POSIX, lex, Rules in lex.)
ghost use Rattle.std.specs.Prelude.{◌≡◌, ◌<◌, ◌+◌, ◌^◌, length};
ghost use Rattle.lexlook_text.specs.WordViews.{words_of};
ghost use Rattle.lexlook_text.specs.Scan.{begins_name, depth_behind, ends_scan, ends_there, is_among, is_code, met_last, others_behind, past, place_behind, start_at, unknown_at, unknown_from};

use crate::names::has_word;
use lexre_bytes::{goes_on_name, split_name, starts_name};

/// Where a byte stands.
#[derive(Clone, Copy)]
pub(crate) enum Place {
    /// Outside of strings and comments.
    Outside,
    /// Behind a slash there.
    Slash,
    /// In a comment `/* .. */`.
    Block,
    /// Behind a star in one.
    Star,
    /// In a comment to the end of the line.
    LineEnd,
    /// In a string.
    Quoted,
    /// Behind a backslash in one.
    Escaped,
}

/// Where a scan stands.
#[derive(Clone, Copy)]
pub(crate) struct Cursor {
    /// What the next byte stands in.
    pub(crate) place: Place,
    /// Whether no byte of a name stands before it.
    fresh: bool,
    /// How many braces are open.
    pub(crate) depth: usize,
    /// Its line.
    pub(crate) line: u32,
    /// How many bytes of that stand before it.
    pub(crate) at: usize,
}

/// Where a word stands.
#[derive(Clone, Copy)]
pub struct Spot {
    /// Its line, from 1.
    pub line: u32,
    /// How many bytes of that stand before it.
    pub at: usize,
    /// How many bytes it has.
    pub size: usize,
}

/// Words in two texts.
#[derive(Clone, Copy)]
pub(crate) struct Words<'a> {
    /// Some of them.
    pub(crate) some: &'a [u8],
    /// The others.
    pub(crate) others: &'a [u8],
}

impl Words<'_> {
    /// Whether the name is among them.
    fn has(self, name: &[u8]) -> bool
        ensures { result ≡ is_among (words_of self.entry) name.now }
    {
        has_word(self.some, name) || has_word(self.others, name)
    }
}

impl Place {
    /// Where the byte behind this one stands.
    pub(crate) fn behind(self, byte: u8) -> Place
        ensures { result ≡ place_behind self byte }
    {
        match self {
            Place::Outside => match byte {
                b'/' => Place::Slash,
                b'"' => Place::Quoted,
                _ => Place::Outside,
            },
            Place::Slash => match byte {
                b'*' => Place::Block,
                b'/' => Place::LineEnd,
                b'"' => Place::Quoted,
                _ => Place::Outside,
            },
            Place::Block => match byte {
                b'*' => Place::Star,
                _ => Place::Block,
            },
            Place::Star => match byte {
                b'/' => Place::Outside,
                b'*' => Place::Star,
                _ => Place::Block,
            },
            Place::LineEnd => match byte {
                b'\n' => Place::Outside,
                _ => Place::LineEnd,
            },
            Place::Quoted => match byte {
                b'"' => Place::Outside,
                b'\\' => Place::Escaped,
                _ => Place::Quoted,
            },
            Place::Escaped => Place::Quoted,
        }
    }

    /// Whether it is outside of strings and comments.
    pub(crate) fn is_code(self) -> bool
        ensures { result ≡ is_code self }
    {
        matches!(self, Place::Outside | Place::Slash)
    }

    /// Whether a newline may end an action there.
    fn ends_there(self) -> bool
        ensures { result ≡ ends_there self }
    {
        matches!(self, Place::Outside | Place::Slash | Place::LineEnd)
    }
}

impl Cursor {
    /// Outside of all, at this place of this line.
    pub(crate) fn start_at(line: u32, at: usize) -> Cursor
        ensures { result ≡ start_at line at }
    {
        Cursor {
            place: Place::Outside,
            fresh: true,
            depth: 0,
            line,
            at,
        }
    }

    /// How many braces are open behind the byte.
    fn depth_behind(self, byte: u8) -> usize
        requires { self.depth + 1 < 2 ^ 64 }
        ensures { result ≡ depth_behind self byte }
    {
        if !self.place.is_code() {
            return self.depth;
        }
        match byte {
            b'{' => self.depth + 1,
            b'}' => self.depth.saturating_sub(1),
            _ => self.depth,
        }
    }

    /// Behind the byte.
    pub(crate) fn past(self, byte: u8) -> Cursor
        requires depth { self.depth + 1 < 2 ^ 64 }
        requires line { self.line + 1 < 2 ^ 32 }
        requires at { self.at + 1 < 2 ^ 64 }
        ensures { result ≡ past self byte }
    {
        let ended = byte == b'\n';
        let line = if ended { self.line + 1 } else { self.line };
        let at = if ended { 0 } else { self.at + 1 };
        Cursor {
            place: self.place.behind(byte),
            fresh: !goes_on_name(byte),
            depth: self.depth_behind(byte),
            line,
            at,
        }
    }

    /// Whether the byte is the newline that ends the scan.
    pub(crate) fn ends_scan(self, byte: u8) -> bool
        ensures { result ≡ ends_scan self byte }
    {
        byte == b'\n' && self.depth == 0 && self.place.ends_there()
    }

    /// Whether a name begins with the byte.
    pub(crate) fn begins_name(self, byte: u8) -> bool
        ensures { result ≡ begins_name self byte }
    {
        self.place.is_code() && self.fresh && starts_name(byte)
    }

    /// The name that begins the text, where its first byte is this, one begins there, and it is not among these words.
    fn unknown_at(self, known: Words<'_>, first: u8, text: &[u8]) -> Option<Spot>
        ensures { result ≡ unknown_at (words_of known.entry) self first text.now }
    {
        let name = split_name(text).0;
        if !self.begins_name(first) || known.has(name) {
            return None;
        }
        Some(Spot {
            line: self.line,
            at: self.at,
            size: name.len(),
        })
    }
}

/// The one that is met, where no more are to be passed over.
fn met_last(met: Option<Spot>, others: usize) -> Option<Spot>
    ensures { result ≡ met_last met others }
{
    if others == 0 { met } else { None }
}

/// How many more are to be passed over behind it.
fn others_behind(met: Option<Spot>, others: usize) -> usize
    ensures { result ≡ others_behind met others }
{
    if met.is_none() {
        others
    } else {
        others.saturating_sub(1)
    }
}

/// The first name of a text that is not among these words, but for so many before it: outside of strings and comments, up
/// to the first newline outside of braces too. The text begins at this place.
pub(crate) fn unknown_behind(
    known: Words<'_>,
    others: usize,
    start: Cursor,
    text: &[u8],
) -> Option<Spot>
    requires depth { start.depth + length text.now < 2 ^ 64 }
    requires line { start.line + length text.now < 2 ^ 32 }
    requires at { start.at + length text.now < 2 ^ 64 }
    ensures { result ≡ unknown_from (words_of known.entry) others start text.now }
{
    let mut cursor = start;
    let mut rest = text;
    let mut left = others;
    'bytes: while let Some((first, next)) = rest.split_first() {
        if cursor.ends_scan(*first) {
            return None;
        }
        let met = cursor.unknown_at(known, *first, rest);
        if let Some(spot) = met_last(met, left) {
            return Some(spot);
        }
        left = others_behind(met, left);
        cursor = cursor.past(*first);
        rest = next;
    }
    None
}
