//! The lines of a text, and which of them define and declare.
ghost use Rattle.std.specs.Prelude.{◌≡◌, ◌≤◌, true, IfOk, length, map};
ghost use Rattle.lex_semantics.specs.Limits.{max_file_bytes};
ghost use Rattle.lexlook_text.specs.DefinitionLines.{behind_line, ends_comment, ends_section, is_of_kind, lines_from, section_lines};
ghost use Rattle.lexlook_text.specs.LineViews.{line_of};

use lexre_bytes::{skip_first, starts_name};
use std::alloc::{AllocError, Global};

/// A line of a text.
#[derive(Clone, Copy)]
pub struct Line<'a> {
    /// Its number, from 1.
    pub number: u32,
    /// The text from its first byte on.
    pub text: &'a [u8],
}

/// What a line of the definitions section does.
#[derive(Clone, Copy)]
pub enum LineKind {
    /// It defines a name.
    Definition,
    /// It begins with `%`, and may declare conditions or options.
    Declaration,
}

/// What a line of the definitions section stands in.
#[derive(Clone, Copy)]
enum Within {
    /// Neither a block nor a comment.
    Nothing,
    /// A block, from `%{` to `%}`.
    Block,
    /// A comment that began on an earlier line.
    Comment,
}

/// The lines of a text.
pub fn lines_of(alloc: Global, text: &[u8]) -> Result<Vec<Line<'_>>, AllocError>
    requires { length text.now ≤ max_file_bytes }
    ensures { IfOk result (λ found. map line_of found.items ≡ lines_from 1 true text.now) }
{
    let mut found = Vec::new(alloc);
    let mut rest = text;
    let mut number = 1;
    let mut fresh = true;
    'bytes: while let Some((first, next)) = rest.split_first() {
        if fresh {
            found.push(Line { number, text: rest })?;
        }
        fresh = *first == b'\n';
        if fresh {
            number += 1;
        }
        rest = next;
    }
    Ok(found)
}

/// Whether a `*/` stands in the line that begins the text.
fn ends_comment(text: &[u8]) -> bool
    ensures { result ≡ ends_comment text.now }
{
    let mut rest = text;
    'bytes: while let Some((first, next)) = rest.split_first() {
        if *first == b'\n' {
            return false;
        }
        if *first == b'*' && next.starts_with(b"/") {
            return true;
        }
        rest = next;
    }
    false
}

impl Within {
    /// What the line behind this one stands in.
    fn behind(self, text: &[u8]) -> Within
        ensures { result ≡ behind_line self text.now }
    {
        match self {
            Within::Nothing => {
                if text.starts_with(b"%{") {
                    Within::Block
                } else if text.starts_with(b"/*") && !ends_comment(skip_first(skip_first(text))) {
                    Within::Comment
                } else {
                    Within::Nothing
                }
            }
            Within::Block => {
                if text.starts_with(b"%}") {
                    Within::Nothing
                } else {
                    Within::Block
                }
            }
            Within::Comment => {
                if ends_comment(text) {
                    Within::Nothing
                } else {
                    Within::Comment
                }
            }
        }
    }

    /// Whether the line that begins the text is of this kind.
    fn is_of_kind(self, kind: LineKind, text: &[u8]) -> bool
        ensures { result ≡ is_of_kind kind self text.now }
    {
        match (self, text.first()) {
            (Within::Nothing, Some(first)) => match kind {
                LineKind::Definition => starts_name(*first),
                LineKind::Declaration => *first == b'%',
            },
            _ => false,
        }
    }

    /// Whether the line that begins the text ends the section.
    fn ends_section(self, text: &[u8]) -> bool
        ensures { result ≡ ends_section self text.now }
    {
        matches!(self, Within::Nothing) && text.starts_with(b"%%")
    }
}

/// Of the lines of a text those of this kind in its definitions section.
pub fn section_lines<'a>(
    alloc: Global,
    kind: LineKind,
    lines: &[Line<'a>],
) -> Result<Vec<Line<'a>>, AllocError>
    ensures { IfOk result (λ found. map line_of found.items ≡ section_lines kind (map line_of lines.now)) }
{
    let mut found = Vec::new(alloc);
    let mut within = Within::Nothing;
    for line in lines {
        if within.ends_section(line.text) {
            return Ok(found);
        }
        if within.is_of_kind(kind, line.text) {
            found.push(*line)?;
        }
        within = within.behind(line.text);
    }
    Ok(found)
}
