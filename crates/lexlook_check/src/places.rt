//! The files of a specification, and where its lines stand.
ghost use Rattle.std.specs.Prelude.{◌≡◌, ◌-◌, IfOk};
ghost use Rattle.lexspec_lines.specs.Lines.{newlines};
ghost use Rattle.lexspec_lines.specs.Sections.{ends_line};
ghost use Rattle.lexlook_check.specs.Places.{begins_in, joined_text, line_place, own_line};

use lexlook_specs::add;
use std::alloc::{AllocError, Global};

/// A file of a specification.
#[derive(Clone, Copy)]
pub struct SourceFile<'a> {
    /// What it is called in the lines.
    pub name: &'a str,
    /// All that it has.
    pub bytes: &'a [u8],
}

/// Where a line stands.
#[derive(Clone, Copy)]
pub(crate) struct LinePlace<'a> {
    /// The file.
    pub(crate) name: &'a str,
    /// The line there, from 1.
    pub(crate) line: u32,
}

/// The text that the files are together.
pub(crate) fn joined_text(alloc: Global, files: &[SourceFile<'_>]) -> Result<Vec<u8>, AllocError>
    ensures { IfOk result (λ text. text.items ≡ joined_text files.now) }
{
    let mut text = Vec::new(alloc);
    for file in files {
        add(&mut text, file.bytes)?;
    }
    Ok(text)
}

/// The line at which the last file begins, of files that are this text together.
pub(crate) fn own_line(files: &[SourceFile<'_>], text: &[u8]) -> usize
    requires { text.now ≡ joined_text files.now }
    ensures { result ≡ own_line files.now }
{
    match files.last() {
        None => 1,
        Some(last) => 1 + newlines(text).saturating_sub(newlines(last.bytes)),
    }
}

/// How many newlines the text has.
fn newlines(text: &[u8]) -> usize
    ensures { result ≡ newlines text.now }
{
    text.iter().filter(|byte| **byte == b'\n').count()
}

/// Whether the text is empty, or ends with a newline.
fn ends_line(text: &[u8]) -> bool
    ensures { result ≡ ends_line text.now }
{
    text.is_empty() || text.ends_with(b"\n")
}

/// Whether the line with this number, from 1, begins in the text.
fn begins_in(text: &[u8], line: u32) -> bool
    ensures { result ≡ begins_in text.now line }
{
    let ended = newlines(text);
    let line = line as usize;
    line <= ended || (line.saturating_sub(ended) == 1 && !ends_line(text))
}

/// The number of the line in what follows the text.
fn line_behind(text: &[u8], line: u32) -> u32
    ensures { result ≡ line - newlines text.now }
{
    (line as usize).saturating_sub(newlines(text)) as u32
}

/// In which file a line of the whole text stands, and at which line there. A line stands where it begins, and what is
/// behind all lines in the last file.
pub(crate) fn line_place<'a>(files: &[SourceFile<'a>], line: u32) -> LinePlace<'a>
    ensures { line_place files.now line ≡ (result.name.now, result.line) }
{
    let mut line = line;
    for at in 0..files.len() {
        let file = files[at];
        if at + 1 == files.len() || begins_in(file.bytes, line) {
            return LinePlace {
                name: file.name,
                line,
            };
        }
        line = line_behind(file.bytes, line);
    }
    LinePlace { name: "", line }
}
