//! The line of a fault as it stands in its file.
ghost use Rattle.std.specs.Prelude.{◌≡◌, ◌≤◌, ◌++◌, IfSome, OnOk, length};
ghost use Rattle.lexlook_check.specs.SourceLines.{mark_words, offset_in, place_in, source_words, text_line, under};

use crate::adding::add_each;
use itoa::Buffer;
use lexlook_specs::add;
use lexspec_lines::split_line;
use std::alloc::AllocError;

/// The line with this number, from 1, without its newline: nothing where there is none.
pub(crate) fn text_line(text: &[u8], line: u32) -> &[u8]
    ensures { result.now ≡ text_line line text.now }
{
    let mut rest = text;
    let mut line = line;
    'bytes: while let Some((first, next)) = rest.split_first() {
        if line == 1 {
            return split_line(rest).0;
        }
        if *first == b'\n' {
            line = line.saturating_sub(1);
        }
        rest = next;
    }
    rest
}

/// How many bytes of the line stand before a place, where it has as many.
pub(crate) fn offset_in(at: usize, line: &[u8]) -> Option<usize>
    ensures is { result ≡ offset_in at line.now }
    ensures within { IfSome result (λ at. at ≤ length line.now) }
{
    if at <= line.len() { Some(at) } else { None }
}

/// The same of a place that may not be told.
pub(crate) fn place_in(at: Option<usize>, line: &[u8]) -> Option<usize>
    ensures is { result ≡ place_in at line.now }
    ensures within { IfSome result (λ at. at ≤ length line.now) }
{
    match at {
        None => None,
        Some(at) => offset_in(at, line),
    }
}

/// Appends what stands under bytes before a mark.
pub(crate) fn add_under(text: &mut Vec<u8>, bytes: &[u8]) -> Result<(), AllocError>
    ensures { OnOk result (text.new.items ≡ text.old.items ++ under bytes.now) }
{
    for byte in bytes {
        let shown = if *byte == b'\t' { b'\t' } else { b' ' };
        text.push(shown)?;
    }
    Ok(())
}

/// Appends the mark.
fn add_mark(
    text: &mut Vec<u8>,
    number: u32,
    line: &[u8],
    offset: Option<usize>,
) -> Result<(), AllocError>
    ensures { OnOk result (text.new.items ≡ text.old.items ++ mark_words number line.now offset) }
{
    match offset {
        None => add(text, b""),
        Some(at) => {
            let mut digits = Buffer::new();
            let digits = digits.format(number);
            add(text, b"    ")?;
            add_under(text, digits.as_bytes())?;
            add(text, b" | ")?;
            add_under(text, line.get(..at).unwrap_or(line))?;
            add(text, b"^\n")
        }
    }
}

/// Appends the line with its number, and the mark under it.
pub(crate) fn add_source(
    text: &mut Vec<u8>,
    number: u32,
    line: &[u8],
    offset: Option<usize>,
) -> Result<(), AllocError>
    ensures { OnOk result (text.new.items ≡ text.old.items ++ source_words number line.now offset) }
{
    if line.is_empty() {
        return add(text, b"");
    }
    let mut digits = Buffer::new();
    let digits = digits.format(number).as_bytes();
    add_each(text, &[b"    ", digits, b" | ", line, b"\n"])?;
    add_mark(text, number, line, offset)
}
