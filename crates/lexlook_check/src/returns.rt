//! Carriage returns that stand before no newline, and so end no line.
ghost use Rattle.std.specs.Prelude.{◌≡◌, ◌≤◌, ◌++◌, OnOk, flat_map, length, map};
ghost use Rattle.lex_semantics.specs.Limits.{max_file_bytes};
ghost use Rattle.lexlook_text.specs.LineViews.{line_of};
ghost use Rattle.lexlook_check.specs.Returns.{has_lone_return, is_lone, lone_place, lone_returns, return_notices};

use crate::flex_trails::add_sign;
use crate::notices::{Notice, NoticeKind};
use lexlook_text::{Line, lines_of};
use std::alloc::{AllocError, Global};

/// Whether a byte before this text is such a one.
fn is_lone(byte: u8, behind: &[u8]) -> bool
    ensures { result ≡ is_lone byte behind.now }
{
    byte == b'\r' && !behind.starts_with(b"\n")
}

/// Whether one stands in the text.
pub(crate) fn has_lone_return(text: &[u8]) -> bool
    ensures { result ≡ has_lone_return text.now }
{
    let mut rest = text;
    'bytes: while let Some((first, next)) = rest.split_first() {
        if is_lone(*first, next) {
            return true;
        }
        rest = next;
    }
    false
}

/// The place of the first in the line that begins the text.
fn lone_place(text: &[u8]) -> Option<usize>
    ensures { result ≡ lone_place 0 text.now }
{
    let mut rest = text;
    let mut at = 0;
    'bytes: while let Some((first, next)) = rest.split_first() {
        if *first == b'\n' {
            return None;
        }
        if is_lone(*first, next) {
            return Some(at);
        }
        at += 1;
        rest = next;
    }
    None
}

/// Appends those of these lines, of each the first.
fn add_returns(notices: &mut Vec<Notice>, lines: &[Line<'_>]) -> Result<(), AllocError>
    ensures { OnOk result (notices.new.items ≡ notices.old.items ++ flat_map return_notices (map line_of lines.now)) }
{
    for line in lines {
        add_sign(
            notices,
            line.number,
            NoticeKind::LoneReturn,
            lone_place(line.text),
        )?;
    }
    Ok(())
}

/// Appends those of the lines of a text.
pub(crate) fn add_lone_returns(
    alloc: Global,
    notices: &mut Vec<Notice>,
    text: &[u8],
) -> Result<(), AllocError>
    requires { length text.now ≤ max_file_bytes }
    ensures { OnOk result (notices.new.items ≡ notices.old.items ++ lone_returns text.now) }
{
    let lines = lines_of(alloc, text)?;
    add_returns(notices, lines.as_slice())
}
