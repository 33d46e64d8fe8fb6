//! Sets of bytes, written as classes of patterns.
ghost use Rattle.std.specs.Prelude.{◌≡◌, ◌<◌, ◌==◌, length, slice_index, ◌++◌, OnOk, count_by};
ghost use Rattle.lexlook_specs.specs.Classes.{class_of, is_mostly_full, opening_of, ranges, share, size, spelled};
ghost use Rattle.lexlook_specs.specs.Pictures.{quoted};
ghost use Rattle.lexlook_specs.specs.Sets.{set_of};

use crate::picture::adding::{add, add_quoted};
use lex_io::octal;
use std::alloc::AllocError;

/// The bytes by which a state leads to a target, or the other bytes.
#[derive(Clone, Copy)]
pub(crate) struct Leading<'a> {
    /// The targets of the state, by the bytes from 0 to 255.
    pub(crate) row: &'a [u32],
    pub(crate) target: u32,
    /// Whether it is the other bytes.
    pub(crate) others: bool,
}

impl Leading<'_> {
    /// Whether the byte is in the set.
    fn has(self, byte: usize) -> bool
        requires { byte < length self.row.now }
        ensures { result ≡ set_of self.entry byte }
    {
        (self.row[byte] == self.target) != self.others
    }
}

/// Appends a byte as it is spelled in a class.
fn add_spelled(text: &mut Vec<u8>, byte: u8) -> Result<(), AllocError>
    ensures { OnOk result (text.new.items ≡ text.old.items ++ quoted (spelled byte)) }
{
    match byte {
        b'\t' => add_quoted(text, b"\\t"),
        b'\n' => add_quoted(text, b"\\n"),
        b'"' | b'-' | b'['..=b'^' => add_quoted(text, &[b'\\', byte]),
        b' '..=b'~' => add_quoted(text, &[byte]),
        _ => add_quoted(text, &octal(byte)),
    }
}

/// Appends what stands for a byte of a set.
fn add_share(text: &mut Vec<u8>, set: Leading<'_>, byte: u8) -> Result<(), AllocError>
    requires { length set.row.now ≡ 256 }
    ensures { OnOk result (text.new.items ≡ text.old.items ++ quoted (share (set_of set.entry) byte)) }
{
    let at = usize::from(byte);
    if !set.has(at) {
        return Ok(());
    }
    if at == 255 || !set.has(at + 1) {
        return add_spelled(text, byte);
    }
    if at > 0 && set.has(at - 1) {
        return Ok(());
    }
    add_spelled(text, byte)?;
    add_quoted(text, b"-")
}

/// Appends the ranges of a set.
fn add_ranges(text: &mut Vec<u8>, set: Leading<'_>) -> Result<(), AllocError>
    requires { length set.row.now ≡ 256 }
    ensures { OnOk result (text.new.items ≡ text.old.items ++ quoted (ranges (set_of set.entry))) }
{
    for byte in 0..256usize {
        add_share(text, set, byte as u8)?;
    }
    Ok(())
}

/// How often a target stands in a row.
fn count(row: &[u32], target: u32) -> usize
    ensures { result ≡ count_by (λ t. t == target) row.now }
{
    row.iter().filter(|other| **other == target).count()
}

/// How many bytes lead to the target.
fn size(row: &[u32], target: u32) -> usize
    requires { length row.now ≡ 256 }
    ensures { result ≡ size (λ b. slice_index row.now b == target) }
{
    count(row, target)
}

/// Whether more than half of the bytes lead to the target, but not all.
fn is_mostly_full(row: &[u32], target: u32) -> bool
    requires { length row.now ≡ 256 }
    ensures { result ≡ is_mostly_full (λ b. slice_index row.now b == target) }
{
    let size = size(row, target);
    size > 128 && size < 256
}

/// What a class begins with, where it is written by the bytes that it lacks, and where not.
fn opening(others: bool) -> &'static [u8]
    ensures { result.now ≡ opening_of others }
{
    if others { b"[^" } else { b"[" }
}

/// Appends the class of the bytes by which a row leads to a target.
pub(crate) fn add_class(text: &mut Vec<u8>, row: &[u32], target: u32) -> Result<(), AllocError>
    requires { length row.now ≡ 256 }
    ensures { OnOk result (text.new.items ≡ text.old.items
        ++ quoted (class_of (λ b. slice_index row.now b == target))) }
{
    let others = is_mostly_full(row, target);
    add(text, opening(others))?;
    let set = Leading {
        row,
        target,
        others,
    };
    add_ranges(text, set)?;
    add(text, b"]")
}
