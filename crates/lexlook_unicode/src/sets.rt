//! The sets that a command line names.
use crate::reading::{add_named, number_of};
use lexlook_letters::{CodeRange, others};
use std::alloc::{AllocError, AllocFailed, Global};
use thiserror::Error;

/// Why a word has no ranges.
#[derive(Clone, Copy, Debug, PartialEq, Eq, Error)]
pub enum SetsError {
    /// No set has this name.
    #[error("unknown set")]
    Unknown,
    /// Memory ran out.
    #[error("out of memory")]
    OutOfMemory,
}

impl From<AllocError> for SetsError {
    /// A request for memory was refused.
    fn from(_error: AllocError) -> SetsError {
        SetsError::OutOfMemory
    }
}

impl<T: Drop> From<AllocFailed<T>> for SetsError {
    /// A request for memory was refused, and what was handed in is dropped.
    fn from(_error: AllocFailed<T>) -> SetsError {
        SetsError::OutOfMemory
    }
}

/// The code point that a word writes, as `U+0041`: four to six digits, and at most U+10FFFF.
fn point_of(word: &str) -> Option<u32> {
    let digits = word.strip_prefix("U+")?;
    if digits.len() < 4 {
        return None;
    }
    let point = number_of(digits, 6)?;
    if point > 0x10FFFF { None } else { Some(point) }
}

/// The range that a word writes, as `U+0400-U+04FF` or `U+00E9`. It is not empty.
fn written_range(word: &str) -> Option<CodeRange> {
    let (low, high) = word.split_once('-').unwrap_or((word, word));
    let first = point_of(low)?;
    let last = point_of(high)?;
    if first > last {
        return None;
    }
    Some(CodeRange { first, last })
}

/// Adds the ranges of a set that has no `!` before it.
fn add_set(ranges: &mut Vec<CodeRange>, name: &str) -> Result<(), SetsError> {
    if name == "Any" {
        ranges.push(CodeRange {
            first: 0,
            last: 0x10FFFF,
        })?;
        return Ok(());
    }
    if let Some(range) = written_range(name) {
        ranges.push(range)?;
        return Ok(());
    }
    if add_named(ranges, name)? {
        Ok(())
    } else {
        Err(SetsError::Unknown)
    }
}

/// Adds the ranges of all code points that are not in the set of this name.
fn add_others(alloc: Global, ranges: &mut Vec<CodeRange>, name: &str) -> Result<(), SetsError> {
    let mut given = Vec::new(alloc);
    add_set(&mut given, name)?;
    let left = others(alloc, given.as_slice())?;
    ranges.extend_from_slice(left.as_slice())?;
    Ok(())
}

/// The ranges of the code points that are in one of the sets. A set is a code point or a range of them (`U+00E9`,
/// `U+0400-U+04FF`), a general category or a group of these by its short or long name (`Lu`, `Uppercase_Letter`, `L`), a
/// script (`Greek`), `XID_Start`, `XID_Continue`, `White_Space`, `Any`, or one of these behind a `!`: all others.
///
/// `Unknown` where a word is none of them.
pub fn ranges_of(alloc: Global, sets: &[String]) -> Result<Vec<CodeRange>, SetsError> {
    let mut ranges = Vec::new(alloc);
    for set in sets {
        match set.as_str().strip_prefix('!') {
            Some(name) => add_others(alloc, &mut ranges, name)?,
            None => add_set(&mut ranges, set.as_str())?,
        }
    }
    Ok(ranges)
}
