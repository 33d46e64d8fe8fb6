//! The ranges of a set, by the table.
use crate::table::SETS;
use lexlook_letters::CodeRange;
use std::alloc::AllocError;

/// The number in hexadecimal digits, if it is one of at most so many.
pub(crate) fn number_of(digits: &str, most: usize) -> Option<u32> {
    if digits.len() > most || !digits.bytes().all(|byte| byte.is_ascii_hexdigit()) {
        return None;
    }
    u32::from_str_radix(digits, 16).ok()
}

/// The range of a word of the table, as `41-5A` or `AA`.
fn range_of(word: &str) -> Option<CodeRange> {
    let (first, last) = word.split_once('-').unwrap_or((word, word));
    Some(CodeRange {
        first: number_of(first, 6)?,
        last: number_of(last, 6)?,
    })
}

/// Whether a set has this name, of those that it is called by.
fn is_called(names: &str, name: &str) -> bool {
    for one in names.split_whitespace() {
        if one == name {
            return true;
        }
    }
    false
}

/// The ranges of a line of the table, if its set has this name.
fn ranges_in(line: &'static str, name: &str) -> Option<&'static str> {
    let (names, ranges) = line.split_once(':')?;
    if is_called(names, name) {
        Some(ranges)
    } else {
        None
    }
}

/// The ranges of the set of this name, as the table has them, or None where it has no such name.
fn listed(name: &str) -> Option<&'static str> {
    for line in SETS.lines() {
        if let Some(ranges) = ranges_in(line, name) {
            return Some(ranges);
        }
    }
    None
}

/// Adds the ranges of the set of this name. The answer is whether there is one.
pub(crate) fn add_named(ranges: &mut Vec<CodeRange>, name: &str) -> Result<bool, AllocError> {
    let Some(words) = listed(name) else {
        return Ok(false);
    };
    for word in words.split_whitespace() {
        if let Some(range) = range_of(word) {
            ranges.push(range)?;
        }
    }
    Ok(true)
}
