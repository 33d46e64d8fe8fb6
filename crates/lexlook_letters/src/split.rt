//! The sequences of many ranges of code points.
ghost use Rattle.std.specs.Prelude.{◌≡◌, ◌↔◌, ℕ, ◌≤◌, IfOk, List, OnOk};
ghost use Rattle.std.specs.List.{AllByRecursion};
ghost use Rattle.lexlook_letters.specs.Cutting.{IsEncodingWithin};
ghost use Rattle.lexlook_letters.specs.Encoding.{InOneOf, IsEncodingOf, LiesWithin};
ghost use Rattle.lexlook_letters.specs.Sequences.{AddsWords, FollowsOne, IsSoundSequence};

use crate::cutting::{LAST, piece_end};
use crate::ranges::CodeRange;
use crate::sequence::{Sequence, sequence_of};
use std::alloc::{AllocError, Global};

/// The code points directly before the surrogates, and directly after them.
const BEFORE_SURROGATES: u32 = 0xD7FF;

const AFTER_SURROGATES: u32 = 0xE000;

/// Adds the sequences of the numbers from the first to the last.
fn add_run(found: &mut Vec<Sequence>, first: u32, last: u32) -> Result<(), AllocError>
    requires { last ≤ 0x10FFFF }
    ensures { OnOk result (AddsWords found.old.items found.new.items (IsEncodingWithin first last)) }
{
    let mut next = first;
    while next <= last {
        let end = piece_end(next, last);
        found.push(sequence_of(next, end))?;
        next = end + 1;
    }
    Ok(())
}

/// Adds the sequences of the code points of a range that have an encoding.
fn add_range(found: &mut Vec<Sequence>, range: CodeRange) -> Result<(), AllocError>
    ensures { OnOk result (AddsWords found.old.items found.new.items (IsEncodingOf (LiesWithin range))) }
{
    add_run(found, range.first, range.last.min(BEFORE_SURROGATES))?;
    add_run(
        found,
        range.first.max(AFTER_SURROGATES),
        range.last.min(LAST),
    )
}

/// Sequences of ranges of bytes whose words are the encodings of the code points of the ranges. The ranges may stand in
/// any order and overlap. Surrogates and numbers beyond U+10FFFF have no encoding. (RFC 3629, section 3.)
///
/// It is refused for want of memory alone. No range of a sequence is empty.
pub fn sequences(alloc: Global, ranges: &[CodeRange]) -> Result<Vec<Sequence>, AllocError>
    ensures words { IfOk result (λ found. (w : List ℕ)
        → FollowsOne found.items w ↔ IsEncodingOf (InOneOf ranges.now) w) }
    ensures sound { IfOk result (λ found. AllByRecursion IsSoundSequence found.items) }
{
    let mut found = Vec::new(alloc);
    for range in ranges {
        add_range(&mut found, *range)?;
    }
    Ok(found)
}
