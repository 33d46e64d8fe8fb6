//! The code points that ranges leave out, and ranges that do not touch.
ghost use Rattle.std.specs.Prelude.{◌≡◌, ◌↔◌, ℕ, ◌^◌, ◌<◌, ◌≤◌, ◌⊎◌, ◌∷◌, ◌++◌, IfOk, List, OnOk};
ghost use Rattle.lexlook_letters.specs.Apart.{AreApart, ranges_between};
ghost use Rattle.lexlook_letters.specs.Encoding.{InNoneOf, InOneOf, LiesWithin};
ghost use Rattle.lexlook_letters.specs.declared.ranges.CodeRange.{CodeRange};

use crate::cutting::LAST;
use crate::ranges::CodeRange;
use std::alloc::{AllocError, Global};

/// Adds the range from the first number up to the end, which is not in it, where there is one.
fn push_between(left: &mut Vec<CodeRange>, first: u64, end: u64) -> Result<(), AllocError>
    requires { end ≤ 2 ^ 32 }
    ensures { OnOk result (left.new.items ≡ left.old.items ++ ranges_between first end) }
{
    if first < end {
        left.push(CodeRange {
            first: first as u32,
            last: (end - 1) as u32,
        })?;
    }
    Ok(())
}

/// Adds what is left of a piece without a range.
fn push_left(
    left: &mut Vec<CodeRange>,
    piece: CodeRange,
    taken: CodeRange,
) -> Result<(), AllocError>
    requires { taken.first ≤ taken.last }
    ensures points { OnOk result ((c : ℕ) → InOneOf left.new.items c
        ↔ (InOneOf left.old.items c ⊎ (LiesWithin piece c × (LiesWithin taken c → ⊥)))) }
    ensures apart { OnOk result ((rest : List CodeRange)
        → AreApart (left.old.items ++ piece ∷ rest) → AreApart (left.new.items ++ rest)) }
{
    let first = u64::from(piece.first);
    let end = u64::from(piece.last) + 1;
    push_between(left, first, end.min(u64::from(taken.first)))?;
    push_between(left, first.max(u64::from(taken.last) + 1), end)
}

/// The pieces without a range.
fn without(
    alloc: Global,
    pieces: &[CodeRange],
    taken: CodeRange,
) -> Result<Vec<CodeRange>, AllocError>
    requires { taken.first ≤ taken.last }
    ensures points { IfOk result (λ left. (c : ℕ) → InOneOf left.items c
        ↔ (InOneOf pieces.now c × (LiesWithin taken c → ⊥))) }
    ensures apart { IfOk result (λ left. AreApart pieces.now → AreApart left.items) }
{
    let mut left = Vec::new(alloc);
    for piece in pieces {
        push_left(&mut left, *piece, taken)?;
    }
    Ok(left)
}

/// The same, where the range may be empty.
fn less(
    alloc: Global,
    pieces: Vec<CodeRange>,
    taken: CodeRange,
) -> Result<Vec<CodeRange>, AllocError>
    ensures points { IfOk result (λ left. (c : ℕ) → InOneOf left.items c
        ↔ (InOneOf pieces.items c × (LiesWithin taken c → ⊥))) }
    ensures apart { IfOk result (λ left. AreApart pieces.items → AreApart left.items) }
{
    if taken.first > taken.last {
        return Ok(pieces);
    }
    without(alloc, pieces.as_slice(), taken)
}

/// The code points up to U+10FFFF that are in none of the ranges, by ranges that ascend and do not touch.
pub fn others(alloc: Global, ranges: &[CodeRange]) -> Result<Vec<CodeRange>, AllocError>
    ensures points { IfOk result (λ left. (c : ℕ) → InOneOf left.items c ↔ InNoneOf ranges.now c) }
    ensures apart { IfOk result (λ left. AreApart left.items) }
{
    let mut left = Vec::new(alloc);
    left.push(CodeRange {
        first: 0,
        last: LAST,
    })?;
    for range in ranges {
        left = less(alloc, left, *range)?;
    }
    Ok(left)
}

/// The code points of the ranges, up to U+10FFFF, by ranges that ascend and do not touch.
pub fn merged(alloc: Global, ranges: &[CodeRange]) -> Result<Vec<CodeRange>, AllocError>
    ensures points { IfOk result (λ found. (c : ℕ) → InOneOf found.items c
        ↔ (InOneOf ranges.now c × (c ≤ 0x10FFFF))) }
    ensures apart { IfOk result (λ found. AreApart found.items) }
{
    let left = others(alloc, ranges)?;
    others(alloc, left.as_slice())
}
