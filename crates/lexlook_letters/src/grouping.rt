//! Which sequences share a branch of a pattern.
ghost use Rattle.std.specs.Prelude.{◌≡◌, ◌+◌, drop};
ghost use Rattle.lexlook_letters.specs.Sequences.{byte_ranges, last_range};
ghost use Rattle.lexlook_letters.specs.Text.{going_through, join, joined, same_range};

use crate::sequence::{ByteRange, Sequence};

/// The last range.
pub(crate) fn last_range(sequence: Sequence) -> ByteRange
    ensures { result ≡ last_range sequence }
{
    match sequence {
        Sequence::One(last) => last,
        Sequence::Two(_, last) => last,
        Sequence::Three(_, _, last) => last,
        Sequence::Four(_, _, _, last) => last,
    }
}

/// Whether two ranges are the same.
fn same_range(left: ByteRange, right: ByteRange) -> bool
    ensures { result ≡ same_range left right }
{
    left.first == right.first && left.last == right.last
}

/// The range with a number, where others follow it.
pub(crate) fn going_through(sequence: Sequence, at: usize) -> Option<ByteRange>
    ensures { result ≡ going_through (drop at (byte_ranges sequence)) }
{
    match sequence {
        Sequence::One(_) => None,
        Sequence::Two(a, _) => { if at == 0 { Some(a) } else { None } }
        Sequence::Three(a, b, _) => {
            if at == 0 {
                Some(a)
            } else if at == 1 {
                Some(b)
            } else {
                None
            }
        }
        Sequence::Four(a, b, c, _) => {
            if at == 0 {
                Some(a)
            } else if at == 1 {
                Some(b)
            } else if at == 2 {
                Some(c)
            } else {
                None
            }
        }
    }
}

/// Whether two sequences that stand next to each other are in one branch, from the range with a number on.
fn join(left: Sequence, right: Sequence, at: usize) -> bool
    ensures { result ≡ join at left right }
{
    match (going_through(left, at), going_through(right, at)) {
        (None, None) => true,
        (Some(a), Some(b)) => same_range(a, b),
        _ => false,
    }
}

/// How many sequences at the front are in one branch, from the range with a number on.
pub(crate) fn run_length(first: Sequence, more: &[Sequence], at: usize) -> usize
    ensures { result ≡ 1 + joined at first more.now }
{
    let mut before = first;
    let mut count = 1;
    for sequence in more {
        if !join(before, *sequence, at) {
            return count;
        }
        before = *sequence;
        count += 1;
    }
    count
}
