//! Pairs of states, one of each machine, in the order in which texts lead to them: shorter texts first.
ghost use Rattle.std.specs.Prelude.{◌≡◌, ◌+◌, ◌*◌, ◌^◌, ◌<◌, ◌≤◌, ℕ, length, slice_get, Some, None, IfOk, IfSome, OnOk};
ghost use Rattle.lexlook_tables.specs.declared.same.pairs.From.{From};
ghost use Rattle.lexlook_tables.specs.Same.{number_in};
ghost use Rattle.lexlook_tables.specs.Searching.{HasAt, IsNext, AreStarts, Searched, DifferAt, GoesOn, unseen};
ghost use Rattle.lexlook_tables.specs.Searching.{was_seen, sight_of};

use crate::same::deeds::{agree, number_in};
use lex_machine::Machine;
use std::alloc::{AllocError, Global};

/// How a pair was come to.
#[derive(Clone, Copy)]
pub(crate) enum From {
    /// A match starts there, in this condition, at the start of a line or not.
    Start { condition: u8, line_start: bool },
    /// By this byte from the pair at this place.
    Byte { before: usize, byte: u8 },
}

/// A state of each machine, to which the same text of so many bytes leads.
#[derive(Clone, Copy)]
pub(crate) struct Pair {
    pub left: u32,
    pub right: u32,
    pub far: usize,
    pub from: From,
}

/// Whether a text was seen that leads to a pair of states.
#[derive(Clone, Copy)]
pub(crate) enum Sight {
    /// None was.
    Unseen,
    /// A single byte was, which the default rule matches too.
    Single,
    /// A longer one was.
    Longer,
}

/// Whether a text was seen, a single byte or a longer one, that leads to the same states.
fn was_seen(sight: Sight, single: bool) -> bool
    ensures { result ≡ was_seen single sight }
{
    match sight {
        Sight::Unseen => false,
        Sight::Single => single,
        Sight::Longer => true,
    }
}

/// What is seen by a single byte, or by a longer text.
fn sight_of(single: bool) -> Sight
    ensures { result ≡ sight_of single }
{
    if single { Sight::Single } else { Sight::Longer }
}

/// Both machines where a match starts.
fn start_at<A: Machine, B: Machine>(
    order: &[u8],
    left: &A,
    right: &B,
    condition: u8,
    line_start: bool,
) -> Pair
    requires left { condition < (A.machine left.now).conditions }
    requires right { number_in order.now condition < (B.machine right.now).conditions }
    ensures left { result.left ≡ (A.machine left.now).start condition line_start }
    ensures right { result.right ≡ (B.machine right.now).start (number_in order.now condition) line_start }
    ensures far { result.far ≡ 0 }
    ensures from { result.from ≡ From.Start condition line_start }
    ensures known_left { result.left < A.states left.now }
    ensures known_right { result.right < B.states right.now }
{
    Pair {
        left: left.start(condition, line_start),
        right: right.start(number_in(order, condition), line_start),
        far: 0,
        from: From::Start {
            condition,
            line_start,
        },
    }
}

/// The pairs in which matches start.
pub(crate) fn starts<A: Machine, B: Machine>(
    alloc: Global,
    order: &[u8],
    left: &A,
    right: &B,
    conditions: u8,
) -> Result<Vec<Pair>, AllocError>
    requires left { conditions ≡ (A.machine left.now).conditions }
    requires right { (c : ℕ) → c < conditions → number_in order.now c < (B.machine right.now).conditions }
    ensures { IfOk result (λ v. AreStarts order.now (A.machine left.now) (B.machine right.now)
        (A.states left.now) (B.states right.now) v.items conditions) }
{
    let mut pairs = Vec::new(alloc);
    for condition in 0..conditions {
        pairs.push(start_at(order, left, right, condition, false))?;
        pairs.push(start_at(order, left, right, condition, true))?;
    }
    Ok(pairs)
}

/// The pair to which a byte leads from the pair at this place.
fn next_pair<A: Machine, B: Machine>(
    left: &A,
    right: &B,
    pair: Pair,
    before: usize,
    byte: u8,
) -> Pair
    requires left { pair.left < A.states left.now }
    requires right { pair.right < B.states right.now }
    requires far { pair.far + 1 < 2 ^ 64 }
    ensures next { IsNext (A.machine left.now) (B.machine right.now) pair byte result }
    ensures from { result.from ≡ From.Byte before byte }
    ensures known_left { result.left < A.states left.now }
    ensures known_right { result.right < B.states right.now }
{
    Pair {
        left: left.step(pair.left, byte),
        right: right.step(pair.right, byte),
        far: pair.far + 1,
        from: From::Byte { before, byte },
    }
}

/// Finds the pairs to which each byte leads from the pair at this place. Answers the first byte after which the
/// machines do not do the same, where there is one.
pub(crate) fn widen<A: Machine, B: Machine>(
    order: &[u8],
    left: &A,
    right: &B,
    width: usize,
    pairs: &mut Vec<Pair>,
    seen: &mut Vec<Sight>,
    place: usize,
) -> Result<Option<u8>, AllocError>
    requires place { place < length pairs.old.items }
    requires width { width ≡ B.states right.now }
    requires searched { Searched order.now (A.machine left.now) (B.machine right.now)
        (A.states left.now) (B.states right.now) pairs.old.items seen.old.items place 0 }
    ensures longer { OnOk result (length pairs.old.items ≤ length pairs.new.items) }
    ensures fewer { OnOk result (unseen seen.new.items + length pairs.new.items
        ≤ unseen seen.old.items + length pairs.old.items) }
    ensures none { IfOk result (λ found. found ≡ None
        → Searched order.now (A.machine left.now) (B.machine right.now)
        (A.states left.now) (B.states right.now) pairs.new.items seen.new.items place 256) }
    ensures some { IfOk result (λ found. IfSome found (λ byte.
        Searched order.now (A.machine left.now) (B.machine right.now)
        (A.states left.now) (B.states right.now) pairs.new.items seen.new.items place byte
        × DifferAt order.now (A.machine left.now) (B.machine right.now) pairs.new.items place byte)) }
{
    let pair = pairs[place];
    let single = pair.far == 0;
    'bytes: for byte in 0..256u32 {
        let next = next_pair(left, right, pair, place, byte as u8);
        let at = next.left as usize * width + next.right as usize;
        if !was_seen(seen[at], single) {
            if !agree(order, left, right, single, next.left, next.right) {
                return Ok(Some(byte as u8));
            }
            seen[at] = sight_of(single);
            pairs.push(next)?;
        }
    }
    Ok(None)
}
