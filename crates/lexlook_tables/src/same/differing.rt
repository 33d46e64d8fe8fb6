//! Whether two machines do the same of each match.
ghost use Rattle.std.specs.Prelude.{◌≡◌, ◌+◌, ◌<◌, ◌≤◌, ℕ, List, [], ◌∷◌, ◌++◌, length, None, IfOk, IfSome};
ghost use Rattle.lex_semantics.specs.Machine.{Machine as MachineModel};
ghost use Rattle.lexlook_tables.specs.declared.same.pairs.Pair.{Pair};
ghost use Rattle.lexlook_tables.specs.Same.{AlwaysAgree, Differs, key, number_in};
ghost use Rattle.lexlook_tables.specs.Searching.{HasAt, KeyAt, AreKeyed, AreLinked, LeadBack, IsTextOf};

use crate::same::pairs::{From, Pair, Sight, starts, widen};
use lex_machine::Machine;
use std::alloc::{AllocError, Global};

/// A text of which two machines do not do the same, in this condition, at the start of a line or not.
#[derive(Drop)]
pub struct Difference {
    pub condition: u8,
    pub line_start: bool,
    pub text: Vec<u8>,
}

/// How many states two machines have, and how many conditions the left one.
#[derive(Clone, Copy)]
pub struct PairSizes {
    pub left: u32,
    pub right: u32,
    pub conditions: u8,
}

/// The text that leads to where this byte leads from the pair at this place.
fn text_to(alloc: Global, pairs: &[Pair], place: usize, byte: u8) -> Result<Difference, AllocError>
    requires place { place < length pairs.now }
    requires back { LeadBack pairs.now }
    ensures text { IfOk result (λ d. (order : List ℕ) (M N : MachineModel) (p : Pair)
        → AreLinked order M N pairs.now → HasAt pairs.now place p
        → IsTextOf order M N p byte d) }
    ensures key { IfOk result (λ d. (keys : List (List ℕ)) (t : List ℕ)
        → AreKeyed keys pairs.now → length keys ≡ length pairs.now → KeyAt keys place t
        → key d.condition d.line_start d.text.items ≡ t ++ byte ∷ []) }
{
    let mut text = Vec::new(alloc);
    text.push(byte)?;
    let mut at = place;
    'pairs: loop {
        let pair = pairs[at];
        match pair.from {
            From::Start {
                condition,
                line_start,
            } => {
                text.reverse();
                return Ok(Difference {
                    condition,
                    line_start,
                    text,
                });
            }
            From::Byte { before, byte } => {
                text.push(byte)?;
                at = before;
            }
        }
    }
}

/// The first of the texts of which two machines do not do the same, from some condition on: of which the rules that a
/// match asks for differ in what they do, up to the first that is taken for certain. Of a single byte the default rule is
/// the last of them. Shorter texts come first, then those of the first condition, then those not at the start of a line,
/// and then the first in byte order. Nothing where they do the same of each text. A condition of the left machine has the
/// number in the right one that stands at its place in `order`, or else its own. It takes a byte of memory for each pair of
/// states, and 32 for each pair that a text leads to, twice that for one that a single byte leads to.
pub fn tell_apart<A: Machine, B: Machine>(
    alloc: Global,
    order: &[u8],
    left: &A,
    right: &B,
    sizes: PairSizes,
) -> Result<Option<Difference>, AllocError>
    requires left_states { sizes.left ≡ A.states left.now }
    requires right_states { sizes.right ≡ B.states right.now }
    requires left_conditions { sizes.conditions ≡ (A.machine left.now).conditions }
    requires right_conditions { (c : ℕ) → c < sizes.conditions
        → number_in order.now c < (B.machine right.now).conditions }
    ensures same { IfOk result (λ found. found ≡ None
        → AlwaysAgree order.now (A.machine left.now) (B.machine right.now)) }
    ensures differ { IfOk result (λ found. IfSome found
        (Differs order.now (A.machine left.now) (B.machine right.now))) }
{
    let width = sizes.right as usize;
    let mut pairs = starts(alloc, order, left, right, sizes.conditions)?;
    let mut seen = vec![in alloc; Sight::Unseen; sizes.left as usize * width]?;
    let mut place = 0usize;
    'pairs: while place < pairs.len() {
        match widen(order, left, right, width, &mut pairs, &mut seen, place)? {
            None => place += 1,
            Some(byte) => return Ok(Some(text_to(alloc, pairs.as_slice(), place, byte)?)),
        }
    }
    Ok(None)
}
