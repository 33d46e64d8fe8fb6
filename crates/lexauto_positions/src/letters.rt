//! The letter of each position: the set of bytes that it reads.
ghost use Rattle.std.specs.Prelude.{◌≡◌, ℕ, ◌+◌, ◌*◌, ◌||◌, length, map, IfOk, OnOk};
ghost use Rattle.lex_semantics.specs.Positions.{positions, positions_of};
ghost use Rattle.lex_semantics.specs.Subsets.{all_positions};
ghost use Rattle.lexauto_positions.specs.Laid.{shape_of};
ghost use Rattle.lexauto_positions.specs.Letters.{reads_at};
ghost use Rattle.lexauto_positions.specs.Plans.{plan_of, plans, tree_in, trees_in};
ghost use Rattle.lex_semantics.specs.Text.{flag};
ghost use Rattle.lexauto_positions.specs.RuleFlow.{copies_read, reads, each_read, rules_read};

use crate::layout::SizedPattern;
use crate::rules::LaidRule;
use crate::walk::copies_of;
use lexre_bytes::ByteSet;
use std::alloc::{AllocError, Global};

/// Lists the bytes that each position of a part reads.
#[cycle(list)]
fn list(part: &SizedPattern, letters: &mut Vec<ByteSet>) -> Result<(), AllocError>
    ensures count { OnOk result (length letters.new.items
        ≡ length letters.old.items + positions (tree_in (plan_of part.now))) }
    ensures letters { OnOk result ((b q : ℕ)
        → reads_at letters.new.items b q 0
        ≡ (reads_at letters.old.items b q 0 || reads (tree_in (plan_of part.now)) b q (length letters.old.items))) }
{
    match part {
        SizedPattern::Nothing => {}
        SizedPattern::Letter(set) => letters.push(*set)?,
        SizedPattern::Series(_, parts) => list_each(parts, letters)?,
        SizedPattern::Choice(_, parts) => list_each(parts, letters)?,
        SizedPattern::Star(_, inner) => list(inner, letters)?,
        SizedPattern::Repeat(_, inner, least, most) => {
            list_copies(inner, copies_of(*least, *most).count, letters)?
        }
    }
    Ok(())
}

/// Lists the bytes that each position of some parts reads, part by part.
#[cycle(list)]
fn list_each(parts: &[SizedPattern], letters: &mut Vec<ByteSet>) -> Result<(), AllocError>
    ensures count { OnOk result (length letters.new.items
        ≡ length letters.old.items + positions_of (trees_in (plans (map plan_of parts.now)))) }
    ensures letters { OnOk result ((b q : ℕ)
        → reads_at letters.new.items b q 0
        ≡ (reads_at letters.old.items b q 0 || each_read (trees_in (plans (map plan_of parts.now))) b q
        (length letters.old.items))) }
{
    for part in parts {
        list(part, letters)?;
    }
    Ok(())
}

/// Lists the bytes that each position of so many copies of a part reads.
#[cycle(list)]
fn list_copies(
    inner: &SizedPattern,
    count: u8,
    letters: &mut Vec<ByteSet>,
) -> Result<(), AllocError>
    ensures count { OnOk result (length letters.new.items
        ≡ length letters.old.items + count * positions (tree_in (plan_of inner.now))) }
    ensures letters { OnOk result ((b q : ℕ) → reads_at letters.new.items b q 0
        ≡ (reads_at letters.old.items b q 0 || copies_read (reads (tree_in (plan_of inner.now)) b q)
        (length letters.old.items) (positions (tree_in (plan_of inner.now))) count)) }
{
    for k in 0..count {
        list(inner, letters)?;
    }
    Ok(())
}

/// The bytes that each position of the rules reads.
pub fn letters_of(alloc: Global, rules: &[LaidRule]) -> Result<Vec<ByteSet>, AllocError>
    ensures { IfOk result (λ v. (b q : ℕ) → reads_at v.items b q 0 ≡ rules_read (map shape_of rules.now) b q 0) }
{
    let mut letters = Vec::new(alloc);
    for rule in rules {
        list(&rule.head, &mut letters)?;
        if let Some(trail) = &rule.trail {
            list(trail, &mut letters)?;
        }
    }
    Ok(letters)
}

/// Which positions read the byte, by the bytes that each one reads.
pub fn mask_of(alloc: Global, letters: &[ByteSet], byte: u8) -> Result<Vec<bool>, AllocError>
    ensures { IfOk result (λ v. (q : ℕ) → flag v.items q ≡ reads_at letters.now byte q 0) }
{
    let mut mask = Vec::with_capacity(alloc, letters.len())?;
    for set in letters {
        mask.push(set.contains(byte))?;
    }
    Ok(mask)
}
