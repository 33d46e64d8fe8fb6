//! Patterns laid out for walks: each part with how many positions it has.
ghost use Rattle.std.specs.Prelude.{◌≡◌, true, ◌||◌, ◌+◌, ◌*◌, ◌<◌, ◌≤◌, ◌^◌};
ghost use Rattle.std.specs.Prelude.{List, [], ◌∷◌, ◌++◌, map, IfOk, OnOk, IfSome, IfNone};
ghost use Rattle.lex_semantics.specs.Positions.{positions, positions_of, copies};
ghost use Rattle.lex_semantics.specs.Shapes.{IsSoundTree, AreSoundTrees};
ghost use Rattle.lex_semantics.specs.Tree.{Tree, trees, Empty, Cat, Alt, Star, Repeat};
ghost use Rattle.lexre.specs.Views.{tree_of};
ghost use Rattle.lexauto_positions.specs.Alike.{Alike, choice_of};
ghost use Rattle.lexauto_positions.specs.Signs.{skips, repeats, signed};
ghost use Rattle.lexauto_positions.specs.Plans.{plan_of, plans, tree_in, trees_in, trees_laid, IsSized, AreSized};

use crate::walk::copies_of;
use lexre::Pattern;
use lexre_bytes::ByteSet;
use std::alloc::{AllocError, Global};

/// A pattern laid out. No part of another is without positions.
#[derive(Drop)]
pub(crate) enum SizedPattern {
    /// No position.
    Nothing,
    /// One position, where a byte of the set is read.
    Letter(ByteSet),
    /// The parts one after another.
    Series(u32, Vec<SizedPattern>),
    /// One of the parts.
    Choice(u32, Vec<SizedPattern>),
    /// Any number of times.
    Star(u32, Box<SizedPattern>),
    /// At least this many times, and at most this many where there is an upper bound.
    Repeat(u32, Box<SizedPattern>, u8, Option<u8>),
}

impl SizedPattern {
    /// How many positions the part has.
    pub(crate) fn size(&self) -> u32
        requires { IsSized (plan_of self.now) }
        ensures { result ≡ positions (tree_in (plan_of self.now)) }
    {
        match self {
            SizedPattern::Nothing => 0,
            SizedPattern::Letter(_) => 1,
            SizedPattern::Series(size, _) => *size,
            SizedPattern::Choice(size, _) => *size,
            SizedPattern::Star(size, _) => *size,
            SizedPattern::Repeat(size, _, _, _) => *size,
        }
    }

    /// Whether nothing was laid out, since there is no position.
    fn is_nothing(&self) -> bool
        ensures { result ≡ true → tree_in (plan_of self.now) ≡ Empty }
    {
        matches!(self, SizedPattern::Nothing)
    }
}

/// A sign on an item.
#[derive(Clone, Copy)]
enum Operator {
    /// The item may be left out: `?`.
    Optional,
    /// It may be repeated: `+`.
    Plus,
    /// It may be left out or repeated: `*`.
    Star,
}

impl Operator {
    /// The sign that does what this one does on another.
    fn on(self, other: Operator) -> Operator
        ensures skips { skips result ≡ (skips self || skips other) }
        ensures repeats { repeats result ≡ (repeats self || repeats other) }
    {
        match (self, other) {
            (Operator::Optional, Operator::Optional) => Operator::Optional,
            (Operator::Plus, Operator::Plus) => Operator::Plus,
            _ => Operator::Star,
        }
    }

    /// An item of this size under the sign.
    fn over(self, size: u32, item: Box<SizedPattern>) -> SizedPattern
        requires sized { IsSized (plan_of item.value) }
        requires size { size ≡ positions (tree_in (plan_of item.value)) }
        ensures sized { IsSized (plan_of result) }
        ensures tree { tree_in (plan_of result) ≡ signed self (tree_in (plan_of item.value)) }
    {
        match self {
            Operator::Optional => SizedPattern::Repeat(size, item, 0, Some(1)),
            Operator::Plus => SizedPattern::Repeat(size, item, 1, None),
            Operator::Star => SizedPattern::Star(size, item),
        }
    }
}

/// A part under a sign. Where it is under a sign already, one does for both.
fn sign_part(alloc: Global, part: SizedPattern, sign: Operator) -> Result<SizedPattern, AllocError>
    requires sized { IsSized (plan_of part) }
    ensures sized { IfOk result (λ p. IsSized (plan_of p)) }
    ensures alike { IfOk result (λ p. Alike (tree_in (plan_of p)) (signed sign (tree_in (plan_of part)))) }
{
    match part {
        SizedPattern::Star(size, item) => Ok(sign.on(Operator::Star).over(size, item)),
        SizedPattern::Repeat(size, item, 1, None) => Ok(sign.on(Operator::Plus).over(size, item)),
        SizedPattern::Repeat(size, item, 0, Some(1)) => Ok(
            sign.on(Operator::Optional).over(size, item),
        ),
        part => {
            let size = part.size();
            Ok(sign.over(size, Box::new(alloc, part)?))
        }
    }
}

/// Copies of a part.
fn copy_part(
    alloc: Global,
    part: SizedPattern,
    least: u8,
    most: Option<u8>,
) -> Result<SizedPattern, AllocError>
    requires sized { IsSized (plan_of part) }
    requires few { copies least most * positions (tree_in (plan_of part)) < 2 ^ 32 }
    ensures sized { IfOk result (λ p. IsSized (plan_of p)) }
    ensures tree { IfOk result (λ p. tree_in (plan_of p) ≡ Repeat (tree_in (plan_of part)) least most) }
{
    let size = u32::from(copies_of(least, most).count) * part.size();
    Ok(SizedPattern::Repeat(size, Box::new(alloc, part)?, least, most))
}

/// A part that is repeated between these bounds.
fn repeat(
    alloc: Global,
    part: SizedPattern,
    least: u8,
    most: Option<u8>,
) -> Result<SizedPattern, AllocError>
    requires sized { IsSized (plan_of part) }
    requires few { copies least most * positions (tree_in (plan_of part)) < 2 ^ 32 }
    ensures sized { IfOk result (λ p. IsSized (plan_of p)) }
    ensures alike { IfOk result (λ p. Alike (tree_in (plan_of p)) (Repeat (tree_in (plan_of part)) least most)) }
{
    match (least, most) {
        (0, Some(1)) => sign_part(alloc, part, Operator::Optional),
        (1, None) => sign_part(alloc, part, Operator::Plus),
        (0, None) => sign_part(alloc, part, Operator::Star),
        (1, Some(1)) => Ok(part),
        _ => copy_part(alloc, part, least, most),
    }
}

/// The only one of the parts, taken out, where there is just one.
fn only(parts: &mut Vec<SizedPattern>) -> Option<SizedPattern>
    ensures one { IfSome result (λ p. parts.old.items ≡ p ∷ []) }
    ensures other { IfNone result (parts.new.items ≡ parts.old.items) }
{
    if parts.len() != 1 {
        return None;
    }
    parts.pop()
}

/// Those parts that have positions, how many these are together, and whether there was a part without.
#[derive(Drop)]
struct Row {
    parts: Vec<SizedPattern>,
    size: u32,
    has_empty: bool,
}

impl Row {
    /// Adds a part, or tells that there was one without positions.
    fn add(&mut self, part: SizedPattern) -> Result<(), AllocError>
        requires sized { AreSized (plans (map plan_of self.old.parts.items)) }
        requires part { IsSized (plan_of part) }
        requires few { self.old.size + positions (tree_in (plan_of part)) < 2 ^ 32 }
        ensures sized { OnOk result (AreSized (plans (map plan_of self.new.parts.items))) }
        ensures size { OnOk result (self.new.size ≡ self.old.size + positions (tree_in (plan_of part))) }
        ensures count { OnOk result (self.old.size ≡ positions_of (trees_in (plans (map plan_of self.old.parts.items)))
            → self.new.size ≡ positions_of (trees_in (plans (map plan_of self.new.parts.items)))) }
        ensures series { OnOk result ((t : Tree) (rest : List Tree) (whole : Tree) → Alike (tree_in (plan_of part)) t
            → Alike (Cat (trees (trees_laid self.old.parts.items ++ t ∷ rest))) whole
            → Alike (Cat (trees (trees_laid self.new.parts.items ++ rest))) whole) }
        ensures choice { OnOk result ((t : Tree) (rest : List Tree) (whole : Tree) → Alike (tree_in (plan_of part)) t
            → Alike (choice_of self.old.has_empty (trees (trees_laid self.old.parts.items ++ t ∷ rest))) whole
            → Alike (choice_of self.new.has_empty (trees (trees_laid self.new.parts.items ++ rest))) whole) }
    {
        if part.is_nothing() {
            self.has_empty = true;
            return Ok(());
        }
        self.size += part.size();
        self.parts.push(part)?;
        Ok(())
    }
}

/// The parts one after another.
fn series(row: Row) -> SizedPattern
    requires sized { AreSized (plans (map plan_of row.parts.items)) }
    requires size { row.size ≡ positions_of (trees_in (plans (map plan_of row.parts.items))) }
    ensures sized { IsSized (plan_of result) }
    ensures alike { Alike (tree_in (plan_of result)) (Cat (trees (trees_laid row.parts.items))) }
{
    let mut parts = row.parts;
    match only(&mut parts) {
        Some(part) => part,
        None => SizedPattern::Series(row.size, parts),
    }
}

/// One of the parts.
fn one_of(size: u32, all: Vec<SizedPattern>) -> SizedPattern
    requires sized { AreSized (plans (map plan_of all.items)) }
    requires size { size ≡ positions_of (trees_in (plans (map plan_of all.items))) }
    ensures sized { IsSized (plan_of result) }
    ensures alike { Alike (tree_in (plan_of result)) (Alt (trees (trees_laid all.items))) }
{
    let mut parts = all;
    match only(&mut parts) {
        Some(part) => part,
        None => SizedPattern::Choice(size, parts),
    }
}

/// One of the parts, or none where there was one without positions.
fn choice(alloc: Global, row: Row) -> Result<SizedPattern, AllocError>
    requires sized { AreSized (plans (map plan_of row.parts.items)) }
    requires size { row.size ≡ positions_of (trees_in (plans (map plan_of row.parts.items))) }
    ensures sized { IfOk result (λ p. IsSized (plan_of p)) }
    ensures alike { IfOk result (λ p. Alike (tree_in (plan_of p))
        (choice_of row.has_empty (trees (trees_laid row.parts.items)))) }
{
    let part = one_of(row.size, row.parts);
    if row.has_empty {
        return sign_part(alloc, part, Operator::Optional);
    }
    Ok(part)
}

/// A pattern laid out.
#[cycle(lay)]
pub(crate) fn lay(alloc: Global, pattern: &Pattern) -> Result<SizedPattern, AllocError>
    requires sound { IsSoundTree (tree_of pattern.now) }
    requires few { positions (tree_of pattern.now) < 2 ^ 32 }
    ensures sized { IfOk result (λ p. IsSized (plan_of p)) }
    ensures alike { IfOk result (λ p. Alike (tree_in (plan_of p)) (tree_of pattern.now)) }
{
    let part = lay_node(alloc, pattern)?;
    if part.size() == 0 {
        return Ok(SizedPattern::Nothing);
    }
    Ok(part)
}

/// A pattern laid out by its node; it may have no position, where it is not `Nothing`.
#[cycle(lay)]
fn lay_node(alloc: Global, pattern: &Pattern) -> Result<SizedPattern, AllocError>
    requires sound { IsSoundTree (tree_of pattern.now) }
    requires few { positions (tree_of pattern.now) < 2 ^ 32 }
    ensures sized { IfOk result (λ p. IsSized (plan_of p)) }
    ensures alike { IfOk result (λ p. Alike (tree_in (plan_of p)) (tree_of pattern.now)) }
{
    match pattern {
        Pattern::Empty => Ok(SizedPattern::Nothing),
        Pattern::Set(set) => Ok(SizedPattern::Letter(*set)),
        Pattern::Cat(parts) => {
            if parts.is_bare() {
                return Ok(SizedPattern::Nothing);
            }
            let row = lay_all(alloc, parts.items())?;
            Ok(series(row))
        }
        Pattern::Alt(parts) => {
            if parts.is_bare() {
                return Ok(SizedPattern::Nothing);
            }
            let row = lay_all(alloc, parts.items())?;
            choice(alloc, row)
        }
        Pattern::Star(inner) => {
            let part = lay(alloc, inner)?;
            sign_part(alloc, part, Operator::Star)
        }
        Pattern::Repeat(inner, least, most) => {
            let part = lay(alloc, inner)?;
            repeat(alloc, part, *least, *most)
        }
    }
}

/// The parts of a series or a choice, laid out: those that have positions, and whether there was one without.
#[cycle(lay)]
fn lay_all(alloc: Global, parts: &[Pattern]) -> Result<Row, AllocError>
    requires sound { AreSoundTrees (trees (map tree_of parts.now)) }
    requires few { positions_of (trees (map tree_of parts.now)) < 2 ^ 32 }
    ensures sized { IfOk result (λ r. AreSized (plans (map plan_of r.parts.items))) }
    ensures size { IfOk result (λ r. r.size ≡ positions_of (trees_in (plans (map plan_of r.parts.items)))) }
    ensures series { IfOk result (λ r. Alike (Cat (trees (trees_laid r.parts.items)))
        (Cat (trees (map tree_of parts.now)))) }
    ensures choice { IfOk result (λ r. Alike (choice_of r.has_empty (trees (trees_laid r.parts.items)))
        (Alt (trees (map tree_of parts.now)))) }
{
    let mut row = Row {
        parts: Vec::new(alloc),
        size: 0,
        has_empty: false,
    };
    for part in parts {
        let part = lay(alloc, part)?;
        row.add(part)?;
    }
    Ok(row)
}
