//! One step of the position automaton of a pattern, with no table of what follows what.
ghost use Rattle.std.specs.Prelude.{◌≡◌, ℕ, ◌+◌, ◌-◌, ◌*◌, ◌<◌, ◌≤◌, ◌^◌, ◌||◌, ◌&&◌, ◌⊎◌};
ghost use Rattle.std.specs.Prelude.{◌==◌, true, false, length, map, slice_index, IfOk};
ghost use Rattle.lex_semantics.specs.Active.{contains};
ghost use Rattle.lex_semantics.specs.Positions.{positions, positions_of, copies};
ghost use Rattle.lexauto_positions.specs.Cursors.{IsCursor, IsFront};
ghost use Rattle.lexauto_positions.specs.Flow.{is_zero, has_no_number, passes, comes, exits, exits_each};
ghost use Rattle.lexauto_positions.specs.Flow.{exits_some, enters, enters_each, enters_some};
ghost use Rattle.lexauto_positions.specs.Plans.{plan_of, plans, tree_in, trees_in, IsSized, AreSized};

use crate::layout::SizedPattern;
use crate::letter_copies::{enter_letters, optional_letter};
use std::alloc::AllocError;

/// What is known behind a part of a pattern.
#[derive(Clone, Copy)]
pub(crate) struct Passed {
    /// Whether the part is left.
    pub left: bool,
    /// Where the last positions behind it begin.
    pub at: usize,
}

/// The copies of its inner pattern that a repetition counts.
#[derive(Clone, Copy)]
pub(crate) struct Copies {
    /// How many of them are passed at least.
    pub least: u8,
    /// How many there are.
    pub count: u8,
    /// Whether the last one may be repeated.
    pub loops: bool,
}

/// The copies that a repetition between these bounds counts: as many as its greatest count, and else as its least, but
/// at least one.
pub(crate) fn copies_of(least: u8, most: Option<u8>) -> Copies
    ensures least { result.least ≡ least }
    ensures count { result.count ≡ copies least most }
    ensures loops { result.loops ≡ has_no_number most }
{
    match most {
        Some(most) => Copies {
            least,
            count: most,
            loops: false,
        },
        None => Copies {
            least,
            count: least.max(1),
            loops: true,
        },
    }
}

/// Whether copy k is the last one, and may be repeated.
pub(crate) fn is_loop(copies: Copies, k: u8) -> bool
    requires { k < copies.count }
    ensures { result ≡ (copies.loops && is_zero (copies.count - (k + 1))) }
{
    copies.loops && copies.count - k == 1
}

/// Whether none of the last positions from `at` on comes before `end`.
pub(crate) fn is_quiet(last: &[u32], at: usize, end: usize) -> bool
    ensures yes { result ≡ true → (length last.now ≤ at) ⊎ (end ≤ slice_index last.now at) }
    ensures no { result ≡ false → (at < length last.now) × (slice_index last.now at < end) }
{
    at >= last.len() || last[at] as usize >= end
}

/// Whether the position `base` is a last one.
pub(crate) fn leave_letter(last: &[u32], at: usize, base: usize) -> Passed
    requires cursor { IsCursor last.now at base }
    requires few { base + 1 < 2 ^ 32 }
    ensures left { result.left ≡ contains last.now base }
    ensures cursor { IsCursor last.now result.at (base + 1) }
{
    if is_quiet(last, at, base + 1) {
        return Passed { left: false, at };
    }
    Passed {
        left: true,
        at: at + 1,
    }
}

/// Whether the part is left, where it is entered or not, and these are the last positions.
#[cycle(leave)]
pub(crate) fn leave(
    part: &SizedPattern,
    last: &[u32],
    at: usize,
    base: usize,
    entered: bool,
) -> Passed
    requires sized { IsSized (plan_of part.now) }
    requires cursor { IsCursor last.now at base }
    requires few { base + positions (tree_in (plan_of part.now)) < 2 ^ 32 }
    ensures left { result.left ≡ exits (tree_in (plan_of part.now)) (contains last.now) base entered }
    ensures cursor { IsCursor last.now result.at (base + positions (tree_in (plan_of part.now))) }
{
    if !entered && is_quiet(last, at, base + part.size() as usize) {
        return Passed { left: false, at };
    }
    match part {
        SizedPattern::Nothing => Passed { left: entered, at },
        SizedPattern::Letter(_) => leave_letter(last, at, base),
        SizedPattern::Series(_, parts) => leave_each(parts, last, at, base, entered),
        SizedPattern::Choice(_, parts) => leave_some(parts, last, at, base, entered),
        SizedPattern::Star(_, inner) => {
            let again = leave(inner, last, at, base, false);
            Passed {
                left: entered || again.left,
                at: again.at,
            }
        }
        SizedPattern::Repeat(_, inner, least, most) => {
            leave_copies(inner, last, at, base, copies_of(*least, *most), entered)
        }
    }
}

/// Whether a series is left: each part is entered where the one before it is left.
#[cycle(leave)]
fn leave_each(parts: &[SizedPattern], last: &[u32], at: usize, base: usize, entered: bool) -> Passed
    requires sized { AreSized (plans (map plan_of parts.now)) }
    requires cursor { IsCursor last.now at base }
    requires few { base + positions_of (trees_in (plans (map plan_of parts.now))) < 2 ^ 32 }
    ensures left { result.left ≡ exits_each (trees_in (plans (map plan_of parts.now))) (contains last.now) base entered }
    ensures cursor { IsCursor last.now result.at (base + positions_of (trees_in (plans (map plan_of parts.now)))) }
{
    let mut passed = Passed { left: entered, at };
    let mut after = base;
    for part in parts {
        passed = leave(part, last, passed.at, after, passed.left);
        after += part.size() as usize;
    }
    passed
}

/// Whether a choice is left: each part is entered where the choice is.
#[cycle(leave)]
fn leave_some(parts: &[SizedPattern], last: &[u32], at: usize, base: usize, entered: bool) -> Passed
    requires sized { AreSized (plans (map plan_of parts.now)) }
    requires cursor { IsCursor last.now at base }
    requires few { base + positions_of (trees_in (plans (map plan_of parts.now))) < 2 ^ 32 }
    ensures left { result.left ≡ exits_some (trees_in (plans (map plan_of parts.now))) (contains last.now) base entered }
    ensures cursor { IsCursor last.now result.at (base + positions_of (trees_in (plans (map plan_of parts.now)))) }
{
    let mut left = false;
    let mut cursor = at;
    let mut after = base;
    for part in parts {
        let passed = leave(part, last, cursor, after, entered);
        left = left || passed.left;
        cursor = passed.at;
        after += part.size() as usize;
    }
    Passed { left, at: cursor }
}

/// Whether copies of a part are left: after the last one, or after an earlier one where no more are needed.
#[cycle(leave)]
fn leave_copies(
    inner: &SizedPattern,
    last: &[u32],
    at: usize,
    base: usize,
    copies: Copies,
    entered: bool,
) -> Passed
    requires sized { IsSized (plan_of inner.now) }
    requires cursor { IsCursor last.now at base }
    requires few { base + copies.count * positions (tree_in (plan_of inner.now)) < 2 ^ 32 }
    ensures left { result.left ≡ passes (exits (tree_in (plan_of inner.now)) (contains last.now)) base
        (positions (tree_in (plan_of inner.now))) copies.least false entered copies.count }
    ensures cursor { IsCursor last.now result.at (base + copies.count * positions (tree_in (plan_of inner.now))) }
{
    let step = inner.size() as usize;
    let mut left = entered;
    let mut out = false;
    let mut cursor = at;
    let mut after = base;
    let mut needed = copies.least;
    for k in 0..copies.count {
        out = out || (needed == 0 && left);
        let passed = leave(inner, last, cursor, after, left);
        left = passed.left;
        cursor = passed.at;
        after += step;
        needed = needed.saturating_sub(1);
    }
    Passed {
        left: out || (needed == 0 && left),
        at: cursor,
    }
}

/// Adds the position `base` to those that come next if it is entered, and tells whether it is a last one.
fn enter_letter(
    last: &[u32],
    at: usize,
    base: usize,
    entered: bool,
    next: &mut Vec<u32>,
) -> Result<Passed, AllocError>
    requires cursor { IsCursor last.now at base }
    requires few { base + 1 < 2 ^ 32 }
    requires front { IsFront next.old.items base }
    ensures left { IfOk result (λ p. p.left ≡ contains last.now base) }
    ensures cursor { IfOk result (λ p. IsCursor last.now p.at (base + 1)) }
    ensures front { IfOk result (λ _. IsFront next.new.items (base + 1)) }
    ensures next { IfOk result (λ _. (q : ℕ)
        → contains next.new.items q ≡ (contains next.old.items q || (entered && (q == base)))) }
{
    if entered {
        next.push(base as u32)?;
    }
    Ok(leave_letter(last, at, base))
}

/// Adds the positions that come next, where the part is entered or not, and these are the last ones.
#[cycle(enter)]
pub(crate) fn enter(
    part: &SizedPattern,
    last: &[u32],
    at: usize,
    base: usize,
    entered: bool,
    next: &mut Vec<u32>,
) -> Result<Passed, AllocError>
    requires sized { IsSized (plan_of part.now) }
    requires cursor { IsCursor last.now at base }
    requires few { base + positions (tree_in (plan_of part.now)) < 2 ^ 32 }
    requires front { IsFront next.old.items base }
    ensures left { IfOk result (λ p. p.left ≡ exits (tree_in (plan_of part.now)) (contains last.now) base entered) }
    ensures cursor { IfOk result (λ p. IsCursor last.now p.at (base + positions (tree_in (plan_of part.now)))) }
    ensures front { IfOk result (λ _. IsFront next.new.items (base + positions (tree_in (plan_of part.now)))) }
    ensures next { IfOk result (λ _. (q : ℕ)
        → contains next.new.items q ≡ (contains next.old.items q || enters (tree_in (plan_of part.now))
        (contains last.now) q base entered)) }
{
    if !entered && is_quiet(last, at, base + part.size() as usize) {
        return Ok(Passed { left: false, at });
    }
    match part {
        SizedPattern::Nothing => Ok(Passed { left: entered, at }),
        SizedPattern::Letter(_) => enter_letter(last, at, base, entered, next),
        SizedPattern::Series(_, parts) => enter_each(parts, last, at, base, entered, next),
        SizedPattern::Choice(_, parts) => enter_some(parts, last, at, base, entered, next),
        SizedPattern::Star(_, inner) => {
            let again = leave(inner, last, at, base, false);
            let _ = enter(inner, last, at, base, entered || again.left, next)?;
            Ok(Passed {
                left: entered || again.left,
                at: again.at,
            })
        }
        SizedPattern::Repeat(_, inner, least, most) => {
            let copies = copies_of(*least, *most);
            let passed = enter_copies(inner, last, at, base, copies, entered, next)?;
            Ok(passed)
        }
    }
}

/// Adds the positions of a part that come next, as `enter` does. A part that nothing comes of is passed over with no
/// call.
#[inline(always)]
#[cycle(enter)]
fn enter_part(
    part: &SizedPattern,
    last: &[u32],
    at: usize,
    base: usize,
    entered: bool,
    next: &mut Vec<u32>,
) -> Result<Passed, AllocError>
    requires sized { IsSized (plan_of part.now) }
    requires cursor { IsCursor last.now at base }
    requires few { base + positions (tree_in (plan_of part.now)) < 2 ^ 32 }
    requires front { IsFront next.old.items base }
    ensures left { IfOk result (λ p. p.left ≡ exits (tree_in (plan_of part.now)) (contains last.now) base entered) }
    ensures cursor { IfOk result (λ p. IsCursor last.now p.at (base + positions (tree_in (plan_of part.now)))) }
    ensures front { IfOk result (λ _. IsFront next.new.items (base + positions (tree_in (plan_of part.now)))) }
    ensures next { IfOk result (λ _. (q : ℕ)
        → contains next.new.items q ≡ (contains next.old.items q || enters (tree_in (plan_of part.now))
        (contains last.now) q base entered)) }
{
    if !entered && is_quiet(last, at, base + part.size() as usize) {
        return Ok(Passed { left: false, at });
    }
    enter(part, last, at, base, entered, next)
}

/// Adds the positions of a series that come next: each part is entered where the one before it is left.
#[cycle(enter)]
fn enter_each(
    parts: &[SizedPattern],
    last: &[u32],
    at: usize,
    base: usize,
    entered: bool,
    next: &mut Vec<u32>,
) -> Result<Passed, AllocError>
    requires sized { AreSized (plans (map plan_of parts.now)) }
    requires cursor { IsCursor last.now at base }
    requires few { base + positions_of (trees_in (plans (map plan_of parts.now))) < 2 ^ 32 }
    requires front { IsFront next.old.items base }
    ensures left { IfOk result (λ p. p.left
        ≡ exits_each (trees_in (plans (map plan_of parts.now))) (contains last.now) base entered) }
    ensures cursor { IfOk result (λ p. IsCursor last.now p.at
        (base + positions_of (trees_in (plans (map plan_of parts.now))))) }
    ensures front { IfOk result (λ _. IsFront next.new.items
        (base + positions_of (trees_in (plans (map plan_of parts.now))))) }
    ensures next { IfOk result (λ _. (q : ℕ)
        → contains next.new.items q ≡ (contains next.old.items q || enters_each (trees_in (plans (map plan_of parts.now)))
        (contains last.now) q base entered)) }
{
    let mut passed = Passed { left: entered, at };
    let mut after = base;
    for part in parts {
        passed = enter_part(part, last, passed.at, after, passed.left, next)?;
        after += part.size() as usize;
    }
    Ok(passed)
}

/// Adds the positions of a choice that come next: each part is entered where the choice is.
#[cycle(enter)]
fn enter_some(
    parts: &[SizedPattern],
    last: &[u32],
    at: usize,
    base: usize,
    entered: bool,
    next: &mut Vec<u32>,
) -> Result<Passed, AllocError>
    requires sized { AreSized (plans (map plan_of parts.now)) }
    requires cursor { IsCursor last.now at base }
    requires few { base + positions_of (trees_in (plans (map plan_of parts.now))) < 2 ^ 32 }
    requires front { IsFront next.old.items base }
    ensures left { IfOk result (λ p. p.left
        ≡ exits_some (trees_in (plans (map plan_of parts.now))) (contains last.now) base entered) }
    ensures cursor { IfOk result (λ p. IsCursor last.now p.at
        (base + positions_of (trees_in (plans (map plan_of parts.now))))) }
    ensures front { IfOk result (λ _. IsFront next.new.items
        (base + positions_of (trees_in (plans (map plan_of parts.now))))) }
    ensures next { IfOk result (λ _. (q : ℕ)
        → contains next.new.items q ≡ (contains next.old.items q || enters_some (trees_in (plans (map plan_of parts.now)))
        (contains last.now) q base entered)) }
{
    let mut left = false;
    let mut cursor = at;
    let mut after = base;
    for part in parts {
        let passed = enter_part(part, last, cursor, after, entered, next)?;
        left = left || passed.left;
        cursor = passed.at;
        after += part.size() as usize;
    }
    Ok(Passed { left, at: cursor })
}

/// Adds the positions of copies of a part that come next: each copy is entered where the one before it is left, and the
/// last one from its own end too where it may be repeated.
#[cycle(enter)]
fn enter_copies(
    inner: &SizedPattern,
    last: &[u32],
    at: usize,
    base: usize,
    copies: Copies,
    entered: bool,
    next: &mut Vec<u32>,
) -> Result<Passed, AllocError>
    requires sized { IsSized (plan_of inner.now) }
    requires cursor { IsCursor last.now at base }
    requires few { base + copies.count * positions (tree_in (plan_of inner.now)) < 2 ^ 32 }
    requires front { IsFront next.old.items base }
    ensures left { IfOk result (λ p. p.left
        ≡ passes (exits (tree_in (plan_of inner.now)) (contains last.now)) base
        (positions (tree_in (plan_of inner.now))) copies.least false entered copies.count) }
    ensures cursor { IfOk result (λ p. IsCursor last.now p.at
        (base + copies.count * positions (tree_in (plan_of inner.now)))) }
    ensures front { IfOk result (λ _. IsFront next.new.items
        (base + copies.count * positions (tree_in (plan_of inner.now)))) }
    ensures next { IfOk result (λ _. (q : ℕ)
        → contains next.new.items q ≡ (contains next.old.items q || comes
        (enters (tree_in (plan_of inner.now)) (contains last.now) q)
        (exits (tree_in (plan_of inner.now)) (contains last.now)) copies.loops base
        (positions (tree_in (plan_of inner.now))) entered copies.count)) }
{
    if let Some(skips) = optional_letter(inner) {
        return enter_letters(skips, last, at, base, copies, entered, next);
    }
    let step = inner.size() as usize;
    let mut left = entered;
    let mut out = false;
    let mut cursor = at;
    let mut after = base;
    let mut needed = copies.least;
    for k in 0..copies.count {
        out = out || (needed == 0 && left);
        let loops = is_loop(copies, k);
        let passed = enter_copy(inner, last, cursor, after, left, loops, next)?;
        left = passed.left;
        cursor = passed.at;
        after += step;
        needed = needed.saturating_sub(1);
    }
    Ok(Passed {
        left: out || (needed == 0 && left),
        at: cursor,
    })
}

/// One copy. Where it loops it is entered from its own end too.
#[cycle(enter)]
fn enter_copy(
    inner: &SizedPattern,
    last: &[u32],
    at: usize,
    base: usize,
    entered: bool,
    loops: bool,
    next: &mut Vec<u32>,
) -> Result<Passed, AllocError>
    requires sized { IsSized (plan_of inner.now) }
    requires cursor { IsCursor last.now at base }
    requires few { base + positions (tree_in (plan_of inner.now)) < 2 ^ 32 }
    requires front { IsFront next.old.items base }
    ensures left { IfOk result (λ p. p.left ≡ exits (tree_in (plan_of inner.now)) (contains last.now) base entered) }
    ensures cursor { IfOk result (λ p. IsCursor last.now p.at (base + positions (tree_in (plan_of inner.now)))) }
    ensures front { IfOk result (λ _. IsFront next.new.items (base + positions (tree_in (plan_of inner.now)))) }
    ensures next { IfOk result (λ _. (q : ℕ)
        → contains next.new.items q ≡ (contains next.old.items q || enters (tree_in (plan_of inner.now))
        (contains last.now) q base (entered ||
        (loops && exits (tree_in (plan_of inner.now)) (contains last.now) base false)))) }
{
    if !entered && is_quiet(last, at, base + inner.size() as usize) {
        return Ok(Passed { left: false, at });
    }
    if !loops || entered {
        return enter(inner, last, at, base, entered, next);
    }
    let again = leave(inner, last, at, base, false);
    let _ = enter(inner, last, at, base, again.left, next)?;
    Ok(again)
}
