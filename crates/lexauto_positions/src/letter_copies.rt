//! Copies of one letter: a walk over them goes from position to position, and looks at no part.
ghost use Rattle.std.specs.Prelude.{◌≡◌, ℕ, ◌+◌, ◌<◌, ◌≤◌, ◌^◌, ◌||◌, ◌&&◌};
ghost use Rattle.std.specs.Prelude.{◌==◌, Bool, true, false, IfSome, IfOk, OnOk};
ghost use Rattle.lex_semantics.specs.Active.{contains};
ghost use Rattle.lex_semantics.specs.Positions.{positions};
ghost use Rattle.lexauto_positions.specs.Cursors.{Increases, IsCursor, IsFront};
ghost use Rattle.lexauto_positions.specs.Flow.{is_zero, passes, comes, exits, enters};
ghost use Rattle.lexauto_positions.specs.LetterCopies.{letter_exits, letter_enters};
ghost use Rattle.lexauto_positions.specs.Plans.{plan_of, tree_in};

use crate::layout::SizedPattern;
use crate::walk::{Copies, Passed, is_loop, is_quiet, leave_letter};
use std::alloc::AllocError;
use std::mem;

/// Of a letter whether it may be left out. None of any other part.
pub(crate) fn optional_letter(part: &SizedPattern) -> Option<bool>
    ensures size { IfSome result (λ _. positions (tree_in (plan_of part.now)) ≡ 1) }
    ensures left { IfSome result (λ skips. exits (tree_in (plan_of part.now)) ≡ letter_exits skips) }
    ensures next { IfSome result (λ _. (S : ℕ → Bool) (q : ℕ)
        → enters (tree_in (plan_of part.now)) S q ≡ letter_enters q) }
{
    match part {
        SizedPattern::Letter(_) => Some(false),
        SizedPattern::Repeat(_, inner, 0, Some(1)) => match &**inner {
            SizedPattern::Letter(_) => Some(true),
            _ => None,
        },
        _ => None,
    }
}

/// Whether copies are left by now: earlier ones, or these, where no more of them are needed.
fn is_out(out: bool, needed: u8, left: bool) -> bool
    ensures { result ≡ (out || (is_zero needed && left)) }
{
    out || (needed == 0 && left)
}

/// Whether a letter is left, where it is entered or not, and is a last position or not.
fn is_left(skips: bool, entered: bool, last: bool) -> bool
    ensures { result ≡ ((skips && entered) || last) }
{
    (skips && entered) || last
}

/// Whether a letter is entered, from outside or from its own end.
fn is_entered(outside: bool, loops: bool, last: bool) -> bool
    ensures { result ≡ (outside || (loops && last)) }
{
    outside || (loops && last)
}

/// Adds the position `base` to those that come next if it is entered.
fn add_letter(base: usize, entered: bool, next: &mut Vec<u32>) -> Result<(), AllocError>
    requires few { base + 1 < 2 ^ 32 }
    requires front { IsFront next.old.items base }
    ensures front { OnOk result (IsFront next.new.items (base + 1)) }
    ensures next { OnOk result ((q : ℕ)
        → contains next.new.items q ≡ (contains next.old.items q || (entered && (q == base)))) }
{
    if entered {
        next.push(base as u32)?;
    }
    Ok(())
}

/// Adds so many positions, of which `base` is the first. It holds the list meanwhile, so that its length is not
/// stored for each of them.
fn add_all(base: usize, count: u8, next: &mut Vec<u32>) -> Result<(), AllocError>
    requires few { base + count < 2 ^ 32 }
    requires front { IsFront next.old.items base }
    ensures front { OnOk result (IsFront next.new.items (base + count)) }
    ensures next { OnOk result ((S : ℕ → Bool) (loops : Bool) (q : ℕ)
        → contains next.new.items q ≡ (contains next.old.items q || comes (letter_enters q)
        (letter_exits true S) loops base 1 true count)) }
{
    let alloc = *next.allocator();
    let mut all = mem::replace(next, Vec::new(alloc));
    for k in 0..count {
        add_letter(base + usize::from(k), true, &mut all)?;
    }
    *next = all;
    Ok(())
}

/// Whether just the last positions before `end` stand before `at`.
fn is_cursor(last: &[u32], at: usize, end: usize) -> bool
    requires { Increases last.now }
    ensures { result ≡ true → IsCursor last.now at end }
{
    if at == 0 || at > last.len() {
        return false;
    }
    (last[at - 1] as usize) < end && is_quiet(last, at, end)
}

/// Where the last positions from `end` on begin. It looks first where they do if all from `base` to there are last
/// ones.
fn skip_last(last: &[u32], at: usize, base: usize, end: usize) -> usize
    requires cursor { IsCursor last.now at base }
    requires order { base ≤ end }
    ensures { IsCursor last.now result end }
{
    let behind = at.saturating_add(end - base);
    if is_cursor(last, behind, end) {
        return behind;
    }
    let mut cursor = at;
    while !is_quiet(last, cursor, end) {
        cursor += 1;
    }
    cursor
}

/// Adds all positions of copies of a letter that may be left out, where the first one is entered, and so each other.
fn enter_all(
    last: &[u32],
    at: usize,
    base: usize,
    copies: Copies,
    next: &mut Vec<u32>,
) -> Result<Passed, AllocError>
    requires cursor { IsCursor last.now at base }
    requires few { base + copies.count < 2 ^ 32 }
    requires front { IsFront next.old.items base }
    ensures left { IfOk result (λ p. p.left
        ≡ passes (letter_exits true (contains last.now)) base 1 copies.least false true copies.count) }
    ensures cursor { IfOk result (λ p. IsCursor last.now p.at (base + copies.count)) }
    ensures front { IfOk result (λ _. IsFront next.new.items (base + copies.count)) }
    ensures next { IfOk result (λ _. (q : ℕ)
        → contains next.new.items q ≡ (contains next.old.items q || comes (letter_enters q)
        (letter_exits true (contains last.now)) copies.loops base 1 true copies.count)) }
{
    add_all(base, copies.count, next)?;
    let end = base + usize::from(copies.count);
    Ok(Passed {
        left: copies.least <= copies.count,
        at: skip_last(last, at, base, end),
    })
}

/// Adds the positions that come next, where copies of a letter are entered or not, and these are the last ones.
pub(crate) fn enter_letters(
    skips: bool,
    last: &[u32],
    at: usize,
    base: usize,
    copies: Copies,
    entered: bool,
    next: &mut Vec<u32>,
) -> Result<Passed, AllocError>
    requires cursor { IsCursor last.now at base }
    requires few { base + copies.count < 2 ^ 32 }
    requires front { IsFront next.old.items base }
    ensures left { IfOk result (λ p. p.left
        ≡ passes (letter_exits skips (contains last.now)) base 1 copies.least false entered copies.count) }
    ensures cursor { IfOk result (λ p. IsCursor last.now p.at (base + copies.count)) }
    ensures front { IfOk result (λ _. IsFront next.new.items (base + copies.count)) }
    ensures next { IfOk result (λ _. (q : ℕ)
        → contains next.new.items q ≡ (contains next.old.items q || comes (letter_enters q)
        (letter_exits skips (contains last.now)) copies.loops base 1 entered copies.count)) }
{
    if skips && entered {
        return enter_all(last, at, base, copies, next);
    }
    let mut left = entered;
    let mut out = false;
    let mut cursor = at;
    let mut needed = copies.least;
    for k in 0..copies.count {
        out = is_out(out, needed, left);
        let position = base + usize::from(k);
        let here = leave_letter(last, cursor, position);
        let loops = is_loop(copies, k);
        add_letter(position, is_entered(left, loops, here.left), next)?;
        left = is_left(skips, left, here.left);
        cursor = here.at;
        needed = needed.saturating_sub(1);
    }
    Ok(Passed {
        left: is_out(out, needed, left),
        at: cursor,
    })
}
