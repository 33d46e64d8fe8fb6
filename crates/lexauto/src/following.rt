//! What follows the key of a state, and the rules that it accepts.
ghost use Rattle.std.specs.Prelude.{◌≡◌, ℕ, [], true, IfOk};
ghost use Rattle.lex_semantics.specs.Active.{contains};
ghost use Rattle.lexspec.specs.Views.{spec_of, rules_in};
ghost use Rattle.lexauto_positions.specs.Cursors.{Increases};
ghost use Rattle.lexauto.specs.Moving.{followers_in};
ghost use Rattle.lexauto.specs.Sets.{marked, starts_in, lasts_in};
ghost use Rattle.lexauto.specs.Facts.{accepted_by};

use crate::sets::{in_order, is_in_order, lasts_in, marks_of, starts_in};
use crate::stepping::RuleMoves;
use lexauto_positions::{Walked, enter_rules, pass_rules};
use std::alloc::{AllocError, Global};

/// What a start state's key tells. No rule is accepted there.
fn walk_starts(alloc: Global, moves: &RuleMoves, key: &[u32]) -> Result<Walked, AllocError>
    requires { lasts_in key.now ≡ [] }
    ensures followers { IfOk result (λ w. w.followers.items
        ≡ followers_in (rules_in (spec_of moves.now.spec.now)) moves.now.count key.now) }
    ensures accepted { IfOk result (λ w. w.accepted.items ≡ accepted_by (spec_of moves.now.spec.now) key.now) }
{
    let on = marks_of(alloc, moves.rules.len(), starts_in(key))?;
    let followers = enter_rules(alloc, &moves.rules, &on)?;
    Ok(Walked {
        followers,
        accepted: Vec::new(alloc),
    })
}

/// What the last positions of a state's key tell, which ascend. The rules that are accepted are those that are left at
/// their ends, or the first of them if no rule has REJECT.
fn pass(alloc: Global, moves: &RuleMoves, key: &[u32], last: &[u32]) -> Result<Walked, AllocError>
    requires starts { starts_in key.now ≡ [] }
    requires increases { Increases last.now }
    requires same { (i : ℕ) → contains last.now i ≡ marked moves.now.count (lasts_in key.now) i }
    ensures followers { IfOk result (λ w. w.followers.items
        ≡ followers_in (rules_in (spec_of moves.now.spec.now)) moves.now.count key.now) }
    ensures accepted { IfOk result (λ w. w.accepted.items ≡ accepted_by (spec_of moves.now.spec.now) key.now) }
{
    let mut walked = pass_rules(alloc, &moves.rules, &moves.owners, last)?;
    walked.choose(moves.accepts_all);
    Ok(walked)
}

/// What another state's key tells. The rules that are accepted are those that are left at their ends, or the first of
/// them if no rule has REJECT.
fn walk_lasts(
    alloc: Global,
    moves: &RuleMoves,
    key: &[u32],
    ascends: bool,
) -> Result<Walked, AllocError>
    requires starts { starts_in key.now ≡ [] }
    requires order { ascends ≡ true → Increases (lasts_in key.now) }
    ensures followers { IfOk result (λ w. w.followers.items
        ≡ followers_in (rules_in (spec_of moves.now.spec.now)) moves.now.count key.now) }
    ensures accepted { IfOk result (λ w. w.accepted.items ≡ accepted_by (spec_of moves.now.spec.now) key.now) }
{
    let lasts = lasts_in(key);
    if is_in_order(moves.count, lasts, ascends) {
        return pass(alloc, moves, key, lasts);
    }
    let last = in_order(alloc, moves.count, lasts)?;
    pass(alloc, moves, key, &last)
}

/// What a key tells. It may be told that the last positions in the key ascend.
pub(crate) fn walk(
    alloc: Global,
    moves: &RuleMoves,
    key: &[u32],
    ascends: bool,
) -> Result<Walked, AllocError>
    requires { ascends ≡ true → Increases (lasts_in key.now) }
    ensures followers { IfOk result (λ w. w.followers.items
        ≡ followers_in (rules_in (spec_of moves.now.spec.now)) moves.now.count key.now) }
    ensures accepted { IfOk result (λ w. w.accepted.items ≡ accepted_by (spec_of moves.now.spec.now) key.now) }
{
    if starts_in(key).is_empty() {
        return walk_lasts(alloc, moves, key, ascends);
    }
    walk_starts(alloc, moves, key)
}
