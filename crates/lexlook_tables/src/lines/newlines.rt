//! What a newline leads to.
ghost use Rattle.std.specs.Prelude.{◌≡◌, ℕ, ◌<◌, ◌≤◌, Bool, true, false, None, slice_get, IfOk};
ghost use Rattle.lex_semantics.specs.Text.{Among};
ghost use Rattle.lex_semantics.specs.Spec.{Whole};
ghost use Rattle.lex_machine.specs.Views.{cut_of};
ghost use Rattle.lexlook_tables.specs.Lines.{TakesLine, EndsAt};
ghost use Rattle.lexlook_tables.specs.Obstacles.{FirstOf, Along, RuleAfter, RuleBeyond, CrossingRule, StrayingRule, HindersAt};
ghost use Rattle.lexlook_tables.specs.Discarding.{IsKnown};

use crate::lines::actions::{ends_line, may_keep_last};
use crate::lines::cutting::Obstacle;
use crate::lines::discarding::{Known, discards_line};
use crate::lines::reaching::reached;
use lex_machine::{Cut, Machine, has_reject};
use std::alloc::{AllocError, Global};

/// The first rule that the state accepts, if it accepts any.
fn first_rule<M: Machine>(machine: &M, state: u32) -> Option<u32>
    requires { state < M.states machine.now }
    ensures { result ≡ slice_get ((M.machine machine.now).accepts state) 0 }
{
    machine.accepts(state).first().copied()
}

/// The first rule that is accepted one byte after this state, if there is one.
fn rule_after<M: Machine>(machine: &M, state: u32) -> Option<u32>
    requires { state < M.states machine.now }
    ensures { FirstOf (RuleAfter (M.machine machine.now) state) result }
{
    'bytes: for byte in 0..256u32 {
        if let Some(rule) = first_rule(machine, machine.step(state, byte as u8)) {
            return Some(rule);
        }
    }
    None
}

/// The first rule that is accepted one byte after one of these states, if there is one.
fn rule_after_some<M: Machine>(machine: &M, found: &[u32]) -> Option<u32>
    requires { (s : ℕ) → Among found.now s → s < M.states machine.now }
    ensures { FirstOf (Along found.now (RuleAfter (M.machine machine.now))) result }
{
    for state in found {
        if let Some(rule) = rule_after(machine, *state) {
            return Some(rule);
        }
    }
    None
}

/// The rule that is accepted after this state and a text of some bytes, if there is one. It is the first rule of the
/// shortest such text, and of these of the first in byte order.
fn rule_beyond<M: Machine>(
    alloc: Global,
    machine: &M,
    states: u32,
    state: u32,
) -> Result<Option<u32>, AllocError>
    requires states { states ≡ M.states machine.now }
    requires state { state < M.states machine.now }
    ensures { IfOk result (FirstOf (RuleBeyond (M.machine machine.now) state)) }
{
    let starts = [state];
    let found = reached(alloc, machine, states, &starts)?;
    Ok(rule_after_some(machine, &found))
}

/// The rule by which a match goes on from the state after a newline, where not each one is discarded. It is the one of
/// `rule_beyond`.
fn crossing_rule<M: Machine>(
    alloc: Global,
    machine: &M,
    states: u32,
    condition: u8,
    state: u32,
    known: &mut Known,
) -> Result<Option<u32>, AllocError>
    requires states { states ≡ M.states machine.now }
    requires state { state < M.states machine.now }
    requires known { IsKnown (M.machine machine.now) (M.states machine.now) known.old }
    ensures rule { IfOk result (FirstOf (CrossingRule (M.machine machine.now) condition state)) }
    ensures ends { IfOk result (λ rule. rule ≡ None → EndsAt (M.machine machine.now) condition state) }
    ensures known { IfOk result (λ rule. rule ≡ None
        → IsKnown (M.machine machine.now) (M.states machine.now) known.new) }
{
    if !machine.goes_on(state) {
        return Ok(None);
    }
    if discards_line(machine, condition, state, known)? {
        return Ok(None);
    }
    rule_beyond(alloc, machine, states, state)
}

/// The first rule that the state accepts after a newline and that does not leave the scan in INITIAL, if there is one.
fn straying_rule<M: Machine>(machine: &M, condition: u8, state: u32) -> Option<u32>
    requires { state < M.states machine.now }
    ensures { FirstOf (StrayingRule (M.machine machine.now) condition state) result }
{
    for rule in machine.accepts(state) {
        let (cut, statements) = machine.rule(*rule);
        if may_keep_last(cut) && !ends_line(condition, statements) {
            return Some(*rule);
        }
    }
    None
}

/// Whether the text is all of a match.
fn is_whole(cut: Cut) -> bool
    ensures yes { result ≡ true → cut_of cut ≡ Whole }
    ensures no { result ≡ false → cut_of cut ≡ Whole → ⊥ }
{
    matches!(cut, Cut::Whole)
}

/// Whether a newline alone is taken by some rule in a condition, and not by the default rule.
fn takes_line<M: Machine>(machine: &M, condition: u8, line_start: bool) -> bool
    requires { condition < (M.machine machine.now).conditions }
    ensures yes { result ≡ true → TakesLine (M.machine machine.now) condition line_start }
    ensures no { result ≡ false → TakesLine (M.machine machine.now) condition line_start → ⊥ }
{
    let state = machine.step(machine.start(condition, line_start), b'\n');
    for rule in machine.accepts(state) {
        let (cut, statements) = machine.rule(*rule);
        if is_whole(cut) && !has_reject(statements) {
            return true;
        }
    }
    false
}

/// Whether the default rule may take a newline in this condition, which is not INITIAL.
pub(crate) fn copies_line<M: Machine>(machine: &M, condition: u8) -> bool
    requires { condition < (M.machine machine.now).conditions }
    ensures yes { result ≡ true → (1 ≤ condition) × (line : Bool)
        × (TakesLine (M.machine machine.now) condition line → ⊥) }
    ensures no { result ≡ false → (line : Bool) → 1 ≤ condition → TakesLine (M.machine machine.now) condition line }
{
    condition != 0
        && !(takes_line(machine, condition, false) && takes_line(machine, condition, true))
}

/// What stands first against a cut after a newline that follows on a text which leads to this state.
pub(crate) fn obstacle_at<M: Machine>(
    alloc: Global,
    machine: &M,
    states: u32,
    condition: u8,
    state: u32,
    known: &mut Known,
) -> Result<Option<Obstacle>, AllocError>
    requires states { states ≡ M.states machine.now }
    requires state { state < M.states machine.now }
    requires known { IsKnown (M.machine machine.now) (M.states machine.now) known.old }
    ensures first { IfOk result (FirstOf (HindersAt (M.machine machine.now) condition state)) }
    ensures ends { IfOk result (λ found. found ≡ None
        → EndsAt (M.machine machine.now) condition ((M.machine machine.now).next state 10)) }
    ensures known { IfOk result (λ found. found ≡ None
        → IsKnown (M.machine machine.now) (M.states machine.now) known.new) }
{
    let next = machine.step(state, b'\n');
    if let Some(rule) = crossing_rule(alloc, machine, states, condition, next, known)? {
        return Ok(Some(Obstacle::Crosses { condition, rule }));
    }
    match straying_rule(machine, condition, next) {
        Some(rule) => Ok(Some(Obstacle::Strays { condition, rule })),
        None => Ok(None),
    }
}
