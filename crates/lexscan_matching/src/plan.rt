//! What a match does where its rule has a cut, does yymore beside simple statements, or rejects the match after them: for
//! turns over bytes in memory.
ghost use Rattle.std.specs.Prelude.{◌≡◌, ℕ, ◌+◌, ◌<◌, ◌≤◌, List, length, map, drop, true, Some, IfOk, IfSome};
ghost use Rattle.lex_semantics.specs.PlainMachine.{kept_by};
ghost use Rattle.lex_machine.specs.Glances.{Leads};
ghost use Rattle.lex_machine.specs.Views.{statement_of};
ghost use Rattle.lex_io.specs.Sink.{Appended};
ghost use Rattle.lexscan_window.specs.declared.state.TextPlace.{TextPlace};
ghost use Rattle.lexscan_window.specs.Ends.{SinkLeft};
ghost use Rattle.lexscan_window.specs.Intakes.{sink_of, sink_name, can_write};
ghost use Rattle.lexscan_matching.specs.Plans.{IsClose, IsSimplePart, IsKnown, AreFirstTwo, FollowsAll, PlansAll, IsPlan};
ghost use Rattle.lexscan_matching.specs.Plans.{said_by_plan, begun_by_plan};

use crate::descent::kept_length;
use crate::glanced::do_several;
use crate::pick::{Pick, first_candidate};
use lex_io::Sink;
use lex_machine::{Machine, Statement, Way, are_simple};
use lexscan_window::{Outlet, RunError};

/// How many bytes a walk has at most whose match is planned: longer ones are left to turns by themselves.
pub(crate) const FEW: usize = 32;

/// The statement that some end with, beside simple ones.
#[derive(Clone, Copy)]
pub enum Close {
    /// No other.
    Plain,
    /// yymore.
    More,
    /// REJECT.
    Reject,
}

/// Statements that each write the text or a literal or set the condition, without the one that they end with.
#[derive(Clone, Copy)]
pub struct SimplePart<'m> {
    pub statements: &'m [Statement],
    pub close: Close,
}

/// The first match of a length, and the one after it of the same length.
#[derive(Clone, Copy)]
pub struct FirstTwo<'m> {
    pub first: Pick<'m>,
    pub second: Option<Pick<'m>>,
}

/// What a turn does: simple statements of a match that is rejected, if one is, and those of the match that is carried out.
/// How many bytes each keeps, and whether yymore is done.
#[derive(Clone, Copy)]
pub struct Plan<'m> {
    pub rejected: &'m [Statement],
    pub rejected_keep: usize,
    pub said: &'m [Statement],
    pub keep: usize,
    pub more: bool,
}

/// The statement that some end with.
#[inline(always)]
fn close_of(last: &Statement) -> Close
    ensures { IsClose result (statement_of last.now) }
{
    match last {
        Statement::More => Close::More,
        Statement::Reject => Close::Reject,
        _ => Close::Plain,
    }
}

/// The simple statements of a rule, where it has no others but one at their end.
#[inline(always)]
fn simple_part(statements: &[Statement]) -> Option<SimplePart<'_>>
    ensures { IfSome result (IsSimplePart (map statement_of statements.now)) }
{
    let count = statements.len();
    if count == 0 {
        return None;
    }
    let close = close_of(&statements[count - 1]);
    let simple = match close {
        Close::Plain => statements,
        _ => &statements[..count - 1],
    };
    if !are_simple(simple) {
        return None;
    }
    Some(SimplePart {
        statements: simple,
        close,
    })
}

/// The match of the first of some rules, where its cut fits.
#[inline(always)]
fn match_by<'m, M: Machine>(machine: &'m M, rule: u32, len: usize) -> Option<Pick<'m>>
    requires known { rule < (M.machine machine.now).count }
    requires some { 1 ≤ len }
    ensures keep { IfSome result (λ pick. kept_by ((M.machine machine.now).cut rule) len ≡ Some pick.keep) }
    ensures rule { IfSome result (λ pick. pick.rule ≡ rule) }
    ensures known { IfSome result (IsKnown (M.machine machine.now) len) }
{
    let (cut, statements) = machine.rule(rule);
    let keep = kept_length(cut, len)?;
    Some(Pick {
        rule,
        keep,
        statements,
    })
}

/// The first two matches of so many bytes, by the rules of the state after them.
#[inline(always)]
fn first_two<'m, M: Machine>(machine: &'m M, state: u32, len: usize) -> Option<FirstTwo<'m>>
    requires known { state < M.states machine.now }
    requires some { 1 ≤ len }
    ensures { IfSome result (AreFirstTwo (M.machine machine.now) state len) }
{
    let rules = machine.accepts(state);
    if rules.is_empty() {
        return None;
    }
    let first = match_by(machine, rules[0], len)?;
    let second = first_candidate(machine, &rules[1..], len);
    Some(FirstTwo { first, second })
}

/// The match after the first one of so many bytes: of as many, or of one less, where the state after these is known.
#[inline(always)]
fn next_match<'m, M: Machine>(
    machine: &'m M,
    second: Option<Pick<'m>>,
    len: usize,
    before: Option<u32>,
) -> Option<Pick<'m>>
    requires some { 1 ≤ len }
    requires known { IfSome second (IsKnown (M.machine machine.now) len) }
    requires known_before { IfSome before (λ b. (b < M.states machine.now) × (2 ≤ len)) }
    ensures follows { IfSome result (λ pick. (state : ℕ) → FollowsAll (M.machine machine.now) len state before second.entry pick) }
    ensures known { IfSome result (IsKnown (M.machine machine.now) len) }
{
    if let Some(pick) = second {
        return Some(pick);
    }
    let state = before?;
    first_candidate(machine, machine.accepts(state), len - 1)
}

/// The plan where the first match is rejected.
#[inline(always)]
fn plan_after<'m, M: Machine>(
    machine: &'m M,
    two: FirstTwo<'m>,
    rejected: &'m [Statement],
    len: usize,
    before: Option<u32>,
) -> Option<Plan<'m>>
    requires some { 1 ≤ len }
    requires known { IfSome two.second (IsKnown (M.machine machine.now) len) }
    requires first { IsKnown (M.machine machine.now) len two.first }
    requires known_before { IfSome before (λ b. (b < M.states machine.now) × (2 ≤ len)) }
    requires rejects { IsSimplePart (map statement_of two.first.statements.now)
        (record { statements = rejected; close = Close.Reject }) }
    ensures { IfSome result (λ plan. (state : ℕ) → AreFirstTwo (M.machine machine.now) state len two.entry
        → PlansAll (M.machine machine.now) len state before plan) }
{
    let next = next_match(machine, two.second, len, before)?;
    let last = simple_part(next.statements)?;
    let more = match last.close {
        Close::Plain => false,
        Close::More => true,
        Close::Reject => return None,
    };
    Some(Plan {
        rejected,
        rejected_keep: two.first.keep,
        said: last.statements,
        keep: next.keep,
        more,
    })
}

/// The plan of a walk, where the state after so many of its bytes is the last that accepts a rule. The state before it is
/// known or not.
#[inline(always)]
fn plan_at<'m, M: Machine>(
    machine: &'m M,
    state: u32,
    len: usize,
    before: Option<u32>,
) -> Option<Plan<'m>>
    requires known { state < M.states machine.now }
    requires some { 1 ≤ len }
    requires known_before { IfSome before (λ b. (b < M.states machine.now) × (2 ≤ len)) }
    ensures { IfSome result (PlansAll (M.machine machine.now) len state before) }
{
    let two = first_two(machine, state, len)?;
    let first = simple_part(two.first.statements)?;
    let more = match first.close {
        Close::Plain => false,
        Close::More => true,
        Close::Reject => return plan_after(machine, two, first.statements, len, before),
    };
    Some(Plan {
        rejected: &[],
        rejected_keep: 0,
        said: first.statements,
        keep: two.first.keep,
        more,
    })
}

/// The plan of a short walk, where the last state accepts a rule or the one before it.
#[inline(always)]
pub fn plan_of<'m, M: Machine>(machine: &'m M, way: Way<'m>) -> Option<Plan<'m>>
    requires known { way.state < M.states machine.now }
    requires known_before { way.before < M.states machine.now }
    requires some { 1 ≤ way.count }
    ensures { IfSome result (λ plan. (p : TextPlace) (w : List ℕ)
        → Leads (M.machine machine.now) ((M.machine machine.now).start p.condition p.line_start) (drop p.at w) way.entry
        → IsPlan (M.machine machine.now) p w way.entry.count plan) }
{
    if FEW < way.count {
        return None;
    }
    if !machine.accepts(way.state).is_empty() {
        let before = if 1 < way.count {
            Some(way.before)
        } else {
            None
        };
        return plan_at(machine, way.state, way.count, before);
    }
    if 1 < way.count {
        return plan_at(machine, way.before, way.count - 1, None);
    }
    None
}

/// Carries out what is planned of a match at a place in a text. Answers the condition of the next match.
#[inline(always)]
pub fn do_plan<K: Sink>(
    outlet: &mut Outlet<'_, K>,
    plan: Plan<'_>,
    text: &[u8],
    at: usize,
    condition: u8,
) -> Result<u8, RunError>
    requires live { can_write outlet.old ≡ true }
    requires rejected { at + plan.rejected_keep ≤ length text.now }
    requires inside { at + plan.keep ≤ length text.now }
    ensures same { sink_name outlet.new ≡ sink_name outlet.old }
    ensures bytes { Appended (λ xs. K.wrote (sink_of outlet.old) xs (sink_of outlet.new))
        (said_by_plan plan.entry at text.now) result }
    ensures sink { SinkLeft K.failures (sink_of outlet.old) (sink_of outlet.new) (can_write outlet.new) result }
    ensures condition { IfOk result (λ after. after ≡ begun_by_plan plan.entry condition) }
{
    match do_several(
        outlet,
        plan.rejected,
        &text[..at + plan.rejected_keep],
        condition,
    ) {
        Err(e) => Err(e),
        Ok(begun) => match do_several(outlet, plan.said, &text[..at + plan.keep], begun) {
            Err(e) => Err(e),
            Ok(after) => Ok(after),
        },
    }
}
