//! A match that was found is carried out, or the end action is.
ghost use Rattle.std.specs.Prelude.{◌≡◌, ℕ, ◌+◌, ◌<◌, ◌≤◌, length, true};
ghost use Rattle.lex_semantics.specs.Text.{Among};
ghost use Rattle.lex_semantics.specs.MachineLaws.{NoReject};
ghost use Rattle.lexscan_window.specs.Intakes.{can_write};
ghost use Rattle.lexscan_matching.specs.Picks.{IsLongestPick, HasLastStates, path_of, rule_in};
ghost use Rattle.lexscan.specs.Steps.{MatchCarried, EndCarried};

use crate::leave::leave_match;
use crate::turn::Turn;
use lex_io::Sink;
use lex_machine::Machine;
use lexscan_matching::{LookAhead, Pick, carry_pick, descend, near_end, walk_again};
use lexscan_window::{MatchedRule, Outlet, RunError, State, StatePath, flush, put};

/// Carries out the longest match of the bytes that were asked for, for a machine without REJECT.
#[inline(always)]
pub fn carry_longest<M: Machine, K: Sink>(
    machine: &M,
    outlet: &mut Outlet<'_, K>,
    state: &mut State,
    ahead: LookAhead,
) -> Result<Turn, RunError>
    requires live { can_write outlet.old ≡ true }
    requires no_reject { NoReject (M.machine machine.now) }
    requires condition { state.old.place.condition < (M.machine machine.now).conditions }
    requires tells { HasLastStates (M.machine machine.now) (M.states machine.now) state.old.place
        state.old.reading.window.bytes ahead }

    ensures { MatchCarried (M.machine machine.now) outlet.old outlet.new state.old state.new
        (path_of (M.machine machine.now) state.old.place state.old.reading.window.bytes ahead.reach) result }
{
    // Most longest matches end at the last byte that was asked for, or at the one before it.
    if let Some(pick) = near_end(machine, &state.reading.window, state.place, ahead) {
        return carry_match(machine, outlet, state, ahead.reach, Some(pick));
    }
    if 1 < ahead.reach {
        return carry_far(machine, outlet, state, ahead.reach);
    }
    carry_match(machine, outlet, state, ahead.reach, None)
}

/// The same where neither the last state accepts nor the one before it.
#[cold]
#[inline(never)]
fn carry_far<M: Machine, K: Sink>(
    machine: &M,
    outlet: &mut Outlet<'_, K>,
    state: &mut State,
    reach: usize,
) -> Result<Turn, RunError>
    requires live { can_write outlet.old ≡ true }
    requires no_reject { NoReject (M.machine machine.now) }
    requires condition { state.old.place.condition < (M.machine machine.now).conditions }
    requires place { state.old.place.at + reach ≤ length state.old.reading.window.bytes }
    requires some { 1 ≤ reach }

    ensures { MatchCarried (M.machine machine.now) outlet.old outlet.new state.old state.new
        (path_of (M.machine machine.now) state.old.place state.old.reading.window.bytes reach) result }
{
    let pick = walk_again(machine, &state.reading.window, state.place, reach);
    carry_match(machine, outlet, state, reach, pick)
}

/// Carries out this match, or the default match where there is none, and goes to the place after it.
#[inline(always)]
fn carry_match<M: Machine, K: Sink>(
    machine: &M,
    outlet: &mut Outlet<'_, K>,
    state: &mut State,
    reach: usize,
    pick: Option<Pick<'_>>,
) -> Result<Turn, RunError>
    requires live { can_write outlet.old ≡ true }
    requires no_reject { NoReject (M.machine machine.now) }
    requires place { state.old.place.at + reach ≤ length state.old.reading.window.bytes }
    requires some { 1 ≤ reach }
    requires longest { IsLongestPick (M.machine machine.now) state.old.place state.old.reading.window.bytes reach pick }

    ensures { MatchCarried (M.machine machine.now) outlet.old outlet.new state.old state.new
        (path_of (M.machine machine.now) state.old.place state.old.reading.window.bytes reach) result }
{
    // The end of the text and yymore are set where the match is carried out; of what the last one left the stack stays.
    state.acting.condition = state.place.condition;
    state.matched = Some(rule_of(pick));
    let place = state.place;
    let reading = &state.reading;
    match carry_pick(
        machine,
        outlet,
        &reading.window,
        place,
        reach,
        pick,
        &mut state.acting,
    ) {
        Err(e) => Err(e),
        Ok(finish) => leave_match(outlet, state, finish),
    }
}

/// The rule of a match, or of the default match where there is none.
#[inline(always)]
fn rule_of(pick: Option<Pick<'_>>) -> MatchedRule
    ensures { result ≡ rule_in pick.entry }
{
    match pick {
        Some(pick) => MatchedRule::Numbered(pick.rule),
        None => MatchedRule::Default,
    }
}

/// Carries out the longest match that its actions do not reject, by the states after each byte, and goes to the place
/// after it.
pub fn carry_with_reject<M: Machine, K: Sink>(
    machine: &M,
    outlet: &mut Outlet<'_, K>,
    state: &mut State,
    path: &StatePath,
) -> Result<Turn, RunError>
    requires live { can_write outlet.old ≡ true }
    requires some { 1 ≤ length path.now.states }
    requires inside { state.old.place.at + length path.now.states ≤ length state.old.reading.window.bytes }
    requires known { (s : ℕ) → Among path.now.states s → s < M.states machine.now }

    ensures { MatchCarried (M.machine machine.now) outlet.old outlet.new state.old state.new path.now.states result }
{
    // Of what the last match left, the stack alone stays.
    state.acting.end = 0;
    state.acting.condition = state.place.condition;
    state.acting.more = false;
    let place = state.place;
    let reading = &state.reading;
    match descend(
        machine,
        outlet,
        &reading.window,
        path,
        place.at,
        &mut state.acting,
        &mut state.matched,
    ) {
        Err(e) => Err(e),
        Ok(finish) => leave_match(outlet, state, finish),
    }
}

/// Carries out the end action of the condition.
pub fn carry_end<M: Machine, K: Sink>(
    machine: &M,
    outlet: &mut Outlet<'_, K>,
    state: &mut State,
) -> Result<Turn, RunError>
    requires live { can_write outlet.old ≡ true }
    requires condition { state.old.place.condition < (M.machine machine.now).conditions }
    requires inside { state.old.place.at ≤ length state.old.reading.window.bytes }

    ensures { EndCarried (M.machine machine.now) outlet.old outlet.new state.old state.new result }
{
    let action = machine.eof(state.place.condition);
    match put(outlet, action.print.as_slice()) {
        Err(e) => Err(e),
        Ok(()) => match flush(outlet) {
            Err(e) => Err(e),
            Ok(()) => {
                // What yymore kept belongs to no match.
                state.reading.window.drop_front(state.place.at);
                state.place.at = 0;
                state.ended = Some(action.status);
                state.matched = None;
                Ok(Turn::Ended(action.status))
            }
        },
    }
}
