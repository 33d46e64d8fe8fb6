//! The longest match at a place, without the states before its last two.
ghost use Rattle.std.specs.Prelude.{◌≡◌, ℕ, ◌+◌, ◌<◌, ◌≤◌, length, filter_map, true, IfSome};
ghost use Rattle.lex_semantics.specs.Text.{Among};
ghost use Rattle.lex_semantics.specs.PlainMachine.{match_of};
ghost use Rattle.lex_semantics.specs.MachineLaws.{NoReject};
ghost use Rattle.lexscan_window.specs.Intakes.{can_write};
ghost use Rattle.lexscan_matching.specs.Descends.{matches_of};
ghost use Rattle.lexscan_matching.specs.Picks.{IsFirst, IsLongestPick, HasStatements, HasLastStates, path_of};
ghost use Rattle.lexscan_matching.specs.Calls.{PickedNear, PickCarried};

use crate::descent::kept_length;
use lex_io::Sink;
use lex_machine::{Machine, Statement};
use lexscan_window::{
    ActionFlow, ActionState, Finish, Outlet, RunError, TextPlace, Window, carry_out, put,
};

/// How many bytes a match asked for, the state after them, and the one before the last of them.
#[derive(Clone, Copy)]
pub struct LookAhead {
    pub reach: usize,
    pub state: u32,
    pub before: u32,
}

/// A match: its rule, how many bytes it keeps, and what the rule does.
#[derive(Clone, Copy)]
pub struct Pick<'m> {
    pub rule: u32,
    pub keep: usize,
    pub statements: &'m [Statement],
}

/// The first of the rules whose cut fits a match of this many bytes.
#[inline(always)]
pub fn first_candidate<'m, M: Machine>(
    machine: &'m M,
    rules: &[u32],
    len: usize,
) -> Option<Pick<'m>>
    requires known { (i : ℕ) → Among rules.now i → i < (M.machine machine.now).count }

    ensures first { IsFirst (filter_map (match_of (M.machine machine.now) len) rules.now) result }
    ensures known { IfSome result (λ pick. pick.rule < (M.machine machine.now).count) }
    ensures statements { IfSome result (HasStatements (M.machine machine.now)) }
    ensures short { IfSome result (λ pick. pick.keep ≤ len) }
{
    for rule in rules {
        let (cut, statements) = machine.rule(*rule);
        // The rules ascend, so the first that fits is the earliest.
        if let Some(keep) = kept_length(cut, len) {
            return Some(Pick {
                rule: *rule,
                keep,
                statements,
            });
        }
    }
    None
}

/// The longest match of the first bytes from a place on, by one more walk over them.
pub fn walk_again<'m, M: Machine>(
    machine: &'m M,
    window: &Window,
    place: TextPlace,
    reach: usize,
) -> Option<Pick<'m>>
    requires condition { place.condition < (M.machine machine.now).conditions }
    requires inside { place.at + reach ≤ length window.now.bytes }

    ensures { IsLongestPick (M.machine machine.now) place window.now.bytes reach result }
{
    let held = window.len();
    let mut state = machine.start(place.condition, place.line_start);
    let mut best: Option<Pick<'m>> = None;
    let mut len = 0usize;
    'bytes: while len < reach {
        prove!(place.at <= held && len < held - place.at);
        state = machine.step(state, window.byte(place.at + len));
        len += 1;
        // A longer match takes the place of a shorter one.
        match first_candidate(machine, machine.accepts(state), len) {
            Some(pick) => best = Some(pick),
            None => {}
        }
    }
    best
}

/// The longest match of the bytes that were asked for, where the last state accepts or the one before it.
#[inline(always)]
pub fn near_end<'m, M: Machine>(
    machine: &'m M,
    window: &Window,
    place: TextPlace,
    ahead: LookAhead,
) -> Option<Pick<'m>>
    requires condition { place.condition < (M.machine machine.now).conditions }
    requires tells { HasLastStates (M.machine machine.now) (M.states machine.now) place window.now.bytes ahead }

    ensures { PickedNear (M.machine machine.now) place window.now.bytes ahead.reach result }
{
    let len = ahead.reach;
    if let Some(pick) = first_candidate(machine, machine.accepts(ahead.state), len) {
        return Some(pick);
    }
    // The state before the first byte is a start: no match ends there.
    if len == 1 {
        return None;
    }
    if let Some(pick) = first_candidate(machine, machine.accepts(ahead.before), len - 1) {
        return Some(pick);
    }
    None
}

/// Carries out this match, or the default match where there is none. Answers how the scan ends, if it does.
#[inline(always)]
pub fn carry_pick<M: Machine, K: Sink>(
    machine: &M,
    outlet: &mut Outlet<'_, K>,
    window: &Window,
    place: TextPlace,
    reach: usize,
    pick: Option<Pick<'_>>,
    acting: &mut ActionState,
) -> Result<Option<Finish>, RunError>
    requires live { can_write outlet.old ≡ true }
    requires no_reject { NoReject (M.machine machine.now) }
    requires inside { place.at + reach ≤ length window.now.bytes }
    requires some { 1 ≤ reach }
    requires longest { IsLongestPick (M.machine machine.now) place window.now.bytes reach pick }

    ensures { PickCarried (M.machine machine.now) outlet.old outlet.new window.now.bytes place.at
        (matches_of (M.machine machine.now) window.now.bytes place.at
        (path_of (M.machine machine.now) place window.now.bytes reach)) acting.old acting.new result }
{
    // The text begins at the front of the window, with what yymore kept, and the match at its place.
    let held = window.len();
    acting.more = false;
    match pick {
        Some(pick) => {
            prove!(place.at <= held && pick.keep <= held - place.at);
            acting.end = place.at + pick.keep;
            match carry_out(outlet, window, pick.statements, acting) {
                Err(e) => Err(e),
                Ok(ActionFlow::Next) => Ok(None),
                // A machine without REJECT never answers this.
                Ok(ActionFlow::Again) => Ok(None),
                Ok(ActionFlow::Over(finish)) => Ok(Some(finish)),
            }
        }
        None => {
            prove!(place.at < held);
            acting.end = place.at + 1;
            match put(outlet, window.slice(0, place.at + 1)) {
                Err(e) => Err(e),
                Ok(()) => Ok(None),
            }
        }
    }
}
