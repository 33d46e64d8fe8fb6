//! Bursts over texts that yymore makes longer: matches whose rules do nothing but yymore, and the one after them.
ghost use Rattle.std.specs.Prelude.{◌≡◌, ℕ, ◌+◌, ◌^◌, ◌<◌, ◌≤◌, List, length, drop, true, false, IfSome};
ghost use Rattle.lex_machine.specs.Glances.{Leads};
ghost use Rattle.lexscan_window.specs.Intakes.{can_write};
ghost use Rattle.lexscan.specs.Bursts.{IsMoreMatch, BurstMade};

use crate::apart::turn_apart;
use crate::burst::{Burst, Runs, Wanted, burst_over};
use lex_io::Sink;
use lex_machine::{Gist, Machine, Way};
use lexscan_matching::{do_gist, longest_match, names_rule, near_match};
use lexscan_window::{Outlet, TextPlace};

/// Where some turns over a text led, and how many bytes yymore keeps there before the next match. These follow those
/// that the turns are done with.
#[derive(Clone, Copy)]
pub struct TextBurst {
    pub burst: Burst,
    pub kept: usize,
}

/// How many bytes of a walk a rule keeps that does yymore alone, where the last state of the walk tells it or the one
/// before it.
#[inline(always)]
fn more_part<M: Machine>(machine: &M, way: Way<'_>) -> Option<usize>
    requires known { way.state < M.states machine.now }
    requires known_before { way.before < M.states machine.now }
    ensures { IfSome result (λ keep. (first : ℕ) (bytes : List ℕ) → Leads (M.machine machine.now) first bytes way.entry
        → IsMoreMatch (M.machine machine.now) first bytes way.entry.count keep) }
{
    if matches!(way.gist, Gist::NoRule) {
        if 1 < way.count && machine.does_more(way.before) {
            return Some(way.count - 1);
        }
    } else if machine.does_more(way.state) {
        return Some(way.count);
    }
    None
}

/// The turn of a match whose walk is known, if its rule is told at a glance. All bytes before it are kept by yymore.
#[inline(always)]
fn text_turn<M: Machine, K: Sink>(
    machine: &M,
    outlet: &mut Outlet<'_, K>,
    text: &[u8],
    held: usize,
    place: TextPlace,
    first: u32,
    way: Way<'_>,
) -> TextBurst
    requires live { can_write outlet.old ≡ true }
    requires condition { place.condition < (M.machine machine.now).conditions }
    requires held { held ≤ length text.now }
    requires inside { place.at ≤ held }
    requires first { first < M.states machine.now }
    requires known_before { way.before < M.states machine.now }
    requires leads { (first ≡ (M.machine machine.now).start place.condition place.line_start)
        × Leads (M.machine machine.now) first (drop place.at text.now) way }

    ensures { BurstMade (M.machine machine.now) outlet.old outlet.new text.now held place.at place result.burst
        result.kept }
{
    let at = place.at;
    let near = near_match(machine, way);
    let longest = longest_match(machine, first, &text[at..], way, near);
    if !names_rule(longest.gist) {
        return stopped(held, place, false);
    }
    let asked = held.max(at + way.count);
    let end = at + longest.keep;
    let Ok(after) = do_gist(outlet, longest.gist, &text[..end], place.condition) else {
        return stopped(asked, place, true);
    };
    TextBurst {
        burst: Burst {
            done: end,
            asked,
            line_start: text[end - 1] == b'\n',
            condition: after,
            fault: false,
            runs: Runs::NotLookedFor,
        },
        kept: 0,
    }
}

/// A place where turns stop: all bytes before it are kept.
#[inline(always)]
pub fn stopped(asked: usize, place: TextPlace, fault: bool) -> TextBurst
    ensures kept { result.kept ≡ place.at }
    ensures done { result.burst.done ≡ 0 }
    ensures asked { result.burst.asked ≡ asked }
    ensures line { result.burst.line_start ≡ place.line_start }
    ensures condition { result.burst.condition ≡ place.condition }
    ensures fault { result.burst.fault ≡ fault }
{
    TextBurst {
        burst: Burst {
            done: 0,
            asked,
            line_start: place.line_start,
            condition: place.condition,
            fault,
            runs: Runs::NotLookedFor,
        },
        kept: place.at,
    }
}

/// A place where a text has ended, after all bytes before it: none are kept.
#[inline(always)]
pub fn ended(asked: usize, place: TextPlace) -> TextBurst
    ensures kept { result.kept ≡ 0 }
    ensures done { result.burst.done ≡ place.at }
    ensures asked { result.burst.asked ≡ asked }
    ensures line { result.burst.line_start ≡ place.line_start }
    ensures condition { result.burst.condition ≡ place.condition }
    ensures fault { result.burst.fault ≡ false }
{
    TextBurst {
        burst: Burst {
            done: place.at,
            asked,
            line_start: place.line_start,
            condition: place.condition,
            fault: false,
            runs: Runs::NotLookedFor,
        },
        kept: 0,
    }
}

/// Matches whose rules do yymore alone, and the one after them. All bytes before the first are kept by yymore.
#[inline(always)]
fn text_over<M: Machine, K: Sink>(
    machine: &M,
    outlet: &mut Outlet<'_, K>,
    text: &[u8],
    held: usize,
    place: TextPlace,
) -> TextBurst
    requires live { can_write outlet.old ≡ true }
    requires condition { place.condition < (M.machine machine.now).conditions }
    requires held { held ≤ length text.now }
    requires inside { place.at ≤ held }

    ensures { BurstMade (M.machine machine.now) outlet.old outlet.new text.now held place.at place result.burst
        result.kept }
{
    let mut next = place;
    let mut asked = held;
    let mut first = machine.start(place.condition, place.line_start);
    'matches: while next.at < text.len() {
        let Some(way) = machine.way(first, &text[next.at..]) else {
            break 'matches;
        };
        let Some(keep) = more_part(machine, way) else {
            return text_turn(machine, outlet, text, asked, next, first, way);
        };
        asked = asked.max(next.at + way.count);
        next.at += keep;
        next.line_start = text[next.at - 1] == b'\n';
        first = machine.start(next.condition, next.line_start);
    }
    stopped(asked, next, false)
}

/// The same, and turns over what follows.
#[inline(always)]
fn burst_behind_text<M: Machine, K: Sink>(
    machine: &M,
    outlet: &mut Outlet<'_, K>,
    text: &[u8],
    held: usize,
    place: TextPlace,
    wanted: Wanted,
) -> TextBurst
    requires live { can_write outlet.old ≡ true }
    requires condition { place.condition < (M.machine machine.now).conditions }
    requires held { held ≤ length text.now }
    requires inside { place.at ≤ held }

    ensures { BurstMade (M.machine machine.now) outlet.old outlet.new text.now held place.at place result.burst
        result.kept }
{
    let before = text_over(machine, outlet, text, held, place);
    if before.kept != 0 || before.burst.fault {
        return before;
    }
    let done = before.burst.done;
    let start = TextPlace {
        at: 0,
        line_start: before.burst.line_start,
        condition: before.burst.condition,
    };
    let left = &text[done..];
    let burst = burst_over(
        machine,
        outlet,
        left,
        before.burst.asked - done,
        start,
        wanted,
    );
    TextBurst {
        burst: Burst {
            done: done + burst.done,
            asked: done + burst.asked,
            line_start: burst.line_start,
            condition: burst.condition,
            fault: burst.fault,
            runs: burst.runs,
        },
        kept: 0,
    }
}

/// Turns over a text, of which the first bytes are held, as `burst_over` makes them, where yymore may keep some bytes
/// before the first match.
#[inline(always)]
fn burst_once<M: Machine, K: Sink>(
    machine: &M,
    outlet: &mut Outlet<'_, K>,
    text: &[u8],
    held: usize,
    place: TextPlace,
    wanted: Wanted,
) -> TextBurst
    requires live { can_write outlet.old ≡ true }
    requires condition { place.condition < (M.machine machine.now).conditions }
    requires held { held ≤ length text.now }
    requires inside { place.at ≤ held }

    ensures { BurstMade (M.machine machine.now) outlet.old outlet.new text.now held place.at place result.burst
        result.kept }
{
    if place.at != 0 {
        return burst_behind_text(machine, outlet, text, held, place, wanted);
    }
    let burst = burst_over(machine, outlet, text, held, place, wanted);
    TextBurst { burst, kept: 0 }
}

/// The place where some turns over a text led, in what they left of it.
#[inline(always)]
fn place_after(went: TextBurst) -> TextPlace
    ensures at { result.at ≡ went.kept }
    ensures line { result.line_start ≡ went.burst.line_start }
    ensures condition { result.condition ≡ went.burst.condition }
{
    TextPlace {
        at: went.kept,
        line_start: went.burst.line_start,
        condition: went.burst.condition,
    }
}

/// Where some turns over a text led, and then others over what they left of it.
#[inline(always)]
fn joined(went: TextBurst, next: TextBurst) -> TextBurst
    requires fits { went.burst.done + next.burst.asked < 2 ^ 64 }
    requires inside { next.burst.done ≤ next.burst.asked }
    ensures kept { result.kept ≡ next.kept }
    ensures done { result.burst.done ≡ went.burst.done + next.burst.done }
    ensures asked { result.burst.asked ≡ went.burst.done + next.burst.asked }
    ensures line { result.burst.line_start ≡ next.burst.line_start }
    ensures condition { result.burst.condition ≡ next.burst.condition }
    ensures fault { result.burst.fault ≡ next.burst.fault }
{
    let done = went.burst.done;
    TextBurst {
        burst: Burst {
            done: done + next.burst.done,
            asked: done + next.burst.asked,
            line_start: next.burst.line_start,
            condition: next.burst.condition,
            fault: next.burst.fault,
            runs: later_runs(went.burst.runs, next.burst.runs),
        },
        kept: next.kept,
    }
}

/// What is told of the runs of some turns and of others after them.
#[inline(always)]
fn later_runs(runs: Runs, next: Runs) -> Runs {
    match next {
        Runs::NotLookedFor => runs,
        told => told,
    }
}

/// A turn that is planned, and turns over what follows, as `burst_once` makes them; or none.
#[inline(always)]
fn turn_and_burst<M: Machine, K: Sink>(
    machine: &M,
    outlet: &mut Outlet<'_, K>,
    text: &[u8],
    held: usize,
    place: TextPlace,
    wanted: Wanted,
) -> TextBurst
    requires live { can_write outlet.old ≡ true }
    requires condition { place.condition < (M.machine machine.now).conditions }
    requires held { held ≤ length text.now }
    requires inside { place.at ≤ held }

    ensures { BurstMade (M.machine machine.now) outlet.old outlet.new text.now held place.at place result.burst
        result.kept }
{
    let turn = turn_apart(machine, outlet, text, held, place);
    let done = turn.burst.done;
    if turn.burst.fault || done + turn.kept <= place.at {
        return turn;
    }
    let left = &text[done..];
    let next = burst_once(
        machine,
        outlet,
        left,
        turn.burst.asked - done,
        place_after(turn),
        wanted,
    );
    joined(turn, next)
}

/// Turns that are planned, each with those over what follows it, as long as such a turn may be made.
#[inline(never)]
fn burst_on<M: Machine, K: Sink>(
    machine: &M,
    outlet: &mut Outlet<'_, K>,
    text: &[u8],
    held: usize,
    place: TextPlace,
    wanted: Wanted,
) -> TextBurst
    requires live { can_write outlet.old ≡ true }
    requires condition { place.condition < (M.machine machine.now).conditions }
    requires held { held ≤ length text.now }
    requires inside { place.at ≤ held }

    ensures { BurstMade (M.machine machine.now) outlet.old outlet.new text.now held place.at place result.burst
        result.kept }
{
    let mut went = stopped(held, place, false);
    'turns: while went.burst.done + went.kept < text.len() {
        let done = went.burst.done;
        let left = &text[done..];
        let turn = turn_and_burst(
            machine,
            outlet,
            left,
            went.burst.asked - done,
            place_after(went),
            wanted,
        );
        let all = joined(went, turn);
        if turn.burst.fault || turn.burst.done + turn.kept <= went.kept {
            return all;
        }
        went = all;
    }
    went
}

/// Turns over a text, of which the first bytes are held: those that are told at a glance, and those that are planned.
#[inline(always)]
pub fn burst_from<M: Machine, K: Sink>(
    machine: &M,
    outlet: &mut Outlet<'_, K>,
    text: &[u8],
    held: usize,
    place: TextPlace,
    wanted: Wanted,
) -> TextBurst
    requires live { can_write outlet.old ≡ true }
    requires condition { place.condition < (M.machine machine.now).conditions }
    requires held { held ≤ length text.now }
    requires inside { place.at ≤ held }

    ensures { BurstMade (M.machine machine.now) outlet.old outlet.new text.now held place.at place result.burst
        result.kept }
{
    let went = burst_once(machine, outlet, text, held, place, wanted);
    let done = went.burst.done;
    // Near turns stop where one goes over many bytes.
    if went.burst.fault || text.len() <= done + went.kept || matches!(wanted, Wanted::Near) {
        return went;
    }
    let left = &text[done..];
    let next = burst_on(
        machine,
        outlet,
        left,
        went.burst.asked - done,
        place_after(went),
        wanted,
    );
    joined(went, next)
}
