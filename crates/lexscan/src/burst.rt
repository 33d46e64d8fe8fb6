//! A burst: turns over a text alone, by its bytes and the machine. It knows of no window and no source.
ghost use Rattle.std.specs.Prelude.{◌≡◌, ◌-◌, ◌<◌, ◌≤◌, length, true, IfSome};
ghost use Rattle.lex_machine.specs.Glances.{Leads};
ghost use Rattle.lexscan_window.specs.Intakes.{can_write};
ghost use Rattle.lexscan.specs.Bursts.{starts_line, BurstMade};
ghost use Rattle.lexscan_matching.specs.Glanced.{names_rule};

use crate::singles::{pass_copied, pass_dropped, singles_after};
use crate::starts::{start_at, starts_after, starts_in};
use lex_io::Sink;
use lex_machine::{Gist, Machine, Way};
use lexscan_matching::{do_gist, longest_match, names_rule, near_match, silent_part};
use lexscan_window::{Outlet, TextPlace};

/// Where some turns over a text led: how many bytes they are done with, how many they asked for, the start of a line
/// and the condition there, whether the sink failed in the next turn, and whether bytes were passed in runs.
#[derive(Clone, Copy)]
pub struct Burst {
    pub done: usize,
    pub asked: usize,
    pub line_start: bool,
    pub condition: u8,
    pub fault: bool,
    pub runs: Runs,
}

/// Whether the bytes of some turns were passed in runs of one-byte matches.
#[derive(Clone, Copy)]
pub enum Runs {
    /// No run was looked for.
    NotLookedFor,
    /// Less than an eighth of the bytes were.
    Few,
    /// A run pays for its look.
    Many,
}

/// Which turns a burst is asked for.
#[derive(Clone, Copy)]
pub enum Wanted {
    /// All, turn by turn.
    Turns,
    /// All, where a run of one-byte matches is passed at once.
    Runs,
    /// Those that go over few bytes, with such runs.
    Near,
}

/// How many bytes a match goes over at most, where those alone are asked for that go over few.
const MOST_NEAR: usize = 32;

/// Whether a line starts after so many bytes of a text, where one starts at its front or not.
pub fn starts_line(line_start: bool, text: &[u8], count: usize) -> bool
    requires { count ≤ length text.now }
    ensures { result ≡ starts_line line_start text.now count }
{
    if count == 0 {
        line_start
    } else {
        text[count - 1] == b'\n'
    }
}

/// What is told of the runs in which so many of the bytes were passed, where runs are looked for.
#[inline(always)]
fn runs_of(passing: bool, done: usize, passed: usize) -> Runs {
    if !passing {
        Runs::NotLookedFor
    } else if 0 < passed && done / 8 <= passed {
        Runs::Many
    } else {
        Runs::Few
    }
}

/// The walk of a match, where it goes over so many bytes at most.
#[inline(always)]
fn way_within<'m, M: Machine>(
    machine: &'m M,
    first: u32,
    bytes: &[u8],
    most: usize,
) -> Option<Way<'m>>
    requires first { first < M.states machine.now }
    ensures way { IfSome result (Leads (M.machine machine.now) first bytes.now) }
    ensures known { IfSome result (λ way. way.state < M.states machine.now) }
    ensures known_before { IfSome result (λ way. way.before < M.states machine.now) }
{
    machine.way(first, &bytes[..bytes.len().min(most)])
}

/// Turns over a text, of which the first bytes are held and the others are those that the source has ready, as long
/// as each match goes over so many bytes of the text at most, and its rule is told at a glance. A run of one-byte matches
/// may be passed at once.
#[inline(always)]
fn burst_by<M: Machine, K: Sink>(
    machine: &M,
    outlet: &mut Outlet<'_, K>,
    text: &[u8],
    held: usize,
    place: TextPlace,
    passing: bool,
    most: usize,
) -> Burst
    requires live { can_write outlet.old ≡ true }
    requires condition { place.condition < (M.machine machine.now).conditions }
    requires held { held ≤ length text.now }

    ensures { BurstMade (M.machine machine.now) outlet.old outlet.new text.now held 0 place result 0 }
{
    let mut rest = text;
    // How many bytes at the end of the text no match has asked for, if no fewer are left.
    let mut unasked = text.len() - held;
    let mut condition = place.condition;
    let mut singles = passing && machine.has_singles(condition);
    let mut passed = 0usize;
    let mut fault = false;
    let mut starts = starts_in(machine, condition);
    let mut first = start_at(starts, place.line_start);
    'turns: while !rest.is_empty() {
        let Some(way) = way_within(machine, first, rest, most) else {
            break 'turns;
        };
        let near = near_match(machine, way);
        if let Some(keep) = silent_part(near) {
            unasked = unasked.min(rest.len() - way.count);
            first = start_at(starts, rest[keep - 1] == b'\n');
            let left = &rest[keep..];
            rest = pass_dropped(machine, singles, condition, first, left);
            passed = passed.wrapping_add(left.len() - rest.len());
            continue 'turns;
        }
        let longest = longest_match(machine, first, rest, way, near);
        if !names_rule(longest.gist) {
            break 'turns;
        }
        let said = &rest[..longest.keep];
        let done = do_gist(outlet, longest.gist, said, condition);
        unasked = unasked.min(rest.len() - way.count);
        let Ok(after) = done else {
            fault = true;
            break 'turns;
        };
        singles = singles_after(machine, passing, singles, condition, after);
        starts = starts_after(machine, starts, condition, after);
        condition = after;
        first = start_at(starts, said[longest.keep - 1] == b'\n');
        let tried = singles && matches!(longest.gist, Gist::Echo);
        let left = &rest[longest.keep..];
        rest = pass_copied(machine, outlet, tried, condition, first, left);
        passed = passed.wrapping_add(left.len() - rest.len());
    }
    let done = text.len() - rest.len();
    Burst {
        done,
        asked: text.len() - unasked.min(rest.len()),
        line_start: starts_line(place.line_start, text, done),
        condition,
        fault,
        runs: runs_of(passing, done, passed),
    }
}

/// The same turn by turn. It stands by itself, so that its loop is small.
#[inline(never)]
fn plain_burst<M: Machine, K: Sink>(
    machine: &M,
    outlet: &mut Outlet<'_, K>,
    text: &[u8],
    held: usize,
    place: TextPlace,
) -> Burst
    requires live { can_write outlet.old ≡ true }
    requires condition { place.condition < (M.machine machine.now).conditions }
    requires held { held ≤ length text.now }

    ensures { BurstMade (M.machine machine.now) outlet.old outlet.new text.now held 0 place result 0 }
{
    burst_by(machine, outlet, text, held, place, false, usize::MAX)
}

/// The same with runs that are passed at once.
#[inline(never)]
fn passing_burst<M: Machine, K: Sink>(
    machine: &M,
    outlet: &mut Outlet<'_, K>,
    text: &[u8],
    held: usize,
    place: TextPlace,
) -> Burst
    requires live { can_write outlet.old ≡ true }
    requires condition { place.condition < (M.machine machine.now).conditions }
    requires held { held ≤ length text.now }

    ensures { BurstMade (M.machine machine.now) outlet.old outlet.new text.now held 0 place result 0 }
{
    burst_by(machine, outlet, text, held, place, true, usize::MAX)
}

/// The same with matches alone that go over few bytes, so that none takes long.
#[inline(never)]
fn near_burst<M: Machine, K: Sink>(
    machine: &M,
    outlet: &mut Outlet<'_, K>,
    text: &[u8],
    held: usize,
    place: TextPlace,
) -> Burst
    requires live { can_write outlet.old ≡ true }
    requires condition { place.condition < (M.machine machine.now).conditions }
    requires held { held ≤ length text.now }

    ensures { BurstMade (M.machine machine.now) outlet.old outlet.new text.now held 0 place result 0 }
{
    burst_by(machine, outlet, text, held, place, true, MOST_NEAR)
}

/// The same, as it is asked for. Runs are passed where they are looked for, and most bytes are one-byte matches in the
/// first condition.
#[inline(always)]
pub fn burst_over<M: Machine, K: Sink>(
    machine: &M,
    outlet: &mut Outlet<'_, K>,
    text: &[u8],
    held: usize,
    place: TextPlace,
    wanted: Wanted,
) -> Burst
    requires live { can_write outlet.old ≡ true }
    requires condition { place.condition < (M.machine machine.now).conditions }
    requires held { held ≤ length text.now }

    ensures { BurstMade (M.machine machine.now) outlet.old outlet.new text.now held 0 place result 0 }
{
    if matches!(wanted, Wanted::Near) {
        return near_burst(machine, outlet, text, held, place);
    }
    if !matches!(wanted, Wanted::Runs) || !machine.has_singles(place.condition) {
        return plain_burst(machine, outlet, text, held, place);
    }
    passing_burst(machine, outlet, text, held, place)
}
