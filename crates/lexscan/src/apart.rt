//! A turn over bytes in memory whose rule is not told at a glance: it has a cut, does yymore beside other statements, or
//! rejects its match.
ghost use Rattle.std.specs.Prelude.{◌≡◌, ◌<◌, ◌≤◌, length, true};
ghost use Rattle.lexscan_window.specs.Intakes.{can_write};
ghost use Rattle.lexscan.specs.Bursts.{BurstMade};

use crate::texts::{TextBurst, ended, stopped};
use lex_io::Sink;
use lex_machine::Machine;
use lexscan_matching::{begun_match, do_plan, plan_of};
use lexscan_window::{Outlet, TextPlace};

/// One turn over a text, where the walk of its match ends there, and the machine tells that it sets a start condition
/// and does yymore, or it is planned what it does. Otherwise none.
#[inline(always)]
pub fn turn_apart<M: Machine, K: Sink>(
    machine: &M,
    outlet: &mut Outlet<'_, K>,
    text: &[u8],
    held: usize,
    place: TextPlace,
) -> TextBurst
    requires live { can_write outlet.old ≡ true }
    requires condition { place.condition < (M.machine machine.now).conditions }
    requires held { held ≤ length text.now }
    requires inside { place.at ≤ held }

    ensures { BurstMade (M.machine machine.now) outlet.old outlet.new text.now held place.at place result.burst
        result.kept }
{
    let at = place.at;
    let first = machine.start(place.condition, place.line_start);
    let Some(way) = machine.way(first, &text[at..]) else {
        return stopped(held, place, false);
    };
    let asked = held.max(at + way.count);
    if let Some(begun) = begun_match(machine, way) {
        let end = at + begun.keep;
        let next = TextPlace {
            at: end,
            line_start: text[end - 1] == b'\n',
            condition: begun.condition,
        };
        return stopped(asked, next, false);
    }
    let Some(plan) = plan_of(machine, way) else {
        return stopped(held, place, false);
    };
    let end = at + plan.keep;
    let Ok(after) = do_plan(outlet, plan, text, at, place.condition) else {
        return stopped(asked, place, true);
    };
    let next = TextPlace {
        at: end,
        line_start: text[end - 1] == b'\n',
        condition: after,
    };
    if plan.more {
        return stopped(asked, next, false);
    }
    ended(asked, next)
}
