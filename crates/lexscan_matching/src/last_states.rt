//! One match, which takes bytes from the source as it asks for them, by its last two states.
ghost use Rattle.std.specs.Prelude.{◌≡◌, ◌<◌, ◌≤◌, length, true, false, ◌⊎◌};
ghost use Rattle.lexscan_window.specs.Intakes.{can_read, can_write};
ghost use Rattle.lexscan_matching.specs.Picks.{AsksPastHeld};
ghost use Rattle.lexscan_matching.specs.Calls.{LookedLast};

use crate::pick::LookAhead;
use lex_io::{Sink, Source};
use lex_machine::Machine;
use lexscan_window::{Intake, Outlet, Reading, RunError, Stop, TextPlace, Walk, fill};

/// Takes the bytes that a match asks for, and keeps the last two states. Answers nothing where there is none.
#[inline(always)]
pub fn look_ahead_last<M: Machine, S: Source, K: Sink>(
    machine: &M,
    intake: &mut Intake<'_, S>,
    outlet: &mut Outlet<'_, K>,
    reading: &mut Reading,
    place: TextPlace,
) -> Result<Option<LookAhead>, RunError>
    requires live { reading.old.at_end ≡ false → can_read intake.old ≡ true }
    requires sink { can_write outlet.old ≡ true }
    requires inside { place.at ≤ length reading.old.window.bytes }
    requires condition { place.condition < (M.machine machine.now).conditions }

    ensures { LookedLast (M.machine machine.now) (M.states machine.now) intake.old intake.new outlet.old outlet.new
        place reading.old reading.new result }
{
    let held = reading.window.len();
    let mut state = machine.start(place.condition, place.line_start);
    let mut before = state;
    let mut reach = 0usize;
    // Earlier matches have asked for these bytes: they take no read.
    'held: while reach < held - place.at {
        before = state;
        state = machine.step(state, reading.window.byte(place.at + reach));
        reach += 1;
        if !machine.goes_on(state) {
            return Ok(Some(LookAhead {
                reach,
                state,
                before,
            }));
        }
    }
    look_ahead_more(
        machine,
        intake,
        outlet,
        reading,
        place,
        LookAhead {
            reach,
            state,
            before,
        },
    )
}

/// The state before the last byte, where this one was before a walk that may have taken none.
#[inline]
fn before_last(before: u32, walk: Walk) -> u32
    ensures some { 1 ≤ walk.count → result ≡ walk.before }
    ensures none { walk.count ≡ 0 → result ≡ before }
    ensures one { (result ≡ walk.before) ⊎ (result ≡ before) }
{
    if walk.count == 0 { before } else { walk.before }
}

/// Goes on with a match that has asked for all the bytes held, and asks for one more: takes bytes of the source, and
/// keeps the last two states. Answers nothing where there is no byte.
#[inline(always)]
pub fn look_ahead_more<M: Machine, S: Source, K: Sink>(
    machine: &M,
    intake: &mut Intake<'_, S>,
    outlet: &mut Outlet<'_, K>,
    reading: &mut Reading,
    place: TextPlace,
    ahead: LookAhead,
) -> Result<Option<LookAhead>, RunError>
    requires live { reading.old.at_end ≡ false → can_read intake.old ≡ true }
    requires sink { can_write outlet.old ≡ true }
    requires asks { AsksPastHeld (M.machine machine.now) (M.states machine.now) place reading.old ahead }

    ensures { LookedLast (M.machine machine.now) (M.states machine.now) intake.old intake.new outlet.old outlet.new
        place reading.old reading.new result }
{
    let mut now = ahead;
    'fills: while !reading.at_end {
        let walk = fill(machine, intake, outlet, reading, now.state)?;
        now = LookAhead {
            reach: reading.window.len() - place.at,
            state: walk.state,
            before: before_last(now.before, walk),
        };
        match walk.stop {
            // Such a walk took a byte, so it knows the state before its last one.
            Stop::Done => {
                return Ok(Some(LookAhead {
                    before: walk.before,
                    ..now
                }));
            }
            Stop::End => {}
            // The machine asks for one more still.
            Stop::Full => {}
        }
    }
    if now.reach == 0 {
        Ok(None)
    } else {
        Ok(Some(now))
    }
}
