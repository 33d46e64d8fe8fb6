//! One match, which takes bytes from the source as it asks for them, with the state after each.
ghost use Rattle.std.specs.Prelude.{◌≡◌, ◌<◌, ◌≤◌, length, true, false};
ghost use Rattle.lexscan_window.specs.Intakes.{can_read, can_write};
ghost use Rattle.lexscan_matching.specs.Calls.{LookedAlong};

use lex_io::{Sink, Source};
use lex_machine::Machine;
use lexscan_window::{Intake, Outlet, Reading, RunError, StatePath, TextPlace, fetch};

/// Takes the bytes that a match asks for, and keeps the states after them. Answers false where there is none.
pub fn look_ahead<M: Machine, S: Source, K: Sink>(
    machine: &M,
    intake: &mut Intake<'_, S>,
    outlet: &mut Outlet<'_, K>,
    reading: &mut Reading,
    path: &mut StatePath,
    place: TextPlace,
) -> Result<bool, RunError>
    requires live { reading.old.at_end ≡ false → can_read intake.old ≡ true }
    requires sink { can_write outlet.old ≡ true }
    requires inside { place.at ≤ length reading.old.window.bytes }
    requires condition { place.condition < (M.machine machine.now).conditions }

    ensures { LookedAlong (M.machine machine.now) (M.states machine.now) intake.old intake.new outlet.old outlet.new
        place reading.old reading.new path.new.states result }
{
    path.clear();
    let mut state = machine.start(place.condition, place.line_start);
    let mut next = place.at;
    let mut len = 0usize;
    'bytes: loop {
        // Each match asks for a first byte, and for another where the machine goes on.
        if 0 < len && !machine.goes_on(state) {
            return Ok(true);
        }
        if !fetch(intake, outlet, reading, path, next)? {
            return Ok(0 < len);
        }
        state = machine.step(state, reading.window.byte(next));
        path.push(state);
        next += 1;
        len += 1;
    }
}
