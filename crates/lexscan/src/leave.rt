//! The end of a turn: the scan leaves the place of its match for that of the next one.
ghost use Rattle.std.specs.Prelude.{◌≡◌, ◌≤◌, length, true, Some};
ghost use Rattle.lexscan_window.specs.Intakes.{can_write};
ghost use Rattle.lexscan.specs.Steps.{TurnFinished};

use crate::turn::Turn;
use lex_io::Sink;
use lexscan_window::{Finish, Outlet, RunError, State, flush};

/// The end of a turn after the actions of its match, which ended the scan, were at fault, or neither.
#[inline(always)]
pub fn leave_match<K: Sink>(
    outlet: &mut Outlet<'_, K>,
    state: &mut State,
    finish: Option<Finish>,
) -> Result<Turn, RunError>
    requires live { can_write outlet.old ≡ true }
    requires inside { state.old.acting.end ≤ length state.old.reading.window.bytes }

    ensures { TurnFinished outlet.old outlet.new state.old state.new finish result }
{
    match finish {
        Some(finish) => finish_turn(outlet, state, finish),
        None => {
            state.leave_text(false);
            Ok(Turn::Went)
        }
    }
}

/// Flushes the sink after an action that ends the scan, and goes to the place after it; or tells the fault of the
/// stack.
fn finish_turn<K: Sink>(
    outlet: &mut Outlet<'_, K>,
    state: &mut State,
    finish: Finish,
) -> Result<Turn, RunError>
    requires live { can_write outlet.old ≡ true }
    requires inside { state.old.acting.end ≤ length state.old.reading.window.bytes }

    ensures { TurnFinished outlet.old outlet.new state.old state.new (Some finish) result }
{
    // The end is told only after all that was written has been handed on.
    match flush(outlet) {
        Err(e) => Err(e),
        Ok(()) => match finish {
            Finish::StackFault => Err(RunError::Stack),
            Finish::Status(status) => {
                state.leave_text(true);
                state.ended = Some(status);
                Ok(Turn::Ended(status))
            }
        },
    }
}
