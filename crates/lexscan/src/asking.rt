//! A match that asks for more than all the bytes that are there: the state after them, so that more of them need one
//! walk.
ghost use Rattle.std.specs.Prelude.{◌≡◌, ℕ, ◌+◌, ◌<◌, ◌≤◌, length, take, true, Some, IfSome};
ghost use Rattle.lex_semantics.specs.Machine.{walk};
ghost use Rattle.lexscan.specs.Pushes.{WalkStaysLive, WalksOn, IsAsking};

use lex_machine::Machine;
use lexscan_window::State;

/// Walks over bytes, and answers the state after them, where the machine goes on after each.
fn walk_over<M: Machine>(machine: &M, first: u32, bytes: &[u8]) -> Option<u32>
    requires known { first < M.states machine.now }
    ensures known { IfSome result (λ last. last < M.states machine.now) }
    ensures walked { IfSome result (WalkStaysLive (M.machine machine.now) first bytes.now) }
{
    let mut state = first;
    for byte in bytes {
        state = machine.step(state, *byte);
        if !machine.goes_on(state) {
            return None;
        }
    }
    Some(state)
}

/// The state after a piece more, where the match asks for more than that.
pub fn walk_on<M: Machine>(machine: &M, asking: Option<u32>, piece: &[u8]) -> Option<u32>
    requires { IfSome asking (λ first. first < M.states machine.now) }
    ensures known { IfSome result (λ last. last < M.states machine.now) }
    ensures walked { IfSome result (WalksOn (M.machine machine.now) asking piece.now) }
{
    match asking {
        None => None,
        Some(first) => walk_over(machine, first, piece),
    }
}

/// The state after all the bytes that are held and those that wait, where the next match asks for more than these.
pub fn walk_all<M: Machine>(machine: &M, state: &State, waiting: &[u8]) -> Option<u32>
    requires condition { state.now.place.condition < (M.machine machine.now).conditions }
    requires inside { state.now.place.at ≤ length state.now.reading.window.bytes }
    ensures { IsAsking (M.machine machine.now) (M.states machine.now) state.now waiting.now result }
{
    let place = state.place;
    let window = &state.reading.window;
    let first = machine.start(place.condition, place.line_start);
    match walk_over(machine, first, window.slice(place.at, window.len())) {
        None => None,
        Some(held) => walk_over(machine, held, waiting),
    }
}
