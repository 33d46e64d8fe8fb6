//! A walk of a machine over bytes that are ready.
ghost use Rattle.std.specs.Prelude.{◌≡◌, ℕ, ◌+◌, ◌-◌, ◌^◌, ◌<◌, ◌≤◌, List, [], ◌++◌, length, take, true, false};
ghost use Rattle.lexscan_window.specs.Walks.{Filled};

use lex_machine::Machine;

/// Why a walk stopped.
#[derive(Clone, Copy)]
pub enum Stop {
    /// The machine asks for no more.
    Done,
    /// The bytes that were ready are used up, or there is no room for more of them, or no more may be read.
    Full,
    /// The source answered its end.
    End,
}

/// A walk over bytes: how many it took, the state after them, and the one before the last of them.
#[derive(Clone, Copy)]
pub struct Walk {
    pub count: usize,
    pub state: u32,
    pub before: u32,
    pub stop: Stop,
}

impl Walk {
    /// A walk of these parts.
    #[inline]
    pub fn new(count: usize, state: u32, before: u32, stop: Stop) -> Walk
        ensures { result ≡ record { count = count; state = state; before = before; stop = stop } }
    {
        Walk {
            count,
            state,
            before,
            stop,
        }
    }
}

/// Takes bytes to a place of no more bytes, as long as there is room for them and the machine asks for one more.
/// Where the machine finds the last of them at a glance, it takes them at once.
#[inline(always)]
pub fn walk_into<M: Machine>(place: &mut [u8], machine: &M, ready: &[u8], first: u32) -> Walk
    requires known { first < M.states machine.now }
    requires room { length place.old ≤ length ready.now }
    ensures filled { Filled (M.machine machine.now) ready.now [] (take result.count place.new) first
        (length place.old) result }
    ensures known { result.state < M.states machine.now }
    ensures known_before { result.before < M.states machine.now }
    ensures some { 1 ≤ length place.old → 1 ≤ result.count }
{
    if let Some(way) = machine.way(first, &ready[..place.len()]) {
        place[..way.count].copy_from_slice(&ready[..way.count]);
        return Walk::new(way.count, way.state, way.before, Stop::Done);
    }
    let mut count = 0usize;
    let mut state = first;
    let mut before = first;
    'bytes: while count < place.len() {
        let byte = ready[count];
        place[count] = byte;
        count += 1;
        // Most longest matches end at the last byte or at the one before it, so two states are kept.
        before = state;
        state = machine.step(state, byte);
        if !machine.goes_on(state) {
            return Walk::new(count, state, before, Stop::Done);
        }
    }
    Walk::new(count, state, before, Stop::Full)
}
