//! The states of a match.
ghost use Rattle.std.specs.Prelude.{◌≡◌, ℕ, ◌+◌, ◌-◌, ◌<◌, ◌≤◌, List, [], ◌∷◌, ◌++◌, length, true, OnOk, OnErr};
ghost use Rattle.std.specs.Prelude.{vec_len, vec_capacity, nat_lt, get_or, ◌^◌};

use std::alloc::{AllocError, Global};
use std::marker::Model;

/// The states after each byte of a match.
#[derive(Drop)]
pub struct StatePath {
    states: Vec<u32>,
}

impl Model for StatePath {
    ghost use Rattle.std.specs.Prelude.{vec_len, vec_capacity, nat_lt};
    ghost use Rattle.lexscan_window.specs.Window.{StatesKept};

    ghost Value = { StatesKept };

    ghost view = { λ t. record { states = t.states.items; room = nat_lt (vec_len t.states) (vec_capacity t.states) } };
}

impl StatePath {
    /// No states.
    pub fn new(alloc: Global) -> StatePath
        ensures { result.states ≡ [] }
    {
        StatePath {
            states: Vec::new(alloc),
        }
    }

    /// Makes room for one more. The states stay in either case.
    pub fn reserve(&mut self) -> Result<(), AllocError>
        ensures states { self.new.states ≡ self.old.states }
        ensures room { OnOk result (self.new.room ≡ true) }
    {
        self.states.reserve(1)
    }

    /// Appends a state.
    pub fn push(&mut self, state: u32)
        requires { self.old.room ≡ true }
        ensures { self.new.states ≡ self.old.states ++ state ∷ [] }
    {
        let _ = self.states.push(state);
    }

    /// Drops all states, and keeps their room.
    pub fn clear(&mut self)
        ensures { self.new.states ≡ [] }
    {
        self.states.clear();
    }

    /// The state at a place.
    pub fn state(&self, i: usize) -> u32
        requires { i < length self.now.states }
        ensures { result ≡ get_or self.now.states i 0 }
    {
        self.states[i]
    }

    /// How many states there are.
    pub fn len(&self) -> usize
        ensures { result ≡ length self.now.states }
    {
        self.states.len()
    }
}
