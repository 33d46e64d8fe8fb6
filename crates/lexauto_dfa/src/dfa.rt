//! Deterministic automata, and the lists of which they are made.
ghost use Rattle.std.specs.Prelude.{◌≡◌, ◌≢◌, ◌<◌, ◌≤◌, ◌↔◌, ℕ, [], length, IsTrue};
ghost use Rattle.lexauto_dfa.specs.Invariant.{IsAutomaton, IsAutomaton-prop};

use std::rc::Rc;

/// The lists of which an automaton is made. A state is its number, and state 0 is the dead state.
#[derive(Drop)]
pub struct Parts {
    /// For each condition the state where a match starts that is not at the start of a line.
    pub starts: Vec<u32>,
    /// For each condition the state where a match starts at the start of a line.
    pub line_starts: Vec<u32>,
    /// For each state the next states by the bytes from 0 to 255, one row after another.
    pub next: Vec<u32>,
    /// For each state the rules that it accepts, ascending. Equal lists may be kept once.
    pub accepts: Vec<Rc<Vec<u32>>>,
    /// For each state whether some word that is not empty leads from it to a state that accepts.
    pub goes_on: Vec<bool>,
}

/// A deterministic automaton over bytes: the states after each word, from each start. State 0 is the dead state, and
/// some word leads from a start to each other state. There are at most 8,192 states. No reader takes memory.
#[derive(Drop)]
pub struct Dfa {
    pub(crate) parts: Parts,
    ghost lawful: { IsAutomaton parts } by { IsAutomaton-prop parts },
}

impl Dfa {
    ghost use Rattle.lexauto_dfa.specs.Automata.{lists_of};

    /// The automaton of these lists.
    pub fn new(parts: Parts) -> Dfa
        requires { IsAutomaton parts }
        ensures { lists_of result ≡ parts }
    {
        Dfa { parts }
    }
}

impl Dfa {
    ghost use Rattle.lex_semantics.specs.Limits.{max_states};
    ghost use Rattle.lex_semantics.specs.Text.{Ascending};
    ghost use Rattle.lexauto_dfa.specs.Parts.{IsReachedIn, LeadsOn};
    ghost use Rattle.lexauto_dfa.specs.Automata.{lists_of, conditions_of, states_of};
    ghost use Rattle.lexauto_dfa.specs.Automata.{start_of, next_of, accepts_of, goes_on_of};

    /// The lists of which it is made.
    pub fn parts(&self) -> &Parts
        ensures { result.now ≡ lists_of self.now }
    {
        &self.parts
    }

    /// The lists of which it was made.
    pub fn into_parts(self) -> Parts
        ensures { result ≡ lists_of self }
    {
        self.parts
    }

    /// The state where a match starts in a condition, at the start of a line or not.
    pub fn start(&self, condition: usize, line_start: bool) -> u32
        requires { condition < conditions_of self.now }
        ensures state { result ≡ start_of self.now condition line_start }
        ensures known { result < states_of self.now }
    {
        if line_start {
            self.parts.line_starts[condition]
        } else {
            self.parts.starts[condition]
        }
    }

    /// The state after one byte more. From the dead state that is the dead state.
    pub fn next(&self, state: u32, byte: u8) -> u32
        requires { state < states_of self.now }
        ensures state { result ≡ next_of self.now state byte }
        ensures known { result < states_of self.now }
        ensures dead { state ≡ 0 → result ≡ 0 }
    {
        self.parts.next[state as usize * 256 + usize::from(byte)]
    }

    /// The rules that the state accepts, ascending; where no rule of the specification has REJECT, the first alone. The
    /// dead state accepts none.
    pub fn accepts(&self, state: u32) -> &[u32]
        requires { state < states_of self.now }
        ensures rules { result.now ≡ accepts_of self.now state }
        ensures ascending { Ascending result.now }
        ensures dead { state ≡ 0 → result.now ≡ [] }
    {
        &self.parts.accepts[state as usize]
    }

    /// Whether some word that is not empty leads from the state to one that accepts.
    pub fn goes_on(&self, state: u32) -> bool
        requires { state < states_of self.now }
        ensures flag { result ≡ goes_on_of self.now state }
        ensures leads { IsTrue result ↔ ∥ LeadsOn (lists_of self.now) state ∥₁ }
    {
        self.parts.goes_on[state as usize]
    }

    /// How many states there are, the dead one among them. Some word leads from a start to each other one.
    pub fn len(&self) -> u32
        ensures states { result ≡ states_of self.now }
        ensures some { 1 ≤ result }
        ensures few { result ≤ max_states }
        ensures reached { (s : ℕ) → s < result → s ≢ 0 → ∥ IsReachedIn (lists_of self.now) s ∥₁ }
    {
        self.parts.goes_on.len() as u32
    }
}
