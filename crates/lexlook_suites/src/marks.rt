//! Marks for the states and the edges that matches go through.
ghost use Rattle.std.specs.Prelude.{◌≡◌, ◌≢◌, ◌+◌, ◌<◌, ◌*◌, ℕ, true, length, drop, IfOk};
ghost use Rattle.lex_semantics.specs.Text.{Among};
ghost use Rattle.lexauto_dfa.specs.Automata.{lists_of, next_of, states_of};
ghost use Rattle.lexlook_suites.specs.Passed.{ArePassed, IsPassed};
ghost use Rattle.lexlook_suites.specs.Walks.{ComesTo, GoesBy};
ghost use Rattle.lexlook_suites.specs.Marking.{Adds, AreNone, IsSized};

use lexauto_dfa::Dfa;
use lexscan_window::{Mark, Memo};
use std::alloc::{AllocError, Global};

/// The states that matches come to, and the bytes by which they go on from each.
#[derive(Drop)]
pub(crate) struct Marks {
    /// For each state whether a match comes to it.
    pub(crate) states: Vec<bool>,
    /// For each state and each byte, 256 to a state, whether a match goes on from there by it.
    pub(crate) bytes: Vec<bool>,
}

impl Marks {
    /// No marks, for the states of an automaton.
    pub(crate) fn none(alloc: Global, dfa: &Dfa) -> Result<Marks, AllocError>
        ensures { IfOk result (AreNone (states_of dfa.now)) }
    {
        let count = dfa.len() as usize;
        Ok(Marks {
            states: vec![in alloc; false; count]?,
            bytes: vec![in alloc; false; 256 * count]?,
        })
    }

    /// Marks a state, unless it is the dead one.
    fn come_to(&mut self, dfa: &Dfa, state: u32)
        requires size { IsSized (states_of dfa.now) self.old }
        requires known { state < states_of dfa.now }
        ensures { Adds (states_of dfa.now) self.old self.new (λ q. (q ≡ state) × (q ≢ 0)) (λ q b. ⊥) }
    {
        if state != 0 {
            self.states[state as usize] = true;
        }
    }

    /// Marks a byte by which a match goes on to this state, unless that is the dead one.
    fn go_by(&mut self, dfa: &Dfa, state: u32, byte: u8, next: u32)
        requires size { IsSized (states_of dfa.now) self.old }
        requires known { state < states_of dfa.now }
        ensures { Adds (states_of dfa.now) self.old self.new (λ q. ⊥) (λ q b. (q ≡ state) × (b ≡ byte) × (next ≢ 0)) }
    {
        if next != 0 {
            self.bytes[256 * state as usize + usize::from(byte)] = true;
        }
    }

    /// Marks what a match goes through that looks at the input from this place on, from this state on, up to where it is known that
    /// the others are marked. Answers how many bytes that were.
    pub(crate) fn walk(
        &mut self,
        dfa: &Dfa,
        memo: &Memo,
        start: u32,
        input: &[u8],
        at: usize,
    ) -> usize
        requires size { IsSized (states_of dfa.now) self.old }
        requires known { start < states_of dfa.now }
        requires passed { ArePassed (lists_of dfa.now) self.old input.now memo.now }
        ensures { Adds (states_of dfa.now) self.old self.new (ComesTo (lists_of dfa.now) start (drop at input.now))
            (GoesBy (lists_of dfa.now) start (drop at input.now)) }
    {
        let stride = memo.stride();
        // What is known is kept at multiples of the stride: the walk comes to the next one so soon.
        let mut due = memo.ahead(at as u64);
        let text = rest_of(input, at);
        let mut state = start;
        let mut count = 0usize;
        'bytes: while count < text.len() {
            if state == 0 {
                return count;
            }
            let byte = text[count];
            let next = dfa.next(state, byte);
            self.come_to(dfa, state);
            self.go_by(dfa, state, byte, next);
            state = next;
            count += 1;
            if due <= count {
                due = due.saturating_add(stride);
                if is_passed(memo, at, count, state) {
                    return count;
                }
            }
        }
        self.come_to(dfa, state);
        count
    }
}

/// Whether it is known of the state, so many bytes behind a place.
fn is_passed(memo: &Memo, at: usize, count: usize, state: u32) -> bool
    ensures { result ≡ true → (m : Mark) × Among memo.now m × (m.place ≡ at + count) × (m.state ≡ state) }
{
    match at.checked_add(count) {
        Some(place) => memo.find(place as u64, state).is_some(),
        None => false,
    }
}

/// Keeps that all is marked which the walk goes through, for places among the first bytes.
pub(crate) fn note(dfa: &Dfa, memo: &mut Memo, start: u32, input: &[u8], at: usize, count: usize)
    requires known { start < states_of dfa.now }
    ensures { (m : Marks) → IsPassed (lists_of dfa.now) m start (drop at input.now)
        → ArePassed (lists_of dfa.now) m input.now memo.old → ArePassed (lists_of dfa.now) m input.now memo.new }
{
    let stride = memo.stride();
    let mut due = memo.ahead(at as u64);
    let text = rest_of(input, at);
    let mut state = start;
    let mut walked = 0usize;
    'bytes: while walked < count.min(text.len()) {
        state = dfa.next(state, text[walked]);
        walked += 1;
        if due <= walked {
            due = due.saturating_add(stride);
            if let Some(place) = at.checked_add(walked) {
                memo.put_silent(place as u64, state);
            }
        }
    }
}

/// What stands from a place on.
fn rest_of(input: &[u8], at: usize) -> &[u8]
    ensures { result.now ≡ drop at input.now }
{
    if at > input.len() {
        return &[];
    }
    &input[at..]
}
