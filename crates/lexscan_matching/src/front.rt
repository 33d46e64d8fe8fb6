//! The longest match at the front of a text, for callers that walk a machine themselves.
ghost use Rattle.std.specs.Prelude.{◌≡◌, ℕ, ◌<◌, length, get_or};
ghost use Rattle.lex_semantics.specs.Machine.{rules_of_machine};
ghost use Rattle.lexscan_matching.specs.Fronts.{IsLongest};

use crate::pick::first_candidate;
use lex_machine::Machine;
use lexscan_window::{Candidate, MatchedRule};

/// The rules that a state accepts, ascending. The machine has each of them, so it may be asked what it does.
pub fn accepted<M: Machine>(machine: &M, state: u32) -> &[u32]
    requires { state < M.states machine.now }
    ensures rules { result.now ≡ (M.machine machine.now).accepts state }
    ensures known { (i : ℕ) → i < length result.now → get_or result.now i 0 < (M.machine machine.now).count }
{
    machine.accepts(state)
}

/// The longest match at the front of a text, and of those the one of the earliest rule: the first of those that a
/// turn tries there. Where no rule matches, the default rule takes one byte. There is none where the text is empty.
/// It goes over no more bytes than the match asks for.
pub fn longest<M: Machine>(
    machine: &M,
    condition: u8,
    line_start: bool,
    text: &[u8],
) -> Option<Candidate>
    requires { condition < (M.machine machine.now).conditions }
    ensures { IsLongest (rules_of_machine (M.machine machine.now)) condition line_start text.now result }
{
    if text.is_empty() {
        return None;
    }
    let mut best = Candidate {
        rule: MatchedRule::Default,
        length: 1,
        text: 1,
    };
    let mut state = machine.start(condition, line_start);
    let mut length = 0usize;
    'bytes: while length < text.len() {
        state = machine.step(state, text[length]);
        length += 1;
        // A longer match takes the place of a shorter one.
        match first_candidate(machine, machine.accepts(state), length) {
            Some(pick) => {
                best = Candidate {
                    rule: MatchedRule::Numbered(pick.rule),
                    length,
                    text: pick.keep,
                }
            }
            None => {}
        }
        if !machine.goes_on(state) {
            return Some(best);
        }
    }
    Some(best)
}
