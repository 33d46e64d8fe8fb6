//! From which start a text leads to what is wished.
ghost use Rattle.std.specs.Prelude.{◌≡◌, ◌<◌, ℕ, true, false, length};
ghost use Rattle.lex_semantics.specs.Text.{Among, flag};
ghost use Rattle.lexauto_dfa.specs.Automata.{accepts_of, conditions_of, lists_of, start_of, states_of};
ghost use Rattle.lexauto_dfa.specs.Parts.{after};
ghost use Rattle.lexlook_specs.specs.Placing.{IsFirstStart, Meets, MeetsAfter};

use crate::words::taking::{has, is_given_up, taken};
use lexauto_dfa::Dfa;

/// Where a match starts.
#[derive(Clone, Copy)]
pub(crate) struct Start {
    pub condition: u8,
    pub line_start: bool,
}

/// What is wished of a text.
#[derive(Clone, Copy)]
pub(crate) enum Wish {
    /// That this rule takes it.
    Takes(u32),
    /// That each rule that fits it gives it up.
    Copies,
    /// That the first of these rules takes it, and the second fits it too.
    Shares(u32, u32),
}

/// Whether these rules, which a text fits, do what is wished.
fn meets(rejects: &[bool], rules: &[u32], wish: Wish) -> bool
    requires { (i : ℕ) → Among rules.now i → i < length rejects.now }
    ensures yes { result ≡ true → Meets rejects.now rules.now wish }
    ensures no { result ≡ false → Meets rejects.now rules.now wish → ⊥ }
{
    match wish {
        Wish::Takes(rule) => has(taken(rejects, rules), rule),
        Wish::Copies => is_given_up(rejects, rules),
        Wish::Shares(first, second) => has(taken(rejects, rules), first) && has(rules, second),
    }
}

/// The state after a text.
fn state_after(dfa: &Dfa, start: Start, text: &[u8]) -> u32
    requires { start.condition < conditions_of dfa.now }
    ensures state { result ≡ after (lists_of dfa.now) (start_of dfa.now start.condition start.line_start) text.now }
    ensures known { result < states_of dfa.now }
{
    let mut state = dfa.start(start.condition as usize, start.line_start);
    for byte in text {
        state = dfa.next(state, *byte);
    }
    state
}

/// Whether a text does what is wished, from this start on.
pub(crate) fn meets_after(
    dfa: &Dfa,
    rejects: &[bool],
    text: &[u8],
    wish: Wish,
    start: Start,
) -> bool
    requires condition { start.condition < conditions_of dfa.now }
    requires rules { (s i : ℕ) → s < states_of dfa.now → Among (accepts_of dfa.now s) i → i < length rejects.now }
    ensures yes { result ≡ true
        → MeetsAfter (lists_of dfa.now) rejects.now text.now wish start.condition start.line_start }
    ensures no { result ≡ false
        → MeetsAfter (lists_of dfa.now) rejects.now text.now wish start.condition start.line_start → ⊥ }
{
    let state = state_after(dfa, start, text);
    meets(rejects, dfa.accepts(state), wish)
}

/// The first start from which a text does what is wished: of the first condition, and there not at the start of a line
/// rather than at it.
pub(crate) fn first_start(
    dfa: &Dfa,
    rejects: &[bool],
    text: &[u8],
    wish: Wish,
    conditions: u8,
) -> Option<Start>
    requires conditions { conditions ≡ conditions_of dfa.now }
    requires rules { (s i : ℕ) → s < states_of dfa.now → Among (accepts_of dfa.now s) i → i < length rejects.now }
    ensures { IsFirstStart (lists_of dfa.now) rejects.now text.now wish conditions result }
{
    for condition in 0..conditions {
        let within = Start {
            condition,
            line_start: false,
        };
        if meets_after(dfa, rejects, text, wish, within) {
            return Some(within);
        }
        let begins = Start {
            condition,
            line_start: true,
        };
        if meets_after(dfa, rejects, text, wish, begins) {
            return Some(begins);
        }
    }
    None
}
