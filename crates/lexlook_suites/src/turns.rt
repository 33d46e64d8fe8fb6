//! The marks of all turns of a scan.
ghost use Rattle.std.specs.Prelude.{◌≡◌, ◌<◌, drop, IfOk};
ghost use Rattle.lex_semantics.specs.Text.{at_line_start};
ghost use Rattle.lexauto_dfa.specs.Automata.{lists_of, start_of, states_of};
ghost use Rattle.lexlook_suites.specs.Marking.{Adds, IsSized};
ghost use Rattle.lexlook_suites.specs.Passed.{ArePassed};
ghost use Rattle.lexlook_suites.specs.Turns.{AreMarks, TurnComesTo, TurnGoesBy};
ghost use Rattle.lexlook_suites.specs.Walks.{ComesTo, GoesBy};

use crate::marks::{Marks, note};
use lexauto_dfa::Dfa;
use lexscan::Token;
use lexscan_window::Memo;
use std::alloc::{AllocError, Global};

/// The state where a match starts in a condition; the dead one where there is no such condition.
#[tactic(auto, using(crate::proofs::Turned::no_start))]
pub(crate) fn start_in(dfa: &Dfa, condition: u8, line_start: bool) -> u32
    ensures state { result ≡ start_of dfa.now condition line_start }
    ensures known { result < states_of dfa.now }
{
    let condition = condition as usize;
    if condition >= dfa.parts().starts.len() {
        return 0;
    }
    dfa.start(condition, line_start)
}

/// Whether a place is at the start of a line.
fn is_line_start(input: &[u8], at: usize) -> bool
    ensures { result ≡ at_line_start input.now at }
{
    if at == 0 {
        return true;
    }
    if at > input.len() {
        return false;
    }
    input[at - 1] == b'\n'
}

/// So many bytes are looked at behind a text before it is kept that all of a walk is marked.
const NEAR: usize = 64;

impl Marks {
    /// Marks what the turn goes through that begins at this place, in this condition, and ends there.
    fn turn(&mut self, dfa: &Dfa, memo: &mut Memo, input: &[u8], at: usize, token: Token)
        requires size { IsSized (states_of dfa.now) self.old }
        requires passed { ArePassed (lists_of dfa.now) self.old input.now memo.old }
        ensures adds { Adds (states_of dfa.now) self.old self.new
            (ComesTo (lists_of dfa.now) (start_of dfa.now token.condition (at_line_start input.now at)) (drop at input.now))
            (GoesBy (lists_of dfa.now) (start_of dfa.now token.condition (at_line_start input.now at)) (drop at input.now)) }
        ensures passed { ArePassed (lists_of dfa.now) self.new input.now memo.new }
    {
        let start = start_in(dfa, token.condition, is_line_start(input, at));
        let count = self.walk(dfa, memo, start, input, at);
        if token.end.saturating_sub(at).saturating_add(NEAR) < count {
            memo.fit(input.len());
            note(dfa, memo, start, input, at, count);
        }
    }

    /// Marks what the turns of these tokens of an input go through.
    pub(crate) fn turns(&mut self, alloc: Global, dfa: &Dfa, input: &[u8], tokens: &[Token])
        requires { IsSized (states_of dfa.now) self.old }
        ensures { Adds (states_of dfa.now) self.old self.new (TurnComesTo (lists_of dfa.now) input.now 0 tokens.now)
            (TurnGoesBy (lists_of dfa.now) input.now 0 tokens.now) }
    {
        let mut memo = Memo::new(alloc);
        let mut at = 0usize;
        for token in tokens {
            self.turn(dfa, &mut memo, input, at, *token);
            at = token.end;
        }
    }
}

/// What the turns of these tokens of an input go through.
pub(crate) fn marks_of(
    alloc: Global,
    dfa: &Dfa,
    input: &[u8],
    tokens: &[Token],
) -> Result<Marks, AllocError>
    ensures { IfOk result (AreMarks (lists_of dfa.now) input.now tokens.now) }
{
    let mut marks = Marks::none(alloc, dfa)?;
    marks.turns(alloc, dfa, input, tokens);
    Ok(marks)
}
