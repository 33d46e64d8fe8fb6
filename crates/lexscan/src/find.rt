//! The match at the place of a scan is looked for; then it is carried out, or the end action is.
ghost use Rattle.std.specs.Prelude.{◌≡◌, ◌<◌, ◌≤◌, length, true, ⊤};
ghost use Rattle.lex_semantics.specs.MachineLaws.{NoReject};
ghost use Rattle.lexscan_matching.specs.Backs.{IsOpen};
ghost use Rattle.lexscan.specs.Scans.{IsGoing, MayTurn, MatchMade};

use crate::carry::{carry_end, carry_longest, carry_with_reject};
use crate::scan::{Ends, Scan};
use crate::turn::Turn;
use lex_io::{Sink, Source};
use lex_machine::Machine;
use lexscan_matching::{Ahead, LookAhead, look, look_ahead, look_ahead_last, look_ahead_more};
use lexscan_window::{RunError, State, TextPlace};

/// How many bytes a match goes over again at most, before what was known of walks over them is kept.
const BACKLOG: usize = 32;

/// Whether the next match has more bytes before it that are held than it may go over again.
#[inline(always)]
pub fn has_backlog(state: &State) -> bool
    requires { state.now.place.at ≤ length state.now.reading.window.bytes }
    ensures { result ≡ true → state.now.place.at < length state.now.reading.window.bytes }
{
    BACKLOG < state.reading.window.len() - state.place.at
}

impl Scan {
    /// One match with its actions, or the end action, by the states after each byte.
    #[tactic(auto, using(lexscan_matching::proofs::Limiting::given_up))]
    pub fn match_with_reject<M: Machine, S: Source, K: Sink>(
        &mut self,
        machine: &M,
        ends: &mut Ends<'_, '_, S, K>,
    ) -> Result<Turn, RunError>
        requires going { IsGoing self.old }
        requires ready { MayTurn (M.machine machine.now) ends.old self.old }
        ensures { MatchMade (M.machine machine.now) ⊤ ends.old ends.new self.old self.new result }
    {
        let place = self.state.place;
        match look_ahead(
            machine,
            &mut ends.intake,
            &mut ends.outlet,
            &mut self.state.reading,
            &mut self.path,
            place,
        ) {
            Err(e) => Err(e),
            // Without a byte there is no match, and the end action is due.
            Ok(false) => carry_end(machine, &mut ends.outlet, &mut self.state),
            Ok(true) => carry_with_reject(machine, &mut ends.outlet, &mut self.state, &self.path),
        }
    }

    /// The same for a machine without REJECT, by the last two states.
    #[tactic(auto, using(lexscan_matching::proofs::Limiting::given_up))]
    #[inline(always)]
    pub fn match_without_reject<M: Machine, S: Source, K: Sink>(
        &mut self,
        machine: &M,
        ends: &mut Ends<'_, '_, S, K>,
    ) -> Result<Turn, RunError>
        requires no_reject { NoReject (M.machine machine.now) }
        requires going { IsGoing self.old }
        requires ready { MayTurn (M.machine machine.now) ends.old self.old }
        ensures { MatchMade (M.machine machine.now) ⊥ ends.old ends.new self.old self.new result }
    {
        let place = self.state.place;
        match look_ahead_last(
            machine,
            &mut ends.intake,
            &mut ends.outlet,
            &mut self.state.reading,
            place,
        ) {
            Err(e) => Err(e),
            // Without a byte there is no match, and the end action is due.
            Ok(None) => carry_end(machine, &mut ends.outlet, &mut self.state),
            Ok(Some(ahead)) => carry_longest(machine, &mut ends.outlet, &mut self.state, ahead),
        }
    }

    /// The same where the match asks for all the bytes held, and for one more.
    #[tactic(auto, using(lexscan_matching::proofs::Limiting::given_up))]
    fn match_past_held<M: Machine, S: Source, K: Sink>(
        &mut self,
        machine: &M,
        ends: &mut Ends<'_, '_, S, K>,
        ahead: LookAhead,
    ) -> Result<Turn, RunError>
        requires no_reject { NoReject (M.machine machine.now) }
        requires going { IsGoing self.old }
        requires ready { MayTurn (M.machine machine.now) ends.old self.old }
        requires open { IsOpen (M.machine machine.now) (M.states machine.now) self.old.state.place
            self.old.state.reading ahead }
        ensures { MatchMade (M.machine machine.now) ⊥ ends.old ends.new self.old self.new result }
    {
        let place = self.state.place;
        // The walk goes on from its last state, so no byte held is gone over again.
        match look_ahead_more(
            machine,
            &mut ends.intake,
            &mut ends.outlet,
            &mut self.state.reading,
            place,
            ahead,
        ) {
            Err(e) => Err(e),
            Ok(None) => carry_end(machine, &mut ends.outlet, &mut self.state),
            Ok(Some(ahead)) => carry_longest(machine, &mut ends.outlet, &mut self.state, ahead),
        }
    }

    /// The same over many bytes that an earlier match has asked for: a walk over them ends where it is known to lead
    /// to no match.
    fn match_over_held<M: Machine, S: Source, K: Sink>(
        &mut self,
        machine: &M,
        ends: &mut Ends<'_, '_, S, K>,
    ) -> Result<Turn, RunError>
        requires no_reject { NoReject (M.machine machine.now) }
        requires going { IsGoing self.old }
        requires ready { MayTurn (M.machine machine.now) ends.old self.old }
        requires behind { self.old.state.place.at < length self.old.state.reading.window.bytes }
        ensures { MatchMade (M.machine machine.now) ⊥ ends.old ends.new self.old self.new result }
    {
        let known = &self.state.place;
        // Field by field: as one word it would wait for the bytes that the last match has set.
        let place = TextPlace {
            at: known.at,
            line_start: known.line_start,
            condition: known.condition,
        };
        let reading = &self.state.reading;
        let held = reading.window.len();
        self.memo.fit(held - place.at);
        match look(machine, &self.state.reading, &mut self.memo, place) {
            // The walk came to the end of the bytes held.
            Ahead::Open(ahead) => self.match_past_held(machine, ends, ahead),
            // It came to a mark, or the machine asks for no more.
            Ahead::Settled(settled) => {
                let ahead = LookAhead {
                    reach: settled.keep,
                    state: settled.state,
                    before: settled.before,
                };
                carry_longest(machine, &mut ends.outlet, &mut self.state, ahead)
            }
        }
    }

    /// The same, and gives the memory of the marks back where few bytes are left.
    pub fn match_over_backlog<M: Machine, S: Source, K: Sink>(
        &mut self,
        machine: &M,
        ends: &mut Ends<'_, '_, S, K>,
    ) -> Result<Turn, RunError>
        requires no_reject { NoReject (M.machine machine.now) }
        requires going { IsGoing self.old }
        requires ready { MayTurn (M.machine machine.now) ends.old self.old }
        requires behind { self.old.state.place.at < length self.old.state.reading.window.bytes }
        ensures { MatchMade (M.machine machine.now) ⊥ ends.old ends.new self.old self.new result }
    {
        let result = self.match_over_held(machine, ends);
        let left = self
            .state
            .reading
            .window
            .len()
            .saturating_sub(self.state.place.at);
        // Walks over few bytes cost less than marks.
        if left <= BACKLOG {
            self.memo.clear();
        }
        result
    }
}
