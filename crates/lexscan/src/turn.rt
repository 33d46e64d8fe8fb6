//! One turn of a scan: it looks for the match, carries it out and leaves its place.
ghost use Rattle.std.specs.Prelude.{◌<◌, length, ⊤};
ghost use Rattle.lex_semantics.specs.MachineLaws.{NoReject, SomeReject};
ghost use Rattle.lexscan.specs.Scans.{IsGoing, MayTurn, TurnMade, TurnOf};

use crate::find::has_backlog;
use crate::scan::{Ends, Scan};
use lex_io::{Sink, Source};
use lex_machine::Machine;
use lexscan_window::RunError;

/// What a turn did.
#[derive(Clone, Copy, Debug, PartialEq, Eq)]
pub enum Turn {
    /// It carried out a match, and the scan goes on.
    Went,
    /// It ended the scan with this status, 0 to 63.
    Ended(u8),
}

impl Scan {
    /// One turn: one match with its actions, or the end action. After the end it answers the status again, and after a
    /// refusal that the scan has failed.
    pub fn turn<M: Machine, S: Source, K: Sink>(
        &mut self,
        machine: &M,
        ends: &mut Ends<'_, '_, S, K>,
    ) -> Result<Turn, RunError>
        requires ready { MayTurn (M.machine machine.now) ends.old self.old }
        ensures { TurnOf (M.machine machine.now) ends.old ends.new self.old self.new result }
    {
        if self.state.failed {
            return Err(RunError::Failed);
        }
        if let Some(status) = self.state.ended {
            return Ok(Turn::Ended(status));
        }
        self.turn_on(machine, ends)
    }

    /// One turn of a scan that has neither failed nor ended.
    fn turn_on<M: Machine, S: Source, K: Sink>(
        &mut self,
        machine: &M,
        ends: &mut Ends<'_, '_, S, K>,
    ) -> Result<Turn, RunError>
        requires going { IsGoing self.old }
        requires ready { MayTurn (M.machine machine.now) ends.old self.old }
        ensures { TurnMade (M.machine machine.now) (SomeReject (M.machine machine.now)) ends.old ends.new self.old self.new result }
    {
        if machine.rejects() {
            // Marks are for machines without REJECT.
            self.memo.clear();
            self.turn_with_reject(machine, ends)
        } else if has_backlog(&self.state) {
            self.turn_over_backlog(machine, ends)
        } else {
            self.turn_without_reject(machine, ends)
        }
    }

    /// The same by the states after each byte, for any machine.
    #[inline(always)]
    pub fn turn_with_reject<M: Machine, S: Source, K: Sink>(
        &mut self,
        machine: &M,
        ends: &mut Ends<'_, '_, S, K>,
    ) -> Result<Turn, RunError>
        requires going { IsGoing self.old }
        requires ready { MayTurn (M.machine machine.now) ends.old self.old }
        ensures { TurnMade (M.machine machine.now) ⊤ ends.old ends.new self.old self.new result }
    {
        match self.match_with_reject(machine, ends) {
            Ok(turn) => Ok(turn),
            Err(e) => {
                self.state.failed = true;
                Err(e)
            }
        }
    }

    /// The same by the last two states, for a machine without REJECT.
    #[inline(always)]
    pub fn turn_without_reject<M: Machine, S: Source, K: Sink>(
        &mut self,
        machine: &M,
        ends: &mut Ends<'_, '_, S, K>,
    ) -> Result<Turn, RunError>
        requires no_reject { NoReject (M.machine machine.now) }
        requires going { IsGoing self.old }
        requires ready { MayTurn (M.machine machine.now) ends.old self.old }
        ensures { TurnMade (M.machine machine.now) ⊥ ends.old ends.new self.old self.new result }
    {
        match self.match_without_reject(machine, ends) {
            Ok(turn) => Ok(turn),
            Err(e) => {
                self.state.failed = true;
                Err(e)
            }
        }
    }

    /// One turn of a scan that has neither failed nor ended, for a machine without REJECT.
    #[inline(always)]
    pub fn turn_for_run<M: Machine, S: Source, K: Sink>(
        &mut self,
        machine: &M,
        ends: &mut Ends<'_, '_, S, K>,
    ) -> Result<Turn, RunError>
        requires no_reject { NoReject (M.machine machine.now) }
        requires going { IsGoing self.old }
        requires ready { MayTurn (M.machine machine.now) ends.old self.old }
        ensures { TurnMade (M.machine machine.now) ⊥ ends.old ends.new self.old self.new result }
    {
        if has_backlog(&self.state) {
            return self.turn_over_backlog(machine, ends);
        }
        self.turn_without_reject(machine, ends)
    }

    /// The same over many bytes that an earlier match has asked for.
    #[cold]
    #[inline(never)]
    pub fn turn_over_backlog<M: Machine, S: Source, K: Sink>(
        &mut self,
        machine: &M,
        ends: &mut Ends<'_, '_, S, K>,
    ) -> Result<Turn, RunError>
        requires no_reject { NoReject (M.machine machine.now) }
        requires going { IsGoing self.old }
        requires ready { MayTurn (M.machine machine.now) ends.old self.old }
        requires behind { self.old.state.place.at < length self.old.state.reading.window.bytes }
        ensures { TurnMade (M.machine machine.now) ⊥ ends.old ends.new self.old self.new result }
    {
        match self.match_over_backlog(machine, ends) {
            Ok(turn) => Ok(turn),
            Err(e) => {
                self.state.failed = true;
                Err(e)
            }
        }
    }
}
