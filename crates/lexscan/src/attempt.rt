//! Turns over the bytes that are there, as far as these decide them.
ghost use Rattle.std.specs.Prelude.{◌≡◌, ◌≤◌, false};
ghost use Rattle.lexscan_window.specs.Intakes.{source_of, sink_of};
ghost use Rattle.lexscan.specs.Ties.{HandedOn};
ghost use Rattle.lexscan.specs.Scans.{IsGoing, MayTurn, SameEnds};
ghost use Rattle.lexscan.specs.Pushes.{IsReachable, WentBack, TurnsOver};
ghost use Rattle.lexscan.specs.Attempts.{Attempted, IsPaused, TurnsCount, TurnsLeft};
ghost use Rattle.lexscan.specs.Runs.{FewCounts};

use crate::further::{InVain, MOST_SHOWN};
use crate::scan::{Ends, Scan};
use crate::turn::Turn;
use lex_io::{Sink, Source};
use lex_machine::Machine;
use lexscan_window::{Intake, Outlet, RunError, Stack, State, TextPlace};

/// Goes back to where a turn began, with as many bytes held.
fn go_back_to(state: &mut State, place: TextPlace, stack: &Stack, held: usize, taken: u64)
    requires { taken ≤ state.old.reading.taken }
    ensures { WentBack place stack.now held taken state.old state.new }
{
    let _most = state.reading.max_reads;
    state.reading.taken = taken;
    state.reading.window.truncate(held);
    state.place = place;
    state.acting.stack.copy_from(stack);
    state.ended = None;
    state.failed = false;
}

impl Scan {
    /// One turn, where as many reads are allowed as there are bytes. Answers nothing where it asks for a byte more, and
    /// goes back to where it began.
    pub fn attempt<M: Machine, S: Source, K: Sink>(
        &mut self,
        machine: &M,
        ends: &mut Ends<'_, '_, S, K>,
        stack: &mut Stack,
    ) -> Result<Option<Turn>, RunError>
        requires going { IsGoing self.old }
        requires ready { MayTurn (M.machine machine.now) ends.old self.old }
        requires reachable { IsReachable (M.machine machine.now) self.old.state }
        ensures { Attempted (M.machine machine.now) ends.old ends.new self.old self.new result }
    {
        let place = self.state.place;
        let held = self.state.reading.window.len();
        let taken = self.state.reading.taken;
        stack.copy_from(&self.state.acting.stack);
        match self.turn(machine, ends) {
            Ok(turn) => Ok(Some(turn)),
            Err(e) => match e {
                RunError::TooManyReads => {
                    // The turn has noted marks over bytes that are given back. Each such match is in another state at a
                    // place, so they are lost no more often than there are states.
                    self.memo.clear();
                    go_back_to(&mut self.state, place, stack, held, taken);
                    Ok(None)
                }
                other => Err(other),
            },
        }
    }

    /// Turns until the scan ends, or a turn asks for more than the source has.
    fn turns_over<M: Machine, S: Source, K: Sink>(
        &mut self,
        machine: &M,
        ends: &mut Ends<'_, '_, S, K>,
    ) -> Result<Turn, RunError>
        requires paused { IsPaused (M.machine machine.now) self.old }
        requires ready { MayTurn (M.machine machine.now) ends.old self.old }
        ensures same { SameEnds ends.old ends.new }
        ensures ran { TurnsOver (M.machine machine.now) S.gave K.wrote (source_of ends.old.intake)
            (source_of ends.new.intake) (sink_of ends.old.outlet) (sink_of ends.new.outlet) self.old.state
            self.new.state result }
        ensures counts { TurnsCount S.ends S.failures K.failures (source_of ends.old.intake) (source_of ends.new.intake)
            (sink_of ends.old.outlet) (sink_of ends.new.outlet) self.new.state result }
        ensures handed_on { HandedOn (K.flushed (sink_of ends.new.outlet)) result }
        ensures left { TurnsLeft (M.machine machine.now) self.old self.new result }
    {
        let mut stack = Stack::new();
        let mut most = MOST_SHOWN;
        let mut in_vain = InVain::new();
        'turns: loop {
            most = self.go_further_unless_behind(machine, ends, most, &mut in_vain)?;
            match self.attempt(machine, ends, &mut stack)? {
                None => return Ok(Turn::Went),
                Some(Turn::Ended(status)) => return Ok(Turn::Ended(status)),
                Some(Turn::Went) => {}
            }
        }
    }

    /// The same over a source and a sink that are not in use otherwise.
    pub fn turns_between<M: Machine, S: Source, K: Sink>(
        &mut self,
        machine: &M,
        source: &mut S,
        sink: &mut K,
    ) -> Result<Turn, RunError>
        requires few { FewCounts S.ends S.failures K.failures source.old sink.old }
        requires paused { IsPaused (M.machine machine.now) self.old }
        ensures ran { TurnsOver (M.machine machine.now) S.gave K.wrote source.old source.new sink.old sink.new
            self.old.state self.new.state result }
        ensures counts { TurnsCount S.ends S.failures K.failures source.old source.new sink.old sink.new
            self.new.state result }
        ensures handed_on { HandedOn (K.flushed sink.new) result }
        ensures left { TurnsLeft (M.machine machine.now) self.old self.new result }
    {
        let mut ends = Ends {
            intake: Intake::new(source),
            outlet: Outlet::new(sink),
        };
        let result = self.turns_over(machine, &mut ends);
        // What was lent is given back.
        let Ends { intake, outlet } = ends;
        let _source = intake.into_inner();
        let _sink = outlet.into_inner();
        result
    }
}
