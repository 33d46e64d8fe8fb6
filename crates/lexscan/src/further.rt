//! Several turns of a scan in one go: a burst over the bytes held and those that the source has ready.
ghost use Rattle.std.specs.Prelude.{◌+◌, ◌≤◌, length};
ghost use Rattle.lex_semantics.specs.ByteSets.{bit_of};
ghost use Rattle.lexscan.specs.Bursts.{Advanced};
ghost use Rattle.lexscan.specs.Scans.{IsGoing, MayTurn, WentFurther};

use crate::burst::{Burst, Runs, Wanted};
use crate::find::has_backlog;
use crate::scan::{Ends, Scan};
use crate::texts::burst_from;
use lex_io::{Sink, Source};
use lex_machine::Machine;
use lexscan_window::{RunError, State, TextPlace};

/// Goes to the place after some turns over the bytes held and those shown after them.
#[inline(always)]
pub fn advance(state: &mut State, burst: Burst, got: usize)
    requires got { got ≤ length state.old.reading.window.ahead }
    requires few { state.old.reading.taken + got + bit_of state.old.reading.at_end ≤ state.old.reading.max_reads }
    requires done { burst.done ≤ length state.old.reading.window.bytes + got }
    ensures { Advanced burst got state.old state.new }
{
    let _most = state.reading.max_reads;
    state.reading.taken += got as u64;
    state.reading.window.accept(got);
    state.reading.window.drop_front(burst.done);
    state.place = TextPlace {
        at: 0,
        line_start: burst.line_start,
        condition: burst.condition,
    };
}

/// How many bytes of the source are shown at once, at most.
pub const MOST_SHOWN: usize = 8_192;

/// How many bytes of the source are shown at once, at least.
pub const LEAST_SHOWN: usize = 64;

/// How many bytes are shown next, where so many were, and the turns over them were done with so many: what is shown
/// in vain is no more than a part of what is done.
#[inline]
pub fn next_most(most: usize, done: usize) -> usize {
    if done < most / 2 {
        (most / 2).max(LEAST_SHOWN)
    } else {
        most.saturating_mul(2).min(MOST_SHOWN)
    }
}

/// How many bursts in a row may look for runs and pass few bytes in them.
const MOST_IN_VAIN: u8 = 4;

/// How many bursts then go by until one looks for runs again, with those before.
const UNTIL_AGAIN: u8 = 68;

/// How many bursts in a row looked for runs of one-byte matches in vain, and then how many went by since.
#[derive(Clone, Copy)]
pub struct InVain {
    bursts: u8,
}

impl InVain {
    /// Where none did.
    pub fn new() -> InVain {
        InVain { bursts: 0 }
    }

    /// Whether the next burst looks for runs.
    #[inline]
    fn looks(self) -> bool {
        self.bursts < MOST_IN_VAIN
    }

    /// The same after one burst more.
    #[inline]
    fn after(self, runs: Runs) -> InVain {
        let bursts = match runs {
            Runs::Many => 0,
            Runs::NotLookedFor if self.looks() => self.bursts,
            Runs::NotLookedFor if UNTIL_AGAIN <= self.bursts => MOST_IN_VAIN - 1,
            _ => self.bursts.saturating_add(1),
        };
        InVain { bursts }
    }
}

impl Scan {
    /// Turns over the bytes held and at most this many of those that the source has ready, as long as each match ends
    /// among them and its rule is told at a glance. Answers how many are to be shown the next time.
    pub fn go_further<M: Machine, S: Source, K: Sink>(
        &mut self,
        machine: &M,
        ends: &mut Ends<'_, '_, S, K>,
        most: usize,
        in_vain: &mut InVain,
    ) -> Result<usize, RunError>
        requires going { IsGoing self.old }
        requires ready { MayTurn (M.machine machine.now) ends.old self.old }
        ensures { WentFurther (M.machine machine.now) ends.old ends.new self.old self.new result }
    {
        let wanted = if in_vain.looks() {
            Wanted::Runs
        } else {
            Wanted::Turns
        };
        self.go_by(machine, ends, most, wanted, in_vain)
    }

    /// The same, by turns of this kind.
    #[inline(always)]
    fn go_by<M: Machine, S: Source, K: Sink>(
        &mut self,
        machine: &M,
        ends: &mut Ends<'_, '_, S, K>,
        most: usize,
        wanted: Wanted,
        in_vain: &mut InVain,
    ) -> Result<usize, RunError>
        requires going { IsGoing self.old }
        requires ready { MayTurn (M.machine machine.now) ends.old self.old }
        ensures { WentFurther (M.machine machine.now) ends.old ends.new self.old self.new result }
    {
        let held = self.state.reading.window.len();
        // After the end nothing is ready.
        if self.state.reading.at_end {
            return Ok(most);
        }
        let left = self.state.reading.max_reads - self.state.reading.taken;
        let allowed = if left < most as u64 {
            left as usize
        } else {
            most
        };
        let shown = self.state.reading.window.show(ends.intake.ahead(), allowed);
        let text = self.state.reading.window.text(shown);
        let place = self.state.place;
        let went = burst_from(machine, &mut ends.outlet, text, held, place, wanted);
        let burst = went.burst;
        *in_vain = in_vain.after(burst.runs);
        // What no turn has asked for stays with the source.
        let got = burst.asked - held;
        ends.intake.give(got);
        advance(&mut self.state, burst, got);
        self.state.place.at = went.kept;
        if burst.fault {
            self.state.failed = true;
            return Err(RunError::Write);
        }
        Ok(next_most(most, burst.done + went.kept - place.at))
    }

    /// Goes on as `go_further` does, unless the next match has many bytes before it that are held.
    pub fn go_further_unless_behind<M: Machine, S: Source, K: Sink>(
        &mut self,
        machine: &M,
        ends: &mut Ends<'_, '_, S, K>,
        most: usize,
        in_vain: &mut InVain,
    ) -> Result<usize, RunError>
        requires going { IsGoing self.old }
        requires ready { MayTurn (M.machine machine.now) ends.old self.old }
        ensures { WentFurther (M.machine machine.now) ends.old ends.new self.old self.new result }
    {
        if has_backlog(&self.state) {
            return Ok(most);
        }
        self.go_further(machine, ends, most, in_vain)
    }

    /// Goes on as `go_further` does. Over many bytes that an earlier match has asked for, those turns alone are made in
    /// one go that go over few of them.
    #[inline(always)]
    pub fn go_on<M: Machine, S: Source, K: Sink>(
        &mut self,
        machine: &M,
        ends: &mut Ends<'_, '_, S, K>,
        most: usize,
        in_vain: &mut InVain,
        near: &mut InVain,
    ) -> Result<usize, RunError>
        requires going { IsGoing self.old }
        requires ready { MayTurn (M.machine machine.now) ends.old self.old }
        ensures { WentFurther (M.machine machine.now) ends.old ends.new self.old self.new result }
    {
        if has_backlog(&self.state) {
            return self.go_near(machine, ends, most, near);
        }
        self.go_further(machine, ends, most, in_vain)
    }

    /// Turns over the bytes held that go over few of them each, where the last such bursts made any, and no text is
    /// kept before the match.
    fn go_near<M: Machine, S: Source, K: Sink>(
        &mut self,
        machine: &M,
        ends: &mut Ends<'_, '_, S, K>,
        most: usize,
        near: &mut InVain,
    ) -> Result<usize, RunError>
        requires going { IsGoing self.old }
        requires ready { MayTurn (M.machine machine.now) ends.old self.old }
        ensures { WentFurther (M.machine machine.now) ends.old ends.new self.old self.new result }
    {
        if !near.looks() || self.state.place.at != 0 {
            *near = near.after(Runs::NotLookedFor);
            return Ok(most);
        }
        let held = self.state.reading.window.len();
        let mut runs = InVain::new();
        let went = self.go_by(machine, ends, 0, Wanted::Near, &mut runs);
        let made = if self.state.reading.window.len() < held {
            Runs::Many
        } else {
            Runs::Few
        };
        *near = near.after(made);
        went.map(|_| most)
    }
}
