//! A whole run.
ghost use Rattle.std.specs.Prelude.{ℕ, List, nat_lt};
ghost use Rattle.lex_semantics.specs.Machine.{rules_of_machine};
ghost use Rattle.lex_semantics.specs.MachineLaws.{NoReject};
ghost use Rattle.lexscan.specs.Ties.{RunHandedOn};
ghost use Rattle.lexscan.specs.Runs.{Ran, FewReads, FewCounts, RunCounts};
ghost use Rattle.lexscan.specs.Scans.{IsFresh, RunMade};

use crate::further::{InVain, MOST_SHOWN};
use crate::scan::{Ends, Scan};
use crate::turn::Turn;
use lex_io::{Sink, Source};
use lex_machine::Machine;
use lexscan_window::{Intake, Memo, Outlet, RunError, State, StatePath};
use std::alloc::Global;

/// Turns until the end. Answers the status, with the sink flushed. It makes at most `max_reads` reads.
pub fn run<M: Machine, S: Source, K: Sink>(
    alloc: Global,
    machine: &M,
    source: &mut S,
    sink: &mut K,
    max_reads: u64,
) -> Result<u8, RunError>
    requires few { FewCounts S.ends S.failures K.failures source.old sink.old }
    ensures ran { (given : List ℕ) × (out : List ℕ) × S.gave source.old given source.new × K.wrote sink.old out sink.new
        × Ran (rules_of_machine (M.machine machine.now)) given out
        (nat_lt (S.ends source.old) (S.ends source.new)) max_reads result
        × FewReads S.ends S.failures source.old source.new given max_reads }
    ensures counts { RunCounts S.ends S.failures K.failures source.old source.new sink.old sink.new result }
    ensures handed_on { RunHandedOn (K.flushed sink.new) result }
{
    let mut ends = Ends {
        intake: Intake::new(source),
        outlet: Outlet::new(sink),
    };
    let mut scan = Scan {
        path: StatePath::new(alloc),
        memo: Memo::new(alloc),
        state: State::new(alloc, max_reads),
    };
    let result = run_turns(machine, &mut ends, &mut scan);
    // What was lent is given back.
    let Ends { intake, outlet } = ends;
    let _source = intake.into_inner();
    let _sink = outlet.into_inner();
    result
}

/// Turns until the end.
fn run_turns<M: Machine, S: Source, K: Sink>(
    machine: &M,
    ends: &mut Ends<'_, '_, S, K>,
    scan: &mut Scan,
) -> Result<u8, RunError>
    requires fresh { IsFresh (M.machine machine.now) ends.old scan.old }
    ensures { RunMade (M.machine machine.now) ends.old ends.new scan.old result }
{
    if machine.rejects() {
        run_with_reject(machine, ends, scan)
    } else {
        run_without_reject(machine, ends, scan)
    }
}

/// The same for any machine. Turns that are told at a glance are made in one go.
#[inline(never)]
fn run_with_reject<M: Machine, S: Source, K: Sink>(
    machine: &M,
    ends: &mut Ends<'_, '_, S, K>,
    scan: &mut Scan,
) -> Result<u8, RunError>
    requires fresh { IsFresh (M.machine machine.now) ends.old scan.old }
    ensures { RunMade (M.machine machine.now) ends.old ends.new scan.old result }
{
    let mut most = MOST_SHOWN;
    let mut in_vain = InVain::new();
    'turns: loop {
        most = scan.go_further(machine, ends, most, &mut in_vain)?;
        match scan.turn_with_reject(machine, ends)? {
            Turn::Ended(status) => return Ok(status),
            Turn::Went => {}
        }
    }
}

/// The same for a machine without REJECT, so that no turn asks whether it has any. Turns that are told at a glance
/// are made in one go, but for those over many bytes that an earlier match has asked for.
fn run_without_reject<M: Machine, S: Source, K: Sink>(
    machine: &M,
    ends: &mut Ends<'_, '_, S, K>,
    scan: &mut Scan,
) -> Result<u8, RunError>
    requires no_reject { NoReject (M.machine machine.now) }
    requires fresh { IsFresh (M.machine machine.now) ends.old scan.old }
    ensures { RunMade (M.machine machine.now) ends.old ends.new scan.old result }
{
    let mut most = MOST_SHOWN;
    let mut in_vain = InVain::new();
    let mut near = InVain::new();
    'turns: loop {
        most = scan.go_on(machine, ends, most, &mut in_vain, &mut near)?;
        match scan.turn_for_run(machine, ends)? {
            Turn::Ended(status) => return Ok(status),
            Turn::Went => {}
        }
    }
}
