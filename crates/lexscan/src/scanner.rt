//! A scanner.
ghost use Rattle.std.specs.Prelude.{◌≡◌, ℕ, ◌+◌, ◌-◌, ◌^◌, ◌<◌, ◌≤◌, List, [], ◌++◌, length, true, false, Some, None};
ghost use Rattle.std.specs.Prelude.{Ok, Err, OnErr, IfSome, IsErrOf};
ghost use Rattle.std.specs.Coded.{→_prop};
ghost use Rattle.lex_semantics.specs.Text.{AllBelow};
ghost use Rattle.lexscan_window.specs.Intakes.{can_read, can_write};
ghost use Rattle.lexscan_matching.specs.Looks.{LimitFirst};
ghost use Rattle.lex_semantics.specs.MachineLaws.{SomeReject};
ghost use Rattle.lex_semantics.specs.ByteSets.{bit_of};
ghost use Rattle.lexscan_window.specs.Reads.{read_fault_count, write_fault_count, end_step};
ghost use Rattle.lexscan_window.specs.Memos.{AreTrue, AreTrue-prop};
ghost use Rattle.lexscan.specs.Runs.{FewCounts};
ghost use Rattle.lexscan.specs.Stacks.{AllBelow-prop};
ghost use Rattle.lexscan.specs.Ties.{HandedOn};
ghost use Rattle.lexscan.specs.Matches.{match_in, text_of};
ghost use Rattle.lexscan.specs.TurnInvariants.{NoneAfterEnd, TurnPreserves, TurnInvariant};

use crate::scan::{Ends, Scan};
use crate::turn::Turn;
use lex_io::{Sink, Source};
use lex_machine::Machine;
use lexscan_window::{Intake, Match, Memo, Outlet, RunError, State, StatePath};
use std::alloc::Global;

/// A scan of a source by a machine, to a sink.
#[derive(Drop)]
pub struct Scanner<'a, M: Machine, S: Source, K: Sink> {
    machine: &'a M,
    ends: Ends<'a, 'a, S, K>,
    scan: Scan,
    ghost may_read: { scan.state.failed ≡ false → scan.state.ended ≡ None → scan.state.reading.at_end ≡ false
        → can_read ends.intake ≡ true },
    ghost may_write: { scan.state.failed ≡ false → can_write ends.outlet ≡ true },
    ghost condition: { scan.state.place.condition < (M.machine machine.now).conditions },
    ghost inside: { scan.state.place.at ≤ length scan.state.reading.window.bytes },
    ghost stack: { scan.state.failed ≡ false
        → AllBelow (M.machine machine.now).conditions scan.state.acting.stack } by { →_prop
            (AllBelow-prop (M.machine machine.now).conditions scan.state.acting.stack) },
    ghost marks: { scan.state.failed ≡ false
        → AreTrue (M.machine machine.now) scan.state.reading scan.memo } by { →_prop
            (AreTrue-prop (M.machine machine.now) scan.state.reading scan.memo) },
}

impl<'a, M: Machine, S: Source, K: Sink> Scanner<'a, M, S, K> {
    ghost use Rattle.lexscan.specs.Scanners.{scanner_machine, scanner_source, scanner_source_name};
    ghost use Rattle.lexscan.specs.Scanners.{scanner_sink, scanner_sink_name, scanner_state};

    /// A scanner that has made no turn, and takes at most this many bytes.
    pub fn new(
        alloc: Global,
        machine: &'a M,
        source: &'a mut S,
        sink: &'a mut K,
        max_reads: u64,
    ) -> Scanner<'a, M, S, K>
        requires few { FewCounts S.ends S.failures K.failures source.old sink.old }
        ensures same_source { scanner_source_name result ≡ source.entry.ghost_name }
        ensures same_sink { scanner_sink_name result ≡ sink.entry.ghost_name }
        ensures source { scanner_source result ≡ source.old }
        ensures sink { scanner_sink result ≡ sink.old }
        ensures machine { scanner_machine result ≡ machine.now }
        ensures max_reads { (scanner_state result).reading.max_reads ≡ max_reads }
        ensures going { (scanner_state result).ended ≡ None }
        ensures reading { (scanner_state result).reading.at_end ≡ false }
        ensures invariant { TurnInvariant (M.machine machine.now) 0 [] [] (scanner_state result) }
    {
        Scanner {
            machine,
            ends: Ends {
                intake: Intake::new(source),
                outlet: Outlet::new(sink),
            },
            scan: Scan {
                path: StatePath::new(alloc),
                memo: Memo::new(alloc),
                state: State::new(alloc, max_reads),
            },
        }
    }

    /// One match with its actions, or the end action. Where the scan ends, the sink has been flushed.
    pub fn turn(&mut self) -> Result<Turn, RunError>
        ensures same_machine { scanner_machine self.new ≡ scanner_machine self.old }
        ensures same_source { scanner_source_name self.new ≡ scanner_source_name self.old }
        ensures same_sink { scanner_sink_name self.new ≡ scanner_sink_name self.old }
        ensures limit_first { (scanner_state self.old).failed ≡ false → (scanner_state self.old).ended ≡ None
            → LimitFirst (M.machine (scanner_machine self.old)) (SomeReject (M.machine (scanner_machine self.old)))
            (scanner_state self.old).place (scanner_state self.old).reading (scanner_state self.new).reading result }
        ensures goes_on { (got : List ℕ) × (wrote : List ℕ)
            × S.gave (scanner_source self.old) got (scanner_source self.new)
            × K.wrote (scanner_sink self.old) wrote (scanner_sink self.new)
            × NoneAfterEnd (scanner_state self.old) (scanner_state self.new) got
            × TurnPreserves (M.machine (scanner_machine self.old)) (scanner_state self.old) (scanner_state self.new)
            got wrote result }

        ensures still { (scanner_state self.old).reading.at_end ≡ true
            → scanner_source self.new ≡ scanner_source self.old }
        ensures read_faults { S.failures (scanner_source self.new) ≡
            S.failures (scanner_source self.old) + read_fault_count result }
        ensures write_faults { K.failures (scanner_sink self.new) ≡
            K.failures (scanner_sink self.old) + write_fault_count result }
        ensures handed_on { (scanner_state self.old).failed ≡ false → (scanner_state self.old).ended ≡ None
            → HandedOn (K.flushed (scanner_sink self.new)) result }
        ensures failed { OnErr result ((scanner_state self.new).failed ≡ true) }
        ensures after_refusal { (scanner_state self.old).failed ≡ true → (result ≡ Err RunError.Failed)
            × (scanner_source self.new ≡ scanner_source self.old)
            × (scanner_sink self.new ≡ scanner_sink self.old) × (scanner_state self.new ≡ scanner_state self.old) }
        ensures refused { IsErrOf result RunError.Failed → (scanner_state self.old).failed ≡ true }
        ensures after_end { (status : ℕ) → (scanner_state self.old).failed ≡ false
            → (scanner_state self.old).ended ≡ Some status →
            (result ≡ Ok (Turn.Ended status))
            × (scanner_source self.new ≡ scanner_source self.old)
            × (scanner_sink self.new ≡ scanner_sink self.old) × (scanner_state self.new ≡ scanner_state self.old) }
        ensures max_reads { (scanner_state self.new).reading.max_reads ≡
            (scanner_state self.old).reading.max_reads }
        ensures few_reads { (scanner_state self.new).reading.taken + bit_of (scanner_state self.new).reading.at_end
            + read_fault_count result ≤ (scanner_state self.new).reading.max_reads }
        ensures ends { S.ends (scanner_source self.new) ≡
            S.ends (scanner_source self.old)
            + end_step (scanner_state self.old).reading.at_end (scanner_state self.new).reading.at_end }
        ensures too_many { IsErrOf result RunError.TooManyReads →
            ((scanner_state self.new).reading.taken ≡ (scanner_state self.new).reading.max_reads)
            × ((scanner_state self.new).reading.at_end ≡ false) }
    {
        self.scan.turn(self.machine, &mut self.ends)
    }

    /// The bytes from the start of the text to the last byte taken.
    pub fn held(&self) -> &[u8]
        ensures { result.now ≡ (scanner_state self.now).reading.window.bytes }
    {
        let window = &self.scan.state.reading.window;
        window.slice(0, window.len())
    }

    /// The start condition of the next match.
    pub fn condition(&self) -> u8
        ensures { result ≡ (scanner_state self.now).place.condition }
    {
        self.scan.state.place.condition
    }

    /// The match that the last turn carried out: the longest of the earliest rule, or after REJECT the one that was not
    /// rejected. There is none before the first turn, after an end action, and after a refused turn.
    pub fn matched(&self) -> Option<Match>
        ensures told { result ≡ match_in (scanner_state self.now) }
        ensures small { IfSome result (λ m. m.start + m.length < 2 ^ 64) }
    {
        self.scan.matched()
    }

    /// The text of the match that `matched` tells, as it stands in the buffer, or nothing where that tells none. The
    /// next turn ends the borrow.
    pub fn text(&self) -> &[u8]
        ensures { result.now ≡ text_of (match_in (scanner_state self.now)) (scanner_state self.now) }
    {
        match self.matched() {
            None => &[],
            Some(matched) => {
                let state = &self.scan.state;
                state.reading.window.before(state.place.at, matched.length)
            }
        }
    }

    /// How many bytes the source gave.
    pub fn taken(&self) -> u64
        ensures { result ≡ (scanner_state self.now).reading.taken }
    {
        self.scan.state.reading.taken
    }

    /// The sink, for a look at what was written between two turns.
    pub fn sink(&self) -> &K
        ensures { result.now ≡ scanner_sink self.now }
    {
        self.ends.outlet.sink()
    }
}
