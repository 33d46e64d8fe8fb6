//! A scan that reads a source to its end, and counts its turns.
ghost use Rattle.std.specs.Prelude.{◌≡◌, ◌-◌, ◌^◌, ◌<◌, ℕ, false, IfOk};
ghost use Rattle.lex_semantics.specs.Machine.{Machine};
ghost use Rattle.lexscan.specs.Scanners.{pull_finished};
ghost use Rattle.lextab_packed.specs.FlatViews.{tables_of};
ghost use Rattle.lextab_packed.specs.Machines.{table_machine};
ghost use Rattle.lexlook_counts.specs.Counting.{CountsOn, CountsSource, HasCounted, IsCounting, IsFresh};

use crate::given_up::GivenUp;
use crate::looking::Looker;
use crate::reading::{Read, TokenReader};
use crate::tally::Tally;
use lexscan::{RunError, Source};
use lexscan_window::MatchedRule;
use lextab_packed::Flat;
use std::alloc::{AllocError, Global};

/// Two machines of a specification: the one that scans, and the one that tells how far its turns look.
#[derive(Drop)]
pub(crate) struct Machines {
    pub(crate) scans: Flat,
    pub(crate) looks: Flat,
}

/// A scan, what tells how far its turns look, the counts of those whose tokens it has told, and of what these gave up.
#[derive(Drop)]
struct Counter {
    reader: TokenReader,
    looker: Looker,
    tally: Tally,
    given_up: GivenUp,
    /// The rule of the last of these.
    last: Option<MatchedRule>,
}

/// The counts of all turns, how often each rule was given up, and the status that the scan ends with.
#[derive(Drop)]
pub(crate) struct Counted {
    pub(crate) tally: Tally,
    pub(crate) given_up: Vec<u64>,
    /// The rule of the last turn with a match.
    pub(crate) last: Option<MatchedRule>,
    /// The start condition in which the scan ends.
    pub(crate) condition: u8,
    pub(crate) status: u8,
}

impl Counter {
    /// One that was fed nothing, for so many rules and conditions.
    fn new(
        alloc: Global,
        machines: Machines,
        rules: usize,
        conditions: usize,
    ) -> Result<Counter, AllocError>
        ensures { IfOk result (IsFresh (table_machine (tables_of machines.scans)) (table_machine (tables_of machines.looks))
            rules conditions) }
    {
        let tally = Tally::new(alloc, rules, conditions)?;
        let given_up = GivenUp::new(alloc, rules)?;
        let Machines { scans, looks } = machines;
        Ok(Counter {
            reader: TokenReader::new(alloc, scans),
            looker: Looker::new(alloc, looks),
            tally,
            given_up,
            last: None,
        })
    }

    /// Counts the turn of the next token, or feeds more where the scan asks for it. After the end it answers the status.
    fn step<S: Source>(&mut self, source: &mut S) -> Result<Option<u8>, RunError>
        requires counted { IsCounting S.gave S.ends S.failures source.old self.old }
        requires ends { pull_finished self.old.reader.scanner ≡ false → S.ends source.old < 2 ^ 64 - 1 }
        requires reads { S.failures source.old < 2 ^ 64 - 1 }
        ensures { (M N : Machine) (rules conditions : ℕ) (s : S)
            → HasCounted S.gave S.ends S.failures M N rules conditions s source.old self.old
            → CountsOn S.gave S.ends S.failures M N rules conditions s source.new self.new result }
    {
        match self.reader.read_on(source, &mut self.looker.bytes) {
            Err(error) => Err(error),
            Ok(Read::Fed) => Ok(None),
            Ok(Read::Ended(status)) => Ok(Some(status)),
            Ok(Read::Token(token)) => {
                let finished = self.reader.is_finished();
                let given_up = &mut self.given_up;
                match given_up.count_next(&self.looker, token.condition, finished) {
                    Err(error) => return Err(error),
                    Ok(()) => {}
                }
                match self.looker.pass(token, finished) {
                    // A scan asks for all that its turns look at before it tells their tokens.
                    None => Err(RunError::OutOfMemory),
                    Some(beyond) => {
                        self.tally.count(token, beyond);
                        self.last = Some(token.rule);
                        Ok(None)
                    }
                }
            }
        }
    }
}

/// Scans a source by a machine, and counts the turns for so many rules and conditions.
pub(crate) fn count_source<S: Source>(
    alloc: Global,
    machines: Machines,
    rules: usize,
    conditions: usize,
    source: &mut S,
) -> Result<Counted, RunError>
    requires ends { S.ends source.old < 2 ^ 64 - 1 }
    requires reads { S.failures source.old < 2 ^ 64 - 1 }
    ensures { CountsSource S.gave S.ends S.failures (table_machine (tables_of machines.scans))
        (table_machine (tables_of machines.looks)) rules conditions source.old source.new result }
{
    let mut scan = match Counter::new(alloc, machines, rules, conditions) {
        Err(_) => return Err(RunError::OutOfMemory),
        Ok(scan) => scan,
    };
    'steps: for _ in 0..u64::MAX {
        match scan.step(source) {
            Ok(None) => {}
            Ok(Some(status)) => {
                let condition = scan.reader.condition();
                let Counter {
                    reader: _reader,
                    looker: _looker,
                    tally,
                    given_up,
                    last,
                } = scan;
                return Ok(Counted {
                    tally,
                    given_up: given_up.counts,
                    last,
                    condition,
                    status,
                });
            }
            Err(error) => return Err(error),
        }
    }
    // No scan makes so many steps in any time.
    Err(RunError::OutOfMemory)
}
