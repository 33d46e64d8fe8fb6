//! Where the tokens of a scan lie, told as they come.
ghost use Rattle.std.specs.Prelude.{◌≡◌, ◌+◌, ◌-◌, ◌^◌, ◌<◌, ◌≤◌, ◌++◌, ℕ, List, false, length, IfErr, OnOk, Err};
ghost use Rattle.lex_io.specs.Sink.{Appended};
ghost use Rattle.lex_semantics.specs.Limits.{max_positions, max_states};
ghost use Rattle.lex_semantics.specs.Machine.{Machine};
ghost use Rattle.lexkit.specs.ScanCounts.{read_faults, write_faults};
ghost use Rattle.lexscan.specs.Pulls.{whole_token};
ghost use Rattle.lexscan.specs.Runs.{FewCounts};
ghost use Rattle.lexscan.specs.Scanners.{pull_finished};
ghost use Rattle.lexscan_window.specs.Reads.{read_fault_count, write_fault_count};
ghost use Rattle.lextab_packed.specs.FlatViews.{tables_of};
ghost use Rattle.lextab_packed.specs.Machines.{table_machine};
ghost use Rattle.lexlook_counts.specs.Places.{HasPlaced, IsPlacingFault, PlacesOn, PlacesSource, TellsPlaces, offset_line, subject_of};
ghost use Rattle.lexlook_counts.specs.Reading.{HasTold, text_read};

use crate::lines::{LineKind, Subject, add_field, add_subject};
use crate::reading::{Read, TokenReader};
use crate::telling::machine_of;
use lexkit::{GenError, Options, RunError, ScanError, Sink, Source, lines_of, read_text};
use lexlook_specs::{add, add_string};
use lexscan::{MatchedRule, PulledToken};
use lextab_packed::Flat;
use std::alloc::{AllocError, Global};

/// A rule by its line in the file.
fn subject_of(lines: &[u32], rule: MatchedRule) -> Subject
    ensures { result ≡ subject_of lines.now rule }
{
    match rule {
        MatchedRule::Numbered(number) => {
            Subject::Line(lines.get(number as usize).copied().unwrap_or(0))
        }
        MatchedRule::Default => Subject::DefaultRule,
    }
}

/// Appends the line of a token.
fn add_place(
    line: &mut Vec<u8>,
    lines: &[u32],
    token: PulledToken,
    text: &[u8],
) -> Result<(), AllocError>
    ensures { OnOk result (line.new.items ≡ line.old.items ++ offset_line lines.now (whole_token token) text.now) }
{
    add_field(line, b"", token.start)?;
    add_field(line, b" ", token.length as u64)?;
    add(line, b" ")?;
    add_subject(line, LineKind::Matched, subject_of(lines, token.rule))?;
    add(line, b" \"")?;
    add_string(line, text)?;
    add(line, b"\"\n")
}

/// A scan whose tokens are told as they come, the line of the last one, and what was fed last.
#[derive(Drop)]
struct Placer {
    reader: TokenReader,
    line: Vec<u8>,
    fed: Vec<u8>,
}

impl Placer {
    /// Writes the line of the token that was read last.
    fn tell<K: Sink>(
        &mut self,
        lines: &[u32],
        token: PulledToken,
        sink: &mut K,
    ) -> Result<(), RunError>
        requires { K.failures sink.old < 2 ^ 64 - 1 }
        ensures reader { self.new.reader ≡ self.old.reader }
        ensures written { OnOk result (K.wrote sink.old
            (offset_line lines.now (whole_token token) (text_read self.old.reader)) sink.new) }
        ensures refused { IfErr result (IsPlacingFault K.wrote
            (offset_line lines.now (whole_token token) (text_read self.old.reader)) sink.old sink.new) }
        ensures writes { K.failures sink.new ≡ K.failures sink.old + write_fault_count result }
    {
        self.line.clear();
        match add_place(&mut self.line, lines, token, self.reader.text()) {
            Err(_) => return Err(RunError::OutOfMemory),
            Ok(()) => {}
        }
        match sink.put(self.line.as_slice()) {
            Err(_) => Err(RunError::Write),
            Ok(()) => Ok(()),
        }
    }

    /// Writes the line of the next token, or feeds more where the scan asks for it. After the end it answers the status.
    fn step<S: Source, K: Sink>(
        &mut self,
        lines: &[u32],
        source: &mut S,
        sink: &mut K,
    ) -> Result<Option<u8>, RunError>
        requires told { HasTold self.old.reader }
        requires ends { pull_finished self.old.reader.scanner ≡ false → S.ends source.old < 2 ^ 64 - 1 }
        requires reads { S.failures source.old < 2 ^ 64 - 1 }
        requires writes { K.failures sink.old < 2 ^ 64 - 1 }
        ensures { (M : Machine) (s : S) (t : K)
            → HasPlaced S.gave S.ends S.failures K.wrote K.failures M lines.now s source.old t sink.old self.old
            → PlacesOn S.gave S.ends S.failures K.wrote K.failures M lines.now s source.new t sink.new self.new
            result }
    {
        self.fed.clear();
        match self.reader.read_on(source, &mut self.fed) {
            Err(error) => Err(error),
            Ok(Read::Fed) => Ok(None),
            Ok(Read::Ended(status)) => Ok(Some(status)),
            Ok(Read::Token(token)) => match self.tell(lines, token, sink) {
                Err(error) => Err(error),
                Ok(()) => Ok(None),
            },
        }
    }
}

/// Scans a source by a machine, and writes a line for each token.
fn place_source<S: Source, K: Sink>(
    alloc: Global,
    machine: Flat,
    lines: &[u32],
    source: &mut S,
    sink: &mut K,
) -> Result<u8, RunError>
    requires ends { S.ends source.old < 2 ^ 64 - 1 }
    requires reads { S.failures source.old < 2 ^ 64 - 1 }
    requires writes { K.failures sink.old < 2 ^ 64 - 1 }
    ensures { PlacesSource S.gave S.ends S.failures K.wrote K.failures (table_machine (tables_of machine)) lines.now
        source.old source.new sink.old sink.new result }
{
    let mut scan = Placer {
        reader: TokenReader::new(alloc, machine),
        line: Vec::new(alloc),
        fed: Vec::new(alloc),
    };
    'steps: for _ in 0..u64::MAX {
        match scan.step(lines, source, sink) {
            Ok(None) => {}
            Ok(Some(status)) => return Ok(status),
            Err(error) => return Err(error),
        }
    }
    // No scan makes so many steps in any time.
    Err(RunError::OutOfMemory)
}

/// Scans the source by the specification that a text spells, writing nothing of what its actions write, and writes to the sink
/// a line for each match that is carried out: where its text begins, counted in bytes from the beginning of the input, how
/// many bytes it has, its rule, and the text. It answers the status that the scan ends with, 0 to 63. Where the scan stops at
/// a fault, the lines of the matches before it were written. A text that spells no specification, or one whose automaton
/// passes the limits, is refused, and then neither the source nor the sink is touched.
pub fn tell_places<S: Source, K: Sink>(
    alloc: Global,
    text: &[u8],
    options: Options,
    source: &mut S,
    sink: &mut K,
) -> Result<u8, ScanError>
    requires few_positions { options.limits.positions ≤ max_positions }
    requires few_states { options.limits.states ≤ max_states }
    requires few { FewCounts S.ends S.failures K.failures source.old sink.old }
    ensures told { TellsPlaces S.gave S.ends K.wrote source.old source.new sink.old sink.new options text.now result }
    ensures reads { S.failures source.new ≡ S.failures source.old + read_faults result }
    ensures writes { K.failures sink.new ≡ K.failures sink.old + write_faults result }
{
    let spec = match read_text(alloc, text, options) {
        Err(error) => return Err(ScanError::Generate(error)),
        Ok(spec) => spec,
    };
    let machine = match machine_of(alloc, &spec, options.limits) {
        Err(error) => return Err(ScanError::Generate(error)),
        Ok(machine) => machine,
    };
    let lines = match lines_of(alloc, spec.rules()) {
        Err(_) => return Err(ScanError::Generate(GenError::OutOfMemory)),
        Ok(lines) => lines,
    };
    match place_source(alloc, machine, &lines, source, sink) {
        Err(error) => Err(ScanError::Run(error)),
        Ok(status) => Ok(status),
    }
}
