//! One scan, by a specification's text or a table file.
ghost use Rattle.std.specs.Prelude.{ℕ, ◌-◌, ◌≤◌, List, nat_lt, IfErr};
ghost use Rattle.lex_semantics.specs.Machine.{rules_of_machine};
ghost use Rattle.lexspec.specs.Views.{spec_of};
ghost use Rattle.lexscan.specs.Runs.{FewCounts, FewReads, Ran, RunCounts};
ghost use Rattle.lexscan.specs.Ties.{RunHandedOn};
ghost use Rattle.lexkit.specs.Headline.{Headline, IsWithin, ScansBy, TableHeadline, TellsFault, max_reads};
ghost use Rattle.lexkit.specs.Ready.{HasMachine};
ghost use Rattle.lexkit.specs.declared.options.Options.{Options as Asked};
ghost use Rattle.lexkit.specs.ScanCounts.{ScanCounts};
ghost use Rattle.lex_semantics.specs.Limits.{max_positions, max_states};
ghost use Rattle.lex_semantics.specs.Sound.{IsSound};
ghost use Rattle.lex_semantics.specs.Spec.{Spec as Meant};
ghost use Rattle.lex_semantics.specs.TableFor.{TableFor};
ghost use Rattle.lexauto.specs.declared.subsets.Limits.{Limits as Given};
ghost use Rattle.lextab_packed.specs.FlatViews.{tables_of};
ghost use Rattle.lextab_packed.specs.Machines.{table_machine};

use crate::errors::{GenError, ScanError};
use crate::making::read_text;
use crate::options::Options;
use crate::ready::scan_automaton;
use lexauto::Limits;
use lexscan::{RunError, Source, run};
use lexspec::Spec;
use lextab::{Flat, Sink, into_flat, read_flat};
use std::alloc::Global;

/// How many reads a scan makes at most: 2^40.
pub const MAX_READS: u64 = 1_099_511_627_776;

/// Runs the scanner over a flat table. Where some of its rules do nothing but REJECT, it runs over the same table in
/// which they fit no text, which makes the same turns: so it need not look for the matches that they give up.
pub fn run_table<S: Source, K: Sink>(
    alloc: Global,
    table: &Flat,
    source: &mut S,
    sink: &mut K,
) -> Result<u8, RunError>
    requires few { FewCounts S.ends S.failures K.failures source.old sink.old }
    ensures ran { (given : List ℕ) × (out : List ℕ) × S.gave source.old given source.new × K.wrote sink.old out sink.new
        × Ran (rules_of_machine (table_machine (tables_of table.now))) given out
        (nat_lt (S.ends source.old) (S.ends source.new)) max_reads result
        × FewReads S.ends S.failures source.old source.new given max_reads }
    ensures counts { RunCounts S.ends S.failures K.failures source.old source.new sink.old sink.new result }
    ensures handed_on { RunHandedOn (K.flushed sink.new) result }
{
    if table.has_quiet_rule() {
        // Where memory for it is refused, the scan goes over the table as it is.
        if let Ok(quiet) = table.quiet(alloc) {
            return run(alloc, &quiet, source, sink, MAX_READS);
        }
    }
    run(alloc, table, source, sink, MAX_READS)
}

/// Scans the source by the specification that a text spells, and writes to the sink. It answers the status that the
/// specification ends with, 0 to 63, and takes no byte of the source that no rule asks for. A text that spells no
/// specification, or one whose automaton passes the limits, is refused, and then neither the source nor the sink is
/// touched. What was written is flushed at the end, and before a byte is asked for that the source does not have ready.
pub fn scan_spec<S: Source, K: Sink>(
    alloc: Global,
    text: &[u8],
    options: Options,
    source: &mut S,
    sink: &mut K,
) -> Result<u8, ScanError>
    requires few_positions { options.limits.positions ≤ max_positions }
    requires few_states { options.limits.states ≤ max_states }
    requires few { FewCounts S.ends S.failures K.failures source.old sink.old }
    ensures told { Headline S.gave K.wrote source.old source.new sink.old sink.new
        (nat_lt (S.ends source.old) (S.ends source.new)) (S.failures source.new - S.failures source.old)
        options text.now result }
    ensures counts { ScanCounts S.ends S.failures K.failures K.flushed source.old source.new sink.old sink.new result }
{
    let spec = match read_text(alloc, text, options) {
        Err(error) => return Err(ScanError::Generate(error)),
        Ok(spec) => spec,
    };
    scan_by(alloc, &spec, options.limits, source, sink)
}

/// Scans the source by a specification, as `scan_spec` does by its text: makes its tables, and runs the scanner over
/// them. One whose automaton passes the limits is refused, and then neither the source nor the sink is touched.
pub fn scan_by<S: Source, K: Sink>(
    alloc: Global,
    spec: &Spec,
    limits: Limits,
    source: &mut S,
    sink: &mut K,
) -> Result<u8, ScanError>
    requires few_positions { limits.positions ≤ max_positions }
    requires few_states { limits.states ≤ max_states }
    requires few { FewCounts S.ends S.failures K.failures source.old sink.old }
    ensures told { ScansBy S.gave K.wrote source.old source.new sink.old sink.new
        (nat_lt (S.ends source.old) (S.ends source.new)) (S.failures source.new - S.failures source.old)
        limits (spec_of spec.now) result }
    ensures counts { ScanCounts S.ends S.failures K.failures K.flushed source.old source.new sink.old sink.new result }
{
    let automaton = match scan_automaton(alloc, spec, limits) {
        Err(error) => return Err(ScanError::Generate(error)),
        Ok(automaton) => automaton,
    };
    let machine = match into_flat(alloc, automaton, spec) {
        Err(_) => return Err(ScanError::Generate(GenError::OutOfMemory)),
        Ok(machine) => machine,
    };
    match run_table(alloc, &machine, source, sink) {
        Err(fault) => Err(ScanError::Run(fault)),
        Ok(status) => Ok(status),
    }
}

/// Scans the source by the machine that was made ready of a text, and writes to the sink, as `scan_spec` does by the
/// text.
pub fn scan_ready<S: Source, K: Sink>(
    alloc: Global,
    machine: &Flat,
    source: &mut S,
    sink: &mut K,
) -> Result<u8, ScanError>
    requires few { FewCounts S.ends S.failures K.failures source.old sink.old }
    ensures told { (options : Asked) (text : List ℕ) → HasMachine options text machine.now
        → Headline S.gave K.wrote source.old source.new sink.old sink.new
        (nat_lt (S.ends source.old) (S.ends source.new)) (S.failures source.new - S.failures source.old)
        options text result }
    ensures counts { ScanCounts S.ends S.failures K.failures K.flushed source.old source.new sink.old sink.new result }
{
    match run_table(alloc, machine, source, sink) {
        Err(stop) => Err(ScanError::Run(stop)),
        Ok(end) => Ok(end),
    }
}

/// Scans the source by a table file, and writes to the sink. It answers the status that the table's rules end with, 0
/// to 63, and takes no byte of the source that no rule asks for. Bytes that are no table file are refused as
/// `read_tables` does, and then neither the source nor the sink is touched.
pub fn scan_table<S: Source, K: Sink>(
    alloc: Global,
    bytes: &[u8],
    source: &mut S,
    sink: &mut K,
) -> Result<u8, ScanError>
    requires few { FewCounts S.ends S.failures K.failures source.old sink.old }
    ensures told { TableHeadline S.gave K.wrote source.old source.new sink.old sink.new
        (nat_lt (S.ends source.old) (S.ends source.new)) (S.failures source.new - S.failures source.old)
        bytes.now result }
    ensures fault { IfErr result (TellsFault bytes.now) }
    ensures counts { ScanCounts S.ends S.failures K.failures K.flushed source.old source.new sink.old sink.new result }
{
    let flat = match read_flat(alloc, bytes) {
        Err(error) => return Err(ScanError::Table(error)),
        Ok(flat) => flat,
    };
    match run_table(alloc, &flat, source, sink) {
        Err(error) => Err(ScanError::Run(error)),
        Ok(answer) => Ok(answer),
    }
}
