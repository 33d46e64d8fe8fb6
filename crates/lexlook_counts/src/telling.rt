//! The counts of a scan of a source, told by lines.
ghost use Rattle.std.specs.Prelude.{◌≡◌, ◌+◌, ◌-◌, ◌^◌, ◌<◌, ◌≤◌, IfOk, IfErr, length, map};
ghost use Rattle.lex_semantics.specs.Limits.{max_positions, max_states};
ghost use Rattle.lexkit.specs.ScanCounts.{read_faults, write_faults};
ghost use Rattle.lexkit.specs.Generated.{SpecRefusal};
ghost use Rattle.lexscan.specs.Runs.{FewCounts};
ghost use Rattle.lexscan_window.specs.Reads.{read_fault_count, write_fault_count};
ghost use Rattle.lexspec.specs.Views.{conditions_in, rules_in, spec_of};
ghost use Rattle.lextab_packed.specs.FlatViews.{tables_of};
ghost use Rattle.lextab_packed.specs.Machines.{table_machine};
ghost use Rattle.lexspec_actions.specs.Views.{condition_of};
ghost use Rattle.lexlook_counts.specs.Told.{AreMadeFor, IsMadeFor, TellsCounts, TellsOf, lines_for};

use crate::counting::{Counted, Machines, count_source};
use crate::ending::ended_by;
use crate::lines::{CountForm, add_end, count_lines};
use lexkit::{
    Flat, GenError, Limits, Options, RunError, ScanError, Sink, Source, least_automaton, lines_of,
    read_text,
};
use lexspec::{Condition, Spec};
use lextab::pack_flat;
use std::alloc::{AllocError, Global};

/// The names of conditions.
fn names_of(alloc: Global, conditions: &[Condition]) -> Result<Vec<&[u8]>, AllocError>
    ensures { IfOk result (λ names. map (λ n. n.now) names.items ≡ map (λ c. c.name) (map condition_of conditions.now)) }
{
    let mut names = Vec::new(alloc);
    for condition in conditions {
        names.push(condition.name.as_slice())?;
    }
    Ok(names)
}

/// The machine of a scan by a specification.
pub(crate) fn machine_of(alloc: Global, spec: &Spec, limits: Limits) -> Result<Flat, GenError>
    requires few_positions { limits.positions ≤ max_positions }
    requires few_states { limits.states ≤ max_states }
    ensures made { IfOk result (IsMadeFor limits (spec_of spec.now)) }
    ensures refused { IfErr result (SpecRefusal limits (spec_of spec.now)) }
{
    let least = least_automaton(alloc, spec, limits)?;
    match pack_flat(alloc, &least.automaton, spec) {
        Err(_) => Err(GenError::OutOfMemory),
        Ok(machine) => Ok(machine),
    }
}

/// The same twice, for a scan and to tell how far its turns look.
fn machines_of(alloc: Global, spec: &Spec, limits: Limits) -> Result<Machines, GenError>
    requires few_positions { limits.positions ≤ max_positions }
    requires few_states { limits.states ≤ max_states }
    ensures made { IfOk result (AreMadeFor limits (spec_of spec.now)) }
    ensures refused { IfErr result (SpecRefusal limits (spec_of spec.now)) }
{
    let least = least_automaton(alloc, spec, limits)?;
    let scans = match pack_flat(alloc, &least.automaton, spec) {
        Err(_) => return Err(GenError::OutOfMemory),
        Ok(machine) => machine,
    };
    match pack_flat(alloc, &least.automaton, spec) {
        Err(_) => Err(GenError::OutOfMemory),
        Ok(looks) => Ok(Machines { scans, looks }),
    }
}

/// The lines of what was counted of a specification's scan.
fn lines_for(
    alloc: Global,
    form: CountForm,
    spec: &Spec,
    counted: &Counted,
) -> Result<Vec<u8>, AllocError>
    requires rules { length counted.now.tally.rules.items ≡ length (rules_in (spec_of spec.now)) }
    requires given_up { length counted.now.given_up.items ≡ length (rules_in (spec_of spec.now)) }
    requires conditions { length counted.now.tally.turns.items ≡ length (conditions_in (spec_of spec.now)) }
    ensures { IfOk result (λ text. text.items ≡ lines_for form (spec_of spec.now) counted.now) }
{
    let names = names_of(alloc, spec.conditions())?;
    let lines = lines_of(alloc, spec.rules())?;
    let mut text = count_lines(alloc, form, spec.rejects(), &lines, &names, counted)?;
    add_end(&mut text, form, &names, ended_by(spec, counted))?;
    Ok(text)
}

/// Counts the turns of a scan of a source by a specification, and writes the lines.
fn tell_of<S: Source, K: Sink>(
    alloc: Global,
    spec: &Spec,
    machines: Machines,
    form: CountForm,
    source: &mut S,
    sink: &mut K,
) -> Result<u8, RunError>
    requires ends { S.ends source.old < 2 ^ 64 - 1 }
    requires reads { S.failures source.old < 2 ^ 64 - 1 }
    requires writes { K.failures sink.old < 2 ^ 64 - 1 }
    ensures told { TellsOf S.gave S.ends S.failures K.wrote (table_machine (tables_of machines.scans))
        (table_machine (tables_of machines.looks)) (spec_of spec.now) form source.old source.new sink.old sink.new result }
    ensures reads { S.failures source.new ≡ S.failures source.old + read_fault_count result }
    ensures writes { K.failures sink.new ≡ K.failures sink.old + write_fault_count result }
{
    let rules = spec.rules().len();
    let conditions = spec.conditions().len();
    let counted = match count_source(alloc, machines, rules, conditions, source) {
        Err(error) => return Err(error),
        Ok(counted) => counted,
    };
    let lines = match lines_for(alloc, form, spec, &counted) {
        Err(_) => return Err(RunError::OutOfMemory),
        Ok(lines) => lines,
    };
    match sink.put(lines.as_slice()) {
        Err(_) => Err(RunError::Write),
        Ok(()) => Ok(counted.status),
    }
}

/// Scans the source by the specification that a text spells, writing nothing of what its actions write, and then writes to the
/// sink how often each rule matched, the bytes of its texts in all and the longest, how many bytes behind its texts it looked at,
/// and in how many turns the scan was in each start condition. Where some rule has REJECT, it also writes how often each rule was
/// given up by it. It answers the status that the scan ends with, 0 to 63. Where the scan stops at a fault nothing is
/// written. A text that spells no specification, or one whose automaton passes the limits, is refused, and then neither the
/// source nor the sink is touched.
pub fn tell_counts<S: Source, K: Sink>(
    alloc: Global,
    text: &[u8],
    options: Options,
    form: CountForm,
    source: &mut S,
    sink: &mut K,
) -> Result<u8, ScanError>
    requires few_positions { options.limits.positions ≤ max_positions }
    requires few_states { options.limits.states ≤ max_states }
    requires few { FewCounts S.ends S.failures K.failures source.old sink.old }
    ensures told { TellsCounts S.gave S.ends K.wrote source.old source.new sink.old sink.new options form
        text.now result }
    ensures reads { S.failures source.new ≡ S.failures source.old + read_faults result }
    ensures writes { K.failures sink.new ≡ K.failures sink.old + write_faults result }
{
    let spec = match read_text(alloc, text, options) {
        Err(error) => return Err(ScanError::Generate(error)),
        Ok(spec) => spec,
    };
    let machines = match machines_of(alloc, &spec, options.limits) {
        Err(error) => return Err(ScanError::Generate(error)),
        Ok(machines) => machines,
    };
    match tell_of(alloc, &spec, machines, form, source, sink) {
        Err(error) => Err(ScanError::Run(error)),
        Ok(status) => Ok(status),
    }
}
