//! What the matches of an input go through, told by lines.
ghost use Rattle.std.specs.Prelude.{◌≡◌, ◌+◌, ◌-◌, ◌^◌, ◌<◌, ◌≤◌, IfOk, IfErr, length, map};
ghost use Rattle.lex_semantics.specs.Acting.{Status};
ghost use Rattle.lex_semantics.specs.Limits.{max_positions, max_states};
ghost use Rattle.lex_semantics.specs.Rules.{rules_of};
ghost use Rattle.lex_semantics.specs.TableFor.{TableFor};
ghost use Rattle.lexauto_dfa.specs.Automata.{conditions_of, lists_of, machine_of};
ghost use Rattle.lexkit.specs.ScanCounts.{write_faults};
ghost use Rattle.lexscan.specs.Tokens.{Tokenised};
ghost use Rattle.lexscan_window.specs.Reads.{write_fault_count};
ghost use Rattle.lexspec.specs.Views.{conditions_in, rules_in, spec_of};
ghost use Rattle.lexspec_actions.specs.Views.{condition_of};
ghost use Rattle.lexlook_suites.specs.Told.{IsScannedBy, IsTextOf, Stops, TellsCover, TellsOf};

use crate::covering::{cover_lines, cover_of};
use crate::turns::marks_of;
use lexauto_dfa::Dfa;
use lexkit::{Options, RunError, ScanError, Sink, least_automaton, lines_of, read_text};
use lexscan::{Token, tokens};
use lexspec::{Condition, Spec};
use lextab::pack_flat;
use std::alloc::{AllocError, Global};

/// The tokens of an input, and the status that its scan ends with.
#[derive(Drop)]
pub(crate) struct Scanned {
    pub(crate) tokens: Vec<Token>,
    pub(crate) status: u8,
}

/// The names of conditions.
pub(crate) fn names_of(alloc: Global, conditions: &[Condition]) -> Result<Vec<&[u8]>, AllocError>
    ensures { IfOk result (λ names. map (λ n. n.now) names.items ≡ map (λ c. c.name) (map condition_of conditions.now)) }
{
    let mut names = Vec::new(alloc);
    for condition in conditions {
        names.push(condition.name.as_slice())?;
    }
    Ok(names)
}

/// How many rules there are.
pub(crate) fn rule_count(spec: &Spec) -> u32
    ensures { result ≡ length (rules_in (spec_of spec.now)) }
{
    spec.rules().len() as u32
}

/// How many conditions there are.
pub(crate) fn condition_count(spec: &Spec) -> u8
    ensures { result ≡ length (conditions_in (spec_of spec.now)) }
{
    spec.conditions().len() as u8
}

/// Scans an input by a specification, whose least automaton this is.
fn scan_of(alloc: Global, spec: &Spec, dfa: &Dfa, input: &[u8]) -> Result<Scanned, RunError>
    requires conditions { conditions_of dfa.now ≡ length (conditions_in (spec_of spec.now)) }
    requires table { TableFor (machine_of dfa.now (spec_of spec.now)) (spec_of spec.now) }
    ensures scanned { IfOk result (IsScannedBy (spec_of spec.now) input.now) }
    ensures stopped { IfErr result (Stops (spec_of spec.now) input.now) }
{
    let machine = match pack_flat(alloc, dfa, spec) {
        Err(_) => return Err(RunError::OutOfMemory),
        Ok(machine) => machine,
    };
    let mut list = Vec::new(alloc);
    match tokens(alloc, &machine, input, &mut list) {
        Err(error) => Err(error),
        Ok(status) => Ok(Scanned {
            tokens: list,
            status,
        }),
    }
}

/// The lines of what the turns of these tokens of an input go through.
fn text_of(
    alloc: Global,
    spec: &Spec,
    dfa: &Dfa,
    input: &[u8],
    tokens: &[Token],
) -> Result<Vec<u8>, AllocError>
    requires { conditions_of dfa.now ≡ length (conditions_in (spec_of spec.now)) }
    ensures { IfOk result (λ text. IsTextOf (spec_of spec.now) (lists_of dfa.now) input.now tokens.now text.items) }
{
    let marks = marks_of(alloc, dfa, input, tokens)?;
    let rules = rule_count(spec);
    let cover = cover_of(alloc, dfa, &marks, rules, condition_count(spec))?;
    let names = names_of(alloc, spec.conditions())?;
    let lines = lines_of(alloc, spec.rules())?;
    cover_lines(alloc, &names, &lines, rules, &cover)
}

/// Scans an input by a specification, whose least automaton this is, and writes the lines.
fn tell_of<K: Sink>(
    alloc: Global,
    spec: &Spec,
    dfa: &Dfa,
    input: &[u8],
    sink: &mut K,
) -> Result<u8, RunError>
    requires conditions { conditions_of dfa.now ≡ length (conditions_in (spec_of spec.now)) }
    requires table { TableFor (machine_of dfa.now (spec_of spec.now)) (spec_of spec.now) }
    requires writes { K.failures sink.old < 2 ^ 64 - 1 }
    ensures told { TellsOf K.wrote (spec_of spec.now) (lists_of dfa.now) input.now sink.old sink.new result }
    ensures writes { K.failures sink.new ≡ K.failures sink.old + write_fault_count result }
{
    let scanned = match scan_of(alloc, spec, dfa, input) {
        Err(error) => return Err(error),
        Ok(scanned) => scanned,
    };
    let text = match text_of(alloc, spec, dfa, input, &scanned.tokens) {
        Err(_) => return Err(RunError::OutOfMemory),
        Ok(text) => text,
    };
    match sink.put(text.as_slice()) {
        Err(_) => Err(RunError::Write),
        Ok(()) => Ok(scanned.status),
    }
}

/// Scans an input by the specification that a text spells, writing nothing of what its actions write, and then writes to the
/// sink how many states and edges of the least automaton the matches go through, in all and by rule, and the first text over
/// each edge that none goes through, of 1,000 edges at most. A match goes through what it looks at for the longest text. It
/// answers the status that the scan ends with, 0 to 63. Where the scan stops at a fault nothing is written. A text that spells
/// no specification, or one whose automaton passes the limits, is refused, and then the sink is not touched.
pub fn tell_cover<K: Sink>(
    alloc: Global,
    text: &[u8],
    options: Options,
    input: &[u8],
    sink: &mut K,
) -> Result<u8, ScanError>
    requires few_positions { options.limits.positions ≤ max_positions }
    requires few_states { options.limits.states ≤ max_states }
    requires few { K.failures sink.old < 2 ^ 64 - 1 }
    ensures told { TellsCover K.wrote sink.old sink.new options text.now input.now result }
    ensures writes { K.failures sink.new ≡ K.failures sink.old + write_faults result }
{
    let spec = match read_text(alloc, text, options) {
        Err(error) => return Err(ScanError::Generate(error)),
        Ok(spec) => spec,
    };
    let least = match least_automaton(alloc, &spec, options.limits) {
        Err(error) => return Err(ScanError::Generate(error)),
        Ok(least) => least,
    };
    match tell_of(alloc, &spec, &least.automaton, input, sink) {
        Err(error) => Err(ScanError::Run(error)),
        Ok(status) => Ok(status),
    }
}
