//! What is made of the text of a specification.
ghost use Rattle.std.specs.Prelude.{◌≡◌, ◌≤◌, IfOk, IfErr, map};
ghost use Rattle.lexspec.specs.Files.{SpellsSpec};
ghost use Rattle.lexspec.specs.RuleViews.{rule_of};
ghost use Rattle.lexspec.specs.Skipped.{AreSkipped};
ghost use Rattle.lexspec.specs.Views.{spec_of, skipped_in};
ghost use Rattle.lexkit.specs.Headline.{Refusal, reading};
ghost use Rattle.lexkit.specs.Generated.{lines_of, AreMadeOf, IsMadeOf, SpecRefusal};
ghost use Rattle.lexkit.specs.LeastAutomata.{IsLeastOf};
ghost use Rattle.lexauto_dfa.specs.Automata.{machine_of};
ghost use Rattle.lextab_packed.specs.Machines.{table_machine};
ghost use Rattle.lexkit.specs.Generated.{MakesBy, MakesTablesBy, Makes, MakesTables};
ghost use Rattle.lex_semantics.specs.Limits.{max_positions, max_states};

use crate::errors::GenError;
use crate::options::Options;
use crate::stats::{Stats, stats_of};
use lexauto::{BackUp, Dfa, Limits, OutOfMemory, backing_up, build, minimise, useless_rules};
use lexauto_reports::{Warning, warnings};
use lexspec::{ReadOptions, Rule, Spec, SpecError, read_spec, tested_specifications};
use lextab::{Tables, pack};
use std::alloc::{AllocError, Global};

/// What is made of a specification but for the states that back up.
#[derive(Drop)]
pub struct Made {
    /// The packed tables of its least automaton.
    pub tables: Tables,
    /// The line of each rule's pattern, from 1, in the order of the file.
    pub rule_lines: Vec<u32>,
    /// Skipped code and rules that cannot be matched, in order of line.
    pub warnings: Vec<Warning>,
    /// The counts that `-v` writes.
    pub stats: Stats,
}

/// What is made of a specification, with the states that back up.
#[derive(Drop)]
pub struct Generated {
    /// All but these.
    pub made: Made,
    /// The states that back up, ascending, each with its first word.
    pub backup: Vec<BackUp>,
}

/// The least automaton of a specification.
#[derive(Drop)]
pub struct Least {
    /// The minimal DFA, with canonical numbers.
    pub automaton: Dfa,
    /// How many states there were before.
    pub subsets: u32,
}

/// Makes tables, warnings, statistics and the report of states that back up of the specification that a text spells.
/// The file of the tables is the canonical one of the specification's rules. A text that spells none, or one whose
/// automaton passes the limits, is refused.
pub fn generate(alloc: Global, text: &[u8], options: Options) -> Result<Generated, GenError>
    requires few_positions { options.limits.positions ≤ max_positions }
    requires few_states { options.limits.states ≤ max_states }
    ensures { Makes options text.now result }
{
    let spec = read_text(alloc, text, options)?;
    generate_by(alloc, &spec, options.limits)
}

/// Makes of a text what `generate` does, but for the states that back up: they are not looked for. It refuses the same
/// texts.
pub fn generate_tables(alloc: Global, text: &[u8], options: Options) -> Result<Made, GenError>
    requires few_positions { options.limits.positions ≤ max_positions }
    requires few_states { options.limits.states ≤ max_states }
    ensures { MakesTables options text.now result }
{
    let spec = read_text(alloc, text, options)?;
    tables_by(alloc, &spec, options.limits)
}

/// Reads the specification that a text spells. A text that spells none is refused with a line and what is wrong with
/// it.
pub fn read_text(alloc: Global, text: &[u8], options: Options) -> Result<Spec, GenError>
    ensures spells { IfOk result (λ s. SpellsSpec (reading options) text.now (spec_of s)) }
    ensures skipped { IfOk result (λ s. AreSkipped text.now (skipped_in s)) }
    ensures refused { IfErr result (Refusal options text.now) }
    ensures of_text { IfErr result (λ e. (fault : SpecError) × (e ≡ GenError.Spec fault)) }
{
    let read = ReadOptions {
        fold: options.fold,
        posix: options.posix,
    };
    match read_spec(alloc, text, read) {
        Err(error) => Err(GenError::Spec(error)),
        Ok(spec) => Ok(spec),
    }
}

/// Makes all of a specification.
fn generate_by(alloc: Global, spec: &Spec, limits: Limits) -> Result<Generated, GenError>
    requires few_positions { limits.positions ≤ max_positions }
    requires few_states { limits.states ≤ max_states }
    ensures { MakesBy limits (spec_of spec.now) (skipped_in spec.now) result }
{
    let least = least_automaton(alloc, spec, limits)?;
    match all_of(alloc, spec, limits, &least) {
        Err(_) => Err(GenError::OutOfMemory),
        Ok(all) => Ok(all),
    }
}

/// Makes all of a specification but for the states that back up.
fn tables_by(alloc: Global, spec: &Spec, limits: Limits) -> Result<Made, GenError>
    requires few_positions { limits.positions ≤ max_positions }
    requires few_states { limits.states ≤ max_states }
    ensures { MakesTablesBy limits (spec_of spec.now) (skipped_in spec.now) result }
{
    let least = least_automaton(alloc, spec, limits)?;
    match made_of(alloc, spec, limits, &least) {
        Err(_) => Err(GenError::OutOfMemory),
        Ok(made) => Ok(made),
    }
}

/// Builds the automaton of a specification, and minimises it. One whose automaton passes the limits is refused.
pub fn least_automaton(alloc: Global, spec: &Spec, limits: Limits) -> Result<Least, GenError>
    requires few_positions { limits.positions ≤ max_positions }
    requires few_states { limits.states ≤ max_states }
    ensures made { IfOk result (λ l. IsLeastOf limits (spec_of spec.now) l.subsets l.automaton) }
    ensures refused { IfErr result (SpecRefusal limits (spec_of spec.now)) }
{
    let automaton = match build(alloc, spec, limits) {
        Err(error) => return Err(GenError::Build(error)),
        Ok(automaton) => automaton,
    };
    match minimise(alloc, &automaton) {
        Err(_) => Err(GenError::OutOfMemory),
        Ok(least) => Ok(Least {
            automaton: least,
            subsets: automaton.len(),
        }),
    }
}

/// The lines of rules in the file.
pub fn lines_of(alloc: Global, rules: &[Rule]) -> Result<Vec<u32>, AllocError>
    ensures { IfOk result (λ lines. lines.items ≡ lines_of (map rule_of rules.now)) }
{
    let mut lines = Vec::new(alloc);
    for rule in rules {
        lines.push(rule.line)?;
    }
    Ok(lines)
}

/// The tables of a least automaton, and the reports but for that of states that back up.
fn made_of(alloc: Global, spec: &Spec, limits: Limits, least: &Least) -> Result<Made, OutOfMemory>
    requires least { IsLeastOf limits (spec_of spec.now) least.now.subsets least.now.automaton }
    ensures made { IfOk result (AreMadeOf limits (spec_of spec.now) (skipped_in spec.now)) }
    ensures machine { IfOk result (λ m. table_machine m.tables ≡ machine_of least.now.automaton (spec_of spec.now)) }
{
    tested_specifications();
    let useless = useless_rules(alloc, spec, &least.automaton)?;
    let rule_lines = lines_of(alloc, spec.rules())?;
    let warnings = warnings(alloc, spec, &useless)?;
    let tables = pack(alloc, &least.automaton, spec)?;
    let stats = stats_of(spec, limits, least.subsets, &tables);
    Ok(Made {
        tables,
        rule_lines,
        warnings,
        stats,
    })
}

/// The tables of a least automaton, and all reports.
fn all_of(
    alloc: Global,
    spec: &Spec,
    limits: Limits,
    least: &Least,
) -> Result<Generated, OutOfMemory>
    requires least { IsLeastOf limits (spec_of spec.now) least.now.subsets least.now.automaton }
    ensures { IfOk result (IsMadeOf limits (spec_of spec.now) (skipped_in spec.now)) }
{
    let backup = backing_up(alloc, &least.automaton)?;
    let made = made_of(alloc, spec, limits, least)?;
    Ok(Generated { made, backup })
}
