//! The suite of a specification: inputs that go over all edges of its automaton, as far as texts are found.
ghost use Rattle.std.specs.Prelude.{◌≡◌, ◌+◌, ◌-◌, ◌^◌, ◌<◌, ◌≤◌, ℕ, length, map, IfOk, IfErr, OnOk};
ghost use Rattle.lex_semantics.specs.Limits.{max_positions, max_states};
ghost use Rattle.lex_semantics.specs.TableFor.{TableFor};
ghost use Rattle.lexauto_dfa.specs.Automata.{conditions_of, lists_of, machine_of, states_of};
ghost use Rattle.lexspec.specs.Views.{conditions_in, spec_of};
ghost use Rattle.lexspec_actions.specs.Views.{condition_of};
ghost use Rattle.lexkit.specs.Headline.{Refusal};
ghost use Rattle.lexkit.specs.ScanCounts.{write_faults};
ghost use Rattle.lexlook_suites.specs.Gathers.{Adds, Faults, HasAllEdges, IsFirst, IsGathered, rules_by};
ghost use Rattle.lexlook_suites.specs.Inputs.{GoesOverAll};
ghost use Rattle.lexlook_suites.specs.Suites.{IsSuiteOf, SuiteMade, TellsLeft, TellsSuite};
ghost use Rattle.lexlook_suites.specs.Marking.{IsSized};
ghost use Rattle.lexlook_suites.specs.Trees.{IsStep};

use crate::covering::cover_of;
use crate::gathering::Gathered;
use crate::marks::Marks;
use crate::suite_lines::{Suite, left_lines};
use crate::telling::{condition_count, names_of, rule_count};
use crate::trees::{Tree, tree_of};
use crate::turns::start_in;
use crate::ways::{Way, Ways};
use lexauto_dfa::Dfa;
use lexkit::{
    Flat, GenError, Options, RunError, ScanError, Sink, Spec, least_automaton, read_text,
};
use lexspec::Condition;
use lextab::pack_flat;
use std::alloc::{AllocError, Global};

/// So many starts at most are gone on from: two for each condition.
const MOST_WAYS: usize = 512;

impl Gathered {
    /// Adds the inputs for a start: the way to it alone, the first text of each rule, texts at whose end a scan backs up, and texts
    /// over all edges.
    fn add_start(
        &mut self,
        alloc: Global,
        dfa: &Dfa,
        machine: &Flat,
        tree: &Tree,
        way: &Way,
        rules: u32,
    ) -> Result<(), AllocError>
        requires gathered { IsGathered (rules_by machine.now) (lists_of dfa.now) self.old }
        requires tree { (j : ℕ) → j < length tree.now.steps.items
            → IsStep (lists_of dfa.now) tree.now.start tree.now.steps.items j }
        ensures adds { OnOk result (Adds (rules_by machine.now) (lists_of dfa.now) self.old self.new) }
        ensures edges { OnOk result (IsFirst (lists_of dfa.now) way.now.text.items tree.now.start
            → HasAllEdges (rules_by machine.now) (lists_of dfa.now) self.new tree.now.steps.items 0) }
    {
        self.add_end(alloc, dfa, machine, way)?;
        self.add_rules(alloc, dfa, machine, tree, way, rules)?;
        self.add_all_backing_up(alloc, dfa, machine, tree, way)?;
        self.add_all_edges(alloc, dfa, machine, tree, way)?;
        Ok(())
    }

    /// Adds the inputs for the starts that these ways lead to, and for those that are found from there, but for the first.
    fn add_others(
        &mut self,
        alloc: Global,
        spec: &Spec,
        dfa: &Dfa,
        machine: &Flat,
        ways: &mut Ways,
    ) -> Result<(), AllocError>
        requires gathered { IsGathered (rules_by machine.now) (lists_of dfa.now) self.old }
        ensures { OnOk result (Adds (rules_by machine.now) (lists_of dfa.now) self.old self.new) }
    {
        for place in 1..MOST_WAYS {
            let Some(way) = ways.copy_of(alloc, place)? else {
                return Ok(());
            };
            let tree = tree_of(alloc, dfa, way.start(dfa))?;
            self.add_start(alloc, dfa, machine, &tree, &way, rule_count(spec))?;
            ways.add_all(alloc, dfa, spec.rules(), &tree, &way)?;
        }
        Ok(())
    }
}

/// Gathers the inputs for all starts that are found.
fn gather(alloc: Global, spec: &Spec, dfa: &Dfa, machine: &Flat) -> Result<Gathered, AllocError>
    requires { 0 < conditions_of dfa.now }
    ensures gathered { IfOk result (IsGathered (rules_by machine.now) (lists_of dfa.now)) }
    ensures all { IfOk result
        (λ g. GoesOverAll (lists_of dfa.now) (Faults (rules_by machine.now)) g.inputs.items) }
{
    let mut gathered = Gathered::none(alloc, dfa, machine)?;
    let mut ways = Ways::first(alloc)?;
    let way = Way::first(alloc);
    let tree = tree_of(alloc, dfa, start_in(dfa, 0, true))?;
    gathered.add_start(alloc, dfa, machine, &tree, &way, rule_count(spec))?;
    ways.add_all(alloc, dfa, spec.rules(), &tree, &way)?;
    gathered.add_others(alloc, spec, dfa, machine, &mut ways)?;
    Ok(gathered)
}

/// Copies of the names of conditions.
fn copied_names(alloc: Global, conditions: &[Condition]) -> Result<Vec<Vec<u8>>, AllocError>
    ensures { IfOk result
        (λ names. map (λ n. n.items) names.items ≡ map (λ c. c.name) (map condition_of conditions.now)) }
{
    let mut names = Vec::new(alloc);
    for condition in conditions {
        names.push(Vec::from_slice(alloc, &condition.name)?)?;
    }
    Ok(names)
}

/// The lines of the edges that no input goes over, by the marks of the inputs.
fn left_of(alloc: Global, spec: &Spec, dfa: &Dfa, marks: &Marks) -> Result<Vec<u8>, AllocError>
    requires size { IsSized (states_of dfa.now) marks.now }
    requires conditions { conditions_of dfa.now ≡ length (conditions_in (spec_of spec.now)) }
    ensures { IfOk result (λ left. TellsLeft (spec_of spec.now) (lists_of dfa.now) marks.now left.items) }
{
    let rules = rule_count(spec);
    let cover = cover_of(alloc, dfa, marks, rules, condition_count(spec))?;
    let names = names_of(alloc, spec.conditions())?;
    let left = left_lines(alloc, &names, &cover.missed, cover.more)?;
    Ok(left)
}

/// The suite of a specification, whose least automaton this is.
fn suite_by(alloc: Global, spec: &Spec, dfa: &Dfa) -> Result<Suite, AllocError>
    requires conditions { conditions_of dfa.now ≡ length (conditions_in (spec_of spec.now)) }
    requires table { TableFor (machine_of dfa.now (spec_of spec.now)) (spec_of spec.now) }
    ensures { IfOk result (IsSuiteOf (spec_of spec.now) (lists_of dfa.now)) }
{
    let machine = match pack_flat(alloc, dfa, spec) {
        Err(_) => return Err(AllocError),
        Ok(machine) => machine,
    };
    let gathered = gather(alloc, spec, dfa, &machine)?;
    let left = left_of(alloc, spec, dfa, &gathered.marks)?;
    let names = copied_names(alloc, spec.conditions())?;
    Ok(Suite {
        names,
        inputs: gathered.inputs,
        left,
    })
}

/// Makes the suite of the specification that a text spells. A text that spells no specification, or one whose automaton
/// passes the limits, is refused.
pub fn make_suite(alloc: Global, text: &[u8], options: Options) -> Result<Suite, GenError>
    requires few_positions { options.limits.positions ≤ max_positions }
    requires few_states { options.limits.states ≤ max_states }
    ensures made { IfOk result (SuiteMade options text.now) }
    ensures refused { IfErr result (Refusal options text.now) }
{
    let spec = read_text(alloc, text, options)?;
    let least = least_automaton(alloc, &spec, options.limits)?;
    match suite_by(alloc, &spec, &least.automaton) {
        Err(_) => Err(GenError::OutOfMemory),
        Ok(suite) => Ok(suite),
    }
}

/// Writes the lines of the suite of the specification that a text spells: under the name of each start condition its inputs,
/// each with what its scan writes and the status, and then the edges that no input goes over. A text that spells no
/// specification, or one whose automaton passes the limits, is refused, and then the sink is not touched.
pub fn tell_suite<K: Sink>(
    alloc: Global,
    text: &[u8],
    options: Options,
    sink: &mut K,
) -> Result<(), ScanError>
    requires few_positions { options.limits.positions ≤ max_positions }
    requires few_states { options.limits.states ≤ max_states }
    requires few { K.failures sink.old < 2 ^ 64 - 1 }
    ensures told { TellsSuite K.wrote sink.old sink.new options text.now result }
    ensures writes { K.failures sink.new ≡ K.failures sink.old + write_faults result }
{
    let suite = match make_suite(alloc, text, options) {
        Err(error) => return Err(ScanError::Generate(error)),
        Ok(suite) => suite,
    };
    let lines = match suite.lines(alloc) {
        Err(_) => return Err(ScanError::Generate(GenError::OutOfMemory)),
        Ok(lines) => lines,
    };
    match sink.put(lines.as_slice()) {
        Err(_) => Err(ScanError::Run(RunError::Write)),
        Ok(()) => Ok(()),
    }
}
