//! What a scan by a text goes by, with the warnings that are told before it. No table file is made of it, so its automaton
//! need not be the least one, and its tables are not packed.
ghost use Rattle.std.specs.Prelude.{◌≡◌, ◌≤◌, length, IfOk, IfErr};
ghost use Rattle.lex_semantics.specs.Limits.{max_positions, max_states};
ghost use Rattle.lexauto_dfa.specs.Automata.{machine_of, conditions_of};
ghost use Rattle.lexkit.specs.Generated.{AreWarnings, SpecRefusal};
ghost use Rattle.lexkit.specs.Ready.{IsAutomatonOf, IsReadyFor, MakesReady, MakesReadyBy};
ghost use Rattle.lexspec.specs.Views.{spec_of, skipped_in};

use crate::errors::GenError;
use crate::making::read_text;
use crate::options::Options;
use lexauto::{Dfa, Limits, OutOfMemory, build, minimise, useless_rules};
use lexauto_reports::{Warning, warnings};
use lexspec::{Spec, tested_specifications};
use lextab::{Flat, into_flat};
use std::alloc::Global;

/// What a scan by a text goes by, and what is told before it.
#[derive(Drop)]
pub struct Ready {
    /// The machine of the scan.
    pub machine: Flat,
    /// Skipped code and rules that cannot be matched, in order of line.
    pub warnings: Vec<Warning>,
}

/// How many states an automaton may have that a scan goes by as it was built. One that has more is minimised before.
const FEW_STATES: u32 = 256;

/// An automaton for a scan by a specification: the least one where it has many states. A specification whose automaton
/// passes the limits is refused.
pub(crate) fn scan_automaton(alloc: Global, spec: &Spec, limits: Limits) -> Result<Dfa, GenError>
    requires few_positions { limits.positions ≤ max_positions }
    requires few_states { limits.states ≤ max_states }
    ensures made { IfOk result (IsAutomatonOf limits (spec_of spec.now)) }
    ensures refused { IfErr result (SpecRefusal limits (spec_of spec.now)) }
{
    let automaton = match build(alloc, spec, limits) {
        Err(error) => return Err(GenError::Build(error)),
        Ok(automaton) => automaton,
    };
    if automaton.len() <= FEW_STATES {
        return Ok(automaton);
    }
    match minimise(alloc, &automaton) {
        Err(_) => Err(GenError::OutOfMemory),
        Ok(least) => Ok(least),
    }
}

/// The machine of a scan by an automaton of a specification, with its warnings.
fn ready_by(
    alloc: Global,
    spec: &Spec,
    limits: Limits,
    automaton: Dfa,
) -> Result<Ready, OutOfMemory>
    requires { IsAutomatonOf limits (spec_of spec.now) automaton }
    ensures { IfOk result (IsReadyFor limits (spec_of spec.now) (skipped_in spec.now)) }
{
    tested_specifications();
    let useless = useless_rules(alloc, spec, &automaton)?;
    let warnings = warnings(alloc, spec, &useless)?;
    let machine = into_flat(alloc, automaton, spec)?;
    Ok(Ready { machine, warnings })
}

/// Makes what a scan by a specification goes by, with its warnings.
fn ready_of(alloc: Global, spec: &Spec, limits: Limits) -> Result<Ready, GenError>
    requires few_positions { limits.positions ≤ max_positions }
    requires few_states { limits.states ≤ max_states }
    ensures { MakesReadyBy limits (spec_of spec.now) (skipped_in spec.now) result }
{
    let automaton = scan_automaton(alloc, spec, limits)?;
    match ready_by(alloc, spec, limits, automaton) {
        Err(_) => Err(GenError::OutOfMemory),
        Ok(ready) => Ok(ready),
    }
}

/// Makes what a scan by a text goes by, with the warnings of the text. It refuses the texts that `generate` refuses.
pub fn make_ready(alloc: Global, text: &[u8], options: Options) -> Result<Ready, GenError>
    requires few_positions { options.limits.positions ≤ max_positions }
    requires few_states { options.limits.states ≤ max_states }
    ensures { MakesReady options text.now result }
{
    let spec = read_text(alloc, text, options)?;
    ready_of(alloc, &spec, options.limits)
}
