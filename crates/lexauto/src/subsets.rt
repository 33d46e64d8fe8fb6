//! The automaton of a specification, by subset construction.
ghost use Rattle.std.specs.Prelude.{◌≡◌, ◌<◌, ◌≤◌, ◌^◌, ℕ, length, IfOk, IsErrOf};
ghost use Rattle.lex_semantics.specs.Limits.{max_states, max_positions};
ghost use Rattle.lex_semantics.specs.Subsets.{all_positions, HasSubsets};
ghost use Rattle.lex_semantics.specs.TableFor.{TableFor};
ghost use Rattle.lex_semantics.specs.MachineLaws.{MachineLaws};
ghost use Rattle.lexspec.specs.Views.{spec_of, rules_in, conditions_in};
ghost use Rattle.lexauto.specs.Keys.{Key, At, keys_in};
ghost use Rattle.lexauto.specs.KeyPacking.{kept_in};
ghost use Rattle.lexauto.specs.Explored.{MoreThan};
ghost use Rattle.lexauto.specs.Facts.{AcceptedBy, GoOnBy};
ghost use Rattle.lexauto.specs.WordKeys.{Surveys};
ghost use Rattle.lexauto_dfa.specs.Machines.{IsDeadOrReached};
ghost use Rattle.lexauto_dfa.specs.Automata.{machine_of, states_of, conditions_of};

use crate::error::BuildError;
use crate::explore::{ExploreError, explore};
use crate::interner::KeptKey;
use crate::starts::{add_starts, dead_root};
use crate::stepping::RuleMoves;
use lexauto_dfa::{Dfa, Parts};
use lexauto_positions::count_positions;
use lexspec::Spec;
use std::alloc::Global;
use std::rc::Rc;

/// How large an automaton may become: at most 16,384 positions and 8,192 states.
#[derive(Clone, Copy, Debug, PartialEq, Eq)]
pub struct Limits {
    /// The greatest sum of the positions of all heads and trails.
    pub positions: u32,
    /// The greatest number of states, the dead state among them.
    pub states: u32,
}

/// The keys of an automaton's states, how they lead to one another, which rules they accept, and which of them go on.
#[derive(Drop)]
struct Survey {
    keys: Vec<KeptKey>,
    next: Vec<u32>,
    accepts: Vec<Rc<Vec<u32>>>,
    goes_on: Vec<bool>,
    starts: Vec<u32>,
    line_starts: Vec<u32>,
}

/// All keys that are reached from the starts of a specification.
fn explore_spec(alloc: Global, moves: &RuleMoves, limit: u32) -> Result<Survey, ExploreError>
    ensures ok { IfOk result (λ s. Surveys (spec_of moves.now.spec.now)
        (kept_in s.keys.items) s.next.items s.starts.items s.line_starts.items) }
    ensures room { IfOk result (λ s. length s.keys.items ≤ limit) }
    ensures accepts_len { IfOk result (λ s. length s.accepts.items ≡ length s.keys.items) }
    ensures accepted { IfOk result (λ s. AcceptedBy (spec_of moves.now.spec.now) (kept_in s.keys.items)
        (keys_in s.accepts.items)) }
    ensures len { IfOk result (λ s. length s.goes_on.items ≡ length s.keys.items) }
    ensures goes_on { IfOk result (λ s. GoOnBy (spec_of moves.now.spec.now) (kept_in s.keys.items) s.goes_on.items) }
    ensures too_many { IsErrOf result ExploreError.TooMany → (n : ℕ)
        → HasSubsets (spec_of moves.now.spec.now) n → limit < n }
{
    let mut table = dead_root(alloc, limit)?;
    let starts = add_starts(alloc, moves.spec, false, &mut table, limit)?;
    let line_starts = add_starts(alloc, moves.spec, true, &mut table, limit)?;
    let explored = explore(alloc, moves, table, limit)?;
    Ok(Survey {
        keys: explored.keys,
        next: explored.next,
        accepts: explored.accepts,
        goes_on: explored.goes_on,
        starts,
        line_starts,
    })
}

/// The automaton of a specification: after each word from each start it accepts the rules that fit, or the first of
/// them if no rule has REJECT, and goes on where a longer word may fit. Some word leads to each state but the dead
/// one. TooManyPositions comes exactly where the heads and trails have more positions than their limit, TooManyStates
/// only where there are more states.
pub fn build(alloc: Global, spec: &Spec, limits: Limits) -> Result<Dfa, BuildError>
    requires positions { limits.positions ≤ max_positions }
    requires states { limits.states ≤ max_states }
    ensures table { IfOk result (λ d. TableFor (machine_of d (spec_of spec.now)) (spec_of spec.now)) }
    ensures conditions { IfOk result (λ d. conditions_of d ≡ length (conditions_in (spec_of spec.now))) }
    ensures reached { IfOk result (λ d. (p : ℕ) → p < states_of d
        → IsDeadOrReached (machine_of d (spec_of spec.now)) (spec_of spec.now) p) }
    ensures laws { IfOk result (λ d. MachineLaws (machine_of d (spec_of spec.now))) }
    ensures states { IfOk result (λ d. HasSubsets (spec_of spec.now) (states_of d)) }
    ensures few_positions { IfOk result (λ d. all_positions (rules_in (spec_of spec.now)) ≤ limits.positions) }
    ensures few_states { IfOk result (λ d. states_of d ≤ limits.states) }
    ensures too_many_positions { IsErrOf result BuildError.TooManyPositions
        → limits.positions < all_positions (rules_in (spec_of spec.now)) }
    ensures refused { limits.positions < all_positions (rules_in (spec_of spec.now))
        → IsErrOf result BuildError.TooManyPositions }
    ensures too_many_states { IsErrOf result BuildError.TooManyStates → (n : ℕ)
        → HasSubsets (spec_of spec.now) n → limits.states < n }
{
    let count = match count_positions(spec.rules(), limits.positions) {
        Some(count) => count as usize,
        None => return Err(BuildError::TooManyPositions),
    };
    let moves = RuleMoves::new(alloc, spec, count)?;
    let found = explore_spec(alloc, &moves, limits.states)?;
    let parts = Parts {
        starts: found.starts,
        line_starts: found.line_starts,
        next: found.next,
        accepts: found.accepts,
        goes_on: found.goes_on,
    };
    let automaton = Dfa::new(parts);
    Ok(automaton)
}
