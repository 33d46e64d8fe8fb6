//! Rules that are never carried out.
ghost use Rattle.std.specs.Prelude.{◌≡◌, ◌↔◌, ℕ, length, IfOk};
ghost use Rattle.lex_semantics.specs.Text.{Among, Ascending};
ghost use Rattle.lex_semantics.specs.Reports.{Useless};
ghost use Rattle.lex_semantics.specs.TableFor.{TableFor};
ghost use Rattle.lexauto_dfa.specs.Automata.{conditions_of, machine_of};
ghost use Rattle.lexspec.specs.Views.{spec_of, conditions_in};

use lexauto_dfa::{Dfa, OutOfMemory, unaccepted_rules};
use lexspec::Spec;
use std::alloc::Global;

/// The rules that are never carried out, ascending, by number in the order of the file: no word matches them, or, where
/// no rule has REJECT, each word that does matches an earlier rule. The automaton is one for the specification, as
/// built or minimised.
pub fn useless_rules(alloc: Global, spec: &Spec, dfa: &Dfa) -> Result<Vec<u32>, OutOfMemory>
    requires conditions { conditions_of dfa.now ≡ length (conditions_in (spec_of spec.now)) }
    requires table { TableFor (machine_of dfa.now (spec_of spec.now)) (spec_of spec.now) }
    ensures ascending { IfOk result (λ rules. Ascending rules.items) }
    ensures useless { IfOk result (λ rules. (i : ℕ) → Among rules.items i ↔ Useless (spec_of spec.now) i) }
{
    let useless = unaccepted_rules(alloc, dfa, spec.rules().len())?;
    Ok(useless)
}
