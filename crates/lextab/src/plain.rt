//! The automaton as it was built, with the actions of its specification.
ghost use Rattle.std.specs.Prelude.{◌≡◌, ℕ, ◌<◌, length};
ghost use Rattle.lex_semantics.specs.MachineLaws.{MachineLaws, MachineLaws-prop};
ghost use Rattle.lex_semantics.specs.Spec.{rejects as some_reject};
ghost use Rattle.lexauto_dfa.specs.Automata.{machine_of, conditions_of};
ghost use Rattle.lexspec.specs.Views.{spec_of, conditions_in};

use lexauto_dfa::Dfa;
use lexspec::Spec;

/// An automaton and its specification.
#[derive(Clone, Copy)]
pub struct Plain<'a> {
    pub(crate) dfa: &'a Dfa,
    pub(crate) spec: &'a Spec,
    pub(crate) rejects: bool,
    ghost lawful: { MachineLaws (machine_of dfa.now (spec_of spec.now)) } by { MachineLaws-prop
        (machine_of dfa.now (spec_of spec.now)) },
    ghost conditions: { conditions_of dfa.now ≡ length (conditions_in (spec_of spec.now)) },
    ghost rejecting: { rejects ≡ some_reject (spec_of spec.now) },
}
