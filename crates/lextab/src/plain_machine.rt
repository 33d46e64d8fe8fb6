//! What the automaton as it was built tells.
ghost use Rattle.std.specs.Prelude.{◌≡◌, ℕ, ◌<◌, length};
ghost use Rattle.lex_semantics.specs.MachineLaws.{MachineLaws};
ghost use Rattle.lexauto_dfa.specs.Automata.{machine_of, conditions_of};
ghost use Rattle.lexspec.specs.Views.{spec_of, conditions_in};
ghost use Rattle.lextab.specs.Plain.{plain_below, plain_laws, plain_machine, plain_states};

use crate::plain::Plain;
use lex_machine::{Cut, EndAction, Machine, Statement};
use lexauto_dfa::Dfa;
use lexspec::Spec;

impl<'a> Plain<'a> {
    /// The machine of an automaton for this specification.
    pub fn new(dfa: &'a Dfa, spec: &'a Spec) -> Plain<'a>
        requires laws { MachineLaws (machine_of dfa.now (spec_of spec.now)) }
        requires conditions { conditions_of dfa.now ≡ length (conditions_in (spec_of spec.now)) }
        ensures { plain_machine result ≡ machine_of dfa.now (spec_of spec.now) }
    {
        Plain {
            dfa,
            spec,
            rejects: spec.rejects(),
        }
    }
}

impl Machine for Plain<'_> {
    ghost machine = { λ p. plain_machine p };

    ghost states = { λ p. plain_states p };

    ghost laws = { λ p. plain_laws p };

    ghost below = { λ p. plain_below p };

    /// How many conditions there are.
    fn conditions(&self) -> usize {
        self.spec.conditions().len()
    }

    /// How many rules there are.
    fn rules(&self) -> usize {
        self.spec.rules().len()
    }

    /// The state where a match starts in a condition, at the start of a line or not.
    fn start(&self, condition: u8, line_start: bool) -> u32 {
        self.dfa.start(usize::from(condition), line_start)
    }

    /// The state after one byte more.
    fn step(&self, state: u32, byte: u8) -> u32 {
        self.dfa.next(state, byte)
    }

    /// Whether a longer text may be accepted.
    fn goes_on(&self, state: u32) -> bool {
        self.dfa.goes_on(state)
    }

    /// The rules that the state accepts.
    fn accepts(&self, state: u32) -> &[u32] {
        self.dfa.accepts(state)
    }

    /// How much of a match of a rule is the text, and what is done.
    fn rule(&self, rule: u32) -> (Cut, &[Statement]) {
        let rule = &self.spec.rules()[rule as usize];
        (rule.cut, &rule.statements)
    }

    /// What is done at the end of the input in a condition.
    fn eof(&self, condition: u8) -> &EndAction {
        let condition = &self.spec.conditions()[usize::from(condition)];
        &condition.end
    }

    /// Whether some rule has REJECT.
    fn rejects(&self) -> bool {
        self.rejects
    }
}
