//! What packed tables tell a scanner.
ghost use Rattle.lextab_packed.specs.Machines.{below_of, laws_of, table_machine, table_states};

use crate::steps::target;
use crate::tables::Tables;
use lex_machine::{Cut, EndAction, Machine, Statement};

impl Machine for Tables {
    ghost machine = { λ t. table_machine t };

    ghost states = { λ t. table_states t };

    ghost laws = { λ t. laws_of t };

    ghost below = { λ t. below_of t };

    /// How many conditions there are.
    fn conditions(&self) -> usize {
        self.parts.conditions.len()
    }

    /// How many rules there are.
    fn rules(&self) -> usize {
        self.parts.rules.len()
    }

    /// The state where a match starts in a condition, at the start of a line or not.
    fn start(&self, condition: u8, line_start: bool) -> u32 {
        let condition = &self.parts.conditions[usize::from(condition)];
        if line_start {
            condition.line_start
        } else {
            condition.start
        }
    }

    /// The state after one byte more, by its slot or the default.
    fn step(&self, state: u32, byte: u8) -> u32 {
        target(&self.parts, state, byte)
    }

    /// Whether a longer text may be accepted.
    fn goes_on(&self, state: u32) -> bool {
        self.goes_on[state as usize]
    }

    /// The rules that the state accepts.
    fn accepts(&self, state: u32) -> &[u32] {
        &self.parts.rows[state as usize].rules
    }

    /// How much of a match of a rule is the text, and what is done.
    fn rule(&self, rule: u32) -> (Cut, &[Statement]) {
        let rule = &self.parts.rules[rule as usize];
        (rule.cut, &rule.statements)
    }

    /// What is done at the end of the input in a condition.
    fn eof(&self, condition: u8) -> &EndAction {
        &self.parts.conditions[usize::from(condition)].end
    }

    /// Whether some rule has REJECT.
    fn rejects(&self) -> bool {
        self.rejects
    }
}
