//! The parts of which a table is made.
ghost use Rattle.std.specs.Prelude.{◌≡◌, ◌&&◌, nat_lt};
ghost use Rattle.lextab_packed.specs.Checks.{none_at_0};

use lex_machine::{Cut, EndAction, Statement};

/// Where matches start in a condition, and what is done at the end of the input.
#[derive(Drop)]
pub struct TableCondition {
    /// The state where a match starts that is not at the start of a line.
    pub start: u32,
    /// The state where a match starts at the start of a line.
    pub line_start: u32,
    /// What is done at the end of the input.
    pub end: EndAction,
}

/// How much of a match of the rule is the text, and what is done.
#[derive(Drop)]
pub struct TableRule {
    /// How much of a match is the text.
    pub cut: Cut,
    /// What is done, in normal form.
    pub statements: Vec<Statement>,
}

/// A state: the target of most byte classes, the base of its other targets, and the rules that it accepts, ascending.
#[derive(Drop)]
pub struct Row {
    /// The target of each class whose slot is not this state's.
    pub default_target: u32,
    /// The place in the slots where those of its classes begin.
    pub base: u32,
    /// The numbers of the rules that it accepts, ascending.
    pub rules: Vec<u32>,
}

/// The lists of which a table is made. A state is the number of its row, and state 0 is the dead state.
#[derive(Drop)]
pub struct TableParts {
    /// The conditions, by number.
    pub conditions: Vec<TableCondition>,
    /// The rules, by number.
    pub rules: Vec<TableRule>,
    /// How many byte classes there are, 1 to 256.
    pub classes: u32,
    /// The class of each byte.
    pub class_of: Vec<u8>,
    /// The states, by number.
    pub rows: Vec<Row>,
    /// For each slot the state whose target stands there, and 0 where it is unused.
    pub checks: Vec<u16>,
    /// For each slot the target that stands there.
    pub nexts: Vec<u16>,
}

/// Whether the slot of this state may lead to a target, where there are so many states: it is one of them, and 0 in an
/// unused slot.
pub fn may_lead(check: u32, target: u32, states: u32) -> bool
    ensures { result ≡ (nat_lt target states && none_at_0 check target) }
{
    target < states && (check != 0 || target == 0)
}
