//! Specifications of lex as values, and the reader of specification files. (POSIX, lex, Input Files; flex, Format of
//! the Input File.)
//!
//! The modules, in an order for reading:
//! - `rule`: a rule as a value.
//! - `spec`: a specification as a value.
//! - `subject`: the condition list and the pattern of a rule, as texts.
//! - `condition_list`: the numbers of the conditions that a rule lists.
//! - `fixed`: the length of all words of a pattern, where they have one.
//! - `cuts`: how much of a match is the text.
//! - `action_text`: where the text of an action ends.
//! - `rule_text`: a rule up to its action.
//! - `statements`: statements given to a rule, and to those that wait for them by `|`.
//! - `endings`: the end action of each condition.
//! - `skips`: what is skipped between rules.
//! - `rules_so_far`: the rules that are read so far, with one item more.
//! - `rules_section`: the whole rules section.
//! - `reading`: whole files, `read_spec`.
//! - `laws`: a file spells one specification, what passes the tests is sound; worked examples.
//!
//! `read_spec` promises the one specification that the file spells, sound by its type; what is refused spells none,
//! unless memory ran out. It tells the first faulty line of each section (`specs/FaultLines`), and line 0 just where the
//! file is too long. A part of the reader may change alone. `Spec` and `Rule` may not: automata and tables
//! are made of them.
//!
//! Decided here:
//! - The first faulty line is said by items: those before it may begin a rules section, and with the one there they may
//!   not, whatever items follow. So what the rules read so far spell is said for any items behind them
//!   (`specs/Agreeing`), and not for one text.
//! - A rule that is one too many, and a second `<<EOF>>` rule of a condition, are refused where they stand. So their
//!   own lines are reported, and the rest of the file is not looked at. `^<<EOF>>` counts as a rule with a pattern
//!   until it is refused.
//! - An action ends where what strings, comments and braces of C are says so (`specs/Items`). The code goes over the
//!   bytes once, by places (`specs/ActionSteps`), and a proof says that both find the same end.
//! - The rules section is said for readers (`specs/Items`, `specs/RuleItems`), where a `$` stands for the trailing
//!   context `\n`, and once more as the code takes it (`specs/ItemRuns`, `specs/WaitingRules`). Proofs say that both
//!   mean the same.
#![tactic(auto)]

mod action_text;
mod condition_list;
mod cuts;
mod endings;
mod fixed;
mod laws;
mod reading;
mod rule;
mod rule_text;
mod rules_section;
mod rules_so_far;
mod skips;
mod spec;
mod statements;
mod subject;

pub use laws::{
    examples_of_refused_rules, examples_of_rules, examples_of_specs, one_specification,
    sound_specifications, tested_specifications, tested_trees,
};
pub use lex_machine::Cut;
pub use lexre::{PatternError, PatternErrorKind, ReadOptions};
pub use lexspec_actions::{Condition, EndAction, Statement};
pub use lexspec_lines::{SpecError, SpecErrorKind};
pub use reading::read_spec;
pub use rule::Rule;
pub use spec::Spec;
