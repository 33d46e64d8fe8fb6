//! The names of rules, by which a parser knows the kinds of its tokens. It is for lexlook_calls, which writes them as constants of a
//! program, and for liblex_calls, which tells them to programs.
//!
//! - `naming`: the name of a rule, by what it does (`rule_name`).
//! - `laws`: worked examples of names.
//!
//! It promises that a name is answered just where the definition gives one (`specs/RuleNames`). No name is answered as an empty text,
//! which is none.
//!
//! Decided here:
//!
//! - **A rule is named by what it writes**, and not by its pattern or its place. So a rule that is put before it changes no name, and the
//!   table file tells names too, since it has what rules do.
//! - **Of the first literal the first line counts.** Literals that stand side by side are one in normal form, so no name can depend on
//!   how they were cut. `puts` ends a line, and so the first `puts` of several names the rule.
//! - **What is no name as in C is none.** No sign of it is changed, since two rules could have one name then that they were not given.
#![tactic(auto)]

mod laws;
mod naming;

pub use laws::examples_of_names;
pub use naming::rule_name;
