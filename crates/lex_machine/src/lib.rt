//! What a scanner obeys: a machine of states, the rules that these accept, and what the rules do.
//!
//! - `cut`: how much of a match is the text, where a rule has trailing context.
//! - `action`: the statements of an action and the end action, as values of the code.
//! - `machine`: the trait `Machine`: starts, steps, accepted rules, and which states go on.
//! - `glance`: what a machine may tell of a match at once: `Way`, a walk up to where it stops, and `Gist`, what the
//!   first rule there does.
//! - `copying`: copies of actions, for a table that is to own them.
//! - `laws`: a machine in which rules that do nothing but REJECT fit no text makes the same turns.
//!
//! It promises lexscan the laws of machines (`laws` and `below` of the trait), whatever the machine is. So a scan is
//! proved once for tables, for plain automata and for machines of tests, and lexscan and lexauto know nothing of each
//! other.
//!
//! How actions are copied may be changed alone. A new statement changes lexspec_actions, which reads it,
//! lexscan_window, which carries it out, and lextab_file, which writes it. What else changes with it is in
//! docs/ARCHITECTURE.md. Another kind of machine is a type above that implements the trait.
//!
//! Decided for this room alone:
//!
//! - A machine need not tell anything at a glance: `way` and `gist` may answer that nothing is known. Then a scan
//!   makes each turn by itself. Nor need it know which state leads to another (`only_before`), or which rules do yymore
//!   alone, or behind BEGIN (`does_more`, `begins_more`).
//! - A gist says what a rule does only where it keeps the whole match and each statement is ECHO, a literal or BEGIN.
//!   These change nothing but the output and the condition.
#![tactic(auto)]

mod action;
mod copying;
mod cut;
mod glance;
mod laws;
mod machine;

pub use action::{EndAction, Statement, has_reject, only_rejects};
pub use copying::{copy_end, copy_statements};
pub use cut::Cut;
pub use glance::{BegunMore, Gist, Way, are_simple};
pub use laws::{examples_of_quiet, quiet_scan};
pub use machine::Machine;
