//! The reports on a specification and its automaton: rules that are never carried out, states that back up, and the
//! lines of these.
//!
//! The modules, in an order for reading:
//! - `writing`: texts written part by part.
//! - `useless`: rules that are never carried out (`warning: rule cannot be matched`).
//! - `warned`: a warning as a value, and its line.
//! - `merging`: the warnings of a specification, in order.
//! - `groups`: for the search: each shortest word with the states that it is the first to lead to.
//! - `words`: reads the words of groups, and adds a group.
//! - `search`: the first word that leads to each state, breadth first.
//! - `backup`: a state that backs up (flex's `-b`) as a value, and its line.
//! - `backing`: the states that back up, picked from what was found.
//!
//! It promises exactly the rules and states that the definitions name, in order, and each byte of the lines. `write_..` take no
//! memory. A search may change alone under the contract of `first_words`, which lexlook's texts of rules use too.
//!
//! Decided here:
//! - A rule is useless if no state accepts it. It is proved that then no text is taken by it, for each automaton that is
//!   right for the specification.
//! - A state backs up only if a word of two bytes or more leads to it. So the search goes over states together with how
//!   many bytes were read, counted up to two, and finds such a word also where a start leads back to itself.
//! - The words of states that back up stand in one text. A word that another one continues stands once, as its prefix.
//! - States are named by their numbers in the tables, which are canonical. So a report is the same for the same
//!   specification.
//! - Warnings are sorted by line, C code that is skipped before a rule of the same line. No other order is left, since a line has
//!   one rule at most.
#![tactic(auto)]

mod backing;
mod backup;
mod groups;
mod merging;
mod search;
mod useless;
mod warned;
mod words;
mod writing;

pub use backing::backing_up;
pub use backup::{BackUp, write_backup};
pub use groups::{Group, Groups};
pub use merging::warnings;
pub use search::{Found, first_words};
pub use useless::useless_rules;
pub use warned::{Warning, write_warnings};
pub use writing::put_all;
