//! Automata of lex, by subset construction: the states are the sets of positions that words leave. The least automaton
//! is made of one by `minimise` of lexauto_dfa.
//!
//! The modules, in an order for reading:
//! - `error`: why there is no automaton for a specification.
//! - `sets`: sets of numbers, as lists and as flags, and the keys of states.
//! - `key_packing`: keys as they are kept, those of many positions as bits.
//! - `alphabet`: the letters that positions read, each but a few times.
//! - `changing`: the bytes at which what a letter reads changes.
//! - `kinds`: the bytes that the same letters have.
//! - `stepping`: how the keys of a specification lead to one another.
//! - `following`: what follows a key, and the rules that it accepts.
//! - `interner`: keys as they are kept, each once, and where they are found again.
//! - `explore`: a work list over keys, for whatever leads from one to another.
//! - `starts`: the active rules of each condition.
//! - `subsets`: `build`.
//! - `laws`: the keys that words lead to, and the tables that such keys make.
//!
//! `build` promises the automaton that accepts and goes on as the patterns' languages say, with just as many states as
//! there are subsets. It refuses only where a limit is passed or memory was. Another construction may take its place
//! under that contract, and nothing else changes.
//!
//! Decided here:
//! - A state's key is a list of numbers. The dead state's is empty. That of a start begins with 0 and has the numbers
//!   of the active rules. Any other begins with 1 and has the last positions, ascending (`KeyKind`). So a start and a
//!   set of last positions are never one state, and one table finds both. Starts with the same active rules are one
//!   state, and a start with none is the dead state.
//! - A key of many positions is kept as bits, where they take fewer numbers and read back as the key. The reading back
//!   is a test at run time, so that nothing need be known of keys.
//! - A key is found again by the upper bits of a hash of its numbers. The keys that have the same bits are chained, in
//!   1,024 rows, so no key is kept twice, and few are compared.
//! - Bytes that the same positions read are one class, named by its first byte. A state's row is worked out for the
//!   first bytes and copied for the others, and for a byte that each position that follows reads just where it reads
//!   the byte before. A byte that no position reads has no marks, and no key is made for it.
#![tactic(auto)]

mod alphabet;
mod changing;
mod error;
mod explore;
mod following;
mod interner;
mod key_packing;
mod kinds;
mod laws;
mod sets;
mod starts;
mod stepping;
mod subsets;

pub use error::BuildError;
pub use laws::{keys_of_words, one_count, rules_that_fit, tables_of_keys};
pub use lexauto_dfa::{Dfa, OutOfMemory, minimise, one_automaton};
pub use lexauto_positions::{
    count_positions, first_positions, live_positions, next_positions, one_step, one_step_of_rules,
    position_automaton, words_that_fit,
};
pub use lexauto_reports::{BackUp, backing_up, useless_rules};
pub use subsets::{Limits, build};
