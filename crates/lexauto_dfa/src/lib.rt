//! Deterministic automata over bytes, and the least one of those that accept alike. It stands on no patterns and no
//! specifications.
//!
//! The modules, in an order for reading:
//! - `memory`: the error `OutOfMemory`, of all that can fail by want of memory alone.
//! - `dfa`: the lists of an automaton, the type that keeps what holds of them, and its readers.
//! - `alike`: for each byte the first one that no state tells apart from it, as in flex's equivalence classes.
//! - `accepted`: the rules that no state accepts.
//! - `least`: the minimal DFA. Its head lists its modules: labels, letters and their sources, blocks, marked states and
//!   splits, the partition that they come to, its classes numbered, and `minimising`, which puts these together.
//! - `laws`: that an automaton of a sound specification is a machine.
//!
//! The type promises: numbers in range, a dead state 0, each other state reached, rules ascending, going on exactly
//! where a longer word is accepted. `minimise` promises the minimal DFA that accepts and goes on as the one handed in
//! after every word, with canonical numbers, of which there is just one. Its contract also says, of every specification,
//! that an automaton that is right for it is so after minimising too.
//!
//! How the minimal DFA is found may change alone, under the contract of `minimise`. What the type keeps may not:
//! `build` makes such automata, and packing, reports and pictures read them.
//!
//! Decided here:
//! - The model of an automaton is total. A number that is no byte, or of no state, leads to the dead state, which
//!   accepts nothing. So the laws of machines hold of it for all numbers.
//! - That some word leads to a state, and that the state leads on, is kept without the word: a type may keep only facts
//!   that have one possible proof. The contract of `minimise` names a word for each state again.
//! - An automaton is made of its lists by one call, which asks for all that the type keeps. Another call shows the
//!   lists.
#![tactic(auto)]

mod accepted;
mod alike;
mod dfa;
mod laws;
mod least;
mod memory;

pub use accepted::{unaccepted_rules, unset};
pub use alike::first_bytes;
pub use dfa::{Dfa, Parts};
pub use laws::automata_are_machines;
pub use least::{examples_of_least, minimise, one_automaton};
pub use memory::OutOfMemory;
