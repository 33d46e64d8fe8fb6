//! The minimal DFA, by Hopcroft's partition refinement in which the smaller half of a block waits, with canonical
//! numbers.
//!
//! The modules, in an order for reading:
//! - `labels`: a label for each list of accepted rules, the first state that has the list.
//! - `sources`: where the states go by one letter, with chains of the states that go to one state.
//! - `letters`: such a letter for each byte that is the first by which all states go alike.
//! - `blocks`: the states in an order in which each block is a stretch, its marked states first.
//! - `marking`: marks the states that go to some targets by a letter.
//! - `splitting`: splits each block with marks. The smaller piece waits as a new block.
//! - `predecessors`: whether none, one or more states go to a state, by whatever letter.
//! - `refining`: takes the waiting blocks one after another.
//! - `partition`: the first blocks by the labels, and of them the coarsest partition.
//! - `futures`: these together: states are in one class exactly if they have equal futures.
//! - `numbering`: numbers the classes as they are called.
//! - `tables`, `interleaving`, `minimising`: the automaton of them.
//! - `laws`: that there is one such automaton, and worked examples.
//!
//! Decided here:
//! - A new block always waits. If the old block waited it still does, under its own number. So no flags say which
//!   blocks wait.
//! - The labels are one more letter, so the first blocks are made by cutting too.
//! - A state that is alone in its block is not marked, since its block cannot be cut. So marking promises that a state
//!   is marked or alone. The cut by the marks is the cut by the states that were to be marked.
//! - Where each state that goes to a splitter is alone in its block, the letters that are left cut nothing, so that
//!   round ends. Where more than one go to a state no list of them is kept, and the letters are tried.
//! - A letter by which no state goes to a splitter is passed over.
//! - At first every block waits but the one that is left of the block of all states. Once the others have cut, it would
//!   cut nothing.
//! - The letters are only the bytes that are the first by which all states go alike. A byte separates two states just
//!   where each byte that goes alike does, so the classes are the same.
//! - Accepting alike is asked of every condition number. One that does not exist starts in the dead state, and a word
//!   after that accepts nothing. So the statement needs no premise.

mod blocks;
mod futures;
mod interleaving;
mod labels;
mod laws;
mod letters;
mod marking;
mod minimising;
mod numbering;
mod partition;
mod predecessors;
mod refining;
mod sources;
mod splitting;
mod tables;

pub use laws::{examples_of_least, one_automaton};
pub use minimising::minimise;
