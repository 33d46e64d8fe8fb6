//! Packed tables: what they are made of, and how they go from state to state. It knows no automata and no
//! specifications, so a scan by a table file needs neither.
//!
//! The modules, in an order for reading:
//! - `parts`: the lists of which a table is made, as a file has them.
//! - `tables`: a table that keeps to all that a table file is checked for.
//! - `steps`: the state after one byte more, and the marks of targets.
//! - `alike`: the bytes of each class, as chains.
//! - `rows`: a row of 256 targets for each state.
//! - `inverse`: the inverse transitions of a table, as chains.
//! - `live`: which states are live: some text that is not empty leads from them to one that accepts.
//! - `laying`: the table of some parts with its rows, by which it is known which states are live.
//! - `passes`: the same in few passes over the parts, without rows, for most tables.
//! - `machine`: what a table answers a scanner.
//! - `kinds`: what is known of the first rule that each state accepts.
//! - `leaps`: states that at most three bytes lead away from; runs of the others are passed 16 bytes at a time.
//! - `singles`: conditions in which most bytes of a text are matches by themselves, which are dropped or copied.
//! - `predecessors`: of each state the only one that leads to it by a byte, where no other does.
//! - `mores`: the states whose first rule does yymore alone.
//! - `begun`: the states whose first rule sets a start condition and then does yymore.
//! - `flat`: a table with a row of 256 marked targets for each state, so that a step is one look-up. It is the machine
//!   of a scan.
//! - `quiet`: a flat table in which rules that do nothing but REJECT fit no text, so that their matches are not looked
//!   for.
//!
//! It promises that a table keeps to `IsTable`, and is a machine by its laws; and that the flat one is the same
//! machine. How live states are found may change alone. So may the marks of `flat`, the kinds, and what is told of
//! singles, predecessors and yymore, under the trait's contract: they are how a scan sees at a glance what a match does.
//! The parts may not: they are the fields of the file.
//!
//! Decided here:
//! - Which states are live is found backwards: from the states that accept to those that lead to them, each taken once.
//!   Of neighbouring bytes that lead from a state to one target the first alone has a link. For the machine of a scan a few
//!   passes over one byte of each class are tried first.
//! - Check and next are two columns. In the code the slots are two lists of numbers, as a step wants them. In the
//!   definitions and in the file they are pairs.
//! - A run at a state is looked at byte by byte first, since most are short. After 16 bytes it is passed in steps of 16, if
//!   few bytes lead away from the state.
//! - A flat row takes 1 KB a state, at most 8.4 MB for 8,192 states. The packed tables stay beside it, for the rules
//!   and the conditions. A target at which the machine stops is marked with what its first rule does; any other is the
//!   place of its row.
#![tactic(auto)]

mod alike;
mod begun;
mod flat;
mod inverse;
mod kinds;
mod laying;
mod leaps;
mod live;
mod machine;
mod mores;
mod parts;
mod passes;
mod predecessors;
mod quiet;
mod rows;
mod singles;
mod steps;
mod tables;

pub use flat::Flat;
pub use laying::laid_out;
pub use live::live_states;
pub use parts::{Row, TableCondition, TableParts, TableRule, may_lead};
pub use quiet::Quiet;
pub use rows::flat_rows;
pub use tables::{Tables, any_reject};
