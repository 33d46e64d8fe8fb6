//! What lexlook says of packed tables: whether two do the same, and whether an input may be cut after any newline. It is
//! for lexlook_calls, and knows no specification.
//!
//! - `same`: whether two machines do the same of each match, and else the first text of which they do not. `deeds`
//!   compares what two rules do, `pairs` searches over pairs of states, one of each machine, `differing` goes back from a
//!   pair to its text, and `tables` compares end actions first, and then matches. `examples` has worked examples.
//! - `lines`: what stands against cuts. `actions` looks at the statements of a rule, `reaching` finds the states that
//!   texts lead to, `discarding` looks whether all is discarded that is matched after a newline, `newlines` looks at what a
//!   newline leads to, `cutting` does so for each condition, and `tables` calls it for a table. `examples` has worked
//!   examples.
//!
//! It promises what is told, that no text before the one that is shown shows it, and that no obstacle stands before the one
//! that is shown. And it promises that pieces that may be scanned apart write together what the whole input does. A faster
//! search changes this room alone. Which text or obstacle is shown first, and when an input may be cut, users see
//! (docs/MANUAL.md).
//!
//! - **Rules are compared by what they do**, statement by statement, and not by what is written in the end: that is a
//!   question about all inputs. The default rule counts as one that has ECHO, for a text of a single byte. So a pair of states is
//!   looked at twice where a single byte leads there and a longer text too.
//! - **A rule without REJECT and without trailing context ends the list of those that count.** One with trailing context does
//!   not, since no law of machines says that its text fits.
//! - **Of the shortest texts one in the first condition is shown**, and then the first in byte order. The search finishes
//!   each condition for a length before the next one, and looks at a pair of states once.
//! - **The pairing of conditions is a list of numbers, and the empty list pairs each number with itself.** So one search
//!   serves names and numbers.
//! - **A cut asks that a newline leaves the scan as it was at first**: in INITIAL, with an empty stack and no text kept. It
//!   would be enough that two scans agree from there on, but this can be said of a rule. A match may go on after the newline
//!   only where nothing is done with it, and with what is matched further on (docs/DECISIONS.md).
//! - **Each condition counts, and each rule that a text of it is accepted by**, whether or not a scan comes there. The stack
//!   is not looked into: a rule that pushes and one that pops could match within each line.
#![tactic(auto)]

mod lines;
mod same;

pub use lines::{MachineSizes, Obstacle, examples_of_newlines, find_obstacle, find_obstacle_in};
pub use same::{
    Comparison, Difference, PairSizes, compare, examples_of_same, number_in, rules_after,
    tell_apart,
};
