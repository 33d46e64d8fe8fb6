//! Says whether two machines do the same of each match, and else shows the first of the shortest texts of which they
//! do not.

mod deeds;
mod differing;
mod examples;
mod pairs;
mod tables;

pub use deeds::{number_in, rules_after};
pub use differing::{Difference, PairSizes, tell_apart};
pub use examples::examples_of_same;
pub use tables::{Comparison, compare};
