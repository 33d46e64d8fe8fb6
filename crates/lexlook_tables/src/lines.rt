//! Says whether an input may be cut after any newline, and its pieces scanned apart.

mod actions;
mod cutting;
mod discarding;
mod examples;
mod newlines;
mod reaching;
mod tables;

pub use cutting::{MachineSizes, Obstacle, find_obstacle};
pub use examples::examples_of_newlines;
pub use tables::find_obstacle_in;
