//! Makes of a specification the one that tells its matches.

mod actions;
mod ends;
mod laws;
mod lines;
mod rules;
mod tracing;

pub use laws::{tells_runs, tells_turns};
pub use tracing::traced;
