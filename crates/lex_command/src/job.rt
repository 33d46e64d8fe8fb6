//! The command line of lex.

mod args;
mod laws;

pub(crate) use args::files_of;
pub use args::{Job, read_args};
pub use laws::command_lines;
