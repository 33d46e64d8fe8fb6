//! The command line of lexlook, its help and its version.

mod args;
mod help;

pub use args::{About, Look, Subcommand, read_args};
pub use help::{write_help, write_version};
