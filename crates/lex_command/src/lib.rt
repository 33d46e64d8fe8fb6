//! The command lines of the programs lex and lexlook: what their words ask for, what is refused, and the help.
//!
//! It is for the two programs alone: lexkit does not stand on it, so a program in C links no reader of command lines.
//!
//! - `error`: why a command line is refused, `ArgsError`.
//! - `words`: the words that a line knows, as rows of a table, and the command that knows them.
//! - `flags`: what was met in a line: flags, values, and how patterns are read (`PatternFlags`).
//! - `job`: the line of lex. `args` reads it into a `Job`, and `laws` has worked examples of lines.
//! - `look`: the line of lexlook. `args` reads it into a `Look`, and `help` writes how the program is called, and its version.
//!
//! It promises that what is answered is what the words ask for, and that words refused by `Usage` ask for nothing
//! (`AsksFor` of `specs/CommandLine` and of `specs/LookLine`). A flag or a subcommand is a row here, with its rule in
//! specs/, and then in the program that carries it out.
//!
//! - **What words ask for is said in clap's terms**: by the program's line (`lex_app`, `lexlook_app`) and what clap's
//!   definitions say is met there. The examples are computed from both.
//! - **All that is repeated or means nothing is usage.** So are a repeated `--scan-spec`, `--scan-table` or `-o`, both scans
//!   at once, `-` as the file of a scan, and `-h`. A flag that a scan has no use for is not passed over.
//! - **What POSIX's rules for utilities allow is accepted.** Flags may be repeated and may stand behind files, and `-oFILE` is
//!   a form of `-o`. `-o -` is a file named `-`, since `-t` names standard output.
//! - **`-t` wins over `-o`, and `-n` over `-v`**, in whatever order they stand, so that no order has to be remembered.
//! - **No value stands behind a `=`**, as in `--scan-spec=FILE` and `-o=FILE`, and `--` is none beside a scan, though clap
//!   takes them.
//! - **`--help`, `-h` and `--version` of lexlook are read before clap reads the words.** So a contract can say exactly which words
//!   ask for them.
#![tactic(auto)]

mod error;
mod flags;
mod job;
mod look;
mod words;

pub use error::ArgsError;
pub use flags::PatternFlags;
pub use job::{Job, command_lines, read_args};
pub use look::{About, Look, Subcommand, read_args as read_look_args, write_help, write_version};
