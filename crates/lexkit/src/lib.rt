//! The scanner generator as calls: tables made of a specification, scans by its text or by a table file, and what both
//! programs report. Callers in Rattle read CALLING.md of this crate.
//!
//! - `errors`: why a scanner is not made, or a scan stops.
//! - `options`: how a specification is read, and how large its automaton may be.
//! - `counting` and `stats`: the counts of `-v`, with the length of the table file.
//! - `making`: what is made of a text: `generate`, `generate_tables`, and their steps `read_text` and `least_automaton`.
//! - `ready`: `make_ready`: what a scan by a text goes by, with its warnings.
//! - `scan`: `scan_spec`, `scan_by`, `scan_ready` and `scan_table`, by `run_table`.
//! - `laws`: one canonical file, and a scan by a file is a scan by its specification.
//! - `failure` and `faults`: what ended a program, its line on standard error and its status.
//! - `program`: the words of a command line, the files that both programs read, and how a failure is reported.
//!
//! The tokens of an input, for a parser, are made by `token` of lexscan, and exported here.
//!
//! The headline is promised here: what `scan_spec` and `scan_table` write, answer and take (`specs/Headline`), and what
//! `generate` makes (`specs/Generated`). It joins the automata of lexauto, the tables of lextab and the scans of lexscan, and
//! exports what a caller names of these. A change of what is told of a fault stays here, with docs/MANUAL.md. The calls
//! themselves are used by both programs, by lexlook_calls and by liblex_calls.
//!
//! - **What ended a program is said once**, by `Failure`, for lex and lexlook. It owns the name of a file, and `Fault`, which
//!   is written, borrows it. Out of memory inside a refusal of the specification is `lex: out of memory`, 71, with no line,
//!   since the text is not at fault.
//! - **`lex:` stands before the lines of both programs**, so that one page lists them.
//! - **States that back up are looked for where they are asked for.** That takes up to a third of the instructions, and half
//!   of the memory. So `generate_tables` makes all that `generate` does but for their report.
//! - **The contract of `scan_ready` is that of `scan_spec`** for each text of which the machine is made.
//! - **A scan needs neither the least automaton nor packed tables**: both only matter to the file. So a scan goes by the
//!   automaton as it was built, but for one of many states, whose rows would not fit the cache of a processor.
#![tactic(auto)]

mod counting;
mod errors;
mod failure;
mod faults;
mod laws;
mod making;
mod options;
mod program;
mod ready;
mod scan;
mod stats;

pub use errors::{GenError, ScanError};
pub use failure::Failure;
pub use faults::{Fault, write_fault, write_words};
pub use laws::{
    example_of_canonical_files, example_of_the_headline, file_scans, one_file, text_tokens,
};
pub use lex_semantics::{MAX_FILE_BYTES, MAX_POSITIONS, MAX_STATES};
pub use lexauto::{BackUp, BuildError, Limits};
pub use lexauto_reports::{Warning, write_backup, write_warnings};
pub use lexscan::{
    ByteReader, Candidate, FromBytes, FromRead, Match, MatchedRule, MemorySource, ReadFault,
    RunError, Scanner, Source, Token, Turn, Window, accepted, longest, run, table_tokens, texts_of,
    tokens,
};
pub use lexspec::{
    PatternError, PatternErrorKind, ReadOptions, Rule, Spec, SpecError, SpecErrorKind, read_spec,
};
pub use lextab::{
    ByteWriter, Cut, EndAction, Flat, Machine, MemorySink, Plain, Sink, Statement, TableError,
    Tables, ToBytes, ToWrite, WriteFault, read_flat, read_tables, write_tables,
};
pub use making::{
    Generated, Least, Made, generate, generate_tables, least_automaton, lines_of, read_text,
};
pub use options::Options;
pub use program::{
    MAX_TABLE_BYTES, SPEC_READ_BYTES, command_words, read_more, read_spec_file, report_failure,
};
pub use ready::{Ready, make_ready};
pub use scan::{MAX_READS, run_table, scan_by, scan_ready, scan_spec, scan_table};
pub use stats::{Stats, write_stats};
