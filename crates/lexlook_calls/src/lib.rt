//! What the program lexlook calls: what is written for each of its subcommands, of the text of a specification or the bytes
//! of a file.
//!
//! - `error`: why nothing is shown, or not all, and how the program reports it.
//! - `labels`: what conditions, rules and texts are called in the lines.
//! - `sides`: what a file stands for that is compared or cut, a specification or a table file.
//! - `picture`: the picture of the least automaton, `draw`.
//! - `same`: whether two files do the same, `tell_same`. `naming` pairs their conditions, and `telling` makes the line.
//! - `lines`: what stands against cuts of an input at its newlines, `tell_lines`. `reasons` has by which of its statements a
//!   rule does.
//! - `words`: the texts that rules take, `tell_words`.
//! - `overlaps`: the pairs of rules that fit one text with the same length, `tell_overlaps`.
//! - `header`: the rules as constants of a program, `tell_header`.
//! - `tracing`: the lines of the matches of a scan, `trace`.
//! - `laws`: a specification has one picture, and files that do the same scan alike; worked examples of headers.
//!
//! Each call promises the bytes that it writes, or after a fault a prefix of them, and that a refused file leaves the sink
//! as it was. What is found is promised by lexlook_specs and lexlook_tables, what is built by lexkit. The words of a line are
//! in specs/, and stand in docs/MANUAL.md too.
//!
//! - **A file is a table file if it begins with `LEXTAB` and a byte that is 0.** The version of a table file begins with that
//!   byte, and in a specification it may not stand there. So no flag has to say what a file is.
//! - **Conditions are paired by names where there are names.** Their order is that of their lines, and to move a line should
//!   change nothing. A table file has no names.
//! - **Table files of the same bytes do the same, and the reverse does not hold.** `a|b ECHO;` does the same as the two rules
//!   `a ECHO;` and `b ECHO;`. The table file has a rule more for these, since it keeps the rules by their numbers.
//! - **A constant has a word before the name of its rule**, and another one before a line. So a name may be a keyword, a macro of C or
//!   the name of a token in the parser, and no constant is told twice. What rules of one name have in common is told by numbers, since a
//!   scan tells numbers.
//! - **The lines of matches are of texts.** flex's `-d` shows all of a match where a rule has trailing context; here it is its
//!   text, as in an action. The status is that of the scan.
#![tactic(auto)]

mod error;
mod header;
mod labels;
mod laws;
mod lines;
mod overlaps;
mod picture;
mod reasons;
mod same;
mod sides;
mod tracing;
mod words;

pub use error::LookError;
pub use header::{Language, tell_header};
pub use laws::{equal_are_same, examples_of_headers, one_picture, same_scan_alike};
pub use lines::tell_lines;
pub use overlaps::tell_overlaps;
pub use picture::draw;
pub use same::{Given, tell_same};
pub use sides::is_table_file;
pub use tracing::trace;
pub use words::tell_words;
