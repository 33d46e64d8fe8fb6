//! The lines of a specification file, and its definitions section. (POSIX, lex, Definitions in lex; flex, Format of the
//! Input File.)
//!
//! The modules, in an order for reading:
//! - `lines`: lines, blanks and words, and the text without carriage returns at ends of lines.
//! - `newlines`: how many newlines stand before a place.
//! - `skipping`: blocks and comments, passed over.
//! - `skipped`: the lines where code was skipped, for the warnings.
//! - `definition`: one line of the definitions section, with the block or the comment that it opens.
//! - `declarations`: what such lines declare: conditions, names, options.
//! - `section`: the whole section, up to a line that begins with `%%`.
//! - `laws`: worked examples.
//!
//! It promises that what is answered is what the lines declare. A refusal means that they declare nothing, unless
//! memory ran out, and it names the first line that is at fault.
//!
//! A new line of the definitions section is a change of `definition` and `specs/DefinitionLines` alone, and of what it
//! declares. A new option is one of `declarations`, `specs/DefinitionLines` and `specs/Declaring`. Lines, blanks and
//! blocks are read by lexspec too, by the same functions.
//!
//! Decided here:
//! - Lines end where bstr finds a newline. A carriage return before a newline is dropped first, in one pass over the
//!   file. So no other reading of lines has to know of it.
//! - Lines of code are adjacent if their numbers are. So a blank line between two makes two warnings.
//! - What a word, a blank and a `$` are is said by lists and ends of texts. The code reads each by one loop.
#![tactic(auto)]

mod declarations;
mod definition;
mod laws;
mod lines;
mod newlines;
mod section;
mod skipped;
mod skipping;

pub use declarations::Declarations;
pub use laws::examples_of_lines;
pub use lexre_bytes::{SpecError, SpecErrorKind};
pub use lines::{
    is_all_blank, is_blank, skip_blanks, split_before, split_line, starts_blank, without_returns,
};
pub use newlines::newlines_before;
pub use section::{Section, read_section};
pub use skipped::Skipped;
pub use skipping::skip_block;
