//! What stands in the text of a specification, also in one that is at fault: its definitions, the pieces of its patterns, what
//! it declares, and the word of an action, a condition list or a line of options that is at fault.
//!
//! - `definitions`: the lines of a text, and which of them define and declare.
//! - `pieces`: classes, texts in quotes and other pieces of a pattern, as they stand, and what follows the pattern.
//! - `names`: the words of a text, and which of them is nearest to a name.
//! - `known`: the names that a text declares, and those of statements and options.
//! - `naming`: where the conditions that a text declares stand, and its definitions, and which is declared twice.
//! - `scan`: the first name of a text that is not among some words, outside of strings and comments.
//! - `opened`: where what has no end was opened.
//! - `formats`: where the format of a printf has what is not read.
//! - `spots`: where in a line the word is that is at fault.
//! - `laws`: worked examples.
//!
//! It promises what its definitions say of any text, and asks no reader: what is a specification lexspec says. It is for
//! lexlook_check alone.
//!
//! - **A name is near another by the bytes that they have alike**, in front and at the end, where letters stand for both cases.
//!   Half of the longer one is alike at least. So a letter that is missing, doubled or changed is forgiven.
//! - **The word that is told of an action is the first that has no meaning in any**, or that of a statement which a fault of
//!   its kind is of. Of words that are known alone the format of a printf is looked at, and not how they follow each other.
#![tactic(auto)]

mod definitions;
mod formats;
mod known;
mod laws;
mod names;
mod naming;
mod opened;
mod pieces;
mod scan;
mod spots;

pub use definitions::{Line, LineKind, lines_of, section_lines};
pub use known::{CLASSES, KnownNames, OPTIONS, STATEMENTS, names_of};
pub use laws::{examples_of_names, examples_of_pieces, examples_of_spots};
pub use names::{has_word, nearest, split_word};
pub use naming::{DeclaredName, declared_again, declared_conditions, defined_names, first_named};
pub use pieces::{Piece, behind_pattern, pieces_of};
pub use spots::{Spot, prints_alone, spot_of};
