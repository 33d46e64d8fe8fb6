//! Classes of code points as patterns over the bytes of their UTF-8. (RFC 3629, section 3.)
//!
//! - `ranges`: ranges of code points.
//! - `sequence`: a sequence of ranges of bytes, and that of a piece of a range of code points.
//! - `cutting`: where a range of code points is cut into pieces.
//! - `split`: the sequences of many ranges, `sequences`.
//! - `grouping`: which sequences share a branch of a pattern.
//! - `text`: the text of a class.
//! - `spelling`: the pattern of sequences, `spell`, and how many nodes it has.
//! - `letters`: the pattern of ranges, `spell_ranges`.
//! - `complement`: the code points that ranges leave out, `others`, and the same ones by ranges that do not touch, `merged`.
//! - `laws`: worked examples of encodings, and of patterns.
//!
//! It promises that the words of the sequences are the encodings of the code points of the ranges, each in its shortest form,
//! and of no surrogate. What the ranges are does not matter: they may overlap, be empty, or go past U+10FFFF. `merged` has
//! one list of ranges for a set of code points.
//!
//! - **A piece is a box.** Where code points of one length begin and end at whole blocks of 64, each byte may be chosen by
//!   itself. So a piece is told by its two ends, and `cutting` finds the longest one at a front.
//! - **One branch for the first bytes that sequences share.** What follows these stands in parentheses, where it is more than
//!   one branch, and there it is the same with the next byte. Those that differ in the last byte alone have one class for it.
//!   A choice and a series are nodes of the tree, so the nodes are counted while the text is written.
#![tactic(auto)]

mod complement;
mod cutting;
mod grouping;
mod laws;
mod letters;
mod ranges;
mod sequence;
mod spelling;
mod split;
mod text;

pub use complement::{merged, others};
pub use laws::{examples_of_encodings, examples_of_texts};
pub use letters::spell_ranges;
pub use ranges::CodeRange;
pub use sequence::{ByteRange, Sequence};
pub use spelling::{LettersError, spell};
pub use split::sequences;
