//! Patterns of lex: trees, the reader of patterns, and where the pattern of a rule ends. (POSIX, lex, Regular
//! Expressions in lex; flex, Patterns.)
//!
//! The modules, in an order for reading:
//! - `options`: how patterns are read, as a value; the reading of intervals depends on it in `stack`.
//! - `pattern`: trees, whose parts are shared, and marked where no set stands in them.
//! - `definitions`: names with their substitutes.
//! - `bounds`: the least and the greatest length, as a value.
//! - `measures`: these lengths of a pattern.
//! - `counts`: how many positions and nodes a pattern has.
//! - `counted`: a pattern with its count of nodes.
//! - `symbols`: what a pattern is made of, as values.
//! - `braces`: what stands between braces: an interval or a name.
//! - `quotes`: texts in quotes.
//! - `lexer`: the symbol at the front of a text.
//! - `frames`: a pattern as far as it was read, as a value.
//! - `stack`: the steps over that value, by each symbol.
//! - `name_cache`: the trees of names that were read, for one file.
//! - `reader`: the reader of patterns.
//! - `cutting`: where the pattern of a rule ends, and its slash.
//! - `laws`: a text spells one tree and has one cutting; worked examples of patterns and of faults.
//!
//! It promises that the tree is sound and the one that the text spells, and that what is refused spells none. Of a text
//! without a cutting it tells the first fault from the left, and its offset (`specs/CuttingFaults`). Another
//! way to read, count or keep trees changes nothing above. The shape of `Pattern` does: lexauto_positions and lexspec
//! go over it.
//!
//! Decided here, beside what the modules' heads say:
//! - An operator is what it makes of a tree: `*`, `+`, `?` and intervals are one kind of symbol, with a mark for
//!   braces.
//! - Series, choices and texts in quotes are grouped alike: nothing is `Empty`, one tree is itself, more are one node.
#![tactic(auto)]

mod bounds;
mod braces;
mod counted;
mod counts;
mod cutting;
mod definitions;
mod frames;
mod laws;
mod lexer;
mod measures;
mod name_cache;
mod options;
mod pattern;
mod quotes;
mod reader;
mod stack;
mod symbols;

pub use bounds::Lengths;
pub use counts::positions;
pub use cutting::{Cutting, cut_pattern};
pub use definitions::{Defs, DefsError};
pub use laws::{
    examples_of_cutting_faults, examples_of_cuttings, examples_of_patterns, one_cutting, one_tree,
    readings_use_own_positions,
};
pub use lexre_bytes::{ByteSet, PatternError, PatternErrorKind};
pub use measures::lengths;
pub use name_cache::NameCache;
pub use options::ReadOptions;
pub use pattern::{Operands, Pattern};
pub use reader::{read_pattern, read_with_names};
