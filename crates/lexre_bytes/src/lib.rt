//! How bytes are written in patterns: sets of bytes, escapes and classes. (POSIX, lex, Regular Expressions in lex; Base
//! Definitions, RE Bracket Expression.) The readers of patterns, of lines and of actions stand on it.
//!
//! The modules, in an order for reading:
//! - `words`: words of 128 bits.
//! - `sets`: a set of bytes as two words of bits.
//! - `fronts`: what stands at the front of a text.
//! - `digits`: numbers in digits, up to a cap.
//! - `names`: the bytes of names.
//! - `escapes`: the byte that an escape stands for.
//! - `error`: why a text is no pattern.
//! - `refusals`: why a file is no specification.
//! - `classes`: the character classes of the POSIX locale.
//! - `class_item`: what a class is made of, as values.
//! - `brackets`: `[:name:]` and the bytes inside a class.
//! - `elements`: an element of a class: a byte, a range or a named class.
//! - `expressions`: the set of a whole class, with both cases and negation.
//! - `passing`: a class passed over without its set.
//!
//! It promises that the set which is answered is the one that the text spells, and that a refusal means that it spells
//! none. The parts that take no memory name the few faults that they answer, so none of them answers out of memory.
//!
//! A set's layout may change alone. The reasons in `error` and `refusals` may not: lines on standard error name each of
//! them.
//!
//! Decided here:
//! - What stands in a class is said by alternatives, and which byte is which symbol by a table (`specs/Lexical`).
//! - Whether `[=` begins an equivalence class depends on the first `]` or newline after it. That place is kept until it
//!   is passed, and not looked for at each bracket.
#![tactic(auto)]

mod brackets;
mod class_item;
mod classes;
mod digits;
mod elements;
mod error;
mod escapes;
mod expressions;
mod fronts;
mod names;
mod passing;
mod refusals;
mod sets;
mod words;

pub use classes::Class;
pub use digits::capped_value;
pub use error::{FaultAt, PatternError, PatternErrorKind};
pub use escapes::{escape_at, hexadecimal_at, literal_byte_at, octal_at, simple_escape};
pub use expressions::{class_at, fold_if};
pub use fronts::{skip_first, skip_word, take_up_to};
pub use names::{goes_on_name, split_name, starts_name};
pub use passing::skip_class;
pub use refusals::{SpecError, SpecErrorKind};
pub use sets::ByteSet;
