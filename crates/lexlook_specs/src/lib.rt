//! What lexlook shows of a specification: the picture of its automaton, a line for each match, the texts of its rules. It
//! is for lexlook_calls, and reads and writes no file.
//!
//! - `picture`: the picture of an automaton, in the language DOT of Graphviz. `adding` appends to texts, `classes` writes a
//!   set of bytes, `edges` the edges of a state, `nodes` starts and states, `writing` the whole, and `error` says why not.
//! - `trace`: of a specification the one that writes a line for each match. `lines` and `actions` put the line before what
//!   steers, `rules` and `ends` do so for rules and end actions, `tracing` makes it all, and `laws` says that it tells.
//! - `words`: for each rule the first of the shortest texts that it takes. `actions` makes an automaton possible that accepts
//!   all rules that fit, `placing` and `taking` find each rule's word, `starting` its condition, `copying` the default
//!   rule's bytes, and `finding` puts these together. `overlapping` finds the pairs of rules that fit one text with the
//!   same length, and `laws` has an example of these.
//!
//! It promises each byte of a picture, that the made specification goes as the one handed in and writes its lines, and
//! that no text before the one that is shown is taken. How a picture looks is in `specs/Pictures` and `specs/Classes`.
//!
//! - **A class is defined byte by byte.** What a byte adds depends on its two neighbours alone. A set that is mostly full is
//!   written by what it lacks: the count decides, since an automaton knows no patterns.
//! - **One edge for each target, at the first byte that leads there.** So the order of edges needs no rule of its own.
//! - **The text of a condition and of a state is made in memory, and put in one call.** Where memory runs out between two
//!   states, a prefix was written, as after a write fault.
//! - **A specification is made that writes the lines**, in place of a scanner that does. So what is proved of scans holds of
//!   it. The default rule becomes a rule. Without room for that it is refused: `TooManyRules` at line 0, or `TooLong`.
//! - **The automaton for texts is that of a specification in which each action is REJECT**, so no second builder is needed.
//!   Shorter texts come first, then those before in byte order, and only then the condition. A text has its trailing context.
//! - **A rule that takes no text is shown with all the rules that take its texts**: with the first alone, a rule whose texts
//!   two others share would seem to be a part of one.
#![tactic(auto)]

mod picture;
mod trace;
mod words;

pub use picture::{PictureError, add, add_number, add_string, write_picture};
pub use trace::{tells_runs, tells_turns, traced};
pub use words::{
    Home, Overlap, ShownText, Word, Words, copied_bytes, examples_of_overlaps, find_overlaps,
    find_words, rejecting, rejects_of,
};
