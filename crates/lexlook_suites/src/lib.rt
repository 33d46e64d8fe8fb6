//! What the matches of an input go through: the states and edges of the least automaton, and the lines that tell it; and inputs
//! that go over the edges. It is for lexlook.
//!
//! - `marks`: marks for states and bytes, `Marks`, and those of a match that looks at a text.
//! - `turns`: the marks of all turns with a match of a scan, `marks_of`.
//! - `edges`: the states and edges of an automaton, each with the rule that it is of and whether it is walked.
//! - `shares`: how many of some states or edges are walked.
//! - `texts`: the edges that are not walked, and the first text over each.
//! - `lines`: the lines that tell these.
//! - `covering`: what is told of an automaton with marks, and all its lines.
//! - `telling`: the whole for a text and an input, `tell_cover`.
//! - `orders`: in which order the bytes are tried of which an input is made.
//! - `trees`: a search breadth first from one start, and the ways that it found, `Tree`.
//! - `ways`: texts after which a scan is in a condition, `Way`, and how more of them are found.
//! - `inputs`: the scan of a text, `Input`: what it writes, its status and its tokens.
//! - `gathering`: inputs that are kept one by one, with the marks of their turns, `Gathered`.
//! - `suite_lines`: a suite as a value, `Suite`, and its lines.
//! - `suite`: the suite of a specification, `make_suite` and `tell_suite`.
//! - `laws`: worked examples.
//!
//! It promises that a state is told as walked just if a turn of the scan comes to it as it looks for the longest text, and an edge
//! just if a turn goes by one of its bytes (`specs/Turns`). It promises the first text over each edge that is told (`specs/Texts`)
//! and each byte of the lines (`specs/CoverLines`). Of a suite it promises that each input is scanned so, that the edges from the
//! first start are gone over, and that exactly those that are left are told (`specs/Suites`). How a line looks may be changed
//! with docs/MANUAL.md, and which inputs there are under that promise.
//!
//! - **The input is held, and walked a second time.** A scan tells its tokens and not what it looked at. So the scan needs no change,
//!   and what is marked is defined by the automaton alone.
//! - **A walk ends where it is known that the rest is marked.** From which states at which places it is, stands in a table as that of
//!   lexscan's marks. So time is in proportion to the input, also where each match looks at all of the rest. A walk over 64 bytes beyond
//!   its text costs less than that.
//! - **Marks are of bytes, and edges are made of them at the end.** So a walk asks for nothing but the next state.
//! - **An edge is one of the picture**, from a state to a state. Which bytes alone were seen is not told.
//! - **A text over an edge is a first word that leads to its state, with the first byte of the edge behind it.** The words are those of
//!   the search for states that back up.
//! - **An input is scanned twice**, for its tokens and for what it writes: each is promised by a call that there is. Inputs are a few bytes.
//! - **What is promised of a suite needs no way to other conditions.** So these may be looked for freely: each input is told with what its
//!   scan does, and what its turns go through is marked by its tokens.
#![tactic(auto)]

mod covering;
mod edges;
mod gathering;
mod inputs;
mod laws;
mod lines;
mod marks;
mod orders;
mod shares;
mod suite;
mod suite_lines;
mod telling;
mod texts;
mod trees;
mod turns;
mod ways;

pub use covering::Cover;
pub use edges::{Edge, Part};
pub use inputs::Input;
pub use laws::{examples_of_cover, examples_of_suites};
pub use shares::Share;
pub use suite::{make_suite, tell_suite};
pub use suite_lines::Suite;
pub use telling::tell_cover;
pub use texts::Missed;
