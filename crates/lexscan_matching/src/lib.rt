//! Which rule a text matches, over the bytes that a scan holds or takes, and what its statements do.
//!
//! - `last_states`: looks ahead over the bytes held and those that it takes, and keeps the last two states.
//! - `pick`: finds the longest match of a turn by these, or by one more walk, and carries it out.
//! - `looking`: looks ahead with the state after each byte, where rules have REJECT.
//! - `descent`: REJECT: tries the matches from the longest down, up to the first whose action does not reject.
//! - `glanced`: for `burst` of lexscan: a match that is told by one of the last three states of its walk or by one more
//!   short walk, and what it does.
//! - `plan`: for `apart` of lexscan: what a match does whose rule has trailing context, does yymore beside simple
//!   statements, or rejects the match after them.
//! - `begun`: for `apart` too: a match whose rule sets a start condition and does yymore, as the machine tells it.
//! - `back`: a match over many bytes that an earlier match has read ahead already; the walk stops where a mark says
//!   where it leads.
//! - `front`: the longest match at the front of a text, for callers that walk a machine themselves; no scan uses it.
//!
//! It promises lexscan that the match is the machine's, over the bytes held and taken (`specs/Calls`), and that its
//! actions are carried out as the definitions say. How a match is found may be changed alone, under these records.
//!
//! Decided for this room alone:
//!
//! - There are two forms of a match. Where no rule has REJECT the last two states are kept, since mostly one of them
//!   accepts; else the bytes held are walked over once more. Where some rule has REJECT, the state after every byte is
//!   kept.
//! - A burst goes back over at most 32 bytes to find the last accepting state. Where there are more it ends, so that no
//!   byte is walked over more than a fixed number of times.
//! - A walk keeps its last two states alone. The one before them is the only one that leads to the first of them, where
//!   the machine knows that it is (`only_before`).
//! - A rule that does nothing is asked for first: its match changes three numbers, which stay in registers.
//! - What a burst asks for of a long walk is answered in two numbers (`farther_part`). Where an answer goes through
//!   memory, the compiler asks of each match twice what its rule does.
//! - Where some rule has REJECT there are no marks. Its matches are tried one after another, which may take time in
//!   the square of the text, whatever is known of walks. A machine may leave out the rules that do nothing but REJECT.
//! - A walk marks the last state on its way where a rule may fit, or that there is none, as the machine knows it
//!   (`fits_none`). In the automaton of a specification these are the states that accept. A table file that no specification
//!   makes may accept a rule whose trailing context takes the whole match, and then walks are not marked.
#![tactic(auto)]

mod back;
mod begun;
mod descent;
mod front;
mod glanced;
mod last_states;
mod looking;
mod pick;
mod plan;

pub use back::{Ahead, Settled, look};
pub use begun::{BegunMatch, begun_match};
pub use descent::descend;
pub use front::{accepted, longest};
pub use glanced::{GlancedMatch, do_gist, longest_match, names_rule, near_match, silent_part};
pub use last_states::{look_ahead_last, look_ahead_more};
pub use looking::look_ahead;
pub use pick::{LookAhead, Pick, carry_pick, near_end, walk_again};
pub use plan::{Plan, do_plan, plan_of};
