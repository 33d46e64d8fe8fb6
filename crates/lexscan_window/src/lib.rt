//! What a scan holds: the bytes ahead, the stack of start conditions, its source and its sink. And what the statements
//! of an action do.
//!
//! - `error`: why a turn is refused.
//! - `matched`: what a turn has matched.
//! - `window`: the bytes held, in a buffer that is used up from the front.
//! - `glimpse`: a copy of the bytes that a glance looks at.
//! - `walk`: takes bytes into the window as long as a machine asks for them.
//! - `stack`: the stack of start conditions (flex's `yy_push_state` and `yy_pop_state`), for `act`.
//! - `state`: what a scanner keeps beside source and sink: what is known of the source, the place of the next match, and
//!   what actions left.
//! - `path`: the state after each byte of a match.
//! - `intake`: the source and the sink, each with what is known of its failures.
//! - `tie`: the sink is flushed before a read that may wait.
//! - `reading`: bytes are taken into the window.
//! - `act`: the statements of a rule are carried out.
//! - `memo`: the marks: pairs of a place and a state, and where a walk from there leads.
//! - `cell`: a few marks of one place, of walks that lead to no match. `known_walk`: the mark of a walk that leads to one.
//! - `laws`: worked examples of marks.
//! - `waiting`: a source over what is left of earlier pieces and the new piece, for scans by pieces.
//!
//! It promises lexscan_matching and lexscan which bytes were taken, held and written (`specs/Takings`, `Walks`), and
//! what a statement does (`Acts`). How the window grows and how the marks are laid out may be changed alone.
//!
//! Decided for this room alone:
//!
//! - Room for a byte, and for its state, is made before the byte is read: out of memory loses no byte. A full buffer
//!   grows, or its bytes move to its start where as many were dropped as are held.
//! - The marks are like a hash table: a row for each place, with room for as many states as failed there, in cells of
//!   four. Where a row is full the next table has half the rows, each twice as long, at places twice as far apart, and
//!   takes no more memory. Eight cells at most are looked at for a state, from one on that its number tells. Those of walks that lead to a match stand in a table of the same shape, one to a cell.
//! - A mark that is lost costs time alone: a state above 65,535 is not marked, and where memory for the marks is refused
//!   a scan goes on without them.
#![tactic(auto)]

mod act;
mod cell;
mod error;
mod glimpse;
mod intake;
mod known_walk;
mod laws;
mod matched;
mod memo;
mod path;
mod reading;
mod stack;
mod state;
mod tie;
mod waiting;
mod walk;
mod window;

pub use act::{ActionFlow, ActionState, Finish, carry_out, put};
pub use error::RunError;
pub use intake::{Intake, Outlet};
pub use laws::examples_of_marks;
pub use matched::{Candidate, Match, MatchedRule};
pub use memo::{Mark, Memo};
pub use path::StatePath;
pub use reading::{fetch, fill};
pub use stack::Stack;
pub use state::{Reading, State, TextPlace};
pub use tie::flush;
pub use waiting::Waiting;
pub use walk::{Stop, Walk};
pub use window::Window;
