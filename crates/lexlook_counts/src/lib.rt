//! How often the rules of a specification match an input, and where: what is counted, and the lines that tell it. It is for lexlook.
//!
//! - `tally`: the counts of the turns so far, `Tally`, and one turn more.
//! - `walking`: walks over bytes that are held, and marks of where they lead, `FarWalk`.
//! - `looking`: how far a turn looks, and what is held of the input for that, `Looker`.
//! - `given_up`: how often the matches of each rule are given up by REJECT, `GivenUp`.
//! - `reading`: a scan that reads a source, and is asked for its tokens one by one, `TokenReader`.
//! - `counting`: the same to its end, with the counts of the turns, `count_source`.
//! - `ending`: in which condition the scan comes to the end of its input.
//! - `lines`: the lines of the counts, in columns or as JSON.
//! - `telling`: the whole for a text and a source, `tell_counts`.
//! - `places`: a line for each token, as they come, `tell_places`.
//! - `laws`: worked examples of counts, and the law that what is given up is what is rejected.
//!
//! It promises that the counts are those of all turns of the scan of the source by the specification that the text spells
//! (`specs/Counts`, `specs/Costs`, `specs/GivenUp`), and each byte of the lines (`specs/CountLines`). How a line looks may be changed with
//! docs/MANUAL.md.
//!
//! - **Tokens are asked for one by one, and none is kept.** So memory stays within the tables, the longest text and what the
//!   source has ready, however long the input is.
//! - **How far a turn looks is walked once more**, when its token is told, by a second machine of the same specification: a scanner
//!   tells tokens alone, and lends its machine to nobody. All that the turn looks at was fed by then. So what is held is what the
//!   scanner holds itself.
//! - **Where a walk leads that goes far beyond its text is marked**, in a table as lexscan has one. A mark is of a state at a place. A
//!   later walk that comes to that state there ends where the mark says. So time is in proportion to the input, also where many
//!   matches look far ahead. A walk over 64 bytes beyond its text costs less than marks.
//! - **A mark tells of bytes alone, and not of the end of the input.** So it stays true as more is fed.
//! - **What REJECT gives up is told only of files that have it**, so the output of all others stays as it was. Only there the states
//!   of a walk are kept, four bytes for each byte that a turn looks at. Matches are then tried from the longest down, and none behind
//!   the one that is taken. So it costs what the scan itself costs.
//! - **A match is given up where its action has REJECT.** Nothing may stand behind that, and nothing before it ends the scan but a fault of
//!   the stack of conditions, after which no counts are written.
//! - **A count stays at the greatest number of 64 bits.** A text with what yymore kept is counted whole, so the bytes of texts may be
//!   more than those of the input.
//! - **What has not matched or been given up comes last in columns**, since these are the lines that one looks for. As JSON each rule has its line in
//!   the order of the file.
//! - **After a fault no counts are written.** Counts of a part of the input would look like those of all.
#![tactic(auto)]

mod counting;
mod ending;
mod given_up;
mod laws;
mod lines;
mod looking;
mod places;
mod reading;
mod tally;
mod telling;
mod walking;

pub use laws::{examples_of_counts, examples_of_given_up, gives_up_rejected};
pub use lines::CountForm;
pub use places::tell_places;
pub use tally::{RuleCount, Tally};
pub use telling::tell_counts;
