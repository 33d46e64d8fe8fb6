//! Shows for each rule of a specification the first of the shortest texts that it takes, or which rules take its texts;
//! and the first byte that the default rule copies in each condition.

mod actions;
mod copying;
mod finding;
mod laws;
mod overlapping;
mod placing;
mod starting;
mod taking;

pub use actions::{rejecting, rejects_of};
pub use copying::copied_bytes;
pub use finding::{ShownText, Word, Words, find_words};
pub use laws::examples_of_overlaps;
pub use overlapping::{Home, Overlap, find_overlaps};
