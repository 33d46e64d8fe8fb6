//! Sets of code points by their names, by Unicode 15.0. (The Unicode Character Database: UAX 44; identifiers: UAX 31.)
//!
//! - `table`: general categories, scripts and three properties, and the version of Unicode that they are of.
//!   scripts/unicode/table.py writes it from Debian's package unicode-data.
//! - `reading`: the ranges of a set, by the table.
//! - `sets`: the ranges of the sets that a command line names, `ranges_of`.
//! - `definition`: the line that `lexlook utf8` writes, `definition_of`.
//!
//! That a pattern has the code points of the ranges is promised by lexlook_letters. That the ranges of a name are those of
//! Unicode is tried by scripts/unicode/asks.py, and no clause says it.
//!
//! - **The table is one text.** Its rows cost the prover nothing so.
#![tactic(auto)]

mod definition;
mod reading;
mod sets;
mod table;

pub use definition::{DefinitionError, definition_of};
pub use sets::{SetsError, ranges_of};
pub use table::UNICODE;
