//! The file of a table (docs/TABLE-FORMAT.md): each table has one, and each file is one table's.
//!
//! The modules, in an order for reading:
//! - `error`: why bytes are no table file.
//! - `tag`: the bytes that stand for statements, and for how much of a match is the text (a cut).
//! - `version`: which version of the file rules need.
//! - `writing`: the writer. Inside it `fields`, `conditions`, `actions` and `states` write these parts.
//! - `reading`: the reader of the parts. Inside it `fields`, `header`, `conditions`, `actions`, `states` and `slots`
//!   have a part each, in the order of the file. Refusals are found here; callers call `tables`.
//! - `tables`: `read_tables`, and `read_flat` for a scan.
//! - `laws`: tables and their files are one to one, and what is no file is refused.
//!
//! It promises that what is written is the table's file, and that what is read is a table's file and all of it. A
//! refusal means that the bytes are no table's file, unless memory ran out. It is the fault of the first field from the
//! left that is not as it must be, with that field's offset.
//!
//! To change a field, a version or a refusal is to change the format, and with it lextab_packed's parts and the page of
//! the format.
//!
//! Decided here:
//! - Which states are live is not in the file. It follows from the steps, and a flag that could be wrong would be one
//!   more thing to check.
//! - Of two faults the one at the first field from the left is reported, as `specs/Reading` defines. Each field is
//!   judged when it was read, by what stands before it: each byte of the class map, a tag before its arguments, a
//!   length before its bytes, a count before what it counts, a check before its next. A field that is cut short is
//!   `Truncated`. `TrailingBytes` comes only after a whole table.
//! - An action may write 4,096 bytes of literals in all. One that is short enough by itself, but too long for what is
//!   left, is a fault of its tag and not of its length.
//! - A version has no room for additions. What a later version adds has a number of its own, and a number that is not
//!   known is refused as `BadVersion`.
#![tactic(auto)]

mod error;
mod laws;
mod reading;
mod tables;
mod tag;
mod version;
mod writing;

pub use error::TableError;
pub use laws::{examples_of_files, examples_of_refusals, laws_of_refusals, one_table};
pub use tables::{read_flat, read_tables};
pub use writing::write_tables;
