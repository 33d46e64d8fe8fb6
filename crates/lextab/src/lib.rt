//! Tables: the packing of an automaton with the actions of its specification. It exports what a caller needs of the rooms
//! below it too: packed tables (lextab_packed), their file (lextab_file), the trait `Machine` (lex_machine) and sinks
//! (lex_io).
//!
//! The modules, in an order for reading:
//! - `classes`: the classes of bytes that no state distinguishes.
//! - `rows`: the targets of a state, class by class, its default and its entries.
//! - `slots`: which slots are taken, a bit each, and the first place that fits.
//! - `placing`: the base of each state in turn.
//! - `filling`: the checks and the nexts.
//! - `packing`: these together.
//! - `assembling`: the conditions, rules and rows of a table.
//! - `unpacked`: for a scan the columns of a table whose states each have a row of slots of their own.
//! - `tables`: `pack`, and `pack_flat` and `into_flat` for a scan.
//! - `plain`: the automaton as it was built, with the actions of its specification, and `plain_machine`: what it
//!   answers. Tests use it alone.
//! - `laws`: an automaton has one packing, which goes as it does and keeps the limits; a worked example.
//!
//! `pack` promises the packing of the automaton, of which there is one, and that the machine of the tables is the
//! automaton's. Another packing may take its place as far as `specs/Packing` says it: readers of table files need no
//! change.
//!
//! Decided here:
//! - Classes come before rows. They are numbered in order of their first bytes, and rows are packed over classes. So a
//!   row has fewer entries.
//! - The default of a state is the target of most of its classes, of equals the smallest number.
//! - Row displacement by first fit, in order of state number: each state takes the least base at which its entries are
//!   free. With the canonical numbers of the minimal DFA that leaves no choice, so a specification has one packing, and
//!   one file.
//! - Bases without a shift: a state's row of slots is as long as there are classes, also past its last entry. So no
//!   step leaves the slots, and an engine needs no test of bounds.
//! - A scan is not packed for. Its table is seen by nobody, so each state has a row of slots of its own, and no place is
//!   searched. Its classes are neighbours by which all states go alike: they are found in one look at each row, and are
//!   some more than there need be.
//! - What is packed is said of a table. `IsPacked` speaks of the rows and slots that a file has. The steps make
//!   columns, and `IsPacking` says the same of those, with a proof that both agree.
#![tactic(auto)]

mod assembling;
mod classes;
mod filling;
mod laws;
mod packing;
mod placing;
mod plain;
mod plain_machine;
mod rows;
mod slots;
mod tables;
mod unpacked;

pub use laws::{
    examples_of_packings, one_packing, packed_step_is, packing_has_ranges, packing_of_same_moves,
    tables_step_as_packed,
};
pub use lex_io::{ByteWriter, MemorySink, Sink, ToBytes, ToWrite, WriteFault};
pub use lex_machine::{Cut, EndAction, Gist, Machine, Statement, Way};
pub use lextab_file::{
    TableError, laws_of_refusals, one_table, read_flat, read_tables, write_tables,
};
pub use lextab_packed::{Flat, Tables};
pub use plain::Plain;
pub use tables::{into_flat, pack, pack_flat};
