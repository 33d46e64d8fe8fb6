//! What the rules of lex do: start conditions, statements, and the reader of actions. (POSIX, lex, Actions in lex;
//! flex, Actions, Start Conditions.)
//!
//! The modules, in an order for reading:
//! - `condition`: a start condition as a value, and its number by its name.
//! - `statement`: what a call of the text says, and how it is put behind others in normal form.
//! - `bytes`: blanks, comments, names, numbers and strings of an action.
//! - `format`: the `%s` and `%%` of a string of printf, which `bytes` has read.
//! - `calls`: one statement, by its first word and its arguments.
//! - `legal`: which statements may stand in one action.
//! - `action`: the action of a rule, and that of an `<<EOF>>` rule.
//! - `laws`: a text spells one action, actions are legal; worked examples.
//!
//! It promises that the statements answered are those that the text spells, legal and in normal form. What is refused
//! is no action, unless memory ran out, and the first fault from the left is named.
//!
//! A step of the reader may change alone, under the contracts of `read_action` and `read_end_action`. A statement may
//! not: its meaning is in lex_semantics, its value in lex_machine, and the scanner and the table file go over all of
//! them.
//!
//! Decided here:
//! - Legality is that of the normal form. The empty literal and the empty statement are dropped first, so `REJECT;
//!   printf("");` and `exit(1); ;` are legal.
//! - What an action is stands apart from how it is read. A text spells its statements by a grammar of tokens
//!   (`specs/Actions`). The code goes byte by byte and word by word (`specs/ActionSteps`, `specs/ByteSteps`), and lemmas
//!   say that both mean the same of every text. A reader of the public contracts meets the grammar alone.
#![tactic(auto)]

mod action;
mod bytes;
mod calls;
mod condition;
mod format;
mod laws;
mod legal;
mod statement;

pub use action::{read_action, read_end_action};
pub use condition::{Condition, number_of};
pub use laws::{end_statuses, examples_of_actions, legal_actions, one_action, one_end_action};
pub use lex_machine::{EndAction, Statement};
