//! The meaning of a scan: the words that every contract of the product is written in, and the laws over them.
//!
//! A reader has to believe what stands in `specs/`, and docs/DEFINITIONS.md reads it aloud. To read it, begin with
//! `Text`, `ByteSets`, `Tree` and `Spec`; then `Fits`, `Active` and `Rules`; then `Candidates`, `Acting` and `Run`,
//! which are the scan; then `Demand` and `Scanned`, for a scanner that sees one byte at a time; and `Machine`,
//! `MachineLaws` and `TableFor`. `Examples` and `MachineExamples` are small worked cases that a misreading of a
//! definition breaks.
//!
//! Each function here has a law as its contract, and does nothing:
//!
//! - `limits`: the limits that several crates keep to, as constants, and that these are the numbers of `specs/Limits`.
//! - `words`: words of trees and their readings.
//! - `turns`: a scan is determined, and each sound specification has one.
//! - `demand`: how much of the input the matches ask for.
//! - `knowledge`: what a scanner knows after n turns, and after one more.
//! - `tables`: a machine that is a table for a specification has its scans and its reports.
//! - `plain_program`: the slow program in the language of the specifications answers the run.
//! - `examples`: the worked cases.
//!
//! It promises these words to all rooms above. The laws and their proofs may be changed alone. A definition may not:
//! each contract that names it then says something else, and its row in docs/DEFINITIONS.md and its misreadings
//! follow.
//!
//! Decided for this room alone, but for what docs/DECISIONS.md has under Definitions: a law stands in `specs/` as a
//! name and is the contract of a function, since a theorem is proved only where a contract names it.
#![tactic(auto)]

mod demand;
mod examples;
mod knowledge;
mod limits;
mod plain_program;
mod tables;
mod turns;
mod words;

pub use demand::{
    no_gap, one_demand, one_reach, same_whatever_follows, some_demand, some_reach, stays_covered,
};
pub use examples::{
    examples_of_actions, examples_of_demand, examples_of_ends, examples_of_machines,
    examples_of_matching, examples_of_places, examples_of_reports, examples_of_same_rules,
    examples_of_soundness, examples_of_stacks,
};
pub use knowledge::{
    begins_the_run, known_after_end, known_after_match, known_after_match_at_end, known_at_first,
    known_once_ended, part_begins_the_run,
};
pub use limits::{
    MAX_CLASSES, MAX_CONDITIONS, MAX_FILE_BYTES, MAX_FIXED_LENGTH, MAX_KEPT, MAX_LITERAL_BYTES,
    MAX_POSITIONS, MAX_RULES, MAX_SLOTS, MAX_STACK, MAX_STATEMENTS, MAX_STATES, MAX_STATUS,
    limits_agree,
};
pub use plain_program::{plain_demand, plain_run};
pub use tables::{
    same_rules_answers, same_rules_scan, states_below, table_rejects, table_reports, table_scan,
};
pub use turns::{one_list, one_run, one_state, one_turn, some_list, some_run, some_state};
pub use words::{never_no_count, word_readings};
