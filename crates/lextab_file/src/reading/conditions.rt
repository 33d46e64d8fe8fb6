//! Reads the conditions.
ghost use Rattle.std.specs.Prelude.{◌≡◌, map};
ghost use Rattle.lex_machine.specs.Views.{end_action_of};
ghost use Rattle.lextab_packed.specs.Views.{condition_of};
ghost use Rattle.lextab_file.specs.Seen.{following};
ghost use Rattle.lextab_file.specs.Reading.{many, read_end, read_condition};
ghost use Rattle.lextab_file.specs.Views.{Gives};

use super::fields::{byte_below, long_below, long_within, text};
use crate::error::ReadError;
use lex_machine::EndAction;
use lex_semantics::{MAX_LITERAL_BYTES, MAX_STATUS};
use lextab_packed::TableCondition;
use std::alloc::Global;

/// What is done at the end of the input: what is printed, and the status, which is at most 63.
#[tactic(auto, unfolding(crate::specs::Reading::read_end))]
fn end_action(alloc: Global, bytes: &[u8]) -> Result<(EndAction, &[u8]), ReadError>
    ensures gives { Gives (λ x. (end_action_of x.0, x.1.now)) result (read_end bytes.now) }
{
    let (count, rest) = long_within(bytes, 0, MAX_LITERAL_BYTES as u32)?;
    let (print, rest) = text(alloc, rest, count)?;
    let (status, rest) = byte_below(rest, MAX_STATUS + 1)?;
    Ok((EndAction { print, status }, rest))
}

/// A condition: its two start states, each below the number of states, and its end action.
#[tactic(auto, unfolding(crate::specs::Reading::read_condition))]
fn condition(alloc: Global, bytes: &[u8], states: u32) -> Result<(TableCondition, &[u8]), ReadError>
    ensures gives { Gives (λ x. (condition_of x.0, x.1.now)) result (read_condition states bytes.now) }
{
    let (start, rest) = long_below(bytes, states)?;
    let (line_start, rest) = long_below(rest, states)?;
    let (end, rest) = end_action(alloc, rest)?;
    Ok((
        TableCondition {
            start,
            line_start,
            end,
        },
        rest,
    ))
}

/// The conditions, `count` of them, whose states are below `states`.
pub fn conditions(
    alloc: Global,
    bytes: &[u8],
    count: u32,
    states: u32,
) -> Result<(Vec<TableCondition>, &[u8]), ReadError>
    ensures { Gives (λ x. (map condition_of x.0.items, x.1.now)) result
        (many (λ i. read_condition states) following count 0 bytes.now) }
{
    let mut read = Vec::new(alloc);
    let mut rest = bytes;
    for i in 0..count {
        let (one, after) = condition(alloc, rest, states)?;
        read.push(one)?;
        rest = after;
    }
    Ok((read, rest))
}
