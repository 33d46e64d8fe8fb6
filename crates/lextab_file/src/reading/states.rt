//! Reads the classes of the bytes, and the states.
ghost use Rattle.std.specs.Prelude.{◌≡◌, ◌≤◌, ◌<◌, ◌+◌, ◌&&◌, nat_lt, nat_le, IfOk, map, length};
ghost use Rattle.std.specs.Int.{w32};
ghost use Rattle.lextab_packed.specs.Checks.{none_at_0};
ghost use Rattle.lextab_packed.specs.Views.{row_of};
ghost use Rattle.lextab_file.specs.Seen.{following};
ghost use Rattle.lextab_file.specs.Reading.{many, read_class, read_accepted, above};
ghost use Rattle.lextab_file.specs.Reading.{read_row, only_if, few, read_number};
ghost use Rattle.lextab_file.specs.Views.{Gives, sizes_in};
ghost use Rattle.lex_semantics.specs.Limits.{max_classes};

use super::fields::{byte_below, long};
use super::header::Counts;
use crate::error::ReadError;
use lextab_packed::Row;
use std::alloc::Global;

/// The class of each of the 256 bytes.
pub fn class_map(alloc: Global, bytes: &[u8], classes: u32) -> Result<(Vec<u8>, &[u8]), ReadError>
    ensures { Gives (λ x. (x.0.items, x.1.now)) result (many (read_class classes) following 256 0 bytes.now) }
{
    let mut read = Vec::with_capacity(alloc, 256)?;
    let mut rest = bytes;
    for i in 0..256u32 {
        let (one, after) = byte_below(rest, classes)?;
        read.push(one)?;
        rest = after;
    }
    Ok((read, rest))
}

/// The number of a rule, from `low` on.
fn accepted_one(bytes: &[u8], rules: u32, low: u32) -> Result<(u32, &[u8]), ReadError>
    ensures gives { Gives (λ x. (x.0, x.1.now)) result (read_accepted rules low bytes.now) }
    ensures low { IfOk result (λ x. x.0 < rules) }
{
    let (number, rest) = long(bytes)?;
    if number < low || number >= rules {
        return Err(ReadError::BadField(bytes.len()));
    }
    Ok((number, rest))
}

/// The numbers of so many rules that a state accepts, ascending.
fn accepted(
    alloc: Global,
    bytes: &[u8],
    count: u32,
    rules: u32,
) -> Result<(Vec<u32>, &[u8]), ReadError>
    ensures { Gives (λ x. (x.0.items, x.1.now)) result (many (read_accepted rules) above count 0 bytes.now) }
{
    let mut read = Vec::with_capacity(alloc, (count as usize).min(bytes.len() / 4))?;
    let mut rest = bytes;
    let mut low: u32 = 0;
    for i in 0..count {
        let (one, after) = accepted_one(rest, rules, low)?;
        read.push(one)?;
        low = one + 1;
        rest = after;
    }
    Ok((read, rest))
}

/// The state that a row turns to where no slot is its own.
fn default_of(bytes: &[u8], states: u32, state: u32) -> Result<(u32, &[u8]), ReadError>
    ensures gives { Gives (λ x. (x.0, x.1.now)) result
        (only_if (λ n. nat_lt n states && none_at_0 state n) (read_number w32) bytes.now) }
{
    let (default_target, rest) = long(bytes)?;
    if default_target >= states || (state == 0 && default_target != 0) {
        return Err(ReadError::BadField(bytes.len()));
    }
    Ok((default_target, rest))
}

/// Where the slots of a row begin.
fn base_of(bytes: &[u8], counts: Counts, state: u32) -> Result<(u32, &[u8]), ReadError>
    ensures gives { Gives (λ x. (x.0, x.1.now)) result
        (only_if (λ n. nat_le (n + counts.classes) counts.slots && none_at_0 state n) (read_number w32) bytes.now) }
{
    let (base, rest) = long(bytes)?;
    if u64::from(base) + u64::from(counts.classes) > u64::from(counts.slots)
        || (state == 0 && base != 0)
    {
        return Err(ReadError::BadField(bytes.len()));
    }
    Ok((base, rest))
}

/// How many rules a row accepts.
fn count_of(bytes: &[u8], rejects: bool, state: u32) -> Result<(u32, &[u8]), ReadError>
    ensures gives { Gives (λ x. (x.0, x.1.now)) result (only_if (few rejects state) (read_number w32) bytes.now) }
{
    let (count, rest) = long(bytes)?;
    if (!rejects && count > 1) || (state == 0 && count != 0) {
        return Err(ReadError::BadField(bytes.len()));
    }
    Ok((count, rest))
}

/// A state: its default, its base, and the rules that it accepts.
#[tactic(auto, unfolding(crate::specs::Reading::read_row))]
fn row(
    alloc: Global,
    bytes: &[u8],
    counts: Counts,
    rejects: bool,
    state: u32,
) -> Result<(Row, &[u8]), ReadError>
    requires low { counts.classes ≤ max_classes }
    ensures gives { Gives (λ x. (row_of x.0, x.1.now)) result (read_row (sizes_in counts) rejects state bytes.now) }
{
    let (default_target, rest) = default_of(bytes, counts.states, state)?;
    let (base, rest) = base_of(rest, counts, state)?;
    let (count, rest) = count_of(rest, rejects, state)?;
    let (rules, rest) = accepted(alloc, rest, count, counts.rules)?;
    Ok((
        Row {
            default_target,
            base,
            rules,
        },
        rest,
    ))
}

/// The rows of the states, `counts.states` of them.
pub fn states(
    alloc: Global,
    bytes: &[u8],
    counts: Counts,
    rejects: bool,
) -> Result<(Vec<Row>, &[u8]), ReadError>
    requires { counts.classes ≤ max_classes }
    ensures len { IfOk result (λ x. length x.0.items ≡ counts.states) }
    ensures gives { Gives (λ x. (map row_of x.0.items, x.1.now)) result
        (many (read_row (sizes_in counts) rejects) following counts.states 0 bytes.now) }
{
    let mut read = Vec::with_capacity(alloc, (counts.states as usize).min(bytes.len() / 12))?;
    let mut rest = bytes;
    for i in 0..counts.states {
        let (one, after) = row(alloc, rest, counts, rejects, i)?;
        read.push(one)?;
        rest = after;
    }
    Ok((read, rest))
}
