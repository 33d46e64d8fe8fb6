//! Reads the slots.
ghost use Rattle.std.specs.Prelude.{◌≡◌, ◌+◌, ◌<◌, ◌≤◌, ◌&&◌, nat_lt, map, length, slice_index, IfOk};
ghost use Rattle.std.specs.Int.{w32};
ghost use Rattle.lex_semantics.specs.Limits.{max_states};
ghost use Rattle.lextab_packed.specs.Checks.{bases_of, none_at_0};
ghost use Rattle.lextab_packed.specs.Views.{row_of, slots_of};
ghost use Rattle.lextab_file.specs.Seen.{following};
ghost use Rattle.lextab_file.specs.Reading.{many, only_if, read_number, good_check, read_slot, slot_from};
ghost use Rattle.lextab_file.specs.Views.{Gives, sizes_in};

use super::fields::long;
use super::header::Counts;
use crate::error::ReadError;
use lextab_packed::{Row, may_lead};
use std::alloc::Global;

/// Where the targets of a state begin.
#[tactic(auto, using(crate::proofs::Columns::base_at))]
fn base(rows: &[Row], state: u32) -> u32
    requires { state < length rows.now }
    ensures { result ≡ slice_index (bases_of (map row_of rows.now)) state }
{
    rows[state as usize].base
}

/// The state that the slot at this place is for, or 0.
fn check_of<'a>(
    bytes: &'a [u8],
    counts: Counts,
    rows: &[Row],
    place: u32,
) -> Result<(u16, &'a [u8]), ReadError>
    requires rows { length rows.now ≡ counts.states }
    requires few { counts.states ≤ max_states }
    ensures gives { Gives (λ x. (x.0, x.1.now)) result
        (only_if (good_check (sizes_in counts) (bases_of (map row_of rows.now)) place) (read_number w32) bytes.now) }
    ensures rest { IfOk result (λ x. length x.1.now + 4 ≡ length bytes.now) }
{
    let (check, rest) = long(bytes)?;
    if check == 0 {
        return Ok((0, rest));
    }
    if check >= counts.states {
        return Err(ReadError::BadField(bytes.len()));
    }
    let base = base(rows, check);
    if place < base || u64::from(place) >= u64::from(base) + u64::from(counts.classes) {
        return Err(ReadError::BadField(bytes.len()));
    }
    Ok((check as u16, rest))
}

/// The target in a slot for this state.
fn next_of(bytes: &[u8], states: u32, check: u16) -> Result<(u16, &[u8]), ReadError>
    requires { states ≤ max_states }
    ensures gives { Gives (λ x. (x.0, x.1.now)) result
        (only_if (λ n. nat_lt n states && none_at_0 check n) (read_number w32) bytes.now) }
    ensures rest { IfOk result (λ x. length x.1.now + 4 ≡ length bytes.now) }
{
    let (next, rest) = long(bytes)?;
    if !may_lead(u32::from(check), next, states) {
        return Err(ReadError::BadField(bytes.len()));
    }
    Ok((next as u16, rest))
}

/// A slot: the state that has it, and the target that stands there.
#[tactic(auto, unfolding(crate::specs::Reading::read_slot))]
fn slot<'a>(
    bytes: &'a [u8],
    counts: Counts,
    rows: &[Row],
    place: u32,
) -> Result<((u16, u16), &'a [u8]), ReadError>
    requires rows { length rows.now ≡ counts.states }
    requires few { counts.states ≤ max_states }
    ensures gives { Gives (λ x. (slot_from (x.0.0, x.0.1), x.1.now)) result
        (read_slot (sizes_in counts) (bases_of (map row_of rows.now)) place bytes.now) }
    ensures rest { IfOk result (λ x. length x.1.now + 8 ≡ length bytes.now) }
{
    let (check, rest) = check_of(bytes, counts, rows, place)?;
    let (next, rest) = next_of(rest, counts.states, check)?;
    Ok(((check, next), rest))
}

/// The slots, as the column of their states and that of their targets.
pub fn slots<'a>(
    alloc: Global,
    bytes: &'a [u8],
    counts: Counts,
    rows: &[Row],
) -> Result<((Vec<u16>, Vec<u16>), &'a [u8]), ReadError>
    requires rows { length rows.now ≡ counts.states }
    requires few { counts.states ≤ max_states }
    ensures { Gives (λ x. (slots_of x.0.0.items x.0.1.items, x.1.now)) result
        (many (read_slot (sizes_in counts) (bases_of (map row_of rows.now))) following counts.slots 0 bytes.now) }
{
    // A slot is read where its bytes are there, so the columns have room for it.
    let most = (counts.slots as usize).min(bytes.len() / 8);
    let mut checks = Vec::with_capacity(alloc, most)?;
    let mut nexts = Vec::with_capacity(alloc, most)?;
    let mut rest = bytes;
    for i in 0..counts.slots {
        let ((check, next), after) = slot(rest, counts, rows, i)?;
        checks.push_reserved(check);
        nexts.push_reserved(next);
        rest = after;
    }
    Ok(((checks, nexts), rest))
}
