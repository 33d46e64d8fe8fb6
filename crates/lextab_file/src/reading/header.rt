//! Reads the header: the magic bytes, the version, and how many there are of each kind.
ghost use Rattle.std.specs.Prelude.{◌≡◌, ◌≤◌, ◌==◌, ◌||◌, ◌⊎◌, false, IfOk, IfErr};
ghost use Rattle.std.specs.Int.{w16};
ghost use Rattle.lextab_file.specs.Reading.{judged, read_number, read_bytes, is_magic, read_sizes};
ghost use Rattle.lextab_file.specs.Views.{Gives, sizes_in, is_memory};
ghost use Rattle.lex_semantics.specs.Limits.{max_classes, max_states};

use super::fields::{long_within, short};
use crate::error::ReadError;
use lex_semantics::{MAX_CLASSES, MAX_CONDITIONS, MAX_RULES, MAX_SLOTS, MAX_STATES};

/// How many there are of each kind.
#[derive(Clone, Copy)]
pub struct Counts {
    /// How many conditions, from 1.
    pub conditions: u32,
    /// How many rules.
    pub rules: u32,
    /// How many states, from 1.
    pub states: u32,
    /// How many byte classes, 1 to 256.
    pub classes: u32,
    /// How many slots, no fewer than classes.
    pub slots: u32,
}

/// The six magic bytes that a table file begins with.
pub fn magic(bytes: &[u8]) -> Result<(&[u8], &[u8]), ReadError>
    ensures gives { Gives (λ x. (x.0.now, x.1.now)) result (judged ReadError.BadMagic is_magic (read_bytes 6) bytes.now) }
    ensures no_memory { IfErr result (λ e. is_memory e ≡ false) }
{
    if bytes.len() < 6 {
        return Err(ReadError::Truncated);
    }
    let (front, rest) = bytes.split_at(6);
    if front[0] == b'L'
        && front[1] == b'E'
        && front[2] == b'X'
        && front[3] == b'T'
        && front[4] == b'A'
        && front[5] == b'B'
    {
        return Ok((front, rest));
    }
    Err(ReadError::BadMagic)
}

/// The version of the format: 1, or 2 where statements of the stack may stand.
pub fn version(bytes: &[u8]) -> Result<(u16, &[u8]), ReadError>
    ensures gives { Gives (λ x. (x.0, x.1.now)) result (judged ReadError.BadVersion (λ v. v == 1 || v == 2) (read_number w16) bytes.now) }
    ensures known { IfOk result (λ x. (x.0 ≡ 1) ⊎ (x.0 ≡ 2)) }
{
    let (version, rest) = short(bytes)?;
    if version != 1 && version != 2 {
        return Err(ReadError::BadVersion);
    }
    Ok((version, rest))
}

/// How many there are of each kind, each within its limits.
#[tactic(auto, unfolding(crate::specs::Reading::read_sizes))]
pub fn sizes(bytes: &[u8]) -> Result<(Counts, &[u8]), ReadError>
    ensures gives { Gives (λ x. (sizes_in x.0, x.1.now)) result (read_sizes bytes.now) }
    ensures states { IfOk result (λ x. x.0.states ≤ max_states) }
    ensures classes { IfOk result (λ x. x.0.classes ≤ max_classes) }
{
    let (conditions, rest) = long_within(bytes, 1, MAX_CONDITIONS as u32)?;
    let (rules, rest) = long_within(rest, 0, MAX_RULES as u32)?;
    let (states, rest) = long_within(rest, 1, MAX_STATES)?;
    let (classes, rest) = long_within(rest, 1, MAX_CLASSES)?;
    let (slots, rest) = long_within(rest, classes, MAX_SLOTS)?;
    let counts = Counts {
        conditions,
        rules,
        states,
        classes,
        slots,
    };
    Ok((counts, rest))
}
