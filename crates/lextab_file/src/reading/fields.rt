//! Reads fields: each function gives the value at the front of the bytes, and the bytes after it.
ghost use Rattle.std.specs.Prelude.{◌≡◌, ◌+◌, ◌≤◌, ◌<◌, IfOk, length};
ghost use Rattle.std.specs.Int.{w16, w32};
ghost use Rattle.lextab_file.specs.Reading.{only_if, below, read_byte, read_number, read_bytes, read_long, read_positive};
ghost use Rattle.lextab_file.specs.Views.{Gives};

use crate::error::ReadError;
use std::alloc::Global;

/// One byte.
pub fn byte(bytes: &[u8]) -> Result<(u8, &[u8]), ReadError>
    ensures gives { Gives (λ x. (x.0, x.1.now)) result (read_byte bytes.now) }
{
    match bytes {
        [] => Err(ReadError::Truncated),
        [first, rest @ ..] => Ok((*first, rest)),
    }
}

/// A byte below the limit.
pub fn byte_below(bytes: &[u8], limit: u32) -> Result<(u8, &[u8]), ReadError>
    ensures gives { Gives (λ x. (x.0, x.1.now)) result (only_if (below limit) read_byte bytes.now) }
{
    let (number, rest) = byte(bytes)?;
    if u32::from(number) >= limit {
        return Err(ReadError::BadField(bytes.len()));
    }
    Ok((number, rest))
}

/// A number of two bytes.
pub fn short(bytes: &[u8]) -> Result<(u16, &[u8]), ReadError>
    ensures gives { Gives (λ x. (x.0, x.1.now)) result (read_number w16 bytes.now) }
{
    if bytes.len() < 2 {
        return Err(ReadError::Truncated);
    }
    let (front, rest) = bytes.split_at(2);
    let number = u16::from_be_bytes([front[0], front[1]]);
    Ok((number, rest))
}

/// A number of two bytes that is not 0.
pub fn positive(bytes: &[u8]) -> Result<(u16, &[u8]), ReadError>
    ensures gives { Gives (λ x. (x.0, x.1.now)) result (read_positive bytes.now) }
{
    let (number, rest) = short(bytes)?;
    if number == 0 {
        return Err(ReadError::BadField(bytes.len()));
    }
    Ok((number, rest))
}

/// A number of four bytes.
pub fn long(bytes: &[u8]) -> Result<(u32, &[u8]), ReadError>
    ensures gives { Gives (λ x. (x.0, x.1.now)) result (read_number w32 bytes.now) }
    ensures rest { IfOk result (λ x. length x.1.now + 4 ≡ length bytes.now) }
{
    if bytes.len() < 4 {
        return Err(ReadError::Truncated);
    }
    let (front, rest) = bytes.split_at(4);
    let number = u32::from_be_bytes([front[0], front[1], front[2], front[3]]);
    Ok((number, rest))
}

/// A number of four bytes within these bounds.
pub fn long_within(bytes: &[u8], least: u32, most: u32) -> Result<(u32, &[u8]), ReadError>
    ensures gives { Gives (λ x. (x.0, x.1.now)) result (read_long least most bytes.now) }
    ensures within { IfOk result (λ x. (least ≤ x.0) × (x.0 ≤ most)) }
{
    let (number, rest) = long(bytes)?;
    if number < least || most < number {
        return Err(ReadError::BadField(bytes.len()));
    }
    Ok((number, rest))
}

/// A number of four bytes below the limit.
pub fn long_below(bytes: &[u8], limit: u32) -> Result<(u32, &[u8]), ReadError>
    ensures gives { Gives (λ x. (x.0, x.1.now)) result (only_if (below limit) (read_number w32) bytes.now) }
    ensures low { IfOk result (λ x. x.0 < limit) }
{
    let (number, rest) = long(bytes)?;
    if number >= limit {
        return Err(ReadError::BadField(bytes.len()));
    }
    Ok((number, rest))
}

/// The next `count` bytes.
pub fn text(alloc: Global, bytes: &[u8], count: u32) -> Result<(Vec<u8>, &[u8]), ReadError>
    ensures gives { Gives (λ x. (x.0.items, x.1.now)) result (read_bytes count bytes.now) }
    ensures length { IfOk result (λ x. length x.0.items ≡ count) }
{
    let count = count as usize;
    if bytes.len() < count {
        return Err(ReadError::Truncated);
    }
    let (text, rest) = bytes.split_at(count);
    Ok((Vec::from_slice(alloc, text)?, rest))
}
