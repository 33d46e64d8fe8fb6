//! States that few bytes lead away from, so that a run of the others is passed many bytes at a time.
ghost use Rattle.std.specs.Prelude.{◌≡◌, ℕ, ◌+◌, ◌*◌, ◌<◌, ◌≤◌, true, length, map, get_or, None, IfOk};
ghost use Rattle.std.specs.Option.{ForSome};
ghost use Rattle.std.specs.Simd.Lanes.{mask_l};
ghost use Rattle.lextab_packed.specs.Leaps.{StaysTo, OthersStay, AllOthers, is_leaver};

use std::alloc::{AllocError, Global};
use std::simd::prelude::*;

/// How many bytes are looked at in one step.
const LANES: usize = 16;

/// Three bytes. Each other one leads from a state to itself.
#[derive(Clone, Copy)]
pub(crate) struct Leavers {
    a: u8,
    b: u8,
    c: u8,
}

/// The first byte from this one on that leads from a state to another, by the row of the state, or 256.
fn next_leaver(rows: &[u32], place: u32, from: usize) -> usize
    requires from { from ≤ 256 }
    requires row { place + 256 ≤ length rows.now }
    ensures { StaysTo rows.now place from result }
{
    let mut byte = from;
    'bytes: while byte < 256 && rows[place as usize + byte] == place {
        byte += 1;
    }
    byte
}

/// The byte, or another where there is none.
fn byte_or(place: usize, other: u8) -> u8
    ensures { place < 256 → result ≡ place }
{
    if place < 256 { place as u8 } else { other }
}

/// Three bytes, or fewer where a number is past the last byte.
pub(crate) fn leavers_at(a: usize, b: usize, c: usize) -> Leavers
    ensures first { a < 256 → result.a ≡ a }
    ensures second { b < 256 → result.b ≡ b }
    ensures third { c < 256 → result.c ≡ c }
{
    let first = byte_or(a, 0);
    Leavers {
        a: first,
        b: byte_or(b, first),
        c: byte_or(c, first),
    }
}

/// The bytes that lead from a state to another, by the row of the state, if they are no more than three.
fn leavers_of(rows: &[u32], place: u32) -> Option<Leavers>
    requires { place + 256 ≤ length rows.now }
    ensures { ForSome result (λ leavers. OthersStay rows.now place leavers) }
{
    let a = next_leaver(rows, place, 0);
    let b = next_leaver(rows, place, (a + 1).min(256));
    let c = next_leaver(rows, place, (b + 1).min(256));
    if next_leaver(rows, place, (c + 1).min(256)) < 256 {
        return None;
    }
    Some(leavers_at(a, b, c))
}

/// The same for each state.
pub(crate) fn leaps_of(
    alloc: Global,
    rows: &[u32],
    states: usize,
) -> Result<Vec<Option<Leavers>>, AllocError>
    requires few { states ≤ 8192 }
    requires rows { length rows.now ≡ 256 * states }
    ensures len { IfOk result (λ v. length v.items ≡ states) }
    ensures each { IfOk result (λ v. (s : ℕ) → s < states → ForSome (get_or v.items s None) (λ leavers. OthersStay rows.now (256 * s) leavers)) }
{
    let mut leaps = Vec::with_capacity(alloc, states)?;
    for state in 0..states {
        leaps.push(leavers_of(rows, 256 * state as u32))?;
    }
    Ok(leaps)
}

/// A bit for each of the bytes, which is set where it is one of the three.
#[inline(always)]
fn leavers_in(lanes: u8x16, leavers: Leavers) -> u64
    ensures { result ≡ mask_l (map (is_leaver leavers) lanes) }
{
    (lanes.simd_eq(u8x16::splat(leavers.a))
        | lanes.simd_eq(u8x16::splat(leavers.b))
        | lanes.simd_eq(u8x16::splat(leavers.c))).to_bitmask()
}

/// How many of the `LANES` bytes from `start` on come before the first that is one of the three.
#[inline(always)]
fn others_at(leavers: Leavers, bytes: &[u8], start: usize) -> usize
    requires { start + 16 ≤ length bytes.now }
    ensures few { result ≤ 16 }
    ensures others { AllOthers leavers bytes.now start (start + result) }
{
    let found = leavers_in(u8x16::from_slice(&bytes[start..]), leavers);
    if found == 0 {
        LANES
    } else {
        found.trailing_zeros() as usize
    }
}

/// The place of the first of the three from `start` on, or one from which on there are fewer than `LANES` bytes.
#[inline(always)]
pub(crate) fn pass_over(leavers: Leavers, bytes: &[u8], start: usize) -> usize
    requires { start ≤ length bytes.now }
    ensures { AllOthers leavers bytes.now start result }
{
    let mut end = start;
    'lanes: while LANES <= bytes.len() - end {
        let others = others_at(leavers, bytes, end);
        end += others;
        if others < LANES {
            return end;
        }
    }
    end
}
