//! Conditions in which most bytes of a text are matches by themselves, which are dropped or copied.
ghost use Rattle.std.specs.Prelude.{◌≡◌, ℕ, ◌+◌, ◌*◌, ◌<◌, ◌≤◌, true, false, length, slice_index, IfOk};
ghost use Rattle.std.specs.Option.{ForSome};
ghost use Rattle.lex_semantics.specs.Machine.{Machine as MachineModel};
ghost use Rattle.lextab_packed.specs.Machines.{table_machine, table_states};
ghost use Rattle.lextab_packed.specs.Singles.{StopsSilent, StopsCopying, DropsTo, OthersDrop, StartsIn, TellsSingles, AllTellSingles};

use crate::leaps::{Leavers, leavers_at};
use crate::steps::{STOP, STOP_ECHO, STOP_OTHER, STOP_SILENT};
use crate::tables::Tables;
use lex_machine::Machine;
use std::alloc::{AllocError, Global};

/// The letter `a`. Text is mostly such letters, so they alone are counted.
const FIRST_LETTER: usize = 97;

/// How many letters there are from it on.
const LETTERS: usize = 26;

/// How many of them are taken for most of a text.
const MANY: usize = 20;

/// What most bytes of a text are in a condition, each a match by itself.
#[derive(Clone, Copy)]
pub(crate) enum Most {
    /// Something else, or the start of a line matters.
    Other,
    /// Dropped, where a match starts in this state: each but three at most, if they are so few.
    Dropped(u32, Option<Leavers>),
    /// Copied, where a match starts in this state.
    Copied(u32),
}

/// Whether a byte is dropped that leads to this marked target.
#[inline(always)]
pub(crate) fn is_dropped(target: u32) -> bool
    ensures yes { result ≡ true → StopsSilent target }
    ensures no { result ≡ false → StopsSilent target → ⊥ }
{
    STOP_SILENT <= target && target < STOP_ECHO
}

/// Whether a byte is copied that leads to this marked target.
#[inline(always)]
pub(crate) fn is_copied(target: u32) -> bool
    ensures yes { result ≡ true → StopsCopying target }
    ensures no { result ≡ false → StopsCopying target → ⊥ }
{
    (STOP <= target && target < STOP_SILENT) || (STOP_ECHO <= target && target < STOP_OTHER)
}

/// How many letters are dropped, by the row at this place.
fn count_dropped(rows: &[u32], place: usize) -> usize
    requires { place + 256 ≤ length rows.now }
    ensures { result ≤ 26 }
{
    let mut count = 0usize;
    for letter in 0..LETTERS {
        if is_dropped(rows[place + FIRST_LETTER + letter]) {
            count += 1;
        }
    }
    count
}

/// How many letters are copied, by the row at this place.
fn count_copied(rows: &[u32], place: usize) -> usize
    requires { place + 256 ≤ length rows.now }
    ensures { result ≤ 26 }
{
    let mut count = 0usize;
    for letter in 0..LETTERS {
        if is_copied(rows[place + FIRST_LETTER + letter]) {
            count += 1;
        }
    }
    count
}

/// The first byte from this one on that is not dropped, by the row at this place, or 256.
fn next_kept(rows: &[u32], place: usize, from: usize) -> usize
    requires from { from ≤ 256 }
    requires row { place + 256 ≤ length rows.now }
    ensures { DropsTo rows.now place from result }
{
    let mut byte = from;
    'bytes: while byte < 256 && is_dropped(rows[place + byte]) {
        byte += 1;
    }
    byte
}

/// The bytes that are not dropped, by the row at this place, if they are no more than three.
fn kept_of(rows: &[u32], place: usize) -> Option<Leavers>
    requires { place + 256 ≤ length rows.now }
    ensures { ForSome result (λ kept. OthersDrop rows.now place kept) }
{
    let a = next_kept(rows, place, 0);
    let b = next_kept(rows, place, (a + 1).min(256));
    let c = next_kept(rows, place, (b + 1).min(256));
    if next_kept(rows, place, (c + 1).min(256)) < 256 {
        return None;
    }
    Some(leavers_at(a, b, c))
}

/// What most bytes of a text are in a condition whose matches start in this state.
fn most_at(rows: &[u32], first: u32) -> Most
    requires { 256 * first + 256 ≤ length rows.now }
    ensures { (M : MachineModel) (c : ℕ) → StartsIn M c first → TellsSingles M rows.now c result }
{
    let place = 256 * first as usize;
    if MANY <= count_dropped(rows, place) {
        Most::Dropped(first, kept_of(rows, place))
    } else if MANY <= count_copied(rows, place) {
        Most::Copied(first)
    } else {
        Most::Other
    }
}

/// What most bytes of a text are in a condition.
fn most_in(tables: &Tables, rows: &[u32], condition: u8) -> Most
    requires rows { length rows.now ≡ 256 * table_states tables.now }
    requires condition { condition < (table_machine tables.now).conditions }
    ensures { TellsSingles (table_machine tables.now) rows.now condition result }
{
    let first = tables.start(condition, false);
    if tables.start(condition, true) == first {
        most_at(rows, first)
    } else {
        Most::Other
    }
}

/// What most bytes of a text are in each condition.
pub(crate) fn most_of(alloc: Global, tables: &Tables, rows: &[u32]) -> Result<Vec<Most>, AllocError>
    requires { length rows.now ≡ 256 * table_states tables.now }
    ensures len { IfOk result (λ v. length v.items ≡ (table_machine tables.now).conditions) }
    ensures each { IfOk result (λ v. AllTellSingles (table_machine tables.now) rows.now v.items) }
{
    let conditions = tables.conditions();
    let mut most = Vec::with_capacity(alloc, conditions)?;
    for condition in 0..conditions {
        most.push(most_in(tables, rows, condition as u8))?;
    }
    Ok(most)
}
