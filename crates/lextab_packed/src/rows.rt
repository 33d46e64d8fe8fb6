//! Rows of 256 targets, one for each state, laid out from the slots. Each target may have a mark in its place.
ghost use Rattle.std.specs.Prelude.{◌≡◌, ℕ, ◌+◌, ◌*◌, ◌<◌, ◌≤◌, length, slice_index, IfOk};
ghost use Rattle.lex_semantics.specs.Limits.{max_states};
ghost use Rattle.lextab_packed.specs.Alike.{AreAlike, IsSpread};
ghost use Rattle.lextab_packed.specs.Checks.{IsTable};
ghost use Rattle.lextab_packed.specs.Steps.{step_of};
ghost use Rattle.lextab_packed.specs.Views.{table_of};

use crate::alike::{Alike, Spread, alike_of};
use crate::parts::TableParts;
use std::alloc::{AllocError, Global};

/// Turns a row of marks to that of a state. Rows of neighbours are much alike, so only what differs is put.
fn turn_to(parts: &TableParts, alike: &Alike, marks: &[u32], state: u32, row: &mut Spread)
    requires table { IsTable (table_of parts.now) }
    requires alike { AreAlike parts.now.class_of.items alike.now.first alike.now.after 0 }
    requires marks { length marks.now ≡ length parts.now.rows.items }
    requires state { state < length parts.now.rows.items }
    requires spread { IsSpread parts.now.class_of.items row.old.by_class row.old.by_byte }
    ensures spread { IsSpread parts.now.class_of.items row.new.by_class row.new.by_byte }
    ensures each { (b : ℕ) → b < 256
        → slice_index row.new.by_byte b ≡ slice_index marks.now (step_of (table_of parts.now) state b) }
{
    let packed = &parts.rows[state as usize];
    let base = packed.base as usize;
    let default = marks[packed.default_target as usize];
    for class in 0..parts.classes as usize {
        let mark = if u32::from(parts.checks[base + class]) == state {
            marks[usize::from(parts.nexts[base + class])]
        } else {
            default
        };
        row.set(&parts.class_of, alike, class, mark);
    }
}

/// The marks of the states after each byte, 256 to a state: the row of state 0, then that of state 1, and so on.
pub(crate) fn marked_rows(
    alloc: Global,
    parts: &TableParts,
    marks: &[u32],
) -> Result<Vec<u32>, AllocError>
    requires table { IsTable (table_of parts.now) }
    requires marks { length marks.now ≡ length parts.now.rows.items }
    ensures len { IfOk result (λ v. length v.items ≡ 256 * length parts.now.rows.items) }
    ensures each { IfOk result (λ v. (s b : ℕ) → s < length parts.now.rows.items → b < 256
        → slice_index v.items (256 * s + b) ≡ slice_index marks.now (step_of (table_of parts.now) s b)) }
{
    let alike = alike_of(&parts.class_of);
    let mut row = Spread::new();
    let mut rows = Vec::with_capacity(alloc, 256 * parts.rows.len())?;
    for state in 0..parts.rows.len() {
        turn_to(parts, &alike, marks, state as u32, &mut row);
        rows.extend_from_slice(&row.by_byte)?;
    }
    Ok(rows)
}

/// So many numbers, each at its place.
fn numbers(alloc: Global, count: usize) -> Result<Vec<u32>, AllocError>
    requires { count ≤ max_states }
    ensures len { IfOk result (λ v. length v.items ≡ count) }
    ensures each { IfOk result (λ v. (k : ℕ) → k < count → slice_index v.items k ≡ k) }
{
    let mut numbers = Vec::with_capacity(alloc, count)?;
    for number in 0..count {
        numbers.push(number as u32)?;
    }
    Ok(numbers)
}

/// The state after each byte, 256 to a state: the row of state 0, then that of state 1, and so on.
pub fn flat_rows(alloc: Global, parts: &TableParts) -> Result<Vec<u32>, AllocError>
    requires { IsTable (table_of parts.now) }
    ensures len { IfOk result (λ v. length v.items ≡ 256 * length parts.now.rows.items) }
    ensures each { IfOk result (λ v. (s b : ℕ) → s < length parts.now.rows.items → b < 256
        → slice_index v.items (256 * s + b) ≡ step_of (table_of parts.now) s b) }
{
    let states = numbers(alloc, parts.rows.len())?;
    marked_rows(alloc, parts, &states)
}
