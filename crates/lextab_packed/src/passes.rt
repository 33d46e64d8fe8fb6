//! Which states go on, found in passes over the table, where few of them are enough.
//!
//! A pass looks at one byte of each class, and at a state only until a byte leads to one that accepts or goes on. Most
//! tables take two passes, the second of which finds nothing more.
ghost use Rattle.std.specs.Prelude.{◌≡◌, ℕ, ◌<◌, ◌≤◌, Bool, true, false, length, map, nat_lt, slice_index, IfOk};
ghost use Rattle.std.specs.Option.{ForSome};
ghost use Rattle.lextab_packed.specs.Checks.{IsTable};
ghost use Rattle.lextab_packed.specs.Invariant.{GoesOn};
ghost use Rattle.lextab_packed.specs.Passes.{HasClass, IsGood, LeadsNowhere, AllGoOn, SettledFrom};
ghost use Rattle.lextab_packed.specs.Steps.{step_of};
ghost use Rattle.lextab_packed.specs.Views.{table_of};

use crate::laying::accepting;
use crate::parts::TableParts;
use crate::steps::target;
use std::alloc::{AllocError, Global};

/// How many passes there are at most.
const PASSES: usize = 8;

/// The byte that is looked at first, and after it those behind it: from most states a digit or a letter leads on.
const FIRST: usize = 48;

/// The first byte of each class that has one, in this order.
fn bytes_of_classes(alloc: Global, class_of: &[u8]) -> Result<Vec<u8>, AllocError>
    requires { length class_of.now ≡ 256 }
    ensures { IfOk result (λ v. (b : ℕ) → b < 256 → HasClass class_of.now v.items (slice_index class_of.now b)) }
{
    let mut bytes = Vec::with_capacity(alloc, 256)?;
    let mut seen = [false; 256];
    for place in 0..256usize {
        let byte = (FIRST + place) % 256;
        let class = class_of[byte] as usize;
        if !seen[class] {
            seen[class] = true;
            bytes.push(byte as u8)?;
        }
    }
    Ok(bytes)
}

/// Whether one of the bytes leads from the state to one that accepts, or is known to go on.
#[inline(always)]
fn leads(parts: &TableParts, bytes: &[u8], accepting: &[bool], live: &[bool], state: u32) -> bool
    requires table { IsTable (table_of parts.now) }
    requires state { state < length parts.now.rows.items }
    requires accepting { length accepting.now ≡ length parts.now.rows.items }
    requires live { length live.now ≡ length parts.now.rows.items }
    ensures yes { result ≡ true → (b : ℕ) × (b < 256) × IsGood accepting.now live.now (step_of (table_of parts.now) state b) }
    ensures no { result ≡ false → LeadsNowhere (table_of parts.now) bytes.now accepting.now live.now state }
{
    for byte in bytes {
        let next = target(parts, state, *byte) as usize;
        if accepting[next] || live[next] {
            return true;
        }
    }
    false
}

/// Goes over the states from the last to the first, and marks those that go on by what is known so far. It tells how
/// many were marked. It stands by itself, so that its loop is small.
#[inline(never)]
fn pass(parts: &TableParts, bytes: &[u8], accepting: &[bool], live: &mut Vec<bool>) -> usize
    requires table { IsTable (table_of parts.now) }
    requires accepting { accepting.now ≡ map (λ r. nat_lt 0 (length r.rules.items)) parts.now.rows.items }
    requires live { length live.old.items ≡ length parts.now.rows.items }
    ensures len { length live.new.items ≡ length live.old.items }
    ensures sound { AllGoOn (table_of parts.now) live.old.items → AllGoOn (table_of parts.now) live.new.items }
    ensures settled { result ≡ 0 → SettledFrom (table_of parts.now) bytes.now accepting.now live.new.items 0 }
{
    let mut count = 0usize;
    let mut state = live.len();
    'states: while state > 0 {
        state -= 1;
        if !live[state] && leads(parts, bytes, accepting, live, state as u32) {
            live[state] = true;
            count += 1;
        }
    }
    count
}

/// For each state whether it goes on. None where passes would visit more than two states for each that there is, so that
/// the time stays in proportion to the table.
pub(crate) fn going_on_soon(
    alloc: Global,
    parts: &TableParts,
) -> Result<Option<Vec<bool>>, AllocError>
    requires { IsTable (table_of parts.now) }
    ensures { IfOk result (λ o. ForSome o (λ v. GoesOn (table_of parts.now) v.items)) }
{
    let accepting = accepting(alloc, &parts.rows)?;
    let bytes = bytes_of_classes(alloc, &parts.class_of)?;
    let mut live = vec![in alloc; false; parts.rows.len()]?;
    let mut left = live.len();
    let mut visits = left.saturating_mul(2);
    for number in 0..PASSES {
        if visits < left {
            return Ok(None);
        }
        visits -= left;
        let count = pass(parts, &bytes, &accepting, &mut live);
        if count == 0 {
            return Ok(Some(live));
        }
        left = left.saturating_sub(count);
    }
    Ok(None)
}
