//! Whether two files do the same on every input.
ghost use Rattle.std.specs.Prelude.{◌≡◌, ◌≤◌, ◌<◌, ◌+◌, ◌-◌, ◌^◌, List, ℕ, None, IfOk, IfSome};
ghost use Rattle.lex_semantics.specs.Limits.{max_positions, max_states};
ghost use Rattle.lexlook_tables.specs.declared.same.tables.Comparison.TheVariants.{Same, Conditions, Ends, Texts};
ghost use Rattle.lexlook_calls.specs.Compared.{HoldsOfSides, SaysOf, TellsSame, is_same};
ghost use Rattle.lexlook_calls.specs.Errors.{look_fault_count};
ghost use Rattle.lexlook_calls.specs.Lines.{IsLabelled, side_as};
ghost use Rattle.lexlook_calls.specs.Naming.{ArePaired};
ghost use Rattle.lexlook_calls.specs.Sides.{read_as};

mod naming;
mod telling;

use crate::error::LookError;
use crate::labels::names_of;
use crate::same::naming::order_of;
use crate::same::telling::{Named, told_line};
use crate::sides::{Side, side_of};
use lexkit::{Options, Sink};
use lexlook_tables::{Comparison, compare};
use lexspec::Spec;
use std::alloc::{AllocError, Global};

/// A file that is given: its name and its bytes.
#[derive(Clone, Copy)]
pub struct Given<'a> {
    pub name: &'a str,
    pub bytes: &'a [u8],
}

/// What was found, and how the conditions are paired.
#[derive(Drop)]
struct Finding {
    told: Comparison,
    order: Vec<u8>,
}

/// How the conditions of two files are paired, if they are so.
fn pairing(
    alloc: Global,
    given: &Option<Spec>,
    other: &Option<Spec>,
) -> Result<Option<Vec<u8>>, AllocError>
    ensures some { IfOk result (λ found. IfSome found (λ order.
        ArePaired (read_as given.now) (read_as other.now) order.items)) }
    ensures none { IfOk result (λ found. found ≡ None
        → (order : List ℕ) → ArePaired (read_as given.now) (read_as other.now) order → ⊥) }
{
    match given {
        None => Ok(Some(Vec::new(alloc))),
        Some(left) => match other {
            None => Ok(Some(Vec::new(alloc))),
            Some(right) => {
                let names = names_of(alloc, left.conditions())?;
                let others = names_of(alloc, right.conditions())?;
                order_of(alloc, &names, &others)
            }
        },
    }
}

/// Compares two files.
fn compare_sides(alloc: Global, left: &Side, right: &Side) -> Result<Finding, AllocError>
    requires left { (name : List ℕ) → IsLabelled (side_as name left.now) }
    requires right { (name : List ℕ) → IsLabelled (side_as name right.now) }
    ensures { IfOk result (λ f. (name other : List ℕ)
        → HoldsOfSides (side_as name left.now) (side_as other right.now) f.order.items f.told) }
{
    match pairing(alloc, &left.spec, &right.spec)? {
        None => Ok(Finding {
            told: Comparison::Conditions,
            order: Vec::new(alloc),
        }),
        Some(order) => {
            let told = compare(alloc, order.as_slice(), &left.tables, &right.tables)?;
            Ok(Finding { told, order })
        }
    }
}

/// Whether the two were found to do the same.
fn is_same(told: &Comparison) -> bool
    ensures { result ≡ is_same told.now }
{
    matches!(told, Comparison::Same)
}

/// Writes what holds of two files.
fn tell<K: Sink>(
    alloc: Global,
    left: Named<'_>,
    right: Named<'_>,
    sink: &mut K,
) -> Result<bool, LookError>
    requires few { K.failures sink.old < 2 ^ 64 - 1 }
    requires left { (name : List ℕ) → IsLabelled (side_as name left.side.now) }
    requires right { (name : List ℕ) → IsLabelled (side_as name right.side.now) }
    ensures told { SaysOf K.wrote (side_as left.entry.name.now left.entry.side.now)
        (side_as right.entry.name.now right.entry.side.now) sink.old sink.new result }
    ensures failures { K.failures sink.new ≡ K.failures sink.old + look_fault_count result }
{
    let found = match compare_sides(alloc, left.side, right.side) {
        Err(_) => return Err(LookError::OutOfMemory),
        Ok(found) => found,
    };
    let line = match told_line(alloc, left, right, found.order.as_slice(), &found.told) {
        Err(_) => return Err(LookError::OutOfMemory),
        Ok(line) => line,
    };
    match sink.put(line.as_slice()) {
        Err(_) => Err(LookError::Write),
        Ok(()) => Ok(is_same(&found.told)),
    }
}

/// Says whether two files do the same on every input: specifications, or table files. Where they do not, it writes a
/// line with the first text that shows it, or with what else differs. Where one is refused, nothing is written; of two
/// that are, the first is told.
pub fn tell_same<K: Sink>(
    alloc: Global,
    left: Given<'_>,
    right: Given<'_>,
    options: Options,
    sink: &mut K,
) -> Result<bool, LookError>
    requires few_positions { options.limits.positions ≤ max_positions }
    requires few_states { options.limits.states ≤ max_states }
    requires few { K.failures sink.old < 2 ^ 64 - 1 }
    ensures told { TellsSame K.wrote options left.entry right.entry sink.old sink.new result }
    ensures failures { K.failures sink.new ≡ K.failures sink.old + look_fault_count result }
{
    let first = match side_of(alloc, left.bytes, options) {
        Err(error) => return Err(error),
        Ok(side) => side,
    };
    let second = match side_of(alloc, right.bytes, options) {
        Err(error) => return Err(error),
        Ok(side) => side,
    };
    let this = Named {
        name: left.name.as_bytes(),
        side: &first,
    };
    let that = Named {
        name: right.name.as_bytes(),
        side: &second,
    };
    tell(alloc, this, that, sink)
}
