//! Whether two tables do the same.
ghost use Rattle.std.specs.Prelude.{◌≡◌, ℕ, ◌<◌, ◌≤◌, true, false, length, IfOk};
ghost use Rattle.lex_machine.specs.Views.{end_action_of};
ghost use Rattle.lextab_packed.specs.Machines.{table_machine};
ghost use Rattle.lexlook_tables.specs.Same.{number_in};
ghost use Rattle.lexlook_tables.specs.Comparing.{Compares, HaveEnds};

use crate::same::deeds::number_in;
use crate::same::differing::{Difference, PairSizes, tell_apart};
use lex_machine::{EndAction, Machine};
use lextab_packed::Tables;
use std::alloc::{AllocError, Global};

/// What is told of two tables.
#[derive(Drop)]
pub enum Comparison {
    /// They do the same of each match, and at the end of the input.
    Same,
    /// One has more conditions than the other.
    Conditions,
    /// At the end of the input they do not do the same, in this condition.
    Ends(u8),
    /// Of this text they do not do the same.
    Texts(Difference),
}

/// Whether the end actions are the same.
fn is_end(end: &EndAction, other: &EndAction) -> bool
    ensures yes { result ≡ true → end_action_of end.now ≡ end_action_of other.now }
    ensures no { result ≡ false → end_action_of end.now ≡ end_action_of other.now → ⊥ }
{
    end.print.as_slice() == other.print.as_slice() && end.status == other.status
}

/// The first condition whose end actions are not the same.
fn other_end(order: &[u8], left: &Tables, right: &Tables, conditions: u8) -> Option<u8>
    requires left { conditions ≡ (table_machine left.now).conditions }
    requires right { (c : ℕ) → c < conditions → number_in order.now c < (table_machine right.now).conditions }
    ensures { HaveEnds order.now (table_machine left.now) (table_machine right.now) result }
{
    for condition in 0..conditions {
        if !is_end(left.eof(condition), right.eof(number_in(order, condition))) {
            return Some(condition);
        }
    }
    None
}

/// Says whether two tables do the same of each match, from each condition on, and at the end of the input. A condition
/// of the left one has the number in the right one that stands at its place in `order`, or else its own. Where they do
/// not, it shows a condition, and the first text, as `tell_apart` does.
pub fn compare(
    alloc: Global,
    order: &[u8],
    left: &Tables,
    right: &Tables,
) -> Result<Comparison, AllocError>
    requires { (table_machine left.now).conditions ≡ (table_machine right.now).conditions
        → (c : ℕ) → c < (table_machine left.now).conditions
        → number_in order.now c < (table_machine right.now).conditions }
    ensures { IfOk result (λ told. Compares order.now (table_machine left.now) (table_machine right.now) told) }
{
    let conditions = left.parts().conditions.len();
    if conditions != right.parts().conditions.len() {
        return Ok(Comparison::Conditions);
    }
    let sizes = PairSizes {
        left: left.parts().rows.len() as u32,
        right: right.parts().rows.len() as u32,
        conditions: conditions as u8,
    };
    match other_end(order, left, right, sizes.conditions) {
        Some(condition) => Ok(Comparison::Ends(condition)),
        None => match tell_apart(alloc, order, left, right, sizes)? {
            None => Ok(Comparison::Same),
            Some(difference) => Ok(Comparison::Texts(difference)),
        },
    }
}
