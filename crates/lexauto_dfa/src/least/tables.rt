//! The automaton of classes.
ghost use Rattle.std.specs.Prelude.{◌≡◌, ◌^◌, ℕ, ◌*◌, ◌<◌, [], length, slice_index, IfOk};
ghost use Rattle.lexauto_dfa.specs.Numbers.{AreCalled, AreMade, AreNumbers};
ghost use Rattle.lexauto_dfa.specs.Sources.{IsRow};

use crate::least::numbering::{Numbers, number, number_rows, number_starts};
use std::alloc::{AllocError, Global};

/// The starts and rows of an automaton of classes, and a member of each class.
#[derive(Drop)]
pub(crate) struct ClassTable {
    pub starts: Vec<u32>,
    pub table: Vec<u32>,
    pub members: Vec<u32>,
}

/// Numbers in which state 0's class alone has one.
fn first_number(alloc: Global, classes: &[u32]) -> Result<Numbers, AllocError>
    requires some { 0 < length classes.now }
    requires few { length classes.now < 2 ^ 32 }
    requires classes { IsRow classes.now }
    ensures numbers { IfOk result (λ n. AreNumbers classes.now n) }
    ensures zero_is { IfOk result (λ n. slice_index n.members.items 0 ≡ 0) }
    ensures none { IfOk result (λ n. (s : ℕ) → AreCalled s n.members.items []) }
{
    let of_class = vec![in alloc; classes.len() as u32; classes.len()]?;
    let mut numbers = Numbers {
        of_class,
        members: Vec::new(alloc),
    };
    number(&mut numbers, classes, 0)?;
    Ok(numbers)
}

/// The automaton of the classes that are called, numbered in the order of the first call.
pub(crate) fn quotient(
    alloc: Global,
    classes: &[u32],
    starts: &[u32],
    table: &[u32],
) -> Result<ClassTable, AllocError>
    requires some { 0 < length classes.now }
    requires few { length classes.now < 2 ^ 32 }
    requires classes { IsRow classes.now }
    requires starts { (i : ℕ) → i < length starts.now → slice_index starts.now i < length classes.now }
    requires len { length table.now ≡ 256 * length classes.now }
    requires table { (i : ℕ) → i < length table.now → slice_index table.now i < length classes.now }
    ensures { IfOk result (λ q. AreMade classes.now starts.now table.now q.members.items q.starts.items q.table.items) }
{
    let mut numbers = first_number(alloc, classes)?;
    let starts = number_starts(alloc, &mut numbers, classes, starts)?;
    let table = number_rows(alloc, &mut numbers, classes, table)?;
    Ok(ClassTable {
        starts,
        table,
        members: numbers.members,
    })
}
