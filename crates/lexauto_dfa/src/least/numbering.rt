//! Numbering classes of states.
ghost use Rattle.std.specs.Prelude.{◌≡◌, ◌^◌, ℕ, ◌+◌, ◌*◌, ◌/◌, ◌%◌, ◌++◌, ◌∷◌};
ghost use Rattle.std.specs.Prelude.{◌<◌, ◌≤◌, List, [], length, slice_index, IfOk, OnOk};
ghost use Rattle.lexauto_dfa.specs.Sources.{IsRow};
ghost use Rattle.lexauto_dfa.specs.Numbers.{AreCalled, AreNumbers, AreRows, Grown, HasRows, IsNumberOf};
ghost use Rattle.lexauto_dfa.specs.Numbers.{Keeps, RowAdded, StartsAdded};

use std::alloc::{AllocError, Global};

/// Numbers of classes, and a state for each number. The number of a class that has none yet is too great.
#[derive(Drop)]
pub(crate) struct Numbers {
    pub of_class: Vec<u32>,
    pub members: Vec<u32>,
}

/// Gives the next number to a state's class, which has none.
#[inline(never)]
fn call(numbers: &mut Numbers, classes: &[u32], state: u32) -> Result<(), AllocError>
    requires state { state < length classes.now }
    requires few { length classes.now < 2 ^ 32 }
    requires classes { IsRow classes.now }
    requires numbers { AreNumbers classes.now numbers.old }
    requires none { length numbers.old.members.items
        ≤ slice_index numbers.old.of_class.items (slice_index classes.now state) }
    ensures numbers { OnOk result (AreNumbers classes.now numbers.new) }
    ensures members { OnOk result (numbers.new.members.items ≡ numbers.old.members.items ++ state ∷ []) }
    ensures number { OnOk result (slice_index numbers.new.of_class.items (slice_index classes.now state)
        ≡ length numbers.old.members.items) }
{
    let class = classes[state as usize] as usize;
    numbers.of_class[class] = numbers.members.len() as u32;
    numbers.members.push(state)?;
    Ok(())
}

/// The number of a state's class. A class that has none gets the next one.
pub(crate) fn number(numbers: &mut Numbers, classes: &[u32], state: u32) -> Result<u32, AllocError>
    requires state { state < length classes.now }
    requires few { length classes.now < 2 ^ 32 }
    requires classes { IsRow classes.now }
    requires numbers { AreNumbers classes.now numbers.old }
    ensures numbers { OnOk result (AreNumbers classes.now numbers.new) }
    ensures number { IfOk result (λ k. IsNumberOf classes.now numbers.new.members.items k state) }
    ensures grown { IfOk result (λ k. Grown numbers.old.members.items state k numbers.new.members.items) }
{
    let class = classes[state as usize] as usize;
    if numbers.of_class[class] as usize >= numbers.members.len() {
        call(numbers, classes, state)?;
    }
    Ok(numbers.of_class[class])
}

/// A state with the number of its class.
#[derive(Clone, Copy)]
pub(crate) struct Known {
    pub state: u32,
    pub number: u32,
}

/// The number of a state's class, as `number` has it. It often is the state whose number was found before.
#[inline(always)]
fn number_after(
    numbers: &mut Numbers,
    classes: &[u32],
    before: Known,
    state: u32,
) -> Result<u32, AllocError>
    requires state { state < length classes.now }
    requires few { length classes.now < 2 ^ 32 }
    requires classes { IsRow classes.now }
    requires numbers { AreNumbers classes.now numbers.old }
    requires before { IsNumberOf classes.now numbers.old.members.items before.number before.state }
    ensures numbers { OnOk result (AreNumbers classes.now numbers.new) }
    ensures number { IfOk result (λ k. IsNumberOf classes.now numbers.new.members.items k state) }
    ensures grown { IfOk result (λ k. Grown numbers.old.members.items state k numbers.new.members.items) }
{
    if state == before.state {
        return Ok(before.number);
    }
    number(numbers, classes, state)
}

/// The numbers of the starts.
pub(crate) fn number_starts(
    alloc: Global,
    numbers: &mut Numbers,
    classes: &[u32],
    starts: &[u32],
) -> Result<Vec<u32>, AllocError>
    requires starts { (i : ℕ) → i < length starts.now → slice_index starts.now i < length classes.now }
    requires few { length classes.now < 2 ^ 32 }
    requires classes { IsRow classes.now }
    requires numbers { AreNumbers classes.now numbers.old }
    requires none { AreCalled (length starts.now) numbers.old.members.items [] }
    ensures { IfOk result (λ v. StartsAdded classes.now starts.now numbers.old numbers.new v.items) }
{
    let mut called = Vec::new(alloc);
    for start in starts {
        called.push(number(numbers, classes, *start)?)?;
    }
    Ok(called)
}

/// Adds the row of the next number: the numbers of where its class goes by each byte. Classes that are called here get
/// numbers.
fn number_row(
    numbers: &mut Numbers,
    classes: &[u32],
    table: &[u32],
    rows: &mut Vec<u32>,
) -> Result<(), AllocError>
    requires has_rows { HasRows classes.now table.now }
    requires numbers { AreNumbers classes.now numbers.old }
    requires whole { length rows.old.items % 256 ≡ 0 }
    requires next { length rows.old.items / 256 < length numbers.old.members.items }
    requires rows { AreRows classes.now table.now numbers.old.members.items rows.old.items }
    ensures { OnOk result (RowAdded classes.now table.now numbers.old numbers.new rows.old.items rows.new.items) }
{
    let row = rows.len() / 256;
    let state = numbers.members[row];
    let mut before = Known {
        state,
        number: row as u32,
    };
    let from = state as usize * 256;
    let mut called = [0u32; 256];
    for byte in 0..256usize {
        let target = table[from + byte];
        let number = number_after(numbers, classes, before, target)?;
        called[byte] = number;
        before = Known {
            state: target,
            number,
        };
    }
    rows.extend_from_slice(&called)?;
    Ok(())
}

/// The rows of the numbers, each with the numbers of where its class goes by each byte. Classes that are called here
/// get numbers, and rows.
#[inline(never)]
pub(crate) fn number_rows(
    alloc: Global,
    numbers: &mut Numbers,
    classes: &[u32],
    table: &[u32],
) -> Result<Vec<u32>, AllocError>
    requires has_rows { HasRows classes.now table.now }
    requires numbers { AreNumbers classes.now numbers.old }
    ensures numbers { OnOk result (AreNumbers classes.now numbers.new) }
    ensures len { IfOk result (λ v. length v.items ≡ 256 * length numbers.new.members.items) }
    ensures rows { IfOk result (λ v. AreRows classes.now table.now numbers.new.members.items v.items) }
    ensures called { IfOk result (λ v. (starts : List ℕ) → AreCalled (length starts) numbers.old.members.items starts
        → AreCalled (length starts) numbers.new.members.items (starts ++ v.items)) }
    ensures keeps { OnOk result (Keeps numbers.old.members.items numbers.new.members.items) }
{
    let mut rows: Vec<u32> = Vec::with_capacity(alloc, table.len())?;
    'rows: while rows.len() / 256 < numbers.members.len() {
        number_row(numbers, classes, table, &mut rows)?;
    }
    Ok(rows)
}
