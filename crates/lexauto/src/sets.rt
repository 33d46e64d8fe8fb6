//! Sets of numbers, as lists and as flags.
ghost use Rattle.std.specs.Prelude.{◌≡◌, ◌<◌, ◌≤◌, ◌^◌, ◌∷◌, ℕ, true, length, slice_index, IfOk};
ghost use Rattle.std.specs.List.{filter};
ghost use Rattle.lex_semantics.specs.Text.{flag, listed};
ghost use Rattle.lex_semantics.specs.Active.{contains};
ghost use Rattle.lexauto_positions.specs.Cursors.{Increases};
ghost use Rattle.lexauto.specs.Sets.{marked, marked_by, number_of, tagged, starts_in, lasts_in};

use std::alloc::{AllocError, Global};

/// What stands in the key of a state that is not dead. The dead state's key is empty.
#[derive(Clone, Copy)]
pub(crate) enum KeyKind {
    /// The numbers of the active rules, in the key of a start state.
    ActiveRules,
    /// The last positions, in the key of another state.
    LastPositions,
}

impl KeyKind {
    /// The number that such a key begins with.
    pub(crate) fn number(self) -> u32
        ensures { result ≡ number_of self }
    {
        match self {
            KeyKind::ActiveRules => 0,
            KeyKind::LastPositions => 1,
        }
    }
}

/// Whether a number is marked.
pub(crate) fn is_marked(marks: &[bool], number: usize) -> bool
    ensures { result ≡ flag marks.now number }
{
    marks.get(number).copied().unwrap_or(false)
}

/// Whether what stands for a number at its place is marked.
pub(crate) fn is_marked_by(places: &[usize], marks: &[bool], number: usize) -> bool
    ensures { result ≡ marked_by places.now marks.now number }
{
    match places.get(number) {
        Some(place) => is_marked(marks, *place),
        None => false,
    }
}

/// Flags for the numbers below `count`: those of the list are marked.
pub(crate) fn marks_of(
    alloc: Global,
    count: usize,
    numbers: &[u32],
) -> Result<Vec<bool>, AllocError>
    ensures length { IfOk result (λ v. length v.items ≡ count) }
    ensures marks { IfOk result (λ v. (i : ℕ) → flag v.items i ≡ marked count numbers.now i) }
{
    let mut marks = vec![in alloc; false; count]?;
    for number in numbers {
        let i = *number as usize;
        if i < count {
            marks[i] = true;
        }
    }
    Ok(marks)
}

/// The marked numbers, ascending.
pub(crate) fn numbers_of(alloc: Global, marks: &[bool]) -> Result<Vec<u32>, AllocError>
    requires { length marks.now < 2 ^ 32 }
    ensures { IfOk result (λ v. v.items ≡ listed (flag marks.now) 0 (length marks.now)) }
{
    let mut numbers = Vec::new(alloc);
    for (i, is_in) in marks.iter().enumerate() {
        if *is_in {
            numbers.push(i as u32)?;
        }
    }
    Ok(numbers)
}

/// Whether numbers that ascend are below `count`.
fn is_below(count: usize, numbers: &[u32]) -> bool
    requires { Increases numbers.now }
    ensures { result ≡ true → (j : ℕ) → j < length numbers.now → slice_index numbers.now j < count }
{
    if numbers.is_empty() {
        return true;
    }
    (numbers[numbers.len() - 1] as usize) < count
}

/// Whether the numbers ascend, of which it may be told, and are below `count`.
pub(crate) fn is_in_order(count: usize, numbers: &[u32], ascends: bool) -> bool
    requires { ascends ≡ true → Increases numbers.now }
    ensures increases { result ≡ true → Increases numbers.now }
    ensures below { result ≡ true → (j : ℕ) → j < length numbers.now → slice_index numbers.now j < count }
{
    if ascends {
        return is_below(count, numbers);
    }
    let mut free = 0;
    for number in numbers {
        let number = *number as usize;
        if number < free || number >= count {
            return false;
        }
        free = number + 1;
    }
    true
}

/// The numbers of the list that are below `count`, ascending, each once.
pub(crate) fn in_order(alloc: Global, count: usize, numbers: &[u32]) -> Result<Vec<u32>, AllocError>
    requires few { count < 2 ^ 32 }
    ensures increases { IfOk result (λ v. Increases v.items) }
    ensures same { IfOk result (λ v. (i : ℕ) → contains v.items i ≡ marked count numbers.now i) }
{
    let marks = marks_of(alloc, count, numbers)?;
    let numbers = numbers_of(alloc, &marks)?;
    Ok(numbers)
}

/// Whether those numbers of the list that are marked are just these.
fn are_marked(kept: &[u32], numbers: &[u32], places: &[usize], marks: &[bool]) -> bool
    ensures { result ≡ true → kept.now ≡ filter (marked_by places.now marks.now) numbers.now }
{
    let mut at = 0;
    for number in numbers {
        if is_marked_by(places, marks, *number as usize) {
            if at >= kept.len() || kept[at] != *number {
                return false;
            }
            at += 1;
        }
    }
    at == kept.len()
}

/// A set as a key of this kind. The empty set is the dead state's.
pub(crate) fn key_of(alloc: Global, kind: KeyKind, numbers: &[u32]) -> Result<Vec<u32>, AllocError>
    ensures { IfOk result (λ v. v.items ≡ tagged (number_of kind) numbers.now) }
{
    if numbers.is_empty() {
        return Ok(Vec::new(alloc));
    }
    let mut key = Vec::with_capacity(alloc, numbers.len() + 1)?;
    key.push(kind.number())?;
    key.extend_from_slice(numbers)?;
    Ok(key)
}

/// Whether a key is that of those last positions of the list that are marked.
pub(crate) fn is_last_key(key: &[u32], numbers: &[u32], places: &[usize], marks: &[bool]) -> bool
    ensures { result ≡ true → key.now ≡ tagged 1 (filter (marked_by places.now marks.now) numbers.now) }
{
    match key.split_first() {
        Some((kind, kept)) => {
            *kind == KeyKind::LastPositions.number()
                && !kept.is_empty()
                && are_marked(kept, numbers, places, marks)
        }
        None => are_marked(key, numbers, places, marks),
    }
}

/// The active rules in a start state's key; none in another.
pub(crate) fn starts_in(key: &[u32]) -> &[u32]
    ensures { result.now ≡ starts_in key.now }
{
    match key.split_first() {
        Some((kind, numbers)) if *kind == KeyKind::ActiveRules.number() => numbers,
        _ => &[],
    }
}

/// The last positions in a key; none in that of a start state.
pub(crate) fn lasts_in(key: &[u32]) -> &[u32]
    ensures { result.now ≡ lasts_in key.now }
{
    match key.split_first() {
        Some((kind, numbers)) if *kind != KeyKind::ActiveRules.number() => numbers,
        _ => &[],
    }
}
