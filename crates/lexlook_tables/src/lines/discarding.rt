//! Whether all is discarded that a match takes after a newline.
ghost use Rattle.std.specs.Prelude.{◌≡◌, ℕ, ◌<◌, true, false, [], map, replicate, IfOk};
ghost use Rattle.lex_semantics.specs.Spec.{Whole};
ghost use Rattle.lex_machine.specs.Views.{cut_of, statement_of};
ghost use Rattle.lexlook_tables.specs.Lines.{AllDiscard, StartsAgainBy, DiscardsLine};
ghost use Rattle.lexlook_tables.specs.Discarding.{AcceptsNoMore, DiscardsAt, IsKnown};

use crate::lines::reaching::{add, widen};
use lex_machine::{Cut, Machine, Statement};
use std::alloc::{AllocError, Global};

/// States from which on all is discarded, as far as they are known, and marks on them.
#[derive(Drop)]
pub(crate) struct Known {
    pub found: Vec<u32>,
    pub marks: Vec<bool>,
}

impl Known {
    /// Of so many states none is known.
    pub(crate) fn new(alloc: Global, states: u32) -> Result<Known, AllocError>
        ensures found { IfOk result (λ known. known.found.items ≡ []) }
        ensures marks { IfOk result (λ known. known.marks.items ≡ replicate states false) }
    {
        Ok(Known {
            found: Vec::new(alloc),
            marks: vec![in alloc; false; states as usize]?,
        })
    }
}

/// Whether all of a match is its text, and nothing is done with it.
fn discards(cut: Cut, statements: &[Statement]) -> bool
    ensures yes { result ≡ true → (cut_of cut ≡ Whole) × (map statement_of statements.now ≡ []) }
    ensures no { result ≡ false → cut_of cut ≡ Whole → map statement_of statements.now ≡ [] → ⊥ }
{
    match cut {
        Cut::Whole => statements.is_empty(),
        _ => false,
    }
}

/// Whether each rule that the state accepts discards its matches.
fn discards_at<M: Machine>(machine: &M, state: u32) -> bool
    requires { state < M.states machine.now }
    ensures yes { result ≡ true → DiscardsAt (M.machine machine.now) state }
    ensures no { result ≡ false → DiscardsAt (M.machine machine.now) state → ⊥ }
{
    for rule in machine.accepts(state) {
        let (cut, statements) = machine.rule(*rule);
        if !discards(cut, statements) {
            return false;
        }
    }
    true
}

/// Whether some rule is accepted in the state or further on.
fn accepts_more<M: Machine>(machine: &M, state: u32) -> bool
    requires { state < M.states machine.now }
    ensures yes { result ≡ true → AcceptsNoMore (M.machine machine.now) state → ⊥ }
    ensures no { result ≡ false → AcceptsNoMore (M.machine machine.now) state }
{
    !machine.accepts(state).is_empty() || machine.goes_on(state)
}

/// Whether a match that goes on by this byte goes on as one does from the state where one starts.
fn starts_again_by<M: Machine>(machine: &M, state: u32, first: u32, byte: u8) -> bool
    requires state { state < M.states machine.now }
    requires first { first < M.states machine.now }
    requires start { first ≡ (M.machine machine.now).start 0 true }
    ensures yes { result ≡ true → StartsAgainBy (M.machine machine.now) state byte }
    ensures no { result ≡ false → StartsAgainBy (M.machine machine.now) state byte → ⊥ }
{
    let next = machine.step(state, byte);
    next == machine.step(first, byte) || !accepts_more(machine, next)
}

/// Whether each match that goes on from the state goes on as one does that starts at a line in INITIAL.
fn starts_again<M: Machine>(machine: &M, state: u32) -> bool
    requires { state < M.states machine.now }
    ensures yes { result ≡ true → (b : ℕ) → b < 256 → StartsAgainBy (M.machine machine.now) state b }
    ensures no { result ≡ false → ((b : ℕ) → b < 256 → StartsAgainBy (M.machine machine.now) state b) → ⊥ }
{
    let first = machine.start(0, true);
    'bytes: for byte in 0..256u32 {
        if !starts_again_by(machine, state, first, byte as u8) {
            return false;
        }
    }
    true
}

/// Whether all is discarded that is accepted from the state on. If it is, the states are known that it leads to.
fn all_discard<M: Machine>(machine: &M, state: u32, known: &mut Known) -> Result<bool, AllocError>
    requires state { state < M.states machine.now }
    requires known { IsKnown (M.machine machine.now) (M.states machine.now) known.old }
    ensures yes { IfOk result (λ all. all ≡ true → AllDiscard (M.machine machine.now) state) }
    ensures no { IfOk result (λ all. all ≡ false → AllDiscard (M.machine machine.now) state → ⊥) }
    ensures known { IfOk result (λ all. all ≡ true
        → IsKnown (M.machine machine.now) (M.states machine.now) known.new) }
{
    let mut place = known.found.len();
    add(&mut known.found, &mut known.marks, state)?;
    'states: while place < known.found.len() {
        if !discards_at(machine, known.found[place]) {
            return Ok(false);
        }
        widen(machine, &mut known.found, &mut known.marks, place)?;
        place += 1;
    }
    Ok(true)
}

/// Whether a match is taken in the state after a newline in INITIAL, and each one is discarded there and further on, and
/// goes on as one does that starts there. If so, the states are known that it leads to.
pub(crate) fn discards_line<M: Machine>(
    machine: &M,
    condition: u8,
    state: u32,
    known: &mut Known,
) -> Result<bool, AllocError>
    requires state { state < M.states machine.now }
    requires known { IsKnown (M.machine machine.now) (M.states machine.now) known.old }
    ensures yes { IfOk result (λ discards. discards ≡ true
        → DiscardsLine (M.machine machine.now) condition state) }
    ensures no { IfOk result (λ discards. discards ≡ false
        → DiscardsLine (M.machine machine.now) condition state → ⊥) }
    ensures known { IfOk result (λ discards. discards ≡ true
        → IsKnown (M.machine machine.now) (M.states machine.now) known.new) }
{
    if condition != 0 || machine.accepts(state).is_empty() || !starts_again(machine, state) {
        return Ok(false);
    }
    all_discard(machine, state, known)
}
