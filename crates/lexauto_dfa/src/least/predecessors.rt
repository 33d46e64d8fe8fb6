//! The states that go to a state, whatever the letter.
ghost use Rattle.std.specs.Prelude.{◌≡◌, ◌^◌, ℕ, ◌<◌, true, length, slice_index, IfOk};
ghost use Rattle.lexauto_dfa.specs.declared.least.predecessors.Predecessors.TheVariants as variants;
ghost use Rattle.lexauto_dfa.specs.Arranged.{Arranged, IsAlone, states};
ghost use Rattle.lexauto_dfa.specs.Letters.{AreLetters};
ghost use Rattle.lexauto_dfa.specs.Predecessors.{AllowMoves, Allows, AreBelow, known_of};
ghost use Rattle.lexauto_dfa.specs.Sources.{Has, IsRow};

use crate::least::blocks::Blocks;
use crate::least::marking::is_alone;
use crate::least::sources::Letter;
use std::alloc::{AllocError, Global};

/// The states that go to a state by some letter, where there is at most one.
#[derive(Clone, Copy)]
pub(crate) enum Predecessors {
    None,
    One(u32),
    Many,
}

impl Predecessors {
    /// Adds one more, which may be among them already.
    #[inline(always)]
    fn add(&mut self, state: u32)
        ensures allows { Allows self.new state }
        ensures keeps { (x : ℕ) → Allows self.old x → Allows self.new x }
        ensures one { (x : ℕ) → self.new ≡ variants.One x → x ≡ state }
    {
        match *self {
            Predecessors::None => *self = Predecessors::One(state),
            Predecessors::One(one) => {
                if one != state {
                    *self = Predecessors::Many;
                }
            }
            Predecessors::Many => {}
        }
    }
}

/// Adds each state to the predecessors of the state that it goes to.
fn add_row(known: &mut [Predecessors], row: &[u32])
    requires few { length row.now < 2 ^ 32 }
    requires row { IsRow row.now }
    requires len { length known.old ≡ length row.now }
    requires below { AreBelow (length row.now) known.old }
    ensures len { length known.new ≡ length known.old }
    ensures below { AreBelow (length row.now) known.new }
    ensures keeps { (t x : ℕ) → Allows (known_of known.old t) x → Allows (known_of known.new t) x }
    ensures allows { (x : ℕ) → x < length row.now → Allows (known_of known.new (slice_index row.now x)) x }
{
    for state in 0..row.len() {
        let target = row[state] as usize;
        known[target].add(state as u32);
    }
}

/// The predecessors of each state.
pub(crate) fn predecessors_of(
    alloc: Global,
    letters: &[Letter],
    states: usize,
) -> Result<Vec<Predecessors>, AllocError>
    requires few { states < 2 ^ 32 }
    requires rows { AreLetters letters.now states }
    ensures len { IfOk result (λ v. length v.items ≡ states) }
    ensures below { IfOk result (λ v. AreBelow states v.items) }
    ensures allow { IfOk result (λ v. AllowMoves letters.now states v.items) }
{
    let mut known = vec![in alloc; Predecessors::None; states]?;
    for letter in letters {
        add_row(&mut known, &letter.row);
    }
    Ok(known)
}

/// Whether each state that goes to a state is alone in its block, where at most one does.
#[inline(always)]
fn has_lone(blocks: &Blocks, predecessors: Predecessors) -> bool
    requires arranged { Arranged blocks.now }
    requires below { (x : ℕ) → predecessors ≡ variants.One x → x < states blocks.now }
    ensures { result ≡ true → (x : ℕ) → Allows predecessors x → IsAlone blocks.now x }
{
    match predecessors {
        Predecessors::None => true,
        Predecessors::One(state) => is_alone(blocks, state),
        Predecessors::Many => false,
    }
}

/// Whether nothing is left to be cut by what goes to some states: each that does is alone in its block.
pub(crate) fn is_settled(blocks: &Blocks, known: &[Predecessors], targets: &[u32]) -> bool
    requires targets { (i : ℕ) → i < length targets.now → slice_index targets.now i < length known.now }
    requires arranged { Arranged blocks.now }
    requires below { AreBelow (states blocks.now) known.now }
    ensures { result ≡ true → (t x : ℕ) → Has targets.now t → Allows (known_of known.now t) x → IsAlone blocks.now x }
{
    for target in targets {
        if !has_lone(blocks, known[*target as usize]) {
            return false;
        }
    }
    true
}
