//! Packing.
ghost use Rattle.std.specs.Prelude.{◌≡◌, ℕ, ◌*◌, ◌<◌, ◌≤◌, length, slice_index, IfOk};
ghost use Rattle.lextab.specs.Columns.{IsPacking};
ghost use Rattle.lexauto_dfa.specs.Alike.{moves};
ghost use Rattle.lextab.specs.PackingViews.{packing_of};
ghost use Rattle.lex_semantics.specs.Limits.{max_states};

use crate::classes::classes_of;
use crate::filling::slots_of;
use crate::placing::bases_of;
use crate::rows::defaults_of;
use std::alloc::{AllocError, Global};

/// A packed table.
#[derive(Drop)]
pub(crate) struct Packed {
    pub(crate) class_of: Vec<u8>,
    pub(crate) class_count: usize,
    pub(crate) defaults: Vec<u32>,
    pub(crate) bases: Vec<u32>,
    pub(crate) check: Vec<u16>,
    pub(crate) next: Vec<u16>,
}

/// Packs an automaton of this many states, given the targets of each state, 256 to a state.
pub(crate) fn pack_rows(alloc: Global, next: &[u32], states: usize) -> Result<Packed, AllocError>
    requires rows { length next.now ≡ 256 * states }
    requires some { 0 < states }
    requires few { states ≤ max_states }
    requires below { (i : ℕ) → i < length next.now → slice_index next.now i < states }
    ensures { IfOk result (λ p. IsPacking states (moves next.now) (packing_of p)) }
{
    let classes = classes_of(alloc, next, states)?;
    let mut counts = vec![in alloc; 0u32; states]?;
    let defaults = defaults_of(alloc, next, states, &classes.heads, &mut counts)?;
    let bases = bases_of(alloc, next, states, &classes.heads, &defaults)?;
    let slots = slots_of(alloc, next, &classes.heads, &defaults, &bases)?;
    Ok(Packed {
        class_count: classes.heads.len(),
        class_of: classes.class_of,
        defaults,
        bases,
        check: slots.check,
        next: slots.targets,
    })
}
