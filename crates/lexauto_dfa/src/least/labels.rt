//! Labels of states by the rules that they accept.
ghost use Rattle.std.specs.Prelude.{◌≡◌, ◌⊎◌, ◌^◌, ℕ, ◌<◌, List, Some, length, IfOk, OnOk};
ghost use Rattle.lexauto_dfa.specs.Lists.{AreLabels, look};

use std::alloc::{AllocError, Global};
use std::collections::BTreeMap;
use std::rc::Rc;

/// The first state that was asked for with a list: this one if there was none.
fn first_with(
    alloc: Global,
    firsts: &mut BTreeMap<Vec<u32>, u32>,
    list: &Vec<u32>,
    state: u32,
) -> Result<u32, AllocError>
    ensures found { IfOk result (λ l. look firsts.new list.now.items ≡ Some l) }
    ensures keeps { OnOk result ((k : List ℕ) (i : ℕ) → look firsts.old k ≡ Some i → look firsts.new k ≡ Some i) }
    ensures only { OnOk result ((k : List ℕ) (i : ℕ) → look firsts.new k ≡ Some i
        → (look firsts.old k ≡ Some i) ⊎ ((k ≡ list.now.items) × (i ≡ state))) }
{
    if let Some(first) = firsts.get(list) {
        return Ok(*first);
    }
    let copy = Vec::from_slice(alloc, list)?;
    firsts.insert(copy, state)?;
    Ok(state)
}

/// A label for each state, one for those with the same list.
pub(crate) fn labels_of(alloc: Global, lists: &[Rc<Vec<u32>>]) -> Result<Vec<u32>, AllocError>
    requires few { length lists.now < 2 ^ 32 }
    ensures { IfOk result (λ v. AreLabels lists.now v.items) }
{
    let mut firsts: BTreeMap<Vec<u32>, u32> = BTreeMap::new(alloc);
    let mut labels = Vec::new(alloc);
    for state in 0..lists.len() {
        labels.push(first_with(alloc, &mut firsts, &lists[state], state as u32)?)?;
    }
    Ok(labels)
}
