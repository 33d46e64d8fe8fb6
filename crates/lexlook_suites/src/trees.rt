//! A search breadth first from one start, and the ways that it found.
ghost use Rattle.std.specs.Prelude.{◌≡◌, ◌+◌, ◌<◌, ◌≤◌, ◌++◌, List, [], ◌∷◌, ℕ, None, length, IfOk, OnOk};
ghost use Rattle.lex_semantics.specs.Text.{IsText};
ghost use Rattle.lexauto_dfa.specs.Automata.{lists_of, states_of};
ghost use Rattle.lexauto_dfa.specs.Parts.{after};
ghost use Rattle.lexauto_reports.specs.Searching.{place_of, unfound};
ghost use Rattle.lexlook_suites.specs.Trees.{IsPast, IsStep, IsTree, state_at};

use crate::orders::byte_at;
use lexauto_dfa::Dfa;
use std::alloc::{AllocError, Global};

/// A state that a search came to: from the step at this place, by this byte. The first step is the start.
#[derive(Clone, Copy)]
pub(crate) struct Step {
    pub(crate) state: u32,
    pub(crate) from: usize,
    pub(crate) byte: u8,
}

/// The states that a start leads to, those after shorter texts first.
#[derive(Drop)]
pub(crate) struct Tree {
    pub(crate) start: u32,
    pub(crate) steps: Vec<Step>,
    /// For each state the place of its step, if the start leads to it.
    pub(crate) places: Vec<Option<usize>>,
}

/// No place for each state.
fn no_places(alloc: Global, dfa: &Dfa) -> Result<Vec<Option<usize>>, AllocError>
    ensures len { IfOk result (λ v. length v.items ≡ states_of dfa.now) }
    ensures none { IfOk result (λ v. (x : ℕ) → place_of v.items x ≡ None) }
{
    vec![in alloc; None; dfa.len() as usize]
}

impl Tree {
    /// The start alone; nothing where it is the dead state.
    fn first(alloc: Global, dfa: &Dfa, start: u32) -> Result<Tree, AllocError>
        requires { start < states_of dfa.now }
        ensures start { IfOk result (λ t. t.start ≡ start) }
        ensures tree { IfOk result (λ t. IsTree (lists_of dfa.now) start t.steps.items t.places.items 0) }
    {
        let mut places = no_places(alloc, dfa)?;
        let mut steps = Vec::new(alloc);
        if start == 0 {
            return Ok(Tree {
                start,
                steps,
                places,
            });
        }
        places[start as usize] = Some(0);
        steps.push(Step {
            state: start,
            from: 0,
            byte: 0,
        })?;
        Ok(Tree {
            start,
            steps,
            places,
        })
    }

    /// Adds the step by a byte, which comes as this one, from the step at a place, if it comes to a state that has no place yet.
    fn add(&mut self, dfa: &Dfa, place: usize, rank: u32) -> Result<(), AllocError>
        requires place { place < length self.old.steps.items }
        requires rank { rank < 256 }
        requires tree { IsTree (lists_of dfa.now) self.old.start self.old.steps.items self.old.places.items place }
        requires past { IsPast (lists_of dfa.now) self.old.steps.items self.old.places.items place rank }
        ensures start { self.new.start ≡ self.old.start }
        ensures tree { OnOk result
            (IsTree (lists_of dfa.now) self.new.start self.new.steps.items self.new.places.items place) }
        ensures past { OnOk result
            (IsPast (lists_of dfa.now) self.new.steps.items self.new.places.items place (rank + 1)) }
        ensures more { OnOk result (length self.old.steps.items ≤ length self.new.steps.items) }
        ensures fewer { OnOk result (length self.new.steps.items + unfound self.new.places.items
            ≡ length self.old.steps.items + unfound self.old.places.items) }
    {
        let byte = byte_at(rank);
        let state = dfa.next(self.steps[place].state, byte);
        if state == 0 {
            return Ok(());
        }
        if self.places[state as usize].is_some() {
            return Ok(());
        }
        self.places[state as usize] = Some(self.steps.len());
        self.steps.push(Step {
            state,
            from: place,
            byte,
        })?;
        Ok(())
    }

    /// Adds the steps from the step at a place.
    fn expand(&mut self, dfa: &Dfa, place: usize) -> Result<(), AllocError>
        requires place { place < length self.old.steps.items }
        requires tree { IsTree (lists_of dfa.now) self.old.start self.old.steps.items self.old.places.items place }
        ensures start { self.new.start ≡ self.old.start }
        ensures tree { OnOk result
            (IsTree (lists_of dfa.now) self.new.start self.new.steps.items self.new.places.items (place + 1)) }
        ensures more { OnOk result (length self.old.steps.items ≤ length self.new.steps.items) }
        ensures fewer { OnOk result (length self.new.steps.items + unfound self.new.places.items
            ≡ length self.old.steps.items + unfound self.old.places.items) }
    {
        for rank in 0..256u32 {
            self.add(dfa, place, rank)?;
        }
        Ok(())
    }

    /// The bytes on the way from the start to the step at a place.
    pub(crate) fn way_to(
        &self,
        alloc: Global,
        dfa: &Dfa,
        place: usize,
    ) -> Result<Vec<u8>, AllocError>
        requires place { place < length self.now.steps.items }
        requires tree { (j : ℕ) → j < length self.now.steps.items
            → IsStep (lists_of dfa.now) self.now.start self.now.steps.items j }
        ensures { IfOk result (λ w. after (lists_of dfa.now) self.now.start w.items
            ≡ state_at self.now.steps.items place) }
    {
        let mut bytes = Vec::new(alloc);
        let mut at = place;
        while at > 0 {
            let step = self.steps[at];
            bytes.push(step.byte)?;
            at = step.from;
        }
        bytes.reverse();
        Ok(bytes)
    }
}

/// The states that a start leads to.
pub(crate) fn tree_of(alloc: Global, dfa: &Dfa, start: u32) -> Result<Tree, AllocError>
    requires { start < states_of dfa.now }
    ensures start { IfOk result (λ t. t.start ≡ start) }
    ensures tree { IfOk result
        (λ t. IsTree (lists_of dfa.now) start t.steps.items t.places.items (length t.steps.items)) }
{
    let mut tree = Tree::first(alloc, dfa, start)?;
    let mut place = 0;
    while place < tree.steps.len() {
        tree.expand(dfa, place)?;
        place += 1;
    }
    Ok(tree)
}
