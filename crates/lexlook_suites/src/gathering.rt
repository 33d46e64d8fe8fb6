//! Inputs that are gathered one by one, with the marks of their turns.
ghost use Rattle.std.specs.Prelude.{◌≡◌, ◌≢◌, ◌+◌, ◌<◌, ◌≤◌, ◌++◌, [], ◌∷◌, true, ℕ, List, length, IfOk, OnOk};
ghost use Rattle.lex_semantics.specs.Text.{IsText};
ghost use Rattle.lexauto_dfa.specs.Automata.{lists_of, next_of, states_of};
ghost use Rattle.lexauto_dfa.specs.Parts.{after};
ghost use Rattle.lexlook_suites.specs.Gathers.{Adds, HasAllEdges, HasEdge, HasEdges, HasText, IsFirst, IsGathered, rules_by};
ghost use Rattle.lexlook_suites.specs.Trees.{IsStep, state_at};
ghost use Rattle.lexlook_suites.specs.Marking.{Adds as AddsMarks, IsSized};
ghost use Rattle.lexlook_suites.specs.Turns.{TurnComesTo, TurnGoesBy};

use crate::edges::{is_walked, rule_at};
use crate::inputs::{Input, scan_text};
use crate::marks::Marks;
use crate::orders::byte_at;
use crate::trees::Tree;
use crate::ways::Way;
use lexauto_dfa::Dfa;
use lexkit::Flat;
use lexlook_specs::add;
use lexscan::Token;
use std::alloc::{AllocError, Global};

/// The inputs so far, with what their turns go through.
#[derive(Drop)]
pub(crate) struct Gathered {
    pub(crate) inputs: Vec<Input>,
    pub(crate) marks: Marks,
}

/// Whether a turn of these tokens begins at this place in this condition.
fn begins(tokens: &[Token], at: usize, condition: u8) -> bool {
    let mut from = 0usize;
    for token in tokens {
        if from == at && token.condition == condition {
            return true;
        }
        from = token.end;
    }
    false
}

/// Whether an input behind a way of `at` bytes is kept: behind none it always is, and else if a turn begins there in the
/// condition.
fn is_kept(tokens: &[Token], at: usize, condition: u8) -> bool
    ensures { at ≡ 0 → result ≡ true }
{
    if at == 0 {
        return true;
    }
    begins(tokens, at, condition)
}

/// A way, a path behind it, and a byte behind that.
fn joined(alloc: Global, way: &[u8], path: &[u8], byte: u8) -> Result<Vec<u8>, AllocError>
    ensures joined { IfOk result (λ t. t.items ≡ way.now ++ path.now ++ byte ∷ []) }
    ensures path { IfOk result (λ t. IsText path.now) }
{
    let mut text = Vec::new(alloc);
    add(&mut text, way)?;
    add(&mut text, path)?;
    add(&mut text, &[byte])?;
    Ok(text)
}

/// A text that leads from a start to the step at a place, and on by a byte, behind the way to that start.
fn text_by(
    alloc: Global,
    dfa: &Dfa,
    tree: &Tree,
    place: usize,
    way: &[u8],
    byte: u8,
) -> Result<Vec<u8>, AllocError>
    requires place { place < length tree.now.steps.items }
    requires tree { (j : ℕ) → j < length tree.now.steps.items
        → IsStep (lists_of dfa.now) tree.now.start tree.now.steps.items j }
    ensures { IfOk result (λ t. (v : List ℕ) × IsText v × (t.items ≡ way.now ++ v ++ byte ∷ [])
        × (after (lists_of dfa.now) tree.now.start v ≡ state_at tree.now.steps.items place)) }
{
    let path = tree.way_to(alloc, dfa, place)?;
    let text = joined(alloc, way, path.as_slice(), byte)?;
    Ok(text)
}

/// So many texts at most are added for a start at whose end a scan backs up.
const MOST_BACKING_UP: usize = 250;

/// Whether no rule takes the text that leads to the step at a place, and one takes a shorter one on the way. It notes whether one
/// takes any of these.
fn backs_up(dfa: &Dfa, tree: &Tree, place: usize, taken: &mut [bool]) -> bool
    requires place { place < length tree.now.steps.items }
    requires tree { (j : ℕ) → j < length tree.now.steps.items
        → IsStep (lists_of dfa.now) tree.now.start tree.now.steps.items j }
{
    let step = tree.steps[place];
    let before = step.from < taken.len() && taken[step.from];
    let here = !dfa.accepts(step.state).is_empty();
    if place < taken.len() {
        taken[place] = before || here;
    }
    before && !here
}

impl Gathered {
    /// No inputs.
    pub(crate) fn none(alloc: Global, dfa: &Dfa, machine: &Flat) -> Result<Gathered, AllocError>
        ensures { IfOk result (IsGathered (rules_by machine.now) (lists_of dfa.now)) }
    {
        let marks = Marks::none(alloc, dfa)?;
        let inputs = Vec::new(alloc);
        Ok(Gathered { inputs, marks })
    }

    /// Keeps an input, and marks what its turns go through.
    fn keep(&mut self, alloc: Global, dfa: &Dfa, input: Input) -> Result<(), AllocError>
        requires { IsSized (states_of dfa.now) self.old.marks }
        ensures inputs { OnOk result (self.new.inputs.items ≡ self.old.inputs.items ++ input ∷ []) }
        ensures marks { AddsMarks (states_of dfa.now) self.old.marks self.new.marks
            (TurnComesTo (lists_of dfa.now) input.text.items 0 input.tokens.items)
            (TurnGoesBy (lists_of dfa.now) input.text.items 0 input.tokens.items) }
    {
        self.marks
            .turns(alloc, dfa, input.text.as_slice(), input.tokens.as_slice());
        self.inputs.push(input)?;
        Ok(())
    }

    /// Scans a text, and keeps it as an input unless the scan stops where the stack of conditions is at fault. Behind a
    /// way of `at` bytes it is kept only if a turn begins there in the condition.
    fn add(
        &mut self,
        alloc: Global,
        dfa: &Dfa,
        machine: &Flat,
        condition: u8,
        at: usize,
        text: Vec<u8>,
    ) -> Result<(), AllocError>
        requires { IsGathered (rules_by machine.now) (lists_of dfa.now) self.old }
        ensures adds { OnOk result (Adds (rules_by machine.now) (lists_of dfa.now) self.old self.new) }
        ensures text { OnOk result (at ≡ 0 → HasText (rules_by machine.now) (lists_of dfa.now) self.new text.items) }
    {
        let scanned = scan_text(alloc, machine, condition, text)?;
        let Some(input) = scanned else {
            return Ok(());
        };
        if is_kept(input.tokens.as_slice(), at, condition) {
            self.keep(alloc, dfa, input)?;
            return Ok(());
        }
        Ok(())
    }

    /// Adds a text over the edge from the step at a place by a byte, unless an input goes over it.
    fn add_over(
        &mut self,
        alloc: Global,
        dfa: &Dfa,
        machine: &Flat,
        tree: &Tree,
        way: &Way,
        place: usize,
        byte: u8,
    ) -> Result<(), AllocError>
        requires gathered { IsGathered (rules_by machine.now) (lists_of dfa.now) self.old }
        requires place { place < length tree.now.steps.items }
        requires tree { (j : ℕ) → j < length tree.now.steps.items
            → IsStep (lists_of dfa.now) tree.now.start tree.now.steps.items j }
        ensures adds { OnOk result (Adds (rules_by machine.now) (lists_of dfa.now) self.old self.new) }
        ensures over { OnOk result (IsFirst (lists_of dfa.now) way.now.text.items tree.now.start
            → next_of dfa.now (state_at tree.now.steps.items place) byte ≢ 0
            → HasEdge (rules_by machine.now) (lists_of dfa.now) self.new (state_at tree.now.steps.items place) byte) }
    {
        let state = tree.steps[place].state;
        let target = dfa.next(state, byte);
        if target == 0 {
            return Ok(());
        }
        if is_walked(dfa, &self.marks, state, target) {
            return Ok(());
        }
        let text = text_by(alloc, dfa, tree, place, way.text.as_slice(), byte)?;
        self.add(alloc, dfa, machine, way.condition, way.text.len(), text)?;
        Ok(())
    }

    /// Adds texts over the edges from the step at a place that no input goes over.
    fn add_edges(
        &mut self,
        alloc: Global,
        dfa: &Dfa,
        machine: &Flat,
        tree: &Tree,
        way: &Way,
        place: usize,
    ) -> Result<(), AllocError>
        requires gathered { IsGathered (rules_by machine.now) (lists_of dfa.now) self.old }
        requires place { place < length tree.now.steps.items }
        requires tree { (j : ℕ) → j < length tree.now.steps.items
            → IsStep (lists_of dfa.now) tree.now.start tree.now.steps.items j }
        ensures adds { OnOk result (Adds (rules_by machine.now) (lists_of dfa.now) self.old self.new) }
        ensures edges { OnOk result (IsFirst (lists_of dfa.now) way.now.text.items tree.now.start
            → HasEdges (rules_by machine.now) (lists_of dfa.now) self.new (state_at tree.now.steps.items place) 256) }
    {
        for rank in 0..256u32 {
            self.add_over(alloc, dfa, machine, tree, way, place, byte_at(rank))?;
        }
        Ok(())
    }

    /// Adds texts over all edges that a start leads to and no input goes over, behind the way to that start. The longest
    /// come first, since each goes over all edges on its way.
    pub(crate) fn add_all_edges(
        &mut self,
        alloc: Global,
        dfa: &Dfa,
        machine: &Flat,
        tree: &Tree,
        way: &Way,
    ) -> Result<(), AllocError>
        requires gathered { IsGathered (rules_by machine.now) (lists_of dfa.now) self.old }
        requires tree { (j : ℕ) → j < length tree.now.steps.items
            → IsStep (lists_of dfa.now) tree.now.start tree.now.steps.items j }
        ensures adds { OnOk result (Adds (rules_by machine.now) (lists_of dfa.now) self.old self.new) }
        ensures edges { OnOk result (IsFirst (lists_of dfa.now) way.now.text.items tree.now.start
            → HasAllEdges (rules_by machine.now) (lists_of dfa.now) self.new tree.now.steps.items 0) }
    {
        let mut place = tree.steps.len();
        while place > 0 {
            place -= 1;
            self.add_edges(alloc, dfa, machine, tree, way, place)?;
        }
        Ok(())
    }

    /// Adds the first text that each rule takes from a start on, behind the way to that start.
    pub(crate) fn add_rules(
        &mut self,
        alloc: Global,
        dfa: &Dfa,
        machine: &Flat,
        tree: &Tree,
        way: &Way,
        rules: u32,
    ) -> Result<(), AllocError>
        requires gathered { IsGathered (rules_by machine.now) (lists_of dfa.now) self.old }
        requires tree { (j : ℕ) → j < length tree.now.steps.items
            → IsStep (lists_of dfa.now) tree.now.start tree.now.steps.items j }
        ensures { OnOk result (Adds (rules_by machine.now) (lists_of dfa.now) self.old self.new) }
    {
        let mut seen = vec![in alloc; false; rules as usize]?;
        for place in 1..tree.steps.len() {
            self.add_rule(alloc, dfa, machine, tree, way, place, &mut seen)?;
        }
        Ok(())
    }

    /// Adds the text that leads to the step at a place, if a rule takes it that took none before.
    fn add_rule(
        &mut self,
        alloc: Global,
        dfa: &Dfa,
        machine: &Flat,
        tree: &Tree,
        way: &Way,
        place: usize,
        seen: &mut [bool],
    ) -> Result<(), AllocError>
        requires gathered { IsGathered (rules_by machine.now) (lists_of dfa.now) self.old }
        requires place { place < length tree.now.steps.items }
        requires tree { (j : ℕ) → j < length tree.now.steps.items
            → IsStep (lists_of dfa.now) tree.now.start tree.now.steps.items j }
        ensures { OnOk result (Adds (rules_by machine.now) (lists_of dfa.now) self.old self.new) }
    {
        let rule = rule_at(dfa, u32::MAX, tree.steps[place].state) as usize;
        if rule >= seen.len() {
            return Ok(());
        }
        if seen[rule] {
            return Ok(());
        }
        seen[rule] = true;
        self.add_to(alloc, dfa, machine, tree, way, place)
    }

    /// Adds texts from a start on at whose end a scan backs up, behind the way to that start: no rule takes them, and one takes a
    /// shorter one on the way. Those of the first 250 such states.
    pub(crate) fn add_all_backing_up(
        &mut self,
        alloc: Global,
        dfa: &Dfa,
        machine: &Flat,
        tree: &Tree,
        way: &Way,
    ) -> Result<(), AllocError>
        requires gathered { IsGathered (rules_by machine.now) (lists_of dfa.now) self.old }
        requires tree { (j : ℕ) → j < length tree.now.steps.items
            → IsStep (lists_of dfa.now) tree.now.start tree.now.steps.items j }
        ensures { OnOk result (Adds (rules_by machine.now) (lists_of dfa.now) self.old self.new) }
    {
        let most = self.inputs.len().saturating_add(MOST_BACKING_UP);
        let mut taken = vec![in alloc; false; tree.steps.len()]?;
        for place in 1..tree.steps.len() {
            let backs_up = backs_up(dfa, tree, place, &mut taken);
            if backs_up && self.inputs.len() < most {
                self.add_to(alloc, dfa, machine, tree, way, place)?;
            }
        }
        Ok(())
    }

    /// Adds the text that leads to the step at a place, behind the way to where it begins.
    fn add_to(
        &mut self,
        alloc: Global,
        dfa: &Dfa,
        machine: &Flat,
        tree: &Tree,
        way: &Way,
        place: usize,
    ) -> Result<(), AllocError>
        requires gathered { IsGathered (rules_by machine.now) (lists_of dfa.now) self.old }
        requires place { place < length tree.now.steps.items }
        requires tree { (j : ℕ) → j < length tree.now.steps.items
            → IsStep (lists_of dfa.now) tree.now.start tree.now.steps.items j }
        ensures { OnOk result (Adds (rules_by machine.now) (lists_of dfa.now) self.old self.new) }
    {
        let text = way.on_to(alloc, dfa, tree, place)?;
        self.add(alloc, dfa, machine, way.condition, way.text.len(), text)?;
        Ok(())
    }

    /// Whether there is an input of this text that was made for the condition.
    fn has(&self, condition: u8, text: &[u8]) -> bool {
        for input in &self.inputs {
            if input.condition == condition && input.text.as_slice() == text {
                return true;
            }
        }
        false
    }

    /// Adds the way to a start, as an input that ends there, unless there is one.
    pub(crate) fn add_end(
        &mut self,
        alloc: Global,
        dfa: &Dfa,
        machine: &Flat,
        way: &Way,
    ) -> Result<(), AllocError>
        requires gathered { IsGathered (rules_by machine.now) (lists_of dfa.now) self.old }
        ensures { OnOk result (Adds (rules_by machine.now) (lists_of dfa.now) self.old self.new) }
    {
        if self.has(way.condition, &way.text) {
            return Ok(());
        }
        let text = Vec::from_slice(alloc, &way.text)?;
        self.add(alloc, dfa, machine, way.condition, 0, text)?;
        Ok(())
    }
}
