//! Texts after which a scan is in a start condition, at the start of a line or not.
ghost use Rattle.std.specs.Prelude.{◌≡◌, ◌<◌, ℕ, [], true, length};
ghost use Rattle.lexauto_dfa.specs.Automata.{lists_of, start_of, states_of};
ghost use Rattle.lexlook_suites.specs.Trees.{IsStep};

use crate::trees::Tree;
use crate::turns::start_in;
use lexauto_dfa::Dfa;
use lexkit::{Rule, Statement};
use std::alloc::{AllocError, Global};

/// A text after which a scan is in a condition, at the start of a line or not.
#[derive(Drop)]
pub(crate) struct Way {
    pub(crate) condition: u8,
    pub(crate) line_start: bool,
    pub(crate) text: Vec<u8>,
}

impl Way {
    /// The way to where a scan begins.
    pub(crate) fn first(alloc: Global) -> Way
        ensures condition { result.condition ≡ 0 }
        ensures line_start { result.line_start ≡ true }
        ensures text { result.text.items ≡ [] }
    {
        Way {
            condition: 0,
            line_start: true,
            text: Vec::new(alloc),
        }
    }

    /// The state where a match starts behind it; the dead one where there is no such condition.
    pub(crate) fn start(&self, dfa: &Dfa) -> u32
        ensures state { result ≡ start_of dfa.now self.now.condition self.now.line_start }
        ensures known { result < states_of dfa.now }
    {
        start_in(dfa, self.condition, self.line_start)
    }

    /// Its text, and behind it the bytes that lead to the step at a place.
    pub(crate) fn on_to(
        &self,
        alloc: Global,
        dfa: &Dfa,
        tree: &Tree,
        place: usize,
    ) -> Result<Vec<u8>, AllocError>
        requires place { place < length tree.now.steps.items }
        requires tree { (j : ℕ) → j < length tree.now.steps.items
            → IsStep (lists_of dfa.now) tree.now.start tree.now.steps.items j }
    {
        let path = tree.way_to(alloc, dfa, place)?;
        let mut text = Vec::from_slice(alloc, &self.text)?;
        text.extend_from_slice(&path)?;
        Ok(text)
    }
}

/// The condition of the next match after these statements, where they only write, set it, and keep the text for the next one.
fn condition_after(statements: &[Statement], condition: u8) -> Option<u8> {
    let mut next = condition;
    for statement in statements {
        match statement {
            Statement::Echo | Statement::Print(_) | Statement::More => {}
            Statement::Begin(other) | Statement::Push(other) => next = *other,
            _ => return None,
        }
    }
    Some(next)
}

/// The condition after a match that leads to a state, where the action of its rule does no more.
fn condition_at(dfa: &Dfa, rules: &[Rule], state: u32, condition: u8) -> Option<u8>
    requires { state < states_of dfa.now }
{
    let rule = *dfa.accepts(state).first()?;
    let rule = rules.get(rule as usize)?;
    condition_after(&rule.statements, condition)
}

/// Ways to starts, each behind the one that it goes on from.
#[derive(Drop)]
pub(crate) struct Ways {
    pub(crate) list: Vec<Way>,
}

impl Ways {
    /// The way to where a scan begins.
    pub(crate) fn first(alloc: Global) -> Result<Ways, AllocError> {
        let mut list = Vec::new(alloc);
        list.push(Way::first(alloc))?;
        Ok(Ways { list })
    }

    /// A copy of the way at a place, if there are so many.
    pub(crate) fn copy_of(&self, alloc: Global, place: usize) -> Result<Option<Way>, AllocError> {
        if place >= self.list.len() {
            return Ok(None);
        }
        let way = &self.list[place];
        Ok(Some(Way {
            condition: way.condition,
            line_start: way.line_start,
            text: Vec::from_slice(alloc, &way.text)?,
        }))
    }

    /// Whether there is a way to a condition that leads to this start.
    fn has(&self, dfa: &Dfa, condition: u8, start: u32) -> bool {
        for way in &self.list {
            if way.condition == condition && way.start(dfa) == start {
                return true;
            }
        }
        false
    }

    /// Adds a way that goes on from another by the bytes that lead to the step at a place, and by this one if there is
    /// one, where a match of these then leads to a start that no way leads to.
    fn add(
        &mut self,
        alloc: Global,
        dfa: &Dfa,
        rules: &[Rule],
        tree: &Tree,
        way: &Way,
        place: usize,
        last: bool,
    ) -> Result<(), AllocError>
        requires place { place < length tree.now.steps.items }
        requires tree { (j : ℕ) → j < length tree.now.steps.items
            → IsStep (lists_of dfa.now) tree.now.start tree.now.steps.items j }
    {
        let step = tree.steps[place];
        if last && dfa.goes_on(step.state) {
            return Ok(());
        }
        let Some(condition) = condition_at(dfa, rules, step.state, way.condition) else {
            return Ok(());
        };
        let line_start = step.byte == b'\n';
        if self.has(dfa, condition, start_in(dfa, condition, line_start)) {
            return Ok(());
        }
        let text = way.on_to(alloc, dfa, tree, place)?;
        self.list.push(Way {
            condition,
            line_start,
            text,
        })?;
        Ok(())
    }

    /// The same, where a newline stands behind these bytes.
    fn add_line(
        &mut self,
        alloc: Global,
        dfa: &Dfa,
        rules: &[Rule],
        tree: &Tree,
        way: &Way,
        place: usize,
    ) -> Result<(), AllocError>
        requires place { place < length tree.now.steps.items }
        requires tree { (j : ℕ) → j < length tree.now.steps.items
            → IsStep (lists_of dfa.now) tree.now.start tree.now.steps.items j }
    {
        let state = dfa.next(tree.steps[place].state, b'\n');
        let Some(condition) = condition_at(dfa, rules, state, way.condition) else {
            return Ok(());
        };
        if self.has(dfa, condition, start_in(dfa, condition, true)) {
            return Ok(());
        }
        let mut text = way.on_to(alloc, dfa, tree, place)?;
        text.push(b'\n')?;
        self.list.push(Way {
            condition,
            line_start: true,
            text,
        })?;
        Ok(())
    }

    /// Adds the ways that go on from another, by matches that nothing may go on from or by all.
    fn add_steps(
        &mut self,
        alloc: Global,
        dfa: &Dfa,
        rules: &[Rule],
        tree: &Tree,
        way: &Way,
        last: bool,
    ) -> Result<(), AllocError>
        requires tree { (j : ℕ) → j < length tree.now.steps.items
            → IsStep (lists_of dfa.now) tree.now.start tree.now.steps.items j }
    {
        for place in 1..tree.steps.len() {
            self.add(alloc, dfa, rules, tree, way, place, last)?;
        }
        Ok(())
    }

    /// Adds the ways that go on from another: by matches that nothing may go on from, by those that end a line, and then by
    /// all.
    pub(crate) fn add_all(
        &mut self,
        alloc: Global,
        dfa: &Dfa,
        rules: &[Rule],
        tree: &Tree,
        way: &Way,
    ) -> Result<(), AllocError>
        requires tree { (j : ℕ) → j < length tree.now.steps.items
            → IsStep (lists_of dfa.now) tree.now.start tree.now.steps.items j }
    {
        self.add_steps(alloc, dfa, rules, tree, way, true)?;
        for place in 0..tree.steps.len() {
            self.add_line(alloc, dfa, rules, tree, way, place)?;
        }
        self.add_steps(alloc, dfa, rules, tree, way, false)
    }
}
