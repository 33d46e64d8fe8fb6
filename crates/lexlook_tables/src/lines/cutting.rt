//! Whether pieces of an input may be scanned apart.
ghost use Rattle.std.specs.Prelude.{◌≡◌, ℕ, ◌<◌, true, false, [], None, IfOk};
ghost use Rattle.lex_semantics.specs.Text.{Among};
ghost use Rattle.lex_semantics.specs.Machine.{rules_of_machine};
ghost use Rattle.lexlook_tables.specs.Lines.{EndsAt, LinesEnd, ScansApart};
ghost use Rattle.lexlook_tables.specs.Obstacles.{FirstOf, Along, UnsteadyRule, HindersAt, HindersIn, Hinders};

use crate::lines::actions::is_steady;
use crate::lines::discarding::Known;
use crate::lines::newlines::{copies_line, obstacle_at};
use crate::lines::reaching::reached;
use lex_machine::Machine;
use std::alloc::{AllocError, Global};

/// How many states, conditions and rules a machine has.
#[derive(Clone, Copy)]
pub struct MachineSizes {
    pub states: u32,
    pub conditions: u8,
    pub rules: u32,
}

/// Why an input may not be cut after each of its newlines. Rules and conditions are told by their numbers.
#[derive(Clone, Copy, Debug, PartialEq, Eq)]
pub enum Obstacle {
    /// The rule ends the scan or uses the stack of conditions; or it sets a condition and has REJECT.
    Unsteady { rule: u32 },
    /// In this condition a match of the rule may go on after a newline, and not each one there is discarded.
    Crosses { condition: u8, rule: u32 },
    /// The rule may take a newline in this condition, and not leave the scan in INITIAL, or it keeps the text by
    /// yymore.
    Strays { condition: u8, rule: u32 },
    /// The default rule may take a newline in this condition, which is not INITIAL.
    Copies { condition: u8 },
    /// At the end of the input something is written in INITIAL.
    Writes,
}

/// The first rule that ends the scan, uses the stack of conditions, or sets a condition and has REJECT.
fn unsteady_rule<M: Machine>(machine: &M, rules: u32) -> Option<u32>
    requires { rules ≡ (M.machine machine.now).count }
    ensures { FirstOf (UnsteadyRule (M.machine machine.now)) result }
{
    for rule in 0..rules {
        let (_, statements) = machine.rule(rule);
        if !is_steady(statements) {
            return Some(rule);
        }
    }
    None
}

/// What stands first against a cut after a newline that follows on a text which leads to one of these states, in their
/// order.
fn obstacle_among<M: Machine>(
    alloc: Global,
    machine: &M,
    states: u32,
    condition: u8,
    found: &[u32],
) -> Result<Option<Obstacle>, AllocError>
    requires states { states ≡ M.states machine.now }
    requires found { (s : ℕ) → Among found.now s → s < M.states machine.now }
    ensures first { IfOk result (FirstOf (Along found.now (HindersAt (M.machine machine.now) condition))) }
    ensures ends { IfOk result (λ o. o ≡ None → (s : ℕ) → Among found.now s
        → EndsAt (M.machine machine.now) condition ((M.machine machine.now).next s 10)) }
{
    let mut known = Known::new(alloc, states)?;
    for state in found {
        if let Some(obstacle) = obstacle_at(
            alloc, machine, states, condition, *state, &mut known,
        )? {
            return Ok(Some(obstacle));
        }
    }
    Ok(None)
}

/// What stands first against cuts in a condition.
fn obstacle_in<M: Machine>(
    alloc: Global,
    machine: &M,
    states: u32,
    condition: u8,
) -> Result<Option<Obstacle>, AllocError>
    requires states { states ≡ M.states machine.now }
    requires condition { condition < (M.machine machine.now).conditions }
    ensures none { IfOk result (λ found. found ≡ None → LinesEnd (M.machine machine.now) condition) }
    ensures first { IfOk result (FirstOf (HindersIn (M.machine machine.now) condition)) }
{
    let starts = [
        machine.start(condition, false),
        machine.start(condition, true),
    ];
    let found = reached(alloc, machine, states, &starts)?;
    if let Some(obstacle) = obstacle_among(alloc, machine, states, condition, &found)? {
        return Ok(Some(obstacle));
    }
    if copies_line(machine, condition) {
        return Ok(Some(Obstacle::Copies { condition }));
    }
    Ok(None)
}

/// Whether something is written at the end of the input in INITIAL.
fn writes_at_end<M: Machine>(machine: &M) -> bool
    ensures yes { result ≡ true → ((M.machine machine.now).ending 0).print ≡ [] → ⊥ }
    ensures no { result ≡ false → ((M.machine machine.now).ending 0).print ≡ [] }
{
    !machine.eof(0).print.is_empty()
}

/// What stands first against a cut of an input after any of its newlines. Where nothing does, the pieces may be scanned
/// apart, by one machine or by several at a time, and what they write put together. Rules that may not stand there
/// come first, and then the conditions. In each of these shorter texts before a newline come first. Of one length
/// those that are not at the start of a line come first, then byte order counts. It takes up to fourteen bytes of memory
/// for each state.
pub fn find_obstacle<M: Machine>(
    alloc: Global,
    machine: &M,
    sizes: MachineSizes,
) -> Result<Option<Obstacle>, AllocError>
    requires states { sizes.states ≡ M.states machine.now }
    requires conditions { sizes.conditions ≡ (M.machine machine.now).conditions }
    requires rules { sizes.rules ≡ (M.machine machine.now).count }
    ensures none { IfOk result (λ found. found ≡ None → ScansApart (rules_of_machine (M.machine machine.now))) }
    ensures first { IfOk result (FirstOf (Hinders (M.machine machine.now))) }
{
    if let Some(rule) = unsteady_rule(machine, sizes.rules) {
        return Ok(Some(Obstacle::Unsteady { rule }));
    }
    for condition in 0..sizes.conditions {
        if let Some(obstacle) = obstacle_in(alloc, machine, sizes.states, condition)? {
            return Ok(Some(obstacle));
        }
    }
    if writes_at_end(machine) {
        return Ok(Some(Obstacle::Writes));
    }
    Ok(None)
}
