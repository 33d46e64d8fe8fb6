//! Whether an input may be cut after any newline, and its pieces scanned apart.
ghost use Rattle.std.specs.Prelude.{◌≡◌, ◌≤◌, ◌<◌, ◌+◌, ◌-◌, ◌^◌, ◌++◌, List, ℕ, map, IfOk, IfSome, OnOk};
ghost use Rattle.lex_semantics.specs.Limits.{max_positions, max_states};
ghost use Rattle.lextab_packed.specs.Machines.{table_machine};
ghost use Rattle.lex_machine.specs.Views.{statement_of};
ghost use Rattle.lexlook_calls.specs.Cuts.{rule_place, unsteady_line, straying_line, copying_line, obstacle_line, cut_line};
ghost use Rattle.lexlook_calls.specs.Cuts.{HasCondition, HasRule, CanTell};
ghost use Rattle.lexlook_calls.specs.Cuts.{is_nothing, CutsOf, TellsCuts};
ghost use Rattle.lexlook_calls.specs.Errors.{look_fault_count};
ghost use Rattle.lexlook_calls.specs.Lines.{IsLabelled, side_as};
ghost use Rattle.lexlook_calls.specs.Sides.{read_as};

use crate::error::LookError;
use crate::labels::{add_condition, add_rule};
use crate::reasons::{straying_words, unsteady_words};
use crate::sides::{Side, side_of};
use lex_machine::{Machine, Statement};
use lexkit::{Options, Sink};
use lexlook_specs::add;
use lexlook_tables::{Obstacle, find_obstacle_in};
use lexspec::Spec;
use std::alloc::{AllocError, Global};

/// Appends in which condition and at which rule.
fn add_rule_place(
    text: &mut Vec<u8>,
    given: &Option<Spec>,
    condition: u8,
    rule: u32,
) -> Result<(), AllocError>
    requires condition { HasCondition (read_as given.now) condition }
    requires rule { HasRule (read_as given.now) rule }
    ensures { OnOk result (text.new.items ≡ text.old.items ++ rule_place (read_as given.now) condition rule) }
{
    add(text, b"in ")?;
    add_condition(text, given, condition)?;
    add(text, b" at")?;
    add_rule(text, given, rule)
}

/// Appends the line of a rule with these statements that may not stand there.
fn add_unsteady(
    text: &mut Vec<u8>,
    given: &Option<Spec>,
    statements: &[Statement],
    rule: u32,
) -> Result<(), AllocError>
    requires { HasRule (read_as given.now) rule }
    ensures { OnOk result (text.new.items ≡ text.old.items
        ++ unsteady_line (read_as given.now) (map statement_of statements.now) rule) }
{
    add(text, b"at")?;
    add_rule(text, given, rule)?;
    add(text, b": ")?;
    add(text, unsteady_words(statements).as_bytes())?;
    add(text, b"\n")
}

/// Appends the line of a rule with these statements that may not take a newline.
fn add_straying(
    text: &mut Vec<u8>,
    given: &Option<Spec>,
    statements: &[Statement],
    condition: u8,
    rule: u32,
) -> Result<(), AllocError>
    requires condition { HasCondition (read_as given.now) condition }
    requires rule { HasRule (read_as given.now) rule }
    ensures { OnOk result (text.new.items ≡ text.old.items
        ++ straying_line (read_as given.now) (map statement_of statements.now) condition rule) }
{
    add_rule_place(text, given, condition, rule)?;
    add(text, b": after a newline ")?;
    add(text, straying_words(statements).as_bytes())?;
    add(text, b"\n")
}

/// Appends the line of a condition in which newlines are copied.
fn add_copies(text: &mut Vec<u8>, given: &Option<Spec>, condition: u8) -> Result<(), AllocError>
    requires { HasCondition (read_as given.now) condition }
    ensures { OnOk result (text.new.items ≡ text.old.items ++ copying_line (read_as given.now) condition) }
{
    add(text, b"in ")?;
    add_condition(text, given, condition)?;
    add(text, b": a newline is copied, and the scan stays there\n")
}

/// Appends the line of what stands against cuts.
fn add_obstacle(text: &mut Vec<u8>, side: &Side, obstacle: Obstacle) -> Result<(), AllocError>
    requires { CanTell (table_machine side.now.tables) (read_as side.now.spec) obstacle }
    ensures { OnOk result (text.new.items
        ≡ text.old.items ++ obstacle_line (table_machine side.now.tables) (read_as side.now.spec) obstacle) }
{
    let given = &side.spec;
    match obstacle {
        Obstacle::Unsteady { rule } => {
            let (_, statements) = side.tables.rule(rule);
            add_unsteady(text, given, statements, rule)
        }
        Obstacle::Crosses { condition, rule } => {
            add_rule_place(text, given, condition, rule)?;
            add(text, b": a match may go on after a newline\n")
        }
        Obstacle::Strays { condition, rule } => {
            let (_, statements) = side.tables.rule(rule);
            add_straying(text, given, statements, condition, rule)
        }
        Obstacle::Copies { condition } => add_copies(text, given, condition),
        Obstacle::Writes => add(text, b"at the end of the input something is written\n"),
    }
}

/// The line of what stands against cuts, and no byte where nothing does.
fn cut_line(alloc: Global, side: &Side, found: Option<Obstacle>) -> Result<Vec<u8>, AllocError>
    requires { IfSome found (CanTell (table_machine side.now.tables) (read_as side.now.spec)) }
    ensures { IfOk result (λ line. line.items
        ≡ cut_line (table_machine side.now.tables) (read_as side.now.spec) found) }
{
    let mut text = Vec::new(alloc);
    if let Some(obstacle) = found {
        add_obstacle(&mut text, side, obstacle)?;
    }
    Ok(text)
}

/// Whether nothing stands against cuts.
fn is_nothing(found: Option<Obstacle>) -> bool
    ensures { result ≡ is_nothing found }
{
    match found {
        None => true,
        Some(_) => false,
    }
}

/// Writes what is found of a file.
fn tell_cuts<K: Sink>(alloc: Global, side: &Side, sink: &mut K) -> Result<bool, LookError>
    requires few { K.failures sink.old < 2 ^ 64 - 1 }
    requires labels { (name : List ℕ) → IsLabelled (side_as name side.now) }
    ensures told { CutsOf K.wrote (table_machine side.now.tables) (read_as side.now.spec) sink.old sink.new result }
    ensures failures { K.failures sink.new ≡ K.failures sink.old + look_fault_count result }
{
    let found = match find_obstacle_in(alloc, &side.tables) {
        Err(_) => return Err(LookError::OutOfMemory),
        Ok(found) => found,
    };
    let line = match cut_line(alloc, side, found) {
        Err(_) => return Err(LookError::OutOfMemory),
        Ok(line) => line,
    };
    match sink.put(line.as_slice()) {
        Err(_) => Err(LookError::Write),
        Ok(()) => Ok(is_nothing(found)),
    }
}

/// Looks for an obstacle to cutting inputs after a newline, by what a file stands for: a specification or a table file.
/// Where none is found, the pieces may be scanned apart. Else it writes the obstacle's line, and the pieces may or may not
/// be. Where the file is refused, nothing is written.
pub fn tell_lines<K: Sink>(
    alloc: Global,
    bytes: &[u8],
    options: Options,
    sink: &mut K,
) -> Result<bool, LookError>
    requires few_positions { options.limits.positions ≤ max_positions }
    requires few_states { options.limits.states ≤ max_states }
    requires few { K.failures sink.old < 2 ^ 64 - 1 }
    ensures told { TellsCuts K.wrote options bytes.now sink.old sink.new result }
    ensures failures { K.failures sink.new ≡ K.failures sink.old + look_fault_count result }
{
    match side_of(alloc, bytes, options) {
        Err(error) => Err(error),
        Ok(side) => tell_cuts(alloc, &side, sink),
    }
}
