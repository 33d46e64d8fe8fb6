//! What is known of the first rule that each state accepts.
ghost use Rattle.std.specs.Prelude.{◌≡◌, ℕ, ◌<◌, map, length, slice_get, Some, IfOk};
ghost use Rattle.lex_machine.specs.Views.{statement_of};
ghost use Rattle.lextab_packed.specs.Flats.{kind_of, kind_doing};
ghost use Rattle.lextab_packed.specs.Machines.{table_machine, table_states};

use crate::tables::Tables;
use lex_machine::{Cut, Machine, Statement, are_simple};
use std::alloc::{AllocError, Global};

/// What the first rule does that a state accepts. Each but the first two says that it keeps all of a match.
#[derive(Clone, Copy)]
pub(crate) enum Kind {
    /// Something else.
    Any,
    /// There is no such rule.
    NoRule,
    /// Nothing.
    Silent,
    /// It writes the text.
    Echo,
    /// It is the rule of this number, and writes a literal.
    Print(u32),
    /// It sets this start condition.
    Begin(u8),
    /// It is the rule of this number, and each of its statements writes the text or a literal, or sets the start
    /// condition.
    Several(u32),
}

/// What a rule does that keeps all of a match.
fn kind_doing(rule: u32, statements: &[Statement]) -> Kind
    ensures { result ≡ kind_doing rule (map statement_of statements.now) }
{
    match statements {
        [] => Kind::Silent,
        [Statement::Echo] => Kind::Echo,
        [Statement::Print(_)] => Kind::Print(rule),
        [Statement::Begin(condition)] => Kind::Begin(*condition),
        _ => {
            if are_simple(statements) {
                Kind::Several(rule)
            } else {
                Kind::Any
            }
        }
    }
}

/// What the first rule does that the state accepts.
fn kind_of(tables: &Tables, state: u32) -> Kind
    requires { state < table_states tables.now }
    ensures { result ≡ kind_of (table_machine tables.now) state }
{
    let Some(rule) = tables.accepts(state).first() else {
        return Kind::NoRule;
    };
    let (cut, statements) = tables.rule(*rule);
    match cut {
        Cut::Whole => kind_doing(*rule, statements),
        Cut::Head(_) | Cut::Trail(_) => Kind::Any,
    }
}

/// What the first rule does that each state accepts.
pub(crate) fn kinds_of(alloc: Global, tables: &Tables) -> Result<Vec<Kind>, AllocError>
    ensures len { IfOk result (λ v. length v.items ≡ table_states tables.now) }
    ensures each { IfOk result (λ v. (s : ℕ) → s < table_states tables.now
        → slice_get v.items s ≡ Some (kind_of (table_machine tables.now) s)) }
{
    let states = tables.parts.rows.len();
    let mut kinds = Vec::with_capacity(alloc, states)?;
    for state in 0..states {
        kinds.push(kind_of(tables, state as u32))?;
    }
    Ok(kinds)
}
