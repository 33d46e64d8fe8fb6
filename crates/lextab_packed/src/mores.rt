//! States whose first rule does yymore alone.
ghost use Rattle.std.specs.Prelude.{◌≡◌, ◌<◌, length, map, true, slice_get, Some, ℕ, IfOk};
ghost use Rattle.lex_machine.specs.Views.{statement_of};
ghost use Rattle.lextab_packed.specs.Flats.{kind_of};
ghost use Rattle.lextab_packed.specs.Mores.{is_more, does_more, TellMore};
ghost use Rattle.lextab_packed.specs.Machines.{table_machine, table_states};

use crate::kinds::Kind;
use crate::parts::TableRule;
use crate::tables::Tables;
use lex_machine::{Cut, Machine, Statement};
use std::alloc::{AllocError, Global};

/// Whether these statements are yymore alone.
fn is_more(statements: &[Statement]) -> bool
    ensures { result ≡ is_more (map statement_of statements.now) }
{
    matches!(statements, [Statement::More])
}

/// Whether the first rule that the state accepts keeps all of a match, and does yymore alone.
fn does_more(tables: &Tables, state: u32) -> bool
    requires { state < table_states tables.now }
    ensures { result ≡ does_more (table_machine tables.now) state }
{
    let Some(rule) = tables.accepts(state).first() else {
        return false;
    };
    let (cut, statements) = tables.rule(*rule);
    match cut {
        Cut::Whole => is_more(statements),
        Cut::Head(_) | Cut::Trail(_) => false,
    }
}

/// Whether some rule does yymore alone.
fn any_more(rules: &[TableRule]) -> bool {
    for rule in rules {
        if is_more(&rule.statements) {
            return true;
        }
    }
    false
}

/// Marks the states whose first rule keeps all of a match, and does yymore alone. Of these nothing else is known.
fn mark_mores(tables: &Tables, kinds: &[Kind], mores: &mut Vec<bool>)
    requires kinds { length kinds.now ≡ table_states tables.now }
    requires len { length mores.old.items ≡ table_states tables.now }
    requires told { TellMore (table_machine tables.now) mores.old.items }
    ensures len { length mores.new.items ≡ table_states tables.now }
    ensures told { TellMore (table_machine tables.now) mores.new.items }
{
    for state in 0..kinds.len() {
        if matches!(kinds[state], Kind::Any) && does_more(tables, state as u32) {
            mores[state] = true;
        }
    }
}

/// Of each state whether it is known that its first rule keeps all of a match, and does yymore alone.
pub(crate) fn mores_of(
    alloc: Global,
    tables: &Tables,
    kinds: &[Kind],
) -> Result<Vec<bool>, AllocError>
    requires { length kinds.now ≡ table_states tables.now }
    ensures len { IfOk result (λ v. length v.items ≡ table_states tables.now) }
    ensures told { IfOk result (λ v. TellMore (table_machine tables.now) v.items) }
{
    let mut mores = vec![in alloc; false; kinds.len()]?;
    if any_more(&tables.parts.rules) {
        mark_mores(tables, kinds, &mut mores);
    }
    Ok(mores)
}
