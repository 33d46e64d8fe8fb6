//! States whose first rule sets a start condition, does yymore, and no more.
ghost use Rattle.std.specs.Prelude.{◌≡◌, ◌<◌, [], ◌∷◌, length, map, IfSome, IfOk};
ghost use Rattle.lex_semantics.specs.Spec.{Begin, More};
ghost use Rattle.lex_machine.specs.Views.{statement_of};
ghost use Rattle.lextab_packed.specs.Begun.{FirstIsBegun, TellBegun};
ghost use Rattle.lextab_packed.specs.Machines.{table_machine, table_states};

use crate::kinds::Kind;
use crate::parts::TableRule;
use crate::tables::Tables;
use lex_machine::{BegunMore, Machine, Statement};
use std::alloc::{AllocError, Global};

/// The condition that these statements set, where they do yymore then, and no more.
fn begun_by(statements: &[Statement]) -> Option<u8>
    ensures { IfSome result (λ condition. map statement_of statements.now ≡ Begin condition ∷ More ∷ []) }
{
    match statements {
        [Statement::Begin(condition), Statement::More] => Some(*condition),
        _ => None,
    }
}

/// What the first rule that the state accepts keeps of a match, and the condition that it sets, where it does yymore
/// then, and no more.
fn begun_at(tables: &Tables, state: u32) -> Option<BegunMore>
    requires { state < table_states tables.now }
    ensures { IfSome result (λ begun. FirstIsBegun (table_machine tables.now)
        ((table_machine tables.now).accepts state) begun) }
{
    let rule = tables.accepts(state).first()?;
    let (cut, statements) = tables.rule(*rule);
    let condition = begun_by(statements)?;
    Some(BegunMore { cut, condition })
}

/// Whether some rule sets a condition and does yymore then.
fn any_begun(rules: &[TableRule]) -> bool {
    for rule in rules {
        if begun_by(&rule.statements).is_some() {
            return true;
        }
    }
    false
}

/// Tells the same of each state of whose first rule nothing else is known.
fn tell_begun(tables: &Tables, kinds: &[Kind], begun: &mut Vec<Option<BegunMore>>)
    requires kinds { length kinds.now ≡ table_states tables.now }
    requires len { length begun.old.items ≡ table_states tables.now }
    requires told { TellBegun (table_machine tables.now) begun.old.items }
    ensures told { TellBegun (table_machine tables.now) begun.new.items }
{
    for state in 0..kinds.len() {
        if matches!(kinds[state], Kind::Any) {
            begun[state] = begun_at(tables, state as u32);
        }
    }
}

/// Of each state what is known of this; none are listed where no rule does so.
pub(crate) fn begun_of(
    alloc: Global,
    tables: &Tables,
    kinds: &[Kind],
) -> Result<Vec<Option<BegunMore>>, AllocError>
    requires { length kinds.now ≡ table_states tables.now }
    ensures { IfOk result (λ begun. TellBegun (table_machine tables.now) begun.items) }
{
    if !any_begun(&tables.parts.rules) {
        return Ok(Vec::new(alloc));
    }
    let mut begun = vec![in alloc; None; kinds.len()]?;
    tell_begun(tables, kinds, &mut begun);
    Ok(begun)
}
