//! Tables that are read once, for any number of scans.
ghost use Rattle.std.specs.Prelude.{◌≡◌, ℕ, List, Some, None, Err, IfOk, IfErr};
ghost use Rattle.liblex_calls.specs.Handles.{loaded_in};
ghost use Rattle.liblex_calls.specs.Rules.{rules_machine};
ghost use Rattle.liblex_calls.specs.Loading.{AreRulesOf, HoldsTable, LoadsTable};
ghost use Rattle.liblex_calls.specs.declared.rules.Rules.{Rules as RulesModel};

use crate::answer::Answer;
use crate::rules::Rules;
use crate::tables::{LoadedTables, put, take};
use lexkit::TableError;
use std::alloc::Global;

/// Reads a table file, and lays its machine flat. What was loaded there before is unloaded.
pub fn load_tables(alloc: Global, tables: &mut LoadedTables, file: &[u8]) -> Answer
    ensures { LoadsTable file.now tables.new result }
{
    unload_tables(alloc, tables);
    match Rules::read(alloc, file) {
        Err(TableError::OutOfMemory) => Answer::OutOfMemory,
        Err(_) => Answer::Refused,
        Ok(rules) => hold(alloc, tables, rules),
    }
}

/// Has another one hold the same table, which is neither read nor copied. What was loaded there before is unloaded.
pub fn share_tables(alloc: Global, tables: &mut LoadedTables, other: &mut LoadedTables) -> Answer
    ensures shared { (file : List ℕ) → HoldsTable file tables.old → LoadsTable file other.new result }
    ensures same { loaded_in tables.new ≡ loaded_in tables.old }
    ensures unloaded { loaded_in tables.old ≡ None → (result ≡ Answer.Closed) × (loaded_in other.new ≡ None) }
{
    unload_tables(alloc, other);
    match rules_of(alloc, tables) {
        Err(answer) => answer,
        Ok(rules) => hold(alloc, other, rules),
    }
}

/// Unloads a table, and gives its memory back once no scan needs it. One that is not loaded stays so.
pub fn unload_tables(alloc: Global, tables: &mut LoadedTables)
    ensures { loaded_in tables.new ≡ None }
{
    match take(alloc, tables) {
        None => {}
        Some(_) => {}
    }
}

/// Has one hold these rules that holds none.
fn hold(alloc: Global, tables: &mut LoadedTables, rules: Rules) -> Answer
    requires { loaded_in tables.old ≡ None }
    ensures { (file : List ℕ) → AreRulesOf file rules → LoadsTable file tables.new result }
{
    match Box::new(alloc, rules) {
        Err(_) => Answer::OutOfMemory,
        Ok(held) => {
            put(tables, held);
            Answer::Done
        }
    }
}

/// The rules that are held, once more.
pub(crate) fn rules_of(alloc: Global, tables: &mut LoadedTables) -> Result<Rules, Answer>
    ensures same { loaded_in tables.new ≡ loaded_in tables.old }
    ensures found { (r : RulesModel) → loaded_in tables.old ≡ Some r
        → IfOk result (λ s. rules_machine s ≡ rules_machine r) }
    ensures memory { (r : RulesModel) → loaded_in tables.old ≡ Some r → IfErr result (λ a. a ≡ Answer.OutOfMemory) }
    ensures unloaded { loaded_in tables.old ≡ None → result ≡ Err Answer.Closed }
{
    let Some(held) = take(alloc, tables) else {
        return Err(Answer::Closed);
    };
    let shared = held.share();
    put(tables, held);
    match shared {
        Err(_) => Err(Answer::OutOfMemory),
        Ok(rules) => Ok(rules),
    }
}
