//! The parts of a table.
ghost use Rattle.std.specs.Prelude.{◌≡◌, ℕ, map, length, IfOk};
ghost use Rattle.lex_semantics.specs.Text.{IsText};
ghost use Rattle.lexspec_actions.specs.Views.{condition_of as condition_in};
ghost use Rattle.lexspec.specs.RuleViews.{rule_of as rule_in};
ghost use Rattle.lextab_packed.specs.Checks.{Each, HasText};
ghost use Rattle.lextab_packed.specs.Views.{condition_of, table_rule_of, row_of};
ghost use Rattle.lextab.specs.Assembled.{start_in, conditions_with, action_in, rows_with};

use lex_machine::{copy_end, copy_statements};
use lexspec::Rule;
use lexspec_actions::Condition;
use lextab_packed::{Row, TableCondition, TableRule};
use std::alloc::{AllocError, Global};
use std::rc::Rc;

/// The conditions of a table.
pub(crate) fn table_conditions(
    alloc: Global,
    starts: &[u32],
    line_starts: &[u32],
    conditions: &[Condition],
) -> Result<Vec<TableCondition>, AllocError>
    requires starts { length starts.now ≡ length conditions.now }
    requires line_starts { length line_starts.now ≡ length conditions.now }
    ensures same { IfOk result (λ v. map condition_of v.items
        ≡ conditions_with (start_in starts.now line_starts.now) 0 (map condition_in conditions.now)) }
    ensures text { IfOk result (λ v. Each (λ i c. IsText c.end.print) 0 (map condition_of v.items)) }
{
    let mut all = Vec::new(alloc);
    for i in 0..conditions.len() {
        let end = copy_end(alloc, &conditions[i].end)?;
        all.push(TableCondition {
            start: starts[i],
            line_start: line_starts[i],
            end,
        })?;
    }
    Ok(all)
}

/// The rules of a table.
pub(crate) fn table_rules(alloc: Global, rules: &[Rule]) -> Result<Vec<TableRule>, AllocError>
    ensures same { IfOk result (λ v. map table_rule_of v.items ≡ map action_in (map rule_in rules.now)) }
    ensures text { IfOk result (λ v. Each (λ i r. Each HasText 0 r.statements) 0 (map table_rule_of v.items)) }
{
    let mut all = Vec::new(alloc);
    for i in 0..rules.len() {
        let rule = &rules[i];
        let statements = copy_statements(alloc, &rule.statements)?;
        all.push(TableRule {
            cut: rule.cut,
            statements,
        })?;
    }
    Ok(all)
}

/// The rows of a table.
pub(crate) fn table_rows(
    alloc: Global,
    defaults: &[u32],
    bases: &[u32],
    lists: &[Rc<Vec<u32>>],
) -> Result<Vec<Row>, AllocError>
    requires bases { length bases.now ≡ length defaults.now }
    requires lists { length lists.now ≡ length defaults.now }
    ensures { IfOk result (λ v. map row_of v.items
        ≡ rows_with defaults.now bases.now (map (λ l. l.value.items) lists.now)) }
{
    let mut rows = Vec::with_capacity(alloc, defaults.len())?;
    for i in 0..defaults.len() {
        let rules = Vec::from_slice(alloc, &lists[i])?;
        rows.push(Row {
            default_target: defaults[i],
            base: bases[i],
            rules,
        })?;
    }
    Ok(rows)
}
