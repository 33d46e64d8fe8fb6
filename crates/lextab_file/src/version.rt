//! Which version of the table file rules need.
ghost use Rattle.std.specs.Prelude.{◌≡◌, map};
ghost use Rattle.lex_machine.specs.Views.{statement_of};
ghost use Rattle.lextab_packed.specs.Views.{table_rule_of};
ghost use Rattle.lextab_file.specs.File.{has_stack, version_of, any_stack};

use lex_machine::Statement;
use lextab_packed::TableRule;

/// Whether one of the statements is of the stack of conditions.
fn has_stack(statements: &[Statement]) -> bool
    ensures { result ≡ has_stack (map statement_of statements.now) }
{
    for statement in statements {
        if matches!(statement, Statement::Push(_) | Statement::Pop) {
            return true;
        }
    }
    false
}

/// Whether a rule has a statement of the stack.
fn any_stack(rules: &[TableRule]) -> bool
    ensures { result ≡ any_stack (map table_rule_of rules.now) }
{
    for rule in rules {
        if has_stack(&rule.statements) {
            return true;
        }
    }
    false
}

/// The version that the rules need: 2 where one has a statement of the stack, and else 1.
pub fn version_of(rules: &[TableRule]) -> u16
    ensures { result ≡ version_of (map table_rule_of rules.now) }
{
    if any_stack(rules) { 2 } else { 1 }
}
