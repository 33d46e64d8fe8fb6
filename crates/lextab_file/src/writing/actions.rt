//! Writes the rules: their cuts and their actions.
ghost use Rattle.std.specs.Prelude.{◌≡◌, ◌+◌, ◌-◌, ◌^◌, ◌<◌, ◌≤◌, ◌∷◌, [], length, All};
ghost use Rattle.std.specs.List.{flat_map};
ghost use Rattle.lex_io.specs.Sink.{Appended, fault_count};
ghost use Rattle.lex_machine.specs.Views.{cut_of, statement_of};
ghost use Rattle.lextab_packed.specs.Views.{table_rule_of};
ghost use Rattle.lextab_file.specs.File.{long, cut_text, statement_text, rule_text};
ghost use Rattle.lextab_file.specs.Fitting.{FitsStatement, FitsRule};
ghost use Rattle.lextab_file.specs.Tags.{cut_byte, statement_byte};

use super::fields::{put_long, put_short, put_string};
use crate::tag::{CutTag, StatementTag};
use lex_io::{Sink, WriteFault};
use lex_machine::{Cut, Statement};
use lextab_packed::TableRule;

/// The tag of a cut and its number.
fn put_tagged<K: Sink>(sink: &mut K, tag: CutTag, number: u32) -> Result<(), WriteFault>
    requires few { K.failures sink.old < 2 ^ 64 - 1 }
    ensures bytes { Appended (λ xs. K.wrote sink.old xs sink.new) (cut_byte tag ∷ long number) result }
    ensures failures { K.failures sink.new ≡ K.failures sink.old + fault_count result }
{
    sink.put(&[tag.byte()])?;
    put_long(sink, number)
}

/// Writes how much of a match is the text: a tag and a number, 0 for the whole.
fn put_cut<K: Sink>(sink: &mut K, cut: Cut) -> Result<(), WriteFault>
    requires few { K.failures sink.old < 2 ^ 64 - 1 }
    ensures bytes { Appended (λ xs. K.wrote sink.old xs sink.new) (cut_text (cut_of cut)) result }
    ensures failures { K.failures sink.new ≡ K.failures sink.old + fault_count result }
{
    match cut {
        Cut::Whole => put_tagged(sink, CutTag::Whole, 0),
        Cut::Head(number) => put_tagged(sink, CutTag::Head, u32::from(number)),
        Cut::Trail(number) => put_tagged(sink, CutTag::Trail, u32::from(number)),
    }
}

/// The tag of a statement.
fn put_tag<K: Sink>(sink: &mut K, tag: StatementTag) -> Result<(), WriteFault>
    requires few { K.failures sink.old < 2 ^ 64 - 1 }
    ensures bytes { Appended (λ xs. K.wrote sink.old xs sink.new) (statement_byte tag ∷ []) result }
    ensures failures { K.failures sink.new ≡ K.failures sink.old + fault_count result }
{
    sink.put(&[tag.byte()])
}

/// The tag of a statement and a byte.
fn put_tag_with<K: Sink>(sink: &mut K, tag: StatementTag, byte: u8) -> Result<(), WriteFault>
    requires few { K.failures sink.old < 2 ^ 64 - 1 }
    ensures bytes { Appended (λ xs. K.wrote sink.old xs sink.new) (statement_byte tag ∷ byte ∷ []) result }
    ensures failures { K.failures sink.new ≡ K.failures sink.old + fault_count result }
{
    sink.put(&[tag.byte(), byte])
}

/// Writes a statement: its tag, and its argument where it has one.
fn put_statement<K: Sink>(sink: &mut K, statement: &Statement) -> Result<(), WriteFault>
    requires few { K.failures sink.old < 2 ^ 64 - 1 }
    requires fits { FitsStatement statement.now }
    ensures bytes { Appended (λ xs. K.wrote sink.old xs sink.new) (statement_text (statement_of statement.now)) result }
    ensures failures { K.failures sink.new ≡ K.failures sink.old + fault_count result }
{
    match statement {
        Statement::Echo => put_tag(sink, StatementTag::Echo),
        Statement::Print(bytes) => {
            put_tag(sink, StatementTag::Print)?;
            put_string(sink, bytes)
        }
        Statement::Begin(condition) => put_tag_with(sink, StatementTag::Begin, *condition),
        Statement::More => put_tag(sink, StatementTag::More),
        Statement::Less(count) => {
            put_tag(sink, StatementTag::Less)?;
            put_short(sink, *count)
        }
        Statement::Reject => put_tag(sink, StatementTag::Reject),
        Statement::End(status) => put_tag_with(sink, StatementTag::End, *status),
        Statement::Push(condition) => put_tag_with(sink, StatementTag::Push, *condition),
        Statement::Pop => put_tag(sink, StatementTag::Pop),
    }
}

/// Writes the statements of an action, one after another.
fn put_statements<K: Sink>(sink: &mut K, statements: &[Statement]) -> Result<(), WriteFault>
    requires few { K.failures sink.old < 2 ^ 64 - 1 }
    requires fits { All FitsStatement statements.now }
    ensures bytes { Appended (λ xs. K.wrote sink.old xs sink.new)
        (flat_map (λ s. statement_text (statement_of s)) statements.now) result }
    ensures failures { K.failures sink.new ≡ K.failures sink.old + fault_count result }
{
    for statement in statements {
        put_statement(sink, statement)?;
    }
    Ok(())
}

/// Writes a rule: its cut, the number of its statements, and these.
fn put_rule<K: Sink>(sink: &mut K, rule: &TableRule) -> Result<(), WriteFault>
    requires few { K.failures sink.old < 2 ^ 64 - 1 }
    requires fits { FitsRule rule.now }
    ensures bytes { Appended (λ xs. K.wrote sink.old xs sink.new) (rule_text (table_rule_of rule.now)) result }
    ensures failures { K.failures sink.new ≡ K.failures sink.old + fault_count result }
{
    put_cut(sink, rule.cut)?;
    put_long(sink, rule.statements.len() as u32)?;
    put_statements(sink, &rule.statements)
}

/// The rules: the cut and the statements of each.
pub fn put_rules<K: Sink>(sink: &mut K, rules: &[TableRule]) -> Result<(), WriteFault>
    requires few { K.failures sink.old < 2 ^ 64 - 1 }
    requires fits { All FitsRule rules.now }
    ensures bytes { Appended (λ xs. K.wrote sink.old xs sink.new)
        (flat_map (λ r. rule_text (table_rule_of r)) rules.now) result }
    ensures failures { K.failures sink.new ≡ K.failures sink.old + fault_count result }
{
    for rule in rules {
        put_rule(sink, rule)?;
    }
    Ok(())
}
