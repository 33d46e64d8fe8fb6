//! Writes the conditions.
ghost use Rattle.std.specs.Prelude.{◌≡◌, ◌+◌, ◌-◌, ◌^◌, ◌<◌, ◌≤◌, length, All};
ghost use Rattle.std.specs.List.{flat_map};
ghost use Rattle.lex_io.specs.Sink.{Appended, fault_count};
ghost use Rattle.lex_machine.specs.Views.{end_action_of};
ghost use Rattle.lextab_packed.specs.Views.{condition_of};
ghost use Rattle.lextab_file.specs.File.{end_text, condition_text};
ghost use Rattle.lextab_file.specs.Fitting.{FitsCondition};
ghost use Rattle.lex_semantics.specs.Limits.{max_literal_bytes};

use super::fields::{put_long, put_string};
use lex_io::{Sink, WriteFault};
use lex_machine::EndAction;
use lextab_packed::TableCondition;

/// Writes what is done at the end of the input: what is printed, and the status.
fn put_end<K: Sink>(sink: &mut K, end: &EndAction) -> Result<(), WriteFault>
    requires few { K.failures sink.old < 2 ^ 64 - 1 }
    requires short { length end.now.print.items ≤ max_literal_bytes }
    ensures bytes { Appended (λ xs. K.wrote sink.old xs sink.new) (end_text (end_action_of end.now)) result }
    ensures failures { K.failures sink.new ≡ K.failures sink.old + fault_count result }
{
    put_string(sink, &end.print)?;
    sink.put(&[end.status])
}

/// Writes a condition: its two start states and its end action.
fn put_condition<K: Sink>(sink: &mut K, condition: &TableCondition) -> Result<(), WriteFault>
    requires few { K.failures sink.old < 2 ^ 64 - 1 }
    requires fits { FitsCondition condition.now }
    ensures bytes { Appended (λ xs. K.wrote sink.old xs sink.new) (condition_text (condition_of condition.now)) result }
    ensures failures { K.failures sink.new ≡ K.failures sink.old + fault_count result }
{
    put_long(sink, condition.start)?;
    put_long(sink, condition.line_start)?;
    put_end(sink, &condition.end)
}

/// The start states of each condition, and what is done at the end in it.
pub fn put_conditions<K: Sink>(
    sink: &mut K,
    conditions: &[TableCondition],
) -> Result<(), WriteFault>
    requires few { K.failures sink.old < 2 ^ 64 - 1 }
    requires fits { All FitsCondition conditions.now }
    ensures bytes { Appended (λ xs. K.wrote sink.old xs sink.new)
        (flat_map (λ c. condition_text (condition_of c)) conditions.now) result }
    ensures failures { K.failures sink.new ≡ K.failures sink.old + fault_count result }
{
    for condition in conditions {
        put_condition(sink, condition)?;
    }
    Ok(())
}
