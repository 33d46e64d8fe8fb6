//! Writes the states and the slots.
ghost use Rattle.std.specs.Prelude.{◌≡◌, ◌+◌, ◌-◌, ◌^◌, ◌<◌, ◌≤◌, length, All};
ghost use Rattle.std.specs.List.{flat_map};
ghost use Rattle.lex_io.specs.Sink.{Appended, fault_count};
ghost use Rattle.lextab_packed.specs.Views.{row_of, slots_of};
ghost use Rattle.lextab_file.specs.File.{row_text, slot_text};
ghost use Rattle.lextab_file.specs.Fitting.{FitsRow};
ghost use Rattle.lextab_file.specs.Reading.{slot_from};

use super::fields::{put_long, put_longs};
use lex_io::{Sink, WriteFault};
use lextab_packed::Row;

/// Writes a state: its default, its base, and the number of rules that it accepts, with these.
fn put_row<K: Sink>(sink: &mut K, row: &Row) -> Result<(), WriteFault>
    requires few { K.failures sink.old < 2 ^ 64 - 1 }
    requires fits { FitsRow row.now }
    ensures bytes { Appended (λ xs. K.wrote sink.old xs sink.new) (row_text (row_of row.now)) result }
    ensures failures { K.failures sink.new ≡ K.failures sink.old + fault_count result }
{
    put_long(sink, row.default_target)?;
    put_long(sink, row.base)?;
    put_long(sink, row.rules.len() as u32)?;
    put_longs(sink, &row.rules)
}

/// The rows of the states.
pub fn put_rows<K: Sink>(sink: &mut K, rows: &[Row]) -> Result<(), WriteFault>
    requires few { K.failures sink.old < 2 ^ 64 - 1 }
    requires fits { All FitsRow rows.now }
    ensures bytes { Appended (λ xs. K.wrote sink.old xs sink.new)
        (flat_map (λ r. row_text (row_of r)) rows.now) result }
    ensures failures { K.failures sink.new ≡ K.failures sink.old + fault_count result }
{
    for row in rows {
        put_row(sink, row)?;
    }
    Ok(())
}

/// Writes a slot: the state that has it, and the target that stands there.
fn put_slot<K: Sink>(sink: &mut K, check: u16, next: u16) -> Result<(), WriteFault>
    requires few { K.failures sink.old < 2 ^ 64 - 1 }
    ensures bytes { Appended (λ xs. K.wrote sink.old xs sink.new) (slot_text (slot_from (check, next))) result }
    ensures failures { K.failures sink.new ≡ K.failures sink.old + fault_count result }
{
    put_long(sink, u32::from(check))?;
    put_long(sink, u32::from(next))
}

/// The slots of these columns.
pub fn put_slots<K: Sink>(sink: &mut K, checks: &[u16], nexts: &[u16]) -> Result<(), WriteFault>
    requires few { K.failures sink.old < 2 ^ 64 - 1 }
    ensures bytes { Appended (λ xs. K.wrote sink.old xs sink.new)
        (flat_map slot_text (slots_of checks.now nexts.now)) result }
    ensures failures { K.failures sink.new ≡ K.failures sink.old + fault_count result }
{
    for i in 0..checks.len().min(nexts.len()) {
        put_slot(sink, checks[i], nexts[i])?;
    }
    Ok(())
}
