//! Writes a table file.
ghost use Rattle.std.specs.Prelude.{◌≡◌, ℕ, ◌+◌, ◌-◌, ◌^◌, ◌<◌, ◌≤◌, ◌++◌, length};
ghost use Rattle.lex_io.specs.Sink.{Appended, fault_count};
ghost use Rattle.lextab_packed.specs.Checks.{Sizes, sizes_of};
ghost use Rattle.lextab_packed.specs.Machines.{table_parts};
ghost use Rattle.lextab_packed.specs.Views.{table_of, slots_of};
ghost use Rattle.lextab_file.specs.File.{magic, short, version_of, sizes_text, file_of};
ghost use Rattle.lextab_file.specs.Fitting.{FitsParts};

mod actions;
mod conditions;
mod fields;
mod states;

use crate::version::version_of;
use actions::put_rules;
use conditions::put_conditions;
use fields::{put_long, put_short};
use lex_io::{Sink, WriteFault};
use lextab_packed::{TableParts, Tables};
use states::{put_rows, put_slots};

/// How many slots the two columns make.
fn slot_count(parts: &TableParts) -> usize
    ensures { result ≡ length (slots_of parts.now.checks.items parts.now.nexts.items) }
{
    parts.checks.len().min(parts.nexts.len())
}

/// The magic bytes, the version, and how many there are of each kind.
fn put_header<K: Sink>(sink: &mut K, parts: &TableParts) -> Result<(), WriteFault>
    requires few { K.failures sink.old < 2 ^ 64 - 1 }
    requires fits { FitsParts parts.now }
    ensures bytes { Appended (λ xs. K.wrote sink.old xs sink.new) (magic
        ++ (short (version_of (table_of parts.now).rules) ++ sizes_text (sizes_of (table_of parts.now)))) result }
    ensures failures { K.failures sink.new ≡ K.failures sink.old + fault_count result }
{
    let version = version_of(parts.rules.as_slice());
    sink.put(b"LEXTAB")?;
    put_short(sink, version)?;
    put_long(sink, parts.conditions.len() as u32)?;
    put_long(sink, parts.rules.len() as u32)?;
    put_long(sink, parts.rows.len() as u32)?;
    put_long(sink, parts.classes)?;
    put_long(sink, slot_count(parts) as u32)
}

/// Writes the parts of a table, in the order of the file.
fn put_parts<K: Sink>(sink: &mut K, parts: &TableParts) -> Result<(), WriteFault>
    requires few { K.failures sink.old < 2 ^ 64 - 1 }
    requires fits { FitsParts parts.now }
    ensures bytes { Appended (λ xs. K.wrote sink.old xs sink.new) (file_of (table_of parts.now)) result }
    ensures failures { K.failures sink.new ≡ K.failures sink.old + fault_count result }
{
    put_header(sink, parts)?;
    put_conditions(sink, &parts.conditions)?;
    put_rules(sink, &parts.rules)?;
    sink.put(&parts.class_of)?;
    put_rows(sink, &parts.rows)?;
    put_slots(sink, &parts.checks, &parts.nexts)
}

/// Writes the file of a table. After a fault a prefix of it was written. It takes no memory.
pub fn write_tables<K: Sink>(tables: &Tables, sink: &mut K) -> Result<(), WriteFault>
    requires few { K.failures sink.old < 2 ^ 64 - 1 }
    ensures bytes { Appended (λ xs. K.wrote sink.old xs sink.new) (file_of (table_of (table_parts tables.now))) result }
    ensures failures { K.failures sink.new ≡ K.failures sink.old + fault_count result }
{
    put_parts(sink, tables.parts())
}
