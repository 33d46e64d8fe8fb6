//! What is written to a sink that is flushed then.
ghost use Rattle.std.specs.Prelude.{◌≡◌, ◌+◌, ◌-◌, ◌^◌, ◌<◌, true, OnOk};
ghost use Rattle.lex_io.specs.Sink.{Appended, fault_count};
ghost use Rattle.lextab_packed.specs.Machines.{table_parts};
ghost use Rattle.lextab_packed.specs.Views.{table_of};
ghost use Rattle.lextab_file.specs.File.{file_of};
ghost use Rattle.lexauto_reports.specs.ReportLines.{backup_lines};
ghost use Rattle.lexkit.specs.Statistics.{stats_lines};

use lexkit::{BackUp, Sink, Stats, Tables, WriteFault, write_backup, write_stats, write_tables};

/// Writes the table file, and flushes the sink.
pub fn put_table<K: Sink>(tables: &Tables, sink: &mut K) -> Result<(), WriteFault>
    requires few { K.failures sink.old < 2 ^ 64 - 1 }
    ensures bytes { Appended (λ xs. K.wrote sink.old xs sink.new) (file_of (table_of (table_parts tables.now))) result }
    ensures failures { K.failures sink.new ≡ K.failures sink.old + fault_count result }
    ensures flushed { OnOk result (K.flushed sink.new ≡ true) }
{
    write_tables(tables, sink)?;
    sink.flush()
}

/// Writes the report of states that back up, and flushes the sink.
pub fn put_report<K: Sink>(entries: &[BackUp], sink: &mut K) -> Result<(), WriteFault>
    requires few { K.failures sink.old < 2 ^ 64 - 1 }
    ensures bytes { Appended (λ xs. K.wrote sink.old xs sink.new) (backup_lines entries.now) result }
    ensures failures { K.failures sink.new ≡ K.failures sink.old + fault_count result }
    ensures flushed { OnOk result (K.flushed sink.new ≡ true) }
{
    write_backup(entries, sink)?;
    sink.flush()
}

/// Writes the statistics, and flushes the sink.
pub fn put_stats<K: Sink>(stats: &Stats, sink: &mut K) -> Result<(), WriteFault>
    requires few { K.failures sink.old < 2 ^ 64 - 1 }
    ensures bytes { Appended (λ xs. K.wrote sink.old xs sink.new) (stats_lines stats.now) result }
    ensures failures { K.failures sink.new ≡ K.failures sink.old + fault_count result }
    ensures flushed { OnOk result (K.flushed sink.new ≡ true) }
{
    write_stats(stats, sink)?;
    sink.flush()
}
