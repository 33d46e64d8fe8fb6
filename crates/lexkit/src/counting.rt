//! How long a table file is.
ghost use Rattle.std.specs.Prelude.{◌≡◌, ℕ, ◌+◌, ◌-◌, ◌^◌, ◌<◌, Bool, true, List, length};
ghost use Rattle.lextab_packed.specs.Machines.{table_parts};
ghost use Rattle.lextab_packed.specs.Views.{table_of};
ghost use Rattle.lextab_file.specs.File.{file_of};
ghost use Rattle.lexkit.specs.Counting.{Counts, counts_none, counts_more, none_failed};

use lextab::{Sink, Tables, WriteFault, write_tables};

/// Counts the bytes that are put, while their number fits.
#[derive(Drop)]
struct Counter {
    bytes: u64,
}

impl Sink for Counter {
    ghost wrote = { λ before bytes after. Counts before.bytes bytes after.bytes };

    ghost failures = { λ counter. 0 };

    ghost flushed = { λ counter. true };

    ghost wrote_none = { λ counter. counts_none counter.bytes };

    ghost wrote_more = { λ a b c xs ys. counts_more a.bytes b.bytes c.bytes xs ys };

    ghost failures_bound = { λ counter. none_failed };

    /// Counts the bytes, and stays at the greatest number where they are more.
    fn put(&mut self, bytes: &[u8]) -> Result<(), WriteFault> {
        self.bytes = self.bytes.saturating_add(bytes.len() as u64);
        Ok(())
    }

    /// Nothing is held back.
    fn flush(&mut self) -> Result<(), WriteFault> {
        Ok(())
    }
}

/// How many bytes the file of these tables has.
pub(crate) fn file_length(tables: &Tables) -> u32
    ensures { result ≡ length (file_of (table_of (table_parts tables.now))) }
{
    let mut counter = Counter { bytes: 0 };
    let _ = write_tables(tables, &mut counter);
    counter.bytes as u32
}
