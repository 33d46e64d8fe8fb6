//! Scans of whole inputs, into a buffer of the caller.
ghost use Rattle.std.specs.Prelude.{◌≡◌, ℕ, List, None};
ghost use Rattle.liblex_calls.specs.Buffers.{NothingOut};
ghost use Rattle.liblex_calls.specs.Handles.{loaded_in};
ghost use Rattle.liblex_calls.specs.Loading.{AreRulesOf, HoldsTable};
ghost use Rattle.liblex_calls.specs.Scanning.{ScansInto, TellsScan};

use crate::answer::Answer;
use crate::buffers::hand_out;
use crate::loading::rules_of;
use crate::memory::Kept;
use crate::rules::Rules;
use crate::tables::LoadedTables;
use lex_io::SliceSource;
use lexkit::{RunError, ScanError, TableError, run_table, scan_table};
use std::alloc::Global;

/// Tells a scan that was refused or stopped. What was written up to a fault of the stack is handed out. A sink over
/// memory fails only where memory is refused, and a source over memory never does.
fn tell(error: ScanError, written: &[u8], buffer: &mut [u8], count: &mut usize) -> Answer
    requires { count.old ≡ 0 }
    ensures { TellsScan error written.now buffer.old buffer.new count.new result }
{
    match error {
        ScanError::Run(RunError::Stack) => {
            hand_out(written, buffer, count);
            Answer::Stack
        }
        ScanError::Run(RunError::TooManyReads) => Answer::TooManyReads,
        ScanError::Run(_) | ScanError::Table(TableError::OutOfMemory) => Answer::OutOfMemory,
        ScanError::Table(_) | ScanError::Generate(_) => Answer::Refused,
    }
}

/// Scans an input by a table file, and hands out what its rules write into the buffer. How many bytes there are is told
/// in `count`, also where the buffer is too small, and the status that the rules end with in `status`.
pub fn scan_into(
    alloc: Global,
    file: &[u8],
    input: &[u8],
    buffer: &mut [u8],
    count: &mut usize,
    status: &mut u8,
) -> Answer
    ensures { ScansInto file.now input.now buffer.old buffer.new count.new status.new result }
{
    *count = 0;
    *status = 0;
    let mut source = SliceSource::new(input);
    let mut sink = Kept::new(alloc);
    match scan_table(alloc, file, &mut source, &mut sink) {
        Ok(end) => {
            *status = end;
            hand_out(sink.bytes.as_slice(), buffer, count)
        }
        Err(error) => tell(error, sink.bytes.as_slice(), buffer, count),
    }
}

/// Scans an input by a table that is loaded, as `scan_into` does by its file.
pub fn scan_loaded(
    alloc: Global,
    tables: &mut LoadedTables,
    input: &[u8],
    buffer: &mut [u8],
    count: &mut usize,
    status: &mut u8,
) -> Answer
    ensures scanned { (file : List ℕ) → HoldsTable file tables.old
        → ScansInto file input.now buffer.old buffer.new count.new status.new result }
    ensures same { loaded_in tables.new ≡ loaded_in tables.old }
    ensures unloaded { loaded_in tables.old ≡ None → (result ≡ Answer.Closed) × NothingOut buffer.old buffer.new count.new
        × (status.new ≡ 0) }
{
    *count = 0;
    *status = 0;
    match rules_of(alloc, tables) {
        Err(answer) => answer,
        Ok(rules) => scan_by_rules(alloc, &rules, input, buffer, count, status),
    }
}

/// Scans an input by rules.
fn scan_by_rules(
    alloc: Global,
    rules: &Rules,
    input: &[u8],
    buffer: &mut [u8],
    count: &mut usize,
    status: &mut u8,
) -> Answer
    ensures { (file : List ℕ) → AreRulesOf file rules.now
        → ScansInto file input.now buffer.old buffer.new count.new status.new result }
{
    *count = 0;
    *status = 0;
    let mut source = SliceSource::new(input);
    let mut sink = Kept::new(alloc);
    match run_table(alloc, rules.flat(), &mut source, &mut sink) {
        Ok(end) => {
            *status = end;
            hand_out(sink.bytes.as_slice(), buffer, count)
        }
        Err(error) => tell(ScanError::Run(error), sink.bytes.as_slice(), buffer, count),
    }
}
