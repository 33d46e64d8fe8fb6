//! Scans by pieces, each piece into a buffer of the caller.
ghost use Rattle.std.specs.Prelude.{◌≡◌, ℕ, Bool, List, None};
ghost use Rattle.liblex_calls.specs.Handles.{open_in, loaded_in};
ghost use Rattle.liblex_calls.specs.Progress.{fed_with};
ghost use Rattle.liblex_calls.specs.Loading.{AreRulesOf, HoldsTable};
ghost use Rattle.liblex_calls.specs.Pieces.{Scanning, OpensScan, FeedsInto, FinishesInto, StaysOpen, StaysClosed};

use crate::answer::Answer;
use crate::handle::{Scan, put, take};
use crate::loading::rules_of;
use crate::piece_scan::PieceScan;
use crate::rules::Rules;
use crate::tables::LoadedTables;
use lexkit::TableError;
use std::alloc::Global;

/// Begins a scan by pieces by a table file. What the scan was open for before is closed.
pub fn open_scan(alloc: Global, scan: &mut Scan, file: &[u8]) -> Answer
    ensures { OpensScan file.now scan.new result }
{
    close_scan(alloc, scan);
    match Rules::read(alloc, file) {
        Err(TableError::OutOfMemory) => Answer::OutOfMemory,
        Err(_) => Answer::Refused,
        Ok(rules) => open_with(alloc, scan, rules),
    }
}

/// Begins a scan by pieces by a table that is loaded, as `open_scan` does by its file. The scan keeps what it needs of it.
pub fn open_loaded(alloc: Global, scan: &mut Scan, tables: &mut LoadedTables) -> Answer
    ensures opened { (file : List ℕ) → HoldsTable file tables.old → OpensScan file scan.new result }
    ensures same { loaded_in tables.new ≡ loaded_in tables.old }
    ensures unloaded { loaded_in tables.old ≡ None → (result ≡ Answer.Closed) × (open_in scan.new ≡ None) }
{
    close_scan(alloc, scan);
    match rules_of(alloc, tables) {
        Err(answer) => answer,
        Ok(rules) => open_with(alloc, scan, rules),
    }
}

/// Begins a scan by these rules in one that is closed.
fn open_with(alloc: Global, scan: &mut Scan, rules: Rules) -> Answer
    requires { open_in scan.old ≡ None }
    ensures { (file : List ℕ) → AreRulesOf file rules → OpensScan file scan.new result }
{
    match Box::new(alloc, PieceScan::new(alloc, rules)) {
        Err(_) => Answer::OutOfMemory,
        Ok(held) => {
            put(scan, held);
            Answer::Done
        }
    }
}

/// Scans on with a piece more, and hands out into the buffer what was written and not handed out before. How many bytes
/// these are is told in `count`, also where the buffer is too small: then a next call hands out the others.
pub fn feed_into(
    alloc: Global,
    scan: &mut Scan,
    piece: &[u8],
    buffer: &mut [u8],
    count: &mut usize,
) -> Answer
    ensures fed { (file : List ℕ) (told : Bool) (fed out : List ℕ) → Scanning file told fed out scan.old
        → FeedsInto file told (fed_with told fed piece.now) out scan.new buffer.old buffer.new count.new result }
    ensures follows { StaysOpen scan.old scan.new buffer.new count.new }
    ensures closed { open_in scan.old ≡ None → StaysClosed scan.new buffer.old buffer.new count.new result }
{
    *count = 0;
    let Some(mut held) = take(alloc, scan) else {
        return Answer::Closed;
    };
    let answer = held.feed(piece, buffer, count);
    put(scan, held);
    answer
}

/// Scans to the end of what was fed, and hands out as `feed_into` does. The status that the rules end with is told in
/// `status`.
pub fn finish_into(
    alloc: Global,
    scan: &mut Scan,
    buffer: &mut [u8],
    count: &mut usize,
    status: &mut u8,
) -> Answer
    ensures finished { (file : List ℕ) (told : Bool) (fed out : List ℕ) → Scanning file told fed out scan.old
        → FinishesInto file fed out scan.new buffer.old buffer.new count.new status.new result }
    ensures follows { StaysOpen scan.old scan.new buffer.new count.new }
    ensures closed { open_in scan.old ≡ None → StaysClosed scan.new buffer.old buffer.new count.new result
        × (status.new ≡ 0) }
{
    *count = 0;
    *status = 0;
    let Some(mut held) = take(alloc, scan) else {
        return Answer::Closed;
    };
    let answer = held.finish(buffer, count, status);
    put(scan, held);
    answer
}

/// Closes a scan, and gives its memory back. One that is closed stays so.
pub fn close_scan(alloc: Global, scan: &mut Scan)
    ensures { open_in scan.new ≡ None }
{
    match take(alloc, scan) {
        None => {}
        Some(_) => {}
    }
}
