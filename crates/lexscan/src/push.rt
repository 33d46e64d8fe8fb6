//! A scan that is fed its input piece by piece.
ghost use Rattle.std.specs.Prelude.{◌≡◌, ℕ, ◌+◌, ◌-◌, ◌^◌, ◌<◌, ◌≤◌, List, [], ◌++◌, length, drop, vec_len};
ghost use Rattle.std.specs.Prelude.{vec_capacity, nat_le, true, false, None, Some, Ok, Err, IsErrOf};
ghost use Rattle.std.specs.Prelude.{OnErr, IfErr, IfSome, IfNone};
ghost use Rattle.std.specs.Coded.{→_prop};
ghost use Rattle.lex_semantics.specs.Machine.{rules_of_machine};
ghost use Rattle.lex_semantics.specs.Text.{AllBelow};
ghost use Rattle.lexscan_window.specs.Memos.{AreTrue, AreTrue-prop};
ghost use Rattle.lexscan_window.specs.Reads.{write_fault_count};
ghost use Rattle.lexscan.specs.Attempts.{IsPaused, SinkCounts, MayBeFed, PieceLeft};
ghost use Rattle.lexscan.specs.Stacks.{AllBelow-prop};
ghost use Rattle.lexscan.specs.Ties.{HandedOn, RunHandedOn};
ghost use Rattle.lexscan.specs.Pushes.{IsReachable, IsReachable-prop, IsAsking, IsAsking-prop, Fed, AfterFeed, AfterFinish};
ghost use Rattle.lexscan.specs.Pushes.{HasFailedBy, HasFailedByPiece};

use crate::asking::{walk_all, walk_on};
use crate::scan::Scan;
use crate::turn::Turn;
use lex_io::Sink;
use lex_machine::Machine;
use lexscan_window::{Memo, RunError, State, StatePath, Waiting};
use std::alloc::Global;

/// Drops bytes from the front.
pub fn drop_front(bytes: &mut Vec<u8>, count: usize)
    requires { count ≤ vec_len bytes.old }
    ensures bytes { bytes.new.items ≡ drop count bytes.old.items }
    ensures room { vec_capacity bytes.new ≡ vec_capacity bytes.old }
{
    let left = bytes.len() - count;
    bytes.copy_within(count.., 0);
    bytes.truncate(left);
}

/// Keeps what is left of the bytes that waited and of a piece after them, where so many of all are done with. There
/// is room for it.
fn keep_rest(waiting: &mut Vec<u8>, piece: &[u8], done: usize)
    requires inside { done ≤ vec_len waiting.old + length piece.now }
    requires room { vec_len waiting.old + length piece.now ≤ vec_capacity waiting.old }
    ensures { waiting.new.items ≡ drop done (waiting.old.items ++ piece.now) }
{
    let waited = done.min(waiting.len());
    drop_front(waiting, waited);
    match waiting.extend_from_slice(&piece[done - waited..]) {
        Err(_) => unreachable!(),
        Ok(()) => {}
    }
}

/// How many bytes there are with a piece more, where their count and that of the end's answer fit.
pub fn count_with(taken: u64, waiting: usize, piece: usize) -> Option<u64>
    ensures some { IfSome result (λ count. (count ≡ taken + waiting + piece) × (count < 2 ^ 64 - 1)) }
    ensures none { IfNone result (2 ^ 64 - 1 ≤ taken + waiting + piece) }
{
    let count = taken
        .checked_add(waiting as u64)?
        .checked_add(piece as u64)?;
    if count == u64::MAX {
        return None;
    }
    Some(count)
}

/// Turns over the bytes that wait and a piece more, which are all that may be read. Those that no turn has asked for
/// go on waiting.
fn scan_waiting<M: Machine, K: Sink>(
    machine: &M,
    scan: &mut Scan,
    waiting: &mut Vec<u8>,
    piece: &[u8],
    asking: &mut Option<u32>,
    sink: &mut K,
) -> Result<Turn, RunError>
    requires paused { IsPaused (M.machine machine.now) scan.old }
    requires limit { scan.old.state.reading.max_reads ≡
        scan.old.state.reading.taken + length (waiting.old.items ++ piece.now) }
    requires room { vec_len waiting.old + length piece.now ≤ vec_capacity waiting.old }
    requires few_writes { K.failures sink.old < 2 ^ 64 - 1 }

    ensures fed { (put : List ℕ) × K.wrote sink.old put sink.new
        × ((fed out : List ℕ) → Fed (M.machine machine.now) fed out scan.old.state (waiting.old.items ++ piece.now) →
        AfterFeed (M.machine machine.now) fed (out ++ put) scan.new.state waiting.new.items result) }
    ensures sink { SinkCounts K.failures sink.old sink.new result }
    ensures handed_on { HandedOn (K.flushed sink.new) result }
    ensures left { PieceLeft (M.machine machine.now) (M.states machine.now) scan.new waiting.new.items asking.new
        (vec_capacity waiting.old) (vec_capacity waiting.new) result }
{
    // The state that was kept belongs to the place before these turns.
    *asking = None;
    let before = scan.state.reading.taken;
    let mut source = Waiting::new(waiting.as_slice(), piece);
    match scan.turns_between(machine, &mut source, sink) {
        Err(e) => Err(e),
        Ok(Turn::Ended(status)) => Ok(Turn::Ended(status)),
        Ok(Turn::Went) => {
            let taken = scan.state.reading.taken - before;
            keep_rest(waiting, piece, taken as usize);
            *asking = walk_all(machine, &scan.state, waiting);
            Ok(Turn::Went)
        }
    }
}

/// Turns over the bytes that wait and their end.
fn scan_to_end<M: Machine, K: Sink>(
    machine: &M,
    scan: &mut Scan,
    waiting: &[u8],
    sink: &mut K,
) -> Result<u8, RunError>
    requires paused { IsPaused (M.machine machine.now) scan.old }
    requires limit { scan.old.state.reading.max_reads ≡ scan.old.state.reading.taken + length waiting.now + 1 }
    requires few_writes { K.failures sink.old < 2 ^ 64 - 1 }

    ensures finished { (put : List ℕ) × K.wrote sink.old put sink.new
        × ((fed out : List ℕ) → Fed (M.machine machine.now) fed out scan.old.state waiting.now →
        AfterFinish (rules_of_machine (M.machine machine.now)) fed (out ++ put) result) }
    ensures sink { SinkCounts K.failures sink.old sink.new result }
    ensures handed_on { RunHandedOn (K.flushed sink.new) result }
    ensures left { MayBeFed (M.machine machine.now) scan.new result }
    ensures ended { (status : ℕ) → result ≡ Ok status → scan.new.state.ended ≡ Some status }
{
    let mut source = Waiting::new(waiting, &[]);
    match scan.turns_between(machine, &mut source, sink) {
        Err(e) => Err(e),
        Ok(Turn::Ended(status)) => Ok(status),
        // One read more is allowed than bytes wait, so a turn that asks for more is told the end.
        Ok(Turn::Went) => unreachable!(),
    }
}

/// A scan of bytes that are fed piece by piece, by a caller with a loop of its own. Each feed writes what the bytes
/// so far decide.
#[derive(Drop)]
pub struct PushScanner<M: Machine> {
    machine: M,
    scan: Scan,
    /// The bytes that were fed and that no turn has asked for, until the scan ends or is refused.
    waiting: Vec<u8>,
    /// The machine's state after all of them, where the next match asks for more.
    asking: Option<u32>,
    ghost reading: { scan.state.failed ≡ false → scan.state.ended ≡ None → scan.state.reading.at_end ≡ false },
    ghost condition: { scan.state.place.condition < (M.machine machine).conditions },
    ghost inside: { scan.state.place.at ≤ length scan.state.reading.window.bytes },
    ghost stack: { scan.state.failed ≡ false
        → AllBelow (M.machine machine).conditions scan.state.acting.stack } by { →_prop
            (AllBelow-prop (M.machine machine).conditions scan.state.acting.stack) },
    ghost marks: { scan.state.failed ≡ false → AreTrue (M.machine machine) scan.state.reading scan.memo } by { →_prop
        (AreTrue-prop (M.machine machine) scan.state.reading scan.memo) },
    ghost reachable: { scan.state.failed ≡ false → IsReachable (M.machine machine) scan.state } by { →_prop
        (IsReachable-prop (M.machine machine) scan.state) },
    ghost asking_more: { IsAsking (M.machine machine) (M.states machine) scan.state waiting.items
        asking } by { IsAsking-prop
            (M.machine machine) (M.states machine) scan.state waiting.items asking },
}

impl<M: Machine> PushScanner<M> {
    ghost use Rattle.lexscan.specs.Scanners.{push_machine, push_room, push_state, push_waiting};

    /// A scanner that was fed nothing.
    pub fn new(alloc: Global, machine: M) -> PushScanner<M>
        ensures machine { push_machine result ≡ machine }
        ensures going { (push_state result).ended ≡ None }
        ensures fed { Fed (M.machine machine) [] [] (push_state result) (push_waiting result) }
    {
        PushScanner {
            machine,
            scan: Scan {
                path: StatePath::new(alloc),
                memo: Memo::new(alloc),
                state: State::new(alloc, 0),
            },
            waiting: Vec::new(alloc),
            asking: None,
        }
    }

    /// Scans on with a piece more, as far as the bytes fed so far decide it. `Turn::Went` says that the next match
    /// asks for more of them. Where the piece is refused before a turn, for memory or for too many bytes, nothing has
    /// changed. After a turn that is refused each call answers `Failed`.
    pub fn feed<K: Sink>(&mut self, piece: &[u8], sink: &mut K) -> Result<Turn, RunError>
        requires few_writes { K.failures sink.old < 2 ^ 64 - 1 }
        ensures machine { push_machine self.new ≡ push_machine self.old }
        ensures fed { (put : List ℕ) × K.wrote sink.old put sink.new
            × ((fed out : List ℕ)
            → Fed (M.machine (push_machine self.old)) fed out (push_state self.old) (push_waiting self.old) →
            AfterFeed (M.machine (push_machine self.old)) (fed ++ piece.now) (out ++ put) (push_state self.new)
            (push_waiting self.new) result) }

        ensures write_faults { K.failures sink.new ≡ K.failures sink.old + write_fault_count result }
        ensures not_read { IsErrOf result RunError.Read → ⊥ }
        ensures handed_on { (push_state self.old).failed ≡ false → (push_state self.old).ended ≡ None
            → HandedOn (K.flushed sink.new) result }
        ensures too_many { IsErrOf result RunError.TooManyReads →
            2 ^ 64 - 1 ≤ (push_state self.old).reading.taken + length (push_waiting self.old) + length piece.now }
        ensures kept { (push_state self.new).failed ≡ false
            → OnErr result ((push_state self.new ≡ push_state self.old)
            × (push_waiting self.new ≡ push_waiting self.old) × (sink.new ≡ sink.old)) }
        ensures failed { IfErr result (λ e. HasFailedByPiece
            (nat_le (length (push_waiting self.old) + length piece.now) (push_room self.new)) e
            (push_state self.new).failed) }
        ensures refused { IsErrOf result RunError.Failed → (push_state self.old).failed ≡ true }
        ensures after_refusal { (push_state self.old).failed ≡ true → (result ≡ Err RunError.Failed)
            × (sink.new ≡ sink.old) × (self.new ≡ self.old) }
        ensures after_end { (status : ℕ) → (push_state self.old).failed ≡ false
            → (push_state self.old).ended ≡ Some status
            → (result ≡ Ok (Turn.Ended status)) × (sink.new ≡ sink.old) × (self.new ≡ self.old) }
    {
        if self.scan.state.failed {
            return Err(RunError::Failed);
        }
        match self.scan.state.ended {
            Some(status) => return Ok(Turn::Ended(status)),
            None => {}
        }
        let Some(count) = count_with(
            self.scan.state.reading.taken,
            self.waiting.len(),
            piece.len(),
        ) else {
            return Err(RunError::TooManyReads);
        };
        match self.waiting.reserve(piece.len()) {
            Err(_) => return Err(RunError::OutOfMemory),
            Ok(()) => {}
        }
        // The state after all bytes is known, so a piece that does not end the match needs one walk.
        if let Some(last) = walk_on(&self.machine, self.asking, piece) {
            match self.waiting.extend_from_slice(piece) {
                Err(_) => unreachable!(),
                Ok(()) => {}
            }
            self.asking = Some(last);
            return Ok(Turn::Went);
        }
        self.scan.state.reading.max_reads = count;
        scan_waiting(
            &self.machine,
            &mut self.scan,
            &mut self.waiting,
            piece,
            &mut self.asking,
            sink,
        )
    }

    /// Scans to the end of what was fed. Too many bytes are refused before a turn, and then nothing has changed. After
    /// a turn that is refused each call answers `Failed`.
    pub fn finish<K: Sink>(&mut self, sink: &mut K) -> Result<u8, RunError>
        requires few_writes { K.failures sink.old < 2 ^ 64 - 1 }
        ensures machine { push_machine self.new ≡ push_machine self.old }
        ensures finished { (put : List ℕ) × K.wrote sink.old put sink.new
            × ((fed out : List ℕ)
            → Fed (M.machine (push_machine self.old)) fed out (push_state self.old) (push_waiting self.old) →
            AfterFinish (rules_of_machine (M.machine (push_machine self.old))) fed (out ++ put) result) }

        ensures write_faults { K.failures sink.new ≡ K.failures sink.old + write_fault_count result }
        ensures not_read { IsErrOf result RunError.Read → ⊥ }
        ensures handed_on { (push_state self.old).failed ≡ false → (push_state self.old).ended ≡ None
            → RunHandedOn (K.flushed sink.new) result }
        ensures too_many { IsErrOf result RunError.TooManyReads →
            2 ^ 64 - 1 ≤ (push_state self.old).reading.taken + length (push_waiting self.old) }
        ensures kept { (push_state self.new).failed ≡ false
            → OnErr result ((push_state self.new ≡ push_state self.old)
            × (push_waiting self.new ≡ push_waiting self.old) × (sink.new ≡ sink.old)) }
        ensures failed { IfErr result (λ e. HasFailedBy e (push_state self.new).failed) }
        ensures refused { IsErrOf result RunError.Failed → (push_state self.old).failed ≡ true }
        ensures after_refusal { (push_state self.old).failed ≡ true → (result ≡ Err RunError.Failed)
            × (sink.new ≡ sink.old) × (self.new ≡ self.old) }
        ensures ended { (status : ℕ) → result ≡ Ok status → (push_state self.new).ended ≡ Some status }
        ensures after_end { (status : ℕ) → (push_state self.old).failed ≡ false
            → (push_state self.old).ended ≡ Some status
            → (result ≡ Ok status) × (sink.new ≡ sink.old) × (self.new ≡ self.old) }
    {
        if self.scan.state.failed {
            return Err(RunError::Failed);
        }
        if let Some(status) = self.scan.state.ended {
            return Ok(status);
        }
        let Some(count) = count_with(self.scan.state.reading.taken, self.waiting.len(), 0) else {
            return Err(RunError::TooManyReads);
        };
        // The answer of the end takes a read too.
        self.scan.state.reading.max_reads = count + 1;
        self.asking = None;
        scan_to_end(&self.machine, &mut self.scan, &self.waiting, sink)
    }
}
