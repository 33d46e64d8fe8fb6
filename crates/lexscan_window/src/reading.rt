//! What a scanner keeps of its source.
ghost use Rattle.std.specs.Prelude.{◌≡◌, ◌<◌, ◌≤◌, [], ◌∷◌, length, true, false, OnOk};
ghost use Rattle.lexscan_window.specs.Walks.{Walked, StopsAt, ends_at};
ghost use Rattle.lexscan_window.specs.Intakes.{can_read, can_write};
ghost use Rattle.lexscan_window.specs.Takings.{ByteTaken, WindowFilled, ByteFetched};

use crate::error::RunError;
use crate::intake::{Intake, Outlet};
use crate::path::StatePath;
use crate::state::Reading;
use crate::tie::tie;
use crate::walk::{Stop, Walk};
use lex_io::{Sink, Source};
use lex_machine::Machine;

/// Takes the next byte into the window, or learns that there is none.
#[inline(always)]
fn take_plain<S: Source, K: Sink>(
    intake: &mut Intake<'_, S>,
    outlet: &mut Outlet<'_, K>,
    reading: &mut Reading,
) -> Result<Option<u8>, RunError>
    requires live { can_read intake.old ≡ true }
    requires sink { can_write outlet.old ≡ true }
    requires more { reading.old.at_end ≡ false }

    ensures { ByteTaken intake.old intake.new outlet.old outlet.new reading.old reading.new result }
{
    if reading.taken >= reading.max_reads {
        return Err(RunError::TooManyReads);
    }
    // Room comes before the read, so that no byte that was read is lost.
    if let Err(_) = reading.window.reserve() {
        return Err(RunError::OutOfMemory);
    }
    // Who waits for what was written may be who is to send more.
    if let Err(fault) = tie(intake, outlet) {
        return Err(fault);
    }
    match intake.next(outlet) {
        Err(_) => Err(RunError::Read),
        Ok(None) => {
            reading.at_end = true;
            Ok(None)
        }
        Ok(Some(byte)) => {
            reading.taken += 1;
            reading.window.push(byte);
            Ok(Some(byte))
        }
    }
}

/// The same as a call, for a read that may wait.
#[inline(never)]
fn take_apart<S: Source, K: Sink>(
    intake: &mut Intake<'_, S>,
    outlet: &mut Outlet<'_, K>,
    reading: &mut Reading,
) -> Result<Option<u8>, RunError>
    requires live { can_read intake.old ≡ true }
    requires sink { can_write outlet.old ≡ true }
    requires more { reading.old.at_end ≡ false }

    ensures { ByteTaken intake.old intake.new outlet.old outlet.new reading.old reading.new result }
{
    take_plain(intake, outlet, reading)
}

/// Takes the next byte into the window, or learns that there is none. There is room for its state before it is read.
fn take_byte<S: Source, K: Sink>(
    intake: &mut Intake<'_, S>,
    outlet: &mut Outlet<'_, K>,
    reading: &mut Reading,
    path: &mut StatePath,
) -> Result<Option<u8>, RunError>
    requires live { can_read intake.old ≡ true }
    requires sink { can_write outlet.old ≡ true }
    requires more { reading.old.at_end ≡ false }

    ensures byte { ByteTaken intake.old intake.new outlet.old outlet.new reading.old reading.new result }
    ensures states { path.new.states ≡ path.old.states }
    ensures room { OnOk result (path.new.room ≡ true) }
{
    if reading.max_reads <= reading.taken {
        return Err(RunError::TooManyReads);
    }
    if let Err(_) = path.reserve() {
        return Err(RunError::OutOfMemory);
    }
    take_plain(intake, outlet, reading)
}

/// A walk over one byte.
#[inline(always)]
fn walk_one<M: Machine>(machine: &M, first: u32, byte: u8) -> Walk
    requires known { first < M.states machine.now }
    ensures count { result.count ≡ 1 }
    ensures walked { Walked (M.machine machine.now) first (byte ∷ []) result.state result.before }
    ensures stops { StopsAt (M.machine machine.now) (byte ∷ []) result.state result.stop }
    ensures reading { ends_at result.stop ≡ false }
    ensures known { result.state < M.states machine.now }
    ensures known_before { result.before < M.states machine.now }
{
    let state = machine.step(first, byte);
    let stop = if machine.goes_on(state) {
        Stop::Full
    } else {
        Stop::Done
    };
    Walk::new(1, state, first, stop)
}

/// Takes bytes that the source has ready into the window as long as the machine asks for one more; or reads one byte,
/// where none is ready. What is refused is refused before a byte is taken.
#[inline(always)]
pub fn fill<M: Machine, S: Source, K: Sink>(
    machine: &M,
    intake: &mut Intake<'_, S>,
    outlet: &mut Outlet<'_, K>,
    reading: &mut Reading,
    first: u32,
) -> Result<Walk, RunError>
    requires live { can_read intake.old ≡ true }
    requires sink { can_write outlet.old ≡ true }
    requires more { reading.old.at_end ≡ false }
    requires known { first < M.states machine.now }

    ensures { WindowFilled (M.machine machine.now) (M.states machine.now) intake.old intake.new outlet.old outlet.new
        reading.old reading.new first result }
{
    // Only a read of one byte may wait; bytes that are ready are taken many at a time.
    if intake.ahead().is_empty() {
        return match take_apart(intake, outlet, reading) {
            Err(e) => Err(e),
            Ok(None) => Ok(Walk::new(0, first, first, Stop::End)),
            Ok(Some(byte)) => Ok(walk_one(machine, first, byte)),
        };
    }
    let most = reading.max_reads - reading.taken;
    if most == 0 {
        return Err(RunError::TooManyReads);
    }
    if let Err(_) = reading.window.reserve() {
        return Err(RunError::OutOfMemory);
    }
    let walk = reading.window.fill(machine, intake.ahead(), first, most);
    intake.give(walk.count);
    reading.taken += walk.count as u64;
    Ok(walk)
}

/// Makes sure that the window has a byte at this place, and the path room for its state. Answers false where the source
/// has answered its end.
pub fn fetch<S: Source, K: Sink>(
    intake: &mut Intake<'_, S>,
    outlet: &mut Outlet<'_, K>,
    reading: &mut Reading,
    path: &mut StatePath,
    next: usize,
) -> Result<bool, RunError>
    requires live { reading.old.at_end ≡ false → can_read intake.old ≡ true }
    requires sink { can_write outlet.old ≡ true }
    requires place { next ≤ length reading.old.window.bytes }

    ensures { ByteFetched intake.old intake.new outlet.old outlet.new reading.old reading.new path.old path.new next
        result }
{
    if next < reading.window.len() {
        return match path.reserve() {
            Err(_) => Err(RunError::OutOfMemory),
            Ok(()) => Ok(true),
        };
    }
    // After its end a source is not called again.
    let ended = reading.at_end;
    if ended {
        return Ok(false);
    }
    match take_byte(intake, outlet, reading, path) {
        Err(e) => Err(e),
        Ok(None) => Ok(false),
        Ok(Some(_)) => Ok(true),
    }
}
