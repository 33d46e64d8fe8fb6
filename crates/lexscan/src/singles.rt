//! Matches of one byte each, which a burst passes many at a time.
ghost use Rattle.std.specs.Prelude.{◌≡◌, ◌-◌, ◌<◌, ◌≤◌, length, take, true};
ghost use Rattle.lex_machine.specs.Singles.{IsDropped, IsCopied, Singles};
ghost use Rattle.lexscan_window.specs.Intakes.{sink_of, sink_name, can_write};
ghost use Rattle.lexscan.specs.Bursts.{Passed};

use lex_io::Sink;
use lex_machine::Machine;
use lexscan_window::Outlet;

/// Passes bytes that are dropped, each a match by itself, where that is tried. Answers those that are left.
#[inline(always)]
pub fn pass_dropped<'t, M: Machine>(
    machine: &M,
    tried: bool,
    condition: u8,
    first: u32,
    bytes: &'t [u8],
) -> &'t [u8]
    requires condition { condition < (M.machine machine.now).conditions }
    requires first { first < M.states machine.now }
    ensures { Passed IsDropped (M.machine machine.now) condition first bytes.now result.now }
{
    if !tried {
        return bytes;
    }
    let count = machine.dropped(condition, first, bytes);
    &bytes[count..]
}

/// Passes bytes that are copied, each a match by itself, where that is tried: as many as can be written without fail.
/// Answers those that are left.
#[inline(always)]
pub fn pass_copied<'t, M: Machine, K: Sink>(
    machine: &M,
    outlet: &mut Outlet<'_, K>,
    tried: bool,
    condition: u8,
    first: u32,
    bytes: &'t [u8],
) -> &'t [u8]
    requires condition { condition < (M.machine machine.now).conditions }
    requires first { first < M.states machine.now }
    ensures passed { Passed IsCopied (M.machine machine.now) condition first bytes.now result.now }
    ensures bytes { K.wrote (sink_of outlet.old) (take (length bytes.now - length result.now) bytes.now)
        (sink_of outlet.new) }
    ensures same { sink_name outlet.new ≡ sink_name outlet.old }
    ensures failures { K.failures (sink_of outlet.new) ≡ K.failures (sink_of outlet.old) }
    ensures live { can_write outlet.new ≡ can_write outlet.old }
{
    if !tried {
        return bytes;
    }
    let most = bytes.len().min(outlet.room());
    let count = machine.copied(condition, first, &bytes[..most]);
    let held = outlet.hold(&bytes[..count]);
    &bytes[held..]
}

/// Whether most bytes are matches by themselves in the condition after a turn, where it is known of that before. Where
/// runs are not passed, nothing changes.
#[inline(always)]
pub fn singles_after<M: Machine>(
    machine: &M,
    passing: bool,
    singles: bool,
    condition: u8,
    after: u8,
) -> bool
    requires { after < (M.machine machine.now).conditions }
{
    if !passing || after == condition {
        return singles;
    }
    machine.has_singles(after)
}
