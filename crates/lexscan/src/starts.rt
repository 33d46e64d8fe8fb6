//! The states where the matches of a condition start, for turns in one loop: these look for them where the condition
//! changes alone.
ghost use Rattle.std.specs.Prelude.{◌≡◌, ℕ, ◌<◌};
ghost use Rattle.lex_semantics.specs.Machine.{Machine as MachineModel};
ghost use Rattle.lexscan.specs.Bursts.{AreStarts};

use lex_machine::Machine;

/// The states where a match starts in a condition: inside a line, and at the start of one.
#[derive(Clone, Copy)]
pub struct Starts {
    pub inside: u32,
    pub at_line: u32,
}

/// The states where a match starts in a condition.
#[inline(always)]
pub fn starts_in<M: Machine>(machine: &M, condition: u8) -> Starts
    requires { condition < (M.machine machine.now).conditions }
    ensures { AreStarts (M.machine machine.now) (M.states machine.now) condition result }
{
    Starts {
        inside: machine.start(condition, false),
        at_line: machine.start(condition, true),
    }
}

/// The same for the condition after a match, where those of the one before it are known: mostly it is the same condition.
#[inline(always)]
pub fn starts_after<M: Machine>(machine: &M, known: Starts, condition: u8, after: u8) -> Starts
    requires after { after < (M.machine machine.now).conditions }
    requires known { AreStarts (M.machine machine.now) (M.states machine.now) condition known }
    ensures { AreStarts (M.machine machine.now) (M.states machine.now) after result }
{
    if after == condition {
        return known;
    }
    starts_in(machine, after)
}

/// The one of them where a match starts, at the start of a line or not.
#[inline(always)]
pub fn start_at(starts: Starts, line_start: bool) -> u32
    ensures { (M : MachineModel) (states condition : ℕ) → AreStarts M states condition starts
        → (result ≡ M.start condition line_start) × (result < states) }
{
    if line_start {
        starts.at_line
    } else {
        starts.inside
    }
}
