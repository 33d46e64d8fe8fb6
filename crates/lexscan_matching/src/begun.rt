//! A match whose rule sets a start condition and does yymore, and no more, where the machine tells that: for turns
//! over bytes in memory.
ghost use Rattle.std.specs.Prelude.{◌≡◌, ℕ, ◌<◌, ◌≤◌, List, drop, IfSome};
ghost use Rattle.lex_machine.specs.Glances.{Leads};
ghost use Rattle.lexscan_window.specs.declared.state.TextPlace.{TextPlace};
ghost use Rattle.lexscan_matching.specs.Begins.{IsBegun, IsBegunFrom};

use crate::descent::kept_length;
use crate::plan::FEW;
use lex_machine::{Machine, Way};

/// How many bytes a match keeps whose rule sets a start condition and does yymore then, and that condition.
#[derive(Clone, Copy)]
pub struct BegunMatch {
    pub keep: usize,
    pub condition: u8,
}

/// The first match of so many bytes, where the first rule that the state after them accepts is told to be such a one,
/// and leaves few of them.
#[inline(always)]
fn begun_at<M: Machine>(machine: &M, state: u32, len: usize) -> Option<BegunMatch>
    requires known { state < M.states machine.now }
    requires some { 1 ≤ len }
    ensures { IfSome result (IsBegunFrom (M.machine machine.now) len state) }
{
    let begun = machine.begins_more(state)?;
    let keep = kept_length(begun.cut, len)?;
    // What a match leaves of its walk is gone over again. Where that is much, a turn by itself marks it.
    if FEW < len - keep {
        return None;
    }
    Some(BegunMatch {
        keep,
        condition: begun.condition,
    })
}

/// The match of a walk, where the last state accepts a rule or the one before it, and the first of these rules is
/// told to be such a one.
#[inline(always)]
pub fn begun_match<M: Machine>(machine: &M, way: Way<'_>) -> Option<BegunMatch>
    requires known { way.state < M.states machine.now }
    requires known_before { way.before < M.states machine.now }
    requires some { 1 ≤ way.count }
    ensures { IfSome result (λ begun. (p : TextPlace) (w : List ℕ)
        → Leads (M.machine machine.now) ((M.machine machine.now).start p.condition p.line_start) (drop p.at w) way.entry
        → IsBegun (M.machine machine.now) p w way.entry.count begun) }
{
    if !machine.accepts(way.state).is_empty() {
        return begun_at(machine, way.state, way.count);
    }
    if 1 < way.count {
        return begun_at(machine, way.before, way.count - 1);
    }
    None
}
