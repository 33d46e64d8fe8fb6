//! The matches at a place, from the longest down.
ghost use Rattle.std.specs.Prelude.{◌≡◌, ℕ, ◌+◌, ◌<◌, ◌≤◌, length, filter_map, true, IfSome};
ghost use Rattle.lex_semantics.specs.Text.{Among};
ghost use Rattle.lex_semantics.specs.PlainMachine.{kept_by, match_of};
ghost use Rattle.lex_machine.specs.Views.{cut_of};
ghost use Rattle.lexscan_window.specs.Intakes.{can_write};
ghost use Rattle.lexscan_matching.specs.Descends.{matches_of};
ghost use Rattle.lexscan_matching.specs.Calls.{RulesTried, MatchesTried};

use lex_io::Sink;
use lex_machine::{Cut, Machine};
use lexscan_window::{
    ActionFlow, ActionState, Finish, MatchedRule, Outlet, RunError, StatePath, Window, carry_out,
    put,
};

/// What a cut keeps of a match of this many bytes, if it fits.
pub fn kept_length(cut: Cut, len: usize) -> Option<usize>
    ensures keep { result ≡ kept_by (cut_of cut) len }
    ensures short { IfSome result (λ keep. keep ≤ len) }
{
    match cut {
        Cut::Whole => Some(len),
        Cut::Head(count) => {
            let count = usize::from(count);
            if 0 < count && count <= len {
                Some(count)
            } else {
                None
            }
        }
        Cut::Trail(count) => {
            let count = usize::from(count);
            // A text is never empty, so the trailing context may not take all of the match.
            if count < len { Some(len - count) } else { None }
        }
    }
}

/// Tries the matches of one length, up to the first that is not rejected.
fn try_rules<M: Machine, K: Sink>(
    machine: &M,
    outlet: &mut Outlet<'_, K>,
    window: &Window,
    rules: &[u32],
    at: usize,
    len: usize,
    acting: &mut ActionState,
    matched: &mut Option<MatchedRule>,
) -> Result<ActionFlow, RunError>
    requires live { can_write outlet.old ≡ true }
    requires place { at + len ≤ length window.now.bytes }
    requires known { (i : ℕ) → Among rules.now i → i < (M.machine machine.now).count }
    requires inside { acting.old.end ≤ length window.now.bytes }

    ensures { RulesTried (M.machine machine.now) outlet.old outlet.new window.now.bytes at
        (filter_map (match_of (M.machine machine.now) len) rules.now) acting.old acting.new matched.new result }
{
    let held = window.len();
    for rule in rules {
        let (cut, statements) = machine.rule(*rule);
        if let Some(keep) = kept_length(cut, len) {
            prove!(keep <= held - at);
            // What a rejected rule has written, and the conditions that it set, stay; its text and yymore do not.
            acting.end = at + keep;
            acting.more = false;
            *matched = Some(MatchedRule::Numbered(*rule));
            match carry_out(outlet, window, statements, acting)? {
                ActionFlow::Again => {}
                stop => return Ok(stop),
            }
        }
    }
    Ok(ActionFlow::Again)
}

/// Tries the matches at a place, the longest first, and carries out the first that is not rejected. Answers how the
/// scan ends, if it does.
pub fn descend<M: Machine, K: Sink>(
    machine: &M,
    outlet: &mut Outlet<'_, K>,
    window: &Window,
    path: &StatePath,
    at: usize,
    acting: &mut ActionState,
    matched: &mut Option<MatchedRule>,
) -> Result<Option<Finish>, RunError>
    requires live { can_write outlet.old ≡ true }
    requires some { 1 ≤ length path.now.states }
    requires place { at + length path.now.states ≤ length window.now.bytes }
    requires known { (state : ℕ) → Among path.now.states state → state < M.states machine.now }
    requires inside { acting.old.end ≤ length window.now.bytes }

    ensures { MatchesTried (M.machine machine.now) outlet.old outlet.new window.now.bytes at
        (matches_of (M.machine machine.now) window.now.bytes at path.now.states) acting.old acting.new matched.new
        result }
{
    let mut len = path.len();
    'lengths: while 0 < len {
        let rules = machine.accepts(path.state(len - 1));
        match try_rules(machine, outlet, window, rules, at, len, acting, matched)? {
            ActionFlow::Next => return Ok(None),
            ActionFlow::Again => {}
            ActionFlow::Over(finish) => return Ok(Some(finish)),
        }
        len -= 1;
    }
    // Each rule was rejected, or none matched: the default rule copies one byte, after what yymore kept.
    let held = window.len();
    prove!(at < held);
    acting.end = at + 1;
    acting.more = false;
    *matched = Some(MatchedRule::Default);
    match put(outlet, window.slice(0, at + 1)) {
        Err(e) => Err(e),
        Ok(()) => Ok(None),
    }
}
