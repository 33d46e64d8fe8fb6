//! How often the matches of each rule are given up for the next ones, by REJECT.
ghost use Rattle.std.specs.Prelude.{◌≡◌, ℕ, ◌<◌, ◌∷◌, [], List, map, length, option_map, IfErr, IfOk, OnOk, is_some};
ghost use Rattle.lex_semantics.specs.Machine.{rules_of_machine};
ghost use Rattle.lex_semantics.specs.PlainMachine.{kept_by};
ghost use Rattle.lex_semantics.specs.Text.{Among};
ghost use Rattle.lex_semantics.specs.Trail.{falling};
ghost use Rattle.lex_machine.specs.Views.{cut_of};
ghost use Rattle.lexlook_counts.specs.Descending.{CountsMore, CountsTurn, GivenUpAmong, IsPath, gives_up_at, matches_at};
ghost use Rattle.lexlook_counts.specs.GivenUp.{given_counts, given_up};
ghost use Rattle.lexlook_counts.specs.Looking.{Holds, Starts, looker_machine};

use crate::looking::{Looker, TurnStart};
use lex_machine::{Cut, Machine, has_reject};
use lexscan::RunError;
use std::alloc::{AllocError, Global};

/// Whether a cut keeps some of a match that is so long.
fn keeps_some(cut: Cut, length: usize) -> bool
    ensures { result ≡ is_some (kept_by (cut_of cut) length) }
{
    match cut {
        Cut::Whole => true,
        Cut::Head(count) => 0 < count && usize::from(count) <= length,
        Cut::Trail(count) => usize::from(count) < length,
    }
}

/// Whether the match of a rule that is so long is given up. None where there is none.
fn gives_up_at<M: Machine>(machine: &M, rule: u32, length: usize) -> Option<bool>
    requires { rule < (M.machine machine.now).count }
    ensures { result ≡ gives_up_at (M.machine machine.now) length rule }
{
    let (cut, statements) = machine.rule(rule);
    if !keeps_some(cut, length) {
        return None;
    }
    Some(has_reject(statements))
}

/// Counts a match that is given up, where there is a rule of this number.
fn count_once(counts: &mut Vec<u64>, rule: usize)
    ensures { CountsMore counts.old.items counts.new.items (rule ∷ []) }
{
    if rule < counts.len() {
        counts[rule] = counts[rule].saturating_add(1);
    }
}

/// Counts those that are given up of the matches of these rules that are so long. Answers whether they all are.
fn count_rules<M: Machine>(machine: &M, rules: &[u32], length: usize, counts: &mut Vec<u64>) -> bool
    requires { (i : ℕ) → Among rules.now i → i < (M.machine machine.now).count }
    ensures { GivenUpAmong (rules_of_machine (M.machine machine.now)) (matches_at (M.machine machine.now) length rules.now)
        counts.old.items counts.new.items result }
{
    for rule in rules {
        match gives_up_at(machine, *rule, length) {
            None => {}
            Some(false) => return false,
            Some(true) => count_once(counts, *rule as usize),
        }
    }
    true
}

/// Counts the matches that are given up, from the longest down, where these are the states after each byte.
fn count_matches<M: Machine>(machine: &M, path: &[u32], counts: &mut Vec<u64>)
    requires { (state : ℕ) → Among path.now state → state < M.states machine.now }
    ensures { CountsMore counts.old.items counts.new.items
        (given_up (rules_of_machine (M.machine machine.now)) (falling (M.machine machine.now) 0 path.now)) }
{
    let mut length = path.len();
    'lengths: while 0 < length {
        let rules = machine.accepts(path[length - 1]);
        if !count_rules(machine, rules, length, counts) {
            return;
        }
        length -= 1;
    }
}

/// Appends the states after each byte that a turn looks at from a state on. Answers whether it stops there.
fn walk_path<M: Machine>(
    machine: &M,
    first: u32,
    bytes: &[u8],
    path: &mut Vec<u32>,
) -> Result<bool, AllocError>
    requires none { path.old.items ≡ [] }
    requires known { first < M.states machine.now }
    ensures path { IfOk result (IsPath (M.machine machine.now) first bytes.now path.new.items) }
    ensures states { OnOk result ((state : ℕ) → Among path.new.items state → state < M.states machine.now) }
{
    let mut state = first;
    for place in 0..bytes.len() {
        state = machine.step(state, bytes[place]);
        path.push(state)?;
        if !machine.goes_on(state) {
            return Ok(true);
        }
    }
    Ok(false)
}

/// How often the matches of each rule were given up.
#[derive(Drop)]
pub(crate) struct GivenUp {
    pub(crate) counts: Vec<u64>,
    /// The states after each byte that the turn at hand looks at.
    path: Vec<u32>,
}

impl GivenUp {
    /// The counts before the first turn, of so many rules.
    pub(crate) fn new(alloc: Global, rules: usize) -> Result<GivenUp, AllocError>
        ensures { IfOk result (λ g. g.counts.items ≡ given_counts rules []) }
    {
        Ok(GivenUp {
            counts: vec![in alloc; 0; rules]?,
            path: Vec::new(alloc),
        })
    }

    /// Counts what a turn gives up that starts so. Refused where it asks for more of the input than was fed.
    fn count_from<M: Machine>(
        &mut self,
        machine: &M,
        turn: TurnStart<'_>,
        finished: bool,
    ) -> Result<(), RunError>
        requires { turn.first < M.states machine.now }
        ensures counted { OnOk result ((given : List ℕ) (at condition : ℕ)
            → Starts (M.machine machine.now) given at condition turn.entry
            → CountsTurn (M.machine machine.now) given at condition finished self.old.counts.items self.new.counts.items) }
        ensures refused { IfErr result (λ e. e ≡ RunError.OutOfMemory) }
    {
        self.path.clear();
        match walk_path(machine, turn.first, turn.bytes, &mut self.path) {
            Err(_) => return Err(RunError::OutOfMemory),
            Ok(stopped) => {
                // A scan asks for all that its turns look at before it tells their tokens.
                if !stopped && !finished {
                    return Err(RunError::OutOfMemory);
                }
            }
        }
        count_matches(machine, &self.path, &mut self.counts);
        Ok(())
    }

    /// Counts what the next turn gives up, which begins in this condition. Refused where it asks for more of the input than
    /// was fed.
    pub(crate) fn count_next(
        &mut self,
        looker: &Looker,
        condition: u8,
        finished: bool,
    ) -> Result<(), RunError>
        ensures counted { OnOk result ((given : List ℕ) (at : ℕ) → Holds given at looker.now
            → CountsTurn (looker_machine looker.now) given at condition finished self.old.counts.items
            self.new.counts.items) }
        ensures refused { IfErr result (λ e. e ≡ RunError.OutOfMemory) }
    {
        let machine = looker.machine();
        if !machine.rejects() {
            return Ok(());
        }
        match looker.next_turn(condition) {
            None => Err(RunError::OutOfMemory),
            Some(turn) => self.count_from(machine, turn, finished),
        }
    }
}
