//! How far a match looks.
ghost use Rattle.std.specs.Prelude.{◌≡◌, ◌+◌, ◌<◌, ◌≤◌, ℕ, List, [], true, length, drop, IfSome};
ghost use Rattle.lex_semantics.specs.Demand.{Consistent};
ghost use Rattle.lex_semantics.specs.Machine.{rules_of_machine};
ghost use Rattle.lex_semantics.specs.Text.{at_line_start};
ghost use Rattle.lextab_packed.specs.FlatViews.{tables_of};
ghost use Rattle.lextab_packed.specs.Machines.{table_machine, table_states};
ghost use Rattle.lexscan.specs.Pulls.{whole_token};
ghost use Rattle.lexlook_counts.specs.Costs.{IsCost, TurnCost, cost_by};
ghost use Rattle.lexlook_counts.specs.Looking.{Holds, IsHeld, Looks, Starts, looker_machine};
ghost use Rattle.lexlook_counts.specs.FarWalks.{AreTrueOf, AreTrueFrom};

use crate::walking::{note, walk_on};
use lex_machine::Machine;
use lexscan::PulledToken;
use lexscan_window::Memo;
use lextab_packed::Flat;
use std::alloc::Global;

/// How many bytes a match looks at, and whether all that there are lead to a state from which the machine goes on.
#[derive(Clone, Copy)]
pub(crate) struct Look {
    pub(crate) count: usize,
    pub(crate) whole: bool,
}

/// So many bytes are looked at behind each text before it is asked what is known of the others, or marked.
const NEAR: usize = 64;

/// How far a match looks, if it stops among the first bytes.
fn look_near<M: Machine>(machine: &M, first: u32, bytes: &[u8], near: usize) -> Option<Look>
    requires { first < M.states machine.now }
    ensures { IfSome result (Looks (M.machine machine.now) first bytes.now) }
{
    let near = near.min(bytes.len());
    match machine.way(first, &bytes[..near]) {
        Some(way) => Some(Look {
            count: way.count,
            whole: false,
        }),
        None => None,
    }
}

/// How far a match looks, by what is known of the bytes from this place on. Where it looks at more than the first bytes, it is
/// marked where its walk leads.
fn look_far<M: Machine>(
    machine: &M,
    memo: &mut Memo,
    first: u32,
    place: u64,
    bytes: &[u8],
    near: usize,
) -> Look
    requires first { first < M.states machine.now }
    requires marks { AreTrueFrom (M.machine machine.now) (M.states machine.now) place bytes.now memo.old }
    ensures looks { Looks (M.machine machine.now) first bytes.now result }
    ensures marks { (given : List ℕ) → place ≤ length given → bytes.now ≡ drop place given
        → AreTrueOf (M.machine machine.now) (M.states machine.now) given memo.old
        → AreTrueOf (M.machine machine.now) (M.states machine.now) given memo.new }
{
    let walk = walk_on(machine, memo, first, place, bytes);
    if near < walk.seen {
        memo.fit(bytes.len());
        note(machine, memo, first, place, bytes, walk);
    }
    Look {
        count: walk.count,
        whole: walk.count == 0 || machine.goes_on(walk.state),
    }
}

/// The state where a match starts in a condition; the dead one where there is no such condition.
#[tactic(auto, using(crate::proofs::Costing::no_start))]
fn start_in(machine: &Flat, condition: u8, line_start: bool) -> u32
    ensures state { result ≡ (table_machine (tables_of machine.now)).start condition line_start }
    ensures known { result < table_states (tables_of machine.now) }
{
    if usize::from(condition) >= machine.conditions() {
        return 0;
    }
    machine.start(condition, line_start)
}

/// Whether all that is looked at was fed, where the end of the input was told or not.
fn is_all_there(look: Look, finished: bool) -> bool
    ensures { result ≡ true → look.whole ≡ true → finished ≡ true }
{
    !look.whole || finished
}

/// Drops the first bytes.
fn drop_front(bytes: &mut Vec<u8>, count: usize)
    requires { count ≤ length bytes.old.items }
    ensures { bytes.new.items ≡ drop count bytes.old.items }
{
    let left = bytes.len() - count;
    bytes.copy_within(count.., 0);
    bytes.truncate(left);
}

/// How a turn starts: in which state, and the bytes that are held from there on.
#[derive(Clone, Copy)]
pub(crate) struct TurnStart<'a> {
    pub(crate) first: u32,
    pub(crate) bytes: &'a [u8],
}

/// What is needed to tell how far turns look: a machine, and the bytes of the input that the next ones may look at.
#[derive(Drop)]
pub(crate) struct Looker {
    machine: Flat,
    /// The bytes from the place `base` on, as far as they were fed.
    pub(crate) bytes: Vec<u8>,
    base: u64,
    /// Where the next turn begins.
    at: u64,
    /// What is known of walks over the bytes.
    memo: Memo,
}

impl Looker {
    /// One that holds nothing, before the first turn.
    pub(crate) fn new(alloc: Global, machine: Flat) -> Looker
        ensures machine { looker_machine result ≡ table_machine (tables_of machine) }
        ensures holds { Holds [] 0 result }
    {
        Looker {
            machine,
            bytes: Vec::new(alloc),
            base: 0,
            at: 0,
            memo: Memo::new(alloc),
        }
    }

    /// Whether the next turn begins at the start of a line, where it does behind so many of the bytes held.
    fn line_start(&self, behind: usize) -> Option<bool>
        ensures { IfSome result (λ start. (given : List ℕ) (at : ℕ) → Holds given at self.now
            → at ≡ self.now.base + behind → start ≡ at_line_start given at) }
    {
        if self.at == 0 {
            return Some(true);
        }
        if behind == 0 || behind > self.bytes.len() {
            return None;
        }
        Some(self.bytes[behind - 1] == b'\n')
    }

    /// The machine by which it looks.
    pub(crate) fn machine(&self) -> &Flat
        ensures { result.now ≡ self.now.machine }
    {
        &self.machine
    }

    /// How the next turn starts, which begins in this condition. None where it is not among the bytes held.
    pub(crate) fn next_turn(&self, condition: u8) -> Option<TurnStart<'_>>
        ensures starts { IfSome result (λ turn. (given : List ℕ) (at : ℕ) → Holds given at self.now
            → Starts (looker_machine self.now) given at condition turn) }
        ensures known { IfSome result (λ turn. turn.first < table_states (tables_of self.now.machine)) }
    {
        let Some(behind) = self.at.checked_sub(self.base) else {
            return None;
        };
        let behind = behind as usize;
        if behind > self.bytes.len() {
            return None;
        }
        match self.line_start(behind) {
            None => None,
            Some(line_start) => Some(TurnStart {
                first: start_in(&self.machine, condition, line_start),
                bytes: &self.bytes[behind..],
            }),
        }
    }

    /// How far the next turn looks, which begins in this condition and has a text of so many bytes. None where it is not among the
    /// bytes held.
    fn look(&mut self, condition: u8, text: usize) -> Option<Look>
        requires { IsHeld self.old }
        ensures machine { looker_machine self.new ≡ looker_machine self.old }
        ensures holds { (given : List ℕ) (at : ℕ) → Holds given at self.old → Holds given at self.new }
        ensures looks { IfSome result (λ look. (given : List ℕ) (at : ℕ) → Holds given at self.old → (at ≤ length given)
            × Looks (looker_machine self.old) ((looker_machine self.old).start condition (at_line_start given at))
            (drop at given) look) }
    {
        let Some(behind) = self.at.checked_sub(self.base) else {
            return None;
        };
        let behind = behind as usize;
        if behind > self.bytes.len() {
            return None;
        }
        let Some(line_start) = self.line_start(behind) else {
            return None;
        };
        let first = start_in(&self.machine, condition, line_start);
        let near = text.saturating_add(NEAR);
        let ahead = &self.bytes[behind..];
        match look_near(&self.machine, first, ahead, near) {
            Some(look) => Some(look),
            None => Some(look_far(&self.machine, &mut self.memo, first, self.at, ahead, near)),
        }
    }

    /// Gives the memory of what is known back where few bytes are held.
    fn forget(&mut self)
        ensures machine { looker_machine self.new ≡ looker_machine self.old }
        ensures holds { (given : List ℕ) (at : ℕ) → Holds given at self.old → Holds given at self.new }
    {
        if self.bytes.len() <= NEAR {
            self.memo.clear();
        }
    }

    /// Goes on behind a text that begins and ends here. No later one begins before it.
    fn go_on(&mut self, start: u64, end: u64)
        ensures machine { looker_machine self.new ≡ looker_machine self.old }
        ensures holds { (given : List ℕ) (at : ℕ) → Holds given at self.old → Holds given end self.new }
    {
        self.at = end;
        // The byte before a text tells whether it begins a line.
        let done = start.saturating_sub(1).saturating_sub(self.base);
        let done = done.min(self.bytes.len() as u64);
        if self.bytes.len() as u64 - done <= done {
            drop_front(&mut self.bytes, done as usize);
            self.base += done;
            self.forget();
        }
    }

    /// How many bytes the next turn looks at behind its text, which begins in this condition and ends here. None where it asks for
    /// more of the input than was fed.
    fn beyond(&mut self, condition: u8, end: u64, finished: bool) -> Option<u64>
        requires { IsHeld self.old }
        ensures machine { looker_machine self.new ≡ looker_machine self.old }
        ensures holds { (given : List ℕ) (at : ℕ) → Holds given at self.old → Holds given at self.new }
        ensures looks { IfSome result (λ beyond. (given : List ℕ) (at : ℕ) (x : List ℕ) (c : TurnCost) → Holds given at self.old
            → Consistent given finished x → c.token.condition ≡ condition → c.token.end ≡ end → c.beyond ≡ beyond
            → IsCost (rules_of_machine (looker_machine self.old)) x at c) }
    {
        let text = end.saturating_sub(self.at);
        let Some(look) = self.look(condition, text as usize) else {
            return None;
        };
        if !is_all_there(look, finished) {
            return None;
        }
        Some((look.count as u64).saturating_sub(text))
    }

    /// The same of the turn of a token. The next one begins behind its text.
    pub(crate) fn pass(&mut self, token: PulledToken, finished: bool) -> Option<u64>
        requires { IsHeld self.old }
        ensures machine { looker_machine self.new ≡ looker_machine self.old }
        ensures passed { IfSome result (λ beyond. (given : List ℕ) (at : ℕ) → Holds given at self.old
            → Holds given (whole_token token).end self.new
            × ((x : List ℕ) → Consistent given finished x
            → IsCost (rules_of_machine (looker_machine self.old)) x at (cost_by token beyond))) }
    {
        let Some(end) = token.start.checked_add(token.length as u64) else {
            return None;
        };
        let beyond = self.beyond(token.condition, end, finished);
        self.go_on(token.start, end);
        beyond
    }
}
