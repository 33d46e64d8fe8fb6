//! One turn over bytes that are there, where the machine tells its match at a glance: nothing is read or written.
ghost use Rattle.std.specs.Prelude.{◌≡◌, ◌+◌, ◌<◌, ◌≤◌, length, map, IfSome};
ghost use Rattle.lex_semantics.specs.ByteSets.{bit_of};
ghost use Rattle.lex_semantics.specs.Text.{IsText};
ghost use Rattle.lex_machine.specs.Glances.{Gists};
ghost use Rattle.lex_machine.specs.Views.{statement_of};
ghost use Rattle.lexscan_matching.specs.Glanced.{all_begun, begun, condition_after};
ghost use Rattle.lexscan.specs.Glances.{TellsRule, IsTold, LeavesTold, GlancedOver};
ghost use Rattle.lexscan.specs.Scans.{IsGoing, ScanInvariant};

use crate::find::has_backlog;
use crate::scan::Scan;
use lex_machine::{Gist, Machine, Statement};
use lexscan_matching::names_rule;
use lexscan_window::{MatchedRule, State, TextPlace};

/// How many bytes that wait are looked at: most tokens are shorter.
const MOST_GLANCED: usize = 64;

/// A match that is told at a glance: its rule, how many bytes it keeps and how many it asks for, and the condition of
/// the next one.
#[derive(Clone, Copy)]
pub struct ToldMatch {
    pub rule: u32,
    pub keep: usize,
    pub asked: usize,
    pub condition: u8,
}

/// The condition after a statement that changes no stack.
fn begun(statement: &Statement, condition: u8) -> u8
    ensures { result ≡ begun (statement_of statement.now) condition }
{
    match statement {
        Statement::Begin(after) => *after,
        _ => condition,
    }
}

/// The condition after some of them.
#[inline(never)]
fn all_begun(statements: &[Statement], condition: u8) -> u8
    ensures { result ≡ all_begun (map statement_of statements.now) condition }
{
    let mut after = condition;
    for statement in statements {
        after = begun(statement, after);
    }
    after
}

/// The condition after what is told of a rule.
fn condition_after(gist: Gist<'_>, condition: u8) -> u8
    ensures { result ≡ condition_after gist.entry condition }
{
    match gist {
        Gist::Begin(after) => after,
        Gist::Several(statements) => all_begun(statements, condition),
        _ => condition,
    }
}

/// A rule whose deeds are told, and the condition after these.
#[derive(Clone, Copy)]
struct ToldRule {
    rule: u32,
    condition: u8,
}

/// The first rule of a state, where it is told what that does.
#[inline(always)]
fn told_rule<M: Machine>(machine: &M, state: u32, gist: Gist<'_>, condition: u8) -> Option<ToldRule>
    requires known { state < M.states machine.now }
    requires gists { Gists (M.machine machine.now) state gist }
    ensures rule { IfSome result (λ told. TellsRule (M.machine machine.now) state gist.entry told.rule) }
    ensures condition { IfSome result (λ told. told.condition ≡ condition_after gist.entry condition) }
{
    // Most rules of tokens do nothing: such a one is told in few steps.
    if matches!(gist, Gist::Silent) {
        let rule = *machine.accepts(state).first()?;
        return Some(ToldRule { rule, condition });
    }
    if !names_rule(gist) {
        return None;
    }
    let rule = *machine.accepts(state).first()?;
    Some(ToldRule {
        rule,
        condition: condition_after(gist, condition),
    })
}

/// The match at the front of a text, where it ends there, and the last state of its walk or the one before it tells
/// its rule.
#[inline(always)]
#[tactic(auto, using(lex_machine::proofs::Growing::is_text_from))]
pub fn told_match<M: Machine>(
    machine: &M,
    first: u32,
    bytes: &[u8],
    condition: u8,
) -> Option<ToldMatch>
    requires first { first < M.states machine.now }
    ensures told { IfSome result (IsTold (M.machine machine.now) first bytes.now condition) }
    ensures near { IfSome result (λ told. told.asked ≤ told.keep + 1) }
    ensures text { IsText bytes.now }
{
    let way = machine.way(first, bytes)?;
    if !matches!(way.gist, Gist::NoRule) {
        let told = told_rule(machine, way.state, way.gist, condition)?;
        return Some(ToldMatch {
            rule: told.rule,
            keep: way.count,
            asked: way.count,
            condition: told.condition,
        });
    }
    // Where the last state accepts no rule, a match that is one byte shorter is the longest.
    if way.count == 1 {
        return None;
    }
    let gist = machine.gist(way.before);
    let told = told_rule(machine, way.before, gist, condition)?;
    Some(ToldMatch {
        rule: told.rule,
        keep: way.count - 1,
        asked: way.count,
        condition: told.condition,
    })
}

/// Leaves the place of a match that is told, of which so many bytes were shown.
#[inline(always)]
fn leave_told(state: &mut State, told: ToldMatch, line_start: bool, got: usize)
    requires got { got ≤ length state.old.reading.window.ahead }
    requires few { state.old.reading.taken + got + bit_of state.old.reading.at_end ≤ state.old.reading.max_reads }
    requires keep { told.keep ≤ length state.old.reading.window.bytes + got }
    ensures { LeavesTold told line_start got state.old state.new }
{
    let _most = state.reading.max_reads;
    state.reading.taken += got as u64;
    state.reading.window.accept(got);
    state.reading.window.drop_front(told.keep);
    state.place = TextPlace {
        at: 0,
        line_start,
        condition: told.condition,
    };
    state.acting.end = told.keep;
    state.matched = Some(MatchedRule::Numbered(told.rule));
}

impl Scan {
    /// One turn over the bytes held and those that wait, if its match is told at a glance. Otherwise the scan stands where it
    /// stood.
    #[inline(always)]
    pub fn turn_at_glance<M: Machine>(&mut self, machine: &M, waiting: &[u8]) -> bool
        requires going { IsGoing self.old }
        requires kept { ScanInvariant (M.machine machine.now) self.old }
        ensures { GlancedOver (M.machine machine.now) waiting.now self.old self.new result }
    {
        // With yymore a text begins before its match, and where many bytes are held their marks are asked.
        if self.state.reading.at_end || self.state.place.at != 0 || has_backlog(&self.state) {
            return false;
        }
        let left = self.state.reading.max_reads - self.state.reading.taken;
        let allowed = if left < MOST_GLANCED as u64 {
            left as usize
        } else {
            MOST_GLANCED
        };
        let held = self.state.reading.window.len();
        let shown = self.state.reading.window.show(waiting, allowed);
        let text = self.state.reading.window.text(shown);
        let place = self.state.place;
        let first = machine.start(place.condition, place.line_start);
        let Some(told) = told_match(machine, first, text, place.condition) else {
            return false;
        };
        let line_start = text[told.keep - 1] == b'\n';
        let asked = told.asked.max(held);
        leave_told(&mut self.state, told, line_start, asked - held);
        true
    }
}
