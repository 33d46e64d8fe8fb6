//! A series: turns over bytes that are there, one behind another, whose matches are told at a glance. It lists their tokens, in
//! few bytes each, and writes nothing.
ghost use Rattle.std.specs.Prelude.{◌≡◌, ℕ, ◌<◌, ◌≤◌, length, IfSome, None};
ghost use Rattle.lexscan.specs.Pushes.{IsReachable};
ghost use Rattle.lexscan.specs.Scans.{IsGoing, ScanInvariant};
ghost use Rattle.lexscan.specs.Series.{IsBrief, SeriesMade, ListedOver};

use crate::burst::{Burst, Runs, starts_line};
use crate::find::has_backlog;
use crate::further::advance;
use crate::glance::{ToldMatch, told_match};
use crate::scan::Scan;
use crate::starts::{start_at, starts_after, starts_in};
use lex_machine::Machine;
use lexscan_window::TextPlace;

/// How long the text of a token may be that is kept so.
const LONGEST: usize = 65_535;

/// A token that begins where the one before it ends: the number of its rule, how long its text is, and the start condition
/// in which it was made. It takes 8 bytes.
#[derive(Clone, Copy, Debug, PartialEq, Eq)]
pub struct BriefToken {
    pub rule: u32,
    pub length: u16,
    pub condition: u8,
}

/// What a series did: where its first token begins in the input, how many of the bytes that wait it asked for, and how
/// many bytes it is done with.
#[derive(Clone, Copy)]
pub struct Listed {
    pub start: u64,
    pub got: usize,
    pub done: usize,
}

/// The token of a match that was made in a condition, where its text is not too long.
#[inline(always)]
fn brief_of(told: ToldMatch, condition: u8) -> Option<BriefToken>
    ensures brief { IfSome result (IsBrief told condition) }
    ensures long { result ≡ None → 65_535 < told.keep }
{
    if LONGEST < told.keep {
        return None;
    }
    Some(BriefToken {
        rule: told.rule,
        length: told.keep as u16,
        condition,
    })
}

/// Turns over a text, of which the first bytes are held and the others are those that wait, as long as each match ends in
/// the text, is told at a glance, and there is memory for its token. The tokens are appended.
#[inline(never)]
fn series_over<M: Machine>(
    machine: &M,
    text: &[u8],
    held: usize,
    place: TextPlace,
    tokens: &mut Vec<BriefToken>,
) -> Burst
    requires condition { place.condition < (M.machine machine.now).conditions }
    requires held { held ≤ length text.now }
    ensures { SeriesMade (M.machine machine.now) text.now held place tokens.old.items tokens.new.items result }
{
    let mut rest = text;
    // How many bytes at the end of the text no match has asked for, those that are held not counted.
    let mut unasked = text.len();
    let mut condition = place.condition;
    let mut starts = starts_in(machine, condition);
    let mut first = start_at(starts, place.line_start);
    'turns: while !rest.is_empty() {
        let Some(told) = told_match(machine, first, rest, condition) else {
            break 'turns;
        };
        let Some(token) = brief_of(told, condition) else {
            break 'turns;
        };
        match tokens.push(token) {
            Err(_) => break 'turns,
            Ok(()) => {}
        }
        // No match asks for less than one before it did.
        unasked = rest.len() - told.asked;
        starts = starts_after(machine, starts, condition, told.condition);
        condition = told.condition;
        first = start_at(starts, rest[told.keep - 1] == b'\n');
        rest = &rest[told.keep..];
    }
    let done = text.len() - rest.len();
    Burst {
        done,
        asked: text.len() - unasked.min(text.len() - held),
        line_start: starts_line(place.line_start, text, done),
        condition,
        fault: false,
        runs: Runs::NotLookedFor,
    }
}

impl Scan {
    /// A series over the bytes held and at most this many of those that wait. Its tokens are appended.
    pub fn list_at_glance<M: Machine>(
        &mut self,
        machine: &M,
        waiting: &[u8],
        most: usize,
        tokens: &mut Vec<BriefToken>,
    ) -> Listed
        requires going { IsGoing self.old }
        requires kept { ScanInvariant (M.machine machine.now) self.old }
        requires reachable { IsReachable (M.machine machine.now) self.old.state }
        ensures { ListedOver (M.machine machine.now) waiting.now self.old self.new tokens.old.items tokens.new.items result }
    {
        // With yymore a text begins before its match, and where many bytes are held their marks are asked.
        if self.state.reading.at_end || self.state.place.at != 0 || has_backlog(&self.state) {
            return Listed {
                start: 0,
                got: 0,
                done: 0,
            };
        }
        let left = self.state.reading.max_reads - self.state.reading.taken;
        let allowed = if left < most as u64 {
            left as usize
        } else {
            most
        };
        let held = self.state.reading.window.len();
        let shown = self.state.reading.window.show(waiting, allowed);
        let text = self.state.reading.window.text(shown);
        // What is held was taken.
        let start = self.state.reading.taken.saturating_sub(held as u64);
        let burst = series_over(machine, text, held, self.state.place, tokens);
        // What no turn has asked for waits on.
        let got = burst.asked - held;
        advance(&mut self.state, burst, got);
        Listed {
            start,
            got,
            done: burst.done,
        }
    }
}
