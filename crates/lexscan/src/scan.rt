//! A scan in progress: what it keeps between two turns, and its two ends.
ghost use Rattle.std.specs.Prelude.{◌≡◌, ◌+◌, ◌^◌, ◌<◌, ◌≤◌, length, IfSome};
ghost use Rattle.lexscan.specs.Matches.{match_in};

use lex_io::{Sink, Source};
use lexscan_window::{Intake, Match, Memo, Outlet, State, StatePath};

/// The two ends of a scan. They own no memory, so that who lent them knows what they ended as.
#[derive(Drop)]
pub struct Ends<'s, 'k, S: Source, K: Sink> {
    pub intake: Intake<'s, S>,
    pub outlet: Outlet<'k, K>,
}

/// What a scan keeps between two turns, apart from its machine and its two ends.
#[derive(Drop)]
pub struct Scan {
    pub path: StatePath,
    pub memo: Memo,
    pub state: State,
}

impl Scan {
    /// The match that the last turn carried out: the longest of the earliest rule, or after REJECT the one that was not
    /// rejected. There is none before the first turn, after an end action, and after a refused turn.
    #[inline(always)]
    pub fn matched(&self) -> Option<Match>
        requires { self.now.state.place.at ≤ length self.now.state.reading.window.bytes }
        ensures told { result ≡ match_in self.now.state }
        ensures small { IfSome result (λ m. m.start + m.length < 2 ^ 64) }
    {
        if self.state.failed {
            return None;
        }
        let rule = self.state.matched?;
        let reading = &self.state.reading;
        let end = self.state.acting.end;
        // What is held was taken, and the text lies before the next match: turns keep to both, but no field says so.
        let before = reading.taken.saturating_sub(reading.window.len() as u64);
        let place = before + self.state.place.at as u64;
        Some(Match {
            rule,
            start: place.saturating_sub(end as u64),
            length: end,
        })
    }
}
