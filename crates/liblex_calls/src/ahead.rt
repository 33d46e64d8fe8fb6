//! Tokens that a scan tells ahead of those that it hands on, and the bytes that their texts are part of.
ghost use Rattle.std.specs.Prelude.{◌≡◌, ℕ, ◌+◌, ◌^◌, ◌<◌, ◌≤◌, true, List, [], length, drop};
ghost use Rattle.lexscan.specs.declared.token.Token.{Token as TokenModel};
ghost use Rattle.lexscan.specs.Series.{end_of};
ghost use Rattle.liblex_calls.specs.Rules.{rules_machine};

use crate::rules::Rules;
use crate::texts::Texts;
use lexkit::MatchedRule;
use lexscan::{BriefToken, PullScanner, PulledToken};
use std::alloc::Global;

/// Tokens that a scan told in one go: those that were handed on, and those behind them that were not.
#[derive(Drop)]
pub struct Ahead {
    tokens: Vec<BriefToken>,
    /// How many of them were handed on.
    given: usize,
    /// Where the text of the next one begins.
    start: u64,
    /// Where the text of the token begins that was handed on last, one of these or another.
    pub(crate) last: u64,
    pub(crate) texts: Texts,
    ghost few: { given ≤ length tokens.items },
    ghost small: { end_of start (drop given tokens.items) < 2 ^ 64 },
}

impl Ahead {
    ghost use Rattle.lexscan.specs.Scanners.{pull_machine, pull_state, pull_waiting, pull_finished};
    ghost use Rattle.liblex_calls.specs.Ahead.{tokens_ahead, text_shown, HandsToken, IsAhead, HoldsFed};

    /// None so far.
    pub(crate) fn new(alloc: Global) -> Ahead
        ensures none { tokens_ahead result ≡ [] }
        ensures given { result.given ≡ 0 }
        ensures last { result.last ≡ 0 }
        ensures before { result.texts.before ≡ 0 }
        ensures holds { HoldsFed [] result.texts }
    {
        Ahead {
            tokens: Vec::new(alloc),
            given: 0,
            start: 0,
            last: 0,
            texts: Texts::new(alloc),
        }
    }

    /// Hands on the next of them.
    #[inline(always)]
    pub(crate) fn next(&mut self) -> Option<PulledToken>
        ensures { HandsToken self.old self.new result }
    {
        if self.tokens.len() <= self.given {
            return None;
        }
        let token = self.tokens[self.given];
        let start = self.start;
        self.given += 1;
        self.start = start + u64::from(token.length);
        self.last = start;
        Some(PulledToken {
            rule: MatchedRule::Numbered(token.rule),
            start,
            length: usize::from(token.length),
            condition: token.condition,
        })
    }

    /// Whether none of them was handed on.
    pub(crate) fn none_given(&self) -> bool
        ensures { result ≡ true → self.now.given ≡ 0 }
    {
        self.given == 0
    }

    /// Has a scan tell the next ones in one go, once all were handed on. There may be none.
    pub(crate) fn tell(&mut self, scanner: &mut PullScanner<Rules>)
        requires { tokens_ahead self.old ≡ [] }
        ensures machine { pull_machine scanner.new ≡ pull_machine scanner.old }
        ensures finished { pull_finished scanner.new ≡ pull_finished scanner.old }
        ensures given { self.new.given ≡ 0 }
        ensures text { text_shown scanner.new self.new ≡ [] }
        ensures texts { self.new.texts ≡ self.old.texts }
        ensures told { (fed : List ℕ) (tokens : List TokenModel) → IsAhead (rules_machine (pull_machine scanner.old)) fed
            (pull_finished scanner.old) tokens (pull_state scanner.old) (pull_waiting scanner.old) self.old
            → IsAhead (rules_machine (pull_machine scanner.old)) fed (pull_finished scanner.old) tokens
            (pull_state scanner.new) (pull_waiting scanner.new) self.new }
    {
        self.tokens.clear();
        self.given = 0;
        self.start = scanner.next_several(&mut self.tokens);
    }

    /// The text of the token that was handed on last: of one of these, or else of the one that the scan told last.
    #[inline(always)]
    pub(crate) fn text<'a>(&'a self, scanner: &'a PullScanner<Rules>) -> &'a [u8]
        ensures { result.now ≡ text_shown scanner.now self.now }
    {
        if self.given == 0 {
            return scanner.text();
        }
        self.texts
            .text(self.last, self.start.saturating_sub(self.last) as usize)
    }
}
