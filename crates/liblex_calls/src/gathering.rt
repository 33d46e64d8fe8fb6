//! The tokens of a whole input, of which the first are kept, as many as a caller has room for.
ghost use Rattle.std.specs.Prelude.{◌≡◌, ℕ, ◌+◌, ◌^◌, ◌<◌, ◌≤◌, ◌⊎◌, true, false, OnOk, IfSome};
ghost use Rattle.std.specs.Prelude.{List, [], ◌∷◌, ◌++◌, length, map};
ghost use Rattle.lex_semantics.specs.Machine.{Machine};
ghost use Rattle.lexscan.specs.declared.token.Token.{Token as TokenModel};
ghost use Rattle.lexscan.specs.Pulls.{whole_token};
ghost use Rattle.lexscan.specs.Series.{end_of, drawn_out};
ghost use Rattle.liblex_calls.specs.Listing.{text_token};
ghost use Rattle.liblex_calls.specs.Brief.{long_token, long_tokens};

use crate::answer::Answer;
use crate::brief::{append_long, brief_of, draw_out, end_of, put_behind};
use crate::listing::{TextToken, rule_number};
use crate::rules::Rules;
use lexkit::RunError;
use lexscan::{BriefToken, PullScanner, Pulled, PulledToken};
use std::alloc::{AllocError, Global};

/// How many bytes are fed at a time. The scan copies them.
const PIECE: usize = 65_536;

/// The token with a number for its rule.
fn text_token(token: PulledToken) -> TextToken
    requires { token.start + token.length < 2 ^ 64 }
    ensures { result ≡ text_token (whole_token token) }
{
    let start = token.start as usize;
    TextToken {
        start,
        end: start + token.length,
        rule: rule_number(token.rule),
        condition: u32::from(token.condition),
    }
}

/// The first tokens of an input, as many as there is room for, and how many there are. Those up to the first that cannot be
/// kept in brief are kept so: each begins where the one before it ends.
#[derive(Drop)]
pub(crate) struct KeptTokens {
    brief: Vec<BriefToken>,
    /// Where the last of these ends.
    end: usize,
    /// Those behind them.
    long: Vec<TextToken>,
    room: usize,
    count: usize,
    ghost few: { length brief.items + length long.items ≤ room },
    ghost ends: { end ≡ end_of 0 brief.items },
    ghost small: { end_of 0 brief.items < 2 ^ 64 },
}

impl KeptTokens {
    ghost use Rattle.liblex_calls.specs.Buffers.{FitsInto, HandedOut};
    ghost use Rattle.liblex_calls.specs.Gathering.{AreKept, kept_tokens};

    /// None so far, and room for so many.
    pub(crate) fn new(alloc: Global, room: usize) -> KeptTokens
        ensures kept { AreKept [] result }
        ensures room { result.room ≡ room }
    {
        KeptTokens {
            brief: Vec::new(alloc),
            end: 0,
            long: Vec::new(alloc),
            room,
            count: 0,
        }
    }

    /// The token in brief, where all before it are kept so, and it begins where the last of them ends.
    fn in_brief(&self, token: PulledToken) -> Option<BriefToken>
        ensures token { IfSome result (λ b. long_token self.now.end b ≡ text_token (whole_token token)) }
        ensures alone { IfSome result (λ _. length self.now.long.items ≡ 0) }
    {
        if !self.long.is_empty() || token.start != self.end as u64 {
            return None;
        }
        brief_of(token)
    }

    /// Counts a token, and keeps it where there is room.
    fn keep(&mut self, token: PulledToken) -> Result<(), AllocError>
        requires { token.start + token.length < 2 ^ 64 }
        ensures kept { (tokens : List TokenModel) → AreKept tokens self.old
            → OnOk result (AreKept (tokens ++ whole_token token ∷ []) self.new) }
        ensures room { self.new.room ≡ self.old.room }
    {
        let Some(count) = self.count.checked_add(1) else {
            return Err(AllocError);
        };
        self.count = count;
        if self.room <= self.brief.len() + self.long.len() {
            return Ok(());
        }
        if let Some(brief) = self.in_brief(token) {
            self.brief.push(brief)?;
            self.end += usize::from(brief.length);
            return Ok(());
        }
        self.long.push(text_token(token))?;
        Ok(())
    }

    /// Keeps tokens of which the first begins there, where there is room for them.
    fn keep_all(&mut self, start: usize, several: &[BriefToken]) -> Result<(), AllocError>
        requires few { length self.old.brief.items + length self.old.long.items + length several.now ≤ self.old.room }
        requires small { end_of start several.now < 2 ^ 64 }
        ensures kept { OnOk result (kept_tokens self.new ≡ kept_tokens self.old ++ long_tokens start several.now) }
        ensures count { self.new.count ≡ self.old.count }
        ensures room { self.new.room ≡ self.old.room }
    {
        if !self.long.is_empty() || start != self.end {
            return append_long(&mut self.long, start, several);
        }
        self.brief.extend_from_slice(several)?;
        self.end = end_of(start, several);
        Ok(())
    }

    /// Counts tokens of which the first begins there, and keeps as many as there is room for.
    fn keep_several(&mut self, start: u64, several: &[BriefToken]) -> Result<(), AllocError>
        requires { end_of start several.now < 2 ^ 64 }
        ensures kept { (tokens : List TokenModel) → AreKept tokens self.old
            → OnOk result (AreKept (tokens ++ drawn_out start several.now) self.new) }
        ensures room { self.new.room ≡ self.old.room }
    {
        let Some(count) = self.count.checked_add(several.len()) else {
            return Err(AllocError);
        };
        self.count = count;
        let left = self.room - (self.brief.len() + self.long.len());
        self.keep_all(start as usize, &several[..left.min(several.len())])
    }

    /// Puts the tokens at the front of a buffer, as many as it has room for, and tells how many there are.
    pub(crate) fn hand_tokens(&self, buffer: &mut [TextToken], count: &mut usize) -> Answer
        requires { self.now.room ≡ length buffer.old }
        ensures handed { (tokens : List TokenModel) → AreKept tokens self.now
            → HandedOut (map text_token tokens) buffer.old buffer.new count.new }
        ensures fits { (tokens : List TokenModel) → AreKept tokens self.now
            → FitsInto (map text_token tokens) buffer.old result }
    {
        draw_out(&self.brief, buffer);
        put_behind(&self.long, buffer, self.brief.len());
        *count = self.count;
        if self.count <= buffer.len() {
            Answer::Done
        } else {
            Answer::TooSmall
        }
    }
}

/// A scan of a whole input, which is fed piece by piece.
#[derive(Drop)]
pub(crate) struct WholeScan {
    scanner: PullScanner<Rules>,
    /// How many bytes of the input were fed.
    fed: usize,
    /// The tokens that were told last, several in one go.
    several: Vec<BriefToken>,
}

impl WholeScan {
    ghost use Rattle.lexscan.specs.Scanners.{pull_finished};
    ghost use Rattle.liblex_calls.specs.Rules.{rules_machine};
    ghost use Rattle.liblex_calls.specs.Gathering.{AreKept, Feeds, Gathers, HasGathered, Steps};

    /// One that was fed nothing.
    pub(crate) fn new(alloc: Global, rules: Rules) -> WholeScan
        ensures feeds { (input : List ℕ) → Feeds (rules_machine rules) input [] result }
        ensures fed { result.fed ≡ 0 }
    {
        WholeScan {
            scanner: PullScanner::new(alloc, rules),
            fed: 0,
            several: Vec::new(alloc),
        }
    }

    /// Feeds the next piece of the input, and after the last one tells its end.
    fn feed_on(&mut self, input: &[u8]) -> Result<(), AllocError>
        requires { self.old.fed ≤ length input.now }
        ensures feeds { (M : Machine) (tokens : List TokenModel) → pull_finished self.old.scanner ≡ false
            → Feeds M input.now tokens self.old → OnOk result (Feeds M input.now tokens self.new) }
        ensures onward { OnOk result ((self.old.fed < self.new.fed) ⊎ (pull_finished self.new.scanner ≡ true)) }
        ensures inside { self.new.fed ≤ length input.now }
    {
        let size = (input.len() - self.fed).min(PIECE);
        let end = self.fed + size;
        match self.scanner.feed(&input[self.fed..end]) {
            Err(_) => return Err(AllocError),
            Ok(()) => {}
        }
        self.fed = end;
        if end < input.len() {
            return Ok(());
        }
        self.scanner.finish();
        Ok(())
    }

    /// Keeps the next tokens that are told in one go.
    fn keep_on(&mut self, kept: &mut KeptTokens) -> Result<(), AllocError>
        ensures gathered { (M : Machine) (input : List ℕ) (tokens : List TokenModel) → Feeds M input tokens self.old
            → AreKept tokens kept.old → OnOk result (HasGathered M input self.new kept.new) }
        ensures fed { self.new.fed ≡ self.old.fed }
        ensures room { kept.new.room ≡ kept.old.room }
    {
        self.several.clear();
        let start = self.scanner.next_several(&mut self.several);
        kept.keep_several(start, &self.several)
    }

    /// Keeps the next token, or feeds the next piece where the scan asks for more. After the end it answers the status.
    fn step(&mut self, input: &[u8], kept: &mut KeptTokens) -> Result<Option<u8>, RunError>
        requires { self.old.fed ≤ length input.now }
        ensures steps { (M : Machine) (tokens : List TokenModel) → Feeds M input.now tokens self.old
            → AreKept tokens kept.old → Steps M input.now self.new kept.new result }
        ensures inside { self.new.fed ≤ length input.now }
        ensures room { kept.new.room ≡ kept.old.room }
    {
        match self.scanner.next() {
            Err(error) => Err(error),
            Ok(Pulled::Ended(status)) => Ok(Some(status)),
            Ok(Pulled::Token(token)) => match kept.keep(token) {
                Err(_) => Err(RunError::OutOfMemory),
                Ok(()) => Ok(None),
            },
            Ok(Pulled::More) => match self.feed_on(input) {
                Err(_) => Err(RunError::OutOfMemory),
                Ok(()) => Ok(None),
            },
        }
    }

    /// Gathers the tokens of the input, and answers the status that its scan ends with.
    pub(crate) fn gather(&mut self, input: &[u8], kept: &mut KeptTokens) -> Result<u8, RunError>
        requires { self.old.fed ≤ length input.now }
        ensures gathers { (M : Machine) → Feeds M input.now [] self.old → AreKept [] kept.old
            → Gathers M input.now kept.new result }
        ensures room { kept.new.room ≡ kept.old.room }
    {
        'steps: for _ in 0..u64::MAX {
            // Most tokens are told in one go, and the others one by one.
            match self.keep_on(kept) {
                Err(_) => return Err(RunError::OutOfMemory),
                Ok(()) => {}
            }
            match self.step(input, kept) {
                Ok(None) => {}
                Ok(Some(status)) => return Ok(status),
                Err(error) => return Err(error),
            }
        }
        // No scan makes so many steps in any time.
        Err(RunError::OutOfMemory)
    }
}
