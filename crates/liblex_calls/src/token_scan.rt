//! A scan that is fed pieces, and is asked for its tokens one by one.
ghost use Rattle.std.specs.Prelude.{◌≡◌, ℕ, ◌+◌, ◌-◌, ◌^◌, ◌<◌, ◌≤◌, Bool, true, false, List, [], ◌∷◌, ◌++◌, length};
ghost use Rattle.lex_semantics.specs.Text.{part};
ghost use Rattle.liblex_calls.specs.Ahead.{text_shown};
ghost use Rattle.liblex_calls.specs.Lines.{Counted, Follows, IsSpotOf};
ghost use Rattle.lexscan.specs.declared.token.Token.{Token as TokenModel};
ghost use Rattle.liblex_calls.specs.Rules.{rules_machine};
ghost use Rattle.liblex_calls.specs.Listing.{next_token};

use crate::ahead::Ahead;
use crate::answer::Answer;
use crate::buffers::hand_out;
use crate::lines::{Lines, Spot};
use crate::listing::rule_number;
use crate::rules::Rules;
use crate::stage::Stage;
use lexscan::{PullScanner, Pulled, PulledToken};
use std::alloc::Global;

/// A token that was asked for: where its text begins, counted in bytes from the beginning of the input, how long that is,
/// the number of its rule, from 0 on in the order of the file, or 4,294,967,295 for the default rule, and the number of the
/// start condition in which it was made. Where lines are counted, the line and the column of its first byte, from 1, and
/// else 0 and 0. (flex: yylineno, but of the first byte.)
#[repr(C)]
#[derive(Clone, Copy, Debug, PartialEq, Eq)]
pub struct NextToken {
    pub start: u64,
    pub length: usize,
    pub rule: u32,
    pub condition: u32,
    pub line: u64,
    pub column: u64,
}

/// The token with a number for its rule, and with where it stands.
fn shown(token: PulledToken, spot: Spot) -> NextToken
    ensures { result ≡ next_token token spot }
{
    NextToken {
        start: token.start,
        length: token.length,
        rule: rule_number(token.rule),
        condition: u32::from(token.condition),
        line: spot.line,
        column: spot.column,
    }
}

/// Goes on to a token whose text is shown, where lines are counted, and tells where it stands. Else its text is not asked for.
#[inline(always)]
fn spot_of(lines: &mut Lines, start: u64, ahead: &Ahead, scanner: &PullScanner<Rules>) -> Spot
    ensures counts { lines.new.counts ≡ lines.old.counts }
    ensures told { (fed : List ℕ) (tokens : List TokenModel) (t : TokenModel)
        → Counted lines.old.counts fed tokens lines.old → Follows tokens t.start → start ≡ t.start
        → t.end ≡ t.start + length (text_shown scanner.now ahead.now)
        → (t.start ≤ length fed → t.end ≤ length fed) → length fed + 1 < 2 ^ 64
        → text_shown scanner.now ahead.now ≡ part fed t.start t.end
        → Counted lines.old.counts fed (tokens ++ t ∷ []) lines.new × IsSpotOf lines.old.counts fed t.start result }
{
    if !lines.are_counted() {
        return Spot { line: 0, column: 0 };
    }
    lines.tell(start, ahead.text(scanner))
}

/// How many tokens are told by a turn for each, where none was found by looking for many: their rules may be such that none is.
const TURNS: u8 = 8;

/// A scan that is fed pieces, and is asked for its tokens one by one.
#[derive(Drop)]
pub struct TokenScan {
    scanner: PullScanner<Rules>,
    /// The tokens that the scanner has told ahead of those that were handed on.
    ahead: Ahead,
    /// Goes on until the end or a fault is told.
    stage: Stage,
    lines: Lines,
    /// How many tokens are told by a turn for each, before many are looked for in one go again.
    turns: u8,
}

impl TokenScan {
    ghost use Rattle.lexscan.specs.Scanners.{pull_finished};
    ghost use Rattle.liblex_calls.specs.Buffers.{HandedOut, FitsInto};
    ghost use Rattle.liblex_calls.specs.Files.{IsMachineOf};
    ghost use Rattle.liblex_calls.specs.Stages.{status_in};
    ghost use Rattle.liblex_calls.specs.Ahead.{tokens_ahead};
    ghost use Rattle.liblex_calls.specs.Told.{Told, HandedOn, FeedTells, NextTells, TellsAgain};

    /// One that was fed nothing, and counts lines or not.
    pub(crate) fn new(alloc: Global, rules: Rules, lines: bool) -> TokenScan
        ensures going { result.stage ≡ Stage.Going }
        ensures told { (file : List ℕ) → IsMachineOf file (rules_machine rules) → Told file lines false [] [] [] result }
    {
        TokenScan {
            scanner: PullScanner::new(alloc, rules),
            ahead: Ahead::new(alloc),
            stage: Stage::Going,
            lines: Lines::new(lines),
            turns: 0,
        }
    }

    /// Keeps a piece more. Once the end was told, or the scan has ended or stopped, it counts for nothing.
    pub(crate) fn feed(&mut self, piece: &[u8]) -> Answer
        ensures fed { (file : List ℕ) (lines told : Bool) (fed : List ℕ) (tokens : List TokenModel) (text : List ℕ)
            → Told file lines told fed tokens text self.old
            → FeedTells file lines told fed piece.now tokens text self.new result }
        ensures again { TellsAgain self.old self.new result }
    {
        let Stage::Going = self.stage else {
            return self.stage.feed_answer(0);
        };
        if self.scanner.is_finished() {
            return Answer::Ended;
        }
        if !self.ahead.texts.may_feed(piece.len()) {
            return Answer::TooManyReads;
        }
        self.feed_on(piece)
    }

    /// The same, where it is not too much.
    fn feed_on(&mut self, piece: &[u8]) -> Answer
        requires going { self.old.stage ≡ Stage.Going }
        requires unfinished { pull_finished self.old.scanner ≡ false }
        requires few { self.old.ahead.texts.before + length self.old.ahead.texts.bytes.items + length piece.now < 2 ^ 64 - 1 }
        ensures { (file : List ℕ) (lines told : Bool) (fed : List ℕ) (tokens : List TokenModel) (text : List ℕ)
            → Told file lines told fed tokens text self.old
            → FeedTells file lines told fed piece.now tokens text self.new result }
    {
        match self.ahead.texts.push(piece) {
            Err(_) => return Answer::OutOfMemory,
            Ok(()) => {}
        }
        match self.scanner.feed(piece) {
            Ok(()) => {
                self.ahead.texts.drop_before(self.ahead.last);
                Answer::Done
            }
            // No more were fed than may be, and no turn was refused: there was no memory.
            Err(_) => {
                self.ahead.texts.take_back(piece.len());
                Answer::OutOfMemory
            }
        }
    }

    /// Tells the end of the input.
    pub(crate) fn end(&mut self)
        ensures told { (file : List ℕ) (lines told : Bool) (fed : List ℕ) (tokens : List TokenModel) (text : List ℕ)
            → Told file lines told fed tokens text self.old → Told file lines true fed tokens text self.new }
        ensures stage { self.new.stage ≡ self.old.stage }
    {
        self.scanner.finish();
    }

    /// Tells the next token, or that it asks for more than was fed, or the end with its status, or a fault. After the end
    /// and a fault the same is told again.
    #[inline(always)]
    pub(crate) fn next(&mut self, token: &mut NextToken, status: &mut u8) -> Answer
        ensures told { (file : List ℕ) (lines told : Bool) (fed : List ℕ) (tokens : List TokenModel) (text : List ℕ)
            → Told file lines told fed tokens text self.old
            → NextTells file lines told fed tokens self.new token.old token.new status.new result }
        ensures again { TellsAgain self.old self.new result }
    {
        if self.hand_next(token) {
            *status = 0;
            return Answer::Done;
        }
        self.find_next(token, status)
    }

    /// Hands on the next token, where it was told ahead and no lines are counted: that is the way of most tokens. Else nothing is
    /// done.
    #[inline(always)]
    fn hand_next(&mut self, token: &mut NextToken) -> bool
        ensures told { (file : List ℕ) (lines told : Bool) (fed : List ℕ) (tokens : List TokenModel) (text : List ℕ)
            → result ≡ true → Told file lines told fed tokens text self.old
            → NextTells file lines told fed tokens self.new token.old token.new 0 Answer.Done }
        ensures going { result ≡ true → self.old.stage ≡ Stage.Going }
        ensures same { result ≡ false → (self.new ≡ self.old) × (token.new ≡ token.old) }
    {
        if self.lines.are_counted() {
            return false;
        }
        let Stage::Going = self.stage else {
            return false;
        };
        match self.ahead.next() {
            Some(found) => {
                self.hand_on(found, token);
                true
            }
            None => false,
        }
    }

    /// What `next` does of each other token.
    #[inline(never)]
    fn find_next(&mut self, token: &mut NextToken, status: &mut u8) -> Answer
        ensures told { (file : List ℕ) (lines told : Bool) (fed : List ℕ) (tokens : List TokenModel) (text : List ℕ)
            → Told file lines told fed tokens text self.old
            → NextTells file lines told fed tokens self.new token.old token.new status.new result }
        ensures again { TellsAgain self.old self.new result }
    {
        let answer = self.pull(token);
        *status = self.stage.status();
        answer
    }

    /// The same, with the status in the stage.
    #[inline(always)]
    fn pull(&mut self, token: &mut NextToken) -> Answer
        ensures told { (file : List ℕ) (lines told : Bool) (fed : List ℕ) (tokens : List TokenModel) (text : List ℕ)
            → Told file lines told fed tokens text self.old
            → NextTells file lines told fed tokens self.new token.old token.new (status_in self.new.stage) result }
        ensures again { TellsAgain self.old self.new result }
    {
        let Stage::Going = self.stage else {
            return self.stage.feed_answer(0);
        };
        // Most tokens were told ahead.
        match self.ahead.next() {
            Some(found) => {
                self.hand_on(found, token);
                Answer::Done
            }
            None => self.pull_several(token),
        }
    }

    /// The same, where no token is left that was told ahead: the next ones are told in one go, but for some turns behind a
    /// place where none was.
    #[inline(never)]
    fn pull_several(&mut self, token: &mut NextToken) -> Answer
        requires going { self.old.stage ≡ Stage.Going }
        requires none { tokens_ahead self.old.ahead ≡ [] }
        ensures { (file : List ℕ) (lines told : Bool) (fed : List ℕ) (tokens : List TokenModel) (text : List ℕ)
            → Told file lines told fed tokens text self.old
            → NextTells file lines told fed tokens self.new token.old token.new (status_in self.new.stage) result }
    {
        if self.turns > 0 && self.ahead.none_given() {
            self.turns -= 1;
            return self.pull_one(token);
        }
        self.ahead.tell(&mut self.scanner);
        match self.ahead.next() {
            Some(found) => {
                self.hand_on(found, token);
                Answer::Done
            }
            None => {
                self.turns = TURNS;
                self.pull_one(token)
            }
        }
    }

    /// The same by one turn.
    fn pull_one(&mut self, token: &mut NextToken) -> Answer
        requires going { self.old.stage ≡ Stage.Going }
        requires none { tokens_ahead self.old.ahead ≡ [] }
        requires given { self.old.ahead.given ≡ 0 }
        ensures { (file : List ℕ) (lines told : Bool) (fed : List ℕ) (tokens : List TokenModel) (text : List ℕ)
            → Told file lines told fed tokens text self.old
            → NextTells file lines told fed tokens self.new token.old token.new (status_in self.new.stage) result }
    {
        match self.scanner.next() {
            Ok(Pulled::Token(found)) => {
                self.ahead.last = found.start;
                self.hand_on(found, token);
                Answer::Done
            }
            Ok(Pulled::More) => Answer::More,
            Ok(Pulled::Ended(status)) => {
                self.stage = Stage::Ended(status);
                Answer::Ended
            }
            Err(error) => {
                self.stage = Stage::after_fault(error);
                self.stage.feed_answer(0)
            }
        }
    }

    /// Tells a token, with where it stands.
    #[inline(always)]
    fn hand_on(&mut self, found: PulledToken, token: &mut NextToken)
        ensures { (file : List ℕ) (lines told : Bool) (fed : List ℕ) (tokens : List TokenModel)
            → HandedOn file lines told fed tokens found self.old
            → NextTells file lines told fed tokens self.new token.old token.new (status_in self.new.stage) Answer.Done }
    {
        let spot = spot_of(&mut self.lines, found.start, &self.ahead, &self.scanner);
        *token = shown(found, spot);
    }

    /// Hands out the text of the token that was told last, and after each other answer nothing.
    pub(crate) fn hand_text(&self, buffer: &mut [u8], count: &mut usize) -> Answer
        ensures handed { HandedOut (text_shown self.now.scanner self.now.ahead) buffer.old buffer.new count.new }
        ensures fits { FitsInto (text_shown self.now.scanner self.now.ahead) buffer.old result }
    {
        hand_out(self.ahead.text(&self.scanner), buffer, count)
    }
}
