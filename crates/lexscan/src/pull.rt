//! A scan that is fed its input piece by piece, and is asked for its tokens one by one.
ghost use Rattle.std.specs.Prelude.{◌≡◌, ℕ, ◌+◌, ◌-◌, ◌^◌, ◌<◌, ◌≤◌, List, [], ◌++◌, length, drop, true, false, None, Some};
ghost use Rattle.std.specs.Prelude.{Ok, Err, OnOk, OnErr, IfOk, IfErr, IsErrOf, is_some};
ghost use Rattle.std.specs.Coded.{→_prop};
ghost use Rattle.lex_semantics.specs.Text.{AllBelow};
ghost use Rattle.lexscan_window.specs.Memos.{AreTrue, AreTrue-prop};
ghost use Rattle.lexscan.specs.Stacks.{AllBelow-prop};
ghost use Rattle.lexscan.specs.Scans.{IsGoing, ScanInvariant};
ghost use Rattle.lexscan.specs.Pushes.{IsReachable, IsReachable-prop, IsAsking, IsAsking-prop};
ghost use Rattle.lexscan.specs.declared.token.Token.{Token as TokenModel};
ghost use Rattle.lexscan.specs.Pulls.{TokensTold, AfterPull, EndsInRange, RefusesPiece, TurnedOver, WaitsAfter};
ghost use Rattle.lexscan.specs.Series.{TellsSeveral};

use crate::asking::{walk_all, walk_on};
use crate::further::{LEAST_SHOWN, next_most};
use crate::push::{count_with, drop_front};
use crate::scan::{Ends, Scan};
use crate::series::BriefToken;
use crate::turn::Turn;
use lex_io::{NullSink, SliceSource};
use lex_machine::Machine;
use lexscan_window::{Intake, MatchedRule, Memo, Outlet, RunError, Stack, State, StatePath};
use std::alloc::Global;

/// A token that was asked for: its rule, where its text begins, counted in bytes from the beginning of the input, how
/// long that is, and the start condition in which it was made. The text begins with what yymore kept before it, and
/// ends after trailing context and yyless.
#[derive(Clone, Copy, Debug, PartialEq, Eq)]
pub struct PulledToken {
    pub rule: MatchedRule,
    pub start: u64,
    pub length: usize,
    pub condition: u8,
}

/// What asking for the next token answers.
#[derive(Clone, Copy, Debug, PartialEq, Eq)]
pub enum Pulled {
    /// The next token.
    Token(PulledToken),
    /// The next match asks for more than was fed so far.
    More,
    /// There are no more tokens: the scan has ended with this status, 0 to 63.
    Ended(u8),
}

/// One turn over the bytes that wait, which reads them. It is undone where it asks for more than these.
#[inline(never)]
fn turn_by_reading<M: Machine>(
    machine: &M,
    scan: &mut Scan,
    saved: &mut Stack,
    waiting: &[u8],
) -> Result<Option<Turn>, RunError>
    requires going { IsGoing scan.old }
    requires kept { ScanInvariant (M.machine machine.now) scan.old }
    requires reachable { IsReachable (M.machine machine.now) scan.old.state }
    ensures { (left : List ℕ) × TurnedOver (M.machine machine.now) waiting.now left scan.old scan.new result }
{
    let mut source = SliceSource::new(waiting);
    let mut sink = NullSink {};
    let mut ends = Ends {
        intake: Intake::new(&mut source),
        outlet: Outlet::new(&mut sink),
    };
    let result = scan.attempt(machine, &mut ends, saved);
    // What was lent is given back.
    let Ends { intake, outlet } = ends;
    let _source = intake.into_inner();
    let _sink = outlet.into_inner();
    result
}

/// One turn over the bytes that wait. It is undone where it asks for more than these.
#[inline(always)]
fn turn_over<M: Machine>(
    machine: &M,
    scan: &mut Scan,
    saved: &mut Stack,
    waiting: &[u8],
) -> Result<Option<Turn>, RunError>
    requires going { IsGoing scan.old }
    requires kept { ScanInvariant (M.machine machine.now) scan.old }
    requires reachable { IsReachable (M.machine machine.now) scan.old.state }
    ensures { (left : List ℕ) × TurnedOver (M.machine machine.now) waiting.now left scan.old scan.new result }
{
    // Most tokens are short, and their rules do little.
    if scan.turn_at_glance(machine, waiting) {
        return Ok(Some(Turn::Went));
    }
    turn_by_reading(machine, scan, saved, waiting)
}

/// The same from a place on, which moves past the bytes that a turn has asked for.
#[inline(always)]
fn turn_from<M: Machine>(
    machine: &M,
    scan: &mut Scan,
    saved: &mut Stack,
    waiting: &[u8],
    from: &mut usize,
) -> Result<Option<Turn>, RunError>
    requires going { IsGoing scan.old }
    requires kept { ScanInvariant (M.machine machine.now) scan.old }
    requires reachable { IsReachable (M.machine machine.now) scan.old.state }
    requires inside { from.old ≤ length waiting.now }
    ensures turned { (left : List ℕ) × TurnedOver (M.machine machine.now) (drop from.old waiting.now) left scan.old
        scan.new result
        × WaitsAfter (drop from.old waiting.now) left (drop from.new waiting.now) result }
    ensures inside { from.new ≤ length waiting.now }
{
    let before = scan.state.reading.taken;
    match turn_over(machine, scan, saved, &waiting[*from..]) {
        Err(e) => Err(e),
        Ok(None) => Ok(None),
        Ok(Some(turn)) => {
            *from += (scan.state.reading.taken - before) as usize;
            Ok(Some(turn))
        }
    }
}

/// Moves the bytes that wait to the front, once no more wait than are done with. So each byte is moved once.
fn close_up(waiting: &mut Vec<u8>, from: &mut usize)
    requires { from.old ≤ length waiting.old.items }
    ensures bytes { drop from.new waiting.new.items ≡ drop from.old waiting.old.items }
    ensures inside { from.new ≤ length waiting.new.items }
{
    if waiting.len() - *from <= *from {
        drop_front(waiting, *from);
        *from = 0;
    }
}

/// A scan of bytes that are fed piece by piece, by a caller who asks for one token after another, as a parser does. What
/// its rules print, copy or put is written nowhere.
#[derive(Drop)]
pub struct PullScanner<M: Machine> {
    machine: M,
    scan: Scan,
    /// The conditions at the start of a turn, for one that is undone.
    saved: Stack,
    /// The bytes that were fed. Turns have asked for the first of them, up to `from`.
    waiting: Vec<u8>,
    from: usize,
    /// The machine's state after all of them, where the next match asks for more.
    asking: Option<u32>,
    /// How many bytes that wait a series is shown next, at most.
    most: usize,
    /// How long the text is of the token that was told last, or 0.
    shown: usize,
    /// Whether the end of the input was told.
    finished: bool,
    ghost few: { finished ≡ false → scan.state.reading.max_reads < 2 ^ 64 - 1 },
    ghost cursor: { from ≤ length waiting.items },
    ghost condition: { scan.state.place.condition < (M.machine machine).conditions },
    ghost inside: { scan.state.place.at ≤ length scan.state.reading.window.bytes },
    ghost stack: { scan.state.failed ≡ false
        → AllBelow (M.machine machine).conditions scan.state.acting.stack } by { →_prop
            (AllBelow-prop (M.machine machine).conditions scan.state.acting.stack) },
    ghost marks: { scan.state.failed ≡ false → AreTrue (M.machine machine) scan.state.reading scan.memo } by { →_prop
        (AreTrue-prop (M.machine machine) scan.state.reading scan.memo) },
    ghost reachable: { scan.state.failed ≡ false → IsReachable (M.machine machine) scan.state } by { →_prop
        (IsReachable-prop (M.machine machine) scan.state) },
    ghost asking_more: { IsAsking (M.machine machine) (M.states machine) scan.state (drop from waiting.items)
        asking } by { IsAsking-prop
            (M.machine machine) (M.states machine) scan.state (drop from waiting.items) asking },
}

impl<M: Machine> PullScanner<M> {
    ghost use Rattle.lexscan.specs.Scanners.{pull_machine, pull_state, pull_waiting, pull_finished, pull_text, SamePull};

    /// A scanner that was fed nothing.
    pub fn new(alloc: Global, machine: M) -> PullScanner<M>
        ensures machine { pull_machine result ≡ machine }
        ensures unfinished { pull_finished result ≡ false }
        ensures going { (pull_state result).ended ≡ None }
        ensures text { pull_text result ≡ [] }
        ensures told { TokensTold (M.machine machine) [] false [] (pull_state result) (pull_waiting result) }
    {
        PullScanner {
            machine,
            scan: Scan {
                path: StatePath::new(alloc),
                memo: Memo::new(alloc),
                state: State::new(alloc, 0),
            },
            saved: Stack::new(),
            waiting: Vec::new(alloc),
            from: 0,
            asking: None,
            most: LEAST_SHOWN,
            shown: 0,
            finished: false,
        }
    }

    /// Keeps a piece of the input, of any length. Once the end was told or the scan has ended, it counts for nothing.
    /// Refused for memory, or where there would be more than 2^64 - 2 bytes: then nothing has changed.
    pub fn feed(&mut self, piece: &[u8]) -> Result<(), RunError>
        ensures machine { pull_machine self.new ≡ pull_machine self.old }
        ensures unfinished { pull_finished self.new ≡ pull_finished self.old }
        ensures text { pull_text self.new ≡ pull_text self.old }
        ensures told { (fed : List ℕ) (tokens : List TokenModel) → pull_finished self.old ≡ false
            → TokensTold (M.machine (pull_machine self.old)) fed false tokens (pull_state self.old) (pull_waiting self.old)
            → OnOk result (TokensTold (M.machine (pull_machine self.old)) (fed ++ piece.now) false tokens
            (pull_state self.new) (pull_waiting self.new)) }

        ensures late { pull_finished self.old ≡ true → SamePull self.old self.new }
        ensures kept { OnErr result (SamePull self.old self.new) }
        ensures too_many { IsErrOf result RunError.TooManyReads →
            2 ^ 64 - 1 ≤ (pull_state self.old).reading.max_reads + length piece.now }
        ensures refusals { IfErr result (RefusesPiece (pull_state self.old).failed) }
        ensures after_refusal { (pull_state self.old).failed ≡ true → result ≡ Err RunError.Failed }
        ensures after_end { (status : ℕ) → (pull_state self.old).failed ≡ false
            → (pull_state self.old).ended ≡ Some status → result ≡ Ok tt }
    {
        if self.scan.state.failed {
            return Err(RunError::Failed);
        }
        if self.finished {
            return Ok(());
        }
        match self.scan.state.ended {
            Some(_) => return Ok(()),
            None => {}
        }
        let most = self.scan.state.reading.max_reads;
        let Some(count) = count_with(most, 0, piece.len()) else {
            return Err(RunError::TooManyReads);
        };
        let asking = walk_on(&self.machine, self.asking, piece);
        close_up(&mut self.waiting, &mut self.from);
        match self.waiting.extend_from_slice(piece) {
            Err(_) => return Err(RunError::OutOfMemory),
            Ok(()) => {}
        }
        self.asking = asking;
        self.scan.state.reading.max_reads = count;
        Ok(())
    }

    /// Tells the end of the input.
    pub fn finish(&mut self)
        ensures machine { pull_machine self.new ≡ pull_machine self.old }
        ensures finished { pull_finished self.new ≡ true }
        ensures text { pull_text self.new ≡ pull_text self.old }
        ensures told { (fed : List ℕ) (tokens : List TokenModel)
            → TokensTold (M.machine (pull_machine self.old)) fed (pull_finished self.old) tokens (pull_state self.old)
            (pull_waiting self.old)
            → TokensTold (M.machine (pull_machine self.old)) fed true tokens (pull_state self.new) (pull_waiting self.new) }

        ensures failed { (pull_state self.new).failed ≡ (pull_state self.old).failed }
        ensures ended { (pull_state self.new).ended ≡ (pull_state self.old).ended }
    {
        if self.finished {
            return;
        }
        // The answer of the end takes a read too.
        self.scan.state.reading.max_reads += 1;
        self.finished = true;
    }

    /// Whether the end of the input was told.
    pub fn is_finished(&self) -> bool
        ensures { result ≡ pull_finished self.now }
    {
        self.finished
    }

    /// The next token, by one turn; or that the next match asks for more than was fed, which never comes once the end
    /// was told; or that the scan has ended. A turn is refused where memory runs out, and as `Stack` where a push finds the
    /// stack of start conditions full or a pop finds it empty; after that each call is refused as `Failed`.
    #[inline(always)]
    pub fn next(&mut self) -> Result<Pulled, RunError>
        ensures machine { pull_machine self.new ≡ pull_machine self.old }
        ensures finished { pull_finished self.new ≡ pull_finished self.old }
        ensures pulled { (fed : List ℕ) (tokens : List TokenModel)
            → TokensTold (M.machine (pull_machine self.old)) fed (pull_finished self.old) tokens (pull_state self.old)
            (pull_waiting self.old)
            → AfterPull (M.machine (pull_machine self.old)) fed (pull_finished self.old) tokens (pull_state self.new)
            (pull_waiting self.new) (pull_text self.new) result }

        ensures small { IfOk result EndsInRange }
        ensures failed { OnErr result ((pull_state self.new).failed ≡ true) }
        ensures refused { IsErrOf result RunError.Failed → (pull_state self.old).failed ≡ true }
        ensures after_refusal { (pull_state self.old).failed ≡ true → (result ≡ Err RunError.Failed)
            × (self.new ≡ self.old) }
        ensures after_end { (status : ℕ) → (pull_state self.old).failed ≡ false
            → (pull_state self.old).ended ≡ Some status → result ≡ Ok (Pulled.Ended status) }
    {
        if self.scan.state.failed {
            return Err(RunError::Failed);
        }
        self.shown = 0;
        match self.scan.state.ended {
            Some(status) => return Ok(Pulled::Ended(status)),
            None => {}
        }
        if self.wants_more() {
            return Ok(Pulled::More);
        }
        self.asking = None;
        let condition = self.scan.state.place.condition;
        match turn_from(
            &self.machine,
            &mut self.scan,
            &mut self.saved,
            &self.waiting,
            &mut self.from,
        ) {
            Err(e) => Err(e),
            Ok(None) => {
                self.asking = walk_all(&self.machine, &self.scan.state, &self.waiting[self.from..]);
                Ok(Pulled::More)
            }
            Ok(Some(turn)) => match self.scan.matched() {
                Some(matched) => {
                    self.shown = matched.length;
                    Ok(Pulled::Token(PulledToken {
                        rule: matched.rule,
                        start: matched.start,
                        length: matched.length,
                        condition,
                    }))
                }
                None => match turn {
                    Turn::Ended(status) => Ok(Pulled::Ended(status)),
                    // Only the end action tells no match, and it ends the scan.
                    Turn::Went => unreachable!(),
                },
            },
        }
    }

    /// The next tokens, as many as are told at a glance and lie among the bytes that wait. They are appended, each in few bytes,
    /// and where the first begins is answered. Where the next one is not told so, or memory for it runs out, there are none, and
    /// `next` has it.
    pub fn next_several(&mut self, tokens: &mut Vec<BriefToken>) -> u64
        ensures machine { pull_machine self.new ≡ pull_machine self.old }
        ensures finished { pull_finished self.new ≡ pull_finished self.old }
        ensures text { pull_text self.new ≡ [] }
        ensures failed { (pull_state self.new).failed ≡ (pull_state self.old).failed }
        ensures ended { (pull_state self.new).ended ≡ (pull_state self.old).ended }
        ensures told { TellsSeveral (M.machine (pull_machine self.old)) (pull_finished self.old) (pull_state self.old)
            (pull_state self.new) (pull_waiting self.old) (pull_waiting self.new) tokens.old.items tokens.new.items result }
    {
        self.shown = 0;
        if !self.may_list() {
            return 0;
        }
        self.asking = None;
        let waiting = &self.waiting[self.from..];
        let listed = self
            .scan
            .list_at_glance(&self.machine, waiting, self.most, tokens);
        self.from += listed.got;
        self.most = next_most(self.most, listed.done);
        listed.start
    }

    /// Whether the scan goes on, and its next match may lie among the bytes that wait.
    fn may_list(&self) -> bool
        ensures going { result ≡ true → IsGoing self.now.scan }
    {
        !self.scan.state.failed && self.scan.state.ended.is_none() && !self.wants_more()
    }

    /// Whether it is known that the next match asks for more than was fed.
    fn wants_more(&self) -> bool
        ensures { result ≡ true → (self.now.finished ≡ false) × (is_some self.now.asking ≡ true) }
    {
        self.asking.is_some() && !self.finished
    }

    /// The text of the token that was told last, as it stands in the scan's buffer, until the next one is asked for. It is
    /// empty after each other answer.
    pub fn text(&self) -> &[u8]
        ensures { result.now ≡ pull_text self.now }
    {
        let state = &self.scan.state;
        state.reading.window.before(state.place.at, self.shown)
    }

    /// The start condition of the next match.
    pub fn condition(&self) -> u8
        ensures { result ≡ (pull_state self.now).place.condition }
    {
        self.scan.state.place.condition
    }
}
