//! A scan by pieces, with what it wrote and was not handed out yet.
ghost use Rattle.std.specs.Prelude.{◌≡◌, ℕ, Bool, List, [], ◌++◌, true, false, length, take};
ghost use Rattle.liblex_calls.specs.Rules.{rules_machine};

use crate::answer::Answer;
use crate::backlog::Backlog;
use crate::rules::Rules;
use crate::stage::Stage;
use lexscan::PushScanner;
use std::alloc::Global;

/// A scan by pieces, with what it wrote and was not handed out yet.
#[derive(Drop)]
pub struct PieceScan {
    scanner: PushScanner<Rules>,
    backlog: Backlog,
    stage: Stage,
    /// Whether the end of the input was told.
    finished: bool,
}

impl PieceScan {
    ghost use Rattle.liblex_calls.specs.Backlogs.{rest};
    ghost use Rattle.liblex_calls.specs.Stages.{feed_answer, finish_answer, status_in};
    ghost use Rattle.liblex_calls.specs.Files.{IsMachineOf};
    ghost use Rattle.liblex_calls.specs.Progress.{Progress, HandsOn, Follows, fed_with};

    /// One that was fed nothing.
    pub(crate) fn new(alloc: Global, rules: Rules) -> PieceScan
        ensures going { result.stage ≡ Stage.Going }
        ensures progress { (file : List ℕ) → IsMachineOf file (rules_machine rules)
            → Progress file false [] [] result }
    {
        PieceScan {
            scanner: PushScanner::new(alloc, rules),
            backlog: Backlog::new(alloc),
            stage: Stage::Going,
            finished: false,
        }
    }

    /// Scans on with a piece more. Once the scan has ended or stopped, it counts for nothing.
    fn take(&mut self, piece: &[u8])
        ensures follows { Follows self.old [] self.new }
        ensures progress { (file : List ℕ) (told : Bool) (fed out : List ℕ) → Progress file told fed out self.old
            → Progress file told (fed_with told fed piece.now) out self.new }
    {
        let Stage::Going = self.stage else {
            return;
        };
        self.backlog.begin();
        self.stage = Stage::after_feed(self.scanner.feed(piece, &mut self.backlog));
    }

    /// Scans to the end of what was fed.
    fn end(&mut self)
        ensures follows { Follows self.old [] self.new }
        ensures progress { (file : List ℕ) (told : Bool) (fed out : List ℕ) → Progress file told fed out self.old
            → Progress file true fed out self.new }
    {
        self.finished = true;
        let Stage::Going = self.stage else {
            return;
        };
        self.backlog.begin();
        self.stage = Stage::after_finish(self.scanner.finish(&mut self.backlog));
    }

    /// Hands out what was written, as much as there is room for.
    fn hand_on(&mut self, buffer: &mut [u8], count: &mut usize)
        ensures handed { (file : List ℕ) (told : Bool) (fed out : List ℕ) → Progress file told fed out self.old
            → HandsOn file told fed out self.new buffer.old buffer.new count.new }
        ensures stage { self.new.stage ≡ self.old.stage }
        ensures all { take count.new buffer.new ++ rest self.new.backlog ≡ rest self.old.backlog }
    {
        self.backlog.hand_out(buffer, count);
    }

    /// Scans on with a piece more, and hands out what was written.
    pub(crate) fn feed(&mut self, piece: &[u8], buffer: &mut [u8], count: &mut usize) -> Answer
        ensures follows { Follows self.old (take count.new buffer.new) self.new }
        ensures fed { (file : List ℕ) (told : Bool) (fed out : List ℕ) → Progress file told fed out self.old
            → HandsOn file told (fed_with told fed piece.now) out self.new buffer.old buffer.new count.new }
        ensures answer { result ≡ feed_answer self.new.stage (length (rest self.new.backlog)) }
    {
        self.take(piece);
        self.hand_on(buffer, count);
        self.stage.feed_answer(self.backlog.len())
    }

    /// Scans to the end of what was fed, and hands out what was written.
    pub(crate) fn finish(&mut self, buffer: &mut [u8], count: &mut usize, status: &mut u8) -> Answer
        ensures follows { Follows self.old (take count.new buffer.new) self.new }
        ensures finished { (file : List ℕ) (told : Bool) (fed out : List ℕ) → Progress file told fed out self.old
            → HandsOn file true fed out self.new buffer.old buffer.new count.new }
        ensures answer { result ≡ finish_answer self.new.stage (length (rest self.new.backlog)) }
        ensures status { status.new ≡ status_in self.new.stage }
    {
        self.end();
        self.hand_on(buffer, count);
        *status = self.stage.status();
        self.stage.finish_answer(self.backlog.len())
    }
}
