//! What a scanner keeps beside its two ends.
ghost use Rattle.std.specs.Prelude.{◌≡◌, ◌+◌, ◌≤◌, length, false, None, []};
ghost use Rattle.lex_semantics.specs.ByteSets.{bit_of};

use crate::act::ActionState;
use crate::matched::MatchedRule;
use crate::stack::Stack;
use crate::window::Window;
use std::alloc::Global;

/// The bytes held, and what is known of the source. The bytes taken and the answer of the end are no more than
/// `max_reads`.
#[derive(Drop)]
pub struct Reading {
    pub window: Window,
    pub max_reads: u64,
    pub taken: u64,
    pub at_end: bool,
    ghost few_reads: { taken + bit_of at_end ≤ max_reads },
}

/// Where the next match starts: the place in the window, whether a line starts there, and the condition.
#[derive(Clone, Copy)]
pub struct TextPlace {
    pub at: usize,
    pub line_start: bool,
    pub condition: u8,
}

/// The plain state of a scanner. What its actions leave is kept in place, so that no turn copies the stack.
#[derive(Drop)]
pub struct State {
    pub reading: Reading,
    pub place: TextPlace,
    pub acting: ActionState,
    /// The rule that the last turn carried out, and none after an end action.
    pub matched: Option<MatchedRule>,
    pub ended: Option<u8>,
    pub failed: bool,
}

impl State {
    ghost use Rattle.lexscan_window.specs.States.{IsFirstReading, IsFirstPlace};
    ghost use Rattle.lexscan_window.specs.Places.{AtNextPlace};

    /// What a scanner keeps before its first turn.
    pub fn new(alloc: Global, max_reads: u64) -> State
        ensures reading { IsFirstReading max_reads result.reading }
        ensures place { IsFirstPlace result.place }
        ensures stack { result.acting.stack ≡ [] }
        ensures matched { result.matched ≡ None }
        ensures ended { result.ended ≡ None }
        ensures failed { result.failed ≡ false }
    {
        State {
            reading: Reading {
                window: Window::new(alloc),
                max_reads,
                taken: 0,
                at_end: false,
            },
            place: TextPlace {
                at: 0,
                line_start: true,
                condition: 0,
            },
            acting: ActionState {
                end: 0,
                condition: 0,
                stack: Stack::new(),
                more: false,
            },
            matched: None,
            ended: None,
            failed: false,
        }
    }

    /// Goes from the text of a match to the place of the next one, or where the scan is over, behind it.
    #[inline(always)]
    #[tactic(auto, using(crate::proofs::Keeping::text_stays, crate::proofs::Keeping::text_dropped))]
    pub fn leave_text(&mut self, over: bool)
        requires { self.old.acting.end ≤ length self.old.reading.window.bytes }
        ensures left { AtNextPlace self.old.reading.window.bytes self.old.acting over self.new }
        ensures taken { self.new.reading.taken ≡ self.old.reading.taken }
        ensures at_end { self.new.reading.at_end ≡ self.old.reading.at_end }
        ensures max_reads { self.new.reading.max_reads ≡ self.old.reading.max_reads }
        ensures ended { self.new.ended ≡ self.old.ended }
        ensures failed { self.new.failed ≡ self.old.failed }
        ensures matched { self.new.matched ≡ self.old.matched }
    {
        let end = self.acting.end;
        // After an empty text a line starts where it did.
        if 0 < end {
            self.place.line_start = self.reading.window.byte(end - 1) == b'\n';
        }
        self.place.condition = self.acting.condition;
        // With yymore the text stays, at the front of the next one.
        if self.acting.more && !over {
            self.place.at = end;
        } else {
            self.reading.window.drop_front(end);
            self.place.at = 0;
        }
    }
}
