//! The rules of a table file that was read once.
ghost use Rattle.std.specs.Prelude.{◌≡◌, IfOk, IfErr};
ghost use Rattle.std.specs.Arc.{arc_value};
ghost use Rattle.lexkit.specs.Headline.{TableRefusal};
ghost use Rattle.liblex_calls.specs.Rules.{rules_machine};
ghost use Rattle.liblex_calls.specs.Files.{IsMachineOf};

use crate::machines::flat_of;
use lex_machine::{Cut, EndAction, Gist, Machine, Statement, Way};
use lexkit::{Flat, TableError};
use std::alloc::{AllocError, Global};
use std::sync::Arc;

/// The rules of a table file, read and laid flat once. Any number of scans go by them, in any threads: nothing in them is
/// written after that. Each scan keeps them while it is open.
#[derive(Drop)]
pub struct Rules {
    flat: Arc<Flat, Global>,
}

impl Rules {
    /// The rules of the table whose file this is. Bytes that are no table file are refused.
    pub fn read(alloc: Global, file: &[u8]) -> Result<Rules, TableError>
        ensures found { IfOk result (λ r. IsMachineOf file.now (rules_machine r)) }
        ensures refused { IfErr result (TableRefusal file.now) }
    {
        let flat = flat_of(alloc, file)?;
        match Arc::new(alloc, flat) {
            Err(_) => Err(TableError::OutOfMemory),
            Ok(flat) => Ok(Rules { flat }),
        }
    }

    /// The same rules once more, with no copy of them.
    pub fn share(&self) -> Result<Rules, AllocError>
        ensures { IfOk result (λ r. rules_machine r ≡ rules_machine self.now) }
    {
        let flat = Arc::try_clone(&self.flat)?;
        Ok(Rules { flat })
    }

    /// The machine.
    #[inline(always)]
    pub(crate) fn flat(&self) -> &Flat
        ensures { result.now ≡ arc_value self.now.flat }
    {
        &self.flat
    }
}

impl Machine for Rules {
    ghost use Rattle.liblex_calls.specs.Rules.{rules_machine, rules_states, rules_laws, rules_below};

    ghost machine = { λ r. rules_machine r };

    ghost states = { λ r. rules_states r };

    ghost laws = { λ r. rules_laws r };

    ghost below = { λ r. rules_below r };

    /// How many conditions there are.
    fn conditions(&self) -> usize {
        self.flat().conditions()
    }

    /// How many rules there are.
    fn rules(&self) -> usize {
        self.flat().rules()
    }

    /// The state where a match starts in a condition, at the start of a line or not.
    fn start(&self, condition: u8, line_start: bool) -> u32 {
        self.flat().start(condition, line_start)
    }

    /// The state after one byte more.
    #[inline(always)]
    fn step(&self, state: u32, byte: u8) -> u32 {
        self.flat().step(state, byte)
    }

    /// Whether a longer text may be accepted.
    #[inline(always)]
    fn goes_on(&self, state: u32) -> bool {
        self.flat().goes_on(state)
    }

    /// The rules that the state accepts.
    fn accepts(&self, state: u32) -> &[u32] {
        self.flat().accepts(state)
    }

    /// How much of a match of a rule is the text, and what is done.
    fn rule(&self, rule: u32) -> (Cut, &[Statement]) {
        self.flat().rule(rule)
    }

    /// What is done at the end of the input in a condition.
    fn eof(&self, condition: u8) -> &EndAction {
        self.flat().eof(condition)
    }

    /// Whether some rule has REJECT.
    fn rejects(&self) -> bool {
        self.flat().rejects()
    }

    /// Where the bytes lead to from a state, up to the first state that does not go on; None where all of them go on.
    #[inline(always)]
    fn way(&self, first: u32, bytes: &[u8]) -> Option<Way<'_>> {
        self.flat().way(first, bytes)
    }

    /// The only state that leads to this one by a byte, where that is known.
    fn only_before(&self, state: u32) -> Option<u32> {
        self.flat().only_before(state)
    }

    /// Whether it is known that the first rule that the state accepts keeps all of a match, and does yymore alone.
    #[inline(always)]
    fn does_more(&self, state: u32) -> bool {
        self.flat().does_more(state)
    }

    /// What is told at a glance of what the first rule does that the state accepts.
    #[inline(always)]
    fn gist(&self, state: u32) -> Gist<'_> {
        self.flat().gist(state)
    }

    /// Whether most bytes of a text are matches by themselves in a condition.
    #[inline(always)]
    fn has_singles(&self, condition: u8) -> bool {
        self.flat().has_singles(condition)
    }

    /// How many of the first bytes are dropped, each a match by itself.
    fn dropped(&self, condition: u8, first: u32, bytes: &[u8]) -> usize {
        self.flat().dropped(condition, first, bytes)
    }

    /// How many of the first bytes are copied, each a match by itself.
    fn copied(&self, condition: u8, first: u32, bytes: &[u8]) -> usize {
        self.flat().copied(condition, first, bytes)
    }
}
