//! The steps over a pattern as far as it was read, by each symbol. (POSIX, lex, Regular Expressions in lex; flex,
//! Patterns.)
//!
//! Nodes are counted in the tree of the text so far. A series has its own node from its second item on, and a choice
//! from the first item after its first bar. The node of an operator is counted at the item that it stands after, and
//! that of an operator on a series is reported at the operator. One count goes through all names, and each item is
//! refused as soon as it passes 65,536.
ghost use Rattle.std.specs.Prelude.{◌≡◌, ◌+◌, ◌≤◌, ◌<◌, ℕ, List, Option, [], Some, None};
ghost use Rattle.std.specs.Prelude.{map, MatchResult, IfOk, IfErr, IfSome, IfNone, IsSome};
ghost use Rattle.lex_semantics.specs.Tree.{Repeat, Tree};
ghost use Rattle.lexre.specs.Counting.{adds, closing_adds, extra, item_adds};
ghost use Rattle.lexre.specs.Running.{choice_tree, how_many, on_item, one_more, operand};
ghost use Rattle.lexre.specs.Running.{operand_signs, parts_before, series_count, series_tree};
ghost use Rattle.lexre.specs.Outcome.{UnlessPatternMemory};
ghost use Rattle.lexre.specs.Running.{State, closed, finished, fresh, gathered, onto_last};
ghost use Rattle.lexre.specs.Running.{opened, parted, push, pushed, state, step_of};
ghost use Rattle.lexre.specs.StackViews.{StepsTo, frame_of, signs_of, state_of};
ghost use Rattle.lexre.specs.SymbolViews.{signed, symbol_of};
ghost use Rattle.lexre.specs.Views.{tree_of};
ghost use Rattle.lexre_bytes.specs.declared.error.PatternErrorKind.TheVariants.{OutOfMemory};
ghost use Rattle.lexre.specs.Limits.{max_open, max_signs};

use crate::counted::Counted;
use crate::frames::{Frame, Signs, Stack};
use crate::pattern::Pattern;
use crate::symbols::{Sign, Symbol};
use lexre_bytes::{PatternError, PatternErrorKind};
use std::alloc::Global;
use std::mem;
use std::rc::Rc;

/// The most signs that may stand on one item, or on one series.
const MAX_SIGNS: u8 = 64;

/// The pattern of a series: a part alone is itself.
fn series(
    alloc: Global,
    mut parts: Vec<Pattern>,
    last: Pattern,
) -> Result<Pattern, PatternErrorKind>
    ensures { MatchResult result (λ p. tree_of p
        ≡ series_tree (map tree_of parts.items) (tree_of last)) (λ e. e ≡ OutOfMemory) }
{
    if parts.is_empty() {
        return Ok(last);
    }
    parts.push(last)?;
    Ok(Pattern::series(alloc, parts)?)
}

/// The pattern of a choice: a series alone is itself.
fn choice(alloc: Global, mut done: Vec<Pattern>, last: Pattern) -> Result<Pattern, PatternErrorKind>
    ensures { MatchResult result (λ p. tree_of p
        ≡ choice_tree (map tree_of done.items) (tree_of last)) (λ e. e ≡ OutOfMemory) }
{
    if done.is_empty() {
        return Ok(last);
    }
    done.push(last)?;
    Ok(Pattern::choice(alloc, done)?)
}

/// What an interval applies to: the last part, or under `posix` the whole series, whose parts before the last are
/// taken.
fn operand(
    alloc: Global,
    parts: &mut Vec<Pattern>,
    last: Pattern,
    posix: bool,
) -> Result<Pattern, PatternErrorKind>
    ensures found { MatchResult result (λ p. tree_of p
        ≡ operand posix (map tree_of parts.old.items) (tree_of last)) (λ e. e ≡ OutOfMemory) }
    ensures left { IfOk result (λ _. map tree_of parts.new.items ≡ parts_before posix (map tree_of parts.old.items)) }
{
    if !posix {
        return Ok(last);
    }
    let all = mem::replace(parts, Vec::new(alloc));
    series(alloc, all, last)
}

impl Signs {
    /// None, on the first item of a series.
    fn none() -> Signs
        ensures { signs_of result ≡ on_item 0 0 }
    {
        Signs::OnItem {
            before: 0,
            signs: 0,
        }
    }

    /// How many stand on what the next sign applies to.
    fn count(self) -> u8
        ensures { result ≡ how_many (signs_of self) }
    {
        match self {
            Signs::OnItem { signs, .. } => signs,
            Signs::OnSeries(signs) => signs,
        }
    }

    /// How many stand on the whole series.
    fn series_count(self) -> u8
        ensures { result ≡ series_count (signs_of self) }
    {
        match self {
            Signs::OnItem { before, .. } => before,
            Signs::OnSeries(signs) => signs,
        }
    }

    /// One sign more, on what the last one stands on.
    fn one_more(self) -> Signs
        requires { how_many (signs_of self) < max_signs }
        ensures { signs_of result ≡ one_more (signs_of self) }
    {
        match self {
            Signs::OnItem { before, signs } => Signs::OnItem {
                before,
                signs: signs + 1,
            },
            Signs::OnSeries(signs) => Signs::OnSeries(signs + 1),
        }
    }

    /// None, on an item that follows.
    fn at_next_item(self) -> Signs
        ensures { signs_of result ≡ on_item (series_count (signs_of self)) 0 }
    {
        Signs::OnItem {
            before: self.series_count(),
            signs: 0,
        }
    }

    /// Those on what an interval applies to.
    fn at_interval(self, posix: bool) -> Signs
        ensures { signs_of result ≡ operand_signs posix (signs_of self) }
    {
        if posix {
            Signs::OnSeries(self.series_count())
        } else {
            self
        }
    }
}

impl Frame {
    /// A pattern of which nothing was read yet, opened at this place.
    fn new(alloc: Global, opening: usize) -> Frame
        ensures { frame_of result ≡ fresh }
    {
        Frame {
            opening,
            start: opening,
            done: Vec::new(alloc),
            parts: Vec::new(alloc),
            last: None,
            signs: Signs::none(),
        }
    }

    /// How many nodes the next item brings besides its own.
    fn extra(&self) -> u64
        ensures { result ≡ extra (frame_of self.now) }
    {
        let begins = match &self.last {
            Some(_) => self.parts.is_empty(),
            None => self.done.len() == 1,
        };
        u64::from(begins)
    }

    /// Takes an item that begins at this place.
    fn push(&mut self, item: Pattern, start: usize) -> Result<(), PatternErrorKind>
        ensures { MatchResult result (λ _. frame_of self.new
            ≡ pushed (tree_of item) (frame_of self.old)) (λ e. e ≡ OutOfMemory) }
    {
        match self.last.take() {
            Some(last) => {
                self.parts.push(last)?;
                self.signs = self.signs.at_next_item();
            }
            None => self.signs = Signs::none(),
        }
        self.last = Some(item);
        self.start = start;
        Ok(())
    }
}

impl Stack {
    /// Nothing read yet. `left` is how many parentheses and names may be opened.
    pub(crate) fn new(alloc: Global, left: u8) -> Stack
        requires { left ≤ max_open }
        ensures { state_of result ≡ state fresh [] left }
    {
        Stack {
            alloc,
            here: Frame::new(alloc, 0),
            outer: Vec::new(alloc),
            left,
        }
    }

    /// Takes an item that begins at this place, and answers how many nodes it brings.
    pub(crate) fn push(&mut self, item: Counted, start: usize) -> Result<u64, PatternErrorKind>
        ensures { StepsTo result (Some (push (tree_of item.pattern) (state_of self.old)))
            (item_adds (tree_of item.pattern) (state_of self.old)) (state_of self.new) }
    {
        let added = item.nodes + self.here.extra();
        self.here.push(item.pattern, start)?;
        Ok(added)
    }

    /// Opens a parenthesis, which stands at this place.
    fn open(&mut self, at: usize) -> Result<u64, PatternErrorKind>
        ensures { StepsTo result (opened (state_of self.old)) 0 (state_of self.new) }
    {
        if self.left == 0 {
            return Err(PatternErrorKind::TooDeep);
        }
        self.left -= 1;
        let outside = mem::replace(&mut self.here, Frame::new(self.alloc, at));
        self.outer.push(outside)?;
        Ok(0)
    }

    /// Closes a parenthesis.
    fn close(&mut self) -> Result<u64, PatternErrorKind>
        ensures { StepsTo result (closed (state_of self.old)) (closing_adds (state_of self.old)) (state_of self.new) }
    {
        let Some(last) = self.here.last.take() else {
            return Err(PatternErrorKind::MissingOperand);
        };
        let Some(outside) = self.outer.pop() else {
            return Err(PatternErrorKind::UnbalancedParen);
        };
        let added = outside.extra();
        let inside = mem::replace(&mut self.here, outside);
        let start = inside.opening;
        let last = series(self.alloc, inside.parts, last)?;
        let item = choice(self.alloc, inside.done, last)?;
        self.left += 1;
        self.here.push(item, start)?;
        Ok(added)
    }

    /// Ends a series at a bar.
    fn part(&mut self) -> Result<u64, PatternErrorKind>
        ensures { StepsTo result (parted (state_of self.old)) 0 (state_of self.new) }
    {
        let Some(last) = self.here.last.take() else {
            return Err(PatternErrorKind::MissingOperand);
        };
        let parts = mem::replace(&mut self.here.parts, Vec::new(self.alloc));
        let whole = series(self.alloc, parts, last)?;
        self.here.done.push(whole)?;
        self.here.signs = Signs::none();
        Ok(0)
    }

    /// What the place lacks where an interval stands: something to its left, or room for one more on it.
    pub(crate) fn interval_fault(&self, posix: bool) -> Option<PatternErrorKind>
        ensures never { IfSome result (λ kind. (f : Tree → Tree)
            → onto_last f (gathered posix (state_of self.now)) ≡ None) }
        ensures memory { IfSome result (λ kind. kind ≡ OutOfMemory → ⊥) }
        ensures steps { IfNone result (IsSome (onto_last (λ t. t) (gathered posix (state_of self.now)))) }
    {
        if self.here.last.is_none() {
            Some(PatternErrorKind::MissingOperand)
        } else if self.here.signs.at_interval(posix).count() >= MAX_SIGNS {
            Some(PatternErrorKind::TooDeep)
        } else {
            None
        }
    }

    /// Repeats the last part, as the sign says.
    fn sign(&mut self, sign: Sign) -> Result<u64, PatternErrorKind>
        ensures { StepsTo result (onto_last (signed sign) (state_of self.old)) 1 (state_of self.new) }
    {
        let Some(last) = self.here.last.take() else {
            return Err(PatternErrorKind::MissingOperand);
        };
        if self.here.signs.count() >= MAX_SIGNS {
            return Err(PatternErrorKind::TooDeep);
        }
        let inner = Rc::new(self.alloc, last)?;
        let repeated = match sign {
            Sign::AnyTimes => Pattern::Star(inner),
            Sign::OnceOrMore => Pattern::Repeat(inner, 1, None),
            Sign::AtMostOnce => Pattern::Repeat(inner, 0, Some(1)),
        };
        self.here.last = Some(repeated);
        self.here.signs = self.here.signs.one_more();
        Ok(1)
    }

    /// Repeats the last part, or under `posix` the whole series, as the interval says.
    fn interval(
        &mut self,
        least: u8,
        most: Option<u8>,
        posix: bool,
    ) -> Result<u64, PatternErrorKind>
        ensures { StepsTo result (onto_last (λ t. Repeat t least most)
            (gathered posix (state_of self.old))) 1 (state_of self.new) }
    {
        let Some(last) = self.here.last.take() else {
            return Err(PatternErrorKind::MissingOperand);
        };
        let signs = self.here.signs.at_interval(posix);
        if signs.count() >= MAX_SIGNS {
            return Err(PatternErrorKind::TooDeep);
        }
        let operand = operand(self.alloc, &mut self.here.parts, last, posix)?;
        let inner = Rc::new(self.alloc, operand)?;
        self.here.last = Some(Pattern::Repeat(inner, least, most));
        self.here.signs = signs.one_more();
        Ok(1)
    }

    /// The fault of a symbol that stands at this place. Too many nodes are reported at the item that brings them.
    pub(crate) fn fault(&self, kind: PatternErrorKind, at: usize) -> PatternError
        ensures { result.kind ≡ kind }
    {
        let at = match kind {
            PatternErrorKind::TooBig => self.here.start,
            _ => at,
        };
        PatternError { kind, at }
    }

    /// Takes a symbol that stands at this place and is no name, and answers how many nodes it brings.
    pub(crate) fn take(
        &mut self,
        symbol: Symbol,
        at: usize,
        posix: bool,
    ) -> Result<u64, PatternErrorKind>
        ensures { StepsTo result (step_of posix (symbol_of symbol.entry) (state_of self.old))
            (adds (symbol_of symbol.entry) (state_of self.old)) (state_of self.new) }
    {
        if posix && matches!(symbol, Symbol::Sign(_) | Symbol::Interval(..)) {
            self.here.start = at;
        }
        match symbol {
            Symbol::Item(item) => self.push(Counted::new(item), at),
            Symbol::Name(_) => Err(PatternErrorKind::UndefinedName),
            Symbol::Opening => self.open(at),
            Symbol::Closing => self.close(),
            Symbol::Bar => self.part(),
            Symbol::Sign(sign) => self.sign(sign),
            Symbol::Interval(least, most) => self.interval(least, most, posix),
        }
    }

    /// The whole pattern, at the end of the text.
    pub(crate) fn finish(self) -> Result<Pattern, PatternErrorKind>
        ensures { MatchResult result
            (λ p. finished (state_of self) ≡ Some (tree_of p))
            (λ e. UnlessPatternMemory e (finished (state_of self) ≡ None)) }
    {
        let Stack {
            alloc,
            here,
            outer,
            ..
        } = self;
        let Frame {
            done,
            parts,
            last,
            ..
        } = here;
        let Some(last) = last else {
            return Err(PatternErrorKind::MissingOperand);
        };
        if !outer.is_empty() {
            return Err(PatternErrorKind::UnbalancedParen);
        }
        let last = series(alloc, parts, last)?;
        choice(alloc, done, last)
    }
}
