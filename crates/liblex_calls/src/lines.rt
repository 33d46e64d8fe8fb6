//! Where a token stands: its line and its column.
ghost use Rattle.std.specs.Prelude.{◌≡◌, ℕ, ◌+◌, ◌^◌, ◌<◌, ◌≤◌, List, [], ◌∷◌, ◌++◌, length};
ghost use Rattle.lex_semantics.specs.Text.{part};
ghost use Rattle.lexscan.specs.declared.token.Token.{Token as TokenModel};
ghost use Rattle.liblex_calls.specs.LinesExamples.{LinesAndColumns};
ghost use Rattle.liblex_calls.specs.Lines.{IsAfter, Counted, Follows, Placed, IsSpotOf};

/// A place in an input: how many bytes are before it, how many newlines are among them, and how many bytes are after the
/// last of these.
#[derive(Clone, Copy)]
pub struct Mark {
    at: u64,
    newlines: u64,
    after: u64,
}

impl Mark {
    /// The place after a byte more.
    fn after(self, byte: u8) -> Mark
        ensures { (before : List ℕ) → IsAfter before self → length before + 1 < 2 ^ 64
            → IsAfter (before ++ byte ∷ []) result }
    {
        let at = self.at.wrapping_add(1);
        if byte == b'\n' {
            Mark {
                at,
                newlines: self.newlines.wrapping_add(1),
                after: 0,
            }
        } else {
            Mark {
                at,
                newlines: self.newlines,
                after: self.after.wrapping_add(1),
            }
        }
    }

    /// The place after these bytes.
    fn past(self, bytes: &[u8]) -> Mark
        ensures { (before : List ℕ) → IsAfter before self → length before + length bytes.now < 2 ^ 64
            → IsAfter (before ++ bytes.now) result }
    {
        let mut mark = self;
        for &byte in bytes {
            mark = mark.after(byte);
        }
        mark
    }
}

/// Where a token stands: its line and its column, from 1; or 0 and 0, where no lines are counted.
#[derive(Clone, Copy)]
pub struct Spot {
    pub line: u64,
    pub column: u64,
}

/// The lines of the tokens that were told, where they are counted: the places where the text of the last one begins and
/// ends.
#[derive(Clone, Copy)]
pub struct Lines {
    counts: bool,
    start: Mark,
    end: Mark,
}

impl Lines {
    /// The beginning of an input, of which lines are counted or not.
    pub(crate) fn new(counts: bool) -> Lines
        ensures counts { result.counts ≡ counts }
        ensures counted { Counted counts [] [] result }
    {
        let start = Mark {
            at: 0,
            newlines: 0,
            after: 0,
        };
        Lines {
            counts,
            start,
            end: start,
        }
    }

    /// Whether lines are counted.
    #[inline(always)]
    pub(crate) fn are_counted(&self) -> bool
        ensures { result ≡ self.now.counts }
    {
        self.counts
    }

    /// Goes on to the next token, where lines are counted, and tells where it stands.
    #[inline(never)]
    pub(crate) fn tell(&mut self, start: u64, text: &[u8]) -> Spot
        ensures counts { self.new.counts ≡ self.old.counts }
        ensures told { (fed : List ℕ) (tokens : List TokenModel) (t : TokenModel)
            → Counted self.old.counts fed tokens self.old → Follows tokens t.start → start ≡ t.start
            → t.end ≡ t.start + length text.now → (t.start ≤ length fed → t.end ≤ length fed) → length fed + 1 < 2 ^ 64
            → text.now ≡ part fed t.start t.end
            → Counted self.old.counts fed (tokens ++ t ∷ []) self.new × IsSpotOf self.old.counts fed t.start result }
    {
        if !self.counts {
            return Spot { line: 0, column: 0 };
        }
        self.go_on(start, text);
        Spot {
            line: self.start.newlines.wrapping_add(1),
            column: self.start.after.wrapping_add(1),
        }
    }

    /// Moves to the next token, which begins where the last one ends or, after yymore, where that begins. Of what yymore kept
    /// nothing is counted again.
    fn go_on(&mut self, start: u64, text: &[u8])
        ensures counts { self.new.counts ≡ self.old.counts }
        ensures moved { (fed : List ℕ) (tokens : List TokenModel) (t : TokenModel) → Placed fed tokens self.old
            → Follows tokens t.start → start ≡ t.start → t.end ≡ t.start + length text.now → t.end ≤ length fed
            → length fed < 2 ^ 64 → text.now ≡ part fed t.start t.end
            → Placed fed (tokens ++ t ∷ []) self.new × (self.new.start.at ≡ t.start) }
    {
        let known = self.end.at.wrapping_sub(start) as usize;
        if start == self.end.at {
            self.start = self.end;
        }
        if known <= text.len() {
            self.end = self.end.past(&text[known..]);
        } else {
            self.end = self.start.past(text);
        }
    }
}

/// Worked examples of lines and columns.
pub fn examples_of_lines()
    ensures { LinesAndColumns }
{}
