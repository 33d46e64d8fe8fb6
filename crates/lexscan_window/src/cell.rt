//! A few marks of one place of the source.
ghost use Rattle.std.specs.Prelude.{◌≡◌, ◌⊎◌, true};
ghost use Rattle.lex_semantics.specs.Text.{Among};
ghost use Rattle.lexscan_window.specs.Memos.{cell_place, mark_at, marks_of, silent};
ghost use Rattle.lexscan_window.specs.declared.memo.Mark.{Mark};

/// From one to four states at a place of the source. Where there are fewer than four, the first one stands more than
/// once.
#[derive(Clone, Copy)]
pub struct Cell {
    place: u64,
    first: u16,
    second: u16,
    third: u16,
    fourth: u16,
}

impl Cell {
    /// One state at a place.
    pub fn new(place: u64, state: u16) -> Cell
        ensures { (m : Mark) → Among (marks_of result) m → m ≡ silent place state }
    {
        Cell {
            place,
            first: state,
            second: state,
            third: state,
            fourth: state,
        }
    }

    /// Whether it is about this place.
    pub fn is_at(self, place: u64) -> bool
        ensures { result ≡ true → cell_place self ≡ place }
    {
        self.place == place
    }

    /// Whether it has this state.
    pub fn has(self, state: u32) -> bool
        ensures { result ≡ true → Among (marks_of self) (mark_at self state) }
    {
        u32::from(self.first) == state
            || u32::from(self.second) == state
            || u32::from(self.third) == state
            || u32::from(self.fourth) == state
    }

    /// Whether there is room for one state more.
    pub fn has_room(self) -> bool {
        self.second == self.first || self.third == self.first || self.fourth == self.first
    }

    /// The same with this state, in place of one that stands more than once or else of the last one. All are dropped
    /// where it is about another place, and nothing is changed where it has the state.
    pub fn marked(self, place: u64, state: u16) -> Cell
        ensures { (m : Mark) → Among (marks_of result) m → Among (marks_of self) m
            ⊎ (m ≡ silent place state) }
    {
        if self.place != place {
            Cell::new(place, state)
        } else if self.has(u32::from(state)) {
            self
        } else if self.second == self.first {
            Cell {
                second: state,
                ..self
            }
        } else if self.third == self.first {
            Cell {
                third: state,
                ..self
            }
        } else {
            Cell {
                // A mark that is lost costs time alone.
                fourth: state,
                ..self
            }
        }
    }
}
