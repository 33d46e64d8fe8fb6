//! A mark of a walk that leads to a match.
ghost use Rattle.std.specs.Prelude.{◌≡◌, [], ◌∷◌, IfSome};
ghost use Rattle.lexscan_window.specs.Memos.{walk_of};

use crate::memo::Mark;

/// A walk that goes over at least one byte, or none.
#[derive(Clone, Copy)]
pub struct KnownWalk {
    place: u64,
    count: u32,
    state: u16,
    last: u16,
    before: u16,
}

impl KnownWalk {
    /// None.
    pub fn none() -> KnownWalk
        ensures { walk_of result ≡ [] }
    {
        KnownWalk {
            place: 0,
            count: 0,
            state: 0,
            last: 0,
            before: 0,
        }
    }

    /// That of a mark, unless its numbers are too great: no specification makes greater states, and a mark that is lost
    /// costs time alone.
    pub fn of(mark: Mark) -> Option<KnownWalk>
        ensures { IfSome result (λ c. walk_of c ≡ mark ∷ []) }
    {
        let count = u32::try_from(mark.count).ok()?;
        if count == 0 {
            return None;
        }
        Some(KnownWalk {
            place: mark.place,
            count,
            state: u16::try_from(mark.state).ok()?,
            last: u16::try_from(mark.last).ok()?,
            before: u16::try_from(mark.before).ok()?,
        })
    }

    /// Its mark, if there is one.
    pub fn mark(self) -> Option<Mark>
        ensures { IfSome result (λ m. walk_of self ≡ m ∷ []) }
    {
        if self.count == 0 {
            return None;
        }
        Some(Mark {
            place: self.place,
            state: u32::from(self.state),
            count: self.count as usize,
            last: u32::from(self.last),
            before: u32::from(self.before),
        })
    }

    /// Whether it may give way to this mark: it is about another place, or from the same state.
    pub fn is_free_for(self, mark: Mark) -> bool {
        self.count == 0 || self.place != mark.place || u32::from(self.state) == mark.state
    }
}
