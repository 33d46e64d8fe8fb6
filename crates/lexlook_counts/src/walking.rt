//! Walks over bytes that are held, and what is known of where they lead: the marks of lexscan_window, for walks that end
//! where a machine goes on no more. (Reps, Maximal-munch tokenization in linear time, 1998.)
ghost use Rattle.std.specs.Prelude.{◌≡◌, ◌+◌, ◌<◌, ◌≤◌, ℕ, List, length, drop, IfSome};
ghost use Rattle.lex_semantics.specs.Text.{Among};
ghost use Rattle.lexlook_counts.specs.FarWalks.{AreTrueOf, AreTrueFrom, IsFarWalk};

use lex_machine::Machine;
use lexscan_window::{Mark, Memo};

/// Where a walk has come to: over how many bytes, to which state, and to which one before it. It was walked over so many of
/// them; where it leads from there on was known.
#[derive(Clone, Copy)]
pub(crate) struct FarWalk {
    pub(crate) count: usize,
    pub(crate) state: u32,
    pub(crate) before: u32,
    pub(crate) seen: usize,
}

impl FarWalk {
    /// A walk that was walked over all its bytes.
    fn walked(count: usize, state: u32, before: u32) -> FarWalk
        ensures { result ≡ record { count = count; state = state; before = before; seen = count } }
    {
        FarWalk {
            count,
            state,
            before,
            seen: count,
        }
    }
}

/// The mark of a walk that has come to this state, so many bytes behind a place.
fn find(memo: &Memo, place: u64, count: usize, state: u32) -> Option<Mark>
    ensures { IfSome result (λ m. Among memo.now m × (m.state ≡ state) × (m.place ≡ place + count) × (1 ≤ m.count)) }
{
    let Some(place) = place.checked_add(count as u64) else {
        return None;
    };
    match memo.find(place, state) {
        Some(mark) if mark.count != 0 => Some(mark),
        _ => None,
    }
}

/// Walks from a state over the bytes from a place of the input on, until the machine goes on no more.
pub(crate) fn walk_on<M: Machine>(
    machine: &M,
    memo: &Memo,
    first: u32,
    place: u64,
    bytes: &[u8],
) -> FarWalk
    requires first { first < M.states machine.now }
    requires marks { AreTrueFrom (M.machine machine.now) (M.states machine.now) place bytes.now memo.now }
    ensures { IsFarWalk (M.machine machine.now) (M.states machine.now) first bytes.now result }
{
    let stride = memo.stride();
    // Marks stand at multiples of the stride, counted over the whole input: the walk comes to the next one so soon.
    let mut due = memo.ahead(place);
    let mut state = first;
    let mut before = first;
    let mut count = 0usize;
    'bytes: while count < bytes.len() {
        before = state;
        state = machine.step(state, bytes[count]);
        count += 1;
        if !machine.goes_on(state) {
            return FarWalk::walked(count, state, before);
        }
        if due <= count {
            due = due.saturating_add(stride);
            if let Some(mark) = find(memo, place, count, state) {
                // The mark says where the walk leads, whatever was walked before it.
                if mark.count == bytes.len() - count || !machine.goes_on(mark.last) {
                    return FarWalk {
                        count: count + mark.count,
                        state: mark.last,
                        before: mark.before,
                        seen: count,
                    };
                }
            }
        }
    }
    FarWalk::walked(count, state, before)
}

/// Marks where a walk leads, at places that it was walked over.
pub(crate) fn note<M: Machine>(
    machine: &M,
    memo: &mut Memo,
    first: u32,
    place: u64,
    bytes: &[u8],
    walk: FarWalk,
)
    requires first { first < M.states machine.now }
    requires walk { IsFarWalk (M.machine machine.now) (M.states machine.now) first bytes.now walk }
    ensures { (given : List ℕ) → place ≤ length given → bytes.now ≡ drop place given
        → AreTrueOf (M.machine machine.now) (M.states machine.now) given memo.old
        → AreTrueOf (M.machine machine.now) (M.states machine.now) given memo.new }
{
    let stride = memo.stride();
    let mut due = memo.ahead(place);
    let mut state = first;
    let mut count = 0usize;
    'bytes: while count < walk.seen {
        state = machine.step(state, bytes[count]);
        count += 1;
        if due <= count {
            due = due.saturating_add(stride);
            if let Some(place) = place.checked_add(count as u64) {
                memo.put_walk(Mark {
                    place,
                    state,
                    count: walk.count - count,
                    last: walk.state,
                    before: walk.before,
                });
            }
        }
    }
}
