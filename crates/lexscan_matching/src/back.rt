//! One match over bytes that an earlier match has asked for, by what is known of the walks over them.
ghost use Rattle.std.specs.Prelude.{◌≡◌, ◌+◌, ◌-◌, ◌^◌, ◌<◌, ◌≤◌, ◌⊎◌, length, drop, get_or, slice_range, true, false, List, [], IfSome};
ghost use Rattle.lex_semantics.specs.Text.{Among, IsText};
ghost use Rattle.lex_semantics.specs.Machine.{walk};
ghost use Rattle.lexscan_matching.specs.Backs.{AreOnTheWay, IsOnTheWay, IsSettled, LooksAhead, WalkedOver, settled_of};
ghost use Rattle.lexscan_window.specs.Memos.{AreTrue};
ghost use Rattle.lexscan_matching.specs.declared.back.Passed.{Passed as PassedModel};

use crate::pick::LookAhead;
use arrayvec::ArrayVec;
use lex_machine::Machine;
use lexscan_window::{Mark, Memo, Reading, TextPlace};

/// How many places of a walk are kept.
const MOST_PASSED: usize = 16;

/// A place where a mark is due, which a walk passed without one: after how many bytes, and the state there.
#[derive(Clone, Copy, Default)]
pub struct Passed {
    pub len: usize,
    pub state: u32,
}

/// A match of which no rule fits after its first `keep` bytes, the state after these and the one before it, over
/// how many bytes a walk showed it, and how many of them were walked over now.
#[derive(Clone, Copy)]
pub struct Settled {
    pub keep: usize,
    pub state: u32,
    pub before: u32,
    pub len: usize,
    pub seen: usize,
}

/// What the bytes held tell of a match.
#[derive(Clone, Copy)]
pub enum Ahead {
    /// All of it.
    Settled(Settled),
    /// The match asks for a byte that is not held.
    Open(LookAhead),
}

/// A walk over so many bytes: the state after them and the one before it, and the same of the last place where a rule
/// may fit, or of the first byte.
#[derive(Clone, Copy)]
pub struct Walked {
    pub len: usize,
    pub state: u32,
    pub before: u32,
    pub keep: usize,
    pub kept: u32,
    pub kept_before: u32,
}

/// Whether bytes are a text: they are, for each is a `u8`.
fn is_text(bytes: &[u8])
    ensures { IsText bytes.now }
{
    let _bytes = bytes;
}

/// A walk over the first byte.
fn first_walked<M: Machine>(machine: &M, reading: &Reading, place: TextPlace) -> Walked
    requires condition { place.condition < (M.machine machine.now).conditions }
    requires inside { place.at < length reading.now.window.bytes }
    ensures walked { WalkedOver (M.machine machine.now) (M.states machine.now) place reading.now result }
    ensures one { result.len ≡ 1 }
{
    let before = machine.start(place.condition, place.line_start);
    let state = machine.step(before, reading.window.byte(place.at));
    Walked {
        len: 1,
        state,
        before,
        keep: 1,
        kept: state,
        kept_before: before,
    }
}

/// The same after one byte more, which leads to this state.
#[inline(always)]
fn walked_on<M: Machine>(
    machine: &M,
    reading: &Reading,
    place: TextPlace,
    walked: Walked,
    state: u32,
) -> Walked
    requires inside { place.at + walked.len < length reading.now.window.bytes }
    requires walked { WalkedOver (M.machine machine.now) (M.states machine.now) place reading.now walked }
    requires goes_on { (M.machine machine.now).goes_on walked.state ≡ true }
    requires state { state ≡ (M.machine machine.now).next walked.state
        (get_or reading.now.window.bytes (place.at + walked.len) 0) }
    requires known { state < M.states machine.now }
    requires small { walked.len + 1 < 2 ^ 64 }

    ensures walked { WalkedOver (M.machine machine.now) (M.states machine.now) place reading.now result }
    ensures len { (result.len ≡ walked.len + 1) × (result.state ≡ state) }
{
    let _reading = reading;
    let _place = place;
    let len = walked.len + 1;
    let before = walked.state;
    if machine.fits_none(state) {
        Walked {
            len,
            state,
            before,
            ..walked
        }
    } else {
        Walked {
            len,
            state,
            before,
            keep: len,
            kept: state,
            kept_before: before,
        }
    }
}

/// Walks on over the bytes held from a place on, up to so many of them or to a state that does not go on.
#[inline(always)]
fn walk_to<M: Machine>(
    machine: &M,
    reading: &Reading,
    place: TextPlace,
    bytes: &[u8],
    to: usize,
    from: Walked,
) -> Walked
    requires bytes { bytes.now ≡ drop place.at reading.now.window.bytes }
    requires inside { to ≤ length bytes.now }
    requires walked { WalkedOver (M.machine machine.now) (M.states machine.now) place reading.now from }
    requires goes_on { (M.machine machine.now).goes_on from.state ≡ true }

    ensures walked { WalkedOver (M.machine machine.now) (M.states machine.now) place reading.now result }
    ensures further { from.len < to → from.len < result.len }
{
    let mut walked = from;
    'bytes: while walked.len < to {
        let state = machine.step(walked.state, bytes[walked.len]);
        walked = walked_on(machine, reading, place, walked, state);
        if !machine.goes_on(state) {
            return walked;
        }
    }
    walked
}

/// What a walk tells of its match, where no rule fits after it.
fn settled_by(walked: Walked) -> Settled
    ensures { result ≡ settled_of walked }
{
    Settled {
        keep: walked.keep,
        state: walked.kept,
        before: walked.kept_before,
        len: walked.len,
        seen: walked.len,
    }
}

/// The same where a mark tells where the walk leads from a state on, after so many bytes.
fn told_by(settled: Settled, len: usize, mark: Mark) -> Settled
    requires { len + mark.count < 2 ^ 64 }
    ensures silent { mark.count ≡ 0 → result ≡ settled }
    ensures further { 1 ≤ mark.count → (result.keep ≡ len + mark.count) × (result.state ≡ mark.last)
        × (result.before ≡ mark.before) × (result.len ≡ len + mark.count) }
{
    if mark.count == 0 {
        return settled;
    }
    Settled {
        keep: len + mark.count,
        state: mark.last,
        before: mark.before,
        len: len + mark.count,
        seen: len,
    }
}

/// The mark of a walk that has come to this state, where so many of the bytes held are left.
#[inline(always)]
fn find(memo: &Memo, reading: &Reading, left: usize, state: u32) -> Option<Mark>
    ensures { IfSome result (λ m. Among memo.now m × (m.state ≡ state) × (m.place + left ≡ reading.now.taken)) }
{
    if reading.taken < left as u64 {
        return None;
    }
    memo.find(reading.taken - left as u64, state)
}

/// What a walk over all the bytes held tells of its match, where it goes on.
fn ended_by(reading: &Reading, walked: Walked) -> Ahead
    ensures ended { reading.now.at_end ≡ true → result ≡ Ahead.Settled (settled_of walked) }
    ensures open { reading.now.at_end ≡ false
        → result ≡ Ahead.Open (record { reach = walked.len; state = walked.state; before = walked.before }) }
{
    if reading.at_end {
        Ahead::Settled(settled_by(walked))
    } else {
        Ahead::Open(LookAhead {
            reach: walked.len,
            state: walked.state,
            before: walked.before,
        })
    }
}

/// Whether places were kept that lead to the last one where a rule may fit: they tell no more.
fn are_stale(passed: &[Passed], walked: Walked) -> bool {
    match passed.last() {
        Some(last) => last.len < walked.keep,
        None => false,
    }
}

/// Keeps the place that a walk has come to, if there is room. Those that tell no more go.
fn keep_place(passed: &mut ArrayVec<Passed, MOST_PASSED>, walked: Walked)
    ensures { (d : PassedModel) → Among passed.new.items d
        → Among passed.old.items d ⊎ (d ≡ record { len = walked.len; state = walked.state }) }
{
    if are_stale(passed.as_slice(), walked) {
        passed.clear();
    }
    if passed.is_full() {
        return;
    }
    passed.push(Passed {
        len: walked.len,
        state: walked.state,
    });
}

/// Walks over the bytes held, up to a place from which it is known where the walk leads. It keeps the first places
/// where a mark is due and there is none.
fn walk_over<M: Machine>(
    machine: &M,
    reading: &Reading,
    memo: &Memo,
    place: TextPlace,
    passed: &mut ArrayVec<Passed, MOST_PASSED>,
) -> Ahead
    requires condition { place.condition < (M.machine machine.now).conditions }
    requires inside { place.at < length reading.now.window.bytes }
    requires marks { AreTrue (M.machine machine.now) reading.now memo.now }
    requires none { passed.old.items ≡ [] }

    ensures ahead { LooksAhead (M.machine machine.now) (M.states machine.now) place reading.now result }
    ensures passed { AreOnTheWay (M.machine machine.now) (M.states machine.now) place reading.now passed.new.items }
{
    let held = reading.window.len() - place.at;
    let bytes = reading.window.slice(place.at, place.at + held);
    is_text(bytes);
    let stride = memo.stride();
    // Marks stand at multiples of the stride, counted over the whole source: the walk comes to the next one so soon.
    let mut next = memo.ahead(reading.taken.saturating_sub(held as u64));
    let mut walked = first_walked(machine, reading, place);
    'marks: while machine.goes_on(walked.state) {
        if next <= walked.len {
            next = next.saturating_add(stride);
            // The mark says where the walk leads, whatever was walked before it.
            if let Some(mark) = find(memo, reading, held - walked.len, walked.state) {
                return Ahead::Settled(told_by(settled_by(walked), walked.len, mark));
            }
            keep_place(passed, walked);
        }
        if held <= walked.len {
            return ended_by(reading, walked);
        }
        let to = next.max(walked.len + 1).min(held);
        walked = walk_to(machine, reading, place, bytes, to, walked);
    }
    Ahead::Settled(settled_by(walked))
}

/// The same where the walk comes no further than to the first place where a mark is due. It answers nothing where there
/// is no mark.
#[inline(always)]
fn walk_near<M: Machine>(
    machine: &M,
    reading: &Reading,
    memo: &Memo,
    place: TextPlace,
) -> Option<Ahead>
    requires condition { place.condition < (M.machine machine.now).conditions }
    requires inside { place.at < length reading.now.window.bytes }
    requires marks { AreTrue (M.machine machine.now) reading.now memo.now }

    ensures { IfSome result (LooksAhead (M.machine machine.now) (M.states machine.now) place reading.now) }
{
    let held = reading.window.len() - place.at;
    let bytes = reading.window.slice(place.at, place.at + held);
    is_text(bytes);
    let due = memo.ahead(reading.taken.saturating_sub(held as u64));
    let first = first_walked(machine, reading, place);
    if !machine.goes_on(first.state) {
        return Some(Ahead::Settled(settled_by(first)));
    }
    let walked = walk_to(machine, reading, place, bytes, due.min(held), first);
    if !machine.goes_on(walked.state) {
        return Some(Ahead::Settled(settled_by(walked)));
    }
    if held <= walked.len {
        return Some(ended_by(reading, walked));
    }
    let mark = find(memo, reading, held - walked.len, walked.state)?;
    Some(Ahead::Settled(told_by(settled_by(walked), walked.len, mark)))
}

/// The state after the bytes held from one place up to another.
fn walk_on<M: Machine>(machine: &M, reading: &Reading, from: usize, to: usize, first: u32) -> u32
    requires order { from ≤ to }
    requires inside { to ≤ length reading.now.window.bytes }
    requires known { first < M.states machine.now }

    ensures state { result ≡ walk (M.machine machine.now) first (slice_range reading.now.window.bytes from to) }
    ensures known { result < M.states machine.now }
{
    let bytes = reading.window.slice(from, to);
    let mut state = first;
    let mut count = 0usize;
    'bytes: while count < bytes.len() {
        state = machine.step(state, bytes[count]);
        count += 1;
    }
    state
}

/// Marks a place that a walk passed, where it leads to no match.
fn note_place<M: Machine>(
    machine: &M,
    reading: &Reading,
    memo: &mut Memo,
    place: TextPlace,
    settled: Settled,
    passed: Passed,
)
    requires settled { IsSettled (M.machine machine.now) (M.states machine.now) place reading.now settled }
    requires passed { IsOnTheWay (M.machine machine.now) (M.states machine.now) place reading.now passed }
    requires marks { AreTrue (M.machine machine.now) reading.now memo.old }

    ensures marks { AreTrue (M.machine machine.now) reading.now memo.new }
{
    let _machine = machine;
    // Before `keep` bytes a state may have accepted, so such a mark there would not be true.
    if passed.len < settled.keep || settled.len < passed.len {
        return;
    }
    let left = (reading.window.len() - place.at - passed.len) as u64;
    if left <= reading.taken {
        memo.put_silent(reading.taken - left, passed.state);
    }
}

/// The same of all the places that were kept.
fn note_passed<M: Machine>(
    machine: &M,
    reading: &Reading,
    memo: &mut Memo,
    place: TextPlace,
    settled: Settled,
    passed: &[Passed],
)
    requires settled { IsSettled (M.machine machine.now) (M.states machine.now) place reading.now settled }
    requires passed { AreOnTheWay (M.machine machine.now) (M.states machine.now) place reading.now passed.now }
    requires marks { AreTrue (M.machine machine.now) reading.now memo.old }

    ensures marks { AreTrue (M.machine machine.now) reading.now memo.new }
{
    let mut index = 0usize;
    'places: while index < passed.len() {
        note_place(machine, reading, memo, place, settled, passed[index]);
        index += 1;
    }
}

/// The same of the places behind one, each a stride from the next.
fn note_further<M: Machine>(
    machine: &M,
    reading: &Reading,
    memo: &mut Memo,
    place: TextPlace,
    settled: Settled,
    last: Passed,
)
    requires settled { IsSettled (M.machine machine.now) (M.states machine.now) place reading.now settled }
    requires last { IsOnTheWay (M.machine machine.now) (M.states machine.now) place reading.now last }
    requires marks { AreTrue (M.machine machine.now) reading.now memo.old }

    ensures marks { AreTrue (M.machine machine.now) reading.now memo.new }
{
    let stride = memo.stride();
    let _held = reading.window.len();
    let mut passed = last;
    'marks: while passed.len.saturating_add(stride) < settled.len {
        let len = passed.len + stride;
        let state = walk_on(
            machine,
            reading,
            place.at + passed.len,
            place.at + len,
            passed.state,
        );
        passed = Passed { len, state };
        note_place(machine, reading, memo, place, settled, passed);
    }
}

/// Marks what a walk has shown, where it went on for more than a stride: places from which it leads to no match.
fn note_silent<M: Machine>(
    machine: &M,
    reading: &Reading,
    memo: &mut Memo,
    place: TextPlace,
    settled: Settled,
    passed: &[Passed],
)
    requires settled { IsSettled (M.machine machine.now) (M.states machine.now) place reading.now settled }
    requires passed { AreOnTheWay (M.machine machine.now) (M.states machine.now) place reading.now passed.now }
    requires marks { AreTrue (M.machine machine.now) reading.now memo.old }

    ensures marks { AreTrue (M.machine machine.now) reading.now memo.new }
{
    // So short a walk has no more than one mark to set, and is quickly made again.
    if settled.len - settled.keep <= memo.stride() {
        return;
    }
    note_passed(machine, reading, memo, place, settled, passed);
    if MOST_PASSED <= passed.len() && settled.keep <= passed[MOST_PASSED - 1].len {
        // There was no room for more.
        note_further(
            machine,
            reading,
            memo,
            place,
            settled,
            passed[MOST_PASSED - 1],
        );
    }
}

/// Marks a place of a walk from which it leads to the last state that accepts.
fn note_walk<M: Machine>(
    machine: &M,
    reading: &Reading,
    memo: &mut Memo,
    place: TextPlace,
    settled: Settled,
    passed: Passed,
)
    requires settled { IsSettled (M.machine machine.now) (M.states machine.now) place reading.now settled }
    requires passed { IsOnTheWay (M.machine machine.now) (M.states machine.now) place reading.now passed }
    requires marks { AreTrue (M.machine machine.now) reading.now memo.old }

    ensures marks { AreTrue (M.machine machine.now) reading.now memo.new }
{
    let _machine = machine;
    if settled.keep < passed.len {
        return;
    }
    let left = (reading.window.len() - place.at - passed.len) as u64;
    if left <= reading.taken {
        memo.put_walk(Mark {
            place: reading.taken - left,
            state: passed.state,
            count: settled.keep - passed.len,
            last: settled.state,
            before: settled.before,
        });
    }
}

/// The same of all such places.
fn note_walks<M: Machine>(
    machine: &M,
    reading: &Reading,
    memo: &mut Memo,
    place: TextPlace,
    settled: Settled,
)
    requires condition { place.condition < (M.machine machine.now).conditions }
    requires settled { IsSettled (M.machine machine.now) (M.states machine.now) place reading.now settled }
    requires marks { AreTrue (M.machine machine.now) reading.now memo.old }

    ensures marks { AreTrue (M.machine machine.now) reading.now memo.new }
{
    let stride = memo.stride();
    // What a mark told is marked already.
    let reach = settled.keep.min(settled.seen);
    if reach <= stride {
        return;
    }
    let held = reading.window.len() - place.at;
    let mut due = memo.ahead(reading.taken.saturating_sub(held as u64));
    let mut passed = Passed {
        len: 0,
        state: machine.start(place.condition, place.line_start),
    };
    'marks: while passed.len < due && due <= reach {
        let from = place.at + passed.len;
        let state = walk_on(machine, reading, from, place.at + due, passed.state);
        passed = Passed { len: due, state };
        due = due.saturating_add(stride);
        note_walk(machine, reading, memo, place, settled, passed);
    }
}

/// Walks over the bytes held, up to a place from which it is known where the walk leads, and marks what it has shown.
pub fn look<M: Machine>(machine: &M, reading: &Reading, memo: &mut Memo, place: TextPlace) -> Ahead
    requires condition { place.condition < (M.machine machine.now).conditions }
    requires inside { place.at < length reading.now.window.bytes }
    requires marks { AreTrue (M.machine machine.now) reading.now memo.old }

    ensures ahead { LooksAhead (M.machine machine.now) (M.states machine.now) place reading.now result }
    ensures marks { AreTrue (M.machine machine.now) reading.now memo.new }
{
    // Most walks come to a mark so soon, and have none to set.
    if let Some(ahead) = walk_near(machine, reading, memo, place) {
        return ahead;
    }
    look_far(machine, reading, memo, place)
}

/// The same for a walk that goes further than to the first place where a mark is due.
#[inline(never)]
fn look_far<M: Machine>(machine: &M, reading: &Reading, memo: &mut Memo, place: TextPlace) -> Ahead
    requires condition { place.condition < (M.machine machine.now).conditions }
    requires inside { place.at < length reading.now.window.bytes }
    requires marks { AreTrue (M.machine machine.now) reading.now memo.old }

    ensures ahead { LooksAhead (M.machine machine.now) (M.states machine.now) place reading.now result }
    ensures marks { AreTrue (M.machine machine.now) reading.now memo.new }
{
    let mut passed = ArrayVec::new();
    let ahead = walk_over(machine, reading, memo, place, &mut passed);
    if let Ahead::Settled(settled) = ahead {
        note_silent(machine, reading, memo, place, settled, passed.as_slice());
        note_walks(machine, reading, memo, place, settled);
    }
    ahead
}
