//! A work list over keys: all that are reached from some roots, each once, with their moves.
ghost use Rattle.std.specs.Prelude.{◌≡◌, ℕ, ◌-◌, ◌<◌, ◌≤◌, true, List, [], ◌∷◌, ◌++◌, length, slice_index, IfOk};
ghost use Rattle.std.specs.Prelude.{OnOk, IsErrOf};
ghost use Rattle.lex_semantics.specs.Text.{Ascending};
ghost use Rattle.lexauto_positions.specs.Cursors.{Increases};
ghost use Rattle.lexauto.specs.Sets.{lasts_in};
ghost use Rattle.lexauto.specs.declared.explore.ExploreError.TheVariants.{Memory};
ghost use Rattle.lexauto.specs.Explored.{Changes, GoOn, IsExplored, MoreThan, Reached, AreImages, goes_by, step_by};
ghost use Rattle.lexauto.specs.Keys.{At, Absent, Found, Finds, keys_in};
ghost use Rattle.lexauto.specs.KeyPacking.{look_kept, kept_in, packed, unpacked};

use crate::interner::{Interner, KeptKey, row_of};
use crate::key_packing::{is_bits, pack_key, plain_key, unpack_key};
use lexauto_positions::Walked;
use lexre_bytes::ByteSet;
use std::alloc::{AllocError, AllocFailed, Global};
use std::rc::Rc;

/// The targets that there is room for at once: the rows of 256 states. So few rows are copied to a larger room.
const ROOM: usize = 65_536;

/// Why the keys that are reached were not all found.
#[derive(Drop)]
pub(crate) enum ExploreError {
    TooMany,
    Memory,
}

impl From<AllocError> for ExploreError {
    ghost from_gives = { λ _ e. e ≡ Memory };

    /// A request for memory was refused.
    fn from(_e: AllocError) -> Self {
        ExploreError::Memory
    }
}

impl<T: Drop> From<AllocFailed<T>> for ExploreError {
    ghost from_gives = { λ _ e. e ≡ Memory };

    /// A request for memory was refused, and what was handed in is dropped.
    fn from(_e: AllocFailed<T>) -> Self {
        ExploreError::Memory
    }
}

/// The place of a key, which is added if it is new and there is room.
pub(crate) fn intern(
    alloc: Global,
    table: &mut Interner,
    key: Vec<u32>,
    limit: u32,
) -> Result<u32, ExploreError>
    requires { Finds (look_kept table.old) (kept_in table.old.keys.items) }
    ensures finds { OnOk result (Finds (look_kept table.new) (kept_in table.new.keys.items)) }
    ensures place { IfOk result (λ i. At (kept_in table.new.keys.items) i key.items) }
    ensures found { OnOk result (Found (kept_in table.old.keys.items) key.items (kept_in table.new.keys.items)) }
    ensures room { OnOk result (length table.old.keys.items ≤ limit → length table.new.keys.items ≤ limit) }
    ensures full { IsErrOf result ExploreError.TooMany → Absent (kept_in table.old.keys.items) key.items
        × (limit ≤ length table.old.keys.items) }
{
    let kept = pack_key(alloc, &key)?;
    intern_kept(table, kept, limit)
}

/// The place of a key that is kept so, which is added if it is new and there is room.
fn intern_kept(table: &mut Interner, kept: Vec<u32>, limit: u32) -> Result<u32, ExploreError>
    requires finds { Finds (look_kept table.old) (kept_in table.old.keys.items) }
    requires kept { kept.items ≡ packed (unpacked kept.items) }
    ensures finds { OnOk result (Finds (look_kept table.new) (kept_in table.new.keys.items)) }
    ensures place { IfOk result (λ i. At (kept_in table.new.keys.items) i (unpacked kept.items)) }
    ensures found { OnOk result (Found (kept_in table.old.keys.items) (unpacked kept.items)
        (kept_in table.new.keys.items)) }
    ensures room { OnOk result (length table.old.keys.items ≤ limit → length table.new.keys.items ≤ limit) }
    ensures full { IsErrOf result ExploreError.TooMany → Absent (kept_in table.old.keys.items) (unpacked kept.items)
        × (limit ≤ length table.old.keys.items) }
{
    let row = row_of(&kept);
    if let Some(place) = table.find(row, &kept) {
        return Ok(place);
    }
    let place = table.keys.len();
    if place >= limit as usize {
        return Err(ExploreError::TooMany);
    }
    table.add(row, kept)?;
    Ok(place as u32)
}

/// How keys lead to one another.
pub(crate) trait Moves {
    ghost follow: { Self → List ℕ → List ℕ };

    ghost accept: { Self → List ℕ → List ℕ };

    ghost read: { Self → List ℕ → ℕ → List ℕ };

    /// What follows a key, by whatever byte, and which rules it accepts. It may be told that the last positions in the
    /// key ascend.
    fn walk(&self, alloc: Global, key: &[u32], ascends: bool) -> Result<Walked, AllocError>
        requires { ascends ≡ true → Increases (lasts_in key.now) }
        ensures followers { IfOk result (λ w. w.followers.items ≡ follow self.now key.now) }
        ensures ascending { IfOk result (λ w. Ascending w.followers.items) }
        ensures accepted { IfOk result (λ w. w.accepted.items ≡ accept self.now key.now) };

    /// The key that one byte makes of what follows, as it is kept.
    fn reading(&self, alloc: Global, followers: &[u32], byte: u8) -> Result<Vec<u32>, AllocError>
        requires { Ascending followers.now }
        ensures { IfOk result (λ k. k.items ≡ packed (read self.now followers.now byte)) };

    /// The bytes that may be read otherwise than the byte before, of what follows a key.
    fn changes(&self, followers: &[u32]) -> ByteSet
        ensures { Changes (read self.now) followers.now result };

    /// Whether a key that is kept so is the one that a byte makes of what follows. It may be told not though it is.
    fn is_reading(&self, kept: &[u32], followers: &[u32], byte: u8) -> bool
        ensures { result ≡ true → unpacked kept.now ≡ read self.now followers.now byte };

    /// An earlier byte that is read as this one is, whatever follows; else the byte itself.
    fn twin(&self, byte: u8) -> u8
        ensures first { result ≤ byte }
        ensures same { (followers : List ℕ) → read self.now followers result ≡ read self.now followers byte };
}

/// What follows a key, and the bytes that it may read otherwise than the byte before.
#[derive(Drop)]
struct Following {
    list: Vec<u32>,
    changes: ByteSet,
}

/// The place of the key that a byte makes of what follows.
#[inline(never)]
fn read_target<M: Moves>(
    alloc: Global,
    moves: &M,
    table: &mut Interner,
    followers: &[u32],
    byte: u8,
    limit: u32,
) -> Result<u32, ExploreError>
    requires finds { Finds (look_kept table.old) (kept_in table.old.keys.items) }
    requires ascending { Ascending followers.now }
    ensures finds { OnOk result (Finds (look_kept table.new) (kept_in table.new.keys.items)) }
    ensures place { IfOk result (λ i. At (kept_in table.new.keys.items) i (M.read moves.now followers.now byte)) }
    ensures found { OnOk result (Found (kept_in table.old.keys.items) (M.read moves.now followers.now byte)
        (kept_in table.new.keys.items)) }
    ensures room { OnOk result (length table.old.keys.items ≤ limit → length table.new.keys.items ≤ limit) }
    ensures full { IsErrOf result ExploreError.TooMany
        → Absent (kept_in table.old.keys.items) (M.read moves.now followers.now byte)
        × (limit ≤ length table.old.keys.items) }
{
    let kept = moves.reading(alloc, followers, byte)?;
    intern_kept(table, kept, limit)
}

/// Whether the key at this place is the one that a byte makes of what follows. It may be told not though it is.
fn is_target<M: Moves>(moves: &M, keys: &[KeptKey], followers: &[u32], byte: u8, place: u32) -> bool
    ensures { result ≡ true → At (kept_in keys.now) place (M.read moves.now followers.now byte) }
{
    match keys.get(place as usize) {
        Some(here) => moves.is_reading(&here.key, followers, byte),
        None => false,
    }
}

/// The place of the key that a byte makes of what follows; of a byte that is read as an earlier one, from the row so
/// far. A guess is tried first.
fn target<M: Moves>(
    alloc: Global,
    moves: &M,
    table: &mut Interner,
    followers: &[u32],
    row: &[u32],
    guess: u32,
    byte: u8,
    limit: u32,
) -> Result<u32, ExploreError>
    requires finds { Finds (look_kept table.old) (kept_in table.old.keys.items) }
    requires ascending { Ascending followers.now }
    requires len { length row.now ≡ byte }
    requires row { (b : ℕ) → b < byte
        → At (kept_in table.old.keys.items) (slice_index row.now b) (M.read moves.now followers.now b) }
    ensures finds { OnOk result (Finds (look_kept table.new) (kept_in table.new.keys.items)) }
    ensures place { IfOk result (λ i. At (kept_in table.new.keys.items) i (M.read moves.now followers.now byte)) }
    ensures found { OnOk result (Found (kept_in table.old.keys.items) (M.read moves.now followers.now byte)
        (kept_in table.new.keys.items)) }
    ensures room { OnOk result (length table.old.keys.items ≤ limit → length table.new.keys.items ≤ limit) }
    ensures full { IsErrOf result ExploreError.TooMany
        → Absent (kept_in table.old.keys.items) (M.read moves.now followers.now byte)
        × (limit ≤ length table.old.keys.items) }
{
    let twin = moves.twin(byte);
    if twin < byte {
        return Ok(row[twin as usize]);
    }
    if is_target(moves, &table.keys, followers, byte, guess) {
        return Ok(guess);
    }
    read_target(alloc, moves, table, followers, byte, limit)
}

/// The target of the next byte in the row before, or the dead state where there is none.
fn target_above(next: &[u32]) -> u32 {
    if next.len() < 256 {
        return 0;
    }
    next[next.len() - 256]
}

/// A list of rules as it is kept: the last one again, where both are equal, so that it is kept once.
fn kept_list(
    alloc: Global,
    before: &[Rc<Vec<u32>>],
    list: Vec<u32>,
) -> Result<Rc<Vec<u32>>, AllocError>
    ensures { IfOk result (λ rc. rc.value.items ≡ list.items) }
{
    if let Some(last) = before.last() {
        if last.as_slice() == list.as_slice() {
            return Rc::clone(last);
        }
    }
    Ok(Rc::new(alloc, list)?)
}

/// What a key tells that is kept so.
fn walk_kept<M: Moves>(alloc: Global, moves: &M, kept: &[u32]) -> Result<Walked, AllocError>
    ensures followers { IfOk result (λ w. w.followers.items ≡ M.follow moves.now (unpacked kept.now)) }
    ensures ascending { IfOk result (λ w. Ascending w.followers.items) }
    ensures accepted { IfOk result (λ w. w.accepted.items ≡ M.accept moves.now (unpacked kept.now)) }
{
    if let Some(key) = plain_key(kept) {
        return moves.walk(alloc, key, false);
    }
    let key = unpack_key(alloc, kept)?;
    moves.walk(alloc, &key, is_bits(kept))
}

/// What keys tell, in their order: the rules that each accepts, and whether something follows it.
#[derive(Drop)]
struct Told {
    accepts: Vec<Rc<Vec<u32>>>,
    goes_on: Vec<bool>,
}

impl Told {
    /// Adds what a key tells, as it is kept. Answers what follows it.
    fn add<M: Moves>(
        &mut self,
        alloc: Global,
        moves: &M,
        kept: &[u32],
    ) -> Result<Following, AllocError>
        ensures followers { IfOk result (λ f. f.list.items ≡ M.follow moves.now (unpacked kept.now)) }
        ensures ascending { IfOk result (λ f. Ascending f.list.items) }
        ensures changes { IfOk result (λ f. Changes (M.read moves.now) f.list.items f.changes) }
        ensures accepts { OnOk result (keys_in self.new.accepts.items
            ≡ keys_in self.old.accepts.items ++ M.accept moves.now (unpacked kept.now) ∷ []) }
        ensures goes_on { OnOk result (self.new.goes_on.items
            ≡ self.old.goes_on.items ++ goes_by (M.follow moves.now) (unpacked kept.now) ∷ []) }
    {
        let walked = walk_kept(alloc, moves, kept)?;
        let accepted = kept_list(alloc, &self.accepts, walked.accepted)?;
        self.accepts.push(accepted)?;
        self.goes_on.push(!walked.followers.is_empty())?;
        Ok(Following {
            changes: moves.changes(&walked.followers),
            list: walked.followers,
        })
    }
}

/// The keys that are reached, as they are kept, 256 moves for each, the rules that each accepts, and whether something
/// follows it.
#[derive(Drop)]
pub(crate) struct Explored {
    pub keys: Vec<KeptKey>,
    pub next: Vec<u32>,
    pub accepts: Vec<Rc<Vec<u32>>>,
    pub goes_on: Vec<bool>,
}

/// All that is reached from the roots, which stand in the table. It is refused only where there are more keys than the
/// limit. A target is repeated up to the next byte that may be read otherwise.
pub(crate) fn explore<M: Moves>(
    alloc: Global,
    moves: &M,
    roots: Interner,
    limit: u32,
) -> Result<Explored, ExploreError>
    requires finds { Finds (look_kept roots) (kept_in roots.keys.items) }
    requires room { length roots.keys.items ≤ limit }
    ensures ok { IfOk result (λ t. IsExplored (step_by (M.follow moves.now) (M.read moves.now))
        (kept_in roots.keys.items) (kept_in t.keys.items) t.next.items) }
    ensures room { IfOk result (λ t. length t.keys.items ≤ limit) }
    ensures accepts { IfOk result (λ t. AreImages [] (M.accept moves.now) (kept_in t.keys.items)
        (keys_in t.accepts.items)) }
    ensures goes_on { IfOk result (λ t. GoOn (M.follow moves.now) (kept_in t.keys.items) t.goes_on.items) }
    ensures too_many { IsErrOf result ExploreError.TooMany
        → MoreThan limit (Reached (step_by (M.follow moves.now) (M.read moves.now)) (kept_in roots.keys.items)) }
{
    let mut table = roots;
    let mut next: Vec<u32> = Vec::with_capacity(alloc, ROOM)?;
    let mut told = Told {
        accepts: Vec::new(alloc),
        goes_on: Vec::new(alloc),
    };
    let mut following = Following {
        list: Vec::new(alloc),
        changes: ByteSet::empty(),
    };
    'work: while next.len() / 256 < table.keys.len() {
        let at = next.len() / 256;
        let byte = (next.len() % 256) as u8;
        if byte == 0 {
            following = told.add(alloc, moves, &table.keys[at].key)?;
        }
        let row = &next[at * 256..];
        let guess = target_above(&next);
        let place = target(
            alloc,
            moves,
            &mut table,
            &following.list,
            row,
            guess,
            byte,
            limit,
        )?;
        let end = following.changes.first_after(byte);
        next.resize(at * 256 + end, place)?;
    }
    Ok(Explored {
        keys: table.keys,
        next,
        accepts: told.accepts,
        goes_on: told.goes_on,
    })
}
