//! How the states of a specification's automaton lead to one another: by the positions of its rules.
ghost use Rattle.std.specs.Prelude.{◌≡◌, ◌-◌, ◌<◌, ◌≤◌, ◌^◌, ℕ, Bool, List, false, length, map, slice_index_or};
ghost use Rattle.std.specs.Prelude.{IfOk};
ghost use Rattle.lex_semantics.specs.ByteSets.{has, empty_set};
ghost use Rattle.lex_semantics.specs.Spec.{rejects};
ghost use Rattle.lex_semantics.specs.Subsets.{all_positions};
ghost use Rattle.lexspec.specs.Views.{spec_of, rules_in};
ghost use Rattle.lexauto.specs.Facts.{accepted_by};
ghost use Rattle.lexauto_positions.specs.Laid.{shape_of, HaveSized, HaveSized-prop};
ghost use Rattle.lexauto_positions.specs.Owners.{AreOwners};
ghost use Rattle.lexauto_positions.specs.RuleFlow.{rules_enter, rules_left, rules_read};
ghost use Rattle.lexauto.specs.Sets.{marked_by};
ghost use Rattle.lexauto.specs.Moving.{AreChangesBy, AreKindsBy, place_at, followers_in, reading_in};

use crate::alphabet::alphabet_of;
use crate::changing::changes_of;
use crate::explore::Moves;
use crate::following::walk;
use crate::key_packing::{keeps_marked, pack_marked};
use crate::kinds::{Kind, Kinds, kinds_of};
use lexauto_positions::{LaidRule, Owner, Walked, lay_rules, letters_of, owners_of};
use lexre_bytes::ByteSet;
use lexspec::Spec;
use std::alloc::{AllocError, Global};

/// A specification, the count of its positions, and which bytes each of them reads.
#[derive(Drop)]
pub(crate) struct RuleMoves<'a> {
    pub spec: &'a Spec,
    pub count: usize,
    pub rules: Vec<LaidRule>,
    pub owners: Vec<Owner>,
    /// Whether some rule has REJECT, so that a state accepts all rules that fit.
    pub accepts_all: bool,
    /// For each position the place of its letter.
    places: Vec<usize>,
    /// The kinds of bytes, with the letters that have them.
    kinds: Kinds,
    /// For each letter the bytes of which it has just one, that or the byte before.
    changes: Vec<ByteSet>,
    ghost within: { all_positions (rules_in (spec_of spec.now)) ≡ count },
    ghost sized: { HaveSized rules.items } by { HaveSized-prop rules.items },
    ghost number: { length rules.items ≡ length (rules_in (spec_of spec.now)) },
    ghost size: { all_positions (map shape_of rules.items) ≡ count },
    ghost next: { (on last : ℕ → Bool) (q : ℕ) → rules_enter (map shape_of rules.items) on last q 0 0
        ≡ rules_enter (rules_in (spec_of spec.now)) on last q 0 0 },
    ghost left: { (last : ℕ → Bool) → rules_left (map shape_of rules.items) last 0 0
        ≡ rules_left (rules_in (spec_of spec.now)) last 0 0 },
    ghost few: { count < 2 ^ 32 },
    ghost whole: { accepts_all ≡ rejects (spec_of spec.now) },
    ghost owned: { length owners.items ≡ count },
    ghost owners_are: { AreOwners (map shape_of rules.items) owners.items },
    ghost all: { length kinds.places.items ≡ 256 },
    ghost each: { AreKindsBy (λ b q. rules_read (rules_in (spec_of spec.now)) b q 0) places.items kinds.kinds.items
        kinds.places.items },
    ghost changing: { AreChangesBy (λ b q. rules_read (rules_in (spec_of spec.now)) b q 0) places.items changes.items },
}

impl<'a> RuleMoves<'a> {
    /// The moves of a specification that has this many positions.
    pub(crate) fn new(
        alloc: Global,
        spec: &'a Spec,
        count: usize,
    ) -> Result<RuleMoves<'a>, AllocError>
        requires within { all_positions (rules_in (spec_of spec.now)) ≡ count }
        requires few { count < 2 ^ 32 }
        ensures { IfOk result (λ m. (m.spec.now ≡ spec.now) × (m.count ≡ count)) }
    {
        let rules = lay_rules(alloc, spec.rules())?;
        let owners = owners_of(alloc, &rules)?;
        let read = letters_of(alloc, &rules)?;
        let alphabet = alphabet_of(alloc, &read)?;
        let changes = changes_of(alloc, &alphabet.letters)?;
        let kinds = kinds_of(alloc, &alphabet.letters, &changes)?;
        Ok(RuleMoves {
            spec,
            count,
            rules,
            owners,
            accepts_all: spec.rejects(),
            places: alphabet.places,
            kinds,
            changes,
        })
    }
}

impl RuleMoves<'_> {
    /// The place of a position's letter, and the end of the letters for another number.
    fn place(&self, position: usize) -> usize
        ensures { result ≡ place_at self.now.places.items (length self.now.changes.items) position }
    {
        self.places
            .get(position)
            .copied()
            .unwrap_or(self.changes.len())
    }

    /// The kind of a byte.
    fn kind(&self, byte: u8) -> &Kind
        ensures first { result.now.first ≤ byte }
        ensures same { (q : ℕ) → rules_read (rules_in (spec_of self.now.spec.now)) result.now.first q 0
            ≡ rules_read (rules_in (spec_of self.now.spec.now)) byte q 0 }
        ensures marks { (q : ℕ) → marked_by self.now.places.items result.now.marks.items q
            ≡ rules_read (rules_in (spec_of self.now.spec.now)) byte q 0 }
    {
        &self.kinds.kinds[self.kinds.places[byte as usize] as usize]
    }

    /// The set, and with it the changes of the letter at a place.
    fn with_changes(&self, place: usize, changes: ByteSet) -> ByteSet
        ensures { (b : ℕ) → b < 256 → has result b ≡ false → (has changes b ≡ false)
            × (has (slice_index_or self.now.changes.items place empty_set) b ≡ false) }
    {
        match self.changes.get(place) {
            Some(bytes) => changes.union(bytes),
            None => changes,
        }
    }
}

impl Moves for RuleMoves<'_> {
    ghost follow = { λ m k. followers_in (rules_in (spec_of m.spec.now)) m.count k };

    ghost accept = { λ m k. accepted_by (spec_of m.spec.now) k };

    ghost read = { λ m k b. reading_in (rules_in (spec_of m.spec.now)) k b };

    /// What follows a key, and the rules that it accepts: by a walk over the trees of the rules.
    fn walk(&self, alloc: Global, key: &[u32], ascends: bool) -> Result<Walked, AllocError> {
        let walked = walk(alloc, self, key, ascends)?;
        Ok(walked)
    }

    /// The key of those followers that read the byte, as it is kept.
    fn reading(&self, alloc: Global, followers: &[u32], byte: u8) -> Result<Vec<u32>, AllocError> {
        pack_marked(alloc, followers, &self.places, &self.kind(byte).marks)
    }

    /// The bytes at which what one of the followers reads changes, united.
    fn changes(&self, followers: &[u32]) -> ByteSet {
        let mut changes = ByteSet::empty();
        let mut last = self.changes.len();
        for position in followers {
            let place = self.place(*position as usize);
            if place != last {
                changes = self.with_changes(place, changes);
                last = place;
            }
        }
        changes
    }

    /// Whether a key that is kept as it is has just those of the followers that read the byte.
    fn is_reading(&self, kept: &[u32], followers: &[u32], byte: u8) -> bool {
        keeps_marked(kept, followers, &self.places, &self.kind(byte).marks)
    }

    /// The first byte that the same positions read.
    fn twin(&self, byte: u8) -> u8 {
        self.kind(byte).first
    }
}
