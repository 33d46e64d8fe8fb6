//! Packed tables with a row of 256 targets for each state, so that a step is one look-up.
ghost use Rattle.std.specs.Prelude.{◌≡◌, ℕ, ◌+◌, ◌*◌, ◌<◌, ◌≤◌, true, false};
ghost use Rattle.std.specs.Prelude.{length, slice_index, slice_get, get_or, Some, None, IfOk};
ghost use Rattle.std.specs.Option.{ForSome};
ghost use Rattle.lex_machine.specs.Glances.{Leads, Gists};
ghost use Rattle.lex_semantics.specs.Limits.{max_states};
ghost use Rattle.lextab_packed.specs.Checks.{IsTable};
ghost use Rattle.lextab_packed.specs.Flats.{as_target, marked_target, kind_of};
ghost use Rattle.lex_machine.specs.Singles.{IsDropped, IsCopied};
ghost use Rattle.lextab_packed.specs.Leaps.{OthersStay};
ghost use Rattle.lextab_packed.specs.Begun.{TellBegun, TellBegun-prop};
ghost use Rattle.lextab_packed.specs.Mores.{TellMore};
ghost use Rattle.lextab_packed.specs.Predecessors.{IsSource};
ghost use Rattle.lextab_packed.specs.Singles.{OthersDrop, AllTellSingles, AllTellSingles-prop, FirstAre};
ghost use Rattle.lextab_packed.specs.Runs.{Stays, IsRun};
ghost use Rattle.lextab_packed.specs.declared.kinds.Kind.{Kind};
ghost use Rattle.lextab_packed.specs.Steps.{step_of};
ghost use Rattle.lextab_packed.specs.Views.{table_of};
ghost use Rattle.lextab_packed.specs.Machines.{table_machine, table_parts, table_states, laws_of, below_of};

use crate::begun::begun_of;
use crate::kinds::{Kind, kinds_of};
use crate::laying::laid_out;
use crate::leaps::{Leavers, leaps_of, pass_over};
use crate::mores::mores_of;
use crate::parts::TableParts;
use crate::passes::going_on_soon;
use crate::predecessors::{Sources, sources_of};
use crate::rows::marked_rows;
use crate::singles::{Most, is_copied, is_dropped, most_of};
use crate::steps::{STOP, STOP_ECHO, STOP_OTHER, STOP_SILENT, mark_rows, marks_of};
use crate::tables::Tables;
use lex_machine::{BegunMore, Cut, EndAction, Gist, Machine, Statement, Way};
use std::alloc::{AllocError, Global};

/// How many bytes of a run are tried one by one.
const NEAR: usize = 16;

/// How many dropped bytes are found one by one.
const NEAR_DROPPED: usize = 4;

/// Packed tables, and 1 KB of marked targets for each state. It is the same machine. No reader takes memory.
#[derive(Drop)]
pub struct Flat {
    pub(crate) tables: Tables,
    rows: Vec<u32>,
    kinds: Vec<Kind>,
    leaps: Vec<Option<Leavers>>,
    most: Vec<Most>,
    sources: Vec<Sources>,
    mores: Vec<bool>,
    begun: Vec<Option<BegunMore>>,
    ghost sizes: { length rows.items ≡ 256 * length tables.parts.rows.items },
    ghost targets: { (s b : ℕ) → s < length tables.parts.rows.items → b < 256
        → slice_index rows.items (256 * s + b) ≡ marked_target tables s b },
    ghost column: { length kinds.items ≡ length tables.parts.rows.items },
    ghost told: { (s : ℕ) → s < length tables.parts.rows.items
        → slice_get kinds.items s ≡ Some (kind_of (table_machine tables) s) },
    ghost leap_column: { length leaps.items ≡ length tables.parts.rows.items },
    ghost leap_told: { (s : ℕ) → s < length tables.parts.rows.items
        → ForSome (get_or leaps.items s None) (λ leavers. OthersStay rows.items (256 * s) leavers) },
    ghost most_column: { length most.items ≡ (table_machine tables).conditions },
    ghost most_told: { AllTellSingles (table_machine tables) rows.items most.items } by { AllTellSingles-prop (table_machine tables)
        rows.items most.items },
    ghost source_column: { length sources.items ≡ length tables.parts.rows.items },
    ghost source_told: { (s b : ℕ) → s < length tables.parts.rows.items → b < 256
        → IsSource sources.items (step_of (table_of tables.parts) s b) s },
    ghost more_column: { length mores.items ≡ length tables.parts.rows.items },
    ghost more_told: { TellMore (table_machine tables) mores.items },
    ghost begun_told: { TellBegun (table_machine tables) begun.items } by { TellBegun-prop (table_machine tables)
        begun.items },
}

impl Flat {
    ghost use Rattle.lextab_packed.specs.FlatViews.{tables_of};

    /// The same machine, by rows.
    pub fn new(alloc: Global, tables: Tables) -> Result<Flat, AllocError>
        ensures machine { IfOk result (λ f. table_machine (tables_of f) ≡ table_machine tables) }
        ensures states { IfOk result (λ f. table_states (tables_of f) ≡ table_states tables) }
    {
        Flat::of_tables(alloc, tables)
    }

    /// The same of the parts of tables. Which states go on is found in passes over the parts, where few are enough.
    pub fn of_parts(alloc: Global, parts: TableParts) -> Result<Flat, AllocError>
        requires { IsTable (table_of parts) }
        ensures { IfOk result (λ f. table_parts (tables_of f) ≡ parts) }
    {
        match going_on_soon(alloc, &parts)? {
            Some(goes_on) => Flat::of_tables(alloc, Tables::new(parts, goes_on)),
            None => {
                let (tables, rows) = laid_out(alloc, parts)?;
                Flat::of_rows(alloc, tables, rows)
            }
        }
    }

    /// The tables with their rows, which are laid out with their marks.
    fn of_tables(alloc: Global, tables: Tables) -> Result<Flat, AllocError>
        ensures { IfOk result (λ f. tables_of f ≡ tables) }
    {
        let kinds = kinds_of(alloc, &tables)?;
        let marks = marks_of(alloc, &tables, &kinds)?;
        let rows = marked_rows(alloc, &tables.parts, &marks)?;
        Flat::of_marked(alloc, tables, kinds, rows)
    }

    /// The same by rows that were laid out before: the state after each byte, 256 to a state.
    pub fn of_rows(alloc: Global, tables: Tables, rows: Vec<u32>) -> Result<Flat, AllocError>
        requires len { length rows.items ≡ 256 * length (table_parts tables).rows.items }
        requires steps { (s b : ℕ) → s < length (table_parts tables).rows.items → b < 256
            → slice_index rows.items (256 * s + b) ≡ step_of (table_of (table_parts tables)) s b }
        ensures { IfOk result (λ f. tables_of f ≡ tables) }
    {
        let kinds = kinds_of(alloc, &tables)?;
        let mut rows = rows;
        mark_rows(alloc, &tables, &kinds, &mut rows)?;
        Flat::of_marked(alloc, tables, kinds, rows)
    }

    /// The same by rows of marked targets, and what is known of each state's first rule.
    fn of_marked(
        alloc: Global,
        tables: Tables,
        kinds: Vec<Kind>,
        rows: Vec<u32>,
    ) -> Result<Flat, AllocError>
        requires len { length rows.items ≡ 256 * table_states tables }
        requires marked { (s b : ℕ) → s < table_states tables → b < 256
            → slice_index rows.items (256 * s + b) ≡ marked_target tables s b }
        requires column { length kinds.items ≡ table_states tables }
        requires told { (s : ℕ) → s < table_states tables
            → slice_get kinds.items s ≡ Some (kind_of (table_machine tables) s) }
        ensures { IfOk result (λ f. tables_of f ≡ tables) }
    {
        let leaps = leaps_of(alloc, &rows, kinds.len())?;
        let most = most_of(alloc, &tables, &rows)?;
        let sources = sources_of(alloc, &tables.parts)?;
        let mores = mores_of(alloc, &tables, &kinds)?;
        let begun = begun_of(alloc, &tables, &kinds)?;
        Ok(Flat {
            tables,
            rows,
            kinds,
            leaps,
            most,
            sources,
            mores,
            begun,
        })
    }

    /// The marked state after one byte more, from the state whose row is at this place.
    #[inline(always)]
    fn target(&self, place: usize, byte: u8) -> u32
        requires { (s : ℕ) × (s < table_states self.now.tables) × (place ≡ 256 * s) }
        ensures { (s : ℕ) → place ≡ 256 * s → s < table_states self.now.tables
            → result ≡ marked_target self.now.tables s byte }
    {
        self.rows[place + usize::from(byte)]
    }

    /// The marked states after each byte, from the state whose row is at this place.
    #[inline(always)]
    fn row(&self, place: usize) -> &[u32]
        requires { (s : ℕ) × (s < table_states self.now.tables) × (place ≡ 256 * s) }
        ensures len { length result.now ≡ 256 }
        ensures each { (s : ℕ) → place ≡ 256 * s → s < table_states self.now.tables → (b : ℕ) → b < 256
            → slice_index result.now b ≡ marked_target self.now.tables s b }
    {
        &self.rows[place..place + 256]
    }

    /// The end of the run of bytes, from `start` on, that lead from the state whose row is at this place to itself.
    #[inline(always)]
    fn run_end(&self, place: u32, bytes: &[u8], start: usize) -> usize
        requires place { (s : ℕ) × (s < table_states self.now.tables) × (place ≡ 256 * s) }
        requires start { start ≤ length bytes.now }
        ensures { (s : ℕ) → place ≡ 256 * s → s < table_states self.now.tables
            → IsRun (table_machine self.now.tables) s bytes.now start result }
    {
        let near = start + (bytes.len() - start).min(NEAR);
        let row = self.row(place as usize);
        let mut end = start;
        'run: while end < near && row[usize::from(bytes[end])] == place {
            end += 1;
        }
        if end < near {
            return end;
        }
        self.far_end(place, bytes, end)
    }

    /// The end of some of the bytes of such a run, which are found many at a time where few bytes lead away from the state.
    #[inline(always)]
    fn leap_end(&self, place: u32, bytes: &[u8], start: usize) -> usize
        requires place { (s : ℕ) × (s < table_states self.now.tables) × (place ≡ 256 * s) }
        requires start { start ≤ length bytes.now }
        ensures { (s : ℕ) → place ≡ 256 * s → s < table_states self.now.tables
            → Stays (table_machine self.now.tables) s bytes.now start result }
    {
        match self.leaps[(place / 256) as usize] {
            Some(leavers) => pass_over(leavers, bytes, start),
            None => start,
        }
    }

    /// The same for a run that may be a long one.
    #[inline(never)]
    fn far_end(&self, place: u32, bytes: &[u8], start: usize) -> usize
        requires place { (s : ℕ) × (s < table_states self.now.tables) × (place ≡ 256 * s) }
        requires start { start ≤ length bytes.now }
        ensures { (s : ℕ) → place ≡ 256 * s → s < table_states self.now.tables
            → IsRun (table_machine self.now.tables) s bytes.now start result }
    {
        let mut end = self.leap_end(place, bytes, start);
        'run: while end < bytes.len() && self.target(place as usize, bytes[end]) == place {
            end += 1;
        }
        end
    }

    /// How many of the first bytes are dropped, found many at a time where few bytes are not.
    #[inline(always)]
    fn leap_dropped(&self, first: u32, kept: Option<Leavers>, bytes: &[u8]) -> usize
        requires first { first < table_states self.now.tables }
        requires kept { ForSome kept (λ l. OthersDrop self.now.rows.items (256 * first) l) }
        ensures { FirstAre (IsDropped (table_machine self.now.tables) first) bytes.now result }
    {
        match kept {
            Some(kept) => pass_over(kept, bytes, 0),
            None => 0,
        }
    }

    /// How many of the first bytes are dropped, found one by one, each where a match starts in this state.
    #[inline(always)]
    fn dropped_singly(&self, first: u32, bytes: &[u8]) -> usize
        requires { first < table_states self.now.tables }
        ensures { FirstAre (IsDropped (table_machine self.now.tables) first) bytes.now result }
    {
        let mut count = 0usize;
        'run: while count < bytes.len()
            && is_dropped(self.target(256 * first as usize, bytes[count]))
        {
            count += 1;
        }
        count
    }

    /// The same, found many at a time after the first few.
    #[inline(never)]
    fn first_dropped(&self, first: u32, kept: &Option<Leavers>, bytes: &[u8]) -> usize
        requires first { first < table_states self.now.tables }
        requires kept { ForSome kept.now (λ l. OthersDrop self.now.rows.items (256 * first) l) }
        ensures { FirstAre (IsDropped (table_machine self.now.tables) first) bytes.now result }
    {
        let near = self.dropped_singly(first, &bytes[..bytes.len().min(NEAR_DROPPED)]);
        if near < NEAR_DROPPED {
            return near;
        }
        let far = &bytes[near..];
        let count = self.leap_dropped(first, *kept, far);
        near + count + self.dropped_singly(first, &far[count..])
    }

    /// How many of the first bytes are copied, each where a match starts in this state.
    #[inline(never)]
    fn first_copied(&self, first: u32, bytes: &[u8]) -> usize
        requires { first < table_states self.now.tables }
        ensures { FirstAre (IsCopied (table_machine self.now.tables) first) bytes.now result }
    {
        let mut count = 0usize;
        'run: while count < bytes.len()
            && is_copied(self.target(256 * first as usize, bytes[count]))
        {
            count += 1;
        }
        count
    }

    /// What is told of the state that a marked target is, at which the machine stops.
    #[inline(always)]
    fn gist_at(&self, target: u32) -> Gist<'_>
        requires { (s : ℕ) × (s < table_states self.now.tables)
            × (target ≡ as_target false (kind_of (table_machine self.now.tables) s) s) }
        ensures { (s : ℕ) → s < table_states self.now.tables
            → target ≡ as_target false (kind_of (table_machine self.now.tables) s) s
            → Gists (table_machine self.now.tables) s result }
    {
        if target < STOP_SILENT {
            Gist::NoRule
        } else if target < STOP_ECHO {
            Gist::Silent
        } else if target < STOP_OTHER {
            Gist::Echo
        } else {
            gist_of(&self.tables, self.kinds[(target - STOP_OTHER) as usize])
        }
    }
}

/// The state that a marked target is.
#[inline(always)]
fn state_of(target: u32) -> u32
    ensures goes { (kind : Kind) (s : ℕ) → s ≤ max_states → target ≡ as_target true kind s → result ≡ s }
    ensures stops { (kind : Kind) (s : ℕ) → s ≤ max_states → target ≡ as_target false kind s → result ≡ s }
{
    if target < STOP {
        target / 256
    } else {
        target % 1_048_576
    }
}

impl Machine for Flat {
    ghost use Rattle.lextab_packed.specs.FlatViews.{tables_of};

    ghost machine = { λ f. table_machine (tables_of f) };

    ghost states = { λ f. table_states (tables_of f) };

    ghost laws = { λ f. laws_of (tables_of f) };

    ghost below = { λ f. below_of (tables_of f) };

    /// How many conditions there are.
    fn conditions(&self) -> usize {
        self.tables.conditions()
    }

    /// How many rules there are.
    fn rules(&self) -> usize {
        self.tables.rules()
    }

    /// The state where a match starts in a condition, at the start of a line or not.
    fn start(&self, condition: u8, line_start: bool) -> u32 {
        self.tables.start(condition, line_start)
    }

    /// The state after one byte more, by one look-up in the rows.
    fn step(&self, state: u32, byte: u8) -> u32 {
        state_of(self.target(256 * state as usize, byte))
    }

    /// Whether a longer text may be accepted.
    fn goes_on(&self, state: u32) -> bool {
        self.tables.goes_on[state as usize]
    }

    /// The rules that the state accepts.
    fn accepts(&self, state: u32) -> &[u32] {
        self.tables.accepts(state)
    }

    /// How much of a match of a rule is the text, and what is done.
    fn rule(&self, rule: u32) -> (Cut, &[Statement]) {
        self.tables.rule(rule)
    }

    /// What is done at the end of the input in a condition.
    fn eof(&self, condition: u8) -> &EndAction {
        self.tables.eof(condition)
    }

    /// Whether some rule has REJECT.
    fn rejects(&self) -> bool {
        self.tables.rejects()
    }

    /// Where the bytes lead to from a state, up to the first state that does not go on; None where all of them go on.
    #[inline(always)]
    fn way(&self, first: u32, bytes: &[u8]) -> Option<Way<'_>> {
        let mut place = 256 * first as usize;
        let mut count = 0usize;
        'bytes: while count < bytes.len() {
            let next = self.target(place, bytes[count]);
            if STOP <= next {
                return Some(Way {
                    state: state_of(next),
                    before: (place / 256) as u32,
                    gist: self.gist_at(next),
                    count: count + 1,
                });
            }
            count += 1;
            let before = place;
            place = next as usize;
            if place == before {
                count = self.run_end(next, bytes, count);
            }
        }
        None
    }

    /// The only state that leads to this one by a byte, where it was seen that no other does.
    fn only_before(&self, state: u32) -> Option<u32> {
        match self.sources[state as usize] {
            Sources::Only(source) => Some(source),
            Sources::Unknown | Sources::Several => None,
        }
    }

    /// Whether it was seen that the first rule that the state accepts keeps all of a match, and does yymore alone.
    #[inline(always)]
    fn does_more(&self, state: u32) -> bool {
        self.mores[state as usize]
    }

    /// What the first rule that the state accepts keeps of a match, and the condition that it sets, where it was seen
    /// that it does yymore then, and no more.
    #[inline(always)]
    fn begins_more(&self, state: u32) -> Option<BegunMore> {
        match self.begun.get(state as usize) {
            Some(begun) => *begun,
            None => None,
        }
    }

    /// What is told at a glance of what the first rule does that the state accepts.
    #[inline(always)]
    fn gist(&self, state: u32) -> Gist<'_> {
        gist_of(&self.tables, self.kinds[state as usize])
    }

    /// Whether most bytes of a text are dropped or copied in a condition, each a match by itself.
    #[inline(always)]
    fn has_singles(&self, condition: u8) -> bool {
        match self.most[usize::from(condition)] {
            Most::Other => false,
            Most::Dropped(_, _) | Most::Copied(_) => true,
        }
    }

    /// How many of the first bytes are dropped, where a match of the condition starts, if most are dropped there.
    fn dropped(&self, condition: u8, first: u32, bytes: &[u8]) -> usize {
        match &self.most[usize::from(condition)] {
            Most::Dropped(start, kept) if *start == first => self.first_dropped(first, kept, bytes),
            _ => 0,
        }
    }

    /// How many of the first bytes are copied, where a match of the condition starts, if most are copied there.
    fn copied(&self, condition: u8, first: u32, bytes: &[u8]) -> usize {
        match self.most[usize::from(condition)] {
            Most::Copied(start) if start == first => self.first_copied(first, bytes),
            _ => 0,
        }
    }
}

/// What this tells of a state's first rule.
#[inline(always)]
fn gist_of(tables: &Tables, kind: Kind) -> Gist<'_>
    requires { (s : ℕ) × (kind ≡ kind_of (table_machine tables.now) s) }
    ensures { (s : ℕ) → kind ≡ kind_of (table_machine tables.now) s → Gists (table_machine tables.now) s result }
{
    match kind {
        Kind::Any => Gist::Any,
        Kind::NoRule => Gist::NoRule,
        Kind::Silent => Gist::Silent,
        Kind::Echo => Gist::Echo,
        Kind::Begin(condition) => Gist::Begin(condition),
        Kind::Print(rule) => match tables.rule(rule).1.first() {
            Some(Statement::Print(bytes)) => Gist::Print(bytes.as_slice()),
            _ => Gist::Any,
        },
        Kind::Several(rule) => Gist::Several(tables.rule(rule).1),
    }
}
