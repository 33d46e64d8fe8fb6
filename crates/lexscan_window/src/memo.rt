//! What is known of walks over bytes that are held: Reps's table of pairs of a state and a place that lead to no
//! match, kept for some places alone, and beside it where the others lead. (Reps, Maximal-munch tokenization in linear
//! time, 1998.)
ghost use Rattle.std.specs.Prelude.{◌≡◌, ℕ, ◌+◌, ◌-◌, ◌<◌, ◌≤◌, [], length, ◌⊎◌, true, IfSome};
ghost use Rattle.lex_semantics.specs.Text.{Among};
ghost use Rattle.lexscan_window.specs.Memos.{silent, unmarked};

use crate::cell::Cell;
use crate::known_walk::KnownWalk;
use std::alloc::Global;
use std::marker::Model;

/// A place of the source and a state: a walk from the state over the bytes from the place on goes over so many of them
/// to a last state, over the one before it, and from there on it leads to no match.
#[derive(Clone, Copy)]
pub struct Mark {
    pub place: u64,
    pub state: u32,
    pub count: usize,
    pub last: u32,
    pub before: u32,
}

impl Mark {
    /// A walk from the state leads to no match.
    fn silent(place: u64, state: u32) -> Mark
        ensures { result ≡ silent place state }
    {
        Mark {
            place,
            state,
            count: 0,
            last: state,
            before: state,
        }
    }
}

/// How many bytes of the source there are for each cell.
const BYTES_PER_CELL: usize = 16;

/// How many cells of a row are looked at for a state at most.
const MOST_PROBES: usize = 8;

/// How many cells there are at most for as many bytes, where many walks lead to no match and none to one.
const MOST_CELLS: usize = 4;

/// Marks at each place that is a multiple of the stride, in a table with a row of cells for each such place, used
/// over and over as the scan goes on. The cells of a row stand `rows` apart. Where a row is full the rows of the next
/// table are twice as long, in more memory at first, and then there are half as many. Walks that lead to a match have a
/// table of the same shape, once there was one. There is room for the places of `fitting` bytes, this one not counted.
#[derive(Drop)]
pub struct Memo {
    cells: Vec<Cell>,
    walks: Vec<KnownWalk>,
    rows: usize,
    ways: usize,
    stride: usize,
    fitting: usize,
    crowded: bool,
    wants_walks: bool,
}

impl Model for Memo {
    ghost use Rattle.std.specs.Prelude.{◌<◌, ◌++◌, List};
    ghost use Rattle.std.specs.List.{flat_map};
    ghost use Rattle.lexscan_window.specs.Memos.{marks_of, walk_of};
    ghost use Rattle.lexscan_window.specs.declared.memo.Mark.{Mark};

    ghost Value = { List Mark };

    ghost view = { λ m. flat_map marks_of m.cells.items ++ flat_map walk_of m.walks.items };

    ghost invariant = { λ m. (0 < m.rows) × (0 < m.ways) × (0 < m.stride) };
}

/// The cells of a place: the first of them, how far apart they stand, and how many there are, a power of two.
#[derive(Clone, Copy)]
struct Row {
    first: usize,
    apart: usize,
    ways: usize,
    ghost some: { 0 < ways },
}

impl Row {
    /// How many of its cells are looked at for a state.
    fn probes(self) -> usize {
        self.ways.min(MOST_PROBES)
    }

    /// Which cell is looked at for a state, the first time or a later one. So a long row is not gone through.
    fn cell(self, state: u32, probe: usize) -> usize {
        let way = (state as usize).wrapping_add(probe) & (self.ways - 1);
        self.first.saturating_add(way.saturating_mul(self.apart))
    }
}

/// Which of the cells of a row has this state at this place, or room for it.
fn slot(cells: &[Cell], row: Row, place: u64, state: u16) -> Option<usize>
    ensures { IfSome result (λ at. at < length cells.now) }
{
    let probes = row.probes();
    let mut probe = 0usize;
    'probes: while probe < probes {
        let at = row.cell(u32::from(state), probe);
        if at < cells.len() {
            let cell = cells[at];
            if !cell.is_at(place) || cell.has_room() || cell.has(u32::from(state)) {
                return Some(at);
            }
        }
        probe += 1;
    }
    None
}

/// Which of the walks of a row is from this state at this place, or free.
fn walk_slot(walks: &[KnownWalk], row: Row, mark: Mark) -> Option<usize>
    ensures { IfSome result (λ at. at < length walks.now) }
{
    let probes = row.probes();
    let mut probe = 0usize;
    'probes: while probe < probes {
        let at = row.cell(mark.state, probe);
        if at < walks.len() && walks[at].is_free_for(mark) {
            return Some(at);
        }
        probe += 1;
    }
    None
}

impl Memo {
    /// No marks, and no memory.
    pub fn new(alloc: Global) -> Memo
        ensures { result ≡ [] }
    {
        Memo {
            cells: Vec::new(alloc),
            walks: Vec::new(alloc),
            rows: 1,
            ways: 1,
            stride: BYTES_PER_CELL,
            fitting: 0,
            crowded: false,
            wants_walks: false,
        }
    }

    /// Drops all marks, and gives the memory back.
    pub fn clear(&mut self)
        ensures { self.new ≡ [] }
    {
        self.cells.clear();
        self.cells.shrink_to_fit();
        self.walks.clear();
        self.walks.shrink_to_fit();
        self.rows = 1;
        self.ways = 1;
        self.stride = BYTES_PER_CELL;
        self.fitting = 0;
        self.crowded = false;
        self.wants_walks = false;
    }

    /// Makes room for the places of this many bytes, where memory is given.
    #[inline(always)]
    pub fn fit(&mut self, bytes: usize)
        ensures { (m : Mark) → Among self.new m → Among self.old m ⊎ (m ≡ unmarked) }
    {
        let lacks_walks = self.wants_walks && self.walks.is_empty();
        if self.fitting <= bytes || self.crowded || lacks_walks {
            self.make_room(bytes);
        }
    }

    /// The same where there are too few cells, a row was full, or walks have no table.
    #[cold]
    #[inline(never)]
    fn make_room(&mut self, bytes: usize)
        ensures { (m : Mark) → Among self.new m → Among self.old m ⊎ (m ≡ unmarked) }
    {
        let wanted = (bytes / BYTES_PER_CELL + 1).saturating_mul(self.density());
        let size = self.cells.len();
        if size < wanted {
            self.lay_out(wanted.saturating_add(wanted / 2));
        } else if self.crowded && 1 < self.rows {
            self.make_rows_longer(size);
        } else if self.wants_walks && self.walks.is_empty() {
            self.add_walks(size);
        }
    }

    /// How many cells there are for so many bytes as have one at first. The stride is a power of two.
    fn density(&self) -> usize
        ensures { 0 < result }
    {
        let cells = self.ways.saturating_mul(BYTES_PER_CELL);
        cells.wrapping_shr(self.stride.trailing_zeros()).max(1)
    }

    /// A table without marks that has room for twice as many states at a place: in more memory, or at half as many
    /// places. The longer the stride is, the more bytes a walk goes over before it comes to a mark.
    fn make_rows_longer(&mut self, size: usize)
        ensures { (m : Mark) → Among self.new m → m ≡ unmarked }
    {
        self.ways = self.ways.saturating_mul(2);
        if !self.wants_walks && self.density() <= MOST_CELLS {
            self.lay_out(size.saturating_mul(2));
            return;
        }
        self.stride = self.stride.saturating_mul(2);
        self.lay_out(size);
    }

    /// Makes room for walks that lead to a match, which take more memory than the others. So there are fewer places
    /// where these took more.
    fn add_walks(&mut self, size: usize)
        ensures { (m : Mark) → Among self.new m → Among self.old m ⊎ (m ≡ unmarked) }
    {
        let density = self.density();
        if density == 1 {
            self.lay_out_walks(size);
            return;
        }
        self.stride = self.stride.saturating_mul(density);
        self.cells.clear();
        self.cells.shrink_to_fit();
        self.lay_out(size / density);
    }

    /// A table without marks, of this size, or none where memory is refused.
    fn lay_out(&mut self, size: usize)
        ensures { (m : Mark) → Among self.new m → m ≡ unmarked }
    {
        self.walks.clear();
        self.cells.clear();
        let dead = Cell::new(0, 0);
        let _ = self.cells.resize(size, dead);
        self.rows = (size / self.ways).max(1);
        self.fitting = (self.cells.len() / self.density()).saturating_mul(BYTES_PER_CELL);
        self.crowded = false;
        let walks = if self.wants_walks { size } else { 0 };
        self.lay_out_walks(walks);
    }

    /// The same of the walks that lead to a match. The others stay.
    fn lay_out_walks(&mut self, size: usize)
        ensures { (m : Mark) → Among self.new m → Among self.old m }
    {
        self.walks.clear();
        let _ = self.walks.resize(size, KnownWalk::none());
    }

    /// How many bytes there are from one place that is marked to the next.
    pub fn stride(&self) -> usize
        ensures { 0 < result }
    {
        self.stride
    }

    /// How many bytes there are from a place to the next one that is marked.
    pub fn ahead(&self, place: u64) -> usize {
        let past = place & (self.stride as u64 - 1);
        self.stride.saturating_sub(past as usize)
    }

    /// The row of a place.
    #[inline(always)]
    fn row(&self, place: u64) -> Row {
        Row {
            first: (place.wrapping_shr(self.stride.trailing_zeros()) % self.rows as u64) as usize,
            apart: self.rows,
            ways: self.ways,
        }
    }

    /// Whether it is marked in a row that a walk from the state leads to no match.
    #[inline(always)]
    fn has(&self, row: Row, place: u64, state: u32) -> bool
        ensures { result ≡ true → Among self.now (silent place state) }
    {
        let probes = row.probes();
        let mut probe = 0usize;
        'probes: while probe < probes {
            let at = row.cell(state, probe);
            if at < self.cells.len() {
                let cell = self.cells[at];
                if cell.is_at(place) && cell.has(state) {
                    return true;
                }
            }
            probe += 1;
        }
        false
    }

    /// The mark in a row of a walk from the state that leads to a match.
    #[inline(never)]
    fn walk(&self, row: Row, place: u64, state: u32) -> Option<Mark>
        ensures { IfSome result (λ m. Among self.now m × (m.place ≡ place) × (m.state ≡ state)) }
    {
        let probes = if self.walks.is_empty() {
            0
        } else {
            row.probes()
        };
        let mut probe = 0usize;
        'probes: while probe < probes {
            let at = row.cell(state, probe);
            if at < self.walks.len() {
                if let Some(mark) = self.walks[at].mark() {
                    if mark.place == place && mark.state == state {
                        return Some(mark);
                    }
                }
            }
            probe += 1;
        }
        None
    }

    /// The mark of this state at this place.
    #[inline(always)]
    pub fn find(&self, place: u64, state: u32) -> Option<Mark>
        ensures { IfSome result (λ m. Among self.now m × (m.place ≡ place) × (m.state ≡ state)) }
    {
        let row = self.row(place);
        if self.has(row, place, state) {
            return Some(Mark::silent(place, state));
        }
        self.walk(row, place, state)
    }

    /// Puts into the row of its place, where there is room, that a walk from the state leads to no match.
    pub fn put_silent(&mut self, place: u64, state: u32)
        ensures { (m : Mark) → Among self.new m → Among self.old m ⊎ (m ≡ silent place state) }
    {
        // No specification makes a greater state, and a mark that is lost costs time alone.
        let Ok(state) = u16::try_from(state) else {
            return;
        };
        match slot(&self.cells, self.row(place), place, state) {
            Some(at) => self.cells[at] = self.cells[at].marked(place, state),
            None => self.crowded = true,
        }
    }

    /// Puts into the row of its place, where there is room, a walk that leads to a match.
    pub fn put_walk(&mut self, mark: Mark)
        ensures { (m : Mark) → Among self.new m → Among self.old m ⊎ (m ≡ mark) }
    {
        let Some(walk) = KnownWalk::of(mark) else {
            return;
        };
        // There is room for them from the next match on.
        self.wants_walks = true;
        if self.walks.is_empty() {
            return;
        }
        match walk_slot(&self.walks, self.row(mark.place), mark) {
            Some(at) => self.walks[at] = walk,
            None => self.crowded = true,
        }
    }
}
