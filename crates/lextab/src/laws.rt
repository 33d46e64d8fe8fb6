//! Laws over the definitions.
ghost use Rattle.std.specs.Prelude.{◌≡◌, ℕ, ◌<◌, length};
ghost use Rattle.lextab_packed.specs.Table.{Table};
ghost use Rattle.lextab_packed.specs.Steps.{step_of};
ghost use Rattle.lextab.specs.Packing.{IsPacked};
ghost use Rattle.lextab.specs.Columns.{packing_in, packed_step, HasRanges};
ghost use Rattle.lextab.specs.PackingExamples.{TwiceA};

/// An automaton has at most one packing.
pub fn one_packing()
    ensures { (n : ℕ) (go : ℕ → ℕ → ℕ) (t u : Table) → IsPacked n go t → IsPacked n go u → packing_in t ≡ packing_in u }
{}

/// A packed table goes as the automaton does.
pub fn packed_step_is()
    ensures { (n : ℕ) (go : ℕ → ℕ → ℕ) (t : Table) → IsPacked n go t → ((b : ℕ) → b < 256 → go 0 b ≡ 0)
        → (s b : ℕ) → s < n → b < 256 → step_of t s b ≡ go s b }
{}

/// A packing keeps the limits of tables.
pub fn packing_has_ranges()
    ensures { (n : ℕ) (go : ℕ → ℕ → ℕ) (t : Table) → IsPacked n go t → 0 < n → ((b : ℕ) → b < 256 → go 0 b ≡ 0)
        → ((s b : ℕ) → s < n → b < 256 → go s b < n) → HasRanges n (packing_in t) }
{}

/// Automata that go alike from their states have the same packing.
pub fn packing_of_same_moves()
    ensures { (n : ℕ) (go ho : ℕ → ℕ → ℕ) (t : Table) → ((s b : ℕ) → s < n → b < 256 → go s b ≡ ho s b)
        → IsPacked n go t → IsPacked n ho t }
{}

/// A table goes as what it has of a packing does.
pub fn tables_step_as_packed()
    ensures { (t : Table) (s b : ℕ) → s < length t.rows → b < 256 → step_of t s b ≡ packed_step (packing_in t) s b }
{}

/// A worked example: the packing of an automaton of four states, of which two have an entry each.
pub fn examples_of_packings()
    ensures { TwiceA }
{}
