//! Words of trees and their readings.

ghost use Rattle.std.specs.Prelude.{ℕ, List, ◌↔◌};
ghost use Rattle.lex_semantics.specs.Tree.{Tree, In};
ghost use Rattle.lex_semantics.specs.Positions.{Reads, ReadsWord};
ghost use Rattle.lex_semantics.specs.Spec.{Spec};
ghost use Rattle.lex_semantics.specs.Subsets.{HasSubsets};

/// A word is in the language of a tree exactly if it has a reading, wherever the positions begin.
pub fn word_readings()
    ensures { (t : Tree) (base : ℕ) (w : List ℕ) → In t w ↔ ReadsWord (Reads t base) w }
{}

/// A specification never has no count of subsets. (Which words leave which positions is found by building an automaton;
/// so here no count is told.)
pub fn never_no_count()
    ensures { (S : Spec) → ((n : ℕ) → HasSubsets S n → ⊥) → ⊥ }
{}
