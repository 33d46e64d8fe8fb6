//! Laws over the definitions.
ghost use Rattle.std.specs.Prelude.{◌≡◌, ℕ, ◌+◌, Bool, List, Option};
ghost use Rattle.lex_semantics.specs.Positions.{MarkedByte, Reads, positions};
ghost use Rattle.lex_semantics.specs.Tree.{Tree};
ghost use Rattle.lexre.specs.Cutting.{IsCutting};
ghost use Rattle.lexre.specs.CuttingExamples.{Ends, Slashes, Dollars, NoCuttings};
ghost use Rattle.lexre.specs.Definitions.{Definitions};
ghost use Rattle.lexre.specs.FaultExamples.{NoFault, OneFault, TwoFaults};
ghost use Rattle.lexre.specs.PatternExamples.{Items, Classes, ClassNames, Escapes, Folded, Joined, Operators};
ghost use Rattle.lexre.specs.PatternExamples.{OverItems, OverSeries, Named, Bounds, Refused, RefusedItems};
ghost use Rattle.lexre.specs.Readings.{UsesFrom};
ghost use Rattle.lexre.specs.Spelling.{Spells};
ghost use Rattle.lexre.specs.declared.options.ReadOptions.{ReadOptions};

/// A reading uses positions from its base on, and no more of them than the tree has.
pub fn readings_use_own_positions()
    ensures { (t : Tree) (base : ℕ) (rs : List MarkedByte) → Reads t base rs → UsesFrom base (base + positions t) rs }
{}

/// A text spells at most one tree, however patterns are read.
pub fn one_tree()
    ensures { (options : ReadOptions) (definitions : Definitions) (text : List ℕ) (t u : Tree)
        → Spells options definitions text t → Spells options definitions text u → t ≡ u }
{}

/// A text has at most one cutting.
pub fn one_cutting()
    ensures { (text : List ℕ) (end end' : ℕ) (first first' : Option ℕ) (two two' special special' : Bool)
        → IsCutting text end first two special → IsCutting text end' first' two' special'
        → (end ≡ end') × (first ≡ first') × (two ≡ two') × (special ≡ special') }
{}

/// Worked examples of texts without a cutting, each with its first fault and its offset, and of texts without a fault.
pub fn examples_of_cutting_faults()
    ensures one_fault { OneFault }
    ensures two_faults { TwoFaults }
    ensures no_fault { NoFault }
{}

/// Worked examples of patterns: each kind of item, classes and escapes, letters for both cases, series and choices,
/// operators, intervals over items and over series, a name, the bounds, and texts that spell no tree.
pub fn examples_of_patterns()
    ensures items { Items }
    ensures classes { Classes }
    ensures class_names { ClassNames }
    ensures escapes { Escapes }
    ensures folded { Folded }
    ensures joined { Joined }
    ensures operators { Operators }
    ensures over_items { OverItems }
    ensures over_series { OverSeries }
    ensures named { Named }
    ensures bounds { Bounds }
    ensures refused { Refused }
    ensures refused_items { RefusedItems }
{}

/// Worked examples of where a pattern ends: blanks, slashes and a `$` that count and that do not, and texts that have no
/// cutting.
pub fn examples_of_cuttings()
    ensures ends { Ends }
    ensures slashes { Slashes }
    ensures dollars { Dollars }
    ensures none { NoCuttings }
{}
