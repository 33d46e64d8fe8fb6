//! Laws of position automata: what they read, and how the last positions of a specification move.
ghost use Rattle.std.specs.Prelude.{◌≡◌, ◌≢◌, ◌↔◌, ◌<◌, ◌⊎◌, ℕ, Bool, true, List, [], ◌∷◌, ◌++◌};
ghost use Rattle.lex_semantics.specs.Tree.{Tree};
ghost use Rattle.lex_semantics.specs.Positions.{MarkedByte, Reads, ReadsWord};
ghost use Rattle.lex_semantics.specs.Spec.{Spec, Rule};
ghost use Rattle.lex_semantics.specs.Rules.{Live};
ghost use Rattle.lex_semantics.specs.Reports.{HasFit};
ghost use Rattle.lex_semantics.specs.Sound.{IsSound};
ghost use Rattle.lex_semantics.specs.Subsets.{IsLast, ReadsActive};
ghost use Rattle.lexauto_positions.specs.PositionAutomaton.{quad, Whole};
ghost use Rattle.lexauto_positions.specs.PositionExamples.{CountsPositions, ReadsBytes, CountsSubsets};
ghost use Rattle.lexauto_positions.specs.Flow.{exits, enters};
ghost use Rattle.lexauto_positions.specs.Flows.{Exits, Enters};
ghost use Rattle.lexauto_positions.specs.RuleAutomaton.{active_automaton, automaton, active_quad, rule_quad, every};
ghost use Rattle.lexauto_positions.specs.RuleFlow.{rules_enter, rules_read, rule_exits};

/// The position automaton of a tree reads just what the tree reads, by the same positions.
pub fn position_automaton()
    ensures { (t : Tree) (base : ℕ) (rs : List MarkedByte) → Whole (quad t base) rs ↔ Reads t base rs }
{}

/// A word has a reading of an active rule exactly if it fits a rule.
pub fn words_that_fit()
    ensures { (S : Spec) (c : ℕ) (line_start : Bool) (w : List ℕ)
        → ReadsWord (ReadsActive S c line_start) w ↔ ((i : ℕ) × HasFit S c line_start w i) }
{}

/// The positions that a byte leaves are the first ones of the active rules that read it.
pub fn first_positions()
    ensures { (S : Spec) → IsSound S → (c : ℕ) (line_start : Bool) (b q : ℕ) →
        IsLast (ReadsActive S c line_start) (b ∷ []) q
        ↔ ((active_automaton S c line_start).first q × (active_automaton S c line_start).letter (b, q)) }
{}

/// The positions that one byte more leaves are those that follow, of all rules, and read it.
pub fn next_positions()
    ensures { (S : Spec) → IsSound S → (c : ℕ) (line_start : Bool) (w : List ℕ) (b q : ℕ) → w ≢ [] →
        IsLast (ReadsActive S c line_start) (w ++ b ∷ []) q
        ↔ ((automaton S).letter (b, q) × ((p : ℕ) × IsLast (ReadsActive S c line_start) w p
        × (automaton S).follow p q)) }
{}

/// A word is live just where some position follows one that it left; the empty word, where some rule has a first one.
pub fn live_positions()
    ensures after { (S : Spec) → IsSound S → (c : ℕ) (line_start : Bool) (w : List ℕ) → w ≢ [] →
        Live S c line_start w ↔ ((p q : ℕ) × IsLast (ReadsActive S c line_start) w p × (automaton S).follow p q) }
    ensures first { (S : Spec) → IsSound S → (c : ℕ) (line_start : Bool)
        → Live S c line_start [] ↔ ((q : ℕ) × (active_automaton S c line_start).first q) }
{}

/// The tests of a step say what leaves a pattern, and which positions come next.
pub fn one_step()
    ensures exits { (S : ℕ → Bool) (t : Tree) (base : ℕ) (i : Bool)
        → (exits t S base i ≡ true) ↔ Exits (quad t base) (i ≡ true) (λ p. S p ≡ true) }
    ensures enters { (S : ℕ → Bool) (q : ℕ) (t : Tree) (base : ℕ) (i : Bool)
        → (enters t S q base i ≡ true) ↔ Enters (quad t base) (i ≡ true) (λ p. S p ≡ true) q }
{}

/// The tests of a step through rules say how the positions of a specification move, which of them read a byte, and
/// which are the last of a rule.
pub fn one_step_of_rules()
    ensures enters { (S : ℕ → Bool) (on : ℕ → Bool) (rules : List Rule) (q i base : ℕ)
        → (rules_enter rules on S q i base ≡ true)
        ↔ ((active_quad on i base rules).first q ⊎ ((p : ℕ) × (S p ≡ true)
        × (active_quad every i base rules).follow p q)) }
    ensures exits { (S : ℕ → Bool) (r : Rule) (base : ℕ)
        → (rule_exits r S base ≡ true) ↔ ((p : ℕ) × (S p ≡ true) × (rule_quad r base).last p) }
    ensures reads { (b : ℕ) → b < 256 → (q : ℕ) (rules : List Rule) (i base : ℕ)
        → (rules_read rules b q base ≡ true) ↔ (active_quad every i base rules).letter (b, q) }
{}

/// Worked examples of positions: how many there are, which one reads each byte, and how many subsets of them.
pub fn examples_of_positions()
    ensures counts_positions { CountsPositions }
    ensures reads_bytes { ReadsBytes }
    ensures counts_subsets { CountsSubsets }
{}
