//! Laws of the subset construction: the keys that words lead to, and the tables that such keys make.
ghost use Rattle.std.specs.Prelude.{◌≡◌, ◌≢◌, ◌↔◌, ◌<◌, false, cond, slice_index, slice_index_or, ℕ, Bool, List, []};
ghost use Rattle.std.specs.Prelude.{◌∷◌};
ghost use Rattle.lex_semantics.specs.Spec.{Spec};
ghost use Rattle.lex_semantics.specs.Reports.{HasFit};
ghost use Rattle.lex_semantics.specs.Sound.{IsSound};
ghost use Rattle.lex_semantics.specs.Text.{IsText, Among};
ghost use Rattle.lex_semantics.specs.TableFor.{TableFor};
ghost use Rattle.lex_semantics.specs.Subsets.{all_positions, HasSubsets};
ghost use Rattle.lexauto_dfa.specs.Machines.{machine_with, moving};
ghost use Rattle.lexauto_positions.specs.RuleFlow.{rules_left};
ghost use Rattle.lexauto.specs.Sets.{marked, lasts_in};
ghost use Rattle.lexauto.specs.Explored.{run};
ghost use Rattle.lexauto.specs.WordKeys.{LastKey, start_key, step_in, Surveys};
ghost use Rattle.lexauto.specs.Facts.{AcceptedBy, GoOnBy};

/// The key that a word leads to lists its last positions.
pub fn keys_of_words()
    ensures { (S : Spec) → IsSound S → (c : ℕ) (line_start : Bool) (b : ℕ) (w : List ℕ) → b < 256 → IsText w
        → LastKey S c line_start (b ∷ w) (run (step_in S) (start_key S c line_start) (b ∷ w)) }
{}

/// The rules that are left at their ends after a word are those that fit it.
pub fn rules_that_fit()
    ensures { (S : Spec) → IsSound S → (c : ℕ) (line_start : Bool) (w : List ℕ) → w ≢ [] → (k : List ℕ)
        → LastKey S c line_start w k →
        (i : ℕ) → Among (rules_left S.rules (marked (all_positions S.rules) (lasts_in k)) 0 0) i
        ↔ HasFit S c line_start w i }
{}

/// States whose keys are those of words, and which tell what their keys do, are a table for their specification.
pub fn tables_of_keys()
    ensures { (S : Spec) → IsSound S → (keys : List (List ℕ)) (next starts line_starts : List ℕ)
        → Surveys S keys next starts line_starts →
        (accepts : List (List ℕ)) (goes : List Bool) → AcceptedBy S keys accepts → GoOnBy S keys goes →
        TableFor (machine_with S (λ c line_start. cond line_start (slice_index line_starts c) (slice_index starts c))
        (moving next) (λ p. slice_index_or accepts p []) (λ p. slice_index_or goes p false)) S }
{}

/// There is at most one count of subsets.
pub fn one_count()
    ensures { (S : Spec) (m n : ℕ) → HasSubsets S m → HasSubsets S n → m ≡ n }
{}
