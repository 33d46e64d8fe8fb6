//! Machines and specifications with the same scan.

ghost use Rattle.std.specs.Prelude.{ℕ};
ghost use Rattle.lex_semantics.specs.Spec.{Spec, rejects};
ghost use Rattle.lex_semantics.specs.Rules.{rules_of};
ghost use Rattle.lex_semantics.specs.Machine.{Machine, rules_of_machine};
ghost use Rattle.lex_semantics.specs.Sound.{IsSound};
ghost use Rattle.lex_semantics.specs.MachineLaws.{MachineLaws, StaysBelow, Rejects};
ghost use Rattle.lex_semantics.specs.TableFor.{TableFor};
ghost use Rattle.lex_semantics.specs.SameRules.{SameRules};
ghost use Rattle.lex_semantics.specs.ScanLaws.{SameScan};
ghost use Rattle.lex_semantics.specs.TableLaws.{TellsUseless, TellsBackWords, StatesBelow, SameAnswers};

/// A machine that is a table for a specification has its turns, its demand and its run, and no others.
pub fn table_scan()
    ensures { (M : Machine) (S : Spec) → MachineLaws M → IsSound S → TableFor M S
        → SameScan (rules_of_machine M) (rules_of S) }
{}

/// Specifications whose rules fit the same words and have the same actions have the same turns, demand and run.
pub fn same_rules_scan()
    ensures { (S T : Spec) → IsSound S → IsSound T → SameRules S T → SameScan (rules_of S) (rules_of T) }
{}

/// Specifications with the same rules have the same live words, accept the same rules after each text, have REJECT in
/// both or in neither, and have the same useless rules and back words.
pub fn same_rules_answers()
    ensures { (S T : Spec) → SameRules S T → SameAnswers S T }
{}

/// The useless rules are those that a table for the specification accepts after no text; the back words are the texts
/// of two bytes or more after which it goes on and accepts nothing.
pub fn table_reports()
    ensures useless { (M : Machine) (S : Spec) → TableFor M S → TellsUseless M S }
    ensures back_words { (M : Machine) (S : Spec) → TableFor M S → TellsBackWords M S }
{}

/// A table has REJECT where its specification has it.
pub fn table_rejects()
    ensures { (M : Machine) (S : Spec) → TableFor M S → Rejects M (rejects S) }
{}

/// A machine whose states are the numbers below n is in one of them after each text.
pub fn states_below()
    ensures { (M : Machine) (n : ℕ) → StaysBelow M n → StatesBelow M n }
{}
