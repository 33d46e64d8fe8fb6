//! How much the turns ask of the source.

ghost use Rattle.lex_semantics.specs.Spec.{Spec};
ghost use Rattle.lex_semantics.specs.Rules.{rules_of};
ghost use Rattle.lex_semantics.specs.Machine.{Machine, rules_of_machine};
ghost use Rattle.lex_semantics.specs.Sound.{IsSound};
ghost use Rattle.lex_semantics.specs.MachineLaws.{MachineLaws};
ghost use Rattle.lex_semantics.specs.TableFor.{TableFor};
ghost use Rattle.lex_semantics.specs.ScanLaws.{NoGap, OneReach, SomeReach, NeverNoReach, OneDemand};
ghost use Rattle.lex_semantics.specs.ScanLaws.{SomeDemand, NeverNoDemand, StaysCovered, SameWhateverFollows};

/// What is asked for at a place is asked for at each place before.
pub fn no_gap()
    ensures specification { (S : Spec) → IsSound S → NoGap (rules_of S) }
    ensures machine { (M : Machine) → MachineLaws M → NoGap (rules_of_machine M) }
{}

/// A turn asks for at most one number of answers.
pub fn one_reach()
    ensures specification { (S : Spec) → OneReach (rules_of S) }
    ensures machine { (M : Machine) → OneReach (rules_of_machine M) }
{}

/// And it asks for some number: over a machine that keeps its laws, and over a sound specification for which such a
/// machine is a table. Without a machine nothing decides which words are live, so what is known is that it is never so
/// that there is no such number.
pub fn some_reach()
    ensures machine { (M : Machine) → MachineLaws M → SomeReach (rules_of_machine M) }
    ensures table { (M : Machine) (S : Spec) → MachineLaws M → IsSound S → TableFor M S → SomeReach (rules_of S) }
    ensures specification { (S : Spec) → IsSound S → NeverNoReach (rules_of S) }
{}

/// After a number of turns a scan stands in at most one way, and its turns ask for one number of answers.
pub fn one_demand()
    ensures specification { (S : Spec) → OneDemand (rules_of S) }
    ensures machine { (M : Machine) → OneDemand (rules_of_machine M) }
{}

/// And there are such, in the same three forms as what one turn asks for.
pub fn some_demand()
    ensures machine { (M : Machine) → MachineLaws M → SomeDemand (rules_of_machine M) }
    ensures table { (M : Machine) (S : Spec) → MachineLaws M → IsSound S → TableFor M S → SomeDemand (rules_of S) }
    ensures specification { (S : Spec) → IsSound S → NeverNoDemand (rules_of S) }
{}

/// The place is in the input, and never passes what the turns asked for.
pub fn stays_covered()
    ensures specification { (S : Spec) → IsSound S → StaysCovered (rules_of S) }
    ensures machine { (M : Machine) → MachineLaws M → StaysCovered (rules_of_machine M) }
{}

/// Turns that ask for nothing beyond a front of the input, and not for its end, are the same whatever follows.
pub fn same_whatever_follows()
    ensures specification { (S : Spec) → IsSound S → SameWhateverFollows (rules_of S) }
    ensures machine { (M : Machine) → MachineLaws M → SameWhateverFollows (rules_of_machine M) }
{}
