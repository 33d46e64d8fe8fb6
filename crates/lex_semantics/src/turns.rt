//! What a scan does is determined, and it comes to an end.

ghost use Rattle.lex_semantics.specs.Spec.{Spec};
ghost use Rattle.lex_semantics.specs.Rules.{rules_of};
ghost use Rattle.lex_semantics.specs.Machine.{Machine, rules_of_machine};
ghost use Rattle.lex_semantics.specs.Sound.{IsSound};
ghost use Rattle.lex_semantics.specs.MachineLaws.{MachineLaws};
ghost use Rattle.lex_semantics.specs.ScanLaws.{OneList, SomeList, OneTurn, OneState, SomeState, OneRun, SomeRun};

/// The matches at a place are listed in one way.
pub fn one_list()
    ensures specification { (S : Spec) → OneList (rules_of S) }
    ensures machine { (M : Machine) → OneList (rules_of_machine M) }
{}

/// And they are listed in some way: those of a sound specification, and of a machine that keeps its laws.
pub fn some_list()
    ensures specification { (S : Spec) → IsSound S → SomeList (rules_of S) }
    ensures machine { (M : Machine) → MachineLaws M → SomeList (rules_of_machine M) }
{}

/// A turn has at most one outcome.
pub fn one_turn()
    ensures specification { (S : Spec) → OneTurn (rules_of S) }
    ensures machine { (M : Machine) → OneTurn (rules_of_machine M) }
{}

/// After a number of turns a scan stands in at most one way.
pub fn one_state()
    ensures specification { (S : Spec) → OneState (rules_of S) }
    ensures machine { (M : Machine) → OneState (rules_of_machine M) }
{}

/// And it stands in some way.
pub fn some_state()
    ensures specification { (S : Spec) → IsSound S → SomeState (rules_of S) }
    ensures machine { (M : Machine) → MachineLaws M → SomeState (rules_of_machine M) }
{}

/// An input has at most one run.
pub fn one_run()
    ensures specification { (S : Spec) → OneRun (rules_of S) }
    ensures machine { (M : Machine) → OneRun (rules_of_machine M) }
{}

/// Each input has a run: of a sound specification, and of a machine that keeps its laws.
pub fn some_run()
    ensures specification { (S : Spec) → IsSound S → SomeRun (rules_of S) }
    ensures machine { (M : Machine) → MachineLaws M → SomeRun (rules_of_machine M) }
{}
