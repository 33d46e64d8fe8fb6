//! What a scanner that sees one byte at a time knows: n turns, and one more.

ghost use Rattle.lex_semantics.specs.Spec.{Spec};
ghost use Rattle.lex_semantics.specs.Rules.{rules_of};
ghost use Rattle.lex_semantics.specs.Machine.{Machine, rules_of_machine};
ghost use Rattle.lex_semantics.specs.Sound.{IsSound};
ghost use Rattle.lex_semantics.specs.MachineLaws.{MachineLaws};
ghost use Rattle.lex_semantics.specs.ScanLaws.{KnownAtFirst, KnownAfterMatch, KnownAfterMatchAtEnd};
ghost use Rattle.lex_semantics.specs.ScanLaws.{KnownAfterEnd, KnownOnceEnded, BeginsTheRun, PartBeginsTheRun};

/// Before the first turn nothing was asked for and nothing written.
pub fn known_at_first()
    ensures specification { (S : Spec) → KnownAtFirst (rules_of S) }
    ensures machine { (M : Machine) → KnownAtFirst (rules_of_machine M) }
{}

/// One more turn whose match asks for no byte beyond those that it saw.
pub fn known_after_match()
    ensures specification { (S : Spec) → IsSound S → KnownAfterMatch (rules_of S) }
    ensures machine { (M : Machine) → MachineLaws M → KnownAfterMatch (rules_of_machine M) }
{}

/// One more turn whose match asked for the end of the input.
pub fn known_after_match_at_end()
    ensures specification { (S : Spec) → IsSound S → KnownAfterMatchAtEnd (rules_of S) }
    ensures machine { (M : Machine) → MachineLaws M → KnownAfterMatchAtEnd (rules_of_machine M) }
{}

/// One more turn at the end of the input.
pub fn known_after_end()
    ensures specification { (S : Spec) → KnownAfterEnd (rules_of S) }
    ensures machine { (M : Machine) → KnownAfterEnd (rules_of_machine M) }
{}

/// One more turn of a scan that has ended.
pub fn known_once_ended()
    ensures specification { (S : Spec) → KnownOnceEnded (rules_of S) }
    ensures machine { (M : Machine) → KnownOnceEnded (rules_of_machine M) }
{}

/// What turns write is a front of what the run writes.
pub fn begins_the_run()
    ensures specification { (S : Spec) → BeginsTheRun (rules_of S) }
    ensures machine { (M : Machine) → BeginsTheRun (rules_of_machine M) }
{}

/// So is what they write and a front of what the next turn writes.
pub fn part_begins_the_run()
    ensures specification { (S : Spec) → PartBeginsTheRun (rules_of S) }
    ensures machine { (M : Machine) → PartBeginsTheRun (rules_of_machine M) }
{}
