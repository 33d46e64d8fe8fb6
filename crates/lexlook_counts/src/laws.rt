//! Worked examples of counts, and what giving up has to do with rejecting.
ghost use Rattle.lex_semantics.specs.Rules.{rules_of};
ghost use Rattle.lex_semantics.specs.Sound.{IsSound};
ghost use Rattle.lex_semantics.specs.Spec.{Spec};
ghost use Rattle.lexlook_counts.specs.CountExamples.{CountExamples};
ghost use Rattle.lexlook_counts.specs.GivenUpExamples.{GivenUpExamples};
ghost use Rattle.lexlook_counts.specs.GivenUpLaws.{GivesUpRejected};

/// Worked examples of counts: of three tokens, the lines that tell them, and those of their places.
pub fn examples_of_counts()
    ensures { CountExamples }
{}

/// Worked examples of what REJECT gives up, and of lines that tell it.
pub fn examples_of_given_up()
    ensures { GivenUpExamples }
{}

/// What a turn gives up are the matches that it rejects.
pub fn gives_up_rejected()
    ensures { (S : Spec) → IsSound S → GivesUpRejected (rules_of S) }
{}
