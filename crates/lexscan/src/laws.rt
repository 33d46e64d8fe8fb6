//! The laws of tokens, and worked examples of what turns ask for.
ghost use Rattle.lex_semantics.specs.Machine.{Machine, rules_of_machine};
ghost use Rattle.lex_semantics.specs.MachineLaws.{MachineLaws};
ghost use Rattle.lex_semantics.specs.Rules.{rules_of};
ghost use Rattle.lex_semantics.specs.Sound.{IsSound};
ghost use Rattle.lex_semantics.specs.Spec.{Spec};
ghost use Rattle.lex_semantics.specs.TableFor.{TableFor};
ghost use Rattle.lexscan.specs.AskingExamples.{Asking, AskingTogether, Given, Known, Order};
ghost use Rattle.lexscan.specs.BeginExamples.{BeginExamples};
ghost use Rattle.lexscan.specs.SeriesExamples.{DrawnOut};
ghost use Rattle.lexscan.specs.Tokens.{SameTokens};

/// The tokens by a machine that is a table for a specification are those of the specification.
pub fn table_tokens()
    ensures { (M : Machine) (S : Spec) → MachineLaws M → IsSound S → TableFor M S
        → SameTokens (rules_of_machine M) (rules_of S) }
{}

/// Worked examples of what turns ask for, and of what is known of a scan: the answers that a match asks for, those of
/// several turns, the inputs that a source may still have, and the scan before its first turn. And of the order of
/// matches.
pub fn examples_of_asking()
    ensures asking { Asking }
    ensures together { AskingTogether }
    ensures given { Given }
    ensures known { Known }
    ensures order { Order }
{}

/// Worked examples of tokens of which few bytes are kept.
pub fn examples_of_series()
    ensures { DrawnOut }
{}

/// A worked example: of a machine of two rules, which states set a condition and do yymore.
pub fn examples_of_begins()
    ensures { BeginExamples }
{}
