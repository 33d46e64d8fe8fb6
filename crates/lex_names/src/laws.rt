//! Worked examples of the definitions.
ghost use Rattle.lex_names.specs.RuleNameExamples.{NamedRules, RulesWithoutName};

/// Worked examples of names: what puts and printf write, which of several literals counts, and what is no name.
pub fn examples_of_names()
    ensures named { NamedRules }
    ensures none { RulesWithoutName }
{}
