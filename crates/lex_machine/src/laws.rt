//! A machine in which rules that do nothing but REJECT fit no text, and worked examples.
ghost use Rattle.lex_semantics.specs.Machine.{Machine, rules_of_machine};
ghost use Rattle.lex_semantics.specs.MachineLaws.{MachineLaws};
ghost use Rattle.lex_semantics.specs.ScanLaws.{SameScan};
ghost use Rattle.lex_machine.specs.Quiets.{quiet};
ghost use Rattle.lex_machine.specs.GlanceExamples.{GlanceExamples};
ghost use Rattle.lex_machine.specs.QuietExamples.{QuietExamples};
ghost use Rattle.lex_machine.specs.SingleExamples.{SingleExamples};

/// It keeps the laws of machines, and makes the same turns: they ask for the same, and write the same.
pub fn quiet_scan()
    ensures laws { (M : Machine) → MachineLaws M → MachineLaws (quiet M) }
    ensures scan { (M : Machine) → MachineLaws M → SameScan (rules_of_machine (quiet M)) (rules_of_machine M) }
{}

/// Worked examples: what only rejects, and where no rule fits in a quiet machine of two rules.
pub fn examples_of_quiet()
    ensures { QuietExamples }
{}

/// Worked examples: which bytes are dropped or copied by a machine of five rules, and how many of them together.
pub fn examples_of_singles()
    ensures { SingleExamples }
{}

/// A worked example: of a machine of two rules, which states only one other leads to.
pub fn examples_of_glances()
    ensures { GlanceExamples }
{}
