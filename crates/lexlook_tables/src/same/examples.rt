//! Worked examples of what two machines do alike.
ghost use Rattle.lexlook_tables.specs.SameExamples.{SameExamples};

/// Worked examples: a rule that copies a byte beside the default rule, rules that write something else, and what follows
/// a REJECT, a rule without one, and trailing context.
pub fn examples_of_same()
    ensures { SameExamples }
{}
