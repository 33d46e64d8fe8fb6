//! Worked examples of newlines after which each match is discarded.
ghost use Rattle.lexlook_tables.specs.NewlineExamples.{NewlineExamples};

/// Worked examples: rules that discard newlines, in INITIAL and in another condition; rules with an action, with trailing
/// context, and that take no newline alone; and what goes on after newlines, as from the start of a line or otherwise.
pub fn examples_of_newlines()
    ensures { NewlineExamples }
{}
