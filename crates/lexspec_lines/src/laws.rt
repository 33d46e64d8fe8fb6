//! Worked examples.
ghost use Rattle.lexspec_lines.specs.LineExamples.{ReturnsDropped, BlanksTrimmed, DollarAnchors};
ghost use Rattle.lexspec_lines.specs.LineExamples.{Declares, Defines, NoDefinitions, Block, Ignored};

/// Worked examples of lines.
pub fn examples_of_lines()
    ensures returns { ReturnsDropped }
    ensures blanks { BlanksTrimmed }
    ensures dollars { DollarAnchors }
    ensures declared { Declares }
    ensures defined { Defines }
    ensures refused { NoDefinitions }
    ensures block { Block }
    ensures ignored { Ignored }
{}
