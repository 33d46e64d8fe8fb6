//! A worked example of rules that share texts.
ghost use Rattle.lexlook_specs.specs.OverlapExamples.{OverlapExamples};

/// A worked example of rules that share texts: the start of a line, REJECT, the first of the texts, and the order of pairs.
pub fn examples_of_overlaps()
    ensures { OverlapExamples }
{}
