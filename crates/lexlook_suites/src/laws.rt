//! Worked examples of what matches go through, and of suites.
ghost use Rattle.lexlook_suites.specs.CoverExamples.{CoverExamples};
ghost use Rattle.lexlook_suites.specs.SuiteExamples.{SuiteExamples};

/// Worked examples of what matches go through: where turns begin, how much is walked, and the lines that tell it.
pub fn examples_of_cover()
    ensures { CoverExamples }
{}

/// Worked examples of suites: where no input goes, and the lines of inputs and of edges.
pub fn examples_of_suites()
    ensures { SuiteExamples }
{}
