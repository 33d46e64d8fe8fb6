//! Worked examples of marks.
ghost use Rattle.lexscan_window.specs.MarkExamples.{MarkExamples};

/// Worked examples: walks that come to no match or to one, and what a mark tells of them.
pub fn examples_of_marks()
    ensures { MarkExamples }
{}
