//! Worked examples.
ghost use Rattle.lexlook_text.specs.PieceExamples.{NameExamples, SpotExamples, PieceExamples};

/// Pieces of patterns and lines of definitions, worked by hand.
pub fn examples_of_pieces()
    ensures { PieceExamples }
{}

/// Names that are near each other, worked by hand.
pub fn examples_of_names()
    ensures { NameExamples }
{}

/// Words that have no meaning where they stand, worked by hand.
pub fn examples_of_spots()
    ensures { SpotExamples }
{}
