//! Worked examples of the definitions.
ghost use Rattle.lexlook_letters.specs.EncodingExamples.{Encodings, EndsOfLengths, Ranges, Surrogates};
ghost use Rattle.lexlook_letters.specs.TextExamples.{TextExamples};

/// Worked examples of encodings: those of RFC 3629, the ends of each length, and what has none. Then of ranges that are
/// apart.
pub fn examples_of_encodings()
    ensures encodings { Encodings }
    ensures ends { EndsOfLengths }
    ensures surrogates { Surrogates }
    ensures ranges { Ranges }
{}

/// Patterns of sequences, worked by hand.
pub fn examples_of_texts()
    ensures { TextExamples }
{}
