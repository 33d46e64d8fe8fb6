//! Worked examples of tokens that are told ahead.
ghost use Rattle.liblex_calls.specs.AheadExamples.{KeptBytes, HandedNext, ToldAhead};

/// Worked examples of tokens that are told ahead of those that are handed on, and of the bytes that are kept for them.
pub fn examples_of_ahead()
    ensures kept { KeptBytes }
    ensures handed { HandedNext }
    ensures told { ToldAhead }
{}
