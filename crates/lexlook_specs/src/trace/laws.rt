//! The laws of the specification that tells its matches.
ghost use Rattle.lex_semantics.specs.Sound.{IsSound};
ghost use Rattle.lex_semantics.specs.Spec.{Spec};
ghost use Rattle.lexlook_specs.specs.TraceLaw.{TellsRuns, TellsTurns};

/// After as many turns both scans stand at the same place, and the traced one has written the lines of the matches.
pub fn tells_turns()
    ensures { (S : Spec) → IsSound S → TellsTurns S }
{}

/// A run of the traced specification writes the lines of the matches of the specification's run, and ends as it does.
pub fn tells_runs()
    ensures { (S : Spec) → IsSound S → TellsRuns S }
{}
