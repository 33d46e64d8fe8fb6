//! How a specification is read, and how large its automaton may be.
ghost use Rattle.std.specs.Prelude.{◌≡◌, false};
ghost use Rattle.lex_semantics.specs.Limits.{max_positions, max_states};

use lex_semantics::{MAX_POSITIONS, MAX_STATES};
use lexauto::Limits;

/// What a caller may choose about a specification.
#[derive(Clone, Copy, Debug, PartialEq, Eq)]
pub struct Options {
    /// Letters of patterns stand for both cases. (flex, Scanner Options: case-insensitive.)
    pub fold: bool,
    /// An interval applies to the whole series to its left. (POSIX, lex, Regular Expressions in lex.)
    pub posix: bool,
    /// The most positions and states of its automaton.
    pub limits: Limits,
}

impl Options {
    /// Patterns as they stand, and automata of at most 16,384 positions and 8,192 states.
    pub fn new() -> Options
        ensures { result ≡ record {
          fold = false;
          posix = false;
          limits = record {
            positions = max_positions;
            states =
                max_states;
          };
        } }
    {
        Options {
            fold: false,
            posix: false,
            limits: Limits {
                positions: MAX_POSITIONS,
                states: MAX_STATES,
            },
        }
    }

    /// Patterns that are read so, and automata of at most 16,384 positions and 8,192 states.
    pub fn reading(fold: bool, posix: bool) -> Options
        ensures { result ≡ record {
          fold = fold;
          posix = posix;
          limits = record {
            positions = max_positions;
            states =
                max_states;
          };
        } }
    {
        Options {
            fold,
            posix,
            ..Options::new()
        }
    }
}
