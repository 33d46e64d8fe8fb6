//! How a specification is read, and whether a stream counts lines, as numbers.
ghost use Rattle.std.specs.Prelude.{◌≡◌};
ghost use Rattle.liblex_calls.specs.Flags.{options_of, counts_lines};

use lexkit::Options;

/// The options that these flags stand for, with the limits of the program. Other bits count for nothing.
pub fn options_of(flags: u32) -> Options
    ensures { result ≡ options_of flags }
{
    Options::reading(flags % 2 == 1, flags / 2 % 2 == 1)
}

/// Whether these flags of a stream ask for lines. Other bits count for nothing.
pub fn counts_lines(flags: u32) -> bool
    ensures { result ≡ counts_lines flags }
{
    flags % 2 == 1
}
