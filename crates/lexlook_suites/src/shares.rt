//! How many of some states or edges matches go through.
ghost use Rattle.std.specs.Prelude.{◌≡◌, ◌==◌, ◌&&◌, count_by, length};
ghost use Rattle.lexlook_suites.specs.Shares.{share_of, share_of_all};

use crate::edges::Part;

/// How many there are, and how many of these a match goes through.
#[derive(Clone, Copy)]
pub struct Share {
    pub walked: usize,
    pub all: usize,
}

/// How many of these are of a rule.
fn count(parts: &[Part], rule: u32) -> usize
    ensures { result ≡ count_by (λ part. part.rule == rule) parts.now }
{
    parts.iter().filter(|part| part.rule == rule).count()
}

/// How many of these are of a rule, and a match goes through them.
fn count_walked(parts: &[Part], rule: u32) -> usize
    ensures { result ≡ count_by (λ part. (part.rule == rule) && part.walked) parts.now }
{
    parts
        .iter()
        .filter(|part| part.rule == rule && part.walked)
        .count()
}

/// Those of a rule.
pub(crate) fn share_of(parts: &[Part], rule: u32) -> Share
    ensures { result ≡ share_of parts.now rule }
{
    Share {
        walked: count_walked(parts, rule),
        all: count(parts, rule),
    }
}

/// Those of all rules.
pub(crate) fn share_of_all(parts: &[Part]) -> Share
    ensures { result ≡ share_of_all parts.now }
{
    Share {
        walked: parts.iter().filter(|part| part.walked).count(),
        all: parts.len(),
    }
}
