//! The bytes of names. (flex, Format of the Input File.)
ghost use Rattle.std.specs.Prelude.{◌≡◌, ℕ, List};
ghost use Rattle.lex_semantics.specs.Reading.{goes_on_name, starts_name, take_run};

use crate::fronts::take_up_to;

/// Whether a name may begin with the byte: a letter or `_`.
#[tactic(auto, unfolding(lex_semantics::specs::ByteSets::is_alpha, lex_semantics::specs::ByteSets::is_upper, lex_semantics::specs::ByteSets::is_lower))]
pub fn starts_name(byte: u8) -> bool
    ensures { result ≡ starts_name byte }
{
    byte.is_ascii_alphabetic() || byte == b'_'
}

/// Whether a name may go on with the byte: a letter, a digit, `_` or `-`.
#[tactic(auto, unfolding(lex_semantics::specs::ByteSets::is_alnum, lex_semantics::specs::ByteSets::is_alpha, lex_semantics::specs::ByteSets::is_upper, lex_semantics::specs::ByteSets::is_lower, lex_semantics::specs::ByteSets::is_digit))]
pub fn goes_on_name(byte: u8) -> bool
    ensures { result ≡ goes_on_name byte }
{
    byte.is_ascii_alphanumeric() || byte == b'_' || byte == b'-'
}

/// The bytes at the front with which a name may go on, and what follows them.
pub fn split_name(text: &[u8]) -> (&[u8], &[u8])
    ensures { ◌≡◌ {A = List ℕ × List ℕ} (take_run goes_on_name text.now) (result.0.now, result.1.now) }
{
    take_up_to(text.len(), |byte| goes_on_name(byte), text)
}
