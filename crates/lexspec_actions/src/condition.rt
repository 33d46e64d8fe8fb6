//! Start conditions.
ghost use Rattle.std.specs.Prelude.{◌≡◌, ◌≤◌, ◌<◌, length, IfSome};
ghost use Rattle.lexspec_actions.specs.Names.{number_from, names_of};
ghost use Rattle.lex_semantics.specs.Limits.{max_conditions};

use lex_machine::EndAction;

/// A start condition: its name, whether it is exclusive, and its end action.
/// (POSIX, lex, Definitions in lex.)
#[derive(Drop)]
pub struct Condition {
    /// Its name.
    pub name: Vec<u8>,
    /// Whether rules without a condition list are not active in it.
    pub exclusive: bool,
    /// What is done at the end of the input.
    pub end: EndAction,
}

/// The number of the condition with the name.
pub fn number_of(conditions: &[Condition], name: &[u8]) -> Option<u8>
    requires { length conditions.now ≤ max_conditions }
    ensures number { result ≡ number_from 0 (names_of conditions.now) name.now }
    ensures below { IfSome result (λ n. n < length conditions.now) }
{
    for i in 0..conditions.len() {
        if conditions[i].name.as_slice() == name {
            return Some(i as u8);
        }
    }
    None
}
