//! The name of a rule.
ghost use Rattle.std.specs.Prelude.{◌≡◌, map};
ghost use Rattle.std.specs.List.{list_all};
ghost use Rattle.lex_machine.specs.Views.{statement_of};
ghost use Rattle.lex_names.specs.RuleNames.{first_line, first_literal, continues_name, is_c_name, rule_name};

use lex_machine::Statement;
use lexre_bytes::{starts_name, take_up_to};

/// The first literal that an action writes, and no byte where it writes none.
fn first_literal(statements: &[Statement]) -> &[u8]
    ensures { result.now ≡ first_literal (map statement_of statements.now) }
{
    for statement in statements {
        if let Statement::Print(bytes) = statement {
            return bytes.as_slice();
        }
    }
    b""
}

/// The bytes before the first newline.
fn first_line(bytes: &[u8]) -> &[u8]
    ensures { result.now ≡ first_line bytes.now }
{
    take_up_to(bytes.len(), |byte| byte != b'\n', bytes).0
}

/// Whether a name of C may go on with the byte: a letter, a digit or `_`.
#[tactic(auto, unfolding(lex_semantics::specs::ByteSets::is_alnum, lex_semantics::specs::ByteSets::is_alpha, lex_semantics::specs::ByteSets::is_upper, lex_semantics::specs::ByteSets::is_lower, lex_semantics::specs::ByteSets::is_digit))]
fn continues_name(byte: u8) -> bool
    ensures { result ≡ continues_name byte }
{
    byte.is_ascii_alphanumeric() || byte == b'_'
}

/// Whether a name of C may go on with each of the bytes.
fn all_continue(bytes: &[u8]) -> bool
    ensures { result ≡ list_all continues_name bytes.now }
{
    for byte in bytes {
        if !continues_name(*byte) {
            return false;
        }
    }
    true
}

/// Whether the bytes are a name as in C.
fn is_c_name(bytes: &[u8]) -> bool
    ensures { result ≡ is_c_name bytes.now }
{
    match bytes.first() {
        None => false,
        Some(first) => starts_name(*first) && all_continue(bytes),
    }
}

/// The name of a rule that does this, and no byte where it has none.
pub fn rule_name(statements: &[Statement]) -> &[u8]
    ensures { result.now ≡ rule_name (map statement_of statements.now) }
{
    let line = first_line(first_literal(statements));
    if is_c_name(line) { line } else { b"" }
}
