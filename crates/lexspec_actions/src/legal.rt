//! What may stand in one action.
ghost use Rattle.std.specs.Prelude.{◌≡◌, ℕ, Bool, ◌&&◌, nat_le, List, length};
ghost use Rattle.std.specs.Prelude.{map, sum_by, true, false, OnOk, OnErr, IfErr};
ghost use Rattle.lex_semantics.specs.Spec.{has_reject};
ghost use Rattle.lex_semantics.specs.Legal.{is_yyless, is_yymore, ends_action};
ghost use Rattle.lex_semantics.specs.Legal.{count_less, has_less, has_more, ends_last};
ghost use Rattle.lexspec_actions.specs.Statements.{literal_bytes};
ghost use Rattle.lexspec_actions.specs.Actions.{are_few};
ghost use Rattle.lexspec_actions.specs.ActionSteps.{may_stand};
ghost use Rattle.lexspec_actions.specs.ActionFaults.{IsTogetherFault};
ghost use Rattle.lexspec_actions.specs.Views.{statement_of};
ghost use Rattle.lex_semantics.specs.Limits.{max_literal_bytes};

use lex_machine::{Statement, has_reject};
use lex_semantics::{MAX_LITERAL_BYTES, MAX_STATEMENTS};
use lexre_bytes::SpecErrorKind;

/// Whether one of the statements is yymore.
fn has_more(statements: &[Statement]) -> bool
    ensures { result ≡ has_more (map statement_of statements.now) }
{
    for statement in statements {
        if statement.is_yymore() {
            return true;
        }
    }
    false
}

/// Whether one of the statements is yyless.
fn has_less(statements: &[Statement]) -> bool
    ensures { result ≡ has_less (map statement_of statements.now) }
{
    for statement in statements {
        if statement.is_yyless() {
            return true;
        }
    }
    false
}

/// How many of the statements are yyless.
fn count_less(statements: &[Statement]) -> usize
    ensures { result ≡ count_less (map statement_of statements.now) }
{
    let mut count = 0;
    for i in 0..statements.len() {
        if statements[i].is_yyless() {
            count += 1;
        }
    }
    count
}

/// Whether what ends an action stands last.
#[tactic(auto, using(crate::proofs::LegalLemmas::ends_last_is))]
fn ends_last(statements: &[Statement]) -> bool
    ensures { result ≡ ends_last (map statement_of statements.now) }
{
    let mut ended = false;
    for statement in statements {
        if ended {
            return false;
        }
        ended = statement.ends_action();
    }
    true
}

/// Whether the literals have no more bytes than an action may have.
fn are_short(statements: &[Statement]) -> bool
    ensures { result ≡ nat_le (sum_by literal_bytes (map statement_of statements.now)) max_literal_bytes }
{
    let mut total = 0;
    for statement in statements {
        total += statement.literal_bytes();
        if total > MAX_LITERAL_BYTES {
            return false;
        }
    }
    true
}

/// Whether there are no more statements and literal bytes than an action may have.
pub(crate) fn are_few(statements: &[Statement]) -> bool
    ensures { result ≡ are_few (map statement_of statements.now) }
{
    statements.len() <= MAX_STATEMENTS && are_short(statements)
}

/// Whether these statements may be the action of a rule, and else the first fault.
#[tactic(auto, using(crate::proofs::LegalLemmas::too_many, crate::proofs::LegalLemmas::less_and_more, crate::proofs::LegalLemmas::less_twice, crate::proofs::LegalLemmas::reject_with, crate::proofs::LegalLemmas::not_last, crate::proofs::LegalLemmas::may_stand_is))]
pub(crate) fn check(statements: &[Statement]) -> Result<(), SpecErrorKind>
    ensures ok { OnOk result (may_stand (map statement_of statements.now) ≡ true) }
    ensures err { OnErr result (may_stand (map statement_of statements.now) ≡ false) }
    ensures fault { IfErr result (λ e. IsTogetherFault e) }
{
    let more = has_more(statements);
    let less = has_less(statements);
    if !are_few(statements) {
        return Err(SpecErrorKind::TooLong);
    }
    if less && more {
        return Err(SpecErrorKind::LessAndMore);
    }
    if count_less(statements) > 1 {
        return Err(SpecErrorKind::LessAndMore);
    }
    if has_reject(statements) && (more || less) {
        return Err(SpecErrorKind::RejectCombination);
    }
    if !ends_last(statements) {
        return Err(SpecErrorKind::NotLast);
    }
    Ok(())
}
