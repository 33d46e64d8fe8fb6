//! The action of a rule.
ghost use Rattle.std.specs.Prelude.{◌≡◌, ◌≤◌, ◌<◌, List, [], ◌∷◌, ◌++◌, length, map, option_map, IfOk, IfErr};
ghost use Rattle.lex_semantics.specs.Spec as S;
ghost use Rattle.lexspec_actions.specs.Actions.{SpellsStatements, SpellsAction, SpellsEndAction};
ghost use Rattle.lexspec_actions.specs.ActionSteps.{piece_from, end_of, alone};
ghost use Rattle.lexspec_actions.specs.Names.{known_in, names_of};
ghost use Rattle.lexspec_actions.specs.Views.{statement_of, piece_of, end_action_of};
ghost use Rattle.lexspec_actions.specs.Outcome.{Reads, UnlessMemory};
ghost use Rattle.lex_semantics.specs.Limits.{max_conditions};
ghost use Rattle.lexspec_actions.specs.ActionFaults.{IsActionFault};

use crate::bytes::skip;
use crate::calls::statement_at;
use crate::condition::Condition;
use crate::legal::{are_few, check};
use crate::statement::{Piece, say};
use lex_machine::{EndAction, Statement};
use lexre_bytes::SpecErrorKind;
use std::alloc::Global;

/// What an action is made of, at the front of a text that has neither blanks nor comments there.
#[tactic(auto, unfolding(crate::specs::ActionSteps::piece_from))]
fn piece_from<'a>(
    alloc: Global,
    conditions: &[Condition],
    stack: bool,
    text: &'a [u8],
) -> Result<(Piece, &'a [u8]), SpecErrorKind>
    requires { length conditions.now ≤ max_conditions }
    ensures spelled { Reads (λ x. (piece_of x.0, x.1.now)) result
        (piece_from (known_in (names_of conditions.now) stack) text.now) }
    ensures shorter { IfOk result (λ x. length x.1.now < length text.now) }
    ensures fault { IfErr result (λ e. IsActionFault e) }
{
    let Some((first, after)) = text.split_first() else {
        return Err(SpecErrorKind::UnknownStatement);
    };
    if *first == b';' {
        return Ok((Piece::Semicolon, after));
    }
    if *first == b'{' {
        return Ok((Piece::Opens, after));
    }
    if *first == b'}' {
        return Ok((Piece::Closes, after));
    }
    let (said, rest) = statement_at(alloc, conditions, stack, text)?;
    Ok((Piece::Says(said), rest))
}

/// The statements of an action, in normal form.
fn read_statements(
    alloc: Global,
    conditions: &[Condition],
    stack: bool,
    text: &[u8],
) -> Result<Vec<Statement>, SpecErrorKind>
    requires { length conditions.now ≤ max_conditions }
    // What is read is spelled by the text.
    ensures found { IfOk result (λ ss. SpellsStatements (known_in (names_of conditions.now) stack) text.now
        (map statement_of ss.items)) }
    // What is refused spells no statements, unless memory ran out.
    ensures none { IfErr result (λ e. UnlessMemory e ((ss : List S.Statement)
        → SpellsStatements (known_in (names_of conditions.now) stack) text.now ss → ⊥)) }
    ensures fault { IfErr result (λ e. IsActionFault e) }
{
    let mut statements = Vec::new(alloc);
    let mut open: usize = 0;
    let mut rest = text;
    'pieces: loop {
        let here = skip(rest);
        if here.is_empty() {
            if open > 0 {
                return Err(SpecErrorKind::Unclosed);
            }
            return Ok(statements);
        }
        let (piece, after) = piece_from(alloc, conditions, stack, here)?;
        match piece {
            Piece::Semicolon => {}
            Piece::Opens => open += 1,
            Piece::Closes => {
                if open == 0 {
                    return Err(SpecErrorKind::UnknownStatement);
                }
                open -= 1;
            }
            Piece::Says(said) => say(&mut statements, said)?,
        }
        rest = after;
    }
}

/// The statements of a rule's action, in normal form. The first fault from the left is named: `UnknownStatement`,
/// `BadCount`, `BadStatus` and `UnknownCondition` of a statement, `Unclosed` for a brace left open, and then `TooLong`
/// (256 statements, 4,096 literal bytes), `LessAndMore`, `RejectCombination` and `NotLast`. `stack` says whether
/// yy_push_state and yy_pop_state may stand there. (POSIX, lex, Actions in lex; flex, Start Conditions.)
#[tactic(auto, using(crate::proofs::FaultLaws::together_fault_of_action))]
pub fn read_action(
    alloc: Global,
    conditions: &[Condition],
    stack: bool,
    text: &[u8],
) -> Result<Vec<Statement>, SpecErrorKind>
    requires { length conditions.now ≤ max_conditions }
    // What is read is spelled by the text.
    ensures found { IfOk result (λ ss. SpellsAction (known_in (names_of conditions.now) stack) text.now
        (map statement_of ss.items)) }
    // What is refused is no action, unless memory ran out.
    ensures none { IfErr result (λ e. UnlessMemory e ((ss : List S.Statement)
        → SpellsAction (known_in (names_of conditions.now) stack) text.now ss → ⊥)) }
    ensures fault { IfErr result (λ e. IsActionFault e) }
{
    let statements = read_statements(alloc, conditions, stack, text)?;
    check(&statements)?;
    Ok(statements)
}

/// What the action of an `<<EOF>>` rule does. It may print and end the scan, the end last, and is else `BadEofAction`,
/// after the faults of statements and `TooLong`. (flex, End-of-File Rules.)
pub fn read_end_action(
    alloc: Global,
    conditions: &[Condition],
    stack: bool,
    text: &[u8],
) -> Result<EndAction, SpecErrorKind>
    requires { length conditions.now ≤ max_conditions }
    // What is read is spelled by the text.
    ensures found { IfOk result (λ e. SpellsEndAction
        (known_in (names_of conditions.now) stack) text.now (end_action_of e)) }
    // What is refused is no end action, unless memory ran out.
    ensures none { IfErr result (λ e. UnlessMemory e ((a : S.EndAction)
        → SpellsEndAction (known_in (names_of conditions.now) stack) text.now a → ⊥)) }
    ensures fault { IfErr result (λ e. IsActionFault e) }
{
    let statements = read_statements(alloc, conditions, stack, text)?;
    if !are_few(&statements) {
        return Err(SpecErrorKind::TooLong);
    }
    match end_of(alloc, statements) {
        Some(end) => Ok(end),
        None => Err(SpecErrorKind::BadEofAction),
    }
}

/// What these statements do at the end of the input, where they may stand there.
fn end_of(alloc: Global, statements: Vec<Statement>) -> Option<EndAction>
    ensures { option_map end_action_of result ≡ end_of (map statement_of statements.items) }
{
    let mut front = statements;
    match front.pop() {
        None => Some(EndAction {
            print: Vec::new(alloc),
            status: 0,
        }),
        Some(last) => match last {
            Statement::Print(print) => alone(front, EndAction { print, status: 0 }),
            Statement::End(status) => printed_before(alloc, front, status),
            _ => None,
        },
    }
}

/// The end action, where no statements stand before it.
fn alone(front: Vec<Statement>, end: EndAction) -> Option<EndAction>
    ensures { option_map end_action_of result ≡ alone (map statement_of front.items) (end_action_of end) }
{
    if front.is_empty() { Some(end) } else { None }
}

/// What an end with this status does, with the statements before it.
fn printed_before(alloc: Global, statements: Vec<Statement>, status: u8) -> Option<EndAction>
    ensures { option_map end_action_of result ≡ end_of (map statement_of statements.items ++ S.End status ∷ []) }
{
    let mut front = statements;
    match front.pop() {
        None => Some(EndAction {
            print: Vec::new(alloc),
            status,
        }),
        Some(last) => match last {
            Statement::Print(print) => alone(front, EndAction { print, status }),
            _ => None,
        },
    }
}
