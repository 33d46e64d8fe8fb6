//! The statements of an action, one at a time.
ghost use Rattle.std.specs.Prelude.{◌≡◌, ◌≤◌, ◌<◌, length, map, min, option_map, codes, IfSome, IfOk, IfErr};
ghost use Rattle.lexspec_actions.specs.ActionSteps.{this_word, no_argument, number_argument, second_word, capped};
ghost use Rattle.lexspec_actions.specs.ActionSteps.{formatted_at, printf_at, yymore_at, yyless_at, yyterminate_at, exit_at};
ghost use Rattle.lexspec_actions.specs.ActionSteps.{pop_at, closed_condition, fputs_at, puts_at, condition_at, begin_at};
ghost use Rattle.lexspec_actions.specs.ActionSteps.{push_at, stack_word, after_word, after_statement, statement_at};
ghost use Rattle.lexspec_actions.specs.Names.{number_from, names_of, known_in};
ghost use Rattle.lexspec_actions.specs.Views.{said_of};
ghost use Rattle.lexspec_actions.specs.Outcome.{Reads, UnlessMemory};
ghost use Rattle.lexspec_actions.specs.Calls.{CallReads, CallFinds, ConditionReads, BeginReads, PushReads};
ghost use Rattle.lex_semantics.specs.Limits.{max_conditions};
ghost use Rattle.lexspec_actions.specs.ActionFaults.{IsActionFault};

use crate::bytes::{digits_at, literal_at, name_at, next, skip};
use crate::condition::{Condition, number_of};
use crate::format::parts_of;
use crate::statement::{Called, FormatLiterals, Said};
use lex_machine::Statement;
use lex_semantics::{MAX_KEPT, MAX_STATUS};
use lexre_bytes::{SpecErrorKind, capped_value};
use std::alloc::Global;

/// What follows the word, where it comes next.
#[tactic(auto, unfolding(crate::specs::ActionSteps::this_word))]
fn this_word<'a>(word: &[u8], text: &'a [u8]) -> Option<&'a [u8]>
    ensures spelled { option_map (λ r. r.now) result ≡ this_word word.now text.now }
    ensures shorter { IfSome result (λ x. length x.now ≤ length text.now) }
{
    let (name, rest) = name_at(skip(text))?;
    if name == word { Some(rest) } else { None }
}

/// What follows empty parentheses, where they come next.
#[tactic(auto, unfolding(crate::specs::ActionSteps::no_argument))]
fn no_argument(text: &[u8]) -> Option<&[u8]>
    ensures spelled { option_map (λ r. r.now) result ≡ no_argument text.now }
    ensures shorter { IfSome result (λ x. length x.now ≤ length text.now) }
{
    let inside = next(b'(', text)?;
    next(b')', inside)
}

/// The number in parentheses, or the cap on numbers where that is less.
#[tactic(auto, unfolding(crate::specs::ActionSteps::number_argument))]
fn number_argument(text: &[u8]) -> Option<(u32, &[u8])>
    ensures spelled { option_map (λ x. (x.0, x.1.now)) result ≡ option_map capped (number_argument text.now) }
    ensures shorter { IfSome result (λ x. length x.1.now ≤ length text.now) }
{
    let inside = next(b'(', text)?;
    let (digits, rest) = digits_at(skip(inside))?;
    let after = next(b')', rest)?;
    Some((capped_value(10, digits), after))
}

/// What follows a comma, the word and a closing parenthesis, where they come next.
#[tactic(auto, unfolding(crate::specs::ActionSteps::second_word))]
fn second_word<'a>(word: &[u8], text: &'a [u8]) -> Option<&'a [u8]>
    ensures spelled { option_map (λ r. r.now) result ≡ second_word word.now text.now }
    ensures shorter { IfSome result (λ x. length x.now ≤ length text.now) }
{
    let rest = next(b',', text)?;
    let rest = this_word(word, rest)?;
    next(b')', rest)
}

/// What printf prints by the format: alone, or with yytext as its second argument, just where the format has a `%s`.
#[tactic(auto, unfolding(crate::specs::ActionSteps::formatted_at))]
fn formatted_at<'a>(
    alloc: Global,
    format: &[u8],
    text: &'a [u8],
) -> Result<(Called, &'a [u8]), SpecErrorKind>
    ensures spelled { CallReads (λ x. x.0) (λ x. x.1.now) result (formatted_at format.now text.now) }
    ensures shorter { IfOk result (λ x. length x.1.now ≤ length text.now) }
    ensures fault { IfErr result (λ e. IsActionFault e) }
{
    let parts = parts_of(alloc, format)?;
    let FormatLiterals { front, back } = parts;
    match next(b')', text) {
        Some(after) => match back {
            None => Ok((Called::Says(Said::Prints(front)), after)),
            Some(_) => Err(SpecErrorKind::UnknownStatement),
        },
        None => {
            let Some(after) = second_word(b"yytext".as_slice(), text) else {
                return Err(SpecErrorKind::UnknownStatement);
            };
            match back {
                None => Err(SpecErrorKind::UnknownStatement),
                Some(back) => Ok((Called::Says(Said::PrintsText(front, back)), after)),
            }
        }
    }
}

/// The arguments of printf: a format, and yytext where it has a `%s`.
#[tactic(auto, unfolding(crate::specs::ActionSteps::printf_at))]
fn printf_at(alloc: Global, text: &[u8]) -> Result<(Called, &[u8]), SpecErrorKind>
    ensures spelled { CallReads (λ x. x.0) (λ x. x.1.now) result (printf_at text.now) }
    ensures shorter { IfOk result (λ x. length x.1.now ≤ length text.now) }
    ensures fault { IfErr result (λ e. IsActionFault e) }
{
    let Some(inside) = next(b'(', text) else {
        return Err(SpecErrorKind::UnknownStatement);
    };
    let (literal, rest) = literal_at(alloc, inside)?;
    formatted_at(alloc, &literal, rest)
}

/// The arguments of fputs: a string and yyout.
#[tactic(auto, unfolding(crate::specs::ActionSteps::fputs_at))]
fn fputs_at(alloc: Global, text: &[u8]) -> Result<(Called, &[u8]), SpecErrorKind>
    ensures spelled { CallReads (λ x. x.0) (λ x. x.1.now) result (fputs_at text.now) }
    ensures shorter { IfOk result (λ x. length x.1.now ≤ length text.now) }
    ensures fault { IfErr result (λ e. IsActionFault e) }
{
    let Some(inside) = next(b'(', text) else {
        return Err(SpecErrorKind::UnknownStatement);
    };
    let (literal, rest) = literal_at(alloc, inside)?;
    let Some(after) = second_word(b"yyout".as_slice(), rest) else {
        return Err(SpecErrorKind::UnknownStatement);
    };
    Ok((Called::Says(Said::Prints(literal)), after))
}

/// The argument of puts: a string, after which a newline is printed.
#[tactic(auto, unfolding(crate::specs::ActionSteps::puts_at))]
fn puts_at(alloc: Global, text: &[u8]) -> Result<(Called, &[u8]), SpecErrorKind>
    ensures spelled { CallReads (λ x. x.0) (λ x. x.1.now) result (puts_at text.now) }
    ensures shorter { IfOk result (λ x. length x.1.now ≤ length text.now) }
    ensures fault { IfErr result (λ e. IsActionFault e) }
{
    let Some(inside) = next(b'(', text) else {
        return Err(SpecErrorKind::UnknownStatement);
    };
    let (literal, rest) = literal_at(alloc, inside)?;
    let Some(after) = next(b')', rest) else {
        return Err(SpecErrorKind::UnknownStatement);
    };
    let mut line = literal;
    line.push(b'\n')?;
    Ok((Called::Says(Said::Prints(line)), after))
}

/// The parentheses of yymore.
#[tactic(auto, unfolding(crate::specs::ActionSteps::yymore_at))]
fn yymore_at(text: &[u8]) -> Option<(Called, &[u8])>
    ensures spelled { CallFinds (λ x. x.0) (λ x. x.1.now) result (yymore_at text.now) }
    ensures shorter { IfSome result (λ x. length x.1.now ≤ length text.now) }
{
    let rest = no_argument(text)?;
    Some((Called::Says(Said::Does(Statement::More)), rest))
}

/// The parentheses of yyterminate, which ends the scan with status 0.
#[tactic(auto, unfolding(crate::specs::ActionSteps::yyterminate_at))]
fn yyterminate_at(text: &[u8]) -> Option<(Called, &[u8])>
    ensures spelled { CallFinds (λ x. x.0) (λ x. x.1.now) result (yyterminate_at text.now) }
    ensures shorter { IfSome result (λ x. length x.1.now ≤ length text.now) }
{
    let rest = no_argument(text)?;
    Some((Called::Says(Said::Does(Statement::End(0))), rest))
}

/// The argument of yyless, from 1 on; another is a `BadCount`.
#[tactic(auto, unfolding(crate::specs::ActionSteps::yyless_at))]
fn yyless_at(text: &[u8]) -> Option<(Called, &[u8])>
    ensures spelled { CallFinds (λ x. x.0) (λ x. x.1.now) result (yyless_at text.now) }
    ensures shorter { IfSome result (λ x. length x.1.now ≤ length text.now) }
{
    let (number, rest) = number_argument(text)?;
    if number == 0 || number > MAX_KEPT {
        return Some((Called::BadCount, rest));
    }
    Some((
        Called::Says(Said::Does(Statement::Less(number as u16))),
        rest,
    ))
}

/// The argument of exit; a status that is too great is a `BadStatus`.
#[tactic(auto, unfolding(crate::specs::ActionSteps::exit_at))]
fn exit_at(text: &[u8]) -> Option<(Called, &[u8])>
    ensures spelled { CallFinds (λ x. x.0) (λ x. x.1.now) result (exit_at text.now) }
    ensures shorter { IfSome result (λ x. length x.1.now ≤ length text.now) }
{
    let (number, rest) = number_argument(text)?;
    if number > MAX_STATUS {
        return Some((Called::BadStatus, rest));
    }
    Some((Called::Says(Said::Does(Statement::End(number as u8))), rest))
}

/// A condition, which may not be declared: its name, or `0`.
#[tactic(auto, unfolding(crate::specs::ActionSteps::condition_at))]
fn condition_at<'a>(conditions: &[Condition], text: &'a [u8]) -> Option<(Option<u8>, &'a [u8])>
    requires { length conditions.now ≤ max_conditions }
    ensures spelled { ConditionReads (λ x. x.0) (λ x. x.1.now) result
        (condition_at (number_from 0 (names_of conditions.now)) text.now) }
    ensures shorter { IfSome result (λ x. length x.1.now ≤ length text.now) }
{
    match name_at(skip(text)) {
        Some((name, rest)) => Some((number_of(conditions, name), rest)),
        None => {
            let (digits, rest) = digits_at(skip(text))?;
            if digits == b"0".as_slice() {
                Some((Some(0), rest))
            } else {
                None
            }
        }
    }
}

/// A condition and a closing parenthesis.
#[tactic(auto, unfolding(crate::specs::ActionSteps::closed_condition))]
fn closed_condition<'a>(conditions: &[Condition], text: &'a [u8]) -> Option<(Option<u8>, &'a [u8])>
    requires { length conditions.now ≤ max_conditions }
    ensures spelled { ConditionReads (λ x. x.0) (λ x. x.1.now) result
        (closed_condition (number_from 0 (names_of conditions.now)) text.now) }
    ensures shorter { IfSome result (λ x. length x.1.now ≤ length text.now) }
{
    let (number, rest) = condition_at(conditions, text)?;
    let after = next(b')', rest)?;
    Some((number, after))
}

/// What a `BEGIN` of this condition says.
fn begins(number: Option<u8>) -> Called
    ensures { BeginReads number result }
{
    match number {
        Some(number) => Called::Says(Said::Does(Statement::Begin(number))),
        None => Called::UnknownCondition,
    }
}

/// The condition of BEGIN, in parentheses or without.
#[tactic(auto, unfolding(crate::specs::ActionSteps::begin_at))]
fn begin_at<'a>(conditions: &[Condition], text: &'a [u8]) -> Option<(Called, &'a [u8])>
    requires { length conditions.now ≤ max_conditions }
    ensures spelled { CallFinds (λ x. x.0) (λ x. x.1.now) result
        (begin_at (number_from 0 (names_of conditions.now)) text.now) }
    ensures shorter { IfSome result (λ x. length x.1.now ≤ length text.now) }
{
    if let Some(inside) = next(b'(', text) {
        let (number, rest) = closed_condition(conditions, inside)?;
        return Some((begins(number), rest));
    }
    let (number, rest) = condition_at(conditions, text)?;
    Some((begins(number), rest))
}

/// What a `yy_push_state` of this condition says.
fn push_of(number: Option<u8>) -> Called
    ensures { PushReads number result }
{
    match number {
        Some(number) => Called::Says(Said::Does(Statement::Push(number))),
        None => Called::UnknownCondition,
    }
}

/// The condition of yy_push_state, in parentheses.
#[tactic(auto, unfolding(crate::specs::ActionSteps::push_at))]
fn push_at<'a>(conditions: &[Condition], text: &'a [u8]) -> Option<(Called, &'a [u8])>
    requires { length conditions.now ≤ max_conditions }
    ensures spelled { CallFinds (λ x. x.0) (λ x. x.1.now) result
        (push_at (number_from 0 (names_of conditions.now)) text.now) }
    ensures shorter { IfSome result (λ x. length x.1.now ≤ length text.now) }
{
    if let Some(inside) = next(b'(', text) {
        let (number, rest) = closed_condition(conditions, inside)?;
        return Some((push_of(number), rest));
    }
    None
}

/// The parentheses of yy_pop_state.
#[tactic(auto, unfolding(crate::specs::ActionSteps::pop_at))]
fn pop_at(text: &[u8]) -> Option<(Called, &[u8])>
    ensures spelled { CallFinds (λ x. x.0) (λ x. x.1.now) result (pop_at text.now) }
    ensures shorter { IfSome result (λ x. length x.1.now ≤ length text.now) }
{
    let rest = no_argument(text)?;
    Some((Called::Says(Said::Does(Statement::Pop)), rest))
}

/// The statements of the stack of conditions, by their first word.
#[tactic(auto, unfolding(crate::specs::ActionSteps::stack_word))]
fn stack_word<'a>(
    conditions: &[Condition],
    word: &[u8],
    text: &'a [u8],
) -> Option<(Called, &'a [u8])>
    requires { length conditions.now ≤ max_conditions }
    ensures spelled { CallFinds (λ x. x.0) (λ x. x.1.now) result
        (stack_word (number_from 0 (names_of conditions.now)) word.now text.now) }
    ensures shorter { IfSome result (λ x. length x.1.now ≤ length text.now) }
{
    if word == b"yy_push_state".as_slice() {
        push_at(conditions, text)
    } else if word == b"yy_pop_state".as_slice() {
        pop_at(text)
    } else {
        None
    }
}

/// What follows a statement: a semicolon is passed, and else a closing brace or the end of the text comes next.
#[tactic(auto, unfolding(crate::specs::ActionSteps::after_statement))]
fn after_statement(text: &[u8]) -> Option<&[u8]>
    ensures spelled { option_map (λ r. r.now) result ≡ after_statement text.now }
    ensures shorter { IfSome result (λ x. length x.now ≤ length text.now) }
{
    if let Some(rest) = next(b';', text) {
        return Some(rest);
    }
    match skip(text).split_first() {
        None => Some(text),
        Some((first, _after)) => { if *first == b'}' { Some(text) } else { None } }
    }
}

/// What a call says by its first word, and what follows it. The stack's words count only where `stack` says so.
#[tactic(auto, unfolding(crate::specs::ActionSteps::after_word))]
fn after_word<'a>(
    alloc: Global,
    conditions: &[Condition],
    stack: bool,
    word: &[u8],
    text: &'a [u8],
) -> Result<(Called, &'a [u8]), SpecErrorKind>
    requires { length conditions.now ≤ max_conditions }
    ensures spelled { CallReads (λ x. x.0) (λ x. x.1.now) result
        (after_word (known_in (names_of conditions.now) stack) word.now text.now) }
    ensures shorter { IfOk result (λ x. length x.1.now ≤ length text.now) }
    ensures fault { IfErr result (λ e. IsActionFault e) }
{
    if word == b"ECHO".as_slice() {
        Ok((Called::Says(Said::Does(Statement::Echo)), text))
    } else if word == b"REJECT".as_slice() {
        Ok((Called::Says(Said::Does(Statement::Reject)), text))
    } else if word == b"BEGIN".as_slice() {
        begin_at(conditions, text).ok_or(SpecErrorKind::UnknownStatement)
    } else if word == b"yymore".as_slice() {
        yymore_at(text).ok_or(SpecErrorKind::UnknownStatement)
    } else if word == b"yyless".as_slice() {
        yyless_at(text).ok_or(SpecErrorKind::UnknownStatement)
    } else if word == b"yyterminate".as_slice() {
        yyterminate_at(text).ok_or(SpecErrorKind::UnknownStatement)
    } else if word == b"exit".as_slice() {
        exit_at(text).ok_or(SpecErrorKind::UnknownStatement)
    } else if word == b"printf".as_slice() {
        printf_at(alloc, text)
    } else if word == b"fputs".as_slice() {
        fputs_at(alloc, text)
    } else if word == b"puts".as_slice() {
        puts_at(alloc, text)
    } else if stack {
        stack_word(conditions, word, text).ok_or(SpecErrorKind::UnknownStatement)
    } else {
        Err(SpecErrorKind::UnknownStatement)
    }
}

/// The statement at the front of a text, and what follows it. `UnknownStatement` where none of the list stands there;
/// else the fault of its argument.
#[tactic(auto, unfolding(crate::specs::ActionSteps::statement_at))]
pub(crate) fn statement_at<'a>(
    alloc: Global,
    conditions: &[Condition],
    stack: bool,
    text: &'a [u8],
) -> Result<(Said, &'a [u8]), SpecErrorKind>
    requires { length conditions.now ≤ max_conditions }
    ensures spelled { Reads (λ x. (said_of x.0, x.1.now)) result
        (statement_at (known_in (names_of conditions.now) stack) text.now) }
    ensures shorter { IfOk result (λ x. length x.1.now < length text.now) }
    ensures fault { IfErr result (λ e. IsActionFault e) }
{
    let Some((word, rest)) = name_at(text) else {
        return Err(SpecErrorKind::UnknownStatement);
    };
    let (called, after) = after_word(alloc, conditions, stack, word, rest)?;
    let Some(last) = after_statement(after) else {
        return Err(SpecErrorKind::UnknownStatement);
    };
    match called {
        Called::Says(said) => Ok((said, last)),
        Called::BadCount => Err(SpecErrorKind::BadCount),
        Called::BadStatus => Err(SpecErrorKind::BadStatus),
        Called::UnknownCondition => Err(SpecErrorKind::UnknownCondition),
    }
}
