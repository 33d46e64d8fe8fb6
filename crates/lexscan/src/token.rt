//! The tokens of a whole input.
ghost use Rattle.std.specs.Prelude.{◌≡◌, ◌+◌, ◌^◌, ◌<◌, ◌≤◌, List, ◌++◌, length, drop, map, IfOk, IfErr, IfSome};
ghost use Rattle.std.specs.Prelude.{OnOk, OnErr};
ghost use Rattle.lex_semantics.specs.Acting.{Status};
ghost use Rattle.lex_semantics.specs.Machine.{rules_of_machine};
ghost use Rattle.lex_semantics.specs.Text.{part};
ghost use Rattle.lexscan.specs.declared.token.Token.{Token as TokenModel};
ghost use Rattle.lexscan.specs.Tokens.{LieIn, Stopped, Tokenised, token_by, tokens_by};

use crate::scanner::Scanner;
use crate::turn::Turn;
use lex_io::{NullSink, SliceSource};
use lex_machine::Machine;
use lexscan_window::{Match, MatchedRule, RunError};
use std::alloc::{AllocError, Global};

/// A match in a text: its rule, where its text begins and ends, counted in bytes, and the start condition in which it
/// was made. The text begins with what yymore kept before it, and ends after trailing context and yyless.
#[derive(Clone, Copy, Debug, PartialEq, Eq)]
pub struct Token {
    pub rule: MatchedRule,
    pub start: usize,
    pub end: usize,
    pub condition: u8,
}

impl Token {
    /// Its text, where it is a token of this input.
    pub fn text<'a>(&self, input: &'a [u8]) -> &'a [u8]
        requires order { self.now.start ≤ self.now.end }
        requires inside { self.now.end ≤ length input.now }
        ensures { result.now ≡ part input.now self.now.start self.now.end }
    {
        &input[self.start..self.end]
    }
}

/// The token that a match is.
fn token_of(matched: Match, condition: u8) -> Token
    requires { matched.start + matched.length < 2 ^ 64 }
    ensures { result ≡ token_by matched condition }
{
    let start = matched.start as usize;
    Token {
        rule: matched.rule,
        start,
        end: start + matched.length,
        condition,
    }
}

/// Appends the token of a match, where there is one.
fn append(list: &mut Vec<Token>, matched: Option<Match>, condition: u8) -> Result<(), RunError>
    requires { IfSome matched (λ m. m.start + m.length < 2 ^ 64) }
    ensures appended { OnOk result (list.new.items ≡ list.old.items ++ tokens_by matched condition) }
    ensures unchanged { OnErr result (list.new.items ≡ list.old.items) }
    ensures memory { IfErr result (λ e. e ≡ RunError.OutOfMemory) }
{
    match matched {
        None => Ok(()),
        Some(matched) => match list.push(token_of(matched, condition)) {
            Ok(()) => Ok(()),
            Err(_) => Err(RunError::OutOfMemory),
        },
    }
}

/// Appends the tokens of an input to a list: the match of each turn of its scan, in order. Answers the status with
/// which the scan ends. Nothing is written. It is refused only where memory runs out, and as `Stack` where a push
/// finds the stack of start conditions full or a pop finds it empty. Then the tokens of the turns before are in the
/// list. Each token lies in the input, and begins no earlier than the one before it.
pub fn tokens<M: Machine>(
    alloc: Global,
    machine: &M,
    input: &[u8],
    list: &mut Vec<Token>,
) -> Result<u8, RunError>
    ensures listed { IfOk result (λ status. (us : List TokenModel) × (list.new.items ≡ list.old.items ++ us)
        × Tokenised (rules_of_machine (M.machine machine.now)) input.now us (Status status)) }
    ensures refused { IfErr result (λ e. (us : List TokenModel) × (list.new.items ≡ list.old.items ++ us)
        × Stopped (rules_of_machine (M.machine machine.now)) input.now us e) }
    ensures inside { LieIn (length input.now) 0 (drop (length list.old.items) list.new.items) }
{
    let mut source = SliceSource::new(input);
    let mut sink = NullSink {};
    let mut scanner = Scanner::new(alloc, machine, &mut source, &mut sink, u64::MAX);
    'turns: loop {
        // The match is made in the condition before its turn, which may set another.
        let condition = scanner.condition();
        let turn = match scanner.turn() {
            Ok(turn) => turn,
            Err(fault) => return Err(fault),
        };
        append(list, scanner.matched(), condition)?;
        match turn {
            Turn::Went => {}
            Turn::Ended(status) => return Ok(status),
        }
    }
}

/// The texts of tokens that lie in an input, one after another.
pub fn texts_of<'a>(
    alloc: Global,
    input: &'a [u8],
    tokens: &[Token],
) -> Result<Vec<&'a [u8]>, AllocError>
    requires { LieIn (length input.now) 0 tokens.now }
    ensures { IfOk result (λ texts. map (λ s. s.now) texts.items ≡ map (λ t. part input.now t.start t.end) tokens.now) }
{
    let mut texts = Vec::new(alloc);
    for token in tokens {
        texts.push(token.text(input))?;
    }
    Ok(texts)
}
