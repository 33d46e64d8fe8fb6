//! Tokens.
ghost use Rattle.std.specs.Prelude.{length};
ghost use Rattle.lexscan.specs.Tokens.{LieIn};

use crate::answer::{Answer, lines_of};
use crate::caller::tokens_by;
use crate::escapes::escaped;
use crate::row::Row;
use crate::scans::options_of;
use lexkit::{
    Fault, MatchedRule, MemorySink, MemorySource, ScanError, Scanner, Tables, Token, Turn,
    generate, texts_of,
};
use std::alloc::{AllocError, Global};

/// How many newlines a text has.
fn newlines_of(text: &[u8]) -> usize {
    let mut count: usize = 0;
    for byte in text {
        if *byte == b'\n' {
            count = count.saturating_add(1);
        }
    }
    count
}

/// Adds the line of a token: the number of its rule, or `-` for the default rule, its condition, its line and its text.
fn add_token(
    alloc: Global,
    out: &mut Vec<u8>,
    token: &Token,
    line: usize,
    text: &[u8],
) -> Result<(), AllocError> {
    let condition = token.condition;
    let text = escaped(alloc, text)?;
    let told = match token.rule {
        MatchedRule::Numbered(number) => format!(in alloc; "{number} {condition} {line} {text}\n")?,
        MatchedRule::Default => format!(in alloc; "- {condition} {line} {text}\n")?,
    };
    out.extend_from_slice(told.as_bytes())
}

/// The lines of tokens.
fn lines_of_tokens(
    alloc: Global,
    input: &[u8],
    tokens: &[Token],
    texts: &[&[u8]],
) -> Result<Vec<u8>, AllocError> {
    let mut out = Vec::new(alloc);
    for (token, text) in tokens.iter().zip(texts) {
        let before = input.get(..token.start).unwrap_or(b"");
        let line = newlines_of(before).saturating_add(1);
        add_token(alloc, &mut out, token, line, *text)?;
    }
    Ok(out)
}

/// A scanner over memory.
type Turns<'a, 'b> = Scanner<'a, Tables, MemorySource<'b>, MemorySink>;

/// The next turn, where it makes this token.
fn turn_to(scanner: &mut Turns<'_, '_>, token: &Token, text: &[u8]) -> Option<Turn> {
    let condition = scanner.condition();
    let turn = scanner.turn().ok()?;
    let matched = scanner.matched()?;
    let so = matched.rule == token.rule && condition == token.condition && scanner.text() == text;
    if so { Some(turn) } else { None }
}

/// Whether the next turn ends the scan with this status, and makes no token.
fn ends_so(scanner: &mut Turns<'_, '_>, status: u8) -> bool {
    scanner.turn() == Ok(Turn::Ended(status))
        && scanner.matched().is_none()
        && scanner.text().is_empty()
}

/// Whether the turns of a scanner make these tokens, and the last one of them or the next one ends the scan.
fn turns_so(
    alloc: Global,
    tables: &Tables,
    input: &[u8],
    tokens: &[Token],
    texts: &[&[u8]],
    status: u8,
) -> bool {
    let mut source = MemorySource::new(input);
    let mut sink = MemorySink::new(alloc);
    let mut scanner = Scanner::new(alloc, tables, &mut source, &mut sink, u64::MAX);
    let mut last = Turn::Went;
    for (token, text) in tokens.iter().zip(texts) {
        match turn_to(&mut scanner, token, *text) {
            Some(turn) => last = turn,
            None => return false,
        }
    }
    match last {
        Turn::Went => ends_so(&mut scanner, status),
        Turn::Ended(ended) => ended == status,
    }
}

/// The lines of these tokens of an input, and the status of its scan.
fn listed(
    alloc: Global,
    tables: &Tables,
    input: &[u8],
    tokens: &[Token],
    status: u8,
) -> Result<Answer, AllocError>
    requires { LieIn (length input.now) 0 tokens.now }
{
    let texts = texts_of(alloc, input, tokens)?;
    if !turns_so(alloc, tables, input, tokens, &texts, status) {
        return Answer::telling(alloc, "otherwise turn by turn\n");
    }
    let told = format!(in alloc; "status {status}\n")?;
    Ok(Answer {
        written: lines_of_tokens(alloc, input, tokens, &texts)?,
        told: Vec::from_slice(alloc, told.as_bytes())?,
    })
}

/// What is answered where there are no tokens.
fn refused(alloc: Global, error: ScanError) -> Result<Answer, AllocError> {
    Ok(Answer {
        written: Vec::new(alloc),
        told: lines_of(alloc, Fault::Scan(error))?,
    })
}

/// The tokens of an input by tables, with the status of its scan.
fn made(alloc: Global, tables: &Tables, input: &[u8]) -> Result<Answer, AllocError> {
    match tokens_by(alloc, tables, input) {
        Ok((tokens, status)) => listed(alloc, tables, input, &tokens, status),
        Err(error) => refused(alloc, ScanError::Run(error)),
    }
}

/// Writes the tokens of an input, and tells the status of its scan.
pub(crate) fn tokens(alloc: Global, row: &Row<'_>) -> Result<Answer, AllocError> {
    match generate(alloc, row.value("spec"), options_of(row)) {
        Ok(generated) => made(alloc, &generated.made.tables, row.value("input")),
        Err(error) => refused(alloc, ScanError::Generate(error)),
    }
}
