//! Inputs of a suite: what the scan of a text writes, with its status and its tokens.
ghost use Rattle.std.specs.Prelude.{◌≡◌, ℕ, IfOk, OnOk};
ghost use Rattle.lex_semantics.specs.Acting.{Status};
ghost use Rattle.lex_semantics.specs.Run.{Run};
ghost use Rattle.lex_semantics.specs.Text.{IsText};
ghost use Rattle.lexscan.specs.Tokens.{Tokenised};
ghost use Rattle.lexlook_suites.specs.Gathers.{IsScanned, rules_by};
ghost use Rattle.lexlook_suites.specs.Inputs.{IsInputOf};

use lex_io::SliceSource;
use lexkit::{Flat, MAX_READS, MemorySink, RunError, run};
use lexscan::{Token, tokens};
use std::alloc::{AllocError, Global};

/// A text, with what its scan does.
#[derive(Drop)]
pub struct Input {
    /// The start condition for whose edges and rules it was made.
    pub condition: u8,
    pub text: Vec<u8>,
    /// What the scan writes.
    pub output: Vec<u8>,
    /// The status that the scan ends with, 0 to 63.
    pub status: u8,
    pub tokens: Vec<Token>,
}

/// What the scan of a text writes. It is refused where memory runs out.
fn output_of(alloc: Global, machine: &Flat, text: &[u8]) -> Result<Vec<u8>, AllocError>
    ensures ran { IfOk result (λ out. (status : ℕ) × Run (rules_by machine.now) text.now out.items (Status status)) }
    ensures text { IfOk result (λ out. IsText text.now) }
{
    let mut source = SliceSource::new(text);
    let mut sink = MemorySink::new(alloc);
    match run(alloc, machine, &mut source, &mut sink, MAX_READS) {
        Err(_) => Err(AllocError),
        Ok(_) => Ok(sink.into_bytes()),
    }
}

/// Whether a scan stopped where the stack of conditions is at fault. Else memory ran out.
fn is_fault(error: RunError) -> Result<(), AllocError>
    ensures { OnOk result (error ≡ RunError.Stack) }
{
    match error {
        RunError::Stack => Ok(()),
        _ => Err(AllocError),
    }
}

/// The input of a text and its tokens, with what its scan writes.
fn with_output(
    alloc: Global,
    machine: &Flat,
    condition: u8,
    text: Vec<u8>,
    tokens: Vec<Token>,
    status: u8,
) -> Result<Input, AllocError>
    requires { Tokenised (rules_by machine.now) text.items tokens.items (Status status) }
    ensures { IfOk result (λ i. (i.text.items ≡ text.items) × IsInputOf (rules_by machine.now) i) }
{
    let output = output_of(alloc, machine, text.as_slice())?;
    Ok(Input {
        condition,
        text,
        output,
        status,
        tokens,
    })
}

/// Scans a text: an input, made for this condition, unless the scan stops where the stack of conditions is at fault.
pub(crate) fn scan_text(
    alloc: Global,
    machine: &Flat,
    condition: u8,
    text: Vec<u8>,
) -> Result<Option<Input>, AllocError>
    ensures { IfOk result (IsScanned (rules_by machine.now) text.items) }
{
    let mut list = Vec::new(alloc);
    match tokens(alloc, machine, text.as_slice(), &mut list) {
        Err(error) => {
            is_fault(error)?;
            Ok(None)
        }
        Ok(status) => {
            let input = with_output(alloc, machine, condition, text, list, status)?;
            Ok(Some(input))
        }
    }
}
