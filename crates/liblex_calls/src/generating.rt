//! Table files, made into a buffer of the caller.
ghost use Rattle.std.specs.Prelude.{◌≡◌, ◌≤◌, IfOk};
ghost use Rattle.lex_semantics.specs.Limits.{max_positions, max_states};
ghost use Rattle.lexkit.specs.Faults.{line_of, gen_words, gen_status};
ghost use Rattle.lextab_file.specs.File.{file_of};
ghost use Rattle.lextab_packed.specs.Machines.{table_parts};
ghost use Rattle.lextab_packed.specs.Views.{table_of};
ghost use Rattle.liblex_calls.specs.Generating.{Generates, RefusesWith, fault_of, no_fault};

use crate::answer::Answer;
use crate::buffers::hand_out;
use crate::kinds::{build_number, kind_number};
use crate::memory::Kept;
use lexkit::{
    GenError, Options, ScanError, SpecError, SpecErrorKind, Tables, WriteFault, generate_tables,
    write_fault, write_tables,
};
use std::alloc::Global;

/// Why a text is refused: the number of its kind, with the line, from 1, and the place in the line's pattern, from 0.
/// All are 0 where nothing is refused.
#[repr(C)]
#[derive(Clone, Copy, Debug, PartialEq, Eq)]
pub struct TextFault {
    /// The line, from 1.
    pub line: u32,
    /// The number of the kind, as in include/lex.h.
    pub kind: u32,
    /// The byte of the line's pattern, from 0.
    pub place: usize,
}

/// What is told where nothing is refused.
const NONE: TextFault = TextFault {
    line: 0,
    kind: 0,
    place: 0,
};

/// What a refusal is told as.
fn fault_of(error: GenError) -> TextFault
    ensures { result ≡ fault_of error }
{
    match error {
        GenError::Spec(error) => spec_fault(error),
        GenError::Build(error) => TextFault {
            line: 0,
            kind: build_number(error),
            place: 0,
        },
        GenError::OutOfMemory => NONE,
    }
}

/// What a refusal of the text is told as.
fn spec_fault(error: SpecError) -> TextFault
    ensures { result ≡ fault_of (GenError.Spec error) }
{
    let place = match error.kind {
        SpecErrorKind::Pattern(pattern) => pattern.at,
        _ => 0,
    };
    TextFault {
        line: error.line,
        kind: kind_number(error.kind),
        place,
    }
}

/// The bytes of the file of some tables.
fn file_bytes(alloc: Global, tables: &Tables) -> Result<Kept, WriteFault>
    ensures { IfOk result (λ file. file.bytes.items ≡ file_of (table_of (table_parts tables.now))) }
{
    let mut sink = Kept::new(alloc);
    write_tables(tables, &mut sink)?;
    Ok(sink)
}

/// The line of the program that tells a refusal.
fn line_bytes(alloc: Global, error: GenError) -> Result<Kept, WriteFault>
    ensures { IfOk result (λ line. line.bytes.items ≡ line_of (gen_words error)) }
{
    let mut sink = Kept::new(alloc);
    write_fault(lexkit::Fault::Scan(ScanError::Generate(error)), &mut sink)?;
    Ok(sink)
}

/// Hands out what tells a refusal.
fn refuse(
    alloc: Global,
    error: GenError,
    buffer: &mut [u8],
    count: &mut usize,
    fault: &mut TextFault,
) -> Answer
    requires fresh_count { count.old ≡ 0 }
    requires fresh_fault { fault.old ≡ no_fault }
    ensures { RefusesWith error buffer.old buffer.new count.new fault.new result }
{
    if lexkit::Fault::Scan(ScanError::Generate(error)).status() != 65 {
        return Answer::OutOfMemory;
    }
    match line_bytes(alloc, error) {
        Err(_) => Answer::OutOfMemory,
        Ok(line) => {
            *fault = fault_of(error);
            hand_out(line.bytes.as_slice(), buffer, count);
            Answer::Refused
        }
    }
}

/// Makes the table file of the specification that a text spells, and hands it out into the buffer. Where the text is
/// refused, the line that tells why is handed out. How many bytes there are is told in `count`, also where the buffer
/// is too small.
pub fn generate_into(
    alloc: Global,
    text: &[u8],
    options: Options,
    buffer: &mut [u8],
    count: &mut usize,
    fault: &mut TextFault,
) -> Answer
    requires few_positions { options.limits.positions ≤ max_positions }
    requires few_states { options.limits.states ≤ max_states }
    ensures { Generates options text.now buffer.old buffer.new count.new fault.new result }
{
    *count = 0;
    *fault = NONE;
    match generate_tables(alloc, text, options) {
        Err(error) => refuse(alloc, error, buffer, count, fault),
        Ok(made) => match file_bytes(alloc, &made.tables) {
            Err(_) => Answer::OutOfMemory,
            Ok(file) => hand_out(file.bytes.as_slice(), buffer, count),
        },
    }
}
