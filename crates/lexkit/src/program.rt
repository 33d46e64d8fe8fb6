//! What the programs have in common: the words of the command line, the files that are read, and how a failure is
//! reported.
ghost use Rattle.std.specs.Prelude.{◌≡◌, ◌⊎◌, IfErr};
ghost use Rattle.std.specs.Process.{exit_status};
ghost use Rattle.lexkit.specs.Failures.{out_of_memory, told_status};
ghost use Rattle.lexkit.specs.declared.failure.Failure.{Failure};

use crate::failure::Failure;
use crate::faults::write_fault;
use lex_semantics::MAX_FILE_BYTES;
use lextab::ToWrite;
use std::alloc::AllocError;
use std::fs::File;
use std::io::{ErrorKind, Read};
use std::process::ExitCode;
use std::{env, io};

/// The bytes that are read of a specification at most: one more than it may have.
pub const SPEC_READ_BYTES: u64 = MAX_FILE_BYTES as u64 + 1;

/// The bytes of the longest table file.
pub const MAX_TABLE_BYTES: u64 = 268_435_456;

/// The words of the command line behind the program's name. A word that is no text is refused as a wrong command line.
pub fn command_words(rt: &HostRuntime) -> Result<Vec<String>, Failure> {
    let words = match env::args(rt) {
        Ok(words) => words,
        Err(error) => {
            return Err(match error.kind() {
                ErrorKind::OutOfMemory => Failure::from(AllocError),
                _ => Failure::Usage,
            });
        }
    };
    let words: Vec<String> = words.skip(1).collect(rt.alloc())?;
    Ok(words)
}

/// How many bytes of a file there is room for at once. More is asked for as it is read.
const MOST_AT_ONCE: u64 = 1_048_576;

/// The size that is told of a file, or 0 where none is told. It may have more bytes or fewer. It stands by itself, so that
/// what it asks for takes no room on the stack while the file is read.
#[inline(never)]
fn size_of(file: &File) -> u64 {
    match file.metadata() {
        Ok(told) => told.len(),
        Err(_) => 0,
    }
}

/// Reads a file on until the text has this many bytes. `-` is standard input.
pub fn read_more(rt: &HostRuntime, name: &str, most: u64, text: &mut Vec<u8>) -> io::Result<()> {
    let room = most.saturating_sub(text.len() as u64);
    if name == "-" {
        rt.stdin().take(room).read_to_end(text)?;
    } else {
        let file = File::open(rt, name)?;
        text.reserve(size_of(&file).min(room).min(MOST_AT_ONCE) as usize + 1)?;
        file.take(room).read_to_end(text)?;
    }
    Ok(())
}

/// The text of a specification file. `-` is standard input. Of a longer one than a specification may be it is one byte
/// more, and what follows is not read.
pub fn read_spec_file(rt: &HostRuntime, name: String) -> Result<Vec<u8>, Failure>
    ensures { IfErr result (λ failure. (failure ≡ out_of_memory) ⊎ (failure ≡ Failure.File name)) }
{
    let mut text = Vec::new(rt.alloc());
    match read_more(rt, name.as_str(), SPEC_READ_BYTES, &mut text) {
        Ok(()) => Ok(text),
        Err(error) => Err(Failure::of_file(error.kind(), name)),
    }
}

/// Reports what ended a program, in a line on standard error, and answers the status that it exits with.
pub fn report_failure(rt: &HostRuntime, failure: &Failure) -> ExitCode
    ensures { exit_status result ≡ told_status failure.now }
{
    let fault = failure.fault();
    let _ = write_fault(fault, &mut ToWrite::new(rt.stderr()));
    ExitCode::from(fault.status())
}
