//! The files that the program reads: one of a subcommand, two that are compared, or those that are a specification together.
ghost use Rattle.std.specs.Prelude.{◌≡◌, ◌⊎◌, ℕ, true, false, IfErr, IfOk};
ghost use Rattle.lexkit.specs.Failures.{out_of_memory};
ghost use Rattle.lexlook_calls.specs.Sides.{is_table_file};
ghost use Rattle.lexlook.specs.declared.failure.LookFailure.{LookFailure};

use crate::failure::LookFailure;
use lexkit::{Failure, SPEC_READ_BYTES, read_more};
use lexlook_calls::is_table_file;
use lexlook_check::SourceFile;
use std::alloc::{AllocError, Global};

/// A file that was read.
#[derive(Drop)]
pub struct ReadFile {
    pub name: String,
    pub bytes: Vec<u8>,
}

/// The bytes of a file, this many at most. `-` is standard input.
pub fn read_file(rt: &HostRuntime, name: String, most: u64) -> Result<ReadFile, LookFailure>
    ensures { IfErr result (λ failure. (failure ≡ LookFailure.Plain out_of_memory)
        ⊎ ((reason : ℕ) × (failure ≡ LookFailure.Unread name reason))) }
{
    let mut bytes = Vec::new(rt.alloc());
    match read_more(rt, name.as_str(), most, &mut bytes) {
        Ok(()) => Ok(ReadFile { name, bytes }),
        Err(error) => {
            let reason = error.raw_os_error().unwrap_or(0).unsigned_abs();
            Err(LookFailure::unread(error.kind(), reason, name))
        }
    }
}

/// A file that is to be a specification. A table file is refused.
fn as_specification(file: ReadFile) -> Result<ReadFile, LookFailure>
    ensures taken { IfOk result (λ taken. (taken ≡ file) × (is_table_file file.bytes.items ≡ false)) }
    ensures refused { IfErr result (λ failure. (failure ≡ LookFailure.Table file.name) × (is_table_file file.bytes.items ≡ true)) }
{
    if is_table_file(file.bytes.as_slice()) {
        return Err(LookFailure::Table { file: file.name });
    }
    Ok(file)
}

/// The bytes of a file that is to be a specification: one more than it may have at most. A table file is refused. `-` is
/// standard input.
pub fn read_spec_file(rt: &HostRuntime, name: String) -> Result<ReadFile, LookFailure>
    ensures { IfOk result (λ file. is_table_file file.bytes.items ≡ false) }
{
    as_specification(read_file(rt, name, SPEC_READ_BYTES)?)
}

/// The files that are a specification together. Of a longer one than a specification may be it is one byte more, and what
/// follows is not read.
pub fn read_files(rt: &HostRuntime, names: Vec<String>) -> Result<Vec<ReadFile>, LookFailure> {
    let mut files = Vec::new(rt.alloc());
    let mut room = SPEC_READ_BYTES;
    for name in names {
        let file = read_file(rt, name, room)?;
        room = room.saturating_sub(file.bytes.len() as u64);
        if files.push(file).is_err() {
            return Err(LookFailure::from(Failure::from(AllocError)));
        }
        if room == 0 {
            return Ok(files);
        }
    }
    Ok(files)
}

/// The files, each with its name and its bytes.
pub fn source_files(alloc: Global, files: &[ReadFile]) -> Result<Vec<SourceFile<'_>>, AllocError> {
    let mut sources = Vec::new(alloc);
    for file in files {
        sources.push(SourceFile {
            name: file.name.as_str(),
            bytes: file.bytes.as_slice(),
        })?;
    }
    Ok(sources)
}
