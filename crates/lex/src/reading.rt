//! The files that the program reads.
ghost use Rattle.std.specs.Prelude.{◌≡◌, ◌⊎◌, IfErr};
ghost use Rattle.lexkit.specs.Failures.{out_of_memory};
ghost use Rattle.lexkit.specs.declared.failure.Failure.{Failure};

use lexkit::{Failure, MAX_FILE_BYTES, MAX_TABLE_BYTES, SPEC_READ_BYTES, read_more};

/// The text that the files are together. No file, and `-`, is standard input. Of a longer one than a specification
/// may be it is one byte more, and what follows is not read.
pub fn read_specification(rt: &HostRuntime, files: &[String]) -> Result<Vec<u8>, Failure> {
    let mut text = Vec::new(rt.alloc());
    if files.is_empty() {
        if let Err(error) = read_more(rt, "-", SPEC_READ_BYTES, &mut text) {
            return Err(Failure::of_file(error.kind(), String::from_str(rt.alloc(), "-")?));
        }
    }
    for file in files {
        if let Err(error) = read_more(rt, file.as_str(), SPEC_READ_BYTES, &mut text) {
            let name = String::from_str(rt.alloc(), file.as_str())?;
            return Err(Failure::of_file(error.kind(), name));
        }
        if text.len() > MAX_FILE_BYTES {
            return Ok(text);
        }
    }
    Ok(text)
}

/// The bytes of a table file. One of more than 268,435,456 bytes cannot be read. It stands by itself, so that the loops of a
/// scan, which the compiler puts after it, begin where their jumps are cheap.
#[inline(never)]
pub fn read_table_file(rt: &HostRuntime, name: String) -> Result<Vec<u8>, Failure>
    ensures { IfErr result (λ failure. (failure ≡ out_of_memory) ⊎ (failure ≡ Failure.File name)) }
{
    let mut bytes = Vec::new(rt.alloc());
    match read_more(rt, name.as_str(), MAX_TABLE_BYTES + 1, &mut bytes) {
        Ok(()) if bytes.len() as u64 > MAX_TABLE_BYTES => Err(Failure::File(name)),
        Ok(()) => Ok(bytes),
        Err(error) => Err(Failure::of_file(error.kind(), name)),
    }
}
