//! The lines that tell states that back up.
ghost use Rattle.std.specs.Prelude.{◌≡◌, ℕ, ◌+◌, ◌-◌, ◌^◌, ◌<◌, List, flat_map};
ghost use Rattle.lex_io.specs.Sink.{Appended, fault_count};
ghost use Rattle.lexauto_reports.specs.ReportLines.{backup_line, backup_lines, shown};

use crate::writing::put_all;
use itoa::Buffer;
use lex_io::{Sink, WriteFault, octal};

/// A state that backs up, and a word that leads to it.
#[derive(Drop, Debug)]
pub struct BackUp {
    /// The state's number.
    pub state: u32,
    /// Its first word: of the words of two bytes or more that lead there the shortest, and of these the first in byte
    /// order.
    pub word: Vec<u8>,
}

/// Writes a line for each entry, as `state 3 after "ab"`, and then a line with their count. In a word a quote and a
/// backslash stand after a backslash, and a byte that cannot be printed stands as a backslash and three octal digits.
/// It takes no memory.
pub fn write_backup<K: Sink>(entries: &[BackUp], sink: &mut K) -> Result<(), WriteFault>
    requires { K.failures sink.old < 2 ^ 64 - 1 }
    ensures bytes { Appended (λ xs. K.wrote sink.old xs sink.new) (backup_lines entries.now) result }
    ensures failures { K.failures sink.new ≡ K.failures sink.old + fault_count result }
{
    for entry in entries {
        if let Err(fault) = write_entry(entry, sink) {
            return Err(fault);
        }
    }
    let mut count = Buffer::new();
    let count = count.format(entries.len());
    put_all(sink, &["states that back up: ", count, "\n"])
}

/// Writes the line of a state that backs up.
fn write_entry<K: Sink>(entry: &BackUp, sink: &mut K) -> Result<(), WriteFault>
    requires { K.failures sink.old < 2 ^ 64 - 1 }
    ensures bytes { Appended (λ xs. K.wrote sink.old xs sink.new) (backup_line entry.now) result }
    ensures failures { K.failures sink.new ≡ K.failures sink.old + fault_count result }
{
    let mut state = Buffer::new();
    let state = state.format(entry.state);
    if let Err(fault) = put_all(sink, &["state ", state, " after \""]) {
        return Err(fault);
    }
    if let Err(fault) = write_word(&entry.word, sink) {
        return Err(fault);
    }
    sink.put(b"\"\n")
}

/// Writes the bytes of a word as they stand between the quotes of a line.
fn write_word<K: Sink>(word: &[u8], sink: &mut K) -> Result<(), WriteFault>
    requires { K.failures sink.old < 2 ^ 64 - 1 }
    ensures bytes { Appended (λ xs. K.wrote sink.old xs sink.new) (flat_map shown word.now) result }
    ensures failures { K.failures sink.new ≡ K.failures sink.old + fault_count result }
{
    for byte in word {
        if let Err(fault) = write_byte(*byte, sink) {
            return Err(fault);
        }
    }
    Ok(())
}

/// Writes a byte of a word: itself, after a backslash where it is a quote or a backslash, or in octal digits where it
/// cannot be printed.
fn write_byte<K: Sink>(byte: u8, sink: &mut K) -> Result<(), WriteFault>
    requires { K.failures sink.old < 2 ^ 64 - 1 }
    ensures bytes { Appended (λ xs. K.wrote sink.old xs sink.new) (shown byte) result }
    ensures failures { K.failures sink.new ≡ K.failures sink.old + fault_count result }
{
    if byte == b'"' || byte == b'\\' {
        return sink.put(&[b'\\', byte]);
    }
    if byte >= b' ' && byte <= b'~' {
        return sink.put(&[byte]);
    }
    sink.put(&octal(byte))
}
