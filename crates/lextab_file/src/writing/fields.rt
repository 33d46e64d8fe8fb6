//! Writes fields.
ghost use Rattle.std.specs.Prelude.{◌≡◌, ◌+◌, ◌-◌, ◌^◌, ◌<◌, ◌≤◌, length};
ghost use Rattle.std.specs.List.{flat_map};
ghost use Rattle.lex_io.specs.Sink.{Appended, fault_count};
ghost use Rattle.lextab_file.specs.File.{short, long, counted};
ghost use Rattle.lex_semantics.specs.Limits.{max_literal_bytes};

use lex_io::{Sink, WriteFault};

/// A number of two bytes.
pub fn put_short<K: Sink>(sink: &mut K, value: u16) -> Result<(), WriteFault>
    requires few { K.failures sink.old < 2 ^ 64 - 1 }
    ensures bytes { Appended (λ xs. K.wrote sink.old xs sink.new) (short value) result }
    ensures failures { K.failures sink.new ≡ K.failures sink.old + fault_count result }
{
    sink.put(&value.to_be_bytes())
}

/// A number of four bytes.
pub fn put_long<K: Sink>(sink: &mut K, number: u32) -> Result<(), WriteFault>
    requires few { K.failures sink.old < 2 ^ 64 - 1 }
    ensures bytes { Appended (λ xs. K.wrote sink.old xs sink.new) (long number) result }
    ensures failures { K.failures sink.new ≡ K.failures sink.old + fault_count result }
{
    sink.put(&number.to_be_bytes())
}

/// Numbers of four bytes.
pub fn put_longs<K: Sink>(sink: &mut K, numbers: &[u32]) -> Result<(), WriteFault>
    requires few { K.failures sink.old < 2 ^ 64 - 1 }
    ensures bytes { Appended (λ xs. K.wrote sink.old xs sink.new) (flat_map long numbers.now) result }
    ensures failures { K.failures sink.new ≡ K.failures sink.old + fault_count result }
{
    for number in numbers {
        put_long(sink, *number)?;
    }
    Ok(())
}

/// The length and the bytes.
pub fn put_string<K: Sink>(sink: &mut K, bytes: &[u8]) -> Result<(), WriteFault>
    requires few { K.failures sink.old < 2 ^ 64 - 1 }
    requires short { length bytes.now ≤ max_literal_bytes }
    ensures bytes { Appended (λ xs. K.wrote sink.old xs sink.new) (counted bytes.now) result }
    ensures failures { K.failures sink.new ≡ K.failures sink.old + fault_count result }
{
    put_long(sink, bytes.len() as u32)?;
    sink.put(bytes)
}
