//! Texts written part by part.
ghost use Rattle.std.specs.Prelude.{◌≡◌, ℕ, ◌+◌, ◌-◌, ◌^◌, ◌<◌, List};
ghost use Rattle.lex_io.specs.Sink.{Appended, fault_count};
ghost use Rattle.lexauto_reports.specs.Joined.{joined};

use lex_io::{Sink, WriteFault};

/// Puts the parts, one after another. After a fault a prefix of them was put. It takes no memory.
pub fn put_all<K: Sink>(sink: &mut K, parts: &[&str]) -> Result<(), WriteFault>
    requires { K.failures sink.old < 2 ^ 64 - 1 }
    ensures bytes { Appended (λ xs. K.wrote sink.old xs sink.new) (joined parts.now) result }
    ensures failures { K.failures sink.new ≡ K.failures sink.old + fault_count result }
{
    for part in parts {
        if let Err(fault) = sink.put(part.as_bytes()) {
            return Err(fault);
        }
    }
    Ok(())
}
