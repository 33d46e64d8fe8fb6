//! Warnings.
ghost use Rattle.std.specs.Prelude.{◌≡◌, ℕ, ◌+◌, ◌-◌, ◌^◌, ◌<◌, List};
ghost use Rattle.lex_io.specs.Sink.{Appended, fault_count};
ghost use Rattle.lexauto_reports.specs.ReportLines.{warning_line, warning_lines, warning_words};

use crate::writing::put_all;
use itoa::Buffer;
use lex_io::{Sink, WriteFault};

/// A line of a specification that is warned of.
#[derive(Clone, Copy, Debug, PartialEq, Eq)]
pub struct Warning {
    /// The line, from 1.
    pub line: u32,
    /// Whether code was skipped there. Else it has a rule that cannot be matched.
    pub code: bool,
}

/// Writes a line for each warning, as `lex: line 6: warning: rule cannot be matched`. It takes no memory.
pub fn write_warnings<K: Sink>(warnings: &[Warning], sink: &mut K) -> Result<(), WriteFault>
    requires { K.failures sink.old < 2 ^ 64 - 1 }
    ensures bytes { Appended (λ xs. K.wrote sink.old xs sink.new) (warning_lines warnings.now) result }
    ensures failures { K.failures sink.new ≡ K.failures sink.old + fault_count result }
{
    for warning in warnings {
        if let Err(fault) = write_warning(*warning, sink) {
            return Err(fault);
        }
    }
    Ok(())
}

/// Writes the line of a warning.
fn write_warning<K: Sink>(warning: Warning, sink: &mut K) -> Result<(), WriteFault>
    requires { K.failures sink.old < 2 ^ 64 - 1 }
    ensures bytes { Appended (λ xs. K.wrote sink.old xs sink.new) (warning_line warning) result }
    ensures failures { K.failures sink.new ≡ K.failures sink.old + fault_count result }
{
    let mut line = Buffer::new();
    let line = line.format(warning.line);
    let words = warning_text(warning.code);
    put_all(sink, &["lex: line ", line, ": warning: ", words, "\n"])
}

/// What a warning says: of skipped code, or of a rule that cannot be matched.
fn warning_text(code: bool) -> &'static str
    ensures { result.now ≡ warning_words code }
{
    if code {
        "code skipped"
    } else {
        "rule cannot be matched"
    }
}
