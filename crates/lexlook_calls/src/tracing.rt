//! The lines of the matches of a scan.
ghost use Rattle.std.specs.Prelude.{◌-◌, ◌≤◌, nat_lt};
ghost use Rattle.lex_semantics.specs.Limits.{max_positions, max_states};
ghost use Rattle.lexkit.specs.ScanCounts.{ScanCounts};
ghost use Rattle.lexlook_calls.specs.Tracing.{Traces};
ghost use Rattle.lexscan.specs.Runs.{FewCounts};

use lexkit::{GenError, Options, ScanError, Sink, Source, read_text, scan_by};
use lexlook_specs::traced;
use std::alloc::Global;

/// Scans the source by the specification that a text spells, and writes to the sink, in place of what its actions
/// write, a line for each match, in the words of flex's `-d`. It answers the status that the scan ends with, 0 to 63,
/// and takes no byte of the source that no rule asks for. A text that spells no specification, or one that has no room
/// for the lines (`TooManyRules`, `TooLong`) or whose automaton passes the limits, is refused, and then neither the
/// source nor the sink is touched.
pub fn trace<S: Source, K: Sink>(
    alloc: Global,
    text: &[u8],
    options: Options,
    source: &mut S,
    sink: &mut K,
) -> Result<u8, ScanError>
    requires few_positions { options.limits.positions ≤ max_positions }
    requires few_states { options.limits.states ≤ max_states }
    requires few { FewCounts S.ends S.failures K.failures source.old sink.old }
    ensures told { Traces S.gave K.wrote source.old source.new sink.old sink.new
        (nat_lt (S.ends source.old) (S.ends source.new)) (S.failures source.new - S.failures source.old)
        options text.now result }
    ensures counts { ScanCounts S.ends S.failures K.failures K.flushed source.old source.new sink.old sink.new result }
{
    let spec = match read_text(alloc, text, options) {
        Err(error) => return Err(ScanError::Generate(error)),
        Ok(spec) => spec,
    };
    let telling = match traced(alloc, spec) {
        Err(error) => return Err(ScanError::Generate(GenError::Spec(error))),
        Ok(telling) => telling,
    };
    scan_by(alloc, &telling, options.limits, source, sink)
}
