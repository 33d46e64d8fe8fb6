//! What was written is handed on before a read that may wait, as C++ ties its output to its input.
ghost use Rattle.std.specs.Prelude.{◌≡◌, ℕ, ◌+◌, ◌^◌, ◌<◌, List, [], true, OnOk};
ghost use Rattle.lexscan_window.specs.Intakes.{source_of, sink_of, sink_name, can_write};
ghost use Rattle.lexscan_window.specs.Ends.{SinkLeft};

use crate::error::RunError;
use crate::intake::{Intake, Outlet};
use lex_io::{Sink, Source};

/// Flushes the sink.
pub fn flush<K: Sink>(outlet: &mut Outlet<'_, K>) -> Result<(), RunError>
    requires { can_write outlet.old ≡ true }
    ensures same { sink_name outlet.new ≡ sink_name outlet.old }
    ensures bytes { K.wrote (sink_of outlet.old) [] (sink_of outlet.new) }
    ensures sink { SinkLeft K.failures (sink_of outlet.old) (sink_of outlet.new) (can_write outlet.new) result }
    ensures flushed { OnOk result (K.flushed (sink_of outlet.new) ≡ true) }
{
    match outlet.flush() {
        Err(_) => Err(RunError::Write),
        Ok(()) => Ok(()),
    }
}

/// Flushes the sink where the next read of the source may wait: so what was written is seen before it.
#[inline(always)]
pub fn tie<S: Source, K: Sink>(
    intake: &Intake<'_, S>,
    outlet: &mut Outlet<'_, K>,
) -> Result<(), RunError>
    requires { can_write outlet.old ≡ true }
    ensures same { sink_name outlet.new ≡ sink_name outlet.old }
    ensures bytes { K.wrote (sink_of outlet.old) [] (sink_of outlet.new) }
    ensures sink { SinkLeft K.failures (sink_of outlet.old) (sink_of outlet.new) (can_write outlet.new) result }
    ensures tied { OnOk result (S.waits (source_of intake.now) ≡ true → K.flushed (sink_of outlet.new) ≡ true) }
{
    if outlet.is_pending() && intake.may_wait() {
        flush(outlet)
    } else {
        Ok(())
    }
}
