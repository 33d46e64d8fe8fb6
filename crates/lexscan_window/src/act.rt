//! What the action of a match does.
ghost use Rattle.std.specs.Prelude.{◌≡◌, ℕ, ◌+◌, ◌-◌, ◌^◌, ◌<◌, ◌≤◌, List, [], length, take, map, true, false, OnOk};
ghost use Rattle.std.specs.Prelude.{OnErr, IfOk, IfErr};
ghost use Rattle.lex_io.specs.Sink.{Appended, fault_count};
ghost use Rattle.lexscan_window.specs.Reads.{write_fault_count};
ghost use Rattle.lexscan_window.specs.Ends.{SinkLeft};
ghost use Rattle.lex_machine.specs.Views.{statement_of};
ghost use Rattle.lexscan_window.specs.Acts.{said, StatementCarried, Carried, CutShort};
ghost use Rattle.lexscan_window.specs.Intakes.{sink_of, sink_name, can_write};

use crate::error::RunError;
use crate::intake::Outlet;
use crate::stack::Stack;
use crate::window::Window;
use lex_io::Sink;
use lex_machine::Statement;

/// The text's end in the window, the condition of the next match, the stack of conditions, and whether the next text is
/// appended to this one.
#[derive(Drop)]
pub struct ActionState {
    pub end: usize,
    pub condition: u8,
    pub stack: Stack,
    pub more: bool,
}

/// How an action ends a scan.
#[derive(Clone, Copy)]
pub enum Finish {
    /// With this status, 0 to 63.
    Status(u8),
    /// The stack of conditions was full at a push, or empty at a pop.
    StackFault,
}

/// What follows a statement, or a whole action.
#[derive(Clone, Copy)]
pub enum ActionFlow {
    /// The next statement, or the next turn.
    Next,
    /// The next best match, after REJECT.
    Again,
    /// The end of the scan.
    Over(Finish),
}

/// Writes the bytes.
#[inline(always)]
pub fn put<K: Sink>(outlet: &mut Outlet<'_, K>, bytes: &[u8]) -> Result<(), RunError>
    requires { can_write outlet.old ≡ true }
    ensures same { sink_name outlet.new ≡ sink_name outlet.old }
    ensures bytes { Appended (λ xs. K.wrote (sink_of outlet.old) xs (sink_of outlet.new)) bytes.now result }
    ensures sink { SinkLeft K.failures (sink_of outlet.old) (sink_of outlet.new) (can_write outlet.new) result }
{
    match outlet.put(bytes) {
        Err(_) => Err(RunError::Write),
        Ok(()) => Ok(()),
    }
}

/// Carries out one statement.
#[inline(always)]
pub fn carry_one<K: Sink>(
    outlet: &mut Outlet<'_, K>,
    window: &Window,
    statement: &Statement,
    acting: &mut ActionState,
) -> Result<ActionFlow, RunError>
    requires live { can_write outlet.old ≡ true }
    requires inside { acting.old.end ≤ length window.now.bytes }

    ensures same { sink_name outlet.new ≡ sink_name outlet.old }
    ensures bytes { Appended (λ xs. K.wrote (sink_of outlet.old) xs (sink_of outlet.new))
        (said (statement_of statement.now) (take acting.old.end window.now.bytes)) result }
    ensures sink { SinkLeft K.failures (sink_of outlet.old) (sink_of outlet.new) (can_write outlet.new) result }

    ensures inside { acting.new.end ≤ length window.now.bytes }
    ensures steps { IfOk result
        (λ step. StatementCarried window.now.bytes (statement_of statement.now) acting.old acting.new step) }
{
    match statement {
        Statement::Echo => put(outlet, window.slice(0, acting.end))?,
        Statement::Print(bytes) => put(outlet, bytes.as_slice())?,
        Statement::Begin(condition) => acting.condition = *condition,
        Statement::More => acting.more = true,
        // The text is never made longer.
        Statement::Less(count) => acting.end = acting.end.min(usize::from(*count)),
        Statement::Reject => return Ok(ActionFlow::Again),
        Statement::End(status) => return Ok(ActionFlow::Over(Finish::Status(*status))),
        Statement::Push(condition) => {
            // The condition goes there as this action has set it so far.
            if !acting.stack.push(acting.condition) {
                return Ok(ActionFlow::Over(Finish::StackFault));
            }
            acting.condition = *condition;
        }
        Statement::Pop => {
            let Some(condition) = acting.stack.pop() else {
                return Ok(ActionFlow::Over(Finish::StackFault));
            };
            acting.condition = condition;
        }
    }
    Ok(ActionFlow::Next)
}

/// Carries out the statements from the first on.
#[inline(always)]
pub fn carry_out<K: Sink>(
    outlet: &mut Outlet<'_, K>,
    window: &Window,
    statements: &[Statement],
    acting: &mut ActionState,
) -> Result<ActionFlow, RunError>
    requires live { can_write outlet.old ≡ true }
    requires inside { acting.old.end ≤ length window.now.bytes }

    ensures same { sink_name outlet.new ≡ sink_name outlet.old }
    ensures sink { SinkLeft K.failures (sink_of outlet.old) (sink_of outlet.new) (can_write outlet.new) result }

    ensures inside { acting.new.end ≤ length window.now.bytes }
    ensures carried { IfOk result (λ step. Carried K.wrote (sink_of outlet.old) (sink_of outlet.new) window.now.bytes
        (map statement_of statements.now) acting.old acting.new step) }
    ensures cut_short { OnErr result (CutShort K.wrote (sink_of outlet.old) (sink_of outlet.new) window.now.bytes
        (map statement_of statements.now) acting.old) }
{
    for statement in statements {
        match carry_one(outlet, window, statement, acting)? {
            ActionFlow::Next => {}
            stop => return Ok(stop),
        }
    }
    Ok(ActionFlow::Next)
}
