//! What an event does to the stack of tasks of its thread.

ghost use Rattle.std.specs.Prelude.{◌≡◌};
ghost use Rattle.tool_tasks.specs.Charge.{stack_step};

use omp_codes::endpoints::{BEGIN, END};
use omp_codes::task_statuses::{COMPLETE, SWITCH};
use ompt_calls::Call;

/// What an event does to the stack of tasks of its thread.
#[derive(Clone, Copy)]
pub enum StackStep {
    /// The thread goes to this task.
    Push(u32),
    /// It leaves the task on top.
    Pop,
    /// It runs the same task.
    Stay,
}

/// What an event with this callback does to the stack of its thread.
pub(crate) fn stack_step(call: &Call) -> StackStep
    ensures { result ≡ stack_step call.now }
{
    match call {
        Call::ImplicitTask { endpoint, task, .. } => match *endpoint {
            BEGIN => StackStep::Push(task.identity),
            END => StackStep::Pop,
            _ => StackStep::Stay,
        },
        Call::TaskSchedule { status, next, .. } => match *status {
            SWITCH => StackStep::Push(next.identity),
            COMPLETE => StackStep::Pop,
            _ => StackStep::Stay,
        },
        _ => StackStep::Stay,
    }
}
