//! What an advance comes to.

ghost use Rattle.std.specs.Prelude.{◌≡◌};
ghost use Rattle.c_steps.specs.ControlView.{next_of};

use c_model::{Ask, MutexKind, Point, Target};

/// What a task's code comes to next.
#[derive(Clone, Copy)]
pub enum Next {
    /// A silent step was made.
    Quiet,
    /// A silent step has to be told something, in the construct or call with this node. Nothing was done.
    Ask(Ask, u32),
    /// An event stands next, at the construct, directive or call with this node. Nothing was done.
    Event(Point, u32),
    /// The code has ended with this value of the last call, or 0.
    Ended(i32),
    /// The step or the event that stands next traps with this number. Nothing was done.
    Trap(u8),
    /// The step or the event that stands next would pass the limit with this number. Nothing was done.
    Limit(u8),
}

/// Why a silent step of C's own statements isn't made.
#[derive(Clone, Copy)]
pub(crate) enum Refusal {
    /// It traps with this number.
    Trap(u8),
    /// It would pass the limit with this number.
    Limit(u8),
    /// It is no silent step: the `omp_test_lock` at this node begins with its event.
    Test {
        call: u32,
        codeptr: u64,
        wait_id: u32,
        to: Target,
    },
}

/// What a silent step of C's own statements comes to.
pub(crate) type Made = Result<(), Refusal>;

/// What a step comes to that was made, or wasn't.
pub(crate) fn made(step: Made) -> Next
    ensures { result ≡ next_of step }
{
    match step {
        Ok(()) => Next::Quiet,
        Err(Refusal::Trap(trap)) => Next::Trap(trap),
        Err(Refusal::Limit(limit)) => Next::Limit(limit),
        Err(
            Refusal::Test {
                call,
                codeptr,
                wait_id,
                to,
            },
        ) => {
            let kind = MutexKind::TestLock;
            let point = Point::MutexAcquire {
                codeptr,
                wait_id,
                kind,
                to,
            };
            Next::Event(point, call)
        }
    }
}
