//! A task as it is kept.

ghost use Rattle.std.specs.Prelude.{◌≡◌};

use c_steps::Control;

/// A task: its code, and what else the machine keeps of it beside the pool.
#[derive(Drop)]
pub struct Task {
    /// What is left of its code. A task without code has none.
    pub control: Option<Control>,
    /// The thread that has taken it up, 0 before.
    pub thread: u8,
    /// The region that it has forked and that isn't over, or 0.
    pub forked: u32,
    /// What a tool last stored into its data word, or 0.
    pub word: u64,
}

/// A task with this code, which no thread has taken up.
pub fn task_with(control: Option<Control>) -> Task
    ensures { result ≡ record { control = control; thread = 0; forked = 0; word = 0 } }
{
    Task {
        control,
        thread: 0,
        forked: 0,
        word: 0,
    }
}
