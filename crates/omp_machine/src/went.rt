//! What a turn tells its caller.

ghost use Rattle.std.specs.Prelude.{◌≡◌, IsSome};
ghost use Rattle.omp_model.specs.Calls as calls;
ghost use Rattle.omp_model.specs.Snapshots.{snap_of};
ghost use Rattle.omp_machine.specs.MachineView.{told};

use omp_board::{Board, Levels, call_of, callback_of, snapshot_of};
use omp_model::Event;
use ompt_calls::{Call, Snapshot, is_registered};

/// What a turn came to, for the caller that runs the tools.
#[derive(Drop)]
pub enum Went {
    /// Silent steps alone.
    Quiet,
    /// An event whose callback is registered, with its call and what can be inquired during it. The thread waits for
    /// `back`.
    Told(Call, Snapshot),
    /// An event whose callback isn't registered. The thread waits for `back`.
    Untold,
    /// The trap with this number ended the run.
    Trapped(u8),
    /// The limit with this number ended the run.
    Limit(u8),
}

/// An event is told where its callback is registered, with what can be inquired during it.
pub fn told(mask: u64, board: &Board, thread: u8, event: Event, levels: &mut Option<Levels>) -> Went
    requires { IsSome levels.old }
    ensures { result ≡ told mask (calls.callback_of event) (calls.call_of board.now.world thread event)
        (snap_of board.now.world thread event) }
{
    if is_registered(mask, callback_of(event)) {
        Went::Told(
            call_of(board, thread, event),
            snapshot_of(board, thread, event, levels.take().unwrap()),
        )
    } else {
        Went::Untold
    }
}
