//! What a tool can inquire during a callback: the state right after the Go of its event.

ghost use Rattle.std.specs.Prelude.{◌≡◌};
ghost use Rattle.omp_model.specs.Snapshots as snapshots;
ghost use Rattle.omp_model.specs.State.{task_at};
ghost use Rattle.omp_model.specs.Members.{current};

use crate::board::Board;
use crate::levels::Levels;
use c_model::{MutexKind, SyncKind, SyncStage, Upcoming};
use omp_codes::thread_states::{
    IDLE, OVERHEAD, WAIT_BARRIER_EXPLICIT, WAIT_BARRIER_IMPLICIT_PARALLEL,
    WAIT_BARRIER_IMPLICIT_WORKSHARE, WAIT_CRITICAL, WAIT_LOCK, WAIT_TASKWAIT, WORK_PARALLEL,
    WORK_SERIAL,
};
use omp_model::{Event, IMPLICIT_REGION, INITIAL_TASK};
use ompt_calls::{Snapshot, Target};

/// The state of a thread at work.
fn work_state(board: &Board, thread: u8) -> u16
    ensures { result ≡ snapshots.work_state board.now.world thread }
{
    if board.current_region(thread) == IMPLICIT_REGION {
        WORK_SERIAL
    } else {
        WORK_PARALLEL
    }
}

/// The state of a thread that waits at a barrier or taskwait.
fn wait_state(kind: SyncKind) -> u16
    ensures { result ≡ snapshots.wait_state kind }
{
    match kind {
        SyncKind::Barrier => WAIT_BARRIER_EXPLICIT,
        SyncKind::Taskwait => WAIT_TASKWAIT,
        SyncKind::Worksharing => WAIT_BARRIER_IMPLICIT_WORKSHARE,
        SyncKind::Parallel => WAIT_BARRIER_IMPLICIT_PARALLEL,
    }
}

/// The state of a thread that goes back to its current task.
fn resumed_state(board: &Board, thread: u8) -> u16
    ensures { result ≡ snapshots.resumed_state board.now.world thread
        (task_at board.now.world (current board.now.world thread)).code.todo }
{
    let task = board.current(thread);
    match board.tasks.standing(task) {
        Upcoming::Sync {
            kind,
            stage: SyncStage::WaitEnd,
        } => wait_state(kind),
        Upcoming::End if task == INITIAL_TASK => OVERHEAD,
        _ => work_state(board, thread),
    }
}

/// The state of a thread at its event.
#[tactic(auto, unfolding(omp_model::specs::Snapshots::state_of))]
fn state_of(board: &Board, thread: u8, event: Event) -> u16
    ensures { result ≡ snapshots.state_of board.now.world thread event }
{
    match event {
        Event::ThreadBegin
        | Event::ThreadEnd
        | Event::InitialTaskEnd
        | Event::ParallelBegin { .. }
        | Event::ParallelEnd { .. } => OVERHEAD,
        Event::MemberEnd { region, .. } if thread != 0 && board.is_outermost(region) => IDLE,
        Event::MemberEnd { .. } => OVERHEAD,
        Event::TaskEnd { .. } => resumed_state(board, thread),
        Event::Sync {
            kind,
            stage: SyncStage::WaitBegin,
            ..
        } => wait_state(kind),
        Event::Sync { .. } => OVERHEAD,
        Event::MutexAcquire { kind, .. } => match kind {
            MutexKind::Lock => WAIT_LOCK,
            MutexKind::TestLock => work_state(board, thread),
            MutexKind::Critical => WAIT_CRITICAL,
        },
        _ => work_state(board, thread),
    }
}

/// What the thread waits for, where it is in one of the two states of waiting for a lock or critical, or 0.
fn wait_id_of(event: Event) -> u32
    ensures { result ≡ snapshots.wait_id_of event }
{
    match event {
        Event::MutexAcquire {
            kind: MutexKind::Lock | MutexKind::Critical,
            wait_id,
            ..
        } => wait_id,
        _ => 0,
    }
}

/// What the event makes, into whose word its callback may store at once.
fn fresh_of(event: Event) -> Option<Target>
    ensures { result ≡ snapshots.fresh_of event }
{
    match event {
        Event::ParallelBegin { region, .. } => Some(Target::Parallel(region)),
        Event::TaskCreate { task, .. } => Some(Target::Task(task)),
        _ => None,
    }
}

/// The snapshot at the event that has just occurred on the thread.
pub fn snapshot_of(board: &Board, thread: u8, event: Event, levels: Levels) -> Snapshot
    ensures { result ≡ snapshots.snap_of board.now.world thread event }
{
    let (tasks, regions) = levels.fill(board, thread, event);
    Snapshot {
        thread: board.thread_word(thread),
        state: state_of(board, thread, event),
        wait_id: wait_id_of(event),
        tasks,
        regions,
        fresh: fresh_of(event),
    }
}
