//! The call of an event: a table in three functions, an arm an event, with the arguments of its call.

ghost use Rattle.std.specs.Prelude.{◌≡◌};
ghost use Rattle.omp_model.specs.Calls as calls;
ghost use Rattle.omp_board.specs.Events.{IsBeside, IsMutexOrBeside};

use crate::board::{Board, sync_number};
use crate::call_parts::{
    NULL_WORD, endpoint_number, mutex_number, own_region_word, own_task_word, synced_region,
    thread_kind, work_number,
};
use crate::frames::current_frame;
use crate::levels::task_flags;
use c_model::{SyncKind, SyncStage};
use omp_codes::task_flags::{IMPLICIT, INITIAL};
use omp_codes::{callbacks, dispatch_kinds, endpoints, mutex_kinds, parallel_flags, task_statuses};
use omp_model::{Event, IMPLICIT_REGION, INITIAL_TASK, Share};
use ompt_calls::Call;

/// The callback of the event that has just occurred on the thread, with its arguments (OpenMP 5.2, 19.5.2).
#[tactic(auto, unfolding(omp_model::specs::Calls::call_of))]
pub fn call_of(board: &Board, thread: u8, event: Event) -> Call
    ensures { result ≡ calls.call_of board.now.world thread event }
{
    match event {
        Event::ParallelBegin {
            region,
            requested,
            codeptr,
        } => Call::ParallelBegin {
            task: own_task_word(board, thread),
            frame: current_frame(board, thread, event),
            region: board.region_word(region),
            requested,
            flags: parallel_flags::TEAM_OF_PROGRAM,
            codeptr,
        },
        Event::ParallelEnd { region, codeptr } => Call::ParallelEnd {
            region: board.region_word(region),
            task: own_task_word(board, thread),
            flags: parallel_flags::TEAM_OF_PROGRAM,
            codeptr,
        },
        Event::TaskCreate { task, codeptr, .. } => Call::TaskCreate {
            task: own_task_word(board, thread),
            frame: current_frame(board, thread, event),
            fresh: board.task_word(task),
            flags: task_flags(board.pool.task(task).kind),
            has_dependences: 0,
            codeptr,
        },
        Event::Work {
            endpoint,
            kind,
            count,
            codeptr,
        } => Call::Work {
            kind: work_number(kind),
            endpoint: endpoint_number(endpoint),
            region: own_region_word(board, thread),
            task: own_task_word(board, thread),
            count,
            codeptr,
        },
        Event::Dispatch(share) => dispatch_call(board, thread, share),
        Event::Masked { endpoint, codeptr } => Call::Masked {
            endpoint: endpoint_number(endpoint),
            region: own_region_word(board, thread),
            task: own_task_word(board, thread),
            codeptr,
        },
        Event::Sync {
            kind,
            stage,
            codeptr,
        } => sync_call(board, thread, kind, codeptr, stage),
        _ => call_of_mutex(board, thread, event),
    }
}

/// The call of an event of a lock or critical, or of an event beside all code.
#[tactic(auto, unfolding(omp_model::specs::Calls::call_of))]
fn call_of_mutex(board: &Board, thread: u8, event: Event) -> Call
    requires { IsMutexOrBeside event }
    ensures { result ≡ calls.call_of board.now.world thread event }
{
    match event {
        Event::MutexAcquire {
            kind,
            wait_id,
            codeptr,
        } => Call::MutexAcquire {
            kind: mutex_number(kind),
            hint: 0,
            variant: 0,
            wait_id,
            codeptr,
        },
        Event::MutexAcquired {
            kind,
            wait_id,
            codeptr,
        } => Call::MutexAcquired {
            kind: mutex_number(kind),
            wait_id,
            codeptr,
        },
        Event::MutexReleased {
            kind,
            wait_id,
            codeptr,
        } => Call::MutexReleased {
            kind: mutex_number(kind),
            wait_id,
            codeptr,
        },
        Event::LockInit { wait_id, codeptr } => Call::LockInit {
            kind: mutex_kinds::LOCK,
            hint: 0,
            variant: 0,
            wait_id,
            codeptr,
        },
        Event::LockDestroy { wait_id, codeptr } => Call::LockDestroy {
            kind: mutex_kinds::LOCK,
            wait_id,
            codeptr,
        },
        _ => call_beside_code(board, thread, event),
    }
}

/// The call of an event of a thread or of an implicit task, or where a thread goes from one task to another.
#[tactic(auto, unfolding(omp_model::specs::Calls::call_of))]
fn call_beside_code(board: &Board, thread: u8, event: Event) -> Call
    requires { IsBeside event }
    ensures { result ≡ calls.call_of board.now.world thread event }
{
    match event {
        Event::ThreadBegin => Call::ThreadBegin {
            kind: thread_kind(thread),
            thread: board.thread_word(thread),
        },
        Event::InitialTaskBegin => Call::ImplicitTask {
            endpoint: endpoints::BEGIN,
            region: board.region_word(IMPLICIT_REGION),
            task: board.task_word(INITIAL_TASK),
            actual: 1,
            index: 1,
            flags: INITIAL,
        },
        Event::InitialTaskEnd => Call::ImplicitTask {
            endpoint: endpoints::END,
            region: NULL_WORD,
            task: board.task_word(INITIAL_TASK),
            actual: 0,
            index: 1,
            flags: INITIAL,
        },
        Event::MemberBegin { region, task } => Call::ImplicitTask {
            endpoint: endpoints::BEGIN,
            region: board.region_word(region),
            task: board.task_word(task),
            actual: u32::from(board.regions.head(region).size),
            index: u32::from(board.member_index(thread, region)),
            flags: IMPLICIT,
        },
        Event::MemberEnd { region, task } => Call::ImplicitTask {
            endpoint: endpoints::END,
            region: NULL_WORD,
            task: board.task_word(task),
            actual: 0,
            index: u32::from(board.member_index(thread, region)),
            flags: IMPLICIT,
        },
        Event::TaskBegin { prior, task } => Call::TaskSchedule {
            prior: board.task_word(prior),
            status: task_statuses::SWITCH,
            next: board.task_word(task),
        },
        Event::TaskEnd { task } => Call::TaskSchedule {
            prior: board.task_word(task),
            status: task_statuses::COMPLETE,
            next: own_task_word(board, thread),
        },
        _ => Call::ThreadEnd {
            thread: board.thread_word(thread),
        },
    }
}

/// The call of one of the four events of a barrier or taskwait.
fn sync_call(board: &Board, thread: u8, kind: SyncKind, codeptr: u64, stage: SyncStage) -> Call
    ensures { result ≡ calls.sync_call board.now.world thread kind codeptr stage }
{
    let region = synced_region(board, thread, kind, stage);
    let task = own_task_word(board, thread);
    let kind = sync_number(kind);
    let endpoint = match stage {
        SyncStage::RegionBegin | SyncStage::WaitBegin => endpoints::BEGIN,
        SyncStage::WaitEnd | SyncStage::RegionEnd => endpoints::END,
    };
    match stage {
        SyncStage::RegionBegin | SyncStage::RegionEnd => Call::SyncRegion {
            kind,
            endpoint,
            region,
            task,
            codeptr,
        },
        SyncStage::WaitBegin | SyncStage::WaitEnd => Call::SyncRegionWait {
            kind,
            endpoint,
            region,
            task,
            codeptr,
        },
    }
}

/// The call of a share of work that was taken.
fn dispatch_call(board: &Board, thread: u8, share: Share) -> Call
    ensures { result ≡ calls.dispatch_call board.now.world thread share }
{
    let (kind, start, iterations) = match share {
        Share::Chunk { start, count } => (dispatch_kinds::WS_LOOP_CHUNK, start, count),
        Share::Section(codeptr) => (dispatch_kinds::SECTION, codeptr, 0),
    };
    Call::Dispatch {
        region: own_region_word(board, thread),
        task: own_task_word(board, thread),
        kind,
        start,
        iterations,
    }
}

/// The number of the event's callback.
pub fn callback_of(event: Event) -> u32
    ensures { result ≡ calls.callback_of event }
{
    match event {
        Event::ThreadBegin => callbacks::THREAD_BEGIN,
        Event::ThreadEnd => callbacks::THREAD_END,
        Event::InitialTaskBegin
        | Event::InitialTaskEnd
        | Event::MemberBegin { .. }
        | Event::MemberEnd { .. } => callbacks::IMPLICIT_TASK,
        Event::ParallelBegin { .. } => callbacks::PARALLEL_BEGIN,
        Event::ParallelEnd { .. } => callbacks::PARALLEL_END,
        Event::TaskCreate { .. } => callbacks::TASK_CREATE,
        Event::TaskBegin { .. } | Event::TaskEnd { .. } => callbacks::TASK_SCHEDULE,
        Event::Work { .. } => callbacks::WORK,
        Event::Dispatch(_) => callbacks::DISPATCH,
        Event::Masked { .. } => callbacks::MASKED,
        Event::Sync {
            stage: SyncStage::RegionBegin | SyncStage::RegionEnd,
            ..
        } => callbacks::SYNC_REGION,
        Event::Sync {
            stage: SyncStage::WaitBegin | SyncStage::WaitEnd,
            ..
        } => callbacks::SYNC_REGION_WAIT,
        Event::MutexAcquire { .. } => callbacks::MUTEX_ACQUIRE,
        Event::MutexAcquired { .. } => callbacks::MUTEX_ACQUIRED,
        Event::MutexReleased { .. } => callbacks::MUTEX_RELEASED,
        Event::LockInit { .. } => callbacks::LOCK_INIT,
        Event::LockDestroy { .. } => callbacks::LOCK_DESTROY,
    }
}
