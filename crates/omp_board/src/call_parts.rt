//! What calls are made of: the numbers of OMPT, and the words of a thread's region and task.

ghost use Rattle.std.specs.Prelude.{◌≡◌};
ghost use Rattle.omp_model.specs.Calls as calls;

use crate::board::Board;
use c_model::{MutexKind, SyncKind, SyncStage, WorkKind};
use omp_codes::{endpoints, mutex_kinds, thread_kinds, work_kinds};
use omp_model::Endpoint;
use ompt_calls::Word;

/// The kind of a thread.
pub(crate) fn thread_kind(thread: u8) -> u32
    ensures { result ≡ calls.thread_kind thread }
{
    if thread == 0 {
        thread_kinds::INITIAL
    } else {
        thread_kinds::WORKER
    }
}

/// The end of an interval that an event is at.
pub(crate) fn endpoint_number(endpoint: Endpoint) -> u32
    ensures { result ≡ calls.endpoint_number endpoint }
{
    match endpoint {
        Endpoint::Begin => endpoints::BEGIN,
        Endpoint::End => endpoints::END,
    }
}

/// The kind of shared work (`ompt_work_t`, OpenMP 5.2, 19.4.4).
pub(crate) fn work_number(kind: WorkKind) -> u32
    ensures { result ≡ calls.work_number kind }
{
    match kind {
        WorkKind::Loop => work_kinds::LOOP,
        WorkKind::Sections => work_kinds::SECTIONS,
        WorkKind::SingleExecutor => work_kinds::SINGLE_EXECUTOR,
        WorkKind::SingleOther => work_kinds::SINGLE_OTHER,
    }
}

/// The kind of a lock or critical (`ompt_mutex_t`, OpenMP 5.2, 19.4.4).
pub(crate) fn mutex_number(kind: MutexKind) -> u32
    ensures { result ≡ calls.mutex_number kind }
{
    match kind {
        MutexKind::Lock => mutex_kinds::LOCK,
        MutexKind::TestLock => mutex_kinds::TEST_LOCK,
        MutexKind::Critical => mutex_kinds::CRITICAL,
    }
}

/// The data word of the thread's region.
pub(crate) fn own_region_word(board: &Board, thread: u8) -> Word
    ensures { result ≡ calls.own_region_word board.now.world thread }
{
    board.region_word(board.current_region(thread))
}

/// The data word of the thread's current task.
pub(crate) fn own_task_word(board: &Board, thread: u8) -> Word
    ensures { result ≡ calls.own_task_word board.now.world thread }
{
    board.task_word(board.current(thread))
}

/// The word of no region and no task.
pub(crate) const NULL_WORD: Word = Word {
    identity: 0,
    value: 0,
};

/// The region that is told at an event of a barrier or taskwait. Where the wait at a region's own barrier ends, and from then on, it is NULL.
pub(crate) fn synced_region(board: &Board, thread: u8, kind: SyncKind, stage: SyncStage) -> Word
    ensures { result ≡ calls.synced_region board.now.world thread kind stage }
{
    match (kind, stage) {
        (SyncKind::Parallel, SyncStage::WaitEnd | SyncStage::RegionEnd) => NULL_WORD,
        _ => own_region_word(board, thread),
    }
}
