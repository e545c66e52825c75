//! The kinds of an event's arguments.

ghost use Rattle.std.specs.Prelude.{◌≡◌, ◌≤◌, [], length};
ghost use Rattle.trace_format.specs.Accepting.{accepts_kind, accepts_number, kinds_of, width_of};

use crate::decode::{long_at, short_at};
use omp_codes::{
    callbacks, dispatch_kinds, endpoints, mutex_kinds, parallel_flags, sync_kinds, task_flags,
    task_statuses, thread_kinds, work_kinds,
};

/// What a field of the arguments has, and so how long it is and which values it may have.
#[derive(Clone, Copy)]
pub enum Kind {
    /// Any number of 32 bits.
    Short,
    /// Any number of 64 bits.
    Long,
    /// A place in the program: any number of 64 bits.
    Place,
    /// A data word.
    Word,
    /// A frame.
    Frame,
    /// The kind of a thread.
    OfThread,
    /// Begin or end.
    Endpoint,
    /// What is waited for in a synchronization region.
    OfSync,
    /// A lock or a critical.
    OfMutex,
    /// What is released: a lock or a critical.
    OfRelease,
    /// A worksharing construct.
    OfWork,
    /// A chunk or a section.
    OfDispatch,
    /// How many iterations were dispatched.
    Iterations,
    /// The status of a task that was left.
    Status,
    /// The kind of a lock.
    OfLock,
    /// Always 0.
    Zero,
    /// The flags of a region.
    ParallelFlags,
    /// The flags of an explicit task.
    TaskFlags,
    /// The flags of an implicit task.
    ImplicitFlags,
}

/// The kinds of a callback's arguments, by its number.
pub fn kinds_of(number: u32) -> &'static [Kind]
    ensures { result.now ≡ kinds_of number }
{
    use Kind::{
        Endpoint, Frame, ImplicitFlags, Iterations, Long, OfDispatch, OfLock, OfMutex, OfRelease,
        OfSync, OfThread, OfWork, ParallelFlags, Place, Short, Status, TaskFlags, Word, Zero,
    };
    match number {
        callbacks::THREAD_BEGIN => &[OfThread, Word],
        callbacks::THREAD_END => &[Word],
        callbacks::PARALLEL_BEGIN => &[Word, Frame, Word, Short, ParallelFlags, Place],
        callbacks::PARALLEL_END => &[Word, Word, ParallelFlags, Place],
        callbacks::TASK_CREATE => &[Word, Frame, Word, TaskFlags, Zero, Place],
        callbacks::TASK_SCHEDULE => &[Word, Status, Word],
        callbacks::IMPLICIT_TASK => &[Endpoint, Word, Word, Short, Short, ImplicitFlags],
        callbacks::SYNC_REGION_WAIT | callbacks::SYNC_REGION => {
            &[OfSync, Endpoint, Word, Word, Place]
        }
        callbacks::MUTEX_RELEASED => &[OfRelease, Short, Place],
        callbacks::WORK => &[OfWork, Endpoint, Word, Word, Long, Place],
        callbacks::MASKED => &[Endpoint, Word, Word, Place],
        callbacks::LOCK_INIT => &[OfLock, Zero, Zero, Short, Place],
        callbacks::LOCK_DESTROY => &[OfLock, Short, Place],
        callbacks::MUTEX_ACQUIRE => &[OfMutex, Zero, Zero, Short, Place],
        callbacks::MUTEX_ACQUIRED => &[OfMutex, Short, Place],
        callbacks::DISPATCH => &[Word, Word, OfDispatch, Long, Iterations],
        _ => &[],
    }
}

/// How many bytes an argument of the kind has.
pub fn width_of(kind: Kind) -> usize
    ensures { result ≡ width_of kind }
{
    match kind {
        Kind::Word => 12,
        Kind::Long | Kind::Place | Kind::Frame | Kind::Iterations => 8,
        _ => 4,
    }
}

/// Whether an argument of the kind may have these bytes. Of iterations it says nothing: that goes by an argument before them.
pub fn accepts_kind(kind: Kind, bytes: &[u8]) -> bool
    requires { width_of kind ≤ length bytes.now }
    ensures { result ≡ accepts_kind kind [] bytes.now }
{
    match kind {
        Kind::Word => short_at(bytes, 0) != 0 || long_at(bytes, 4) == 0,
        Kind::Long | Kind::Place | Kind::Frame | Kind::Iterations => true,
        other => accepts_number(other, short_at(bytes, 0)),
    }
}

/// Whether an argument of the kind may be this number of 32 bits.
pub fn accepts_number(kind: Kind, number: u32) -> bool
    ensures { result ≡ accepts_number kind number }
{
    match kind {
        Kind::Short => true,
        Kind::OfThread => matches!(number, thread_kinds::INITIAL | thread_kinds::WORKER),
        Kind::Endpoint => matches!(number, endpoints::BEGIN | endpoints::END),
        Kind::OfSync => matches!(
            number,
            sync_kinds::BARRIER_EXPLICIT
                | sync_kinds::TASKWAIT
                | sync_kinds::BARRIER_IMPLICIT_WORKSHARE
                | sync_kinds::BARRIER_IMPLICIT_PARALLEL
        ),
        Kind::OfMutex => matches!(
            number,
            mutex_kinds::LOCK | mutex_kinds::TEST_LOCK | mutex_kinds::CRITICAL
        ),
        Kind::OfRelease => matches!(number, mutex_kinds::LOCK | mutex_kinds::CRITICAL),
        Kind::OfWork => matches!(number, work_kinds::LOOP..=work_kinds::SINGLE_OTHER),
        Kind::OfDispatch => matches!(
            number,
            dispatch_kinds::SECTION | dispatch_kinds::WS_LOOP_CHUNK
        ),
        Kind::Status => matches!(number, task_statuses::COMPLETE | task_statuses::SWITCH),
        Kind::OfLock => number == mutex_kinds::LOCK,
        Kind::Zero => number == 0,
        Kind::ParallelFlags => number == parallel_flags::TEAM_OF_PROGRAM,
        Kind::TaskFlags => matches!(
            number,
            task_flags::EXPLICIT | task_flags::EXPLICIT_UNDEFERRED
        ),
        Kind::ImplicitFlags => matches!(number, task_flags::INITIAL | task_flags::IMPLICIT),
        Kind::Long | Kind::Place | Kind::Word | Kind::Frame | Kind::Iterations => false,
    }
}
