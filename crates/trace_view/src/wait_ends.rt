//! The begins and ends of waits, and what they are counted by.

ghost use Rattle.std.specs.Prelude.{◌≡◌};
ghost use Rattle.trace_view.specs.Waits.{mutex_wait, wait_end};

use omp_codes::endpoints::END;
use omp_codes::mutex_kinds::TEST_LOCK;
use ompt_calls::Call;

/// By how much the cause of a wait for a mutex is more than the kind of the mutex.
const MUTEX: u64 = 16;

/// A begin or an end of a wait.
#[derive(Clone, Copy)]
pub(crate) struct WaitEnd {
    /// The place of its construct.
    pub place: u64,
    /// What is waited for: a kind of synchronization, or 16 more than a kind of mutex.
    pub cause: u64,
    /// Whether it is the end.
    pub is_end: bool,
}

/// What waits are counted by.
#[derive(Clone, Copy, PartialEq, Eq, PartialOrd, Ord)]
pub(crate) struct WaitKey {
    /// The place of the construct.
    pub place: u64,
    /// What is waited for.
    pub cause: u64,
    /// The thread that waits.
    pub thread: u8,
}

/// The begin or end of a wait that a call tells.
pub(crate) fn wait_end(call: &Call) -> Option<WaitEnd>
    ensures { result ≡ wait_end call.now }
{
    match call {
        Call::SyncRegionWait {
            kind,
            endpoint,
            codeptr,
            ..
        } => Some(WaitEnd {
            place: *codeptr,
            cause: u64::from(*kind),
            is_end: *endpoint == END,
        }),
        Call::MutexAcquire { kind, codeptr, .. } => mutex_wait(*kind, *codeptr, false),
        Call::MutexAcquired { kind, codeptr, .. } => mutex_wait(*kind, *codeptr, true),
        _ => None,
    }
}

/// That of a wait for a mutex of this kind. A thread that tests a lock doesn't wait.
fn mutex_wait(kind: u32, place: u64, is_end: bool) -> Option<WaitEnd>
    ensures { result ≡ mutex_wait kind place is_end }
{
    if kind == TEST_LOCK {
        return None;
    }
    Some(WaitEnd {
        place,
        cause: MUTEX + u64::from(kind),
        is_end,
    })
}
