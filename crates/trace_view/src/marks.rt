//! Which marks an event has: one of a slice at most, and two others at most.

ghost use Rattle.std.specs.Prelude.{◌≡◌, ℕ, ◌==◌, [], ◌∷◌, ◌++◌, if◌then◌else◌};
ghost use Rattle.omp_codes.specs.declared.task_statuses.TheConstants.{SWITCH};
ghost use Rattle.trace_check.specs.Brackets.{change_of};
ghost use Rattle.trace_view.specs.Chrome.{flows_to, happens, own_marks, slice_marks};
ghost use Rattle.trace_view.specs.Marking.{happening_text, marks_of};

use crate::mark::{Happening, MarkKind, MutexName};
use omp_codes::mutex_kinds::TEST_LOCK;
use omp_codes::task_statuses::SWITCH;
use ompt_calls::Call;
use trace_check::{Change, change_of};

/// The mark of the slice that a call begins or ends.
pub(crate) fn slice_mark(call: &Call) -> Option<MarkKind>
    ensures { (t : ℕ) → marks_of t result ≡ slice_marks (change_of call.now) }
{
    match change_of(call) {
        Change::Opens(bracket) => Some(MarkKind::Begins(bracket)),
        Change::Closes(bracket) => Some(MarkKind::Ends(bracket)),
        Change::Stays => None,
    }
}

/// The other marks of a call.
pub(crate) fn own_marks(call: &Call) -> (Option<MarkKind>, Option<MarkKind>)
    ensures { (t : ℕ) → marks_of t result.0 ++ marks_of t result.1 ≡ own_marks t call.now }
{
    match call {
        Call::ThreadBegin { .. } => (Some(MarkKind::NamesThread), None),
        Call::ThreadEnd { .. } => (happens(Happening::ThreadEnd), None),
        Call::TaskCreate { fresh, .. } => (
            happens(Happening::TaskCreate(fresh.identity)),
            Some(MarkKind::FlowsFrom(fresh.identity)),
        ),
        Call::TaskSchedule { status, next, .. } => (arrow_to(*status, next.identity), None),
        Call::MutexReleased { kind, wait_id, .. } => (released(*kind, *wait_id), None),
        Call::LockInit { wait_id, .. } => (happens(Happening::LockInit(*wait_id)), None),
        Call::LockDestroy { wait_id, .. } => (happens(Happening::LockDestroy(*wait_id)), None),
        Call::MutexAcquire { kind, wait_id, .. } => (asked(*kind, *wait_id), None),
        Call::MutexAcquired { kind, wait_id, .. } => acquired(*kind, *wait_id),
        Call::Dispatch { kind, .. } => (happens(Happening::Dispatch(*kind)), None),
        _ => (None, None),
    }
}

/// Something comes to pass on the thread.
fn happens(happening: Happening) -> Option<MarkKind>
    ensures { (t : ℕ) → marks_of t result ≡ happens (happening_text happening) ∷ [] }
{
    Some(MarkKind::Happens(happening))
}

/// The arrow to where a thread goes to a task.
fn arrow_to(status: u32, task: u32) -> Option<MarkKind>
    ensures { (t : ℕ) → marks_of t result ≡ (if status == SWITCH then flows_to task ∷ [] else []) }
{
    if status == SWITCH {
        Some(MarkKind::FlowsTo(task))
    } else {
        None
    }
}

/// A critical or a lock is asked for. A thread that tests a lock doesn't wait for it.
fn asked(kind: u32, wait_id: u32) -> Option<MarkKind>
    ensures { (t : ℕ) → (hint : ℕ) → (variant : ℕ) → (codeptr : ℕ) →
        marks_of t result ≡ own_marks t (Call.MutexAcquire kind hint variant wait_id codeptr) }
{
    if kind == TEST_LOCK {
        Some(MarkKind::Happens(Happening::TestLock(wait_id)))
    } else {
        Some(MarkKind::BeginsWait(MutexName { kind, wait_id }))
    }
}

/// It is acquired, and the wait for it ends.
fn acquired(kind: u32, wait_id: u32) -> (Option<MarkKind>, Option<MarkKind>)
    ensures { (t : ℕ) → (codeptr : ℕ) →
        marks_of t result.0 ++ marks_of t result.1 ≡ own_marks t (Call.MutexAcquired kind wait_id codeptr) }
{
    let mutex = MutexName { kind, wait_id };
    if kind == TEST_LOCK {
        (Some(MarkKind::BeginsHold(mutex)), None)
    } else {
        (
            Some(MarkKind::EndsWait(mutex)),
            Some(MarkKind::BeginsHold(mutex)),
        )
    }
}

/// It is released.
fn released(kind: u32, wait_id: u32) -> Option<MarkKind>
    ensures { (t : ℕ) → (codeptr : ℕ) → marks_of t result ≡ own_marks t (Call.MutexReleased kind wait_id codeptr) }
{
    Some(MarkKind::EndsHold(MutexName { kind, wait_id }))
}
