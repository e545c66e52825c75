//! The rules on events, over what is kept. It is a table: most rules are a function of their own.

ghost use Rattle.std.specs.Prelude.{◌≡◌, ◌+◌, ◌==◌, List, length, nat_le};
ghost use Rattle.ompt_calls.specs.declared.event.EventRecord.{EventRecord};
ghost use Rattle.trace_check.specs.Before.{current, is_just, opened};
ghost use Rattle.trace_check.specs.Checking.{IsKnown, Unbroken, innermost_in, thread_known};
ghost use Rattle.trace_check.specs.Rules.{first_broken, keeps_asking, keeps_brackets, keeps_creations, keeps_dispatches, keeps_holders, keeps_kind, keeps_regions, keeps_starts, keeps_threads, kind_of_thread, may_open};

use crate::bracket::Bracket;
use crate::change::{Change, change_of, is_begin, is_end, is_match};
use crate::kept::Kept;
use crate::keys::bracket_key;
use crate::things::Thread;
use omp_codes::task_statuses::SWITCH;
use omp_codes::{dispatch_kinds, thread_kinds, work_kinds};
use ompt_calls::{Call, EventRecord};

impl Kept {
    /// The first rule on events that this one breaks, after those that are known.
    pub fn first_broken(&self, event: &EventRecord) -> Option<u8>
        ensures { (past : List EventRecord) → IsKnown self.now past → Unbroken past →
            result ≡ first_broken past event.now }
    {
        let thread = self.threads.get(&event.thread).copied();
        let call = &event.call;
        if !keeps_threads(thread, event) {
            Some(2)
        } else if !keeps_kind(event.thread, call) {
            Some(3)
        } else if !self.keeps_regions(event.thread, thread, call) {
            Some(4)
        } else if !self.keeps_tasks(event.thread, thread, call) {
            Some(5)
        } else if !self.keeps_brackets(event.thread, thread, call) {
            Some(6)
        } else if !self.keeps_teams(call) {
            Some(7)
        } else if !keeps_asking(event.thread, thread, call) {
            Some(8)
        } else if !self.keeps_holders(event.thread, call) {
            Some(9)
        } else if !self.keeps_creations(event.thread, thread, call) {
            Some(10)
        } else if !self.keeps_starts(call) {
            Some(11)
        } else if !self.keeps_waits(thread, call) {
            Some(12)
        } else if !self.keeps_dispatches(event.thread, thread, call) {
            Some(14)
        } else {
            None
        }
    }

    /// Rule 4: a region is the next one, and its encountering task is the thread's current one.
    fn keeps_regions(&self, number: u8, thread: Option<Thread>, call: &Call) -> bool
        ensures { (past : List EventRecord) → IsKnown self.now past → thread ≡ thread_known number past →
            result ≡ keeps_regions past number call.now }
    {
        match call {
            Call::ParallelBegin { task, region, .. } => {
                is_next(self.greatest_region, region.identity)
                    && is_current(number, thread, task.identity)
            }
            _ => true,
        }
    }

    /// Rule 6: begins and ends match as brackets, what a task enters is entered by the current task, and a thread ends with none open.
    fn keeps_brackets(&self, number: u8, thread: Option<Thread>, call: &Call) -> bool
        ensures { (past : List EventRecord) → IsKnown self.now past → thread ≡ thread_known number past →
            result ≡ keeps_brackets past number call.now }
    {
        let changes = match change_of(call) {
            Change::Opens(bracket) => may_open(number, thread, bracket),
            Change::Closes(bracket) => match self.innermost(number, thread) {
                Some(open) => is_match(open, bracket),
                None => false,
            },
            Change::Stays => true,
        };
        changes && (!is_end(call) || has_none_open(number, thread))
    }

    /// Rule 9: no thread holds what is acquired, and this thread holds what is released.
    fn keeps_holders(&self, number: u8, call: &Call) -> bool
        ensures { (past : List EventRecord) → IsKnown self.now past → result ≡ keeps_holders past number call.now }
    {
        match call {
            Call::MutexAcquired { wait_id, .. } => !self.held.contains_key(wait_id),
            Call::MutexReleased { wait_id, .. } => match self.held.get(wait_id) {
                Some(holder) => *holder == number,
                None => false,
            },
            _ => true,
        }
    }

    /// Rule 10: a created task is the next one, and its creator is the thread's current task.
    fn keeps_creations(&self, number: u8, thread: Option<Thread>, call: &Call) -> bool
        ensures { (past : List EventRecord) → IsKnown self.now past → thread ≡ thread_known number past →
            result ≡ keeps_creations past number call.now }
    {
        match call {
            Call::TaskCreate { task, fresh, .. } => {
                is_next(self.greatest_task, fresh.identity)
                    && is_current(number, thread, task.identity)
            }
            _ => true,
        }
    }

    /// Rule 11: a thread goes to a task that was created and hasn't started.
    fn keeps_starts(&self, call: &Call) -> bool
        ensures { (past : List EventRecord) → IsKnown self.now past → Unbroken past →
            result ≡ keeps_starts past call.now }
    {
        match call {
            Call::TaskSchedule { status, next, .. } if *status == SWITCH => {
                match self.created.get(&next.identity) {
                    Some(created) => !created.started,
                    None => false,
                }
            }
            _ => true,
        }
    }

    /// Rule 14: a dispatch stands directly in a work of its region and task, a chunk in a loop and a section in sections, and a chunk ends
    /// within the loop.
    fn keeps_dispatches(&self, number: u8, thread: Option<Thread>, call: &Call) -> bool
        ensures { (past : List EventRecord) → IsKnown self.now past → thread ≡ thread_known number past →
            result ≡ keeps_dispatches past number call.now }
    {
        match call {
            Call::Dispatch {
                region,
                task,
                kind,
                start,
                iterations,
            } => match self.innermost(number, thread) {
                Some(Bracket::Worksharing(others, other, like, count)) => {
                    others == region.identity
                        && other == task.identity
                        && ((*kind == dispatch_kinds::WS_LOOP_CHUNK
                            && like == work_kinds::LOOP
                            && ends_within(*start, *iterations, count))
                            || (*kind == dispatch_kinds::SECTION && like == work_kinds::SECTIONS))
                }
                _ => false,
            },
            _ => true,
        }
    }

    /// The innermost bracket that is open on the thread.
    fn innermost(&self, number: u8, thread: Option<Thread>) -> Option<Bracket>
        ensures { (past : List EventRecord) → IsKnown self.now past → thread ≡ thread_known number past →
            result ≡ innermost_in (opened number past) }
    {
        let Some(thread) = thread else {
            return None;
        };
        let Some(place) = thread.depth.checked_sub(1) else {
            return None;
        };
        match self.brackets.get(&bracket_key(number, place)) {
            Some(opened) => Some(opened.bracket),
            None => None,
        }
    }
}

/// Rule 2: `thread_begin` is the first event of its thread and stands nowhere else, and nothing follows `thread_end`.
fn keeps_threads(thread: Option<Thread>, event: &EventRecord) -> bool
    ensures { (past : List EventRecord) → thread ≡ thread_known event.now.thread past →
        result ≡ keeps_threads past event.now }
{
    match thread {
        None => is_begin(&event.call),
        Some(thread) => !is_begin(&event.call) && !thread.ended,
    }
}

/// Rule 3: thread t begins with identity t + 1, and is the initial thread exactly where t is 0.
fn keeps_kind(number: u8, call: &Call) -> bool
    ensures { (past : List EventRecord) → result ≡ keeps_kind past number call.now }
{
    match call {
        Call::ThreadBegin { kind, thread } => {
            thread.identity == u32::from(number) + 1 && *kind == kind_of_thread(number)
        }
        _ => true,
    }
}

/// The kind of the thread with this number.
fn kind_of_thread(number: u8) -> u32
    ensures { result ≡ kind_of_thread number }
{
    if number == 0 {
        thread_kinds::INITIAL
    } else {
        thread_kinds::WORKER
    }
}

/// Rule 8: directly before it acquires something its thread asks for it.
fn keeps_asking(number: u8, thread: Option<Thread>, call: &Call) -> bool
    ensures { (past : List EventRecord) → thread ≡ thread_known number past →
        result ≡ keeps_asking past number call.now }
{
    match call {
        Call::MutexAcquired { kind, wait_id, .. } => match thread {
            Some(
                Thread {
                    asked: Some(asked),
                    ..
                },
            ) => asked.kind == *kind && asked.wait_id == *wait_id,
            _ => false,
        },
        _ => true,
    }
}

/// Whether what a task enters is entered by the thread's current task.
fn may_open(number: u8, thread: Option<Thread>, bracket: Bracket) -> bool
    ensures { (past : List EventRecord) → thread ≡ thread_known number past → result ≡ may_open past number bracket }
{
    match bracket {
        Bracket::Parallel(_) | Bracket::Implicit(_) => true,
        Bracket::Explicit(task, _)
        | Bracket::Worksharing(_, task, _, _)
        | Bracket::Masking(task)
        | Bracket::Syncing(task, _)
        | Bracket::Waiting(task, _) => is_current(number, thread, task),
    }
}

/// Whether the thread runs this task.
pub(crate) fn is_current(number: u8, thread: Option<Thread>, task: u32) -> bool
    ensures { (past : List EventRecord) → thread ≡ thread_known number past →
        result ≡ is_just task (current number past) }
{
    match thread {
        Some(
            Thread {
                current: Some(current),
                ..
            },
        ) => current.task == task,
        _ => false,
    }
}

/// Whether no bracket is open on the thread.
fn has_none_open(number: u8, thread: Option<Thread>) -> bool
    ensures { (past : List EventRecord) → thread ≡ thread_known number past →
        result ≡ (length (opened number past) == 0) }
{
    match thread {
        Some(thread) => thread.depth == 0,
        None => true,
    }
}

/// Whether a number is the next one after the greatest so far.
pub(crate) fn is_next(greatest: u32, identity: u32) -> bool
    ensures { result ≡ (identity == greatest + 1) }
{
    u64::from(identity) == u64::from(greatest) + 1
}

/// Whether so many iterations from this one on are among so many.
fn ends_within(start: u64, iterations: u64, count: u64) -> bool
    ensures { result ≡ nat_le (start + iterations) count }
{
    match start.checked_add(iterations) {
        Some(end) => end <= count,
        None => false,
    }
}
