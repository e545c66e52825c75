//! Events in words that are easy to write: the position, the thread, the callback, and its numbers.
//!
//! A word stands for its identity. Values, frames and places are left out, and so are the flags of regions.
//!
//! | Written | Numbers |
//! |---|---|
//! | `0 0 thread_begin 1 1` | the kind and the thread's word |
//! | `39 0 thread_end 1` | the thread's word |
//! | `4 0 parallel_begin 1 2 2` | the encountering task, the region, and how many threads are asked for |
//! | `32 0 parallel_end 2 1` | the region and the encountering task |
//! | `4 0 task_create 1 2 4` | the encountering task, the new one, and its flags |
//! | `6 0 task_schedule 1 7 2` | the prior task, the status, and the next task |
//! | `2 0 implicit_task 1 1 1 1 1 1` | the endpoint, the region, the task, the actual parallelism, the index and the flags |
//! | `16 0 sync_region_wait 9 1 2 2` | the kind, the endpoint, the region and the task; so of `sync_region` |
//! | `24 1 work 3 1 2 3 1` | the kind, the endpoint, the region, the task and the count |
//! | `12 0 masked 1 2 2` | the endpoint, the region and the task |

use omp_codes::parallel_flags::TEAM_OF_PROGRAM;
use ompt_calls::{Call, EventRecord, Frame, Word};
use std::alloc::Global;
use test_rows::RowFault;

/// No frame.
const NOWHERE: Frame = Frame { exit: 0, enter: 0 };

/// The event that is written so.
pub(crate) fn event_of(alloc: Global, text: &str) -> Result<EventRecord, RowFault> {
    let (seq, text) = text.split_once(' ').ok_or(RowFault::NoSuchEvent)?;
    let (thread, text) = text.split_once(' ').ok_or(RowFault::NoSuchEvent)?;
    Ok(EventRecord {
        seq: seq.parse()?,
        thread: thread.parse()?,
        state: 0,
        wait_id: 0,
        call: call_in(alloc, text)?,
    })
}

/// The callback that is written so.
fn call_in(alloc: Global, text: &str) -> Result<Call, RowFault> {
    let (name, text) = text.split_once(' ').ok_or(RowFault::NoSuchEvent)?;
    let numbers = numbers_of(alloc, text)?;
    call_of(name, numbers.as_slice()).ok_or(RowFault::NoSuchEvent)
}

/// The numbers with blanks between them.
fn numbers_of(alloc: Global, text: &str) -> Result<Vec<u32>, RowFault> {
    let mut numbers = Vec::new(alloc);
    for number in text.split(' ') {
        numbers.push(number.parse()?)?;
    }
    Ok(numbers)
}

/// The word with this identity.
fn word(identity: u32) -> Word {
    Word { identity, value: 0 }
}

/// The callback with this name and these numbers.
fn call_of(name: &str, numbers: &[u32]) -> Option<Call> {
    match name {
        "thread_begin" | "thread_end" => thread_call(name, numbers),
        "parallel_begin" | "parallel_end" => region_call(name, numbers),
        "task_create" | "task_schedule" => task_call(name, numbers),
        "implicit_task" => implicit_call(numbers),
        "sync_region" | "sync_region_wait" => sync_call(name, numbers),
        _ => work_call(name, numbers),
    }
}

/// A callback of a thread.
fn thread_call(name: &str, numbers: &[u32]) -> Option<Call> {
    match (name, numbers) {
        ("thread_begin", [kind, thread]) => Some(Call::ThreadBegin {
            kind: *kind,
            thread: word(*thread),
        }),
        ("thread_end", [thread]) => Some(Call::ThreadEnd {
            thread: word(*thread),
        }),
        _ => None,
    }
}

/// A callback of a region.
fn region_call(name: &str, numbers: &[u32]) -> Option<Call> {
    match (name, numbers) {
        ("parallel_begin", [task, region, requested]) => Some(Call::ParallelBegin {
            task: word(*task),
            frame: NOWHERE,
            region: word(*region),
            requested: *requested,
            flags: TEAM_OF_PROGRAM,
            codeptr: 0,
        }),
        ("parallel_end", [region, task]) => Some(Call::ParallelEnd {
            region: word(*region),
            task: word(*task),
            flags: TEAM_OF_PROGRAM,
            codeptr: 0,
        }),
        _ => None,
    }
}

/// A callback of an explicit task.
fn task_call(name: &str, numbers: &[u32]) -> Option<Call> {
    match (name, numbers) {
        ("task_create", [task, fresh, flags]) => Some(Call::TaskCreate {
            task: word(*task),
            frame: NOWHERE,
            fresh: word(*fresh),
            flags: *flags,
            has_dependences: 0,
            codeptr: 0,
        }),
        ("task_schedule", [prior, status, next]) => Some(Call::TaskSchedule {
            prior: word(*prior),
            status: *status,
            next: word(*next),
        }),
        _ => None,
    }
}

/// The callback of an implicit task.
fn implicit_call(numbers: &[u32]) -> Option<Call> {
    match numbers {
        [endpoint, region, task, actual, index, flags] => Some(Call::ImplicitTask {
            endpoint: *endpoint,
            region: word(*region),
            task: word(*task),
            actual: *actual,
            index: *index,
            flags: *flags,
        }),
        _ => None,
    }
}

/// A callback of a barrier or a taskwait.
fn sync_call(name: &str, numbers: &[u32]) -> Option<Call> {
    match (name, numbers) {
        ("sync_region_wait", [kind, endpoint, region, task]) => Some(Call::SyncRegionWait {
            kind: *kind,
            endpoint: *endpoint,
            region: word(*region),
            task: word(*task),
            codeptr: 0,
        }),
        ("sync_region", [kind, endpoint, region, task]) => Some(Call::SyncRegion {
            kind: *kind,
            endpoint: *endpoint,
            region: word(*region),
            task: word(*task),
            codeptr: 0,
        }),
        _ => None,
    }
}

/// A callback of shared work, or of the statement of a `masked`.
fn work_call(name: &str, numbers: &[u32]) -> Option<Call> {
    match (name, numbers) {
        ("work", [kind, endpoint, region, task, count]) => Some(Call::Work {
            kind: *kind,
            endpoint: *endpoint,
            region: word(*region),
            task: word(*task),
            count: u64::from(*count),
            codeptr: 0,
        }),
        ("masked", [endpoint, region, task]) => Some(Call::Masked {
            endpoint: *endpoint,
            region: word(*region),
            task: word(*task),
            codeptr: 0,
        }),
        _ => None,
    }
}
