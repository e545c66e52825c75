//! A trace of one thread that creates a task, goes to it, and holds a critical within it.

use omp_codes::mutex_kinds::CRITICAL;
use omp_codes::thread_states::OVERHEAD;
use omp_codes::{task_flags, thread_kinds};
use ompt_calls::{Call, EventRecord, Frame, Sequence, Word};
use std::alloc::{AllocError, Global};
use trace_format::{EndMark, Header, RECORDED, Trace, VERSION};

/// The data word of the thread, of the task or of the region with this number.
fn word(identity: u32) -> Word {
    Word { identity, value: 0 }
}

/// An event of the thread.
fn event(seq: u32, call: Call) -> EventRecord {
    EventRecord {
        seq,
        thread: 0,
        state: OVERHEAD,
        wait_id: 0,
        call,
    }
}

/// Task 1 creates task 2.
fn creation() -> Call {
    Call::TaskCreate {
        task: word(1),
        frame: Frame { exit: 0, enter: 0 },
        fresh: word(2),
        flags: task_flags::EXPLICIT,
        has_dependences: 0,
        codeptr: 131_077,
    }
}

/// The thread goes from a task to another one, or comes back.
fn schedule(prior: u32, status: u32, next: u32) -> Call {
    Call::TaskSchedule {
        prior: word(prior),
        status,
        next: word(next),
    }
}

/// The critical with wait identifier 3 is asked for.
fn asked() -> Call {
    Call::MutexAcquire {
        kind: CRITICAL,
        hint: 0,
        variant: 0,
        wait_id: 3,
        codeptr: 196_609,
    }
}

/// It is acquired.
fn acquired() -> Call {
    Call::MutexAcquired {
        kind: CRITICAL,
        wait_id: 3,
        codeptr: 196_609,
    }
}

/// It is released.
fn released() -> Call {
    Call::MutexReleased {
        kind: CRITICAL,
        wait_id: 3,
        codeptr: 196_609,
    }
}

/// The trace.
pub(crate) fn trace(alloc: Global) -> Result<Trace, AllocError> {
    let begin = Call::ThreadBegin {
        kind: thread_kinds::INITIAL,
        thread: word(1),
    };
    let events = [
        event(0, begin),
        event(2, creation()),
        event(4, schedule(1, 7, 2)),
        event(6, asked()),
        event(8, acquired()),
        event(10, released()),
        event(12, schedule(2, 1, 1)),
        event(14, Call::ThreadEnd { thread: word(1) }),
    ];
    Ok(Trace {
        header: Header {
            version: VERSION,
            threads: 1,
            origin: RECORDED,
            mask: omp_codes::PROFILE_MASK,
        },
        events: Sequence(events.to_vec(alloc)?),
        end: EndMark {
            status: 0,
            detail: 0,
            count: 8,
        },
    })
}
