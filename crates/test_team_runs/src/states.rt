//! The state of a thread at each of its events, and what it waits for, against values written out by hand. The constants are tables, a row
//! a case.

use crate::parts::{Heard, run_on_two};
use omp_model::Cause;
use std::alloc::Global;
use std::process::Abort;
use team_run::Memory;

/// The number of an event's callback, and the thread's state there.
type At = (u32, u16);

/// A program that runs on two threads, one of them, and its states at all its events in their order. Behind them are the states with a
/// wait identifier, which is 0 at all others.
struct Watch {
    text: &'static [u8],
    thread: u8,
    states: &'static [&'static [At]],
    waits: &'static [(u16, u32)],
}

/// The initial thread and its task begin, and end.
const BEGUN: &[At] = &[(1, 0x101), (7, 0x000)];

const ENDED: &[At] = &[(7, 0x101), (2, 0x101)];

/// The barriers of a worksharing construct and of a region, where no task is begun.
const SHARED: &[At] = &[(23, 0x101), (16, 0x012), (16, 0x101), (23, 0x101)];

const JOINED: &[At] = &[(23, 0x101), (16, 0x011), (16, 0x101), (23, 0x101)];

/// A lock, which has cell 1. The first test of it fails. The criticals have the numbers 1 and 2.
const LOCKS: &[u8] = b"#include <omp.h>
int x;
omp_lock_t l;
int main(void) {
omp_init_lock(&l); omp_set_lock(&l);
x = omp_test_lock(&l); omp_unset_lock(&l);
x = omp_test_lock(&l); omp_unset_lock(&l); omp_destroy_lock(&l);
#pragma omp critical
;
#pragma omp critical (a)
;
return 0;
}
";

/// A task in each wait of a thread. Then an undeferred task in one, and a task that is left when main has returned.
const TASKS: &[u8] = b"int main(void) {
#pragma omp task
;
#pragma omp taskwait
#pragma omp task
;
#pragma omp barrier
#pragma omp single
#pragma omp task
;
#pragma omp parallel num_threads(1)
#pragma omp task
;
#pragma omp task if(0)
#pragma omp task if(0)
;
#pragma omp task
{
#pragma omp task
;
#pragma omp taskwait
}
return 0;
}
";

/// A region of two that an undeferred task meets. The task that member 0 creates is begun by member 1, which waits at the barrier first.
const TEAM: &[u8] = b"int main(void) {
#pragma omp task if(0)
#pragma omp parallel num_threads(2)
{
#pragma omp masked
#pragma omp task
;
#pragma omp barrier
#pragma omp for schedule(static, 1)
for (int i = 0; i < 2; i++) ;
#pragma omp critical
;
#pragma omp parallel
;
}
return 0;
}
";

const WATCHES: &[Watch] = &[
    Watch {
        text: LOCKS,
        thread: 0,
        states: &[
            BEGUN,
            &[(24, 0x000), (26, 0x041), (27, 0x000)],
            &[(26, 0x000), (17, 0x000)],
            &[(26, 0x000), (27, 0x000), (17, 0x000), (25, 0x000)],
            &[(26, 0x042), (27, 0x000), (17, 0x000)],
            &[(26, 0x042), (27, 0x000), (17, 0x000)],
            ENDED,
        ],
        waits: &[(0x041, 65_537), (0x042, 1), (0x042, 2)],
    },
    Watch {
        text: TASKS,
        thread: 0,
        states: &[
            BEGUN,
            &[(5, 0x000), (23, 0x101), (16, 0x020)],
            &[(6, 0x000), (6, 0x020), (16, 0x101), (23, 0x101)],
            &[(5, 0x000), (23, 0x101), (16, 0x014)],
            &[(6, 0x000), (6, 0x014), (16, 0x101), (23, 0x101)],
            &[(20, 0x000), (5, 0x000), (20, 0x000)],
            &[(23, 0x101), (16, 0x012)],
            &[(6, 0x000), (6, 0x012), (16, 0x101), (23, 0x101)],
            &[(3, 0x101), (7, 0x001), (5, 0x001)],
            &[(23, 0x101), (16, 0x011)],
            &[(6, 0x001), (6, 0x011), (16, 0x101), (23, 0x101)],
            &[(7, 0x101), (4, 0x101)],
            &[(5, 0x000), (6, 0x000), (5, 0x000), (6, 0x000)],
            &[(6, 0x000), (6, 0x000)],
            &[(5, 0x000)],
            &[(6, 0x000), (5, 0x000), (23, 0x101), (16, 0x020)],
            &[(6, 0x000), (6, 0x020), (16, 0x101), (23, 0x101)],
            &[(6, 0x101)],
            ENDED,
        ],
        waits: &[],
    },
    Watch {
        text: TEAM,
        thread: 0,
        states: &[
            BEGUN,
            &[(5, 0x000), (6, 0x000), (3, 0x101), (7, 0x001)],
            &[(21, 0x001), (5, 0x001), (21, 0x001)],
            &[(23, 0x101), (16, 0x014), (16, 0x101), (23, 0x101)],
            &[(20, 0x001), (32, 0x001), (20, 0x001)],
            SHARED,
            &[(26, 0x042), (27, 0x001), (17, 0x001)],
            &[(3, 0x101), (7, 0x001)],
            JOINED,
            &[(7, 0x101), (4, 0x101)],
            JOINED,
            &[(7, 0x101), (4, 0x101), (6, 0x000)],
            ENDED,
        ],
        waits: &[(0x042, 1)],
    },
    Watch {
        text: TEAM,
        thread: 1,
        states: &[
            &[(1, 0x101), (7, 0x001)],
            &[(23, 0x101), (16, 0x014)],
            &[(6, 0x001), (6, 0x014), (16, 0x101), (23, 0x101)],
            &[(20, 0x001), (32, 0x001), (20, 0x001)],
            SHARED,
            &[(26, 0x042), (27, 0x001), (17, 0x001)],
            &[(3, 0x101), (7, 0x001)],
            JOINED,
            &[(7, 0x101), (4, 0x101)],
            JOINED,
            &[(7, 0x100), (2, 0x101)],
        ],
        waits: &[(0x042, 1)],
    },
];

/// Each thread is in these states, and has these wait identifiers.
#[test]
fn threads_are_in_their_states(rt: HostRuntime) -> Result<(), Memory> {
    for (place, watch) in WATCHES.iter().enumerate() {
        let seen = seen_in(&rt, watch)?;
        let wanted = wanted_states(rt.alloc(), watch)?;
        assert!(rt; seen.states.as_slice() == wanted.as_slice(), "at {place}");
        assert!(rt; seen.waits.as_slice() == watch.waits, "at {place}");
    }
    Ok(())
}

/// The states that are wanted, one behind the other.
fn wanted_states(alloc: Global, watch: &Watch) -> Result<Vec<At>, Memory> {
    let mut states = Vec::new(alloc);
    for some in watch.states {
        states.extend_from_slice(some)?;
    }
    Ok(states)
}

/// A thread's states, and those with a wait identifier.
#[derive(Drop)]
struct Seen {
    states: Vec<At>,
    waits: Vec<(u16, u32)>,
}

impl Seen {
    /// Adds what was inquired at this call.
    fn add(&mut self, heard: &Heard) -> Result<(), Memory> {
        let (state, wait_id) = heard.inquired.state;
        self.states.push((heard.number, state))?;
        if wait_id != 0 {
            self.waits.push((state, wait_id))?;
        }
        Ok(())
    }
}

/// What the part of the thread has seen in a run on two threads.
fn seen_in<R: Abort + AllocGlobal>(rt: &R, watch: &Watch) -> Result<Seen, Memory> {
    let ran = run_on_two(rt.alloc(), watch.text)?;
    assert!(rt; ran.cause == Cause::Done);
    let mut seen = Seen {
        states: Vec::new(rt.alloc()),
        waits: Vec::new(rt.alloc()),
    };
    if let Some(part) = ran.parts.get(watch.thread as usize) {
        for heard in &part.heard {
            seen.add(heard)?;
        }
    }
    Ok(seen)
}
