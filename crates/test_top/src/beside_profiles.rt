//! Guests beside profiles: what each guest hears, and what is written. The constants are tables, a row a case.

use crate::fixture::*;
use crate::listening::{ACTIVE, Habits};
use crate::runs::{heard, heard_these, stores_in};
use crate::stored_words::{ENTRIES, SINGLE, STORING, heard_of_work};
use omp_codes::PROFILE_MASK;
use omp_model::{Cause, What};
use ompt_cli::{Command, RunOutput};
use run_edges::Memory;
use std::process::Abort;
use std::sync::Wait;
use std::test::Fail;
use std::thread::Threads;

/// Words of a run with one thread beside a profile.
const ONE_PROFILED: &[&str] = &["run", "--serial", "--threads", "1", "--profile"];

/// The callback of targets, of which no program here has an event.
const TARGETS: u64 = 0x100;

/// Implicit tasks.
const TASKS: u64 = 0x80;

/// A guest beside a profile over the single in a region of one, and what it comes to.
struct Beside {
    habits: Habits,
    status: u8,
    line: &'static [u8],
    cause: Cause,
    out: &'static [u8],
    /// What the run has registered.
    mask: u64,
    entries: usize,
    some: &'static [(usize, u8, What)],
    stores: usize,
    /// How many calls it got, how often it was started, and how often it was finished.
    counts: [u64; 3],
    /// At which of its calls it heard that the region begins, and that the work begins and ends.
    heard: [(u64, bool); 3],
}

/// The counts of the single in a region of one.
const SINGLE_COUNTS: &[u8] = b"thread_begin               1
thread_end                 1
parallel_begin             1
parallel_end               1
task_create                0
task_schedule              0
implicit_task              4
sync_region_wait           2
mutex_released             0
work                       2
masked                     0
sync_region                2
lock_init                  0
lock_destroy               0
mutex_acquire              0
mutex_acquired             0
dispatch                   0
total                     14
thread           0        14
";

/// A guest that hears of regions and work, and stores into both.
const STORES: Beside = Beside {
    habits: STORING,
    status: 0,
    line: b"",
    cause: Cause::Done,
    out: SINGLE_COUNTS,
    mask: PROFILE_MASK,
    entries: 30,
    some: ENTRIES,
    stores: 2,
    counts: [3, 1, 1],
    heard: [(1, false), (2, false), (3, false)],
};

const BESIDE: &[Beside] = &[
    STORES,
    // A guest that answers 0 hears nothing and isn't finished.
    Beside {
        habits: Habits {
            answer: 0,
            ..STORING
        },
        entries: 28,
        some: &[],
        stores: 0,
        counts: [0, 1, 0],
        heard: [(0, false), (0, false), (0, false)],
        ..STORES
    },
    // One that registers nothing hears nothing, and is finished.
    Beside {
        habits: Habits { mask: 0, ..STORING },
        entries: 28,
        some: &[],
        stores: 0,
        counts: [0, 1, 1],
        heard: [(0, false), (0, false), (0, false)],
        ..STORES
    },
    // What it registers beside the profile is registered too.
    Beside {
        habits: Habits {
            mask: TARGETS,
            ..STORING
        },
        mask: TARGETS | PROFILE_MASK,
        entries: 28,
        some: &[],
        stores: 0,
        counts: [0, 1, 1],
        heard: [(0, false), (0, false), (0, false)],
        ..STORES
    },
    // One that finds no memory at its second call ends the run there, after the Go of that event, and is finished. Nothing is written.
    Beside {
        habits: Habits {
            fails: 2,
            ..STORING
        },
        status: 10,
        line: b"memory\n",
        cause: Cause::Memory,
        out: b"",
        entries: 10,
        some: &[(9, 0, What::Go)],
        stores: 1,
        counts: [1, 1, 1],
        heard: [(1, false), (0, false), (0, false)],
        ..STORES
    },
];

#[test]
fn guests_hear_beside_profiles(rt: HostRuntime) -> Result<(), Fail> {
    for beside in BESIDE {
        comes_to(&rt, beside)?;
    }
    Ok(())
}

/// The run comes to what is said of the guest.
fn comes_to<R: AllocGlobal + Threads + Wait + Sync + Abort>(
    rt: &R,
    beside: &Beside,
) -> Result<(), Memory> {
    let told = tell_guest(rt, ONE_PROFILED, SINGLE, beside.habits, &heard_of_work())?;
    ended(rt, &told, beside);
    went(rt, ran_in(rt, &told), beside);
    Ok(())
}

/// The command ended so, and wrote this.
fn ended(rt: &impl Abort, told: &Told, beside: &Beside) {
    assert!(rt; told.status == beside.status);
    assert!(rt; told.err.bytes() == beside.line);
    assert!(rt; told.out.bytes() == beside.out);
}

/// What ran is this, and the guest heard this.
fn went(rt: &impl Abort, ran: &Ran, beside: &Beside) {
    assert!(rt; ran.command == Command::Run(RunOutput::Profile));
    assert!(rt; ran.cause == beside.cause);
    assert!(rt; ran.mask == beside.mask);
    assert!(rt; ran.history.as_slice().len() == beside.entries);
    assert!(rt; stores_in(ran) == beside.stores);
    has_entries(rt, &ran.history, beside.some);
    heard(rt, ran, &[beside.counts]);
    heard_these(rt, ran, &beside.heard);
}

/// Words of runs with two threads beside profiles, one serial and one by threads.
const TWO_PROFILED: [&[&str]; 2] = [
    &["run", "--serial", "--threads", "2", "--profile"],
    &["run", "--threads", "2", "--profile"],
];

/// The counts of a region of two.
const REGION_COUNTS: &[u8] = b"thread_begin               2
thread_end                 2
parallel_begin             1
parallel_end               1
task_create                0
task_schedule              0
implicit_task              6
sync_region_wait           4
mutex_released             0
work                       0
masked                     0
sync_region                4
lock_init                  0
lock_destroy               0
mutex_acquire              0
mutex_acquired             0
dispatch                   0
total                     20
thread           0        12
thread           1         8
";

/// It hears of implicit tasks.
const ON_TASKS: Habits = Habits {
    mask: TASKS,
    ..ACTIVE
};

/// Each of two guests hears of the implicit tasks of its thread, and a third one of nothing. Only the first is started and finished.
#[test]
fn guests_on_two_threads_hear_beside_profiles(rt: HostRuntime) -> Result<(), Fail> {
    for words in TWO_PROFILED {
        let told = tell_guests(&rt, words, REGION_OF_TWO, 3, ON_TASKS, &[])?;
        has_counted(&rt, &told);
    }
    Ok(())
}

/// All calls were counted, and the guests heard of implicit tasks.
fn has_counted(rt: &impl Abort, told: &Told) {
    assert!(rt; told.is_done());
    assert!(rt; told.out.bytes() == REGION_COUNTS);
    let ran = ran_in(rt, told);
    assert!(rt; ran.mask == PROFILE_MASK);
    assert!(rt; stores_in(ran) == 0);
    heard(rt, ran, &[[4, 1, 1], [2, 0, 0], [0, 0, 0]]);
}
