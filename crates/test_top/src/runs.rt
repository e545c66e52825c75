//! What guests hear of runs, through the command.

use crate::fixture::*;
use crate::listening::{ACTIVE, Habits, NULL, ONE, STORED, TWO};
use omp_codes::PROFILE_MASK;
use omp_model::{Cause, What};
use ompt_calls::{Call, Frame, Target, Word};
use ompt_cli::{Command, RunOutput};
use run_edges::Memory;
use std::process::Abort;
use std::sync::Wait;
use std::test::Fail;
use std::thread::Threads;

/// Words of a run with one thread.
pub(crate) const RUN_ON_ONE: &[&str] = &["run", "--serial", "--threads", "1"];

/// Words of a run with two threads.
const RUN_ON_TWO: &[&str] = &["run", "--serial", "--threads", "2"];

/// The begin of parallel regions, and implicit tasks.
const REGIONS_AND_TASKS: u64 = 0x88;

/// Implicit tasks.
const TASKS: u64 = 0x80;

/// A command over a region of two with equal guests, and what is reported of it.
struct Case {
    words: &'static [&'static str],
    /// How many guests there are, and how each behaves.
    guests: usize,
    habits: Habits,
    status: u8,
    line: &'static [u8],
    command: Command,
    cause: Cause,
    mask: u64,
    entries: usize,
    /// Entries of the history, with their positions.
    some: &'static [(usize, u8, What)],
    /// For each guest how many calls it got, how often it was started, and how often it was finished.
    heard: &'static [[u64; 3]],
}

/// A run on two threads without guests.
const NO_GUESTS: Case = Case {
    words: RUN_ON_TWO,
    guests: 0,
    habits: ACTIVE,
    status: 0,
    line: b"",
    command: Command::Run(RunOutput::Printed),
    cause: Cause::Done,
    mask: 0,
    entries: 41,
    some: &[],
    heard: &[],
};

const CASES: &[Case] = &[
    NO_GUESTS,
    // Guests that register and answer 0 hear nothing and aren't finished.
    Case {
        guests: 2,
        habits: Habits {
            mask: TASKS,
            answer: 0,
            ..ACTIVE
        },
        heard: &[[0, 1, 0], [0, 0, 0]],
        ..NO_GUESTS
    },
    // Guests past the threads come back, and weren't started.
    Case {
        words: RUN_ON_ONE,
        guests: 3,
        habits: Habits {
            mask: TASKS,
            ..ACTIVE
        },
        mask: TASKS,
        entries: 24,
        heard: &[[4, 1, 1], [0, 0, 0], [0, 0, 0]],
        ..NO_GUESTS
    },
    // One active guest on two threads hears the twelve events of its own thread. Those of the other thread have no part that
    // could store, so the history is the one of 41 entries without a store.
    Case {
        guests: 1,
        mask: PROFILE_MASK,
        heard: &[[12, 1, 1]],
        ..NO_GUESTS
    },
    // A guest that finds no memory at its third call ends the run there, after the Go of that event, and is finished.
    Case {
        words: RUN_ON_ONE,
        guests: 1,
        habits: Habits { fails: 3, ..ACTIVE },
        status: 10,
        line: b"memory\n",
        cause: Cause::Memory,
        mask: PROFILE_MASK,
        entries: 5,
        heard: &[[2, 1, 1]],
        ..NO_GUESTS
    },
    // A listing gives its guests back, and calls none. In its history thread 0 has a turn without an event.
    Case {
        words: LIST_ON_TWO,
        guests: 2,
        command: Command::List,
        mask: PROFILE_MASK,
        some: &[(34, 0, What::Go), (35, 1, What::Go)],
        heard: &[[0, 0, 0], [0, 0, 0]],
        ..NO_GUESTS
    },
];

#[test]
fn guests_hear_of_runs(rt: HostRuntime) -> Result<(), Fail> {
    for case in CASES {
        comes_to(&rt, case)?;
    }
    Ok(())
}

/// The command comes to what the case says.
fn comes_to<R: AllocGlobal + Threads + Wait + Sync + Abort>(
    rt: &R,
    case: &Case,
) -> Result<(), Memory> {
    let told = tell_guests(rt, case.words, REGION_OF_TWO, case.guests, case.habits, &[])?;
    ended(rt, &told, case);
    went(rt, ran_in(rt, &told), case);
    Ok(())
}

/// The command ended as the case says.
fn ended(rt: &impl Abort, told: &Told, case: &Case) {
    assert!(rt; told.status == case.status);
    assert!(rt; told.err.bytes() == case.line);
}

/// What ran is what the case says, and nothing was stored.
fn went(rt: &impl Abort, ran: &Ran, case: &Case) {
    assert!(rt; ran.command == case.command);
    assert!(rt; ran.cause == case.cause);
    assert!(rt; ran.mask == case.mask);
    assert!(rt; ran.history.as_slice().len() == case.entries);
    assert!(rt; stores_in(ran) == 0);
    has_entries(rt, &ran.history, case.some);
    heard(rt, ran, case.heard);
}

/// How many stores there are in the history.
pub(crate) fn stores_in(ran: &Ran) -> usize {
    let entries = ran.history.as_slice().iter();
    entries
        .filter(|entry| matches!(entry.what, What::Put(..)))
        .count()
}

/// There is a guest for each of these: how many calls it got, how often it was started, and how often it was finished.
pub(crate) fn heard(rt: &impl Abort, ran: &Ran, expected: &[[u64; 3]]) {
    assert!(rt; ran.guests.len() == expected.len());
    for (guest, counts) in ran.guests.iter().zip(expected) {
        assert!(rt; guest.counts == *counts);
    }
}

/// The region of the construct in line 2 begins. It asks for two threads.
const REGION_BEGINS: Call = Call::ParallelBegin {
    task: ONE,
    frame: Frame {
        exit: 0,
        enter: 32_769,
    },
    region: TWO,
    requested: 2,
    flags: 0x8000_0001,
    codeptr: 131_073,
};

/// An endpoint of an implicit task.
fn task(endpoint: u32, region: Word, task: Word, actual: u32, index: u32, flags: u32) -> Call {
    Call::ImplicitTask {
        endpoint,
        region,
        task,
        actual,
        index,
        flags,
    }
}

/// What a guest hears on one thread of a region of two, where it stores 77 in the word of the region that begins.
fn heard_of_a_region() -> [(u32, Call); 5] {
    [
        (2, task(1, ONE, ONE, 1, 1, 1)),
        (4, REGION_BEGINS),
        (7, task(1, STORED, TWO, 1, 0, 2)),
        (17, task(2, NULL, TWO, 0, 0, 2)),
        (21, task(2, NULL, ONE, 0, 1, 1)),
    ]
}

/// It hears of regions and tasks, and stores 77 in the word of the region that begins.
const STORING: Habits = Habits {
    mask: REGIONS_AND_TASKS,
    stores: 77,
    ..ACTIVE
};

/// A guest that stores 77 in the word of the region that begins finds it there at the next call.
#[test]
fn a_guest_stores(rt: HostRuntime) -> Result<(), Fail> {
    let told = tell_guest(
        &rt,
        RUN_ON_ONE,
        REGION_OF_TWO,
        STORING,
        &heard_of_a_region(),
    )?;
    has_stored(&rt, &told);
    Ok(())
}

/// The guest stored into the word of the region, and found it there at 7.
fn has_stored(rt: &impl Abort, told: &Told) {
    assert!(rt; told.is_done());
    let ran = ran_in(rt, told);
    assert!(rt; ran.mask == 0x88);
    assert!(rt; ran.history.as_slice().len() == 25);
    assert!(rt; stores_in(ran) == 1);
    has_entries(
        rt,
        &ran.history,
        &[(5, 0, What::Put(Target::Parallel(2), 77))],
    );
    heard(rt, ran, &[[5, 1, 1]]);
    heard_these(
        rt,
        ran,
        &[(1, false), (2, false), (3, true), (4, false), (5, false)],
    );
}

/// Each guest heard the calls that it was asked for at these of its calls, and could inquire there what it can inside, or couldn't.
pub(crate) fn heard_these(rt: &impl Abort, ran: &Ran, expected: &[(u64, bool)]) {
    for guest in &ran.guests {
        assert!(rt; guest.heard.as_slice() == expected);
    }
}

/// Words of a run with one thread that may take one silent step.
const RUN_ONE_STEP: &[&str] = &["run", "--serial", "--threads", "1", "--steps", "1"];

/// A run of the empty program that may take one silent step ends at that limit, in its third turn.
#[test]
fn a_run_meets_its_limit(rt: HostRuntime) -> Result<(), Fail> {
    let told = tell_guest(&rt, RUN_ONE_STEP, PROGRAM, ACTIVE, &[])?;
    has_met_its_limit(&rt, ran_in(&rt, &told));
    Ok(())
}

/// The run ended at its limit, in its third turn.
fn has_met_its_limit(rt: &impl Abort, ran: &Ran) {
    assert!(rt; ran.cause == Cause::Limit(1));
    assert!(rt; ran.history.as_slice().len() == 5);
    heard(rt, ran, &[[2, 1, 1]]);
}
