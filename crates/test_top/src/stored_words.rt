//! A guest that stores into the words of a region and of a task, and hears them later.

use crate::fixture::*;
use crate::listening::{ACTIVE, Habits, ONE, STORED, TWO};
use crate::runs::{RUN_ON_ONE, heard, heard_these, stores_in};
use omp_model::What;
use ompt_calls::{Call, Frame, Target, Word};
use std::process::Abort;
use std::test::Fail;

/// The begin of regions, and work.
const REGIONS_AND_WORK: u64 = 0x10_0008;

/// A single in a region of one.
pub(crate) const SINGLE: &[u8] = b"int main(void) {
#pragma omp parallel num_threads(1)
#pragma omp single nowait
;
return 0;
}
";

/// The word of task 2, into which 100 was stored.
const MARKED: Word = Word {
    identity: 2,
    value: 100,
};

/// An endpoint of the work of the single in line 3, by a task with this word.
fn work(endpoint: u32, task: Word) -> Call {
    Call::Work {
        kind: 3,
        endpoint,
        region: STORED,
        task,
        count: 1,
        codeptr: 196_609,
    }
}

/// What the guest hears: the region begins, and its member begins and ends the work of the single.
pub(crate) fn heard_of_work() -> [(u32, Call); 3] {
    let begins = Call::ParallelBegin {
        task: ONE,
        frame: Frame {
            exit: 0,
            enter: 32_769,
        },
        region: TWO,
        requested: 1,
        flags: 0x8000_0001,
        codeptr: 131_073,
    };
    [(4, begins), (9, work(1, TWO)), (12, work(2, MARKED))]
}

/// Entries of the run, with their positions. Those at 7 and 8 are the begin of the member's task, which isn't registered.
pub(crate) const ENTRIES: &[(usize, u8, What)] = &[
    (4, 0, What::Go),
    (5, 0, What::Put(Target::Parallel(2), 77)),
    (6, 0, What::Back),
    (7, 0, What::Go),
    (8, 0, What::Back),
    (9, 0, What::Go),
    (10, 0, What::Put(Target::Task(2), 100)),
    (11, 0, What::Back),
    (12, 0, What::Go),
    (13, 0, What::Back),
];

/// It hears of regions and work, and stores into both.
pub(crate) const STORING: Habits = Habits {
    mask: REGIONS_AND_WORK,
    stores: 77,
    stores_at_work: 100,
    ..ACTIVE
};

#[test]
fn a_guest_stores_into_a_region_and_a_task(rt: HostRuntime) -> Result<(), Fail> {
    let told = tell_guest(&rt, RUN_ON_ONE, SINGLE, STORING, &heard_of_work())?;
    has_stored(&rt, &told);
    Ok(())
}

/// The guest stored into the word of the region and into that of the task, and heard both.
fn has_stored(rt: &impl Abort, told: &Told) {
    assert!(rt; told.is_done());
    let ran = ran_in(rt, told);
    assert!(rt; ran.mask == REGIONS_AND_WORK);
    assert!(rt; stores_in(ran) == 2);
    has_entries(rt, &ran.history, ENTRIES);
    heard(rt, ran, &[[3, 1, 1]]);
    heard_these(rt, ran, &[(1, false), (2, false), (3, false)]);
}
