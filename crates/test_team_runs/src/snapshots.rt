//! What can be inquired at an event of a program, against values written out by hand.

use crate::fixture::{ONE, REGION_OF_TWO, TWO};
use crate::parts::{Inquired, Keeping, run_on_one, run_on_two};
use omp_model::Cause;
use ompt_calls::{Frame, RegionLevel, TaskLevel, Word};
use std::process::Abort;
use team_run::{Memory, Ran};

const THREE: Word = Word {
    identity: 3,
    value: 0,
};

/// The level of the initial task around a region.
const INITIAL: TaskLevel = TaskLevel {
    flags: 1,
    word: ONE,
    frame: Frame {
        exit: 0,
        enter: 32_769,
    },
    region: ONE,
    index: 0,
};

/// A region in a region of one.
const NESTED: &[u8] = b"int main(void) {
#pragma omp parallel num_threads(1)
#pragma omp parallel
;
return 0;
}
";

/// The levels of tasks where the task of the inner region begins.
const NESTED_TASKS: [TaskLevel; 3] = [
    TaskLevel {
        flags: 2,
        word: THREE,
        frame: Frame { exit: 3, enter: 0 },
        region: THREE,
        index: 0,
    },
    TaskLevel {
        flags: 2,
        word: TWO,
        frame: Frame {
            exit: 2,
            enter: 32_770,
        },
        region: TWO,
        index: 0,
    },
    INITIAL,
];

/// The levels of regions there.
const NESTED_REGIONS: [RegionLevel; 3] = [
    RegionLevel {
        word: THREE,
        team: 1,
    },
    RegionLevel { word: TWO, team: 1 },
    RegionLevel { word: ONE, team: 1 },
];

/// In a region in a region there are three levels of tasks and of regions.
#[test]
fn nested_regions_have_levels(rt: HostRuntime) -> Result<(), Memory> {
    let ran = run_on_one(rt.alloc(), NESTED)?;
    let begun = inquired_at(&rt, &ran, 0, 10);
    assert!(rt; begun.state == (0x001, 0));
    assert!(rt; begun.word == ONE);
    assert!(rt; begun.tasks == NESTED_TASKS.map(Some));
    assert!(rt; begun.regions == NESTED_REGIONS.map(Some));
    Ok(())
}

/// A lock that is initialised and set twice.
const SET_TWICE: &[u8] = b"#include <omp.h>
omp_lock_t l;
int main(void) {
  omp_init_lock(&l);
  omp_set_lock(&l);
  omp_set_lock(&l);
  return 0;
}
";

/// The thread that sets a lock is in the state of that wait, with the lock's wait identifier; also where it will wait forever. Before,
/// where it has come to own the lock, it is at work.
#[test]
fn a_wait_for_a_lock_is_told(rt: HostRuntime) -> Result<(), Memory> {
    let ran = run_on_one(rt.alloc(), SET_TWICE)?;
    assert!(rt; ran.cause == Cause::Deadlock);
    for (place, state) in [
        (4, (0x000, 0)),
        (6, (0x041, 65_536)),
        (8, (0x000, 0)),
        (10, (0x041, 65_536)),
    ] {
        assert!(rt;
            inquired_at(&rt, &ran, 0, place).state == state,
            "at {place}"
        );
    }
    Ok(())
}

/// The level of the worker's task in a region of two.
const WORKER: TaskLevel = TaskLevel {
    flags: 2,
    word: THREE,
    frame: Frame {
        exit: 65_537,
        enter: 0,
    },
    region: TWO,
    index: 1,
};

/// The worker of a region of two: what it can inquire where its implicit task begins, and where that task ends.
#[test]
fn a_worker_has_levels(rt: HostRuntime) -> Result<(), Memory> {
    let ran = run_on_two(rt.alloc(), REGION_OF_TWO)?;
    let begun = inquired_at(&rt, &ran, 1, 10);
    assert!(rt; begun.state == (0x001, 0) && begun.word == TWO);
    assert!(rt; begun.tasks == [Some(WORKER), Some(INITIAL), None]);
    let outer = RegionLevel { word: ONE, team: 1 };
    let inner = RegionLevel { word: TWO, team: 2 };
    assert!(rt; begun.regions == [Some(inner), Some(outer), None]);
    let ended = inquired_at(&rt, &ran, 1, 30);
    assert!(rt; ended.state == (0x100, 0));
    assert!(rt; ended.tasks == [None; 3] && ended.regions == [None; 3]);
    Ok(())
}

/// What the thread's part could inquire at this place of the history.
fn inquired_at(rt: &impl Abort, ran: &Ran<Keeping>, thread: usize, place: u32) -> Inquired {
    if let Some(part) = ran.parts.get(thread) {
        for heard in &part.heard {
            if heard.seq == place {
                return heard.inquired;
            }
        }
    }
    panic!(rt; "nothing was told at {place}")
}
