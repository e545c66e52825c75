//! What parts that keep their calls answer, keep and have written, against records, counts and texts written out by hand. The listing of a
//! region of two has the lines, and timelines stand in a file of their own.

use crate::fixture::{ONE, TWO};
use crate::hearing::{BEGIN, BEGIN_AND_END, END, hear, hear_many};
use ompt_calls::{Call, EventRecord, Frame};
use std::process::Abort;
use tool_api::{Registrar, ToolPart};
use tool_report::{Lister, Memory, Profile, Recorder, Timeline, lines_text, profile_text};

/// Each part registers the callbacks of the profile and no others, and is active.
#[test]
fn parts_register_the_profile(rt: HostRuntime) {
    is_active(&rt, &mut Recorder::new(rt.alloc()));
    is_active(&rt, &mut Profile::new());
    is_active(&rt, &mut Timeline::new(rt.alloc()));
}

fn is_active<P: ToolPart>(rt: &impl Abort, part: &mut P) {
    let mut registrar = Registrar::new();
    assert!(rt; part.initialize(&mut registrar) == 1);
    assert!(rt; registrar.mask() == 0x1_0FB3_00FE);
}

#[test]
fn a_lister_keeps_its_calls(rt: HostRuntime) -> Result<(), Memory> {
    let mut lister = Lister::new(rt.alloc());
    hear(&rt, &mut lister, 1, &BEGIN_AND_END)?;
    let kept = BEGIN_AND_END.map(|(seq, state, call)| EventRecord {
        seq,
        thread: 1,
        state,
        wait_id: 3,
        call,
    });
    assert!(rt; lister.events() == kept.as_slice());
    Ok(())
}

#[test]
fn no_listers_have_no_lines(rt: HostRuntime) -> Result<(), Memory> {
    assert!(rt; lines_text(rt.alloc(), &[])?.len() == 0);
    Ok(())
}

const FRAME: Frame = Frame {
    exit: 0,
    enter: 32_769,
};

/// A call of each callback of the profile, by rising numbers.
const CALLS: [Call; 17] = [
    BEGIN,
    END,
    Call::ParallelBegin {
        task: ONE,
        frame: FRAME,
        region: TWO,
        requested: 2,
        flags: 0x8000_0001,
        codeptr: 131_073,
    },
    Call::ParallelEnd {
        region: TWO,
        task: ONE,
        flags: 0x8000_0001,
        codeptr: 131_073,
    },
    Call::TaskCreate {
        task: ONE,
        frame: FRAME,
        fresh: TWO,
        flags: 4,
        has_dependences: 0,
        codeptr: 131_073,
    },
    Call::TaskSchedule {
        prior: ONE,
        status: 7,
        next: TWO,
    },
    Call::ImplicitTask {
        endpoint: 1,
        region: TWO,
        task: TWO,
        actual: 2,
        index: 0,
        flags: 2,
    },
    Call::SyncRegionWait {
        kind: 9,
        endpoint: 1,
        region: TWO,
        task: TWO,
        codeptr: 131_073,
    },
    Call::MutexReleased {
        kind: 5,
        wait_id: 1,
        codeptr: 131_073,
    },
    Call::Work {
        kind: 3,
        endpoint: 1,
        region: TWO,
        task: TWO,
        count: 1,
        codeptr: 131_073,
    },
    Call::Masked {
        endpoint: 1,
        region: TWO,
        task: TWO,
        codeptr: 131_073,
    },
    Call::SyncRegion {
        kind: 9,
        endpoint: 1,
        region: TWO,
        task: TWO,
        codeptr: 131_073,
    },
    Call::LockInit {
        kind: 1,
        hint: 0,
        variant: 0,
        wait_id: 65_536,
        codeptr: 131_073,
    },
    Call::LockDestroy {
        kind: 1,
        wait_id: 65_536,
        codeptr: 131_073,
    },
    Call::MutexAcquire {
        kind: 1,
        hint: 0,
        variant: 0,
        wait_id: 65_536,
        codeptr: 131_073,
    },
    Call::MutexAcquired {
        kind: 1,
        wait_id: 65_536,
        codeptr: 131_073,
    },
    Call::Dispatch {
        region: TWO,
        task: TWO,
        kind: 3,
        start: 0,
        iterations: 3,
    },
];

/// A profile that heard the first of the calls once, the second one twice, and so on.
fn profile_of_all<R: Abort + AllocGlobal>(rt: &R) -> Result<Profile, Memory> {
    let mut profile = Profile::new();
    let mut times = 0_u32;
    for call in CALLS {
        times = times.saturating_add(1);
        for seq in 0..times {
            hear(rt, &mut profile, 0, &[(seq, 0x001, call)])?;
        }
    }
    Ok(profile)
}

/// A profile counts the calls of each callback at a place of its own. One that was told nothing has counted none.
#[test]
fn a_profile_counts_its_calls(rt: HostRuntime) -> Result<(), Memory> {
    let counts = [1, 2, 3, 4, 5, 6, 7, 8, 9, 10, 11, 12, 13, 14, 15, 16, 17];
    let profile = profile_of_all(&rt)?;
    assert!(rt; profile.counts() == counts.as_slice());
    let untold = Profile::new();
    assert!(rt; untold.counts() == [0; 17].as_slice());
    Ok(())
}

/// The text of three profiles: the first heard 153 calls, the second none, and the third one.
const PROFILE_TEXT: &[u8] = b"thread_begin               2
thread_end                 2
parallel_begin             3
parallel_end               4
task_create                5
task_schedule              6
implicit_task              7
sync_region_wait           8
mutex_released             9
work                      10
masked                    11
sync_region               12
lock_init                 13
lock_destroy              14
mutex_acquire             15
mutex_acquired            16
dispatch                  17
total                    154
thread           0       153
thread           2         1
";

/// Profiles of three threads, of which the second one heard nothing.
fn three_profiles<R: Abort + AllocGlobal>(rt: &R) -> Result<Vec<Profile>, Memory> {
    let first = profile_of_all(rt)?;
    let mut last = Profile::new();
    hear(rt, &mut last, 2, &[(9, 0x101, BEGIN)])?;
    Ok(Vec::from_array(rt.alloc(), [first, Profile::new(), last])?)
}

/// A thread without a call has no line.
#[test]
fn profiles_have_a_text(rt: HostRuntime) -> Result<(), Memory> {
    let profiles = three_profiles(&rt)?;
    let text = profile_text(rt.alloc(), &profiles)?;
    assert!(rt; text.as_slice() == PROFILE_TEXT);
    Ok(())
}

/// Without a profile each count is 0, and there is no thread.
#[test]
fn no_profiles_have_eighteen_lines(rt: HostRuntime) -> Result<(), Memory> {
    let text = profile_text(rt.alloc(), &[])?;
    assert!(rt; text.len() == 18 * 29);
    assert!(rt;
        text.as_slice()
            .starts_with(b"thread_begin               0\n")
    );
    assert!(rt; text.as_slice().ends_with(b"total                      0\n"));
    Ok(())
}

/// A profile finds memory for ten thousand calls, and for its text.
#[test]
fn a_profile_of_many_calls(rt: HostRuntime) -> Result<(), Memory> {
    let mut profile = Profile::new();
    hear_many(&rt, &mut profile)?;
    assert!(rt; profile.counts().first() == Some(&10_000));
    let profiles = Vec::from_array(rt.alloc(), [profile])?;
    let text = profile_text(rt.alloc(), &profiles)?;
    assert!(rt;
        text.as_slice()
            .starts_with(b"thread_begin           10000\n")
    );
    Ok(())
}
