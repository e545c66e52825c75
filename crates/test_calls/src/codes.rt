//! The answers to registrations, and the states, against values written out by hand. The constants are tables, a row a case.

use omp_codes::callbacks::{DISPATCH, IMPLICIT_TASK};
use omp_codes::{
    PROFILE, dispatch_kinds, endpoints, is_profile, mutex_kinds, next_state, parallel_flags,
    set_answer, set_results, sync_kinds, task_flags, task_statuses, thread_kinds, thread_states,
    work_kinds,
};
use tool_api::Registrar;

/// Numbers, and the answer to the registration of each.
const ANSWERS: &[(u32, u8)] = &[
    (0, 0),
    (1, 5),
    (8, 5),
    (17, 5),
    (18, 1),
    (19, 1),
    (20, 5),
    (27, 5),
    (28, 1),
    (31, 1),
    (32, 5),
    (33, 5),
    (36, 5),
    (37, 1),
    (38, 0),
    (u32::MAX, 0),
];

/// Numbers that aren't the profile's.
const OTHERS: [u32; 9] = [0, 8, 15, 18, 19, 22, 28, 33, 37];

#[test]
fn registrations_are_answered(rt: HostRuntime) {
    for (number, answer) in ANSWERS {
        assert!(rt; set_answer(*number) == *answer, "at {number}");
    }
    let mut count = 0_u32;
    for number in 0..64 {
        if is_profile(number) {
            count = count.saturating_add(1);
        }
    }
    assert!(rt; count == 17);
    for number in PROFILE {
        assert!(rt; is_profile(number), "at {number}");
    }
    for number in OTHERS {
        assert!(rt; !is_profile(number), "at {number}");
    }
}

/// Registrations one behind the other, with their answers.
const SETTINGS: &[(u32, u8)] = &[
    (0, 0),
    (IMPLICIT_TASK, 5),
    (8, 5),
    (31, 1),
    (DISPATCH, 5),
    (38, 0),
    (IMPLICIT_TASK, 5),
];

/// What is answered of them then.
const KEPT: &[(u32, u8)] = &[
    (0, 0),
    (IMPLICIT_TASK, 1),
    (8, 1),
    (31, 0),
    (DISPATCH, 1),
    (38, 0),
    (64, 0),
];

#[test]
fn registrations_are_kept(rt: HostRuntime) {
    let mut registrar = Registrar::new();
    for (number, answer) in SETTINGS {
        assert!(rt; registrar.set(*number) == *answer, "at {number}");
    }
    for (number, answer) in KEPT {
        assert!(rt; registrar.get(*number) == *answer, "at {number}");
    }
    assert!(rt; registrar.mask() == 0x1_0000_0180);
}

/// States, and the one that is enumerated behind each.
const STATES: &[(u32, Option<u32>)] = &[
    (0x102, Some(0x000)),
    (0x000, Some(0x001)),
    (0x020, Some(0x041)),
    (0x100, Some(0x101)),
    (0x101, None),
    (0x002, None),
    (0x103, None),
];

#[test]
fn states_are_enumerated(rt: HostRuntime) {
    for (state, next) in STATES {
        assert!(rt; next_state(*state) == *next, "at {state}");
    }
}

/// The numbers of the enumerations, and what `omp-tools.h` has for them.
const NUMBERS: &[(u32, u32)] = &[
    (endpoints::BEGIN, 1),
    (endpoints::END, 2),
    (thread_kinds::INITIAL, 1),
    (thread_kinds::WORKER, 2),
    (parallel_flags::INVOKER_PROGRAM, 1),
    (parallel_flags::TEAM, 2_147_483_648),
    (parallel_flags::TEAM_OF_PROGRAM, 2_147_483_649),
    (task_flags::INITIAL, 1),
    (task_flags::IMPLICIT, 2),
    (task_flags::EXPLICIT, 4),
    (task_flags::UNDEFERRED, 134_217_728),
    (task_flags::EXPLICIT_UNDEFERRED, 134_217_732),
    (task_statuses::COMPLETE, 1),
    (task_statuses::SWITCH, 7),
    (work_kinds::LOOP, 1),
    (work_kinds::SECTIONS, 2),
    (work_kinds::SINGLE_EXECUTOR, 3),
    (work_kinds::SINGLE_OTHER, 4),
    (sync_kinds::BARRIER_EXPLICIT, 3),
    (sync_kinds::TASKWAIT, 5),
    (sync_kinds::BARRIER_IMPLICIT_WORKSHARE, 8),
    (sync_kinds::BARRIER_IMPLICIT_PARALLEL, 9),
    (mutex_kinds::LOCK, 1),
    (mutex_kinds::TEST_LOCK, 2),
    (mutex_kinds::CRITICAL, 5),
    (dispatch_kinds::SECTION, 2),
    (dispatch_kinds::WS_LOOP_CHUNK, 3),
];

/// The states in 16 bits, and the answers of registrations.
const SHORT_NUMBERS: &[(u16, u16)] = &[
    (thread_states::WORK_SERIAL, 0x000),
    (thread_states::WORK_PARALLEL, 0x001),
    (thread_states::WAIT_BARRIER_IMPLICIT_PARALLEL, 0x011),
    (thread_states::WAIT_BARRIER_IMPLICIT_WORKSHARE, 0x012),
    (thread_states::WAIT_BARRIER_EXPLICIT, 0x014),
    (thread_states::WAIT_TASKWAIT, 0x020),
    (thread_states::WAIT_LOCK, 0x041),
    (thread_states::WAIT_CRITICAL, 0x042),
    (thread_states::IDLE, 0x100),
    (thread_states::OVERHEAD, 0x101),
    (set_results::ERROR as u16, 0),
    (set_results::NEVER as u16, 1),
    (set_results::ALWAYS as u16, 5),
];

#[test]
fn numbers_are_those_of_the_header(rt: HostRuntime) {
    for (number, header) in NUMBERS {
        assert!(rt; *number == *header, "at {header}");
    }
    for (number, header) in SHORT_NUMBERS {
        assert!(rt; *number == *header, "at {header}");
    }
}
