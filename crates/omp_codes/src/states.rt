//! The states of a thread.

ghost use Rattle.std.specs.Prelude.{◌≡◌};
ghost use Rattle.omp_codes.specs.States.{next_of};

/// `ompt_state_work_serial` of `ompt_state_t` (OpenMP 5.2, 19.4.4).
pub const WORK_SERIAL: u32 = 0x000;

/// `ompt_state_work_parallel`.
pub const WORK_PARALLEL: u32 = 0x001;

/// `ompt_state_wait_barrier_implicit_parallel`.
pub const WAIT_BARRIER_IMPLICIT_PARALLEL: u32 = 0x011;

/// `ompt_state_wait_barrier_implicit_workshare`.
pub const WAIT_BARRIER_IMPLICIT_WORKSHARE: u32 = 0x012;

/// `ompt_state_wait_barrier_explicit`.
pub const WAIT_BARRIER_EXPLICIT: u32 = 0x014;

/// `ompt_state_wait_taskwait`.
pub const WAIT_TASKWAIT: u32 = 0x020;

/// `ompt_state_wait_lock`.
pub const WAIT_LOCK: u32 = 0x041;

/// `ompt_state_wait_critical`.
pub const WAIT_CRITICAL: u32 = 0x042;

/// `ompt_state_idle`.
pub const IDLE: u32 = 0x100;

/// `ompt_state_overhead`.
pub const OVERHEAD: u32 = 0x101;

/// `ompt_state_undefined`, from which an enumeration starts.
pub const UNDEFINED: u32 = 0x102;

/// The state after this one, as `ompt_enumerate_states` (OpenMP 5.2, 19.6.1.1) goes through them. None follows the last
/// one, and none follows a number that is no state.
pub fn next_state(state: u32) -> Option<u32>
    ensures { result ≡ next_of state }
{
    match state {
        UNDEFINED => Some(WORK_SERIAL),
        WORK_SERIAL => Some(WORK_PARALLEL),
        WORK_PARALLEL => Some(WAIT_BARRIER_IMPLICIT_PARALLEL),
        WAIT_BARRIER_IMPLICIT_PARALLEL => Some(WAIT_BARRIER_IMPLICIT_WORKSHARE),
        WAIT_BARRIER_IMPLICIT_WORKSHARE => Some(WAIT_BARRIER_EXPLICIT),
        WAIT_BARRIER_EXPLICIT => Some(WAIT_TASKWAIT),
        WAIT_TASKWAIT => Some(WAIT_LOCK),
        WAIT_LOCK => Some(WAIT_CRITICAL),
        WAIT_CRITICAL => Some(IDLE),
        IDLE => Some(OVERHEAD),
        _ => None,
    }
}
