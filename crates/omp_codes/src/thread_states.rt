//! The states of a thread as a snapshot and the record of an event have them, in 16 bits: those of [`states`](crate::states).

use crate::states;

/// `ompt_state_work_serial = 0x000`.
pub const WORK_SERIAL: u16 = states::WORK_SERIAL as u16;

/// `ompt_state_work_parallel = 0x001`.
pub const WORK_PARALLEL: u16 = states::WORK_PARALLEL as u16;

/// `ompt_state_wait_barrier_implicit_parallel = 0x011`.
pub const WAIT_BARRIER_IMPLICIT_PARALLEL: u16 = states::WAIT_BARRIER_IMPLICIT_PARALLEL as u16;

/// `ompt_state_wait_barrier_implicit_workshare = 0x012`.
pub const WAIT_BARRIER_IMPLICIT_WORKSHARE: u16 = states::WAIT_BARRIER_IMPLICIT_WORKSHARE as u16;

/// `ompt_state_wait_barrier_explicit = 0x014`.
pub const WAIT_BARRIER_EXPLICIT: u16 = states::WAIT_BARRIER_EXPLICIT as u16;

/// `ompt_state_wait_taskwait = 0x020`.
pub const WAIT_TASKWAIT: u16 = states::WAIT_TASKWAIT as u16;

/// `ompt_state_wait_lock = 0x041`.
pub const WAIT_LOCK: u16 = states::WAIT_LOCK as u16;

/// `ompt_state_wait_critical = 0x042`.
pub const WAIT_CRITICAL: u16 = states::WAIT_CRITICAL as u16;

/// `ompt_state_idle = 0x100`.
pub const IDLE: u16 = states::IDLE as u16;

/// `ompt_state_overhead = 0x101`.
pub const OVERHEAD: u16 = states::OVERHEAD as u16;
