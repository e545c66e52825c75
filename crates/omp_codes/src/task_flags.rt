//! The flags of a task: `ompt_task_flag_t` (OpenMP 5.2, 19.4.4).

/// `ompt_task_initial = 0x00000001`.
pub const INITIAL: u32 = 0x0000_0001;

/// `ompt_task_implicit = 0x00000002`.
pub const IMPLICIT: u32 = 0x0000_0002;

/// `ompt_task_explicit = 0x00000004`.
pub const EXPLICIT: u32 = 0x0000_0004;

/// `ompt_task_undeferred = 0x08000000`, which stands beside `EXPLICIT`.
pub const UNDEFERRED: u32 = 0x0800_0000;

/// The flags of an explicit task that is undeferred.
pub const EXPLICIT_UNDEFERRED: u32 = EXPLICIT | UNDEFERRED;
