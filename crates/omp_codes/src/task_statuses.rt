//! Why a thread leaves a task: `ompt_task_status_t` (OpenMP 5.2, 19.4.4).

/// `ompt_task_complete = 1`: the task has ended.
pub const COMPLETE: u32 = 1;

/// `ompt_task_switch = 7`: it hasn't ended, and the thread goes to another task, which begins.
pub const SWITCH: u32 = 7;
