//! The kinds of worksharing: `ompt_work_t` (OpenMP 5.2, 19.4.4).

/// `ompt_work_loop = 1`, for loops of every schedule.
pub const LOOP: u32 = 1;

/// `ompt_work_sections = 2`.
pub const SECTIONS: u32 = 2;

/// `ompt_work_single_executor = 3`: the member that executes the `single`.
pub const SINGLE_EXECUTOR: u32 = 3;

/// `ompt_work_single_other = 4`: a member that doesn't.
pub const SINGLE_OTHER: u32 = 4;
