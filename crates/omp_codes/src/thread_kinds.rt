//! The kinds of threads: `ompt_thread_t` (OpenMP 5.2, 19.4.4.10).

/// `ompt_thread_initial = 1`.
pub const INITIAL: u32 = 1;

/// `ompt_thread_worker = 2`.
pub const WORKER: u32 = 2;
