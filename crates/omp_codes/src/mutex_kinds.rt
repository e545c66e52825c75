//! The kinds of what excludes: `ompt_mutex_t` (OpenMP 5.2, 19.4.4).

/// `ompt_mutex_lock = 1`.
pub const LOCK: u32 = 1;

/// `ompt_mutex_test_lock = 2`: a lock that is tested.
pub const TEST_LOCK: u32 = 2;

/// `ompt_mutex_critical = 5`.
pub const CRITICAL: u32 = 5;
