//! The kinds of synchronization regions: `ompt_sync_region_t` (OpenMP 5.2, 19.4.4.14).

/// `ompt_sync_region_barrier_explicit = 3`.
pub const BARRIER_EXPLICIT: u32 = 3;

/// `ompt_sync_region_taskwait = 5`.
pub const TASKWAIT: u32 = 5;

/// `ompt_sync_region_barrier_implicit_workshare = 8`.
pub const BARRIER_IMPLICIT_WORKSHARE: u32 = 8;

/// `ompt_sync_region_barrier_implicit_parallel = 9`.
pub const BARRIER_IMPLICIT_PARALLEL: u32 = 9;
